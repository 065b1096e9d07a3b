// A support program: calls.dat holds a row of calls of the library, and a line or more is printed for each. One desk, one tally and one
// named rule are held from call to call. A call is a byte, then its numbers, each of eight bytes, then its byte strings, each after its length.
// A new call is a line of `change` or `ask` and a function in the module of its kind.
#![tactic(auto)]

mod asking;
mod changing;
mod input;
mod labelling;
mod showing;
mod writing;

use console::Out;
use desk::{Desk, Tally};
use std::fs::File;
use std::io::Result;

// What is held from call to call. The rule is what later loads name.
#[derive(Clone, Copy)]
pub(crate) struct Session {
    pub desk: Desk,
    pub tally: Tally,
    pub rule: u32,
}

// Where calls come from, and where their lines go.
#[derive(Drop)]
pub(crate) struct Talk {
    pub source: File,
    pub out: Out,
}

fn main(rt: HostRuntime) -> Result<()> {
    let Ok(source) = File::open(&rt, "calls.dat") else {
        return Ok(());
    };
    let mut talk = Talk {
        source,
        out: Out::standard(&rt),
    };
    answer_calls(&mut talk);
    talk.out.flush();
    let Talk { source: _, out } = talk;
    out.outcome()
}

// The calls one by one, as long as they last; one that is cut short or unknown ends them. No file has as many: a bound for the proof that the
// program ends.
fn answer_calls(talk: &mut Talk) {
    let mut session = begin();
    for _ in 0..u64::MAX {
        let Some(call) = talk.byte() else {
            return;
        };
        if change(talk, &mut session, call).is_none() {
            talk.out.text(b"stopped\n");
            return;
        }
    }
}

// The empty desk, a tally of 0 and 0, and rule 0.
fn begin() -> Session {
    Session {
        desk: desk::empty(),
        tally: Tally::NONE,
        rule: 0,
    }
}

// Calls that change what is held; all others ask. Nothing comes of a call that is cut short, or of a byte that is no call.
fn change(talk: &mut Talk, s: &mut Session, call: u8) -> Option<()> {
    match call {
        1 => changing::name_rule(talk, s),
        2 => changing::drop_board(s),
        3 => changing::load(talk, s),
        4 => changing::order(talk, s),
        5 => changing::set_tally(talk, s),
        6 => changing::counts(talk, s.tally),
        _ => ask(talk, s.desk, call),
    }
}

// Calls that ask; any other byte is no call.
fn ask(talk: &mut Talk, d: Desk, call: u8) -> Option<()> {
    match call {
        7 => asking::power(talk, d),
        8 => asking::cone(talk, b"up", |part| questions::upstream(d, part)),
        9 => asking::cone(talk, b"down", |part| questions::downstream(d, part)),
        10 => asking::sets(talk, d),
        11 => labelling::label(talk),
        12 => writing::write(talk, d),
        13 => showing::state(talk, d),
        _ => None,
    }
}
