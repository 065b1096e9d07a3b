// Calls that change what is held: rule, drop, load, order and tally; and the counts of the tally.
use crate::{Session, Talk};
use desk::Tally;

// Names the rule of later loads.
pub(crate) fn name_rule(talk: &mut Talk, s: &mut Session) -> Option<()> {
    s.rule = at_most(talk.number()?);
    Some(())
}

// No board is held from here on.
pub(crate) fn drop_board(s: &mut Session) -> Option<()> {
    s.desk = desk::empty();
    Some(())
}

pub(crate) fn load(talk: &mut Talk, s: &mut Session) -> Option<()> {
    let mut file = [0u8; 65536];
    let count = talk.stretch(&mut file)?;
    let l = desk::load(s.desk, s.rule, &file[..count], s.tally);
    s.desk = l.desk;
    s.tally = l.tally;
    let out = &mut talk.out;
    out.text(b"load");
    report::put_answer(out, l.answer);
    report::put_path(out, l.path);
    out.end_line();
    Some(())
}

pub(crate) fn order(talk: &mut Talk, s: &mut Session) -> Option<()> {
    let mut bytes = [0u8; 65536];
    let count = talk.stretch(&mut bytes)?;
    let o = desk::order(s.desk, &bytes[..count], s.tally);
    s.desk = o.desk;
    s.tally = o.tally;
    let out = &mut talk.out;
    out.text(b"order");
    report::put_answer(out, o.answer);
    report::put_path(out, o.path);
    out.number(b" took ", o.took as u64);
    out.text(b" ");
    counts(talk, o.tally)
}

// Somebody writes to the tally.
pub(crate) fn set_tally(talk: &mut Talk, s: &mut Session) -> Option<()> {
    s.tally = Tally {
        taken: at_most(talk.number()?),
        refused: at_most(talk.number()?),
    };
    Some(())
}

// A number of 32 bits; a greater one is asked for at the greatest.
fn at_most(n: u64) -> u32 {
    u32::try_from(n).unwrap_or(u32::MAX)
}

// What the tally holds.
pub(crate) fn counts(talk: &mut Talk, tally: Tally) -> Option<()> {
    let out = &mut talk.out;
    out.number(b"tally ", tally.taken as u64);
    out.number(b" ", tally.refused as u64);
    out.end_line();
    Some(())
}
