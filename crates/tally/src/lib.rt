// The tally lent: a load and an order that count where the tally stands, each one step of the desk with its tally stored back.
#![tactic(auto)]

ghost use Rattle.tally.specs.Lent.{LentLoad, LentOrder, SessionSaid};

use board::Rule;
use desk::{Desk, Loaded, Ordered, Tally};

// Loads a board under the rule that is named, with the tally lent: an accepted load sets it to zero where it stands, a refused one leaves it.
// Kept: (a) 01 names this form, one thin function over a by-value step.
pub fn load(d: Desk, rule: u32, file: &[u8], t: &mut Tally) -> Loaded
    ensures { LentLoad d rule file.now t.old result t.new }
{
    let l = desk::load(d, rule, file, *t);
    *t = l.tally;
    l
}

// Tries an order, with the tally lent and counted up where it stands.
pub fn order(d: Desk, bytes: &[u8], t: &mut Tally) -> Ordered
    ensures { LentOrder d bytes.now t.old result t.new }
{
    let o = desk::order(d, bytes, *t);
    *t = o.tally;
    o
}

// What a session comes to: its last order, and the tally that was lent.
#[derive(Clone, Copy)]
pub struct SessionEnd {
    pub last: Ordered,
    pub tally: Tally,
}

// A board loaded under rule A and two orders tried, on one tally that is lent to each in turn.
pub fn session(file: &[u8], first: &[u8], second: &[u8]) -> SessionEnd
    ensures { SessionSaid file.now first.now second.now result }
{
    let mut t = Tally::NONE;
    let l = load(desk::empty(), u32::from(Rule::A), file, &mut t);
    let a = order(l.desk, first, &mut t);
    let b = order(a.desk, second, &mut t);
    SessionEnd { last: b, tally: t }
}
