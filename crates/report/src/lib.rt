// Lines that several programs print: an answer, a path, what a budget gives a part.
#![tactic(auto)]

use console::Out;
use curve::{Microwatts, Ticks};
use refusal::{Answer, Refusal};
use slow::Trail;

// The number and the place of an answer; both are 0 where nothing is refused.
pub fn put_answer(out: &mut Out, answer: Answer) {
    match answer {
        Ok(()) => out.text(b" no 0 place 0"),
        Err(refusal) => put_refused(out, refusal),
    }
}

// The number and the place of a refusal.
pub fn put_refused(out: &mut Out, refusal: Refusal) {
    out.number(b" no ", u8::from(refusal.why) as u64);
    out.number(b" place ", refusal.place as u64);
}

// How many parts a path has, and then the parts; there is room for 64.
pub fn put_path(out: &mut Out, path: Trail) {
    out.number(b" path ", path.count as u64);
    for part in &path.parts[..path.count.min(64)] {
        out.number(b" ", *part as u64);
    }
}

// A part's times and power in a budget, as one line.
#[derive(Clone, Copy)]
pub struct Row {
    pub part: usize,
    pub start: Ticks,
    pub delay: Ticks,
    pub end: Ticks,
    pub power: Microwatts,
}

pub fn put_row(out: &mut Out, row: Row) {
    out.number(b"part ", row.part as u64);
    out.number(b" start ", row.start.0 as u64);
    out.number(b" delay ", row.delay.0 as u64);
    out.number(b" end ", row.end.0 as u64);
    out.number(b" power ", row.power.0 as u64);
    out.end_line();
}
