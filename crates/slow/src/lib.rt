// Whether all parts at their fastest keep the usable deadline, and the path to be shown where they do not.
#![tactic(auto)]

ghost use Rattle.std.specs.Prelude.{◌≡◌, ◌≤◌, [], ltb, length};
ghost use Rattle.base.specs.Pick.{pick};
ghost use Rattle.times.specs.Times.{Loopless};
ghost use Rattle.times.specs.Rounds.{InPlaces};
ghost use Rattle.slow.specs.Slow.{SlowOf};
ghost use Rattle.slow.specs.Walk.{last_of, backs_of, lower_of, pushed_of, walk_of, trail_of};

use board::{Board, Link, link_delay, usable_deadline};
use curve::Ticks;
use times::{fastest_delays, times_of};

// Parts in the order of a path: the first `count` of `parts`. The rest is 0.
// Kept: (a) memory is fixed; by `slow_once` two shown paths are equal as values, so what is past the count is 0.
#[derive(Clone, Copy, PartialEq, Eq)]
pub struct Trail {
    pub count: usize,
    pub parts: [usize; 64],
}

// A path that is too slow at its fastest: its ticks, and its parts from first to last.
#[derive(Clone, Copy, PartialEq, Eq)]
pub struct ShownPath {
    pub ticks: u32,
    pub path: Trail,
}

impl Trail {
    // No parts.
    pub fn empty() -> Trail
        ensures { result ≡ trail_of [] }
    {
        Trail {
            count: 0,
            parts: [0; 64],
        }
    }

    // A part put behind the others, where there is room.
    fn pushed(self, part: usize) -> Trail
        ensures { result ≡ pushed_of self part }
    {
        let at = self.count;
        if 64 <= at {
            return self;
        }
        let mut next = self;
        next.parts[at] = part;
        next.count = at + 1;
        next
    }
}

// The lower of the parts found so far, if any, and one more.
fn lower(found: Option<usize>, part: usize) -> Option<usize>
    ensures { result ≡ lower_of found part }
{
    match found {
        Some(p) => Some(p.min(part)),
        None => Some(part),
    }
}

// Of two parts, which end at `first` and `second`, the one that ends later, or the first.
fn later(a: usize, first: Ticks, b: usize, second: Ticks) -> usize
    ensures { result ≡ pick (ltb first.0 second.0) b a }
{
    if first.0 < second.0 { b } else { a }
}

// The lowest-numbered of the first `n` parts whose end is greatest.
fn last_part(e: &[Ticks; 64], n: usize) -> usize
    requires { n ≤ 64 }
    ensures { result ≡ last_of e.now n }
{
    let mut last: usize = 0;
    for k in 0..n {
        last = later(last, e[last], k, e[k]);
    }
    last
}

// For each part the lowest-numbered one linked to it that arrives at its start, where there is one. A part's number is below 64, and the remainder
// keeps any other there.
fn backs(link: &[Link], s: &[Ticks; 64], e: &[Ticks; 64]) -> [Option<usize>; 64]
    ensures { InPlaces link.now (length link.now) → result ≡ backs_of link.now s.now e.now (length link.now) }
{
    let mut back = [None; 64];
    for l in link {
        let f = l.from % 64;
        let t = l.to % 64;
        if e[f].reach(link_delay(*l), s[t]) {
            back[t] = lower(back[t], f);
        }
    }
    back
}

// The path to a part, back over the parts before it, with at most `left` parts left to visit.
fn walk(back: &[Option<usize>; 64], at: Option<usize>, left: usize) -> Trail
    ensures { result ≡ walk_of left back.now at }
{
    let Some(part) = at else {
        return Trail::empty();
    };
    if left == 0 || 64 <= part {
        return Trail::empty();
    }
    walk(back, back[part], left - 1).pushed(part)
}

// Refusal 10: the path that is shown where one is too slow at its fastest.
pub fn slow_path(b: Board) -> Option<ShownPath>
    ensures { Loopless b → SlowOf b result }
{
    let parts = b.parts.min(64);
    let t = times_of(b, fastest_delays(b));
    let e = t.end;
    let last = last_part(&e, parts);
    let ticks = e[last].0;
    let limit = usable_deadline(b);
    if ticks <= limit.0 {
        return None;
    }
    let links = b.links.min(256);
    let back = backs(&b.link[..links], &t.start, &e);
    let path = walk(&back, Some(last), parts);
    Some(ShownPath { ticks, path })
}
