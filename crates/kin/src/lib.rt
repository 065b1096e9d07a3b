// Critical links, and the parents and children of a part: two steps that call each other until neither set grows.
#![tactic(auto)]

ghost use Rattle.std.specs.Prelude.{◌≡◌};
ghost use Rattle.kin.specs.Critical.{criticalb, critical_at, Critical, CriticalRows};
ghost use Rattle.kin.specs.Kin.{KinOf};
ghost use Rattle.kin.specs.Steps.{joined_of, gathered_of, Led, Grown};

use board::{Board, Link, link_delay};
use budget::Budget;

// The critical links as marks: bit q of `down[p]` and bit p of `up[q]` where one leads from p to q.
#[derive(Clone, Copy)]
pub struct Rows {
    pub down: [u64; 64],
    pub up: [u64; 64],
}

#[derive(Clone, Copy)]
pub struct Kin {
    pub parents: u64,
    pub children: u64,
}

// Whether a link is critical.
fn critical(held: &Budget, l: Link) -> bool
    ensures { result ≡ criticalb held.now l }
{
    let p = l.from;
    let q = l.to;
    if 64 <= p {
        return false;
    }
    if 64 <= q {
        return false;
    }
    let e = held.end[p];
    let s = held.start[q];
    e.reach(link_delay(l), s)
}

// Whether link l of the board is critical; false where the board has no link l.
pub fn link_is_critical(b: Board, held: Budget, l: usize) -> bool
    ensures { result ≡ critical_at b held l }
{
    let n = b.links.min(256);
    if n <= l {
        return false;
    }
    critical(&held, b.link[l])
}

// The critical links of the board.
fn critical_rows(b: &Board, held: &Budget) -> Rows
    ensures { CriticalRows b.now held.now result }
{
    let n = b.links.min(256);
    let mut t = Rows {
        down: [0; 64],
        up: [0; 64],
    };
    for k in 0..n {
        let l = b.link[k];
        if critical(held, l) {
            marks::mark(&mut t.down, l.from, l.to);
            marks::mark(&mut t.up, l.to, l.from);
        }
    }
    t
}

// The set and, where k is among those seen, what its row marks.
fn joined(set: u64, seen: u64, k: usize, row: u64) -> u64
    ensures { result ≡ joined_of set seen k row }
{
    if marks::has(seen, k) {
        return marks::union(set, row);
    }
    set
}

// The set and all that the rows of those seen mark.
fn gathered(rows: &[u64; 64], seen: u64, set: u64) -> u64
    ensures { result ≡ gathered_of rows.now seen set }
{
    let mut s = set;
    for k in 0..64 {
        s = joined(s, seen, k, rows[k]);
    }
    s
}

// Kept: (a) 01 names this form, parent step and child step that call each other.
// Children are all that critical links lead to from the parents. The parents have all that lead to the children so far.
#[cycle(child_step_parent_step)]
fn child_step(t: &Rows, parents: u64, children: u64) -> Kin
    ensures { Led t.now.up children parents → Grown t.now parents children result }
{
    let next = gathered(&t.down, parents, children);
    if next == children {
        return Kin { parents, children };
    }
    parent_step(t, parents, next)
}

// Parents are all that have a critical link to the children. The children are all that the parents so far lead to.
#[cycle(child_step_parent_step)]
fn parent_step(t: &Rows, parents: u64, children: u64) -> Kin
    ensures { Led t.now.down parents children → Grown t.now parents children result }
{
    let next = gathered(&t.up, children, parents);
    if next == parents {
        return Kin { parents, children };
    }
    child_step(t, next, children)
}

// The parents and children of part p; a p of 64 or more has neither.
pub fn kin_of(b: Board, held: Budget, p: usize) -> Kin
    ensures { KinOf (Critical b held) p result }
{
    let t = critical_rows(&b, &held);
    child_step(&t, marks::one(p), 0)
}
