// A budget of a board: when each part starts and ends, what it draws, and what all draw together. At a delay that its curve does not have a part
// draws nothing here.
#![tactic(auto)]

ghost use Rattle.std.specs.Prelude.{◌≡◌, ◌+◌, ◌≤◌};
ghost use Rattle.budget.specs.Made.{no_budget, drawn_of, delays_of, powers_of, total_of, budget_of};

use board::Board;
use curve::{Curve, Microwatts, Ticks};

// The power of all parts together, in microwatts.
#[derive(Clone, Copy, PartialEq, Eq, PartialOrd, Ord)]
pub struct Total(pub u64);

// Places without a part hold 0.
// Kept: (d) columns: `budget_of` is given two and makes two more of them, and each is read alone.
#[derive(Clone, Copy, PartialEq, Eq)]
pub struct Budget {
    pub start: [Ticks; 64],
    pub delay: [Ticks; 64],
    pub end: [Ticks; 64],
    pub power: [Microwatts; 64],
    pub total: Total,
}

// No budget: nothing at any place.
pub fn no_budget() -> Budget
    ensures { result ≡ no_budget }
{
    let none = [Ticks(0); 64];
    Budget {
        start: none,
        delay: none,
        end: none,
        power: [Microwatts(0); 64],
        total: Total(0),
    }
}

// The power at a delay; none at one that the curve does not have.
fn power_of(c: Curve, delay: Ticks) -> Microwatts
    ensures { result.0 ≡ drawn_of c delay.0 }
{
    c.power_at(delay).unwrap_or(Microwatts(0))
}

// A total with one part's power more.
fn with_power(total: Total, power: Microwatts) -> Total
    requires { total.0 ≤ 1000000000000 }
    ensures { (result.0 ≡ total.0 + power.0) × (result.0 ≤ total.0 + 4294967295) }
{
    Total(total.0 + power.0 as u64)
}

// Each part's delay, from its start to its end.
fn delays(n: usize, start: &[Ticks; 64], end: &[Ticks; 64]) -> [Ticks; 64]
    requires { n ≤ 64 }
    ensures { result ≡ delays_of n start.now end.now }
{
    let mut d = [Ticks(0); 64];
    for k in 0..n {
        d[k] = end[k].less(start[k]);
    }
    d
}

// Each part's power at its delay.
fn powers(b: &Board, delay: &[Ticks; 64]) -> [Microwatts; 64]
    ensures { result ≡ powers_of b.now delay.now }
{
    let n = b.parts.min(64);
    let mut w = [Microwatts(0); 64];
    for k in 0..n {
        w[k] = power_of(b.curve[k], delay[k]);
    }
    w
}

// The sum of the powers.
fn total_of(n: usize, power: &[Microwatts; 64]) -> Total
    requires { n ≤ 64 }
    ensures { result.0 ≡ total_of n power.now }
{
    let mut sum = Total(0);
    for p in 0..n {
        sum = with_power(sum, power[p]);
    }
    sum
}

// The budget with these starts and ends.
pub fn budget_of(b: Board, start: [Ticks; 64], end: [Ticks; 64]) -> Budget
    ensures { result ≡ budget_of b start end }
{
    let n = b.parts.min(64);
    let delay = delays(n, &start, &end);
    let power = powers(&b, &delay);
    let total = total_of(n, &power);
    Budget {
        start,
        delay,
        end,
        power,
        total,
    }
}
