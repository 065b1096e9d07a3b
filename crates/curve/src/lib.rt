// A part's curve: how slow it may be and what each tick of that saves. Ticks and microwatts are two types, and neither is taken for the other.
// Every contract holds for any value of a curve: powers and savings go run by run and take off as they go, and ticks past their type stay at its
// greatest.
#![tactic(auto)]

ghost use Rattle.std.specs.Prelude.{◌≡◌, ◌+◌, ◌*◌, ◌-◌, ◌<◌, min, eqb, leb};
ghost use Rattle.base.specs.Decides.{Decides};
ghost use Rattle.curve.specs.Curve.{slowest_of, savings_of, Good};
ghost use Rattle.curve.specs.Answers.{flat_of, next_saving_of, last_saving_of, power_at_of, used_of};
ghost use Rattle.curve.specs.Tests.{every, blankb, rangedb, placeb};

use refusal::{Answer, Why};

// A count of ticks.
#[derive(Clone, Copy, PartialEq, Eq, PartialOrd, Ord)]
pub struct Ticks(pub u32);

// A power.
#[derive(Clone, Copy, PartialEq, Eq, PartialOrd, Ord)]
pub struct Microwatts(pub u32);

// Some ticks in a row that save the same each.
#[derive(Clone, Copy, PartialEq, Eq)]
pub struct Run {
    pub length: Ticks,
    pub saving: Microwatts,
}

// The first `count` of `runs` are the curve's; the others are blank.
// Kept: (a) memory is fixed, and every contract holds for any count: `slowest_of` and the like take at most four runs.
#[derive(Clone, Copy, PartialEq, Eq)]
pub struct Curve {
    pub fastest: Ticks,
    pub power: Microwatts,
    pub count: usize,
    pub runs: [Run; 4],
}

// A delay on its way along a curve: the ticks still to be used, and the power with those used so far.
#[derive(Clone, Copy)]
struct Slowing {
    left: Ticks,
    power: Microwatts,
}

// The power less the saving of each tick used. The product is taken wide, and a power does not fall below 0.
fn less_saved(power: Microwatts, used: Ticks, saving: Microwatts) -> Microwatts
    ensures { result.0 ≡ power.0 - used.0 * saving.0 }
{
    let saved = used.0 as u64 * saving.0 as u64;
    Microwatts((power.0 as u64).saturating_sub(saved) as u32)
}

impl Ticks {
    // Ticks together; a sum past its type stays at the greatest.
    pub fn plus(self, more: Ticks) -> Ticks
        ensures { result.0 ≡ min (self.0 + more.0) 4294967295 }
    {
        Ticks(self.0.saturating_add(more.0))
    }

    // What is left of these ticks after others; none where those are more.
    pub fn less(self, other: Ticks) -> Ticks
        ensures { result.0 ≡ self.0 - other.0 }
    {
        Ticks(self.0.saturating_sub(other.0))
    }

    // Whether these ticks and more are as many as others. The difference is compared, so no sum can pass its type.
    pub fn reach(self, more: Ticks, other: Ticks) -> bool
        ensures { result ≡ eqb (self.0 + more.0) other.0 }
    {
        self.0 <= other.0 && other.0 - self.0 == more.0
    }
}

impl Slowing {
    // Some of a run's ticks, or all of them, are used.
    fn used(self, run: Run) -> Slowing
        ensures { result ≡ used_of self run }
    {
        let used = self.left.min(run.length);
        Slowing {
            left: self.left.less(run.length),
            power: less_saved(self.power, used, run.saving),
        }
    }
}

impl Run {
    // Whether this is what a place without a run holds.
    fn is_blank(self) -> bool
        ensures { result ≡ blankb self }
    {
        self.length.0 == 0 && self.saving.0 == 0
    }

    // Whether length and saving are within their ranges.
    fn is_ranged(self) -> bool
        ensures { result ≡ rangedb self }
    {
        Curve::LENGTH_MIN <= self.length.0
            && self.length.0 <= Curve::LENGTH_MAX
            && Curve::SAVING_MIN <= self.saving.0
            && self.saving.0 <= Curve::SAVING_MAX
    }

    // What all its ticks save, taken wide.
    fn saved(self) -> u64
        ensures { result ≡ self.length.0 * self.saving.0 }
    {
        self.length.0 as u64 * self.saving.0 as u64
    }
}

impl Curve {
    pub const FASTEST_MIN: u32 = 1;

    pub const FASTEST_MAX: u32 = 1023;

    pub const POWER_MAX: u32 = 20000000;

    pub const RUNS_MAX: usize = 4;

    pub const LENGTH_MIN: u32 = 1;

    pub const LENGTH_MAX: u32 = 255;

    pub const SAVING_MIN: u32 = 1;

    pub const SAVING_MAX: u32 = 1000;

    // The flat curve: one with no runs.
    pub fn flat(fastest: Ticks, power: Microwatts) -> Curve
        ensures { result ≡ flat_of fastest power }
    {
        let none = Run {
            length: Ticks(0),
            saving: Microwatts(0),
        };
        Curve {
            fastest,
            power,
            count: 0,
            runs: [none; 4],
        }
    }

    // The slowest delay: the fastest plus all run lengths. What passes the type stays at its greatest.
    pub fn slowest(self) -> Ticks
        ensures { result.0 ≡ min (slowest_of self) 4294967295 }
    {
        let n = self.count.min(Self::RUNS_MAX);
        let mut delay = self.fastest;
        for k in 0..n {
            let run = self.runs[k];
            delay = delay.plus(run.length);
        }
        delay
    }

    // Whether the power is at least all savings together.
    pub fn affords_savings(self) -> bool
        ensures { result ≡ leb (savings_of self) self.power.0 }
    {
        let n = self.count.min(Self::RUNS_MAX);
        let mut left = self.power.0 as u64;
        for k in 0..n {
            let run = self.runs[k];
            let saved = run.saved();
            if left < saved {
                return false;
            }
            left -= saved;
        }
        true
    }

    // The saving of the tick after a delay, 0 from the slowest on.
    pub fn next_saving(self, delay: Ticks) -> Microwatts
        ensures { result.0 ≡ next_saving_of self delay.0 }
    {
        let n = self.count.min(Self::RUNS_MAX);
        let mut left = delay.0.saturating_sub(self.fastest.0);
        for k in 0..n {
            let run = self.runs[k];
            if left < run.length.0 {
                return run.saving;
            }
            left -= run.length.0;
        }
        Microwatts(0)
    }

    // The saving of the last tick used, 0 past the slowest; at the fastest delay none is used.
    pub fn last_saving(self, delay: Ticks) -> Option<Microwatts>
        ensures { result ≡ last_saving_of self delay.0 }
    {
        if delay <= self.fastest {
            return None;
        }
        Some(self.next_saving(Ticks(delay.0 - 1)))
    }

    // The power at a delay, or refusal 19. Ticks that no run takes are past the slowest.
    pub fn power_at(self, delay: Ticks) -> Answer<Microwatts>
        ensures { result ≡ power_at_of self delay.0 }
    {
        let fastest = self.fastest;
        let off_curve = Why::OffCurve.at(delay.0 as usize);
        if delay < fastest {
            return Err(off_curve);
        }
        let n = self.count.min(Self::RUNS_MAX);
        let mut slowing = Slowing {
            left: delay.less(fastest),
            power: self.power,
        };
        for k in 0..n {
            let next = self.runs[k];
            slowing = slowing.used(next);
        }
        if 0 < slowing.left.0 {
            return Err(off_curve);
        }
        Ok(slowing.power)
    }

    // Whether place k holds a run in range that saves less than the run before it, or is blank past the last run.
    fn place_is_good(self, k: usize) -> bool
        requires { k < 4 }
        ensures { result ≡ placeb self k }
    {
        let run = self.runs[k];
        if self.count <= k {
            return run.is_blank();
        }
        if !run.is_ranged() {
            return false;
        }
        if k == 0 {
            return true;
        }
        let before = self.runs[k - 1];
        run.saving.0 < before.saving.0
    }

    // Whether all four places are.
    fn places_are_good(self) -> bool
        ensures { result ≡ every 4 (placeb self) }
    {
        for k in 0..Self::RUNS_MAX {
            if !self.place_is_good(k) {
                return false;
            }
        }
        true
    }

    // Whether this is a curve as 01 asks it to be.
    pub fn is_good(self) -> bool
        ensures { Decides result (Good self) }
    {
        if self.fastest.0 < Self::FASTEST_MIN {
            return false;
        }
        if Self::FASTEST_MAX < self.fastest.0 {
            return false;
        }
        if Self::POWER_MAX < self.power.0 {
            return false;
        }
        if Self::RUNS_MAX < self.count {
            return false;
        }
        if !self.places_are_good() {
            return false;
        }
        self.affords_savings()
    }
}
