// The room of arcs: those of the work, and what a load asks of each.
ghost use Rattle.std.specs.Prelude.{◌≤◌, length};

use crate::given::{Given, Run};
use crate::numbers::{ArcId, Node, Part, Table};
use std::ops::Index;

// Lengths are kept so much up, that one below zero is less than any above.
pub const HALF: u32 = 2147483648;

// More than any load or length.
pub const VAST: u32 = 1073741824;

#[derive(Clone, Copy)]
pub struct Arc {
    pub tail: Node,
    pub head: Node,
    // The least and the greatest length that suit the load, each 2^31 up.
    pub low: u32,
    pub high: u32,
    // By how much the load may rise at the least length, and fall at the greatest.
    pub more: u32,
    pub less: u32,
    pub load: u32,
}

impl Arc {
    // Its length where its ends are at these times, 2^31 up.
    pub fn span(&self, tail: u32, head: u32) -> u32 {
        head.wrapping_sub(tail).wrapping_add(HALF)
    }

    // The length that suits where the load is to rise, or to fall.
    // Kept: (d) a direction, here and below: it is compared and turned (`!rises`), and a closure can be neither.
    pub fn bound(&self, rises: bool) -> u32 {
        if rises { self.low } else { self.high }
    }

    // By how much the load may rise, or fall, at that length.
    pub fn room(&self, rises: bool) -> u32 {
        if rises { self.more } else { self.less }
    }
}

// What a part takes at its fastest, 2^31 up, and its runs.
#[derive(Clone, Copy)]
struct Curve {
    fastest: u32,
    runs: [Run; 4],
}

// Of the runs so far: ticks that save more than the load and ticks that save just that, by how much the load may rise, and the greatest saving below.
#[derive(Clone, Copy)]
struct Price {
    over: u32,
    just: u32,
    more: u32,
    below: u32,
}

impl Price {
    // One run more, without a branch: each number is picked.
    fn add(&mut self, run: Run, load: u32) {
        let Run { length, saving } = run;
        let over = if load < saving { length } else { 0 };
        let just = if load == saving { length } else { 0 };
        let below = if saving < load { saving } else { 0 };
        self.over = self.over.wrapping_add(over);
        self.just = self.just.wrapping_add(just);
        self.more = if load < saving {
            saving - load
        } else {
            self.more
        };
        self.below = self.below.max(below);
    }
}

impl Curve {
    fn price(&self, load: u32) -> Price {
        let mut price = Price {
            over: 0,
            just: 0,
            more: VAST,
            below: 0,
        };
        for run in &self.runs {
            price.add(*run, load);
        }
        price
    }
}

#[derive(Drop)]
pub struct Arcs {
    rows: Table<Arc, 449>,
    curve: Table<Curve, 64>,
    parts: usize,
    count: usize,
    ghost fits: { count ≤ 449 },
    ghost few: { parts ≤ 64 },
}

impl Arcs {
    // None so far.
    pub const BLANK: Arcs = Arcs {
        rows: Table {
            rows: [Arc {
                tail: Node::FIRST,
                head: Node::FIRST,
                low: 0,
                high: 0,
                more: 0,
                less: 0,
                load: 0,
            }; 449],
        },
        curve: Table {
            rows: [Curve {
                fastest: 0,
                runs: [Run {
                    length: 0,
                    saving: 0,
                }; 4],
            }; 64],
        },
        parts: 0,
        count: 0,
    };

    // The curves of a network's parts.
    pub fn take_curves(&mut self, given: &Given) {
        self.parts = given.parts;
        for k in 0..given.parts {
            let p = Part::of(k);
            self.curve[p] = Curve {
                fastest: given.wire(p.place()).base.wrapping_add(HALF),
                runs: given.runs(p),
            };
        }
    }

    // Those that are laid, in the order of their numbers.
    pub fn laid(&self) -> &[Arc]
        ensures { length result.now ≤ 449 }
    {
        &self.rows.rows[..self.count]
    }

    // Part p is longer by so many ticks.
    pub fn lengthen(&mut self, p: Part, ticks: u32) {
        let fastest = self.curve[p].fastest;
        self.curve[p].fastest = fastest.wrapping_add(ticks);
    }

    // One arc more, where there is room.
    pub fn push(&mut self, tail: Node, head: Node, base: u32, load: u32) -> Option<ArcId> {
        if 449 <= self.count {
            return None;
        }
        let a = ArcId::of(self.count);
        self.count += 1;
        self.rows[a] = Arc {
            tail,
            head,
            low: base.wrapping_add(HALF),
            high: 0,
            more: 0,
            less: 0,
            load,
        };
        self.reprice(a);
        Some(a)
    }

    // Parts are the first arcs.
    fn part(&self, a: ArcId) -> Option<Part> {
        let k = a.number();
        if k < self.parts {
            Some(Part::of(k))
        } else {
            None
        }
    }

    // The price of arc a anew. It is not inlined, so that `change`, which seldom needs it, is.
    #[inline(never)]
    fn reprice(&mut self, a: ArcId) {
        let mut arc = self.rows[a];
        if let Some(p) = self.part(a) {
            let price = self.curve[p].price(arc.load);
            arc.low = self.curve[p].fastest.wrapping_add(price.over);
            arc.high = arc.low.wrapping_add(price.just);
            arc.more = price.more;
            arc.less = arc.load.wrapping_sub(price.below);
        } else {
            arc.high = arc.low;
            arc.more = VAST.wrapping_sub(arc.load);
            arc.less = arc.load;
        }
        if arc.load == 0 {
            arc.high = HALF + VAST;
        }
        self.rows[a] = arc;
    }

    // Arc a with a load that is d more or d less. Within a run only the room changes.
    pub fn change(&mut self, a: ArcId, rises: bool, d: u32) {
        let by = if rises { d } else { d.wrapping_neg() };
        let arc = &mut self.rows[a];
        let within = arc.low == arc.high && d < arc.room(rises);
        arc.load = arc.load.wrapping_add(by);
        if within {
            arc.more = arc.more.wrapping_sub(by);
            arc.less = arc.less.wrapping_add(by);
        } else {
            self.reprice(a);
        }
    }
}

impl Index<ArcId> for Arcs {
    type Output = Arc;

    fn index(&self, a: ArcId) -> &Arc {
        &self.rows[a]
    }
}
