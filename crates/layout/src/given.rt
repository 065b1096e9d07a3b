// The room of the network: what was given, as the advice reads it. Numbers below zero are numbers near 2^32.
ghost use Rattle.std.specs.Prelude.{◌+◌, ◌*◌, ◌<◌, ◌≤◌};

use crate::numbers::{Node, Part, Place};
use nets::Net;

// An arc of the network, and the ticks that it takes at least.
#[derive(Clone, Copy)]
pub struct Wire {
    pub tail: Node,
    pub head: Node,
    pub base: u32,
}

#[derive(Clone, Copy)]
pub struct Run {
    pub length: u32,
    pub saving: u32,
}

// A network with no more arcs and parts than there is room for.
#[derive(Clone, Copy)]
pub struct Given<'a> {
    net: &'a Net,
    pub arcs: usize,
    pub parts: usize,
    ghost fits: { arcs ≤ 448 },
    ghost few: { parts ≤ 64 },
}

impl<'a> Given<'a> {
    pub fn of(net: &'a Net) -> Given<'a> {
        Given {
            net,
            arcs: (net.arcs as usize).min(448),
            parts: (net.parts as usize).min(64),
        }
    }

    // Parts and links come before entries, and these before exits: one of each for each part.
    pub fn entries(&self) -> usize
        ensures { result + 2 * self.now.parts ≤ 448 }
    {
        self.arcs.saturating_sub(2 * self.parts)
    }

    pub fn entry(&self, p: usize) -> Place
        requires { p < self.now.parts }
    {
        Place::of(self.entries() + p)
    }

    pub fn exit(&self, p: usize) -> Place
        requires { p < self.now.parts }
    {
        Place::of(self.entries() + self.parts + p)
    }

    pub fn due(&self) -> u32 {
        self.net.due
    }

    pub fn time(&self, v: Node) -> u32 {
        self.net.late[v.number()]
    }

    pub fn wire(&self, a: Place) -> Wire {
        let a = a.number();
        Wire {
            tail: Node::named(self.net.tail[a]),
            head: Node::named(self.net.head[a]),
            base: self.net.base[a],
        }
    }

    pub fn runs(&self, p: Part) -> [Run; 4] {
        let mut runs = [Run {
            length: 0,
            saving: 0,
        }; 4];
        let first = 4 * p.number();
        for k in 0..4 {
            runs[k] = Run {
                length: self.net.length[first + k],
                saving: self.net.saving[first + k],
            };
        }
        runs
    }
}
