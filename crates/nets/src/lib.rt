// A network of arcs and the work on it: what advice, main loop and verdict share, and one arc as it is judged. The mathematics of networks stands in
// specs and proofs; there is next to no code here.
#![tactic(auto)]

ghost use Rattle.std.specs.Prelude.{◌≡◌};
ghost use Rattle.nets.specs.Sheet.{no_net, no_work};

// The net: laid once, read by all. There is room for 448 arcs, for four runs to each of 64 of them, and for times of the 130 nodes, to begin with.
#[derive(Drop)]
pub struct Net {
    pub tail: [u32; 448],
    pub head: [u32; 448],
    pub base: [u32; 448],
    pub length: [u32; 256],
    pub saving: [u32; 256],
    pub late: [u32; 130],
    // how many arcs there are
    pub arcs: u32,
    // how many parts, and the ticks that a path may take: for the advice alone
    pub parts: u32,
    pub due: u32,
}

impl Net {
    // No arcs.
    pub fn empty() -> Net
        ensures { result ≡ no_net }
    {
        Net {
            tail: [0; 448],
            head: [0; 448],
            base: [0; 448],
            length: [0; 256],
            saving: [0; 256],
            late: [0; 130],
            arcs: 0,
            parts: 0,
            due: 0,
        }
    }
}

// The work: times of the nodes, loads of the arcs, and of each node's label the rank, the arc that it came along, and the room.
#[derive(Drop)]
pub struct Work {
    pub time: [u32; 130],
    pub load: [u32; 448],
    pub rank: [u32; 130],
    pub via: [u32; 130],
    pub room: [u32; 130],
}

impl Work {
    // Room to work in.
    pub fn empty() -> Work
        ensures { result ≡ no_work }
    {
        Work {
            time: [0; 130],
            load: [0; 448],
            rank: [0; 130],
            via: [0; 130],
            room: [0; 130],
        }
    }
}

// All that net and work say of one arc, for the function that judges arcs: its ends, the rooms of the labels behind and ahead (0: no label), its ticks
// past the base, and its load.
// Kept: (d) a room is an amount that can be pushed, the least of several along a way; where it is 0 nothing can, and an Option would say so twice.
#[derive(Clone, Copy)]
pub struct Arc {
    pub tail: usize,
    pub head: usize,
    pub behind: u32,
    pub ahead: u32,
    pub ticks: u32,
    pub load: u32,
}
