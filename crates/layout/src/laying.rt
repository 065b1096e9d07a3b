// The room of the wiring: the work laid out from the network and the loads to begin with, and the loads taken from it at the end. Only arcs that can
// matter are laid. Where an arc is all that leads from a part's end, or all that leads to a part's start, its two nodes are one: the part is longer
// by its delay, and it has the part's load.
use crate::arcs::Arcs;
use crate::given::{Given, Wire};
use crate::numbers::{ArcId, End, List, NO_PLACES, Node, Part, Place, SINK, SOURCE, Table};
use crate::sparing;

// ---- loads to begin with: whatever those given are, entries and exits are such that each node has as much to it as from it
#[derive(Drop)]
struct Begun {
    load: Table<u32, 448>,
    // What links bring to a start, or take from an end.
    linked: Table<u32, 130>,
    // What all exits bring to the sink.
    sent: u32,
}

impl Begun {
    const BLANK: Begun = Begun {
        load: Table { rows: [0; 448] },
        linked: Table { rows: [0; 130] },
        sent: 0,
    };

    fn begin(&mut self, given: &Given, loads: &[u32; 448]) {
        for k in given.parts..given.entries() {
            let a = Place::of(k);
            self.link(a, &given.wire(a), loads[k]);
        }
        for p in 0..given.parts {
            let (entry, exit) = (given.entry(p), given.exit(p));
            self.part(Part::of(p), entry, exit, loads[p]);
        }
    }

    fn link(&mut self, a: Place, link: &Wire, x: u32) {
        self.load[a] = x;
        self.linked[link.tail] = self.linked[link.tail].wrapping_add(x);
        self.linked[link.head] = self.linked[link.head].wrapping_add(x);
    }

    // Part p, and its entry and exit.
    fn part(&mut self, p: Part, entry: Place, exit: Place, x: u32) {
        let to = self.linked[p.start()];
        let from = self.linked[p.end()];
        let load = x.max(to).max(from);
        self.load[p.place()] = load;
        self.load[entry] = load - to;
        self.load[exit] = load - from;
        self.sent = self.sent.wrapping_add(load - from);
    }
}

// ---- which arcs are kept
#[derive(Drop)]
struct Kept {
    // Parts, and then the other arcs that are kept.
    places: List<Place, 448>,
    // How many that are kept lead to each node, and from it.
    entering: Table<u32, 130>,
    leaving: Table<u32, 130>,
}

impl Kept {
    const BLANK: Kept = Kept {
        places: NO_PLACES,
        entering: Table { rows: [0; 130] },
        leaving: Table { rows: [0; 130] },
    };

    fn choose(&mut self, given: &Given, begun: &Begun) {
        let twos = sparing::twos(given);
        for p in 0..given.parts {
            self.places.push(Part::of(p).place());
        }
        for k in given.parts..given.arcs {
            let a = Place::of(k);
            let arc = given.wire(a);
            if self.matters(&twos, &arc, begun.load[a]) {
                self.keep(a, &arc);
            }
        }
    }

    // Whether an arc can matter: it is loaded, or it is an entry or an exit of a part that no other comes before or after, or a link that is not spared.
    fn matters(&self, twos: &Table<u64, 64>, arc: &Wire, x: u32) -> bool {
        if x != 0 {
            true
        } else if arc.tail == SOURCE {
            self.entering[arc.head] == 0
        } else if arc.head == SINK {
            self.leaving[arc.tail] == 0
        } else {
            arc.base != 0 || !sparing::spared(twos, arc)
        }
    }

    fn keep(&mut self, a: Place, arc: &Wire) {
        self.places.push(a);
        self.leaving[arc.tail] = self.leaving[arc.tail].wrapping_add(1);
        self.entering[arc.head] = self.entering[arc.head].wrapping_add(1);
    }
}

// ---- the work
// The node that a node of a part is one with, and the arc by which it is.
#[derive(Clone, Copy)]
pub struct Join {
    pub node: Node,
    pub by: Place,
}

// Which node a node is one with, and the nodes that are one with it: the first here, the next at that one's `sibling`.
#[derive(Clone, Copy)]
pub struct Joint {
    pub join: Option<Join>,
    pub member: Option<Node>,
    pub sibling: Option<Node>,
}

#[derive(Drop)]
pub struct Work {
    pub arcs: Arcs,
    // How many nodes are left.
    pub nodes: usize,
    pub joint: Table<Joint, 130>,
    // The first end of an arc at a node, and the next at the same node.
    first: Table<Option<End>, 130>,
    after: Table<Option<End>, 898>,
    // The place of an arc in the network: the deadline's has none.
    place: Table<Option<Place>, 449>,
    // The arc here whose load an arc of the network has.
    carrier: Table<Option<ArcId>, 448>,
}

impl Work {
    pub const BLANK: Work = Work {
        arcs: Arcs::BLANK,
        nodes: 0,
        joint: Table {
            rows: [Joint {
                join: None,
                member: None,
                sibling: None,
            }; 130],
        },
        first: Table { rows: [None; 130] },
        after: Table { rows: [None; 898] },
        place: Table { rows: [None; 449] },
        carrier: Table { rows: [None; 448] },
    };

    pub fn lay(&mut self, given: &Given, loads: &[u32; 448]) {
        let mut begun = Begun::BLANK;
        begun.begin(given, loads);
        let mut kept = Kept::BLANK;
        kept.choose(given, &begun);
        self.arcs.take_curves(given);
        self.nodes = 2 * given.parts + 2;
        for a in kept.places.as_slice().iter().skip(given.parts) {
            self.join_arc(given, &kept, *a);
        }
        for a in kept.places.as_slice() {
            self.lay_place(given, &begun, *a);
        }
        let due = given.due().wrapping_neg();
        self.lay_arc(None, SINK, SOURCE, due, begun.sent);
    }

    // ---- which nodes are one
    // The node `v` of a part is node `w`, by arc a of so many ticks.
    fn join(&mut self, a: Place, v: Node, w: Node, ticks: u32) {
        self.joint[v].join = Some(Join { node: w, by: a });
        self.joint[v].sibling = self.joint[w].member;
        self.joint[w].member = Some(v);
        self.arcs.lengthen(v.part(), ticks);
        self.carrier[a] = Some(v.part().arc());
        self.nodes = self.nodes.saturating_sub(1);
    }

    fn join_arc(&mut self, given: &Given, kept: &Kept, a: Place) {
        let Wire { tail, head, base } = given.wire(a);
        if tail != SOURCE && kept.leaving[tail] == 1 {
            self.join(a, tail, head, base);
        } else if head != SINK && kept.entering[head] == 1 {
            self.join(a, head, tail, base);
        }
    }

    // The node that node v is one with, or itself.
    fn node(&self, v: Node) -> Node {
        self.joint[v].join.map_or(v, |join| join.node)
    }

    // ---- the arcs that are left
    // One arc more, which is at a place of the network.
    fn lay_arc(&mut self, place: Option<Place>, tail: Node, head: Node, base: u32, x: u32) {
        let Some(a) = self.arcs.push(tail, head, base, x) else {
            return;
        };
        self.list(a.tail(), tail);
        self.list(a.head(), head);
        self.place[a] = place;
        if let Some(k) = place {
            self.carrier[k] = Some(a);
        }
    }

    fn list(&mut self, end: End, v: Node) {
        self.after[end] = self.first[v];
        self.first[v] = Some(end);
    }

    // The arc at place a of the network, where it is not one that joined two nodes.
    fn lay_place(&mut self, given: &Given, begun: &Begun, a: Place) {
        if self.carrier[a].is_some() {
            return;
        }
        let arc = given.wire(a);
        let tail = self.node(arc.tail);
        let head = self.node(arc.head);
        self.lay_arc(Some(a), tail, head, arc.base, begun.load[a]);
    }

    // ---- what is asked of it
    // The first end of an arc at node v.
    pub fn first(&self, v: Node) -> Option<End> {
        self.first[v]
    }

    // The next at the same node.
    pub fn after(&self, end: End) -> Option<End> {
        self.after[end]
    }

    // The place of arc a in the network.
    pub fn place(&self, a: ArcId) -> Option<Place> {
        self.place[a]
    }

    // The load of the arc at place a of the network.
    pub fn load_of(&self, a: Place) -> u32 {
        self.carrier[a].map_or(0, |b| self.arcs[b].load)
    }

    pub fn take(&self, given: &Given, loads: &mut [u32; 448]) {
        for k in 0..given.arcs {
            loads[k] = self.load_of(Place::of(k));
        }
    }
}
