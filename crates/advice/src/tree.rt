// The room of the tree: from the source to every node over arcs, each at a length that is held to. The nodes stand in a ring, each before all below it.
use layout::arcs::{Arc, Arcs, HALF};
use layout::numbers::{End, Node, SOURCE, Table};

// How a node hangs on its parent: the end here of the arc between them, which is its tail where it leads to the parent, and its length, 2^31 up.
#[derive(Clone, Copy)]
pub(crate) struct Tie {
    pub end: End,
    pub length: u32,
}

#[derive(Clone, Copy)]
pub(crate) struct Twig {
    pub depth: u32,
    pub length: u32,
    pub end: End,
    pub parent: Node,
    pub next: Node,
    pub back: Node,
}

#[derive(Drop)]
pub(crate) struct Tree {
    // Times of nodes by the tree.
    pub value: Table<u32, 130>,
    pub twig: Table<Twig, 130>,
}

impl Twig {
    pub fn tie(&self) -> Tie {
        Tie {
            end: self.end,
            length: self.length,
        }
    }
}

impl Tree {
    pub const BLANK: Tree = Tree {
        value: Table { rows: [0; 130] },
        twig: Table {
            rows: [Twig {
                depth: 0,
                length: 0,
                end: End::FIRST,
                parent: Node::FIRST,
                next: Node::FIRST,
                back: Node::FIRST,
            }; 130],
        },
    };

    // The source, with nothing below it.
    pub fn plant(&mut self) {
        let root = &mut self.twig[SOURCE];
        root.next = SOURCE;
        root.back = SOURCE;
    }

    // The length of an arc by the tree, 2^31 up.
    pub fn span(&self, arc: &Arc) -> u32 {
        arc.span(self.value[arc.tail], self.value[arc.head])
    }

    // Node v comes below node u, right after it in the ring.
    pub fn hang(&mut self, v: Node, u: Node, tie: Tie) {
        let above = self.twig[u];
        let value = self.value[u];
        let ticks = tie.length.wrapping_sub(HALF);
        self.value[v] = if tie.end.is_tail() {
            value.wrapping_sub(ticks)
        } else {
            value.wrapping_add(ticks)
        };
        self.twig[v] = Twig {
            depth: above.depth.wrapping_add(1),
            length: tie.length,
            end: tie.end,
            parent: u,
            next: above.next,
            back: u,
        };
        self.twig[u].next = v;
        self.twig[above.next].back = v;
    }

    // The ring from node v to node `last` goes after node `after`.
    pub fn splice(&mut self, v: Node, last: Node, after: Node) {
        let before = self.twig[v].back;
        let end = self.twig[last].next;
        self.twig[before].next = end;
        self.twig[end].back = before;
        let then = self.twig[after].next;
        self.twig[after].next = v;
        self.twig[v].back = after;
        self.twig[last].next = then;
        self.twig[then].back = last;
    }

    // Node v and all below it: values by `more` later and `deeper` down. The last of them in the ring is returned.
    pub fn shift(&mut self, v: Node, more: u32, deeper: u32) -> Node {
        let floor = self.twig[v].depth;
        self.move_by(v, more, deeper);
        let mut y = v;
        for _ in 0..130 {
            let z = self.twig[y].next;
            if self.twig[z].depth <= floor {
                return y;
            }
            self.move_by(z, more, deeper);
            y = z;
        }
        y
    }

    fn move_by(&mut self, v: Node, more: u32, deeper: u32) {
        self.value[v] = self.value[v].wrapping_add(more);
        self.twig[v].depth = self.twig[v].depth.wrapping_add(deeper);
    }

    // d along the way between node v and node `top` above it.
    // Kept: (d) a direction: it is compared with the arc's.
    pub fn push(&self, arcs: &mut Arcs, v: Node, top: Node, upward: bool, d: u32) {
        let mut y = v;
        for _ in 0..130 {
            if y == top {
                return;
            }
            let twig = &self.twig[y];
            arcs.change(twig.end.arc(), twig.end.is_tail() == upward, d);
            y = twig.parent;
        }
    }
}
