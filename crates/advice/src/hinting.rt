// The room of the hint: arcs of the network in an order in which each reaches a node that none before it has reached, from the source and the sink on.
// Whoever looks for the first times that fit the loads has most of them when he has tried these arcs once.
use crate::tree::Tree;
use layout::given::{Given, Wire};
use layout::laying::Work;
use layout::numbers::{List, Node, Part, Place, SINK, SOURCE, Table};

// In a hint, no arc.
// Kept: (a) `boddivarn_advise` hands out hints in C, and the solver as `via` of a network's work, both numbers.
const NONE: u32 = 500;

#[derive(Drop)]
struct Hints<'a> {
    given: &'a Given<'a>,
    work: &'a Work,
    reached: Table<bool, 130>,
    arcs: List<Place, 130>,
}

impl<'a> Hints<'a> {
    // Arc a reaches node v.
    fn list(&mut self, a: Place, v: Node) {
        self.arcs.push(a);
        self.reached[v] = true;
    }

    // Arc a is listed where it leads on from a node that is reached to one that is not, or back to one and has a load.
    fn offer(&mut self, a: Place) {
        let Wire { tail, head, .. } = self.given.wire(a);
        match (self.reached[tail], self.reached[head]) {
            (true, false) => self.list(a, head),
            (false, true) => {
                if self.work.load_of(a) != 0 {
                    self.list(a, tail);
                }
            }
            (true, true) | (false, false) => {}
        }
    }

    // The arc by which node v is one with another, if it is.
    fn offer_join(&mut self, v: Node) {
        if let Some(join) = self.work.joint[v].join {
            self.offer(join.by);
        }
    }

    // All nodes that are one with node v.
    fn offer_members(&mut self, v: Node) {
        let mut next = self.work.joint[v].member;
        for _ in 0..130 {
            let Some(member) = next else {
                return;
            };
            self.offer_join(member);
            next = self.work.joint[member].sibling;
        }
    }

    // Node v of the tree, and all that are one with it, by the arc from its parent. The deadline's arc is none of the network.
    fn offer_node(&mut self, tree: &Tree, v: Node) {
        let end = tree.twig[v].end;
        if let Some(a) = self.work.place(end.arc()) {
            let Wire { tail, head, .. } = self.given.wire(a);
            let (above, below) = if end.is_tail() {
                (head, tail)
            } else {
                (tail, head)
            };
            self.offer_join(above);
            self.offer(a);
            self.offer_join(below);
        }
        self.offer_members(v);
    }

    // The nodes of the tree, each after its parent.
    fn offer_tree(&mut self, tree: &Tree) {
        let mut v = tree.twig[SOURCE].next;
        for _ in 0..130 {
            if v == SOURCE {
                return;
            }
            self.offer_node(tree, v);
            v = tree.twig[v].next;
        }
    }

    // The ends that nothing has reached so far.
    fn offer_ends(&mut self) {
        for k in 0..self.given.parts {
            let p = Part::of(k);
            self.offer_join(p.end());
            self.offer(p.place());
        }
    }
}

// The arcs that are listed; past them no arc.
pub(crate) fn take<'a>(given: &'a Given<'a>, work: &'a Work, tree: &Tree, hint: &mut [u32; 130]) {
    let mut hints = Hints {
        given,
        work,
        reached: Table::filled(false),
        arcs: List::filled(Part::FIRST.place()),
    };
    hints.reached[SOURCE] = true;
    hints.reached[SINK] = true;
    hints.offer_members(SOURCE);
    hints.offer_tree(tree);
    hints.offer_ends();
    for k in 0..130 {
        hint[k] = hints.arcs.get(k).map_or(NONE, |a| a.number() as u32);
    }
}
