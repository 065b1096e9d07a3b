// Advice: loads that are nearly always cheapest, by a network simplex on convex arcs, from any times and any loads; and a hint, in which order arcs
// are best tried for the first times that fit them. Whoever asks judges both, so nothing is promised but that each call is safe and ends.
#![tactic(auto)]

mod growing;
mod hinting;
mod pivoting;
mod tree;
mod walking;

use growing::Ground;
use layout::given::Given;
use layout::laying::Work;
use nets::Net;
use tree::Tree;

// Advice on a network: `loads` are those to begin with (of parts and links: entries and exits are made to go with them), and then those advised. `hint`
// is filled with numbers of arcs, each of which reaches one node more from the source and the sink on; where there are fewer, with 500, which is no arc.
// Where no tree is found, both stay.
pub fn advise(net: &Net, loads: &mut [u32; 448], hint: &mut [u32; 130]) {
    let given = Given::of(net);
    // Kept: (b) work and tree are filled where they stand: returned by what makes them, they are copied, and advice on an order takes 7.9 us, not 5.3.
    let mut work = Work::BLANK;
    work.lay(&given, loads);
    let mut tree = Tree::BLANK;
    let ground = Ground {
        given: &given,
        work: &work,
    };
    if tree.grow(ground) {
        tree.pivot(&mut work.arcs);
        work.take(&given, loads);
        hinting::take(&given, &work, &tree, hint);
    }
}
