// The main loop: from times that are too late down to the deadline. Nodes are labelled from the sink on, one in a turn;
// where the source is reached load is pushed, and where no node can be labelled the labelled ones go down.
ghost use Rattle.std.specs.Prelude.{◌<◌};
ghost use Rattle.theory.specs.Sum.{cells};
ghost use Rattle.nets.specs.Sheet.{GoodIn, WideIn};
ghost use Rattle.mainloop.specs.Crashing.{StateIn, TurnedIn, CrashedIn};

use crate::judging::Sight;
use crate::{judging, labelling, lowering, pushing};
use nets::{Net, Work};

// One turn. How many nodes have a label then is returned.
fn turn(net: &Net, work: &mut Work, due: u32, count: usize) -> usize
    requires wide_in { WideIn net.now due }
    requires state_in { StateIn net.now work.old count }
    requires due_bound { due < cells work.old.time 129 }
    ensures { TurnedIn net.now due work.old count work.new result }
{
    let most = work.time[129] - due;
    let label = match judging::scan(net, work, most) {
        Sight::Slack(slack) => {
            lowering::shift(&mut work.time, &work.room, slack);
            return count;
        }
        Sight::Label(label) => label,
    };
    labelling::mark(work, label, count);
    if label.node != 128 {
        return count + 1;
    }
    pushing::push(net, work);
    labelling::reset(work);
    1
}

// From times and loads that fit down to the deadline. Where the deadline is met already times and loads are not changed.
pub fn crash(net: &Net, work: &mut Work, due: u32)
    requires wide_in { WideIn net.now due }
    requires good_in { GoodIn net.now work.old }
    ensures { CrashedIn net.now due work.old work.new }
{
    labelling::reset(work);
    let mut count: usize = 1;
    while due < work.time[129] {
        count = turn(net, work, due, count);
    }
}
