// Loads and the first times that fit them, which together prove the times cheapest: those in the sheet, whatever they are, where they are taken; and
// those of the main loop.
ghost use Rattle.deciding.specs.Raising.{FairIn};
ghost use Rattle.deciding.specs.Finding.{PreparedIn, ProvesIn, AnsweredIn};

use crate::{balancing, raising};
use mainloop::crashing;
use nets::{Net, Work};

// Whether the loads are a sheet and there are times that fit them and end at the deadline. Then the times are the first such.
pub fn answer(net: &Net, work: &mut Work, due: u32) -> bool
    requires { FairIn net.now due }
    ensures { AnsweredIn net.now due work.old work.new result }
{
    if !balancing::balanced(net, &work.load, &mut work.room) {
        return false;
    }
    raising::decide(net, &mut work.time, &work.load, &work.via, due)
}

// Loads by the main loop, from the times that the net has and no loads. Its own times are cheapest too, but the first that fit its loads are asked for;
// there are some, so no is not heard.
pub fn from_late(net: &Net, work: &mut Work, due: u32)
    requires { PreparedIn net.now due }
    ensures { ProvesIn net.now due work.new }
{
    work.load.fill(0);
    work.time.copy_from_slice(&net.late);
    crashing::crash(net, work, due);
    raising::decide(net, &mut work.time, &work.load, &work.via, due);
}
