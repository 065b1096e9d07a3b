// Labels: nodes are labelled from the sink backwards, along arcs whose load can be changed. A label is a rank, the arc it came along, and the room from
// there to the sink; where the room is 0 there is no label.
ghost use Rattle.std.specs.Prelude.{◌<◌};
ghost use Rattle.mainloop.specs.Labelling.{MarkedIn, FreshIn};

use crate::judging::Label;
use nets::Work;

// A node is labelled. This is the one place that writes a label.
pub(crate) fn mark(work: &mut Work, label: Label, count: usize)
    requires node_bound { label.node < 130 }
    requires arc_bound { label.arc < 448 }
    requires count_bound { count < 130 }
    ensures { MarkedIn work.old label count work.new }
{
    work.rank[label.node] = count as u32;
    work.via[label.node] = label.arc as u32;
    work.room[label.node] = label.room;
}

// Only the sink has a label.
// Kept: (d) as at `nets::Arc`: a room of 0 can carry nothing, and is no label.
pub(crate) fn reset(work: &mut Work)
    ensures { FreshIn work.old work.new }
{
    work.room.fill(0);
    work.room[129] = 64001;
    work.rank[129] = 0;
}
