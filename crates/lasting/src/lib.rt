// The last times that fit given loads, by the network turned round: each arc goes the other way, a part's start and its end change places, and so do
// source and sink. Its first times, counted down from the deadline, are the last times of the network; with loads that are a reason they are the latest
// of the cheapest. It knows no board.
#![tactic(auto)]

ghost use Rattle.std.specs.Prelude.{◌≡◌};
ghost use Rattle.deciding.specs.Raising.{FairIn};
ghost use Rattle.lasting.specs.Turned.{opposite_of, Across, TurnedIn, LastIn};

use nets::{Net, Work};

// The node on the other side: a part's end for its start, its start for its end, the sink for the source and the source for the sink.
fn opposite(v: u32) -> u32
    ensures { result ≡ opposite_of v }
{
    if v < 64 {
        return 64 + v;
    }
    if v < 128 {
        return v - 64;
    }
    if v < 129 {
        return 129;
    }
    128
}

// The nodes on the other side of the ends of arcs.
fn across(ends: &[u32; 448]) -> [u32; 448]
    ensures { Across ends.now result }
{
    ends.map(opposite)
}

// The net turned round.
fn turn(net: &Net) -> Net
    ensures { TurnedIn net.now result }
{
    Net {
        tail: across(&net.head),
        head: across(&net.tail),
        base: net.base,
        length: net.length,
        saving: net.saving,
        late: net.late,
        arcs: net.arcs,
        parts: net.parts,
        due: net.due,
    }
}

// The first times of the net turned round that fit the loads, whatever they are, and end at the deadline, or no. Loads stay.
pub fn last_times(net: &Net, work: &mut Work, due: u32) -> bool
    requires { FairIn net.now due }
    ensures { LastIn net.now due work.old work.new result }
{
    deciding::finding::answer(&turn(net), work, due)
}
