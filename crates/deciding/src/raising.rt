// Raising: from all times at 0 and the sink at the deadline nodes are raised as the arcs ask, and no further, until no arc asks. Nothing comes of it where
// an arc asks what cannot be had.
ghost use Rattle.deciding.specs.Raising.{FairIn, Within, SettledIn, FollowedIn, SweptIn, RaisedIn, DecidedIn};

use crate::asking;
use nets::Net;

// Arc `a` is given what it asks for: whether a node was raised. A number that is no arc asks for nothing.
fn settle(net: &Net, time: &mut [u32; 130], load: &[u32; 448], due: u32, a: u32) -> Option<bool>
    requires fair_in { FairIn net.now due }
    requires within { Within due time.old }
    ensures { SettledIn net.now load.now due time.old a time.new result }
{
    if net.arcs <= a {
        return Some(false);
    }
    let b = a as usize;
    let Some(r) = asking::ask(net, b, asking::ends_at(net, time, load, b)) else {
        return Some(false);
    };
    if r.node == 128 {
        return None;
    }
    if due < r.time {
        return None;
    }
    time[r.node] = r.time;
    Some(true)
}

// The arcs of `via`, one after another.
fn follow(
    net: &Net,
    time: &mut [u32; 130],
    load: &[u32; 448],
    via: &[u32; 130],
    due: u32,
) -> Option<()>
    requires fair_in { FairIn net.now due }
    requires within { Within due time.old }
    ensures { FollowedIn net.now load.now due time.old time.new result }
{
    for a in via {
        settle(net, time, load, due, *a)?;
    }
    Some(())
}

// All arcs, one after another: whether a node was raised.
fn sweep(net: &Net, time: &mut [u32; 130], load: &[u32; 448], due: u32) -> Option<bool>
    requires fair_in { FairIn net.now due }
    requires within { Within due time.old }
    ensures { SweptIn net.now load.now due time.old time.new result }
{
    let mut raised = false;
    for a in 0..net.arcs {
        raised |= settle(net, time, load, due, a)?;
    }
    Some(raised)
}

// The arcs of `via`, and then all arcs until none asks.
fn raise(
    net: &Net,
    time: &mut [u32; 130],
    load: &[u32; 448],
    via: &[u32; 130],
    due: u32,
) -> Option<()>
    requires fair_in { FairIn net.now due }
    requires within { Within due time.old }
    ensures { RaisedIn net.now load.now due time.old time.new result }
{
    follow(net, time, load, via, due)?;
    while sweep(net, time, load, due)? {}
    Some(())
}

// The first times that fit the loads and end at the deadline, or no.
pub(crate) fn decide(
    net: &Net,
    time: &mut [u32; 130],
    load: &[u32; 448],
    via: &[u32; 130],
    due: u32,
) -> bool
    requires { FairIn net.now due }
    ensures { DecidedIn net.now load.now due time.new result }
{
    time.fill(0);
    time[129] = due;
    raise(net, time, load, via, due).is_some()
}
