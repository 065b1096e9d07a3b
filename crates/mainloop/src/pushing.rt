// Pushes: load is pushed from the source to the sink, along the way that the labels show.
ghost use Rattle.mainloop.specs.Pushing.{CarriableIn, CarriesIn, PushableIn, PushedIn};

use nets::{Net, Work};

// `d` is carried from node `v` over the arc that its label came along, to the arc's other end.
fn carry(net: &Net, work: &mut Work, v: usize, d: u32) -> usize
    requires { CarriableIn net.now work.old v d }
    ensures { CarriesIn net.now work.old v d work.new result }
{
    let a = work.via[v] as usize;
    let u = net.tail[a] as usize;
    if u == v {
        work.load[a] += d;
        return net.head[a] as usize;
    }
    work.load[a] -= d;
    u
}

// As much as there is room for is pushed all the way from the source to the sink.
pub(crate) fn push(net: &Net, work: &mut Work)
    requires { PushableIn net.now work.old }
    ensures { PushedIn net.now work.old work.new }
{
    let d = work.room[128];
    let mut v: usize = 128;
    while v != 129 {
        v = carry(net, work, v, d);
    }
}
