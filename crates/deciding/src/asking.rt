// What one arc asks of the times.
ghost use Rattle.std.specs.Prelude.{◌≡◌};
ghost use Rattle.nets.specs.Sheet.{gain_in, BendsIn};
ghost use Rattle.deciding.specs.Asking.{Above, Early, Says};
ghost use Rattle.deciding.specs.Asking.{PlacedIn, ends_in};

use nets::Net;

// How many ticks of arc `a` save more than `x`. Arcs from 64 on have no runs.
// Kept: (d) apart from the main loop's `run_at`: each takes of an arc what its clauses speak of, a count of ticks or the run of one.
fn above(net: &Net, a: usize, x: u32) -> u32
    requires { BendsIn net.now a }
    ensures { Above (gain_in net.now a) x result }
{
    if 64 <= a {
        return 0;
    }
    let mut n: u32 = 0;
    for i in 0..4 {
        let at = 4 * a + i;
        if net.saving[at] <= x {
            return n;
        }
        n += net.length[at];
    }
    n
}

// A node and the time it must have.
#[derive(Clone, Copy)]
pub(crate) struct Raise {
    pub node: usize,
    pub time: u32,
}

// All that the sheets say of one arc: its ends, its tail's time, its base, its head's time and its load.
#[derive(Clone, Copy)]
pub(crate) struct Ends {
    pub tail: usize,
    pub head: usize,
    pub from: u32,
    pub base: u32,
    pub to: u32,
    pub load: u32,
}

// Arc `a`, read out of the sheets.
pub(crate) fn ends_at(net: &Net, time: &[u32; 130], load: &[u32; 448], a: usize) -> Ends
    requires { PlacedIn net.now time.now a }
    ensures { result ≡ ends_in net.now time.now load.now a }
{
    let u = net.tail[a] as usize;
    let v = net.head[a] as usize;
    Ends {
        tail: u,
        head: v,
        from: time[u],
        base: net.base[a],
        to: time[v],
        load: load[a],
    }
}

// What arc `a`, which is `k`, asks for: nothing where it fits, else a later time of one of its ends. Too short for its load its head is too early, too
// long its tail; without a load it is never too long.
pub(crate) fn ask(net: &Net, a: usize, k: Ends) -> Option<Raise>
    requires bends_in { BendsIn net.now a }
    requires early { Early k }
    ensures { Says (gain_in net.now a) k result }
{
    let first = k.from + k.base + above(net, a, k.load);
    if k.to < first {
        return Some(Raise {
            node: k.head,
            time: first,
        });
    }
    if k.load == 0 {
        return None;
    }
    let last = k.from + k.base + above(net, a, k.load - 1);
    if last < k.to {
        return Some(Raise {
            node: k.tail,
            time: k.from + (k.to - last),
        });
    }
    None
}
