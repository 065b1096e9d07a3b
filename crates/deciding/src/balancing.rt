// Whether loads are a sheet: none above 64,000, and as much to each part's start and end as from it.
ghost use Rattle.std.specs.Prelude.{◌≡◌, ◌↔◌, IsTrue, EachIndex, slice_index};
ghost use Rattle.nets.specs.Sheet.{SoundIn};
ghost use Rattle.deciding.specs.Balancing.{Weighable, Weighs, Weighing, WeighedIn, BalancedIn};

use nets::Net;

// What every sum starts at, so that none falls below 0.
const LEVEL: u32 = 30000000;

// The load of arc `a` goes to the sum of its head, and from that of its tail.
fn carry(net: &Net, load: &[u32; 448], sum: &mut [u32; 130], a: usize)
    requires { Weighable net.now load.now sum.old a }
    ensures { Weighs net.now load.now sum.old a sum.new }
{
    let x = load[a];
    sum[net.head[a] as usize] += x;
    sum[net.tail[a] as usize] -= x;
}

// The sums of all arcs; no, where a load is above 64,000.
fn weigh(net: &Net, load: &[u32; 448], sum: &mut [u32; 130]) -> bool
    requires sound_in { SoundIn net.now }
    requires weighing { Weighing net.now load.now 0 sum.old }
    ensures { WeighedIn net.now load.now sum.new result }
{
    for a in 0..net.arcs as usize {
        if 64000 < load[a] {
            return false;
        }
        carry(net, load, sum, a);
    }
    true
}

// Whether all sums are as they started.
fn level(sum: &[u32]) -> bool
    ensures { IsTrue result ↔ EachIndex sum.now (λ v. slice_index sum.now v ≡ LEVEL) }
{
    sum.iter().all(|s| *s == LEVEL)
}

// Whether the loads are a sheet. `sum` is room for the sums of the nodes.
pub(crate) fn balanced(net: &Net, load: &[u32; 448], sum: &mut [u32; 130]) -> bool
    requires { SoundIn net.now }
    ensures { BalancedIn net.now load.now result }
{
    sum.fill(LEVEL);
    weigh(net, load, sum) && level(&sum[..128])
}
