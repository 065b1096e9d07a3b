// Judging one arc between a node with a label and one without: a label passes along it, or it lets the labelled nodes go down.
ghost use Rattle.std.specs.Prelude.{◌≡◌, ◌<◌};
ghost use Rattle.nets.specs.Sheet.{gain_in, BendsIn, ReadyIn, Here, arc_within};
ghost use Rattle.mainloop.specs.Judging.{RunAt, Judged, ScannedIn};
ghost use Rattle.nets.specs.Judge.{Calm};

use nets::{Arc, Net, Work};

// Arc `a`, read out of the sheets.
fn arc_at(net: &Net, work: &Work, a: usize) -> Arc
    requires { Here net.now work.now a }
    ensures { result ≡ arc_within net.now work.now a }
{
    let u = net.tail[a] as usize;
    let v = net.head[a] as usize;
    Arc {
        tail: u,
        head: v,
        behind: work.room[u],
        ahead: work.room[v],
        ticks: work.time[v] - (work.time[u] + net.base[a]),
        load: work.load[a],
    }
}

// Ticks that all save the same: from `begin` up to `end`. Past the last run the end is later than any time.
#[derive(Clone, Copy)]
pub struct Run {
    pub begin: u32,
    pub end: u32,
    pub saving: u32,
}

// The run of arc `a` that tick `j` lies in. Arcs from 64 on have no runs, and past the last run nothing is saved.
fn run_at(net: &Net, a: usize, j: u32) -> Run
    requires bends_in { BendsIn net.now a }
    requires j_bound { j < 1048576 }
    ensures { RunAt (gain_in net.now a) j result }
{
    if 64 <= a {
        return Run {
            begin: 0,
            end: 1048576,
            saving: 0,
        };
    }
    let mut begin: u32 = 0;
    for i in 0..4 {
        let at = 4 * a + i;
        let end = begin + net.length[at];
        if j < end {
            return Run {
                begin: begin,
                end: end,
                saving: net.saving[at],
            };
        }
        begin = end;
    }
    Run {
        begin: begin,
        end: 1048576,
        saving: 0,
    }
}

// Node `node` can be labelled along arc `arc`, with this room.
#[derive(Clone, Copy)]
pub struct Label {
    pub arc: usize,
    pub node: usize,
    pub room: u32,
}

// What is seen at arcs: a label; or none, and the labelled nodes may go down by the slack.
#[derive(Clone, Copy)]
pub enum Sight {
    Label(Label),
    Slack(u32),
}

// Arc `a`, which is `k`, leads from a node without a label: more load, or fewer ticks.
// Kept: (d) it and `fall` differ in ends, in the tick that is asked about and in both comparisons: one body would ask the way four times.
fn rise(net: &Net, a: usize, k: Arc) -> Sight
    requires bends_in { BendsIn net.now a }
    requires calm { Calm (gain_in net.now a) k }
    requires behind_value { k.behind ≡ 0 }
    requires ahead_nonzero { 0 < k.ahead }
    ensures { Judged (gain_in net.now a) k a result }
{
    if k.ticks == 0 {
        return Sight::Label(Label {
            arc: a,
            node: k.tail,
            room: k.ahead,
        });
    }
    let last = run_at(net, a, k.ticks - 1);
    if k.load < last.saving {
        return Sight::Label(Label {
            arc: a,
            node: k.tail,
            room: k.ahead.min(last.saving - k.load),
        });
    }
    Sight::Slack(k.ticks - last.begin)
}

// Arc `a`, which is `k`, leads to a node without a label: less load, or more ticks.
fn fall(net: &Net, a: usize, k: Arc) -> Sight
    requires bends_in { BendsIn net.now a }
    requires calm { Calm (gain_in net.now a) k }
    requires behind_nonzero { 0 < k.behind }
    requires ahead_value { k.ahead ≡ 0 }
    ensures { Judged (gain_in net.now a) k a result }
{
    let next = run_at(net, a, k.ticks);
    if next.saving < k.load {
        return Sight::Label(Label {
            arc: a,
            node: k.head,
            room: k.behind.min(k.load - next.saving),
        });
    }
    Sight::Slack(next.end - k.ticks)
}

// Arc `a`, which is `k`, is judged. Where both of its ends have a label or none has, it stops nothing.
fn judge(net: &Net, a: usize, k: Arc) -> Sight
    requires bends_in { BendsIn net.now a }
    requires calm { Calm (gain_in net.now a) k }
    ensures { Judged (gain_in net.now a) k a result }
{
    match (k.behind, k.ahead) {
        (0, 0) => Sight::Slack(1048576),
        (0, _) => rise(net, a, k),
        (_, 0) => fall(net, a, k),
        _ => Sight::Slack(1048576),
    }
}

// The first arc that can label a node; or where there is none, how far the labelled nodes may go down, up to `most`.
pub(crate) fn scan(net: &Net, work: &Work, most: u32) -> Sight
    requires ready_in { ReadyIn net.now work.now }
    requires most_nonzero { 0 < most }
    ensures { ScannedIn net.now work.now most result }
{
    let arcs = net.arcs as usize;
    let mut slack = most;
    for a in 0..arcs {
        match judge(net, a, arc_at(net, work, a)) {
            Sight::Label(label) => return Sight::Label(label),
            Sight::Slack(s) => slack = slack.min(s),
        }
    }
    Sight::Slack(slack)
}
