// The room of the wiring: a board's parts, links, entries and exits as arcs of a network, laid on the net sheet that advice, main loop and verdict read.
ghost use Rattle.std.specs.Prelude.{◌+◌, ◌<◌};
ghost use Rattle.board.specs.Board.{WellFormed};
ghost use Rattle.solver.specs.Wiring.{span, part_span, link_span, entry_span, exit_span, PutIn, LaidIn, Runs, NetworkIn};

use board::Board;
use nets::Net;

// Arc `a` goes from one node to another and is `ticks` long at least.
fn put(net: &mut Net, a: usize, from: usize, to: usize, ticks: u32)
    requires a_bound { a < 448 }
    requires from_bound { from < 130 }
    requires to_bound { to < 130 }
    ensures { PutIn a (span from to ticks) net.old net.new }
{
    net.tail[a] = from as u32;
    net.head[a] = to as u32;
    net.base[a] = ticks;
}

// Kept: (d) four blocks of arcs, a loop each: one loop over a closure would have clauses for its calls at every place, longer than the loops.
// Each part, from its start to its end.
fn lay_parts(b: Board, net: &mut Net)
    requires { WellFormed b }
    ensures { LaidIn 0 b.parts (part_span b) net.old net.new }
{
    for p in 0..b.parts {
        put(net, p, p, 64 + p, b.curve[p].fastest.0);
    }
}

// Each link, from the end of its first part to the start of its second.
fn lay_links(b: Board, net: &mut Net)
    requires { WellFormed b }
    ensures { LaidIn b.parts b.links (link_span b) net.old net.new }
{
    for l in 0..b.links {
        let link = b.link[l];
        let delay = board::link_delay(link);
        put(net, b.parts + l, 64 + link.from, link.to, delay.0);
    }
}

// An entry of each part, from the source to its start.
fn lay_entries(b: Board, net: &mut Net)
    requires { WellFormed b }
    ensures { LaidIn (b.parts + b.links) b.parts entry_span net.old net.new }
{
    let first = b.parts + b.links;
    for p in 0..b.parts {
        put(net, first + p, 128, p, 0);
    }
}

// An exit of each part, from its end to the sink.
fn lay_exits(b: Board, net: &mut Net)
    requires { WellFormed b }
    ensures { LaidIn (b.parts + b.links + b.parts) b.parts exit_span net.old net.new }
{
    let first = b.parts + b.links + b.parts;
    for p in 0..b.parts {
        put(net, first + p, 64 + p, 129, 0);
    }
}

// The runs of every place for a part; a place without one holds blank runs.
fn lay_runs(b: Board, length: &mut [u32; 256], saving: &mut [u32; 256])
    ensures { Runs b 256 length.new saving.new }
{
    for k in 0..256 {
        let curve = b.curve[k / 4];
        let run = curve.runs[k % 4];
        length[k] = run.length.0;
        saving[k] = run.saving.0;
    }
}

// The network of a board, with the ticks that a path may take, for the advice.
pub(crate) fn wire(b: Board, due: u32) -> Net
    requires { WellFormed b }
    ensures { NetworkIn b result }
{
    let mut net = Net::empty();
    lay_parts(b, &mut net);
    lay_links(b, &mut net);
    lay_entries(b, &mut net);
    lay_exits(b, &mut net);
    lay_runs(b, &mut net.length, &mut net.saving);
    net.arcs = (b.parts + b.links + b.parts + b.parts) as u32;
    net.parts = b.parts as u32;
    net.due = due;
    net
}
