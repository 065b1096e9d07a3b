// The room of the answer: the times and the loads of the work sheet, read back as a budget and a flow.
ghost use Rattle.std.specs.Prelude.{◌≡◌, ◌≤◌};
ghost use Rattle.theory.specs.Sum.{cells};
ghost use Rattle.board.specs.Board.{view};
ghost use Rattle.budget.specs.Made.{value_of};
ghost use Rattle.nets.specs.Wired.{times_of};
ghost use Rattle.solver.specs.Reading.{nodes_from, Budgeted, FlowIn};

use board::Board;
use budget::Budget;
use curve::Ticks;

// The times of `n` nodes from node `first` on.
fn nodes_from(time: &[u32; 130], first: usize, n: usize) -> [Ticks; 64]
    requires first_bound { first ≤ 64 }
    requires n_bound { n ≤ 64 }
    ensures { result ≡ nodes_from time.now first n }
{
    let mut times = [Ticks(0); 64];
    for k in 0..n {
        times[k] = Ticks(time[first + k]);
    }
    times
}

// The budget that the times of nodes are.
pub(crate) fn budget_at(b: Board, time: &[u32; 130]) -> Budget
    requires { Budgeted b time.now }
    ensures { result ≡ value_of b (times_of (view b) (cells time.now)) }
{
    let start = nodes_from(time, 0, b.parts);
    let end = nodes_from(time, 64, b.parts);
    budget::budget_of(b, start, end)
}

// The loads of the first `arcs` arcs, and no load past them.
pub(crate) fn flow_of(load: &[u32; 448], arcs: usize) -> [u32; 448]
    requires { arcs ≤ 448 }
    ensures { FlowIn load.now arcs result }
{
    let mut flow = [0u32; 448];
    flow[..arcs].copy_from_slice(&load[..arcs]);
    flow
}
