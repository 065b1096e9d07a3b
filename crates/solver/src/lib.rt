// The solver: refusals 9 and 10 with the path shown, or the budget that is held, by a flow that shows why none is cheaper (document 003 has the problem,
// document 000 the flow). The board is laid as a network of arcs on a sheet. Loads are advised, quickly and with no promise; the verdict takes them where
// there are times that fit them and end at the deadline, and gives the first such times; else the main loop, from all parts at their slowest, always
// finds loads that are taken.
// It promises the budget and a flow that proves it cheapest. It does not promise which flow, nor how long it takes: only that it ends. It reads no
// bytes, holds no board, and knows nothing of orders.
#![tactic(auto)]

mod advising;
mod finding;
mod judging;
mod reading;
mod wiring;

ghost use Rattle.board.specs.Board.{WellFormed};
ghost use Rattle.std.specs.Prelude.{◌≡◌};
ghost use Rattle.solver.specs.Judging.{unshown};
ghost use Rattle.solver.specs.Solve.{Solvable, Sound, Solves};
ghost use Rattle.solver.specs.Finding.{Answers};

use board::Board;
use budget::Budget;
use nets::Work;
use refusal::{Refusal, Why};
use slow::Trail;

// What a board that is refused for nothing comes to: its budget, and the loads of parts, links, entries and exits that show why no budget is cheaper.
#[derive(Clone, Copy)]
pub struct Solved {
    pub budget: Budget,
    pub flow: [u32; 448],
}

// A board that is refused. The path is empty except at refusal 10.
#[derive(Clone, Copy)]
pub struct Unsolved {
    pub refusal: Refusal,
    pub path: Trail,
}

// A board that is refused before any path is looked at.
impl From<Refusal> for Unsolved {
    ghost from_gives = { λ refusal u. u ≡ unshown refusal };

    fn from(refusal: Refusal) -> Unsolved {
        Unsolved {
            refusal,
            path: Trail::empty(),
        }
    }
}

// What may be known of a board before it is solved, any numbers at all. Known: loads of its arcs to begin at, and times of the nodes, of parts' starts and
// ends, source and sink; without times all parts at their slowest are begun from. Ready: loads that are judged as they are, with no advice sought: so
// trials reach the verdict and the main loop.
#[derive(Clone, Copy)]
pub enum Advice {
    Known {
        loads: [u32; 448],
        times: Option<[u32; 130]>,
    },
    Ready {
        loads: [u32; 448],
    },
}

// Nothing known.
pub fn no_advice() -> Advice {
    Advice::Known {
        loads: [0; 448],
        times: None,
    }
}

// What the budget and the flow of a board advise for the board that it was changed to.
pub fn advice_from(from: Board, held: Budget, flow: [u32; 448], to: Board) -> Advice {
    advising::advice_from(from, held, flow, to)
}

// ---- a board that can be solved
// The budget and the flow that stand on the work sheet.
fn answer_of(b: Board, work: &Work) -> Solved
    requires { Answers b work.now }
    ensures { Sound b result }
{
    Solved {
        budget: reading::budget_at(b, &work.time),
        flow: reading::flow_of(&work.load, b.parts + b.links + b.parts + b.parts),
    }
}

// The budget that is held, with its reason, on a board that is refused for nothing.
fn solve_possible(b: Board, advice: Advice) -> Solved
    requires { Solvable b }
    ensures { Sound b result }
{
    let due = board::usable_deadline(b);
    let mut net = wiring::wire(b, due.0);
    let mut work = Work::empty();
    finding::find(b, due.0, advice, &mut net, &mut work);
    answer_of(b, &work)
}

// ---- any board
// Refusal 9 or 10 of a well-formed board, or the budget that is held. The advice may be anything: good advice makes for quick work.
pub fn solve_formed(b: Board, advice: Advice) -> Result<Solved, Unsolved>
    requires { WellFormed b }
    ensures { Solves b result }
{
    judging::judge(b)?;
    Ok(solve_possible(b, advice))
}

// The same for any board. Of a value that is not well formed only the end of the call is promised.
pub fn solve(b: Board, advice: Advice) -> Result<Solved, Unsolved>
    ensures { WellFormed b → Solves b result }
{
    if !board::well_formed(b) {
        return Err(Why::NoBoard.at(0).into());
    }
    solve_formed(b, advice)
}
