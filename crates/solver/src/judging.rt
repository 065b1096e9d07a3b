// The room of the judge: refusals 9 and 10 of a board as a whole.
ghost use Rattle.board.specs.Board.{WellFormed};
ghost use Rattle.solver.specs.Judging.{Timely, JudgedOf};

use crate::Unsolved;
use board::Board;
use refusal::Why;

// Refusal 10, of a board without a loop.
fn judge_time(b: Board) -> Result<(), Unsolved>
    requires { Timely b }
    ensures { JudgedOf b result }
{
    let Some(shown) = slow::slow_path(b) else {
        return Ok(());
    };
    Err(Unsolved {
        refusal: Why::TooSlow.at(shown.ticks as usize),
        path: shown.path,
    })
}

// Refusals 9 and 10.
pub(crate) fn judge(b: Board) -> Result<(), Unsolved>
    requires { WellFormed b }
    ensures { JudgedOf b result }
{
    if let Some(part) = cone::lowest_on_loop(b) {
        return Err(Why::Looped.at(part).into());
    }
    judge_time(b)
}
