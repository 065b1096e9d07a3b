// The latest end that given delays leave each part: the links are turned round, parts are timed from the deadline back, and what is left of the
// deadline is each part's latest end.
#![tactic(auto)]

ghost use Rattle.std.specs.Prelude.{◌≡◌, ◌≤◌};
ghost use Rattle.times.specs.Times.{Loopless};
ghost use Rattle.late.specs.Late.{left_of, LatestEndsOf};

use board::Board;
use curve::Ticks;

// What is left of the deadline at each of the first `n` parts.
fn left(due: Ticks, s: &[Ticks; 64], n: usize) -> [Ticks; 64]
    requires { n ≤ 64 }
    ensures { result ≡ left_of due.0 s.now n }
{
    let mut e = [Ticks(0); 64];
    for k in 0..n {
        e[k] = due.less(s[k]);
    }
    e
}

// The latest end that these delays leave each part by the usable deadline; places without a part hold 0.
pub fn latest_ends(b: Board, delay: [Ticks; 64]) -> [Ticks; 64]
    ensures { Loopless b → LatestEndsOf b delay result }
{
    let back = b.link.map(|l| l.turned());
    let s = times::times_by(back, b.links, b.parts, delay);
    left(board::usable_deadline(b), &s.start, b.parts.min(64))
}
