// Questions about a held board. Any desk may be asked and any number asked for: 11 where no board is held, 17 where the board has no such part.
#![tactic(auto)]

ghost use Rattle.std.specs.Prelude.{◌≡◌, ◌<◌, Ok, IfOk};
ghost use Rattle.curve.specs.Curve.{Good};
ghost use Rattle.curve.specs.Answers.{power_at_of};
ghost use Rattle.questions.specs.Tried.{part_tried, PlaceSaid};
ghost use Rattle.questions.specs.Sets.{counted_of, ConeSaid, UpstreamSaid, DownstreamSaid, FamilySaid};
ghost use Rattle.questions.specs.Links.{LinkSaid};
ghost use Rattle.questions.specs.Numbers.{PowerSaid, PartSaid, whole_asked};

use board::{Board, Rule};
use budget::Total;
use curve::{Curve, Microwatts, Ticks};
use desk::{Desk, Held};
use refusal::{Answer, Why};

// A set of 64 marks, bit n for part n, and the number of parts marked.
#[derive(Clone, Copy, PartialEq, Eq)]
pub struct Marked {
    pub set: u64,
    pub count: u32,
}

// Parents and children of a part.
#[derive(Clone, Copy, PartialEq, Eq)]
pub struct FamilyHeld {
    pub parents: Marked,
    pub children: Marked,
}

// What the held budget gives a part.
#[derive(Clone, Copy, PartialEq, Eq)]
pub struct PartHeld {
    pub start: Ticks,
    pub delay: Ticks,
    pub end: Ticks,
    pub power: Microwatts,
}

// The rule, the deadline and how much of it is usable, how many parts and links there are, and what all parts draw together.
#[derive(Clone, Copy, PartialEq, Eq)]
pub struct WholeHeld {
    pub rule: Rule,
    pub deadline: Ticks,
    pub usable: Ticks,
    pub parts: usize,
    pub links: usize,
    pub total: Total,
}

// A link, and whether it is critical in the held budget.
#[derive(Clone, Copy, PartialEq, Eq)]
pub struct LinkHeld {
    pub from: usize,
    pub to: usize,
    pub critical: bool,
}

// What a question about a part is asked of, or its refusal: 11, then 17.
#[tactic(auto, using(base::proofs::Tests::tests), unfolding(base::specs::Pick::pick, crate::specs::Tried::part_tried))]
fn part_tried(d: Desk, part: usize) -> Answer<Held>
    ensures { result ≡ part_tried d part }
{
    let held = d.held()?;
    if part < held.board.parts {
        return Ok(held);
    }
    Err(Why::NoPart.at(part))
}

// The same, where the part has a place in the arrays. No board that a load gave has a part 64.
fn place_on(d: Desk, part: usize) -> Answer<Held>
    ensures said { PlaceSaid d part result }
    ensures placed { IfOk result (λ held. (Ok held ≡ part_tried d part) × (part < 64)) }
{
    let held = part_tried(d, part)?;
    if 64 <= part {
        return Err(Why::NoPart.at(part));
    }
    Ok(held)
}

// A set with the number of parts marked.
#[tactic(auto, unfolding(crate::specs::Sets::counted_of))]
fn counted(set: u64) -> Marked
    ensures { result ≡ counted_of set }
{
    Marked {
        set,
        count: marks::size(set),
    }
}

// A cone of a part, of the board that is held.
fn cone<F: FnOnce(Board) -> u64>(d: Desk, part: usize, cone_in: F) -> Answer<Marked>
    requires { F.IsAlwaysCallable cone_in }
    ensures { ConeSaid (F.post cone_in) d part result }
{
    let held = part_tried(d, part)?;
    Ok(counted(cone_in(held.board)))
}

pub fn upstream(d: Desk, part: usize) -> Answer<Marked>
    ensures { UpstreamSaid d part result }
{
    cone(d, part, |b| cone::upstream(b, part))
}

pub fn downstream(d: Desk, part: usize) -> Answer<Marked>
    ensures { DownstreamSaid d part result }
{
    cone(d, part, |b| cone::downstream(b, part))
}

// Parent and child sets, by the links that are critical in the held budget.
pub fn family(d: Desk, part: usize) -> Answer<FamilyHeld>
    ensures { FamilySaid d part result }
{
    let held = part_tried(d, part)?;
    let kin = kin::kin_of(held.board, held.budget, part);
    Ok(FamilyHeld {
        parents: counted(kin.parents),
        children: counted(kin.children),
    })
}

// The power on a curve at a delay of any size. One that 32 bits do not hold is on no curve.
fn power_on(c: Curve, delay: usize) -> Answer<Microwatts>
    ensures { Good c → result ≡ power_at_of c delay }
{
    let Ok(ticks) = u32::try_from(delay) else {
        return Err(Why::OffCurve.at(delay));
    };
    c.power_at(Ticks(ticks))
}

// The power of a part at a delay: 11, 17, 19.
pub fn power(d: Desk, part: usize, delay: usize) -> Answer<Microwatts>
    ensures { PowerSaid d part delay result }
{
    let held = place_on(d, part)?;
    power_on(held.board.curve[part], delay)
}

// When a part starts and ends in the held budget, its delay and its power.
pub fn part(d: Desk, part: usize) -> Answer<PartHeld>
    ensures { PartSaid d part result }
{
    let held = place_on(d, part)?;
    let b = held.budget;
    Ok(PartHeld {
        start: b.start[part],
        delay: b.delay[part],
        end: b.end[part],
        power: b.power[part],
    })
}

// The held board and its budget as a whole.
#[tactic(auto, unfolding(crate::specs::Numbers::whole_asked))]
pub fn whole(d: Desk) -> Answer<WholeHeld>
    ensures { result ≡ whole_asked d }
{
    let held = d.held()?;
    let b = held.board;
    Ok(WholeHeld {
        rule: b.rule,
        deadline: b.deadline,
        usable: board::usable_deadline(b),
        parts: b.parts,
        links: b.links,
        total: held.budget.total,
    })
}

// Link `index`, in the order in which links are held, if there is one; no refusal is listed for a place past the last. No board that a load gave has a
// link 256.
pub fn link(d: Desk, index: usize) -> Answer<Option<LinkHeld>>
    ensures { LinkSaid d index result }
{
    let Some(held) = &d.held else {
        return Err(Why::NoBoard.at(0));
    };
    let b = &held.board;
    if b.links <= index {
        return Ok(None);
    }
    if 256 <= index {
        return Ok(None);
    }
    let l = b.link[index];
    Ok(Some(LinkHeld {
        from: l.from,
        to: l.to,
        critical: kin::link_is_critical(*b, held.budget, index),
    }))
}
