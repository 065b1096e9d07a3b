// The board by value: a deadline and its rule, parts with their curves, and links in ascending order of from, then to.
#![tactic(auto)]

ghost use Rattle.std.specs.Prelude.{◌≡◌, ◌<◌};
ghost use Rattle.board.specs.Board.{plain_link, turned_link, delay_of, blank_curve, rule_number, rule_of, rule_named, usable_under, usable, WellFormed};
ghost use Rattle.board.specs.Tests.{Decides, empty_of, below_of, link_held, link_good, links_test, curve_good, curves_test};

use curve::{Curve, Microwatts, Ticks};
use refusal::{Answer, Refusal, Why};

// How many ticks of a deadline a path may take.
#[derive(Clone, Copy, PartialEq, Eq)]
pub enum Rule {
    A,
    B,
}

// A link leads from one part to another and takes ticks of its own.
#[derive(Clone, Copy, PartialEq, Eq)]
pub struct Link {
    pub from: usize,
    pub to: usize,
    pub delay: Ticks,
}

// There are `parts` parts and `links` links: the first of `curve` and of `link` are the board's, the others are blank.
// Kept: (a) memory is fixed, so a load cannot fail for want of it: rows with their counts, and `WellFormed` says that what is past a count is blank.
#[derive(Clone, Copy)]
pub struct Board {
    pub rule: Rule,
    pub deadline: Ticks,
    pub parts: usize,
    pub curve: [Curve; 64],
    pub links: usize,
    pub link: [Link; 256],
}

impl Link {
    // The link the other way round.
    pub fn turned(self) -> Link
        ensures { result ≡ turned_link self }
    {
        Link {
            from: self.to,
            to: self.from,
            delay: self.delay,
        }
    }
}

// What a place without a part holds.
pub fn blank_curve() -> Curve
    ensures { result ≡ blank_curve }
{
    Curve::flat(Ticks(0), Microwatts(0))
}

// A link without a delay.
pub fn plain_link(from: usize, to: usize) -> Link
    ensures { result ≡ plain_link from to }
{
    let delay = Ticks(0);
    Link { from, to, delay }
}

// The ticks that a link takes.
// Kept: (a) every reader of a delay goes by it: 02 has links with a delay of their own.
pub fn link_delay(l: Link) -> Ticks
    ensures { result.0 ≡ delay_of l }
{
    l.delay
}

// A board to be filled: rule A, no links, and a blank curve at every part.
pub fn empty(deadline: Ticks, parts: usize) -> Board
    ensures { result ≡ empty_of deadline parts }
{
    Board {
        rule: Rule::A,
        deadline,
        parts,
        curve: [blank_curve(); 64],
        links: 0,
        link: [plain_link(0, 0); 256],
    }
}

// A rule's number: 0 for A, 1 for B.
impl From<Rule> for u32 {
    ghost from_gives = { λ rule number. number ≡ rule_number rule };

    fn from(rule: Rule) -> u32 {
        match rule {
            Rule::A => 0,
            Rule::B => 1,
        }
    }
}

// The rule that has a number, or refusal 22.
impl TryFrom<u32> for Rule {
    type Error = Refusal;

    ghost try_from_gives = { λ number answer. answer ≡ rule_named number };

    fn try_from(number: u32) -> Answer<Rule> {
        match number {
            0 => Ok(Rule::A),
            1 => Ok(Rule::B),
            _ => Err(Why::NoRule.at(0)),
        }
    }
}

// The rule that has a number; a number that is none gives B.
pub fn rule_of(number: u32) -> Rule
    ensures { result ≡ rule_of number }
{
    if number == 0 { Rule::A } else { Rule::B }
}

// The ticks of a deadline that a path may take.
fn usable_under(rule: Rule, deadline: Ticks) -> Ticks
    ensures { result.0 ≡ usable_under rule deadline.0 }
{
    match rule {
        Rule::A => deadline,
        Rule::B => Ticks(deadline.0 - deadline.0 / 64),
    }
}

// The usable deadline: the ticks that a path may take.
pub fn usable_deadline(b: Board) -> Ticks
    ensures { result.0 ≡ usable b }
{
    let rule = b.rule;
    usable_under(rule, b.deadline)
}

// Whether link a stands before link x in the order of from, then to.
pub fn below(a: Link, x: Link) -> bool
    ensures { result ≡ below_of a x }
{
    (a.from, a.to) < (x.from, x.to)
}

// Whether link l, which is x, joins two of the parts, has no delay and stands above the one before it.
fn link_held(parts: usize, l: usize, before: Link, x: Link) -> bool
    ensures { result ≡ link_held parts l before x }
{
    if parts <= x.from {
        return false;
    }
    if parts <= x.to {
        return false;
    }
    if x.from == x.to {
        return false;
    }
    if 0 < x.delay.0 {
        return false;
    }
    if l == 0 {
        return true;
    }
    below(before, x)
}

// Whether place l of the links, after `before`, holds what it should.
fn link_good(parts: usize, links: usize, l: usize, before: Link, x: Link) -> bool
    ensures { result ≡ link_good parts links l before x }
{
    if l < links {
        return link_held(parts, l, before, x);
    }
    x == plain_link(0, 0)
}

// Whether every place of the links does.
fn links_good(b: &Board) -> bool
    ensures { result ≡ links_test b.now }
{
    let mut before = b.link[0];
    for l in 0..256 {
        let x = b.link[l];
        if !link_good(b.parts, b.links, l, before, x) {
            return false;
        }
        before = x;
    }
    true
}

// Whether place p of the curves holds what it should.
fn curve_good(parts: usize, p: usize, c: Curve) -> bool
    ensures { result ≡ curve_good parts p c }
{
    if p < parts {
        return c.is_good();
    }
    c == blank_curve()
}

// Whether every place of the curves does.
fn curves_good(b: &Board) -> bool
    ensures { result ≡ curves_test b.now }
{
    for p in 0..64 {
        if !curve_good(b.parts, p, b.curve[p]) {
            return false;
        }
    }
    true
}

// Whether this is a board as 01 asks it to be, but for loops.
pub fn well_formed(b: Board) -> bool
    ensures { Decides result (WellFormed b) }
{
    if b.deadline.0 < 1 {
        return false;
    }
    if 4095 < b.deadline.0 {
        return false;
    }
    if b.parts < 1 {
        return false;
    }
    if 64 < b.parts {
        return false;
    }
    if 256 < b.links {
        return false;
    }
    if !curves_good(&b) {
        return false;
    }
    links_good(&b)
}
