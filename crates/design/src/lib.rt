// A design file, read and written. A reading stops at the first fault; loops and slow paths are another crate's.
#![tactic(auto)]

ghost use Rattle.std.specs.Prelude.{◌≡◌, ◌≤◌, ◌<◌, ◌+◌, length};
ghost use Rattle.board.specs.Tests.{blank_curves, blank_links};
ghost use Rattle.design.specs.Design.{version_at, parts_from, above, link_from, links_from, design_of, design_read};

use board::{Board, Link, Rule};
use curve::{Curve, Ticks};
use groups::Read;
use refusal::{Answer, Why};

// The version, which must be 1.
#[tactic(auto, using(base::proofs::Tests::tests), unfolding(crate::specs::Design::version_at, fields::specs::Parse::and_then, base::specs::Pick::pick))]
fn read_version(s: &[u8]) -> Answer<Read<u32>>
    ensures { result ≡ version_at s.now }
{
    let version = groups::read_number(s, 0)?;
    if version.value != 1 {
        return Err(Why::WrongVersion.at(0));
    }
    Ok(version)
}

#[tactic(auto, unfolding(board::specs::Tests::empty_of))]
fn no_curves() -> [Curve; 64]
    ensures { result ≡ blank_curves }
{
    board::empty(Ticks(0), 0).curve
}

#[tactic(auto, unfolding(board::specs::Tests::empty_of))]
fn no_links() -> [Link; 256]
    ensures { result ≡ blank_links }
{
    board::empty(Ticks(0), 0).link
}

// All parts, a curve each.
fn read_parts(s: &[u8], parts: usize, at: usize) -> Answer<Read<[Curve; 64]>>
    requires { parts ≤ 64 }
    ensures { result ≡ parts_from s.now parts at }
{
    let mut curve = no_curves();
    let mut next = at;
    for p in 0..parts {
        let read = fields::read_curve(s, next)?;
        curve[p] = read.value;
        next = read.next;
    }
    Ok(Read { value: curve, next })
}

// Whether a link leads from one part to another and stands above the link before it.
#[tactic(auto, using(base::proofs::Tests::tests), unfolding(crate::specs::Design::above, base::specs::Pick::pick))]
fn is_above(before: Option<Link>, link: Link) -> bool
    ensures { result ≡ above before link }
{
    if link.from == link.to {
        return false;
    }
    match before {
        None => true,
        Some(before) => board::below(before, link),
    }
}

// A link, after the link before it.
#[tactic(auto, unfolding(crate::specs::Design::link_from, fields::specs::Parse::and_then, base::specs::Pick::pick))]
fn read_link(s: &[u8], parts: usize, before: Option<Link>, at: usize) -> Answer<Read<Link>>
    requires { (1 ≤ parts) × (parts ≤ 64) }
    ensures { result ≡ link_from s.now parts before at }
{
    let last = (parts - 1) as u32;
    let from = fields::field(s, at, 0, last)?;
    let to = fields::field(s, from.next, 0, last)?;
    let link = board::plain_link(from.value as usize, to.value as usize);
    if !is_above(before, link) {
        return Err(Why::LinkNotAbove.at(at));
    }
    Ok(Read {
        value: link,
        next: to.next,
    })
}

// All links.
// Kept: (d) the loop is `read_parts`' and `fields::each_run`'s; shared, it takes a closure and a ghost function for `read_link(s, parts, before, next)?`.
fn read_links(s: &[u8], parts: usize, links: usize, at: usize) -> Answer<Read<[Link; 256]>>
    requires { (1 ≤ parts) × (parts ≤ 64) × (links ≤ 256) }
    ensures { result ≡ links_from s.now parts links at }
{
    let mut link = no_links();
    let mut before = None;
    let mut next = at;
    for l in 0..links {
        let read = read_link(s, parts, before, next)?;
        before = Some(read.value);
        link[l] = read.value;
        next = read.next;
    }
    Ok(Read { value: link, next })
}

// The board that a file describes under a rule, or the first fault. Nothing may follow the last link.
#[tactic(auto, using(base::proofs::Tests::tests), unfolding(crate::specs::Design::design_of, crate::specs::Design::head_from, crate::specs::Design::body_from, crate::specs::Design::linked_from, crate::specs::Design::whole_at, fields::specs::Parse::and_then, base::specs::Pick::pick))]
pub fn read_design(s: &[u8], rule: Rule) -> Answer<Board>
    ensures { result ≡ design_read (design_of rule s.now) }
{
    let version = read_version(s)?;
    let deadline = fields::field(s, version.next, 1, 4095)?;
    let parts = fields::field(s, deadline.next, 1, 64)?;
    let curves = read_parts(s, parts.value as usize, parts.next)?;
    let count = fields::field(s, curves.next, 0, 256)?;
    let links = read_links(s, parts.value as usize, count.value as usize, count.next)?;
    if links.next < s.len() {
        return Err(Why::BytesAfter.at(links.next));
    }
    let curve = curves.value;
    let link = links.value;
    Ok(Board {
        rule,
        deadline: Ticks(deadline.value),
        parts: parts.value as usize,
        curve,
        links: count.value as usize,
        link,
    })
}
