// An order as bytes: read alone, before it is tried, and written for tools and tests.
#![tactic(auto)]

ghost use Rattle.std.specs.Prelude.{◌≡◌, true, false, ◌++◌, ◌*◌, ◌≤◌, length};
ghost use Rattle.groups.specs.Number.{groups, encode};
ghost use Rattle.fields.specs.CurveFile.{curve_bytes};
ghost use Rattle.fields.specs.Writing.{WroteIfRoom, WroteOrNothing};
ghost use Rattle.orders.specs.Order.{link_order, deadline_from, link_from, new_curve_from, kind_from, order_of, order_bytes};

use curve::{Curve, Ticks};
use fields::Form;
use groups::Read;
use refusal::{Answer, Why};

// An order: the place that it would change, and what is to stand there.
#[derive(Clone, Copy)]
pub enum Order {
    Deadline { deadline: Ticks },
    AddLink { from: usize, to: usize },
    RemoveLink { from: usize, to: usize },
    NewCurve { part: usize, curve: Curve },
}

pub const DEADLINE_MIN: u32 = 1;

pub const DEADLINE_MAX: u32 = 4095;

pub const PART_MAX: u32 = 63;

// Kind 1: a deadline.
#[tactic(auto, unfolding(crate::specs::Order::deadline_from, fields::specs::Parse::and_then))]
fn read_deadline(s: &[u8], at: usize) -> Answer<Read<Order>>
    ensures { result ≡ deadline_from s.now at }
{
    let deadline = fields::field(s, at, DEADLINE_MIN, DEADLINE_MAX)?;
    Ok(Read {
        value: Order::Deadline {
            deadline: Ticks(deadline.value),
        },
        next: deadline.next,
    })
}

// Kept: (d) a test and two values; a closure for the two, as `|from, to| Order::AddLink { from, to }`, wants a contract that says as much again.
fn link_order(adds: bool, from: usize, to: usize) -> Order
    ensures { result ≡ link_order adds from to }
{
    if adds {
        return Order::AddLink { from, to };
    }
    Order::RemoveLink { from, to }
}

// Kinds 2 and 3: from and to of a link to add or to remove.
#[tactic(auto, unfolding(crate::specs::Order::link_from, fields::specs::Parse::and_then))]
fn read_link(s: &[u8], at: usize, adds: bool) -> Answer<Read<Order>>
    ensures { result ≡ link_from (link_order adds) s.now at }
{
    let from = fields::field(s, at, 0, PART_MAX)?;
    let to = fields::field(s, from.next, 0, PART_MAX)?;
    Ok(Read {
        value: link_order(adds, from.value as usize, to.value as usize),
        next: to.next,
    })
}

// Kind 4: a part and its new curve.
#[tactic(auto, unfolding(crate::specs::Order::new_curve_from, fields::specs::Parse::and_then))]
fn read_new_curve(s: &[u8], at: usize) -> Answer<Read<Order>>
    ensures { result ≡ new_curve_from s.now at }
{
    let part = fields::field(s, at, 0, PART_MAX)?;
    let curve = fields::read_curve(s, part.next)?;
    Ok(Read {
        value: Order::NewCurve {
            part: part.value as usize,
            curve: curve.value,
        },
        next: curve.next,
    })
}

// What follows an order's kind.
// Kept: (a) 01 names this form, single cases and a range of unknown ones.
#[tactic(auto, using(base::proofs::Tests::tests), unfolding(crate::specs::Order::kind_from, base::specs::Pick::pick))]
fn read_kind(s: &[u8], kind: u32, at: usize) -> Answer<Read<Order>>
    ensures { result ≡ kind_from s.now kind at }
{
    match kind {
        0 => Err(Why::UnknownKind.at(0)),
        1 => read_deadline(s, at),
        2 => read_link(s, at, true),
        3 => read_link(s, at, false),
        4 => read_new_curve(s, at),
        5..=4294967295 => Err(Why::UnknownKind.at(0)),
    }
}

// Reads the order that s begins with, and the bytes that it took. The bytes past it are the next order's.
#[tactic(auto, unfolding(crate::specs::Order::order_of, fields::specs::Parse::and_then))]
pub fn read_order(s: &[u8]) -> Answer<Read<Order>>
    ensures { result ≡ order_of s.now }
{
    let kind = groups::read_number(s, 0)?;
    read_kind(s, kind.value, kind.next)
}

fn link_size(kind: usize, from: usize, to: usize) -> usize
    ensures { (result ≡ length (encode kind ++ (encode from ++ encode to))) × (result ≤ 3 * groups) }
{
    fields::size(kind) + fields::size(from) + fields::size(to)
}

// The bytes that an order takes; a number or a curve that has no form takes none.
#[tactic(auto, using(crate::proofs::Writers::two_counted, crate::proofs::Writers::three_counted), unfolding(crate::specs::Order::order_bytes))]
pub fn order_size(o: Order) -> usize
    ensures { (result ≡ length (order_bytes o)) × (result ≤ 13 * groups) }
{
    match o {
        Order::Deadline { deadline } => fields::size(1) + fields::size(deadline.0 as usize),
        Order::AddLink { from, to } => link_size(2, from, to),
        Order::RemoveLink { from, to } => link_size(3, from, to),
        Order::NewCurve { part, curve } => {
            fields::size(4) + fields::size(part) + fields::curve_size(curve)
        }
    }
}

fn write_link(buf: &mut [u8], at: usize, kind: usize, from: usize, to: usize) -> usize
    ensures { WroteIfRoom buf.old at (encode kind ++ (encode from ++ encode to)) result buf.new }
{
    let next = fields::put(buf, at, kind);
    fields::put_pair(buf, next, from, to)
}

fn write_new_curve(buf: &mut [u8], at: usize, part: usize, c: Curve) -> usize
    ensures { WroteIfRoom buf.old at (encode 4 ++ (encode part ++ curve_bytes c)) result buf.new }
{
    let part_at = fields::put(buf, at, 4);
    let curve_at = fields::put(buf, part_at, part);
    fields::write_curve(buf, curve_at, c)
}

impl Form for Order {
    ghost bytes = { order_bytes };

    ghost most = { 13 * groups };

    fn size(&self) -> usize {
        order_size(*self)
    }

    #[tactic(auto, unfolding(crate::specs::Order::order_bytes))]
    fn write(&self, buf: &mut [u8], at: usize) -> usize {
        match *self {
            Order::Deadline { deadline } => fields::put_pair(buf, at, 1, deadline.0 as usize),
            Order::AddLink { from, to } => write_link(buf, at, 2, from, to),
            Order::RemoveLink { from, to } => write_link(buf, at, 3, from, to),
            Order::NewCurve { part, curve } => write_new_curve(buf, at, part, curve),
        }
    }
}

// Writes an order at a place and hands back the place past it; without room it does nothing.
pub fn write_order(buf: &mut [u8], at: usize, o: Order) -> usize
    ensures { WroteOrNothing buf.old at (order_bytes o) result buf.new }
{
    fields::write_in_room(buf, at, &o)
}
