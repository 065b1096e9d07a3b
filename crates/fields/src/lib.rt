// Numbers in their ranges, curves and links, as bytes: one reader and one writer for design files and for orders.
#![tactic(auto)]

ghost use Rattle.std.specs.Prelude.{◌≡◌, ℕ, List, ◌++◌, ◌*◌, ◌≤◌, ◌<◌, length};
ghost use Rattle.std.specs.List.{flat_map};
ghost use Rattle.groups.specs.Number.{groups, encode};
ghost use Rattle.fields.specs.Parse.{field_at, repeat};
ghost use Rattle.fields.specs.CurveFile.{bare, falls, run_from, runs_from, curve_from, run_bytes, curve_bytes};
ghost use Rattle.fields.specs.LinkFile.{link_bytes};
ghost use Rattle.fields.specs.Writing.{WroteIfRoom, WroteOrNothing};

use board::Link;
use curve::{Curve, Microwatts, Run, Ticks};
use groups::Read;
use refusal::{Answer, Why};

// The number at a place, which must be from `low` to `high`.
#[tactic(auto, using(base::proofs::Tests::tests), unfolding(crate::specs::Parse::field_at, crate::specs::Parse::and_then, crate::specs::Parse::ranged_at, base::specs::Pick::pick))]
pub fn field(s: &[u8], at: usize, low: u32, high: u32) -> Answer<Read<u32>>
    ensures { result ≡ field_at s.now low high at }
{
    let read = groups::read_number(s, at)?;
    if read.value < low || high < read.value {
        return Err(Why::OutOfRange.at(at));
    }
    Ok(read)
}

// A curve before its runs are read.
fn bare_curve(fastest: Ticks, power: Microwatts, count: usize) -> Curve
    ensures { result ≡ bare fastest.0 power.0 count }
{
    let none = Run {
        length: Ticks(0),
        saving: Microwatts(0),
    };
    Curve {
        fastest,
        power,
        count,
        runs: [none; 4],
    }
}

// Whether a saving of run i is below that of the run before it.
#[tactic(auto, using(base::proofs::Tests::tests), unfolding(crate::specs::CurveFile::falls, curve::specs::Curve::saving_at, base::specs::Pick::pick))]
fn is_below(c: Curve, i: usize, saving: u32) -> bool
    requires { i < 4 }
    ensures { result ≡ falls c i saving }
{
    i == 0 || saving < c.runs[i - 1].saving.0
}

// Run i of a curve.
#[tactic(auto, unfolding(crate::specs::CurveFile::run_from, crate::specs::Parse::and_then, base::specs::Pick::pick))]
fn read_run(s: &[u8], i: usize, c: Curve, at: usize) -> Answer<Read<Curve>>
    requires { i < 4 }
    ensures { result ≡ run_from s.now i c at }
{
    let length = field(s, at, Curve::LENGTH_MIN, Curve::LENGTH_MAX)?;
    let saving = field(s, length.next, Curve::SAVING_MIN, Curve::SAVING_MAX)?;
    if !is_below(c, i, saving.value) {
        return Err(Why::SavingNotBelow.at(length.next));
    }
    let mut value = c;
    value.runs[i] = Run {
        length: Ticks(length.value),
        saving: Microwatts(saving.value),
    };
    Ok(Read {
        value,
        next: saving.next,
    })
}

// All runs of a curve.
#[tactic(auto, unfolding(crate::specs::Parse::repeat, crate::specs::Parse::and_then))]
fn each_run(s: &[u8], c: Curve, at: usize) -> Answer<Read<Curve>>
    requires { c.count ≤ 4 }
    ensures { result ≡ repeat (run_from s.now) c at c.count }
{
    let mut so_far = Read { value: c, next: at };
    for i in 0..c.count {
        so_far = read_run(s, i, so_far.value, so_far.next)?;
    }
    Ok(so_far)
}

// Run count and runs of a curve whose power, read at `from`, must be enough for all savings.
#[tactic(auto, unfolding(crate::specs::CurveFile::runs_from, crate::specs::Parse::and_then, base::specs::Pick::pick))]
fn read_runs(s: &[u8], fastest: u32, power: u32, from: usize, at: usize) -> Answer<Read<Curve>>
    ensures { result ≡ runs_from s.now fastest power from at }
{
    let count = field(s, at, 0, 4)?;
    let bare = bare_curve(Ticks(fastest), Microwatts(power), count.value as usize);
    let read = each_run(s, bare, count.next)?;
    if !read.value.affords_savings() {
        return Err(Why::PowerBelowSavings.at(from));
    }
    Ok(read)
}

// The curve that stands at a place; any place may be asked for.
#[tactic(auto, unfolding(crate::specs::CurveFile::curve_from, crate::specs::Parse::and_then))]
pub fn read_curve(s: &[u8], at: usize) -> Answer<Read<Curve>>
    ensures { result ≡ curve_from s.now at }
{
    let fastest = field(s, at, Curve::FASTEST_MIN, Curve::FASTEST_MAX)?;
    let power = field(s, fastest.next, 0, Curve::POWER_MAX)?;
    read_runs(s, fastest.value, power.value, fastest.next, power.next)
}

// A number of the same form. What reaches the limit has none.
fn narrow(n: usize) -> u32
    ensures { encode result ≡ encode n }
{
    n.min(groups::LIMIT as usize) as u32
}

// The bytes of a number's form; 0 for a number that has none.
// Kept: (d) 0 is the length of no bytes, and it is added to other lengths: `size(c.fastest.0 as usize) + size(c.count)`.
pub fn size(n: usize) -> usize
    ensures { (result ≡ length (encode n)) × (result ≤ groups) }
{
    groups::size(narrow(n))
}

// Writes a number's form at a place and hands back the place past it; without a form or without room it does nothing.
pub fn put(buf: &mut [u8], at: usize, n: usize) -> usize
    ensures { WroteOrNothing buf.old at (encode n) result buf.new }
{
    groups::write_number(buf, at, narrow(n))
}

// Writes two numbers in a row.
pub fn put_pair(buf: &mut [u8], at: usize, first: usize, second: usize) -> usize
    ensures { WroteIfRoom buf.old at (encode first ++ encode second) result buf.new }
{
    let next = put(buf, at, first);
    put(buf, next, second)
}

// What stands in a file in bytes of its own.
pub trait Form {
    ghost bytes: { Self → List ℕ };

    // as many bytes as it can have
    ghost most: { ℕ };

    fn size(&self) -> usize
        ensures { (result ≡ length (bytes self.now)) × (result ≤ most) };

    fn write(&self, buf: &mut [u8], at: usize) -> usize
        ensures { WroteIfRoom buf.old at (bytes self.now) result buf.new };
}

// Writes one at a place and hands back the place past it; without room it does nothing.
// Kept: (d) as at `groups::write_number`: the next write begins at the place that is handed back.
pub fn write_in_room<T: Form>(buf: &mut [u8], at: usize, x: &T) -> usize
    ensures { WroteOrNothing buf.old at (T.bytes x.now) result buf.new }
{
    let needed = x.size();
    if buf.len() < needed {
        return at;
    }
    if buf.len() - needed < at {
        return at;
    }
    x.write(buf, at)
}

// The bytes of a row of them.
pub fn row_size<T: Form>(row: &[T]) -> usize
    requires { T.most * length row.now < 18446744073709551616 }
    ensures { (result ≡ length (flat_map T.bytes row.now)) × (result ≤ T.most * length row.now) }
{
    let mut bytes = 0;
    for x in row {
        bytes += x.size();
    }
    bytes
}

// Writes a row of them, one after the other.
pub fn write_row<T: Form>(buf: &mut [u8], at: usize, row: &[T]) -> usize
    ensures { WroteIfRoom buf.old at (flat_map T.bytes row.now) result buf.new }
{
    let mut next = at;
    for x in row {
        next = x.write(buf, next);
    }
    next
}

impl Form for Run {
    ghost bytes = { run_bytes };

    ghost most = { 2 * groups };

    fn size(&self) -> usize {
        size(self.length.0 as usize) + size(self.saving.0 as usize)
    }

    fn write(&self, buf: &mut [u8], at: usize) -> usize {
        put_pair(buf, at, self.length.0 as usize, self.saving.0 as usize)
    }
}

impl Form for Link {
    ghost bytes = { link_bytes };

    ghost most = { 2 * groups };

    fn size(&self) -> usize {
        size(self.from) + size(self.to)
    }

    fn write(&self, buf: &mut [u8], at: usize) -> usize {
        put_pair(buf, at, self.from, self.to)
    }
}

// The bytes of a curve's form; 0 for a curve that has none.
// Kept: (d) 0 is the length of no bytes, and it is added to other lengths: `size(part) + curve_size(curve)`.
pub fn curve_size(c: Curve) -> usize
    ensures { (result ≡ length (curve_bytes c)) × (result ≤ 11 * groups) }
{
    if Curve::RUNS_MAX < c.count {
        return 0;
    }
    let numbers = size(c.fastest.0 as usize) + size(c.power.0 as usize) + size(c.count);
    numbers + row_size(&c.runs[..c.count])
}

// A curve that has a form.
fn write_form(buf: &mut [u8], at: usize, c: Curve) -> usize
    requires { c.count ≤ 4 }
    ensures { WroteIfRoom buf.old at (curve_bytes c) result buf.new }
{
    let power_at = put(buf, at, c.fastest.0 as usize);
    let count_at = put(buf, power_at, c.power.0 as usize);
    let runs_at = put(buf, count_at, c.count);
    write_row(buf, runs_at, &c.runs[..c.count])
}

// Writes a curve's form at a place and hands back the place past it; without a form or without room it does nothing.
pub fn write_curve(buf: &mut [u8], at: usize, c: Curve) -> usize
    ensures { WroteOrNothing buf.old at (curve_bytes c) result buf.new }
{
    write_in_room(buf, at, &c)
}

impl Form for Curve {
    ghost bytes = { curve_bytes };

    ghost most = { 11 * groups };

    fn size(&self) -> usize {
        curve_size(*self)
    }

    fn write(&self, buf: &mut [u8], at: usize) -> usize {
        if Curve::RUNS_MAX < self.count {
            return at;
        }
        write_form(buf, at, *self)
    }
}
