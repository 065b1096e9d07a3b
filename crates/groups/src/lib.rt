// Numbers in a file (01, Files): in groups of seven bits, lowest group first, at most GROUPS groups, shortest form only.
#![tactic(auto)]

ghost use Rattle.std.specs.Prelude.{◌≡◌, ◌<◌, ◌≤◌, ◌+◌, ◌%◌, length};
ghost use Rattle.std.proofs.lemmas.List.Edits.{sets};
ghost use Rattle.groups.specs.Number.{shortest_end, limit, number_at, encode, written, written_to};

use refusal::{Answer, Why};

// The most groups of a number, and the least number that would need one more.
pub const GROUPS: usize = 4;

pub const LIMIT: u32 = 1 << (7 * GROUPS);

// What reading finds: a value and the place past it.
#[derive(Clone, Copy)]
pub struct Read<T> {
    pub value: T,
    pub next: usize,
}

// The seven bits of a group.
fn seven_bits(g: u8) -> u32
    ensures { (result ≡ g % 128) × (result < 128) }
{
    u32::from(g % 128)
}

// Whether a number that begins at `first` may end in the group g at `at`: a group of zero only where it is the first.
#[tactic(auto, using(base::proofs::Tests::tests), unfolding(crate::specs::Number::shortest_end, base::specs::Pick::pick))]
fn shortest_end(first: usize, at: usize, g: u8) -> bool
    ensures { result ≡ shortest_end first at g }
{
    at == first || 0 < g
}

// The number that begins at a place of s; any place may be asked for.
pub fn read_number(s: &[u8], at: usize) -> Answer<Read<u32>>
    ensures { result ≡ number_at s.now at }
{
    let mut i = at;
    let mut scale: u32 = 1;
    let mut sum: u32 = 0;
    for _left in (0..GROUPS).rev() {
        if s.len() <= i {
            return Err(Why::CutShort.at(s.len()));
        }
        let g = s[i];
        sum += seven_bits(g) * scale;
        if g < 128 {
            if !shortest_end(at, i, g) {
                return Err(Why::NotShortest.at(at));
            }
            return Ok(Read {
                value: sum,
                next: i + 1,
            });
        }
        scale *= 128;
        i += 1;
    }
    Err(Why::NotShortest.at(at))
}

// The bytes of a number's form; 0 for a number that has none.
// Kept: (d) 0 is the length of no bytes, and lengths are added: `fields::size(from) + fields::size(to)`.
pub fn size(n: u32) -> usize
    ensures { result ≡ length (encode n) }
{
    if LIMIT <= n {
        return 0;
    }
    let mut above = n;
    let mut count: usize = 0;
    while 128 <= above {
        above /= 128;
        count += 1;
    }
    count + 1
}

// Writes a number's form at a place of a buffer and hands back the place past it; without a form or without room it does nothing.
// Kept: (d) the place past what was written, which is the place itself where nothing was: the next write begins there, with no case between.
pub fn write_number(buf: &mut [u8], at: usize, n: u32) -> usize
    ensures { (result ≡ written_to buf.old at n) × (buf.new ≡ written buf.old at n) }
{
    let k = size(n);
    if k == 0 {
        return at;
    }
    if buf.len() < k {
        return at;
    }
    if buf.len() - k < at {
        return at;
    }
    put(buf, at, n)
}

// Writes the form of a number that has one where there is room for it, and hands back the place past it.
fn put(buf: &mut [u8], at: usize, n: u32) -> usize
    requires { (n < limit) × (at + length (encode n) ≤ length buf.old) }
    ensures { (result ≡ at + length (encode n)) × (buf.new ≡ sets buf.old at (encode n)) }
{
    let mut rest = n;
    let mut next = at;
    while 128 <= rest {
        buf[next] = (rest % 128 + 128) as u8;
        rest /= 128;
        next += 1;
    }
    buf[next] = rest as u8;
    next + 1
}
