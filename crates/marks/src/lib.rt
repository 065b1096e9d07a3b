// A set of 64 marks, bit n for part n. A number of 64 or more is in no set, and putting it in changes nothing. Then rows of such sets, one for each
// part.
#![tactic(auto)]

ghost use Rattle.std.specs.Prelude.{◌≡◌, ◌<◌, IfSome};
ghost use Rattle.std.specs.Int.Count.{ones};
ghost use Rattle.marks.specs.Marks.{has_of, union_of, without_of, one_of, insert_of, lowest_of};
ghost use Rattle.marks.specs.Rows.{with_mark};

pub fn has(set: u64, n: usize) -> bool
    ensures { result ≡ has_of set n }
{
    if n < 64 {
        return (set >> n) % 2 == 1;
    }
    false
}

// The set of n alone.
pub fn one(n: usize) -> u64
    ensures { result ≡ one_of n }
{
    if n < 64 {
        return 1u64 << n;
    }
    0
}

pub fn union(a: u64, b: u64) -> u64
    ensures { result ≡ union_of a b }
{
    a | b
}

// The marks of a that are not in b.
pub fn without(a: u64, b: u64) -> u64
    ensures { result ≡ without_of a b }
{
    (a | b) ^ b
}

pub fn insert(set: u64, n: usize) -> u64
    ensures { result ≡ insert_of set n }
{
    union(set, one(n))
}

// The number of marks.
pub fn size(set: u64) -> u32
    ensures { result ≡ ones set }
{
    u64::count_ones(set)
}

// The lowest mark, where there is one.
pub fn lowest(set: u64) -> Option<usize>
    ensures is { result ≡ lowest_of set }
    ensures below { IfSome result (λ n. n < 64) }
{
    if set == 0 {
        return None;
    }
    Some(u64::trailing_zeros(set) as usize)
}

// Row p gets mark q, where there is a row p.
pub fn mark(rows: &mut [u64; 64], p: usize, q: usize)
    ensures { rows.new ≡ with_mark rows.old p q }
{
    if p < 64 {
        rows[p] = insert(rows[p], q);
    }
}
