// The room of numbers: parts, nodes and arcs by numbers that are below their bound, so that no place is tested where a table is read.
// Kept: (a) memory is fixed, so parts, nodes and arcs stand in tables, and name one another by their numbers.
ghost use Rattle.std.specs.Prelude.{◌<◌, ◌≤◌};

use std::ops::{Index, IndexMut};

// A number below N.
#[derive(Clone, Copy, PartialEq, Eq)]
pub struct Below<const N: usize> {
    at: u16,
    ghost below: { at < N },
}

pub type Part = Below<64>;

// The start of part p is p, its end 64 + p, the source 128, the sink 129.
pub type Node = Below<130>;

// An arc of the network, by the place of its load.
pub type Place = Below<448>;

// An arc of the work. There is one more than of the network: the deadline's.
pub type ArcId = Below<449>;

// An end of an arc of the work: its tail is 2a, its head 2a + 1.
pub type End = Below<898>;

pub const SOURCE: Node = Below { at: 128 };

pub const SINK: Node = Below { at: 129 };

impl<const N: usize> Below<N> {
    pub fn of(number: usize) -> Below<N>
        requires below { number < N }
        requires fits { N ≤ 65536 }
    {
        Below { at: number as u16 }
    }

    pub fn number(self) -> usize
        ensures { result < N }
    {
        self.at as usize
    }
}

impl Below<64> {
    pub const FIRST: Part = Below { at: 0 };

    pub fn start(self) -> Node {
        Below { at: self.at }
    }

    pub fn end(self) -> Node {
        Below { at: 64 + self.at }
    }

    // Parts are the first arcs, of the network and of the work.
    pub fn place(self) -> Place {
        Below { at: self.at }
    }

    pub fn arc(self) -> ArcId {
        Below { at: self.at }
    }
}

impl Below<449> {
    pub const FIRST: ArcId = Below { at: 0 };

    pub fn tail(self) -> End {
        Below { at: 2 * self.at }
    }

    pub fn head(self) -> End {
        Below {
            at: 2 * self.at + 1,
        }
    }
}

impl Below<898> {
    pub const FIRST: End = Below { at: 0 };

    pub fn arc(self) -> ArcId {
        Below { at: self.at / 2 }
    }

    pub fn is_tail(self) -> bool {
        self.at % 2 == 0
    }

    // The other end of the same arc.
    pub fn other(self) -> End {
        if self.is_tail() {
            self.arc().head()
        } else {
            self.arc().tail()
        }
    }
}

impl Below<130> {
    pub const FIRST: Node = Below { at: 0 };

    // A number past the sink stands for the sink.
    pub fn named(number: u32) -> Node {
        Below {
            at: number.min(129) as u16,
        }
    }

    // The part whose start or end it is.
    pub fn part(self) -> Part {
        Below { at: self.at % 64 }
    }
}

// A row for each number below N.
#[derive(Clone, Copy)]
pub struct Table<T, const N: usize> {
    pub rows: [T; N],
}

impl<T: Copy, const N: usize> Table<T, N> {
    pub fn filled(row: T) -> Table<T, N> {
        Table { rows: [row; N] }
    }
}

impl<T, const N: usize> Index<Below<N>> for Table<T, N> {
    type Output = T;

    fn index(&self, k: Below<N>) -> &T {
        &self.rows[k.at as usize]
    }
}

impl<T, const N: usize> IndexMut<Below<N>> for Table<T, N> {
    fn index_mut(&mut self, k: Below<N>) -> &mut T {
        &mut self.rows[k.at as usize]
    }
}

// As many as N rows, in the order in which they came.
#[derive(Drop)]
pub struct List<T, const N: usize> {
    rows: [T; N],
    count: usize,
    ghost fits: { count ≤ N },
}

pub const NO_PLACES: List<Place, 448> = List {
    rows: [Below { at: 0 }; 448],
    count: 0,
};

impl<T: Copy, const N: usize> List<T, N> {
    pub fn count(&self) -> usize {
        self.count
    }

    pub fn filled(blank: T) -> List<T, N> {
        List {
            rows: [blank; N],
            count: 0,
        }
    }

    // Where there is room no more, the row is left out.
    pub fn push(&mut self, row: T) {
        if self.count < N {
            self.rows[self.count] = row;
            self.count += 1;
        }
    }

    pub fn as_slice(&self) -> &[T] {
        &self.rows[..self.count]
    }

    pub fn get(&self, k: usize) -> Option<T> {
        if k < self.count {
            Some(self.rows[k])
        } else {
            None
        }
    }
}
