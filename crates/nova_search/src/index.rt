use std::alloc::{AllocError, Global};

/// How many rows an index has at first.
const FIRST_ROWS: usize = 64;

/// How many numbers of a row are looked at, at most.
const MOST_LOOKED_AT: usize = 256;

/// A number's hash, and the number before it in its row.
#[derive(Clone, Copy)]
struct Entry {
    hash: u32,
    before: Option<u32>,
}

/// The numbers of vertices, from 0 in the order in which they were entered, by the hashes of their states. What it misses is looked at once
/// more, and nothing rests on it.
#[derive(Drop)]
pub(crate) struct Index {
    /// The last number of each row. Hashes of one row have the same remainder by the number of rows, a power of two.
    rows: Vec<Option<u32>>,

    /// Each number's entry.
    entries: Vec<Entry>,
}

/// The lower half of a hash.
fn low(hash: u64) -> u32 {
    (hash & u64::from(u32::MAX)) as u32
}

impl Index {
    /// No numbers.
    pub(crate) fn new(alloc: Global) -> Index {
        Index {
            rows: Vec::new(alloc),
            entries: Vec::new(alloc),
        }
    }

    /// How many numbers there are.
    pub(crate) fn len(&self) -> usize {
        self.entries.len()
    }

    /// The row of a hash; none where there is no row.
    fn row_of(&self, hash: u32) -> Option<usize> {
        (hash as usize).checked_rem(self.rows.len())
    }

    /// The first number of this hash, from one on towards earlier ones of its row.
    fn find_from(&self, first: Option<u32>, hash: u32) -> Option<usize> {
        let mut at = first;
        for _ in 0..MOST_LOOKED_AT {
            let number = at? as usize;
            let entry = self.entries.get(number)?;
            if entry.hash == hash {
                return Some(number);
            }
            at = entry.before;
        }
        None
    }

    /// The last number of a hash.
    pub(crate) fn last(&self, hash: u64) -> Option<usize> {
        let hash = low(hash);
        let first = *self.rows.get(self.row_of(hash)?)?;
        self.find_from(first, hash)
    }

    /// The number before another one, of the same hash.
    pub(crate) fn before(&self, number: usize) -> Option<usize> {
        let entry = self.entries.get(number)?;
        self.find_from(entry.before, entry.hash)
    }

    /// Puts a number that has an entry in front of its row.
    fn put(&mut self, number: usize) {
        let Some(entry) = self.entries.get_mut(number) else {
            return;
        };
        let Some(row) = (entry.hash as usize).checked_rem(self.rows.len()) else {
            return;
        };
        if let Some(last) = self.rows.get_mut(row) {
            entry.before = *last;
            *last = u32::try_from(number).ok();
        }
    }

    /// Twice as many rows as there are, or the first ones, with all numbers in them.
    fn grow(&mut self, alloc: Global) -> Result<(), AllocError> {
        let rows = self.rows.len().saturating_mul(2).max(FIRST_ROWS);
        self.rows = Vec::new(alloc);
        self.rows.resize(rows, None)?;
        for number in 0..self.entries.len() {
            self.put(number);
        }
        Ok(())
    }

    /// Enters the next number, of a hash.
    pub(crate) fn add(&mut self, alloc: Global, hash: u64) -> Result<(), AllocError> {
        let number = self.entries.len();
        self.entries.push(Entry {
            hash: low(hash),
            before: None,
        })?;
        if number < self.rows.len() {
            self.put(number);
            return Ok(());
        }
        self.grow(alloc)
    }
}
