ghost use Rattle.std.specs.Prelude.{◌≡◌, ◌<◌, ◌≤◌, ◌-◌, ℕ, [], List, false, max, IfOk, OnOk, OnErr};
ghost use Rattle.std.specs.List.{AllByRecursion};
ghost use Rattle.nova_range.specs.Ranges.{IsRange, overlaps};
ghost use Rattle.nova_range.specs.Indices.{IsSorted, key_at, range_from, key_of_base, put_in, taken_out};

use crate::range::Range;
use std::alloc::{AllocError, Global};

/// A range of an index, with its key.
#[derive(Clone, Copy)]
pub struct Entry {
    pub range: Range,
    pub key: u32,
}

/// A sorted index from ranges to keys. It is of one space: no two of its ranges share a place, and
/// their kinds are not compared.
pub trait Index: Sized + Drop {
    ghost use Rattle.std.specs.Prelude.{ℕ, List};
    ghost use Rattle.nova_range.specs.declared.index.Entry.{Entry};

    // What is kept, by rising base, and for how many more there is room.
    ghost entries: { Self → List Entry };

    ghost spare: { Self → ℕ };

    /// An index with no ranges.
    fn empty(alloc: Global) -> Self
        ensures none { entries result ≡ [] };

    /// The key of the range that has `place`, or nothing where none has it.
    fn find(&mut self, place: u32) -> Option<u32>
        ensures key { result ≡ key_at place (entries self.old) }
        ensures kept { entries self.new ≡ entries self.old }
        ensures room { spare self.new ≡ spare self.old }
        ensures sound { IsSorted (entries self.new) };

    /// The first of the ranges that have some place at or after `place`, with its key; nothing where there is none.
    fn first_from(&self, place: u32) -> Option<(Range, u32)>
        ensures first { result ≡ range_from place (entries self.now) }
        ensures sound { IsSorted (entries self.now) };

    /// Copies the ranges with their keys into memory of their own, in which there may be no room for more.
    fn copy(&self) -> Result<Self, AllocError>
        ensures same { IfOk result (λ copy. entries copy ≡ entries self.now) };

    /// Makes room for `n` more ranges, counted from those that are there. Room that was made before
    /// stays.
    fn reserve(&mut self, n: usize) -> Result<(), AllocError>
        ensures ok { OnOk result (spare self.new ≡ max (spare self.old) n) }
        ensures err { OnErr result (spare self.new ≡ spare self.old) }
        ensures kept { entries self.new ≡ entries self.old };

    /// Adds `range` with its key, in room that was made. The range shares no place with those that are there.
    fn insert(&mut self, range: Range, key: u32)
        requires room { 0 < spare self.old }
        requires range { IsRange range }
        requires apart { AllByRecursion (λ e. overlaps e.range range ≡ false) (entries self.old) }
        ensures added { entries self.new ≡ put_in (record { range = range; key = key }) (entries self.old) }
        ensures room { spare self.new ≡ spare self.old - 1 };

    /// Takes away the range of `base` and answers its key, or nothing where no range has that base: then all stays. Room doesn't get less.
    fn remove(&mut self, base: u32) -> Option<u32>
        ensures key { result ≡ key_of_base base (entries self.old) }
        ensures removed { entries self.new ≡ taken_out base (entries self.old) }
        ensures room { spare self.old ≤ spare self.new };
}
