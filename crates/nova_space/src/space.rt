ghost use Rattle.std.specs.Prelude.{◌≡◌, ◌≤◌, ◌<◌, length, filter, option_map, slice_get, IfSome};
ghost use Rattle.std.specs.List.{find};
ghost use Rattle.nova_range.specs.Ranges.{IsRange, end_of};
ghost use Rattle.nova_range.specs.Indices.{IsSorted, ends_after, key_of};
ghost use Rattle.nova_space.specs.Cached.{is_below, of_base, place_of};

use crate::cache::{Cache, Place};
use nova_range::{Entry, Index, Range};
use std::alloc::{AllocError, Global};
use std::marker::Model;

/// A sorted index of ranges, of which no two share a place, to keys. It looks first at the ranges that
/// it found last, and forgets a range when that is taken out.
#[derive(Drop)]
pub struct Space {
    items: Vec<Entry>,
    spare: usize,
    cache: Cache,
}

impl Model for Space {
    ghost use Rattle.std.specs.Prelude.{◌+◌, ◌≤◌, vec_len, vec_capacity};
    ghost use Rattle.nova_range.specs.Indices.{IsSorted};
    ghost use Rattle.nova_space.specs.Cached.{SpaceState, AreOf};

    ghost Value = { SpaceState };

    ghost view = { λ s. record { entries = s.items.items; spare = s.spare } };

    ghost invariant = { λ s. IsSorted s.items.items × (AreOf s.items.items s.cache × (vec_len s.items + s.spare ≤ vec_capacity s.items)) };
}

/// The first place after `range`, at most 2^20.
fn end(range: Range) -> u32
    requires { IsRange range }
    ensures { result ≡ end_of range }
{
    range.base + (1 << range.order)
}

/// The entry `e` as it is remembered.
fn place_of(e: Entry) -> Place
    requires { IsRange e.range }
    ensures { result ≡ place_of e }
{
    Place {
        base: e.range.base,
        end: end(e.range),
        key: e.key,
    }
}

impl Space {
    /// How many ranges begin before `base`.
    fn count_below(&self, base: u32) -> usize
        ensures count { result ≡ length (filter (is_below base) self.now.entries) }
        ensures bound { result ≤ length self.now.entries }
    {
        self.items.partition_point(|e| e.range.base < base)
    }

    /// The key of the entry with index `at`, if its range begins at `base`.
    fn key_of_base(&self, at: usize, base: u32) -> Option<u32>
        ensures key { result ≡ option_map key_of (of_base base (slice_get self.now.entries at)) }
        ensures within { IfSome result (λ key. at < length self.now.entries) }
    {
        match self.items.get(at) {
            Some(e) if e.range.base == base => Some(e.key),
            _ => None,
        }
    }

    /// The first range that has a place at or after `place`.
    fn first_at(&self, place: u32) -> Option<Entry>
        ensures first { result ≡ find (ends_after place) self.now.entries }
        ensures sound { IsSorted self.now.entries }
    {
        let begun = self.items.partition_point(|e| e.range.base <= place);
        if begun > 0 {
            let last = self.items[begun - 1];
            if place < end(last.range) {
                return Some(last);
            }
        }
        self.items.get(begun).copied()
    }
}

impl Index for Space {
    ghost entries = { λ s. s.entries };

    ghost spare = { λ s. s.spare };

    fn empty(alloc: Global) -> Space {
        Space {
            items: Vec::new(alloc),
            spare: 0,
            cache: Cache::new(),
        }
    }

    fn find(&mut self, place: u32) -> Option<u32> {
        if let Some(key) = self.cache.find(place) {
            return Some(key);
        }
        let e = self.first_at(place)?;
        if e.range.base <= place {
            self.cache.note(place_of(e));
            Some(e.key)
        } else {
            None
        }
    }

    fn first_from(&self, place: u32) -> Option<(Range, u32)> {
        let e = self.first_at(place)?;
        Some((e.range, e.key))
    }

    fn copy(&self) -> Result<Space, AllocError> {
        let items = Vec::from_slice(*self.items.allocator(), self.items.as_slice())?;
        Ok(Space {
            items,
            spare: 0,
            cache: Cache::new(),
        })
    }

    fn reserve(&mut self, n: usize) -> Result<(), AllocError> {
        self.items.reserve(n)?;
        self.spare = self.spare.max(n);
        Ok(())
    }

    fn insert(&mut self, range: Range, key: u32) {
        let at = self.count_below(range.base);
        let Ok(()) = self.items.insert(at, Entry { range, key }) else {
            unreachable!()
        };
        self.spare -= 1;
    }

    fn remove(&mut self, base: u32) -> Option<u32> {
        let at = self.count_below(base);
        let key = self.key_of_base(at, base)?;
        self.cache.forget(base);
        self.items.remove(at);
        Some(key)
    }
}
