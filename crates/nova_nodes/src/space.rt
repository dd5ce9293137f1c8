ghost use Rattle.std.specs.Prelude.{◌≡◌, ◌<◌, ◌-◌, [], false, max, IfOk, OnOk, OnErr};
ghost use Rattle.std.specs.List.{AllByRecursion};
ghost use Rattle.nova_range.specs.Ranges.{IsRange, overlaps};
ghost use Rattle.nova_range.specs.Indices.{IsSorted, key_at, range_from, key_of_base, put_in, taken_out};
ghost use Rattle.nova_nodes.specs.Spaces.{entries_of, with_entries};

use nova_range::{Index, Kind, Range};
use std::alloc::{AllocError, Global};
use std::marker::Model;

/// The two spaces of a protection domain, with room that is reserved for more ranges in each.
#[derive(Drop)]
pub(crate) struct Space<I: Index> {
    mem: I,
    obj: I,
    room: usize,
}

impl<I: Index> Model for Space<I> {
    ghost use Rattle.std.specs.Prelude.{◌≤◌};
    ghost use Rattle.nova_nodes.specs.Spaces.{SpaceState};

    ghost Value = { SpaceState };

    ghost view = { λ s. record { mem = I.entries s.mem; obj = I.entries s.obj; room = s.room } };

    ghost invariant = { λ s. (s.room ≤ I.spare s.mem) × (s.room ≤ I.spare s.obj) };
}

impl<I: Index> Space<I> {
    /// No ranges, and room for none.
    pub(crate) fn new(alloc: Global) -> Space<I>
        ensures { result ≡ record { mem = []; obj = []; room = 0 } }
    {
        Space {
            mem: I::empty(alloc),
            obj: I::empty(alloc),
            room: 0,
        }
    }

    /// For how many more ranges there is room in each space.
    pub(crate) fn room(&self) -> usize
        ensures { result ≡ self.now.room }
    {
        self.room
    }

    /// The key of the range that has `place`, or nothing where none has it.
    pub(crate) fn find(&mut self, kind: Kind, place: u32) -> Option<u32>
        ensures key { result ≡ key_at place (entries_of kind self.old) }
        ensures kept { self.new ≡ self.old }
        ensures sound { IsSorted (entries_of kind self.new) }
    {
        match kind {
            Kind::Mem => self.mem.find(place),
            Kind::Obj => self.obj.find(place),
        }
    }

    /// The first range that has a place at or after `place`, with its key.
    pub(crate) fn first_from(&self, kind: Kind, place: u32) -> Option<(Range, u32)>
        ensures first { result ≡ range_from place (entries_of kind self.now) }
        ensures sound { IsSorted (entries_of kind self.now) }
    {
        match kind {
            Kind::Mem => self.mem.first_from(place),
            Kind::Obj => self.obj.first_from(place),
        }
    }

    /// Copies the ranges into memory of their own, with no room for more.
    pub(crate) fn copy(&self) -> Result<Space<I>, AllocError>
        ensures { IfOk result (λ copy. copy ≡ record self.now { room = 0 }) }
    {
        let mem = self.mem.copy()?;
        let obj = self.obj.copy()?;
        Ok(Space { mem, obj, room: 0 })
    }

    /// Makes room for `n` more ranges in each space. Where it refuses nothing has changed.
    pub(crate) fn reserve(&mut self, n: usize) -> Result<(), AllocError>
        ensures ok { OnOk result (self.new ≡ record self.old { room = max self.old.room n }) }
        ensures err { OnErr result (self.new ≡ self.old) }
    {
        self.mem.reserve(n)?;
        self.obj.reserve(n)?;
        self.room = self.room.max(n);
        Ok(())
    }

    /// Adds `range`, which shares no place with those of its space.
    pub(crate) fn insert(&mut self, range: Range, key: u32)
        requires room { 0 < self.old.room }
        requires range { IsRange range }
        requires apart { AllByRecursion (λ e. overlaps e.range range ≡ false) (entries_of range.kind self.old) }
        ensures { self.new ≡ with_entries range.kind (put_in (record { range = range; key = key }) (entries_of range.kind self.old)) (record self.old { room = self.old.room - 1 }) }
    {
        match range.kind {
            Kind::Mem => self.mem.insert(range, key),
            Kind::Obj => self.obj.insert(range, key),
        }
        self.room -= 1;
    }

    /// Takes away the range of `base`, if there is one.
    pub(crate) fn remove(&mut self, kind: Kind, base: u32)
        ensures { self.new ≡ with_entries kind (taken_out base (entries_of kind self.old)) self.old }
    {
        match kind {
            Kind::Mem => self.mem.remove(base),
            Kind::Obj => self.obj.remove(base),
        };
    }
}
