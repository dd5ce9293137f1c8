ghost use Rattle.std.specs.Prelude.{◌≡◌, ◌<◌, ◌≤◌, ◌+◌, ◌-◌, ◌==◌, ◌&&◌, ℕ, [], Bool, false, max, Some, IfOk, OnOk, OnErr, IfSome, IsSome, option_map, slice_get, slice_set, length, map};
ghost use Rattle.std.specs.List.{AllByRecursion};
ghost use Rattle.nova_range.specs.Ranges.{IsRange, overlaps};
ghost use Rattle.nova_range.specs.Indices.{IsSorted, key_at, range_from, put_in, taken_out};
ghost use Rattle.nova_model.specs.Delegations.{is_same_kind};
ghost use Rattle.nova_nodes.specs.Spaces.{entries_of, entries_in, entries_at, room_in, room_at, with_entries, is_of, roomless};

use crate::space::Space;
use nova_range::{Index, Kind, Range};
use std::alloc::{AllocError, Global};
use std::marker::Model;

/// The spaces of protection domains, by the domain's number.
#[derive(Drop)]
pub(crate) struct Spaces<I: Index> {
    items: Vec<Option<Space<I>>>,
    alloc: Global,
}

impl<I: Index> Model for Spaces<I> {
    ghost use Rattle.std.specs.Prelude.{List, Option};
    ghost use Rattle.nova_nodes.specs.Spaces.{SpaceState};

    ghost Value = { List (Option SpaceState) };

    ghost view = { λ s. s.items.items };
}

/// The key of the range of a space that has `place`, or nothing where none has it.
fn find_in<I: Index>(space: &mut Option<Space<I>>, kind: Kind, place: u32) -> Option<u32>
    ensures key { result ≡ key_at place (entries_in kind space.old) }
    ensures kept { space.new ≡ space.old }
    ensures sound { IsSorted (entries_in kind space.new) }
{
    match space {
        Some(space) => space.find(kind, place),
        None => None,
    }
}

/// The first range of a space that has a place at or after `place`, with its key.
fn first_in<I: Index>(space: &Option<Space<I>>, kind: Kind, place: u32) -> Option<(Range, u32)>
    ensures first { result ≡ range_from place (entries_in kind space.now) }
    ensures sound { IsSorted (entries_in kind space.now) }
{
    match space {
        Some(space) => space.first_from(kind, place),
        None => None,
    }
}

/// For how many more ranges there is room in `space`: for none where it isn't there.
fn room_in<I: Index>(space: &Option<Space<I>>) -> usize
    ensures { result ≡ room_in space.now }
{
    match space {
        Some(space) => space.room(),
        None => 0,
    }
}

/// Copies `space` into memory of its own, with no room for more; nothing where it isn't there.
fn copy_of<I: Index>(space: &Option<Space<I>>) -> Result<Option<Space<I>>, AllocError>
    ensures { IfOk result (λ copy. copy ≡ roomless space.now) }
{
    match space {
        Some(space) => Ok(Some(space.copy()?)),
        None => Ok(None),
    }
}

/// Makes room for `n` more ranges in a space that is there. Where it refuses nothing has changed.
fn reserve_in<I: Index>(space: &mut Option<Space<I>>, n: usize) -> Result<(), AllocError>
    requires there { IsSome space.old }
    ensures ok { OnOk result (IfSome space.old (λ s. space.new ≡ Some (record s { room = max s.room n }))) }
    ensures err { OnErr result (space.new ≡ space.old) }
{
    let Some(space) = space else { unreachable!() };
    space.reserve(n)
}

/// Adds `range` to a space that is there, where it shares no place with another.
fn insert_in<I: Index>(space: &mut Option<Space<I>>, range: Range, key: u32)
    requires room { IfSome space.old (λ s. 0 < s.room) }
    requires there { IsSome space.old }
    requires range { IsRange range }
    requires apart { AllByRecursion (λ e. overlaps e.range range ≡ false) (entries_in range.kind space.old) }
    ensures { IfSome space.old (λ s. space.new ≡ Some (with_entries range.kind (put_in (record { range = range; key = key }) (entries_of range.kind s)) (record s { room = s.room - 1 }))) }
{
    let Some(space) = space else { unreachable!() };
    space.insert(range, key);
}

/// Takes away the range of `base`, if there is one.
fn remove_in<I: Index>(space: &mut Option<Space<I>>, kind: Kind, base: u32)
    ensures { space.new ≡ option_map (λ s. with_entries kind (taken_out base (entries_of kind s)) s) space.old }
{
    if let Some(space) = space {
        space.remove(kind, base);
    }
}

impl<I: Index> Spaces<I> {
    /// No spaces.
    pub(crate) fn new(alloc: Global) -> Spaces<I>
        ensures { result ≡ [] }
    {
        Spaces {
            items: Vec::new(alloc),
            alloc,
        }
    }

    /// Copies the spaces into memory of their own, with no room for more.
    pub(crate) fn copy(&self) -> Result<Spaces<I>, AllocError>
        ensures { IfOk result (λ copy. copy ≡ map roomless self.now) }
    {
        let mut items = Vec::new(self.alloc);
        for space in &self.items {
            items.push(copy_of(space)?)?;
        }
        Ok(Spaces {
            items,
            alloc: self.alloc,
        })
    }

    /// The key of the range of the space `kind` of the domain `pd` that has `place`, or nothing where none has it.
    pub(crate) fn find(&mut self, pd: u32, kind: Kind, place: u32) -> Option<u32>
        ensures key { result ≡ key_at place (entries_at self.old pd kind) }
        ensures kept { self.new ≡ self.old }
    {
        if pd as usize >= self.items.len() {
            return None;
        }
        find_in(&mut self.items[pd as usize], kind, place)
    }

    /// The first range of the space `kind` of the domain `pd` that has a place at or after `place`, with its key.
    pub(crate) fn first_from(&self, pd: u32, kind: Kind, place: u32) -> Option<(Range, u32)>
        ensures first { result ≡ range_from place (entries_at self.now pd kind) }
        ensures sound { IsSorted (entries_at self.now pd kind) }
    {
        if pd as usize >= self.items.len() {
            return None;
        }
        first_in(&self.items[pd as usize], kind, place)
    }

    /// For how many more ranges there is room in each space of the domain `pd`.
    pub(crate) fn room(&self, pd: u32) -> usize
        ensures { result ≡ room_at self.now pd }
    {
        if pd as usize >= self.items.len() {
            return 0;
        }
        room_in(&self.items[pd as usize])
    }

    /// Makes the table long enough for the domain `pd`. Where it refuses nothing has changed.
    #[tactic(auto, using(crate::proofs::Tables::entries_more, crate::proofs::Tables::rooms_more))]
    fn lengthen(&mut self, pd: u32) -> Result<(), AllocError>
        ensures entries { (other : ℕ) (kind : Kind) → entries_at self.new other kind ≡ entries_at self.old other kind }
        ensures rooms { (other : ℕ) → room_at self.new other ≡ room_at self.old other }
        ensures there { OnOk result (pd < length self.new) }
        ensures err { OnErr result (self.new ≡ self.old) }
    {
        let more = (pd as usize + 1).saturating_sub(self.items.len());
        self.items.reserve(more)?;
        for _ in 0..more {
            self.items.push_reserved(None);
        }
        Ok(())
    }

    /// Makes the spaces of the domain `pd`, with no ranges; those that are there stay. Where it refuses nothing has changed.
    pub(crate) fn add_pd(&mut self, pd: u32) -> Result<(), AllocError>
        ensures entries { (other : ℕ) (kind : Kind) → entries_at self.new other kind ≡ entries_at self.old other kind }
        ensures rooms { (other : ℕ) → room_at self.new other ≡ room_at self.old other }
        ensures there { OnOk result (IfSome (slice_get self.new pd) IsSome) }
        ensures long { OnOk result (pd < length self.new) }
        ensures err { OnErr result (self.new ≡ self.old) }
    {
        self.lengthen(pd)?;
        if self.items[pd as usize].is_none() {
            self.items[pd as usize] = Some(Space::new(self.alloc));
        }
        Ok(())
    }

    /// Makes room for `n` more ranges in each space of the domain `pd`, and the spaces where they are not there
    /// yet. Where it refuses room has not changed.
    pub(crate) fn reserve(&mut self, pd: u32, n: usize) -> Result<(), AllocError>
        ensures entries { (other : ℕ) (kind : Kind) → entries_at self.new other kind ≡ entries_at self.old other kind }
        ensures others { (other : ℕ) → ¬ (other ≡ pd) → room_at self.new other ≡ room_at self.old other }
        ensures ok { OnOk result (room_at self.new pd ≡ max (room_at self.old pd) n) }
        ensures err { OnErr result (room_at self.new pd ≡ room_at self.old pd) }
    {
        self.add_pd(pd)?;
        reserve_in(&mut self.items[pd as usize], n)
    }

    /// Adds `range` to a domain's space, in room that was made. It shares no place with those there.
    pub(crate) fn insert(&mut self, pd: u32, range: Range, key: u32)
        requires room { 0 < room_at self.old pd }
        requires range { IsRange range }
        requires apart { AllByRecursion (λ e. overlaps e.range range ≡ false) (entries_at self.old pd range.kind) }
        ensures here { entries_at self.new pd range.kind ≡ put_in (record { range = range; key = key }) (entries_at self.old pd range.kind) }
        ensures others { (other : ℕ) (kind : Kind) → is_of pd range.kind other kind ≡ false → entries_at self.new other kind ≡ entries_at self.old other kind }
        ensures room { room_at self.old pd ≡ room_at self.new pd + 1 }
        ensures rooms { (other : ℕ) → ¬ (other ≡ pd) → room_at self.new other ≡ room_at self.old other }
    {
        insert_in(&mut self.items[pd as usize], range, key);
    }

    /// Takes away the range of `base` of a domain's space, if there is one.
    pub(crate) fn remove(&mut self, pd: u32, kind: Kind, base: u32)
        ensures here { entries_at self.new pd kind ≡ taken_out base (entries_at self.old pd kind) }
        ensures others { (other : ℕ) (space : Kind) → is_of pd kind other space ≡ false → entries_at self.new other space ≡ entries_at self.old other space }
        ensures rooms { (other : ℕ) → room_at self.new other ≡ room_at self.old other }
    {
        if (pd as usize) < self.items.len() {
            remove_in(&mut self.items[pd as usize], kind, base);
        }
    }
}
