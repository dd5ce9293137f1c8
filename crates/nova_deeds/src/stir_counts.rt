ghost use Rattle.std.specs.Prelude.{◌≡◌, ◌-◌, ◌+◌, ◌<◌, ◌≤◌, ◌^◌, [], ◌∷◌, ◌++◌, length, max, slice_get, IfOk, IsOk, OnOk, OnErr};
ghost use Rattle.nova_model.specs.State.{entry};
ghost use Rattle.nova_deeds.specs.StirCounts.{count_in};
ghost use Rattle.nova_deeds.specs.StirCounts.{numbers_from, risen_by, risen_at};

use std::alloc::{AllocError, Global};
use std::marker::Model;

/// The stir counts of virtual CPUs, by the number of the object: an entry for each object, which holds a
/// count where the object is a virtual CPU. The numbers of these are kept beside, so that a turn looks
/// at no other.
#[derive(Drop)]
pub struct StirCounts {
    counts: Vec<Option<u64>>,
    numbers: Vec<u32>,
    spare: usize,
}

impl Model for StirCounts {
    ghost use Rattle.std.specs.Prelude.{◌≡◌, ◌+◌, ◌≤◌, vec_len, vec_capacity};
    ghost use Rattle.nova_deeds.specs.StirCounts.{StirTable};
    ghost use Rattle.nova_deeds.specs.StirCounts.{numbers_from};

    ghost Value = { StirTable };

    ghost view = { λ t. record { counts = t.counts.items; spare = t.spare } };

    ghost invariant = { λ t. (t.numbers.items ≡ numbers_from 0 t.counts.items) × ((vec_len t.counts + t.spare ≤ vec_capacity t.counts) × (vec_len t.numbers + t.spare ≤ vec_capacity t.numbers)) };
}

impl StirCounts {
    /// No entries, and room for none.
    pub fn new(alloc: Global) -> StirCounts
        ensures { result ≡ record { counts = []; spare = 0 } }
    {
        StirCounts {
            counts: Vec::new(alloc),
            numbers: Vec::new(alloc),
            spare: 0,
        }
    }

    /// Makes room for `n` more entries, counted from those that are there. Room that was made before
    /// stays, and where it is enough, this succeeds.
    pub fn reserve(&mut self, n: usize) -> Result<(), AllocError>
        ensures ok { OnOk result (self.new ≡ record self.old { spare = max self.old.spare n }) }
        ensures enough { n ≤ self.old.spare → IsOk result }
        ensures err { OnErr result (self.new ≡ self.old) }
    {
        self.counts.reserve(n)?;
        self.numbers.reserve(n)?;
        self.spare = self.spare.max(n);
        Ok(())
    }

    /// Copies the entries into memory of their own, with no spare room.
    pub fn copy(&self) -> Result<StirCounts, AllocError>
        ensures { IfOk result (λ copy. copy ≡ record { counts = self.now.counts; spare = 0 }) }
    {
        let counts = Vec::from_slice(*self.counts.allocator(), self.counts.as_slice())?;
        let numbers = Vec::from_slice(*self.numbers.allocator(), self.numbers.as_slice())?;
        Ok(StirCounts {
            counts,
            numbers,
            spare: 0,
        })
    }

    /// Adds the entry of the next number, which is below 2^32, in reserved room: `count`, that of a virtual CPU, or nothing.
    pub fn add(&mut self, count: Option<u64>)
        requires spare { 0 < self.old.spare }
        requires few { length self.old.counts < 2 ^ 32 }
        ensures { self.new ≡ record { counts = self.old.counts ++ count ∷ []; spare = self.old.spare - 1 } }
    {
        if count.is_some() {
            self.numbers.push_reserved(self.counts.len() as u32);
        }
        self.counts.push_reserved(count);
        self.spare -= 1;
    }

    /// The count of the virtual CPU `ec`, or nothing where none has the number.
    fn get(&self, ec: u32) -> Option<u64>
        ensures { result ≡ entry (slice_get self.now.counts ec) }
    {
        match self.counts.get(ec as usize) {
            Some(count) => *count,
            None => None,
        }
    }

    /// The count of the virtual CPU `ec`; 0 where none has the number.
    pub fn count(&self, ec: u32) -> u64
        ensures { result ≡ count_in (entry (slice_get self.now.counts ec)) }
    {
        self.get(ec).unwrap_or(0)
    }

    /// The numbers of the virtual CPUs, rising.
    pub fn numbers(&self) -> &[u32]
        ensures { result.now ≡ numbers_from 0 self.now.counts }
    {
        self.numbers.as_slice()
    }

    /// Raises the count of the virtual CPU `ec` by one; nothing changes where none has the number.
    pub fn rise(&mut self, ec: u32)
        requires { count_in (entry (slice_get self.old.counts ec)) < 2 ^ 64 - 1 }
        ensures { self.new ≡ record self.old { counts = risen_at ec self.old.counts } }
    {
        let Some(count) = self.get(ec) else { return };
        self.counts[ec as usize] = Some(count + 1);
    }

    /// Raises the count of the virtual CPU `ec` by `n`; nothing changes where none has the number.
    pub fn rise_by(&mut self, ec: u32, n: u64)
        requires { count_in (entry (slice_get self.old.counts ec)) + n < 2 ^ 64 }
        ensures { self.new ≡ record self.old { counts = risen_by ec n self.old.counts } }
    {
        let Some(count) = self.get(ec) else { return };
        self.counts[ec as usize] = Some(count + n);
    }
}
