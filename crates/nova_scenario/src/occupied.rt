ghost use Rattle.std.specs.Prelude.{◌≡◌, ℕ, ◌||◌, false, OnOk, OnErr};
ghost use Rattle.std.specs.List.{list_any};
ghost use Rattle.nova_scenario.specs.Occupied.{meets, no_parts};

use std::alloc::{AllocError, Global};
use std::collections::BTreeMap;
use std::marker::Model;

/// Parts of memory of which no two meet. Contracts see them as a list of their first addresses with the addresses after them.
#[derive(Drop)]
pub struct Occupied {
    /// The address after each part, by its first.
    ends: BTreeMap<u64, u64>,
}

impl Model for Occupied {
    ghost use Rattle.std.specs.Prelude.{ℕ, List};
    ghost use Rattle.nova_scenario.specs.Occupied.{AreSpread};

    ghost Value = { List (ℕ × ℕ) };

    ghost view = { λ o. o.ends.entries };

    ghost invariant = { λ o. AreSpread o.ends.entries };
}

impl Occupied {
    /// No parts.
    pub fn new(alloc: Global) -> Occupied
        ensures { result ≡ no_parts }
    {
        Occupied {
            ends: BTreeMap::new(alloc),
        }
    }

    /// Whether some part has an address from `start` up to but not including `end`.
    pub fn meets(&self, start: u64, end: u64) -> bool
        ensures { result ≡ list_any (meets start end) self.now }
    {
        if end <= start {
            return false;
        }
        // Of the parts that begin before the end, the last reaches furthest.
        match self.ends.range(..end).next_back() {
            Some((_, last)) => start < *last,
            None => false,
        }
    }

    /// Adds the addresses from `start` up to but not including `end`, which meet none so far. Where there are none, nothing is added.
    pub fn add(&mut self, start: u64, end: u64) -> Result<(), AllocError>
        requires { list_any (meets start end) self.old ≡ false }
        ensures added { OnOk result ((from to : ℕ) → list_any (meets from to) self.new ≡ (meets from to (start, end) || list_any (meets from to) self.old)) }
        ensures err { OnErr result (self.new ≡ self.old) }
    {
        if start < end {
            self.ends.insert(start, end)?;
        }
        Ok(())
    }
}
