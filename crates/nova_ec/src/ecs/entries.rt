ghost use Rattle.std.specs.Prelude.{◌≡◌, IfOk};

use crate::ecs::Ecs;
use crate::waiters::Waiters;
use nova_model::EcState;
use std::alloc::AllocError;
use std::marker::Model;

/// The entries of a table of execution contexts, in memory of their own.
#[derive(Drop)]
pub struct Entries {
    items: Vec<Option<EcState>>,
    waiters: Vec<Waiters>,
}

impl Model for Entries {
    ghost use Rattle.std.specs.Prelude.{◌≡◌, length};
    ghost use Rattle.nova_model.specs.State.{Contexts};
    ghost use Rattle.nova_model.specs.Edges.{AreEdges, AreCallers};
    ghost use Rattle.nova_ec.specs.Tables.{AreNumbered};
    ghost use Rattle.nova_ec.specs.Waiting.{AreKnown};

    ghost Value = { Contexts };

    ghost view = { λ e. e.items.items };

    ghost invariant = { λ e. AreEdges e.items.items × AreNumbered e.items.items × AreCallers e.items.items × (length e.waiters.items ≡ length e.items.items) × AreKnown e.items.items e.waiters.items };
}

impl Ecs {
    /// Copies the entries into memory of their own, to be put into another table by `restore`.
    pub fn entries(&self) -> Result<Entries, AllocError>
        ensures { IfOk result (λ entries. entries ≡ self.now.items) }
    {
        let alloc = *self.items.allocator();
        let items = Vec::from_slice(alloc, self.items.as_slice())?;
        let waiters = Vec::from_slice(alloc, self.waiters.as_slice())?;
        Ok(Entries { items, waiters })
    }

    /// Puts `entries` in place of those that are there, with no spare room. What words read as stays remembered.
    pub fn restore(&mut self, entries: Entries)
        ensures { self.new ≡ record { items = entries; spare = 0 } }
    {
        let Entries { items, waiters } = entries;
        self.items = items;
        self.waiters = waiters;
        self.spare = 0;
    }
}
