ghost use Rattle.std.specs.Prelude.{◌≡◌, ◌≤◌, length, IfOk, OnOk, OnErr};
ghost use Rattle.nova_turn.specs.Parts.{state_of};

use crate::parts::Parts;
use crate::tables::inventory::Inventory;
use nova_deeds::StirCounts;
use nova_ec::{Ecs, Entries};
use nova_memory::{Reach, ReachTables};
use nova_model::Transfer;
use nova_revoke::Revokes;
use nova_sched::Queues;
use nova_sem::Sems;
use nova_times::Times;
use std::alloc::AllocError;

/// The objects, and what portals and semaphores have besides.
#[derive(Drop)]
pub(crate) struct ObjectTables {
    pub objects: Inventory,
    pub identifiers: Vec<Option<u32>>,
    pub semaphores: Sems,
}

/// What execution contexts have: their registers and states, how far they are with items, and their stir counts.
#[derive(Drop)]
pub(crate) struct ContextTables {
    pub contexts: Ecs,
    pub transfers: Vec<Option<Transfer>>,
    pub guests: StirCounts,
}

/// What is to come: what waits for a processor, what is due when, and which revokes run.
#[derive(Drop)]
pub(crate) struct Agenda {
    pub queues: Queues,
    pub times: Times,
    pub revokes: Revokes,
}

/// All that the parts are made from but what instructions reach.
#[derive(Drop)]
pub(crate) struct Groups {
    pub objects: ObjectTables,
    pub contexts: ContextTables,
    pub agenda: Agenda,
}

/// Drops a value out of line, which keeps the caller's proof small.
pub(crate) fn let_go<T: Drop>(_value: T) {}

/// The parts of a kernel, of what they are made from.
pub(crate) fn together(reach: Reach, groups: Groups, turns: u64, cpus: u32) -> Parts
    ensures { result ≡ record { reach = reach; objects = groups.objects.objects; contexts = groups.contexts.contexts; queues = groups.agenda.queues; transfers = groups.contexts.transfers; identifiers = groups.objects.identifiers; semaphores = groups.objects.semaphores; turns = turns; cpus = cpus; times = groups.agenda.times; guests = groups.contexts.guests; revokes = groups.agenda.revokes } }
{
    let Groups {
        objects,
        contexts,
        agenda,
    } = groups;
    Parts {
        reach,
        objects: objects.objects,
        contexts: contexts.contexts,
        queues: agenda.queues,
        transfers: contexts.transfers,
        identifiers: objects.identifiers,
        semaphores: objects.semaphores,
        turns,
        cpus,
        times: agenda.times,
        guests: contexts.guests,
        revokes: agenda.revokes,
    }
}

impl Parts {
    /// Copies the parts into memory of their own, with no room in the console log.
    pub fn copy(&self) -> Result<Parts, AllocError>
        ensures shown { IfOk result (λ p. state_of p ≡ state_of self.now) }
        ensures queues { IfOk result (λ p. p.queues.all ≡ self.now.queues.all) }
        ensures room { IfOk result (λ p. p.reach.room ≡ 0) }
        ensures revokes { IfOk result (λ p. p.revokes.list ≡ self.now.revokes.list) }
        ensures places { IfOk result (λ p. length self.now.objects.items ≤ p.revokes.places) }
    {
        let groups = self.copied_groups()?;
        match self.reach.copy() {
            Ok(reach) => Ok(together(reach, groups, self.turns, self.cpus)),
            Err(error) => {
                let_go(groups);
                Err(error)
            }
        }
    }

    /// All tables in memory of their own.
    fn copied_groups(&self) -> Result<Groups, AllocError>
        ensures objects { IfOk result (λ g. g.objects.objects.items ≡ self.now.objects.items) }
        ensures identifiers { IfOk result (λ g. g.objects.identifiers.items ≡ self.now.identifiers.items) }
        ensures semaphores { IfOk result (λ g. g.objects.semaphores.all ≡ self.now.semaphores.all) }
        ensures contexts { IfOk result (λ g. g.contexts.contexts.items ≡ self.now.contexts.items) }
        ensures transfers { IfOk result (λ g. g.contexts.transfers.items ≡ self.now.transfers.items) }
        ensures guests { IfOk result (λ g. g.contexts.guests.counts ≡ self.now.guests.counts) }
        ensures queues { IfOk result (λ g. g.agenda.queues.all ≡ self.now.queues.all) }
        ensures times { IfOk result (λ g. g.agenda.times.all ≡ self.now.times.all) }
        ensures revokes { IfOk result (λ g. g.agenda.revokes.list ≡ self.now.revokes.list) }
        ensures places { IfOk result (λ g. length self.now.objects.items ≤ g.agenda.revokes.places) }
    {
        let objects = self.copied_objects()?;
        let contexts = self.copied_contexts()?;
        let agenda = self.copied_agenda()?;
        Ok(Groups {
            objects,
            contexts,
            agenda,
        })
    }

    /// The objects, and what portals and semaphores have, in memory of their own.
    pub(crate) fn copied_objects(&self) -> Result<ObjectTables, AllocError>
        ensures objects { IfOk result (λ t. t.objects.items ≡ self.now.objects.items) }
        ensures identifiers { IfOk result (λ t. t.identifiers.items ≡ self.now.identifiers.items) }
        ensures semaphores { IfOk result (λ t. t.semaphores.all ≡ self.now.semaphores.all) }
    {
        let objects = self.objects.copy()?;
        let identifiers = Vec::from_slice(*self.identifiers.allocator(), &self.identifiers)?;
        let semaphores = self.semaphores.copy()?;
        Ok(ObjectTables {
            objects,
            identifiers,
            semaphores,
        })
    }

    /// What execution contexts have, in memory of its own.
    fn copied_contexts(&self) -> Result<ContextTables, AllocError>
        ensures contexts { IfOk result (λ t. t.contexts.items ≡ self.now.contexts.items) }
        ensures transfers { IfOk result (λ t. t.transfers.items ≡ self.now.transfers.items) }
        ensures guests { IfOk result (λ t. t.guests.counts ≡ self.now.guests.counts) }
    {
        let contexts = self.contexts.copy()?;
        let transfers = Vec::from_slice(*self.transfers.allocator(), &self.transfers)?;
        let guests = self.guests.copy()?;
        Ok(ContextTables {
            contexts,
            transfers,
            guests,
        })
    }

    /// What is to come, in memory of its own.
    pub(crate) fn copied_agenda(&self) -> Result<Agenda, AllocError>
        ensures queues { IfOk result (λ t. t.queues.all ≡ self.now.queues.all) }
        ensures times { IfOk result (λ t. t.times.all ≡ self.now.times.all) }
        ensures revokes { IfOk result (λ t. t.revokes.list ≡ self.now.revokes.list) }
        ensures places { IfOk result (λ t. length self.now.objects.items ≤ t.revokes.places) }
    {
        let queues = self.queues.copy()?;
        let times = self.times.copy(*self.transfers.allocator())?;
        let revokes = self.revokes.copy(self.objects.len())?;
        Ok(Agenda {
            queues,
            times,
            revokes,
        })
    }
}

/// What execution contexts have, without what is remembered of words.
#[derive(Drop)]
struct ContextEntries {
    entries: Entries,
    transfers: Vec<Option<Transfer>>,
    guests: StirCounts,
}

/// All that the parts are made from but what instructions reach and what is remembered.
#[derive(Drop)]
struct Tables {
    objects: ObjectTables,
    contexts: ContextEntries,
    agenda: Agenda,
}

impl Parts {
    /// Copies the parts of `from` into these, with no room in the console log. What words read as stays remembered. Where memory is
    /// refused nothing has changed.
    pub fn restore(&mut self, from: &Parts) -> Result<(), AllocError>
        ensures shown { OnOk result (state_of self.new ≡ state_of from.now) }
        ensures queues { OnOk result (self.new.queues.all ≡ from.now.queues.all) }
        ensures room { OnOk result (self.new.reach.room ≡ 0) }
        ensures revokes { OnOk result (self.new.revokes.list ≡ from.now.revokes.list) }
        ensures places { OnOk result (length from.now.objects.items ≤ self.new.revokes.places) }
        ensures err { OnErr result (self.new ≡ self.old) }
    {
        let tables = from.tables()?;
        match from.reach.tables() {
            Ok(reach) => {
                self.put(reach, tables, from.turns, from.cpus);
                Ok(())
            }
            Err(error) => {
                let_go(tables);
                Err(error)
            }
        }
    }

    /// Puts tables in place of what is there.
    fn put(&mut self, reach: ReachTables, tables: Tables, turns: u64, cpus: u32)
        ensures { self.new ≡ record { reach = reach; objects = tables.objects.objects; contexts = record { items = tables.contexts.entries; spare = 0 }; queues = tables.agenda.queues; transfers = tables.contexts.transfers; identifiers = tables.objects.identifiers; semaphores = tables.objects.semaphores; turns = turns; cpus = cpus; times = tables.agenda.times; guests = tables.contexts.guests; revokes = tables.agenda.revokes } }
    {
        let Tables {
            objects,
            contexts,
            agenda,
        } = tables;
        self.reach.restore(reach);
        self.objects = objects.objects;
        self.identifiers = objects.identifiers;
        self.semaphores = objects.semaphores;
        self.contexts.restore(contexts.entries);
        self.transfers = contexts.transfers;
        self.guests = contexts.guests;
        self.queues = agenda.queues;
        self.times = agenda.times;
        self.revokes = agenda.revokes;
        self.turns = turns;
        self.cpus = cpus;
    }

    /// All tables in memory of their own, but for what instructions reach.
    fn tables(&self) -> Result<Tables, AllocError>
        ensures objects { IfOk result (λ t. t.objects.objects.items ≡ self.now.objects.items) }
        ensures identifiers { IfOk result (λ t. t.objects.identifiers.items ≡ self.now.identifiers.items) }
        ensures semaphores { IfOk result (λ t. t.objects.semaphores.all ≡ self.now.semaphores.all) }
        ensures contexts { IfOk result (λ t. t.contexts.entries ≡ self.now.contexts.items) }
        ensures transfers { IfOk result (λ t. t.contexts.transfers.items ≡ self.now.transfers.items) }
        ensures guests { IfOk result (λ t. t.contexts.guests.counts ≡ self.now.guests.counts) }
        ensures queues { IfOk result (λ t. t.agenda.queues.all ≡ self.now.queues.all) }
        ensures times { IfOk result (λ t. t.agenda.times.all ≡ self.now.times.all) }
        ensures revokes { IfOk result (λ t. t.agenda.revokes.list ≡ self.now.revokes.list) }
        ensures places { IfOk result (λ t. length self.now.objects.items ≤ t.agenda.revokes.places) }
    {
        let objects = self.copied_objects()?;
        let contexts = self.context_entries()?;
        let agenda = self.copied_agenda()?;
        Ok(Tables {
            objects,
            contexts,
            agenda,
        })
    }

    /// What execution contexts have, in memory of its own.
    fn context_entries(&self) -> Result<ContextEntries, AllocError>
        ensures contexts { IfOk result (λ t. t.entries ≡ self.now.contexts.items) }
        ensures transfers { IfOk result (λ t. t.transfers.items ≡ self.now.transfers.items) }
        ensures guests { IfOk result (λ t. t.guests.counts ≡ self.now.guests.counts) }
    {
        let entries = self.contexts.entries()?;
        let transfers = Vec::from_slice(*self.transfers.allocator(), &self.transfers)?;
        let guests = self.guests.copy()?;
        Ok(ContextEntries {
            entries,
            transfers,
            guests,
        })
    }
}
