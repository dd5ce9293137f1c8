ghost use Rattle.std.specs.Prelude.{◌≡◌, ◌≤◌, [], ◌∷◌, replicate, IfOk, None, Some};
ghost use Rattle.nova_model.specs.Boot.{bare, root_objects, root_context};
ghost use Rattle.nova_model.specs.State.{no_transfer};
ghost use Rattle.nova_choice.specs.Schedules.{root_schedule};
ghost use Rattle.nova_turn.specs.Parts.{state_of};

use crate::parts::Parts;
use crate::tables::copy::{Agenda, ContextTables, Groups, ObjectTables, let_go, together};
use crate::tables::inventory::Inventory;
use nova_choice::root_queues;
use nova_deeds::{
    no_entries, root_contexts, root_guests, root_objects, root_revokes, root_semaphores,
    root_times, root_transfers,
};
use nova_memory::Reach;
use nova_model::Root;
use std::alloc::{AllocError, Global};

/// The root's objects, of which none is a portal or a semaphore.
fn root_object_tables(alloc: Global, root: Root) -> Result<ObjectTables, AllocError>
    ensures objects { IfOk result (λ t. t.objects.items ≡ root_objects root) }
    ensures identifiers { IfOk result (λ t. t.identifiers.items ≡ None ∷ None ∷ None ∷ []) }
    ensures semaphores { IfOk result (λ t. t.semaphores.all ≡ None ∷ None ∷ None ∷ []) }
{
    let objects = Inventory::new(alloc, root_objects(alloc, root)?, 2)?;
    let identifiers = no_entries(alloc)?;
    let semaphores = root_semaphores(alloc)?;
    Ok(ObjectTables {
        objects,
        identifiers,
        semaphores,
    })
}

/// What the root's execution context has.
fn root_context_tables(alloc: Global, root: Root) -> Result<ContextTables, AllocError>
    ensures contexts { IfOk result (λ t. t.contexts.items ≡ None ∷ Some (root_context root) ∷ None ∷ []) }
    ensures transfers { IfOk result (λ t. t.transfers.items ≡ None ∷ Some no_transfer ∷ None ∷ []) }
    ensures guests { IfOk result (λ t. t.guests.counts ≡ None ∷ None ∷ None ∷ []) }
{
    let contexts = root_contexts(alloc, root)?;
    let transfers = root_transfers(alloc)?;
    let guests = root_guests(alloc)?;
    Ok(ContextTables {
        contexts,
        transfers,
        guests,
    })
}

/// The root's scheduling context waits for a processor, nothing is due, and no revoke runs.
fn root_agenda(alloc: Global, cpus: u32, root: Root) -> Result<Agenda, AllocError>
    ensures queues { IfOk result (λ t. t.queues.all ≡ root_schedule cpus root) }
    ensures times { IfOk result (λ t. t.times.all ≡ record { clocks = replicate cpus 0; deadlines = None ∷ None ∷ None ∷ []; alarms = [] }) }
    ensures revokes { IfOk result (λ t. t.revokes.list ≡ []) }
    ensures places { IfOk result (λ t. 3 ≤ t.revokes.places) }
{
    let queues = root_queues(alloc, cpus, root)?;
    let times = root_times(alloc, cpus)?;
    let revokes = root_revokes(alloc)?;
    Ok(Agenda {
        queues,
        times,
        revokes,
    })
}

/// All tables.
fn root_groups(alloc: Global, cpus: u32, root: Root) -> Result<Groups, AllocError>
    ensures objects { IfOk result (λ g. g.objects.objects.items ≡ root_objects root) }
    ensures identifiers { IfOk result (λ g. g.objects.identifiers.items ≡ None ∷ None ∷ None ∷ []) }
    ensures semaphores { IfOk result (λ g. g.objects.semaphores.all ≡ None ∷ None ∷ None ∷ []) }
    ensures contexts { IfOk result (λ g. g.contexts.contexts.items ≡ None ∷ Some (root_context root) ∷ None ∷ []) }
    ensures transfers { IfOk result (λ g. g.contexts.transfers.items ≡ None ∷ Some no_transfer ∷ None ∷ []) }
    ensures guests { IfOk result (λ g. g.contexts.guests.counts ≡ None ∷ None ∷ None ∷ []) }
    ensures queues { IfOk result (λ g. g.agenda.queues.all ≡ root_schedule cpus root) }
    ensures times { IfOk result (λ g. g.agenda.times.all ≡ record { clocks = replicate cpus 0; deadlines = None ∷ None ∷ None ∷ []; alarms = [] }) }
    ensures revokes { IfOk result (λ g. g.agenda.revokes.list ≡ []) }
    ensures places { IfOk result (λ g. 3 ≤ g.agenda.revokes.places) }
{
    let objects = root_object_tables(alloc, root)?;
    let contexts = root_context_tables(alloc, root)?;
    let agenda = root_agenda(alloc, cpus, root)?;
    Ok(Groups {
        objects,
        contexts,
        agenda,
    })
}

impl Parts {
    /// The parts of a machine of `cpus` processors that boots with `root`, without images.
    #[tactic(auto, using(nova_choice::proofs::Started::started))]
    pub fn new(
        alloc: Global,
        cpus: u32,
        ram: u8,
        consoles: u32,
        root: Root,
        log_room: u64,
    ) -> Result<Parts, AllocError>
        requires ram { ram ≤ 14 }
        requires consoles { consoles ≤ 16 }
        ensures shown { IfOk result (λ p. state_of p ≡ bare cpus ram consoles root) }
        ensures queues { IfOk result (λ p. p.queues.all ≡ root_schedule cpus root) }
        ensures room { IfOk result (λ p. p.reach.room ≡ log_room) }
        ensures revokes { IfOk result (λ p. (p.revokes.list ≡ []) × (3 ≤ p.revokes.places)) }
    {
        let groups = root_groups(alloc, cpus, root)?;
        match Reach::new(alloc, ram, consoles, log_room) {
            Ok(reach) => Ok(together(reach, groups, 0, cpus)),
            Err(error) => {
                let_go(groups);
                Err(error)
            }
        }
    }
}
