ghost use Rattle.std.specs.Prelude.{◌≡◌, length, option_map};
ghost use Rattle.nova_turn.specs.Parts.{state_of};
ghost use Rattle.nova_turn.specs.Views.{semaphore_at};

use crate::tables::inventory::Inventory;
use nova_deeds::StirCounts;
use nova_ec::Ecs;
use nova_memory::Reach;
use nova_model::Transfer;
use nova_revoke::Revokes;
use nova_sched::Queues;
use nova_sem::Sems;
use nova_times::Times;

/// The parts of a kernel, which a turn changes one by one; `Kernel` shows them as one state. Tables
/// are by the number of the object: execution contexts, how far they are with the items that they give,
/// the identifiers of portals, semaphores, and the stir counts of virtual CPUs. Scheduling contexts wait in queues,
/// and the revokes that run are in a list. A processor's clock is its stir count too: both count its turns.
#[derive(Drop)]
pub struct Parts {
    pub reach: Reach,
    pub objects: Inventory,
    pub contexts: Ecs,
    pub queues: Queues,
    pub transfers: Vec<Option<Transfer>>,
    pub identifiers: Vec<Option<u32>>,
    pub semaphores: Sems,
    pub turns: u64,
    pub cpus: u32,
    pub times: Times,
    pub guests: StirCounts,
    pub revokes: Revokes,
}

impl Parts {
    /// The counter of the semaphore `sm` and how many wait at it.
    pub fn semaphore(&self, sm: u32) -> Option<(u32, u32)>
        ensures { result ≡ option_map (λ s. (s.count, length s.waiting)) (semaphore_at (state_of self.now) sm) }
    {
        if !self.semaphores.contains(sm) {
            return None;
        }
        Some((self.semaphores.count(sm), self.semaphores.waiting(sm)))
    }
}
