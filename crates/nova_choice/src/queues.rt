ghost use Rattle.std.specs.Prelude.{◌≡◌, ◌-◌, ◌^◌, ◌<◌, ◌≤◌, [], ◌∷◌, length, IfOk};
ghost use Rattle.nova_sched.specs.Queues.{members};
ghost use Rattle.nova_choice.specs.Schedules.{HasQueue, is_moving, joined, moved_by, remarked, root_schedule};

use crate::choice::actor_of;
use nova_ec::Ecs;
use nova_model::{Deed, Mark, NewObject, Root};
use nova_objects::Objects;
use nova_sched::Queues;
use std::alloc::{AllocError, Global};

/// Adds `new`, a scheduling context that is made with `number`, to the queue of its processor. It is marked by
/// whether its turns lead to an execution context that acts.
pub fn enqueue(queues: &mut Queues, contexts: &Ecs, number: u32, new: NewObject)
    requires few { length queues.old.all.entries ≤ number }
    requires room { HasQueue new number queues.old }
    requires stamp { queues.old.all.next_stamp < 2 ^ 64 - 1 }
    ensures { queues.new.all ≡ joined contexts.now.items queues.old.all number new }
{
    if let NewObject::Sc {
        ec,
        cpu,
        priority,
        quantum,
    } = new
    {
        queues.add(number, cpu, priority, quantum);
        queues.set_runnable(number, contexts.acts(contexts.chase(ec)));
    }
}

/// Marks the scheduling contexts of the processor `cpu` by whether their turns lead to an execution context that acts.
pub fn mark_all(queues: &mut Queues, objects: &Objects, contexts: &Ecs, cpu: u32)
    ensures { queues.new.all ≡ remarked objects.now.items contexts.now.items (members queues.old.all cpu) queues.old.all }
{
    for i in 0..queues.members(cpu).len() {
        let sc = queues.members(cpu)[i];
        let is_runnable = actor_of(objects, contexts, sc).is_some();
        queues.set_runnable(sc, is_runnable);
    }
}

/// Marks the scheduling context `sc` by whether its turns lead to an execution context that acts; another object has no mark.
pub fn mark_one(queues: &mut Queues, objects: &Objects, contexts: &Ecs, sc: u32)
    ensures { queues.new.all ≡ remarked objects.now.items contexts.now.items (sc ∷ []) queues.old.all }
{
    if queues.contains(sc) {
        let is_runnable = actor_of(objects, contexts, sc).is_some();
        queues.set_runnable(sc, is_runnable);
    }
}

/// Whether an execution context that does `deed` may cease to act, and no other acts in the turns that led to it.
#[inline(always)]
fn is_moving(deed: Deed) -> bool
    ensures { result ≡ is_moving deed }
{
    matches!(
        deed,
        Deed::Dies { .. }
            | Deed::Waits { .. }
            | Deed::Helps { .. }
            | Deed::Aborts {
                mark: Mark::Exit,
                ..
            }
            | Deed::Blocks { .. }
    )
}

/// The execution context whose turns may be led elsewhere after `ec` does `deed`: `ec` itself where it moves,
/// and after an up the context that it wakes.
#[inline(always)]
pub fn moved_by(ec: u32, deed: Deed) -> Option<u32>
    ensures { result ≡ moved_by ec deed }
{
    match deed {
        Deed::Ups { woken, .. } => woken,
        _ if is_moving(deed) => Some(ec),
        _ => None,
    }
}

/// The queues of `cpus` processors, with the root's scheduling context, which has a full quantum and the first
/// stamp, and is runnable. A machine without processors has a queue too, for that scheduling context.
#[tactic(auto, unfolding(crate::specs::Schedules::root_schedule))]
pub fn root_queues(alloc: Global, cpus: u32, root: Root) -> Result<Queues, AllocError>
    ensures { IfOk result (λ q. q.all ≡ root_schedule cpus root) }
{
    let mut queues = Queues::new(alloc, cpus.max(1))?;
    queues.reserve(2, 0)?;
    queues.add(2, 0, root.priority, root.quantum);
    queues.set_runnable(2, true);
    Ok(queues)
}
