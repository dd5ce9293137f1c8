ghost use Rattle.std.specs.Prelude.{◌≡◌, ◌≤◌, [], ◌∷◌, replicate, IfOk, None, Some};
ghost use Rattle.nova_model.specs.Boot.{root_objects, root_context};
ghost use Rattle.nova_model.specs.State.{no_transfer};

use crate::items::NO_TRANSFER;
use crate::stir_counts::StirCounts;
use nova_ec::Ecs;
use nova_model::{EcKind, EcState, Object, Root, State, Transfer};
use nova_objects::Objects;
use nova_revoke::Revokes;
use nova_sem::Sems;
use nova_times::Times;
use rv_core::Regs;
use std::alloc::{AllocError, Global};

/// The first selector of the root thread's events.
const ROOT_EVENTS: u32 = 16;

/// The objects at boot: the root's protection domain, its execution context, a thread, and its scheduling context.
pub fn root_objects(alloc: Global, root: Root) -> Result<Objects, AllocError>
    ensures { IfOk result (λ o. o.items ≡ root_objects root) }
{
    let mut objects = Objects::new(alloc);
    objects.reserve(3)?;
    objects.add(Object::Pd);
    objects.add(Object::Ec {
        pd: 0,
        cpu: 0,
        kind: EcKind::Global,
        event: ROOT_EVENTS,
    });
    objects.add(Object::Sc {
        ec: 1,
        cpu: 0,
        priority: root.priority,
        quantum: root.quantum,
    });
    Ok(objects)
}

/// The root's execution context at boot, with the pc and the stack pointer of `root`.
pub fn root_context(root: Root) -> EcState
    ensures { result ≡ root_context root }
{
    EcState {
        id: 1,
        cpu: 0,
        state: State::Ready,
        regs: Regs::new(root.pc, root.sp),
        caller: None,
        recall: false,
    }
}

/// The table of execution contexts at boot, with the root's.
pub fn root_contexts(alloc: Global, root: Root) -> Result<Ecs, AllocError>
    ensures { IfOk result (λ t. t.items ≡ None ∷ Some (root_context root) ∷ None ∷ []) }
{
    let mut contexts = Ecs::new(alloc);
    contexts.reserve(3)?;
    contexts.add(None);
    contexts.add(Some(root_context(root)));
    contexts.add(None);
    Ok(contexts)
}

/// How far the root's execution context is with items: it gives none.
pub fn root_transfers(alloc: Global) -> Result<Vec<Option<Transfer>>, AllocError>
    ensures { IfOk result (λ v. v.items ≡ None ∷ Some no_transfer ∷ None ∷ []) }
{
    let mut transfers = Vec::with_capacity(alloc, 3)?;
    transfers.push(None)?;
    transfers.push(Some(NO_TRANSFER))?;
    transfers.push(None)?;
    Ok(transfers)
}

/// A table of what none of the root's objects has: portals' identifiers, or semaphores' counters.
pub fn no_entries(alloc: Global) -> Result<Vec<Option<u32>>, AllocError>
    ensures { IfOk result (λ v. v.items ≡ None ∷ None ∷ None ∷ []) }
{
    vec![in alloc; None; 3]
}

/// No running revokes, with a place for each of the root's objects.
pub fn root_revokes(alloc: Global) -> Result<Revokes, AllocError>
    ensures { IfOk result (λ r. (r.list ≡ []) × (3 ≤ r.places)) }
{
    let mut revokes = Revokes::new(alloc);
    revokes.reserve(3)?;
    Ok(revokes)
}

/// No semaphores: an entry for each of the root's objects, which holds none.
pub fn root_semaphores(alloc: Global) -> Result<Sems, AllocError>
    ensures { IfOk result (λ s. s.all ≡ None ∷ None ∷ None ∷ []) }
{
    let mut semaphores = Sems::new(alloc);
    semaphores.reserve(3)?;
    for _object in 0..3u32 {
        semaphores.room_for_ec()?;
        semaphores.add(None);
    }
    Ok(semaphores)
}

/// No stir counts of virtual CPUs: an entry for each of the root's objects, which has none.
pub fn root_guests(alloc: Global) -> Result<StirCounts, AllocError>
    ensures { IfOk result (λ g. g.counts ≡ None ∷ None ∷ None ∷ []) }
{
    let mut guests = StirCounts::new(alloc);
    guests.reserve(3)?;
    guests.add(None);
    guests.add(None);
    guests.add(None);
    Ok(guests)
}

/// The clocks of `cpus` processors at 0, and an entry for each of the root's objects, which has no deadline.
pub fn root_times(alloc: Global, cpus: u32) -> Result<Times, AllocError>
    ensures { IfOk result (λ t. t.all ≡ record { clocks = replicate cpus 0; deadlines = None ∷ None ∷ None ∷ []; alarms = [] }) }
{
    let mut times = Times::new(alloc, cpus)?;
    for _object in 0..3u32 {
        times.room_for_ec()?;
        times.add();
    }
    Ok(times)
}
