ghost use Rattle.std.specs.Prelude.{◌≡◌, ◌^◌, ◌-◌, ◌<◌, ◌≤◌, length, vec_len, vec_capacity, true, false, OnOk, OnErr};
ghost use Rattle.std.specs.List.{AllByRecursion};
ghost use Rattle.nova_model.specs.Capabilities.{is_held, target_of};
ghost use Rattle.nova_model.specs.Creation.{with_object, first_state, object_of, context_of, transfer_of, identifier_of, count_of, stir_count_of, words_of};
ghost use Rattle.nova_model.specs.Deeds.{is_making};
ghost use Rattle.nova_turn.specs.Parts.{state_of, HasRoom, HasRoomFor};
ghost use Rattle.nova_deeds.specs.Counted.{AreTables, IsNumbered};
ghost use Rattle.law_turns.specs.Tables.{Refers};
ghost use Rattle.nova_choice.specs.Schedules.{FitsQueues, HasQueue, joined};

use crate::parts::Parts;
use nova_choice::enqueue;
use nova_deeds::StirCounts;
use nova_deeds::items::NO_TRANSFER;
use nova_ec::Ecs;
use nova_model::{Deed, EcKind, EcState, NewObject, Object, Rights, State, Transfer};
use nova_range::Target;
use nova_sem::Sems;
use nova_times::Times;
use nova_utcb::Utcb;
use rv_core::Regs;
use std::alloc::AllocError;

/// The target that `object` is, as rights go by it.
fn target_of(object: Object) -> Target
    ensures { result ≡ target_of object }
{
    match object {
        Object::Pd => Target::Pd,
        Object::Ec { .. } => Target::Ec,
        Object::Sc { .. } => Target::Sc,
        Object::Pt { .. } => Target::Pt,
        Object::Sm => Target::Sm,
    }
}

/// How an execution context of `kind` begins: a local thread waits for a caller.
fn first_state(kind: EcKind) -> State
    ensures { result ≡ first_state kind }
{
    match kind {
        EcKind::Local => State::Parked,
        EcKind::Global | EcKind::Vcpu => State::Fresh,
    }
}

/// The object that is made as `new`.
fn object_of(new: NewObject) -> Object
    ensures { result ≡ object_of new }
{
    match new {
        NewObject::Pd => Object::Pd,
        NewObject::Ec {
            pd,
            cpu,
            kind,
            event,
            ..
        } => Object::Ec {
            pd,
            cpu,
            kind,
            event,
        },
        NewObject::Sc {
            ec,
            cpu,
            priority,
            quantum,
        } => Object::Sc {
            ec,
            cpu,
            priority,
            quantum,
        },
        NewObject::Pt { ec, mtd, ip } => Object::Pt { ec, mtd, ip },
        NewObject::Sm { .. } => Object::Sm,
    }
}

/// The execution context of `number` at birth, where `new` is one.
fn context_of(number: u32, new: NewObject) -> Option<EcState>
    ensures { result ≡ context_of number new }
{
    match new {
        NewObject::Ec { cpu, kind, sp, .. } => Some(EcState {
            id: number,
            cpu,
            state: first_state(kind),
            regs: Regs::new(0, sp),
            caller: None,
            recall: false,
        }),
        _ => None,
    }
}

/// The progress with items that a new `object` begins with: none yet for an execution context; nothing for any other object.
fn transfer_of(object: Object) -> Option<Transfer>
    ensures { result ≡ transfer_of object }
{
    match object {
        Object::Ec { .. } => Some(NO_TRANSFER),
        _ => None,
    }
}

/// The message words that `object` begins with: all 0 for a thread, none for any other object.
fn words_of(object: Object) -> Option<Utcb>
    ensures { result ≡ words_of object }
{
    match object {
        Object::Ec {
            kind: EcKind::Local | EcKind::Global,
            ..
        } => Some(Utcb::new()),
        _ => None,
    }
}

/// The stir count that `object` begins with: 0 for a virtual CPU, none for any other object.
fn stir_count_of(object: Object) -> Option<u64>
    ensures { result ≡ stir_count_of object }
{
    match object {
        Object::Ec {
            kind: EcKind::Vcpu,
            ..
        } => Some(0),
        _ => None,
    }
}

/// The identifier that `new` begins with, where it is a portal.
fn identifier_of(new: NewObject) -> Option<u32>
    ensures { result ≡ identifier_of new }
{
    match new {
        NewObject::Pt { .. } => Some(0),
        _ => None,
    }
}

/// The counter that `new` begins with, where it is a semaphore.
fn count_of(new: NewObject) -> Option<u32>
    ensures { result ≡ count_of new }
{
    match new {
        NewObject::Sm { count } => Some(count),
        _ => None,
    }
}

/// Makes room for one more object among the execution contexts, with how far they are with items, and the
/// identifiers of portals.
fn reserve_entries(
    contexts: &mut Ecs,
    transfers: &mut Vec<Option<Transfer>>,
    identifiers: &mut Vec<Option<u32>>,
) -> Result<(), AllocError>
    ensures contexts { contexts.new.items ≡ contexts.old.items }
    ensures transfers { transfers.new.items ≡ transfers.old.items }
    ensures identifiers { identifiers.new.items ≡ identifiers.old.items }
    ensures context { OnOk result (0 < contexts.new.spare) }
    ensures transfer { OnOk result (vec_len transfers.new < vec_capacity transfers.new) }
    ensures identifier { OnOk result (vec_len identifiers.new < vec_capacity identifiers.new) }
{
    contexts.reserve(1)?;
    transfers.reserve(1)?;
    identifiers.reserve(1)?;
    Ok(())
}

/// Makes room for one more object among the semaphores, at which it may wait to a deadline, and the stir counts of
/// virtual CPUs.
fn reserve_counts(
    semaphores: &mut Sems,
    times: &mut Times,
    guests: &mut StirCounts,
) -> Result<(), AllocError>
    requires semaphores { length semaphores.old.all < 2 ^ 32 - 1 }
    requires deadlines { length times.old.all.deadlines < 2 ^ 32 - 1 }
    ensures semaphores { semaphores.new.all ≡ semaphores.old.all }
    ensures times { times.new.all ≡ times.old.all }
    ensures alarms { times.old.spare ≤ times.new.spare }
    ensures guests { guests.new.counts ≡ guests.old.counts }
    ensures semaphore { OnOk result (0 < semaphores.new.spare) }
    ensures waiting { OnOk result (length semaphores.new.all < semaphores.new.contexts) }
    ensures deadline { OnOk result (length times.new.all.deadlines < times.new.contexts) }
    ensures guest { OnOk result (0 < guests.new.spare) }
{
    semaphores.reserve(1)?;
    semaphores.room_for_ec()?;
    times.room_for_ec()?;
    guests.reserve(1)?;
    Ok(())
}

impl Parts {
    /// Makes room for one more object and its capability, which the protection domain `domain` holds.
    pub(crate) fn reserve(&mut self, domain: u32) -> Result<(), AllocError>
        requires objects { length (state_of self.old).objects < 2 ^ 32 }
        requires numbers { length (state_of self.old).semaphores < 2 ^ 32 - 1 }
        requires deadlines { length (state_of self.old).times.deadlines < 2 ^ 32 - 1 }
        ensures shown { state_of self.new ≡ state_of self.old }
        ensures queues { self.new.queues ≡ self.old.queues }
        ensures log { self.new.reach.room ≡ self.old.reach.room }
        ensures revokes { self.new.revokes.list ≡ self.old.revokes.list }
        ensures places { self.old.revokes.places ≤ self.new.revokes.places }
        ensures alarms { self.old.times.spare ≤ self.new.times.spare }
        ensures room { OnOk result (HasRoom domain self.new) }
    {
        self.objects.reserve(1)?;
        self.reach.reserve(domain)?;
        self.reach.reserve_message()?;
        reserve_entries(
            &mut self.contexts,
            &mut self.transfers,
            &mut self.identifiers,
        )?;
        reserve_counts(&mut self.semaphores, &mut self.times, &mut self.guests)?;
        self.revokes.reserve(self.objects.len() + 1)?;
        Ok(())
    }

    /// Makes room for what `deed`, of an execution context of the protection domain `domain`, makes: for a child, and for an object and its
    /// capability; for a protection domain a space of its own too, and for a scheduling context a place in the queue of its processor.
    #[inline(always)]
    pub(crate) fn make_room(&mut self, domain: u32, deed: Deed) -> Result<(), AllocError>
        requires objects { length (state_of self.old).objects < 2 ^ 32 }
        requires numbers { length (state_of self.old).semaphores < 2 ^ 32 - 1 }
        requires deadlines { length (state_of self.old).times.deadlines < 2 ^ 32 - 1 }
        requires queue { FitsQueues deed self.old.queues.all }
        ensures shown { state_of self.new ≡ state_of self.old }
        ensures queues { self.new.queues.all ≡ self.old.queues.all }
        ensures log { self.new.reach.room ≡ self.old.reach.room }
        ensures revokes { self.new.revokes.list ≡ self.old.revokes.list }
        ensures places { self.old.revokes.places ≤ self.new.revokes.places }
        ensures room { OnOk result (HasRoomFor domain deed self.new) }
        ensures making { OnErr result (is_making deed ≡ true) }
    {
        match deed {
            Deed::Opens { .. }
            | Deed::Makes {
                new: NewObject::Pd,
                ..
            } => {
                self.reserve(domain)?;
                self.reach.add_domain(self.objects.len() as u32)
            }
            Deed::Makes {
                new: NewObject::Sc { cpu, .. },
                ..
            } => {
                self.reserve(domain)?;
                self.queues.reserve(self.objects.len() as u32, cpu)
            }
            Deed::Makes { .. } => self.reserve(domain),
            Deed::Gives { child, .. } => self.reach.reserve(child.pd),
            _ => Ok(()),
        }
    }

    /// Adds the object `new`, of the next number, and its capability to `pd` at `selector`, in the room that was made.
    #[tactic(auto, using(nova_deeds::proofs::Added::added))]
    pub(crate) fn add_object(&mut self, pd: u32, selector: u32, new: NewObject)
        requires room { HasRoom pd self.old }
        requires queue { HasQueue new (length self.old.objects.items) self.old.queues }
        requires few { length self.old.queues.all.entries ≤ length self.old.objects.items }
        requires stamp { self.old.queues.all.next_stamp < 2 ^ 64 - 1 }
        requires numbered { IsNumbered (2 ^ 31) (state_of self.old) }
        requires tables { AreTables (state_of self.old) }
        requires refer { AllByRecursion (Refers (state_of self.old).objects) (state_of self.old).objects }
        requires selector { selector < 2 ^ 20 }
        requires free { is_held (state_of self.old) pd selector ≡ false }
        ensures added { state_of self.new ≡ with_object (state_of self.old) pd selector new }
        ensures joined { self.new.queues.all ≡ joined (state_of self.old).contexts self.old.queues.all (length (state_of self.old).objects) new }
        ensures revokes { self.new.revokes ≡ self.old.revokes }
        ensures alarms { self.new.times.spare ≡ self.old.times.spare }
        ensures log { self.new.reach.room ≡ self.old.reach.room }
    {
        let object = object_of(new);
        let rights = Rights::all_to(target_of(object));
        let number = self.objects.len() as u32;
        let context = context_of(number, new);
        enqueue(&mut self.queues, &self.contexts, number, new);
        self.reach.add_capability(pd, selector, rights, number);
        self.objects.add(object);
        self.contexts.add(context);
        self.reach.add_message(words_of(object));
        self.transfers.push_reserved(transfer_of(object));
        self.identifiers.push_reserved(identifier_of(new));
        self.semaphores.add(count_of(new));
        self.times.add();
        self.guests.add(stir_count_of(object));
    }
}
