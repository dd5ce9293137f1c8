ghost use Rattle.std.specs.Prelude.{◌≡◌, ◌+◌, ◌^◌, ◌<◌, ◌≤◌, ℕ, None, List, Option, replicate, false, Some, IsSome, IfSome};
ghost use Rattle.std.specs.Bool.{OnTrue};
ghost use Rattle.nova_model.specs.Choice.{Candidate, choice};
ghost use Rattle.nova_model.specs.Runs.{run, trace};
ghost use Rattle.nova_choice.specs.declared.choice.Chosen.{Chosen};
ghost use Rattle.law_leases.specs.Advances.{step_of};
ghost use Rattle.nova_turn.specs.Known.{AreKnown};
ghost use Rattle.nova_sched.specs.Queues as queues;
ghost use Rattle.nova_sched.specs.Queues.{queued_at};
ghost use Rattle.nova_choice.specs.Choices.{chosen_of};
ghost use Rattle.nova_choice.specs.Schedules.{AreQueued};
ghost use Rattle.nova_turn.specs.Counted.{IsCounted, IsToBeCharged};
ghost use Rattle.law_turns.specs.Moments.{IsEarly};
ghost use Rattle.nova_kernel.specs.Rides.{IsBeside, IsHalted, IsLater, IsNext, IsStepping, MayCount, Raises, after_turns, beside, step_by, without_counts};
ghost use Rattle.nova_model.specs.State.{KernelState, context, context_at};
ghost use Rattle.law_leases.specs.Rides.{rides};
ghost use Rattle.nova_turn.specs.Beside.{IsEntered, with_regs};
ghost use Rattle.nova_turn.specs.Parts.{state_of};
ghost use Rattle.nova_turn.specs.Revoking.{AreRunning};
ghost use Rattle.nova_turn.specs.StoresSeen.{AreSeersOf};
ghost use Rattle.law_leases.specs.Paging.{charged_times};

use nova_choice::Chosen;
use nova_model::{Event, EventKind, State};
use nova_turn::{Parts, Raised, Seers};
use rv_core::Regs;
use rv_core::outcome::Outcome;

/// Turns of a processor that were taken at once: the event that each of them has, and how many they are. There is an event where
/// the processor has a choice, even where none was taken so.
#[derive(Clone, Copy)]
pub struct StepsTaken {
    pub event: Option<Event>,
    pub count: u64,
}

/// What instructions came to that were tried one after another: how many went on, and what the next one raised, where one was tried.
#[derive(Clone, Copy)]
pub(crate) struct Ridden {
    pub count: u64,
    pub raised: Option<Raised>,
}

/// No instruction was tried.
pub(crate) fn none_tried() -> Ridden
    ensures count { result.count ≡ 0 }
    ensures raised { result.raised ≡ None }
{
    Ridden {
        count: 0,
        raised: None,
    }
}

/// The event of a plain step of the one who acts, paid by the chosen scheduling context.
pub(crate) fn plain_step(cpu: u32, chosen: Chosen) -> Event
    ensures { result ≡ step_by cpu chosen }
{
    Event {
        cpu,
        sc: chosen.sc,
        ec: chosen.actor,
        kind: EventKind::Step,
        a: 0,
        b: 0,
    }
}

/// Instructions of an execution context whose address space was entered, on registers that lie beside the table: at most so many, one
/// after another while they go on, with the store of each counted for the other virtual CPUs that could see it. No turn is charged.
#[inline(never)]
fn ride_beside(parts: &mut Parts, ec: u32, regs: &mut Regs, seers: &mut Seers, most: u64) -> Ridden
    requires there { IsSome (context_at (state_of parts.old) ec) }
    requires entered { IsEntered parts.old ec }
    requires log { most ≤ parts.old.reach.room }
    requires fresh { parts.old.reach.written ≡ None }
    requires seers { AreSeersOf (state_of parts.old) ec seers.old }
    requires counts { (n : ℕ) (m : KernelState) → n < most → rides n (with_regs (state_of parts.old) ec regs.old) ec ≡ Some m → MayCount m }
    ensures most { result.count ≤ most }
    ensures raised { IfSome result.raised (λ r. (result.count < most) × Raises (with_regs (state_of parts.new) ec regs.new) ec r) }
    ensures all { result.raised ≡ None → result.count ≡ most }
    ensures rides { rides result.count (with_regs (state_of parts.old) ec regs.old) ec ≡ Some (with_regs (state_of parts.new) ec regs.new) }
    ensures fresh { result.raised ≡ None → parts.new.reach.written ≡ None }
    ensures seers { AreSeersOf (state_of parts.new) ec seers.new }
    ensures entered { IsEntered parts.new ec }
    ensures contexts { parts.new.contexts ≡ parts.old.contexts }
    ensures queues { parts.new.queues ≡ parts.old.queues }
    ensures revokes { parts.new.revokes ≡ parts.old.revokes }
    ensures log { parts.old.reach.room ≤ parts.new.reach.room + result.count }
{
    let mut left = most;
    while left > 0 {
        match parts.step_beside(ec, regs, seers) {
            Outcome::Next => left -= 1,
            Outcome::Raise { reason, q0, q1 } => {
                return Ridden {
                    count: most - left,
                    raised: Some(Raised { reason, q0, q1 }),
                };
            }
        }
    }
    Ridden {
        count: most,
        raised: None,
    }
}

/// Whether an execution context is about to take an instruction.
pub(crate) fn is_stepping(parts: &Parts, ec: u32) -> bool
    requires { IsSome (context_at (state_of parts.now) ec) }
    ensures ready { OnTrue result ((context (state_of parts.now) ec).state ≡ State.Ready) }
    ensures recall { OnTrue result ((context (state_of parts.now) ec).recall ≡ false) }
{
    let context = parts.contexts.context(ec);
    matches!(context.state, State::Ready) && !context.recall
}

/// The least of three: how many there may be, what is left of a quantum, and how many turns are left until something is due.
pub(crate) fn turns_before(most: u64, left: u32, until: Option<u64>) -> u64
    ensures most { result ≤ most }
    ensures left { result ≤ left }
    ensures until { IfSome until (λ turns. result ≤ turns) }
{
    let within = most.min(u64::from(left));
    match until {
        Some(turns) => within.min(turns),
        None => within,
    }
}

/// How many turns may be taken at once: at most so many, what is left of the quantum, and what is left until something is due.
fn turns_at_once(parts: &Parts, cpu: u32, sc: u32, most: u64) -> u64
    requires { IsSome (queued_at parts.now.queues.all sc) }
    ensures most { result ≤ most }
    ensures left { IfSome (queued_at parts.now.queues.all sc) (λ e. result ≤ e.budget.left) }
    ensures early { IsEarly (state_of parts.now).times cpu result }
{
    turns_before(most, parts.queues.left(sc), parts.times.until_due(cpu))
}

/// Whether the next turn of a processor is still one of this scheduling context's, in which the same one acts.
fn is_still_chosen(parts: &Parts, known: &[Option<Chosen>], cpu: u32, chosen: Chosen) -> bool
    requires queued { AreQueued (state_of parts.now) parts.now.queues.all }
    requires known { AreKnown (state_of parts.now) known.now }
    ensures { OnTrue result (IsNext parts.now cpu chosen) }
{
    match parts.choice(cpu, known) {
        Some(next) => next.sc == chosen.sc && next.actor == chosen.actor,
        None => false,
    }
}

/// Plain steps on registers that lie beside the table, as many as instructions go on one after another: at most so many, all of one quantum
/// and before anything is due. They are charged.
fn ride_quantum(
    parts: &mut Parts,
    cpu: u32,
    chosen: Chosen,
    regs: &mut Regs,
    seers: &mut Seers,
    most: u64,
) -> Ridden
    requires beside { IsBeside parts.old chosen regs.old }
    requires fresh { parts.old.reach.written ≡ None }
    requires seers { AreSeersOf (state_of parts.old) chosen.actor seers.old }
    requires next { IsNext parts.old cpu chosen }
    requires left { IfSome (queued_at parts.old.queues.all chosen.sc) (λ e. most ≤ e.budget.left) }
    requires early { IsEarly (state_of parts.old).times cpu most }
    requires cpu { cpu < parts.old.cpus }
    requires turns { parts.old.turns + most ≤ 2 ^ 31 }
    requires log { most ≤ parts.old.reach.room }
    ensures most { result.count ≤ most }
    ensures halted { IfSome result.raised (λ r. (result.count < most) × IsHalted (beside parts.new chosen regs.new) cpu chosen r) }
    ensures all { result.raised ≡ None → result.count ≡ most }
    ensures fresh { result.raised ≡ None → parts.new.reach.written ≡ None }
    ensures seers { AreSeersOf (state_of parts.new) chosen.actor seers.new }
    ensures beside { IsBeside parts.new chosen regs.new }
    ensures later { IsLater parts.old regs.old parts.new regs.new cpu chosen result.count }
{
    law_turns::turns_keep_what_they_find();
    let ridden = ride_beside(parts, chosen.actor, regs, seers, most);
    charge_times(parts, cpu, chosen.sc, ridden.count);
    ridden
}

/// Plain steps on registers that lie beside the table, at most so many, quantum by quantum while the same one acts, paid by the same
/// scheduling context, and nothing is due.
fn ride_quanta(
    parts: &mut Parts,
    known: &[Option<Chosen>],
    cpu: u32,
    chosen: Chosen,
    regs: &mut Regs,
    seers: &mut Seers,
    most: u64,
) -> Ridden
    requires beside { IsBeside parts.old chosen regs.old }
    requires fresh { parts.old.reach.written ≡ None }
    requires seers { AreSeersOf (state_of parts.old) chosen.actor seers.old }
    requires next { IsNext parts.old cpu chosen }
    requires known { AreKnown (state_of parts.old) known.now }
    requires cpu { cpu < parts.old.cpus }
    requires turns { parts.old.turns + most ≤ 2 ^ 31 }
    requires log { most ≤ parts.old.reach.room }
    ensures most { result.count ≤ most }
    ensures halted { IfSome result.raised (λ r. (result.count < most) × IsHalted (beside parts.new chosen regs.new) cpu chosen r) }
    ensures beside { IsBeside parts.new chosen regs.new }
    ensures later { IsLater parts.old regs.old parts.new regs.new cpu chosen result.count }
{
    let mut count = 0;
    while count < most {
        let quantum = turns_at_once(parts, cpu, chosen.sc, most - count);
        let ridden = ride_quantum(parts, cpu, chosen, regs, seers, quantum);
        count += ridden.count;
        if ridden.raised.is_some()
            || ridden.count == 0
            || !is_still_chosen(parts, known, cpu, chosen)
        {
            return Ridden {
                count,
                raised: ridden.raised,
            };
        }
    }
    Ridden {
        count,
        raised: None,
    }
}

/// As many turns of a processor as instructions of the one who acts there go on one after another, at most so many, at once: quantum
/// by quantum, while the same one acts, paid by the same scheduling context, and nothing is due. Where the next instruction raises,
/// its turn is the one that comes next.
pub(crate) fn quanta(
    parts: &mut Parts,
    known: &[Option<Chosen>],
    cpu: u32,
    chosen: Chosen,
    most: u64,
) -> Ridden
    requires counted { IsCounted (state_of parts.old) }
    requires queued { AreQueued (state_of parts.old) parts.old.queues.all }
    requires running { AreRunning (state_of parts.old) parts.old.revokes }
    requires next { IsNext parts.old cpu chosen }
    requires acts { IsStepping (state_of parts.old) chosen.actor }
    requires known { AreKnown (state_of parts.old) known.now }
    requires cpu { cpu < parts.old.cpus }
    requires turns { parts.old.turns + most ≤ 2 ^ 31 }
    requires log { most ≤ parts.old.reach.room }
    ensures most { result.count ≤ most }
    ensures halted { IfSome result.raised (λ r. (result.count < most) × IsHalted (state_of parts.new) cpu chosen r) }
    ensures state { state_of parts.new ≡ after_turns (state_of parts.old) cpu result.count }
    ensures events { trace (state_of parts.old) (replicate result.count cpu) ≡ replicate result.count (step_by cpu chosen) }
    ensures known { (known : List (Option Chosen)) → AreKnown (state_of parts.old) known → AreKnown (state_of parts.new) known }
    ensures queued { AreQueued (state_of parts.new) parts.new.queues.all }
    ensures counted { IsCounted (state_of parts.new) }
    ensures running { AreRunning (state_of parts.new) parts.new.revokes }
    ensures turns { parts.new.turns ≡ parts.old.turns + result.count }
    ensures cpus { parts.new.cpus ≡ parts.old.cpus }
    ensures log { parts.old.reach.room ≤ parts.new.reach.room + result.count }
{
    parts.enter(chosen.actor);
    let mut regs = parts.contexts.context(chosen.actor).regs;
    let mut seers = Seers::none();
    let ridden = ride_quanta(parts, known, cpu, chosen, &mut regs, &mut seers, most);
    parts.contexts.set_regs(chosen.actor, &regs);
    ridden
}

/// Charges `count` turns of the processor `cpu`, at most what is left of the quantum, to the scheduling context `sc`.
pub(crate) fn charge_times(parts: &mut Parts, cpu: u32, sc: u32, count: u64)
    requires charged { IsToBeCharged (without_counts (state_of parts.old)) }
    requires queued { AreQueued (state_of parts.old) parts.old.queues.all }
    requires turns { parts.old.turns + count ≤ 2 ^ 31 }
    requires cpu { cpu < parts.old.cpus }
    requires there { IsSome (queues.queued_at parts.old.queues.all sc) }
    requires left { IfSome (queues.queued_at parts.old.queues.all sc) (λ e. count ≤ e.budget.left) }
    ensures charged { state_of parts.new ≡ charged_times count (state_of parts.old) cpu sc }
    ensures queued { AreQueued (state_of parts.new) parts.new.queues.all }
    ensures there { IsSome (queues.queued_at parts.new.queues.all sc) }
    ensures turns { parts.new.turns ≡ parts.old.turns + count }
    ensures cpus { parts.new.cpus ≡ parts.old.cpus }
    ensures revokes { parts.new.revokes ≡ parts.old.revokes }
    ensures reach { parts.new.reach ≡ parts.old.reach }
{
    if count == 0 {
        return;
    }
    parts.queues.spend(sc, (count - 1) as u32);
    parts.queues.charge(sc);
    parts.turns += count;
    parts.times.pass(cpu, count);
}
