ghost use Rattle.std.specs.Prelude.{◌≡◌, IsSome, IfSome, option_map, ◌+◌, ◌^◌, ◌<◌, ◌≤◌, replicate, None, Some, IfOk, OnOk, OnErr};
ghost use Rattle.std.specs.Bool.{OnTrue};
ghost use Rattle.nova_model.specs.Choice.{next_to_act, choice};
ghost use Rattle.nova_model.specs.State.{context_at};
ghost use Rattle.nova_choice.specs.Choices.{chosen_of};
ghost use Rattle.nova_choice.specs.Schedules.{AreQueued};
ghost use Rattle.nova_turn.specs.Known.{AreKnown};
ghost use Rattle.nova_turn.specs.Parts.{state_of};
ghost use Rattle.nova_kernel.specs.Known.{known_after};
ghost use Rattle.nova_model.specs.Runs.{run, trace};
ghost use Rattle.nova_model.specs.Turn.{turn, state_after, answer_of};
ghost use Rattle.law_leases.specs.Advances.{step_of};
ghost use Rattle.nova_kernel.specs.Rides.{IsHalted, after_turns, last_turns, step_by};
ghost use Rattle.nova_kernel.specs.Views.{IsMaking, IsTurnTaken};

use crate::kernel::Kernel;
use crate::riding::{Ridden, StepsTaken, is_stepping, none_tried, plain_step, quanta};
use nova_choice::Chosen;
use nova_model::{Event, EventKind, Turn};
use nova_turn::{Parts, Raised};
use std::alloc::AllocError;

/// Keeps in `known` what is known after `turn`: an instruction that went on leaves all choices, and its own is
/// known then. Any other deed may lead turns elsewhere, so that nothing is known.
pub fn keep(known: &mut [Option<Chosen>; 8], turn: &Turn)
    ensures { known.new ≡ known_after turn.now known.old }
{
    let Turn::Stepped(event) = turn else {
        return;
    };
    match event.kind {
        EventKind::Step => {
            if event.cpu < 8 {
                known[event.cpu as usize] = Some(Chosen {
                    sc: event.sc,
                    actor: event.ec,
                });
            }
        }
        _ => *known = [None; 8],
    }
}

/// The scheduling context that the next turn of the processor `cpu` is charged to, and the context that acts in it; none where something is due or
/// nothing is runnable.
pub fn next_to_act(parts: &Parts, cpu: u32, known: &[Option<Chosen>]) -> Option<Chosen>
    requires queued { AreQueued (state_of parts.now) parts.now.queues.all }
    requires known { AreKnown (state_of parts.now) known.now }
    ensures next { result ≡ option_map chosen_of (next_to_act (state_of parts.now) cpu) }
    ensures acts { IfSome result (λ c. IsSome (context_at (state_of parts.now) c.actor)) }
{
    if parts.times.is_due(cpu) {
        None
    } else {
        parts.choice(cpu, known)
    }
}

/// Turns of a processor that were taken in one call: plain steps, and after them perhaps a turn of any kind.
#[derive(Drop)]
pub struct TurnsTaken {
    pub steps: StepsTaken,
    /// The turn behind the plain steps, where one was tried: it refuses as `Kernel::turn`.
    pub last: Option<Result<Turn, AllocError>>,
}

impl Kernel {
    /// Instructions of the one who is chosen on a processor, each a turn of it, at most so many: quantum by quantum, as long as it is this one
    /// who is chosen, and nothing is due.
    fn ride_on(&mut self, cpu: u32, chosen: Chosen, most: u64) -> Ridden
        requires cpu { cpu < self.old.state.cpus }
        requires room { most ≤ self.old.room }
        requires turns { self.old.state.turns + most ≤ 2 ^ 31 }
        requires told { Some chosen ≡ option_map chosen_of (choice self.old.state cpu) }
        ensures most { result.count ≤ most }
        ensures state { self.new.state ≡ after_turns self.old.state cpu result.count }
        ensures events { trace self.old.state (replicate result.count cpu) ≡ replicate result.count (step_by cpu chosen) }
        ensures halted { IfSome result.raised (λ r. (result.count < most) × IsHalted self.new.state cpu chosen r) }
        ensures room { self.old.room ≤ self.new.room + result.count }
        ensures counted { self.new.state.turns ≡ self.old.state.turns + result.count }
        ensures cpus { self.new.state.cpus ≡ self.old.state.cpus }
    {
        if !is_stepping(&self.parts, chosen.actor) {
            return none_tried();
        }
        quanta(&mut self.parts, &self.known, cpu, chosen, most)
    }

    /// The turn of the one who is chosen on a processor, where nothing is due and the instruction that is next raised this. It refuses as `turn`.
    fn settle(&mut self, cpu: u32, chosen: Chosen, raised: Raised) -> Result<Turn, AllocError>
        requires cpu { cpu < self.old.state.cpus }
        requires room { 0 < self.old.room }
        requires turns { self.old.state.turns < 2 ^ 31 }
        requires halted { IsHalted self.old.state cpu chosen raised }
        ensures { IsTurnTaken self.old self.new cpu result }
    {
        law_leases::laws::what_bursts_stand_on_is_kept();
        let turn = self.parts.settle(cpu, chosen, Some(raised))?;
        keep(&mut self.known, &turn);
        Ok(turn)
    }

    /// The event of a plain step in a processor's next turn, unless something is due there: the chosen scheduling context pays, and the
    /// execution context to which its turns lead acts. None where none is chosen.
    pub fn plain_step(&self, cpu: u32) -> Option<Event>
        ensures { result ≡ option_map (step_of cpu) (choice self.now.state cpu) }
    {
        let chosen = self.parts.choice(cpu, &self.known)?;
        Some(plain_step(cpu, chosen))
    }

    /// Takes at most `most` turns of the processor `cpu` in one call: plain steps, as many as instructions of the execution context that acts there go on
    /// one after another, through several quanta as long as the same one is chosen, and nothing is due; and where the next instruction raises, or none
    /// could be taken so, the turn that comes next, which may be idle. Where that is refused memory, the plain steps were taken. Needs spare log
    /// for them all; with the turns taken before they are at most 2^31.
    #[inline(always)]
    pub fn take_turns(&mut self, cpu: u32, most: u64) -> TurnsTaken
        requires cpu { cpu < self.old.state.cpus }
        requires some { 0 < most }
        requires room { most ≤ self.old.room }
        requires turns { self.old.state.turns + most ≤ 2 ^ 31 }
        ensures most { result.steps.count ≤ most }
        ensures event { result.steps.event ≡ option_map (step_of cpu) (choice self.old.state cpu) }
        ensures none { result.steps.event ≡ None → result.steps.count ≡ 0 }
        ensures events { IfSome result.steps.event (λ e. trace self.old.state (replicate result.steps.count cpu) ≡ replicate result.steps.count e) }
        ensures some { result.last ≡ None → 0 < result.steps.count }
        ensures fewer { IfSome result.last (λ l. result.steps.count < most) }
        ensures alone { result.last ≡ None → self.new.state ≡ after_turns self.old.state cpu result.steps.count }
        ensures answer { IfSome result.last (λ l. IfOk l (λ t. t ≡ answer_of (turn (after_turns self.old.state cpu result.steps.count) cpu))) }
        ensures state { IfSome result.last (λ l. OnOk l (self.new.state ≡ state_after (after_turns self.old.state cpu result.steps.count) (turn (after_turns self.old.state cpu result.steps.count) cpu))) }
        ensures memory { IfSome result.last (λ l. OnErr l (self.new.state ≡ after_turns self.old.state cpu result.steps.count)) }
        ensures making { IfSome result.last (λ l. OnErr l (IsMaking (after_turns self.old.state cpu result.steps.count) cpu)) }
        ensures room { self.old.room ≤ self.new.room + (result.steps.count + last_turns result.last) }
        ensures counted { self.new.state.turns ≡ self.old.state.turns + (result.steps.count + last_turns result.last) }
        ensures cpus { self.new.state.cpus ≡ self.old.state.cpus }
    {
        let Some(chosen) = self.parts.choice(cpu, &self.known) else {
            let steps = StepsTaken {
                event: None,
                count: 0,
            };
            let last = Some(self.turn(cpu));
            return TurnsTaken { steps, last };
        };
        let event = Some(plain_step(cpu, chosen));
        let Ridden { count, raised } = self.ride_on(cpu, chosen, most);
        let steps = StepsTaken { event, count };
        if let Some(raised) = raised {
            let last = Some(self.settle(cpu, chosen, raised));
            return TurnsTaken { steps, last };
        }
        if count == 0 {
            let last = Some(self.turn(cpu));
            return TurnsTaken { steps, last };
        }
        TurnsTaken { steps, last: None }
    }
}
