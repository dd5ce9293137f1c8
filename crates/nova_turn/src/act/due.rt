ghost use Rattle.std.specs.Prelude.{◌≡◌, ◌^◌, ◌<◌, true, slice_get, Some, None, Ok, IsSome, IfSome, option_map};
ghost use Rattle.nova_model.specs.Choice.{choice};
ghost use Rattle.nova_model.specs.State.{context_at};
ghost use Rattle.nova_model.specs.Semaphores.{semaphore, upped, woken};
ghost use Rattle.nova_model.specs.Times.{due_on, goes_on, rung};
ghost use Rattle.nova_model.specs.Turn.{event_without, status_of, what_is_due, whom_of};
ghost use Rattle.nova_model.specs.declared.times.Due.TheVariants as due;
ghost use Rattle.nova_choice.specs.Choices.{chosen_of};
ghost use Rattle.nova_choice.specs.Schedules.{AreQueued};
ghost use Rattle.nova_deeds.specs.Counted.{IsCounted};
ghost use Rattle.nova_deeds.specs.Passing.{fallen};
ghost use Rattle.nova_turn.specs.Going.{AreInStep, KeepsRest};
ghost use Rattle.nova_turn.specs.Parts.{state_of, view_of};
ghost use Rattle.nova_turn.specs.Views.{IsTurnTaken};

use crate::parts::Parts;
use nova_model::{Due, Event, EventKind, Overflow, Turn};
use nova_range::Status;

/// The event of a turn in which no execution context acts, and none is charged.
fn event_without(cpu: u32, ec: u32, kind: EventKind, a: u32, b: u32) -> Event
    ensures { result ≡ event_without cpu ec kind a b }
{
    Event {
        cpu,
        sc: 0,
        ec,
        kind,
        a,
        b,
    }
}

/// Whom an up wakes, if anyone.
fn whom_of(up: Result<Option<u32>, Overflow>) -> Option<u32>
    ensures { result ≡ whom_of up }
{
    match up {
        Ok(whom) => whom,
        Err(_) => None,
    }
}

/// The status of an up, as a number.
fn status_of(up: Result<Option<u32>, Overflow>) -> u32
    ensures { result ≡ status_of up }
{
    match up {
        Ok(_) => Status::Success.code(),
        Err(_) => Status::Overflow.code(),
    }
}

impl Parts {
    /// An alarm rings, and ups a semaphore. Who waited first doesn't go on yet.
    fn up_by(&mut self, alarm: u32, sm: u32) -> Result<Option<u32>, Overflow>
        requires there { IsSome (slice_get (state_of self.old).times.alarms alarm) }
        requires on { IfSome (slice_get (state_of self.old).times.alarms alarm) (λ a. goes_on a ≡ true) }
        ensures up { result ≡ woken (semaphore (state_of self.old).semaphores sm) }
        ensures shown { state_of self.new ≡ record (state_of self.old) {
          semaphores = upped (state_of self.old).semaphores sm;
          times = rung (state_of self.old).times alarm;
        } }
        ensures rest { KeepsRest self.old self.new }
    {
        self.times.ring(alarm);
        self.semaphores.up(sm)
    }

    /// An alarm rings: it ups its semaphore, and whom that wakes goes on.
    fn ring(&mut self, cpu: u32, alarm: u32) -> Event
        requires due { due_on (state_of self.old).times cpu ≡ Some (due.Alarm alarm) }
        requires counted { IsCounted (state_of self.old) }
        requires queued { AreQueued (state_of self.old) self.old.queues.all }
        ensures event { result ≡ (what_is_due (state_of self.old) cpu (due.Alarm alarm)).event }
        ensures state { state_of self.new ≡ fallen (state_of self.old) (due.Alarm alarm) }
        ensures queued { AreQueued (state_of self.new) self.new.queues.all }
        ensures revokes { self.new.revokes ≡ self.old.revokes }
        ensures log { self.new.reach.room ≡ self.old.reach.room }
    {
        let Some(state) = self.times.alarm(alarm) else {
            unreachable!()
        };
        let up = self.up_by(alarm, state.alarm.sm);
        let whom = whom_of(up);
        self.wake(whom);
        self.refresh(whom);
        event_without(cpu, whom.unwrap_or(0), EventKind::Irq, alarm, status_of(up))
    }

    /// A deadline comes: its execution context leaves the queue, and goes on.
    fn expire(&mut self, cpu: u32, ec: u32) -> Event
        requires due { due_on (state_of self.old).times cpu ≡ Some (due.Deadline ec) }
        requires counted { IsCounted (state_of self.old) }
        requires queued { AreQueued (state_of self.old) self.old.queues.all }
        ensures event { result ≡ (what_is_due (state_of self.old) cpu (due.Deadline ec)).event }
        ensures state { state_of self.new ≡ fallen (state_of self.old) (due.Deadline ec) }
        ensures queued { AreQueued (state_of self.new) self.new.queues.all }
        ensures revokes { self.new.revokes ≡ self.old.revokes }
        ensures log { self.new.reach.room ≡ self.old.reach.room }
    {
        let Some(deadline) = self.times.deadline(ec) else {
            unreachable!()
        };
        self.semaphores.leave(deadline.sm, ec);
        self.end_wait(ec, Status::Timeout);
        self.refresh(Some(ec));
        event_without(
            cpu,
            ec,
            EventKind::Late,
            deadline.sm,
            Status::Timeout.code(),
        )
    }

    /// What is due on a processor comes, before the turn is counted.
    fn fall(&mut self, cpu: u32, what: Due) -> Event
        requires due { due_on (state_of self.old).times cpu ≡ Some what }
        requires counted { IsCounted (state_of self.old) }
        requires queued { AreQueued (state_of self.old) self.old.queues.all }
        ensures event { result ≡ (what_is_due (state_of self.old) cpu what).event }
        ensures state { state_of self.new ≡ fallen (state_of self.old) what }
        ensures queued { AreQueued (state_of self.new) self.new.queues.all }
        ensures revokes { self.new.revokes ≡ self.old.revokes }
        ensures log { self.new.reach.room ≡ self.old.reach.room }
    {
        match what {
            Due::Alarm(alarm) => self.ring(cpu, alarm),
            Due::Deadline(ec) => self.expire(cpu, ec),
        }
    }

    /// The turn of what is due on a processor. Few turns are so, so that it stays out of the code of each.
    #[inline(never)]
    pub(crate) fn come_due(&mut self, cpu: u32) -> Turn
        requires due { IsSome (due_on (state_of self.old).times cpu) }
        requires tables { AreInStep self.old }
        requires turns { self.old.turns < 2 ^ 31 }
        requires cpu { cpu < self.old.cpus }
        ensures taken { IsTurnTaken {E = Unit {0}} (view_of self.old) (view_of self.new) cpu (Ok result) }
        ensures tables { AreInStep self.new }
        ensures log { self.new.reach.room ≡ self.old.reach.room }
    {
        law_turns::turns_keep_what_they_find();
        law_turns::running_revokes_are_their_runners();
        let Some(what) = self.times.due(cpu) else {
            unreachable!()
        };
        let event = self.fall(cpu, what);
        self.count(cpu);
        Turn::Stepped(event)
    }

    /// The turn of a processor on which nothing runs: its clock goes on where something is to come, and else it is idle.
    #[inline(never)]
    #[tactic(auto, using(nova_choice::proofs::Choosing::turn_none, nova_choice::proofs::Choosing::turn_ticks))]
    pub(crate) fn tick_on(&mut self, cpu: u32) -> Turn
        requires none_due { due_on (state_of self.old).times cpu ≡ None }
        requires none_chosen { None ≡ option_map chosen_of (choice (state_of self.old) cpu) }
        requires tables { AreInStep self.old }
        requires turns { self.old.turns < 2 ^ 31 }
        requires cpu { cpu < self.old.cpus }
        ensures taken { IsTurnTaken {E = Unit {0}} (view_of self.old) (view_of self.new) cpu (Ok result) }
        ensures tables { AreInStep self.new }
        ensures log { self.new.reach.room ≡ self.old.reach.room }
    {
        law_turns::turns_keep_what_they_find();
        if self.times.next(cpu).is_none() {
            return Turn::Idle;
        }
        self.count(cpu);
        Turn::Stepped(event_without(cpu, 0, EventKind::Tick, 0, 0))
    }
}
