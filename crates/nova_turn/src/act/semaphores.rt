ghost use Rattle.std.specs.Prelude.{◌≡◌, true, Ok, IsSome, IfSome};
ghost use Rattle.nova_model.specs.Deeds.{ended_wait, performed, woken_in};
ghost use Rattle.nova_model.specs.Edges.{acts};
ghost use Rattle.nova_model.specs.Semaphores.{answer_of, semaphore, woken};
ghost use Rattle.nova_model.specs.State.{context_at};
ghost use Rattle.nova_model.specs.declared.semaphore.Down.{Down};
ghost use Rattle.nova_deeds.specs.Counted.{IsCounted};
ghost use Rattle.nova_turn.specs.Going.{KeepsRest};
ghost use Rattle.nova_turn.specs.Parts.{state_of};

use crate::parts::Parts;
use nova_ec::State;
use nova_model::{Deadline, Deed};
use nova_range::Status;

impl Parts {
    /// Ends the wait of `ec` at a semaphore: it goes on with `status`, and has no deadline.
    pub(crate) fn end_wait(&mut self, ec: u32, status: Status)
        requires there { IsSome (context_at (state_of self.old) ec) }
        ensures ended { state_of self.new ≡ ended_wait (state_of self.old) ec status }
        ensures rest { KeepsRest self.old self.new }
    {
        self.contexts.answer(ec, status, None);
        self.times.clear_deadline(ec);
    }

    /// Lets `whom` go on, if an execution context is woken at a semaphore.
    pub(crate) fn wake(&mut self, whom: Option<u32>)
        requires there { IfSome whom (λ ec. IsSome (context_at (state_of self.old) ec)) }
        ensures woken { state_of self.new ≡ woken_in (state_of self.old) whom }
        ensures rest { KeepsRest self.old self.new }
    {
        if let Some(ec) = whom {
            self.end_wait(ec, Status::Success);
        }
    }

    /// `ec` ups the semaphore `sm`, and `whom`, if that wakes any, goes on too.
    pub(crate) fn raise_counter(&mut self, ec: u32, sm: u32, whom: Option<u32>)
        requires there { IsSome (context_at (state_of self.old) ec) }
        requires counted { IsCounted (state_of self.old) }
        requires woken { woken (semaphore (state_of self.old).semaphores sm) ≡ Ok whom }
        ensures ups { state_of self.new ≡ performed (state_of self.old) ec (Deed.Ups sm whom) }
        ensures rest { KeepsRest self.old self.new }
    {
        let _ = self.semaphores.up(sm);
        self.contexts.answer(ec, Status::Success, None);
        self.wake(whom);
    }

    /// `ec` downs the semaphore `sm`, whose counter is above 0, and goes on.
    pub(crate) fn lower_counter(&mut self, ec: u32, sm: u32)
        requires there { IsSome (context_at (state_of self.old) ec) }
        requires counted { IsCounted (state_of self.old) }
        requires acts { acts (state_of self.old).contexts ec ≡ true }
        requires answer { answer_of (semaphore (state_of self.old).semaphores sm) ≡ Down.Done }
        ensures downs { state_of self.new ≡ performed (state_of self.old) ec (Deed.Downs sm) }
        ensures rest { KeepsRest self.old self.new }
    {
        self.semaphores.keeps_room();
        self.semaphores.down(sm, ec);
        self.contexts.answer(ec, Status::Success, None);
    }

    /// `ec` waits at the semaphore `sm`, whose counter is 0, to the deadline `until` or without one.
    pub(crate) fn block(&mut self, ec: u32, sm: u32, until: Option<Deadline>)
        requires there { IsSome (context_at (state_of self.old) ec) }
        requires counted { IsCounted (state_of self.old) }
        requires acts { acts (state_of self.old).contexts ec ≡ true }
        ensures blocks { state_of self.new ≡ performed (state_of self.old) ec (Deed.Blocks sm until) }
        ensures rest { KeepsRest self.old self.new }
    {
        self.semaphores.keeps_room();
        self.semaphores.down(sm, ec);
        self.contexts.set_state(ec, State::Blocked(sm));
        if let Some(deadline) = until {
            self.times
                .set_deadline(ec, deadline.cpu, deadline.sm, deadline.at);
        }
    }
}
