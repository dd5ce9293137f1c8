ghost use Rattle.std.specs.Prelude.{◌≡◌, ◌==◌, ◌&&◌, false, IsSome};
ghost use Rattle.rv_model.specs.Step.{environment_call};
ghost use Rattle.nova_model.specs.Deeds.{signalled, deed};
ghost use Rattle.nova_model.specs.State.{context_at, context, is_thread};
ghost use Rattle.nova_turn.specs.Parts.{state_of};
ghost use Rattle.nova_deeds.specs.Counted.{IsCounted};
ghost use Rattle.nova_deeds.specs.Acts.{IsToBeDone, is_executing};
ghost use Rattle.nova_turn.specs.Going.{HasRaised};
ghost use Rattle.nova_turn.specs.Revoking.{AreRunning};

use crate::parts::Parts;
use nova_deeds::changes::RECALL;
use nova_model::{Deed, State};
use nova_preview::leaf_deed;
use rv_core::outcome::ENVIRONMENT_CALL;

/// The reason of a startup exit.
pub(crate) const STARTUP: u32 = 0;

/// What a raise tells: its reason, and two words that say more of it.
#[derive(Clone, Copy)]
pub struct Raised {
    pub reason: u32,
    pub q0: u32,
    pub q1: u32,
}

impl Parts {
    /// Whether an instruction of `ec` that raises `raised` is a hypercall: the ECALL of a thread.
    #[inline(always)]
    pub(crate) fn is_hypercall(&self, ec: u32, raised: Raised) -> bool
        ensures { result ≡ ((raised.reason == environment_call) && is_thread (state_of self.now) ec) }
    {
        raised.reason == ENVIRONMENT_CALL && self.is_thread(ec)
    }

    /// The deed of an instruction of `ec` that raises `raised`: an ECALL of a thread is a hypercall, and any other is an exit.
    pub(crate) fn signal(&self, ec: u32, raised: Raised) -> Deed
        requires there { IsSome (context_at (state_of self.now) ec) }
        requires counted { IsCounted (state_of self.now) }
        requires running { AreRunning (state_of self.now) self.now.revokes }
        ensures deed { result ≡ signalled (state_of self.now) ec raised.reason raised.q0 raised.q1 ((raised.reason == environment_call) && is_thread (state_of self.now) ec) }
        ensures fits { IsToBeDone (state_of self.now) ec result }
    {
        let Raised { reason, q0, q1 } = raised;
        if self.is_hypercall(ec, raised) {
            self.hypercall(ec)
        } else {
            Deed::Raises { reason, q0, q1 }
        }
    }

    /// Whether an instruction is next of the execution context `ec`: it is ready, and no recall is asked for.
    pub(crate) fn is_executing(&self, ec: u32) -> bool
        requires { IsSome (context_at (state_of self.now) ec) }
        ensures { result ≡ is_executing (context (state_of self.now) ec) }
    {
        let context = self.contexts.context(ec);
        matches!(context.state, State::Ready) && !context.recall
    }

    /// The deed of the execution context `ec`, of which no instruction is next. The next search of a revoke may be quicker; nothing else has changed.
    #[tactic(auto, unfolding(nova_model::specs::Deeds::deed))]
    pub(crate) fn decide_in_state(&mut self, ec: u32) -> Deed
        requires there { IsSome (context_at (state_of self.old) ec) }
        requires counted { IsCounted (state_of self.old) }
        requires running { AreRunning (state_of self.old) self.old.revokes }
        requires next { is_executing (context (state_of self.old) ec) ≡ false }
        ensures deed { result ≡ deed (state_of self.old) ec }
        ensures fits { IsToBeDone (state_of self.old) ec result }
        ensures kept { self.new ≡ self.old }
    {
        let context = self.contexts.context(ec);
        match context.state {
            State::Fresh => Deed::Raises {
                reason: STARTUP,
                q0: 0,
                q1: 0,
            },
            State::Ready => Deed::Raises {
                reason: RECALL,
                q0: 0,
                q1: 0,
            },
            State::Exiting(reason, q0, q1) => self.exit(ec, Raised { reason, q0, q1 }),
            State::Sending(reason, q0, q1, _) => self.exit(ec, Raised { reason, q0, q1 }),
            State::Granting(_) | State::Replying => self.deliver(ec),
            State::Revoking(_, _) => leaf_deed(&mut self.reach, &self.revokes, ec),
            State::Calling(handler) => Deed::Aborts {
                handler,
                mark: self.mark_of(handler),
            },
            State::Helping(_) => self.hypercall(ec),
            State::Parked | State::Blocked(_) | State::Dead => Deed::Rests,
        }
    }

    /// The deed of the execution context `ec`, of which no instruction went on: the next raised `raised`, or none is next. What stays is as by
    /// `decide_in_state`.
    pub(crate) fn decide(&mut self, ec: u32, raised: Option<Raised>) -> Deed
        requires there { IsSome (context_at (state_of self.old) ec) }
        requires counted { IsCounted (state_of self.old) }
        requires running { AreRunning (state_of self.old) self.old.revokes }
        requires raised { HasRaised (state_of self.old) ec raised }
        ensures deed { result ≡ deed (state_of self.old) ec }
        ensures fits { IsToBeDone (state_of self.old) ec result }
        ensures kept { self.new ≡ self.old }
    {
        match raised {
            Some(raised) => self.signal(ec, raised),
            None => self.decide_in_state(ec),
        }
    }
}
