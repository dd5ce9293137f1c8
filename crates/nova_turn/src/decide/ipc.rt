ghost use Rattle.std.specs.Prelude.{◌≡◌, IfOk, IfSome, IsSome, Ok, Some, ◌<◌, ◌≤◌};
ghost use Rattle.nova_model.specs.Hypercalls.{call, hypercall, reply};
ghost use Rattle.nova_model.specs.State.{context, context_at, pd_of, event_base, transfer};
ghost use Rattle.nova_deeds.specs.Acts.{IsToBeDone, IsGivenBy};
ghost use Rattle.nova_turn.specs.Parts.{state_of};
ghost use Rattle.nova_model.specs.Deeds.{mark_in};
ghost use Rattle.nova_model.specs.Exits.{raised_exit, exit_portal, exits};
ghost use Rattle.nova_model.specs.Deliveries.{first_delivery, translations_to, delegations_to, delivery_between, taken_from, given_to, delivery, delivers};
ghost use Rattle.nova_deeds.specs.Counted.{IsCounted};
ghost use Rattle.nova_turn.specs.Revoking.{AreRunning};

use crate::decide::capabilities::ObjectType;
use crate::decide::deciding::Raised;
use crate::parts::Parts;
use nova_calls::numbers;
use nova_deeds::items::{DELEGATES, NO_TRANSFER, told_by, whole_of};
use nova_ipc::{calls, exits};
use nova_model::{Admit, Deed, Delivery, ExitAdmit, Mark, Object, Rights, Sequel, State, Transfer};
use nova_preview::next_deed;
use nova_range::Status;

/// A call that is sent: its handler, where that begins, the portal's identifier, and whether it has items.
#[derive(Clone, Copy)]
pub(crate) struct SentCall {
    pub handler: u32,
    pub ip: u32,
    pub identifier: u32,
    pub items: bool,
}

/// A reply that is sent: its caller, how that came, and whether it has items.
#[derive(Clone, Copy)]
pub(crate) struct SentReply {
    pub caller: u32,
    pub mark: Mark,
    pub items: bool,
}

impl Parts {
    /// The call of `ec` through the portal at `portal`, where it is sent.
    #[inline(always)]
    fn sent_through(&self, ec: u32, domain: u32, portal: u32, flag: bool) -> Option<SentCall>
        requires { IsSome (context_at (state_of self.now) ec) }
        ensures row { IfSome result (λ s. call (state_of self.now) ec domain portal flag ≡ Ok (Deed.Calls s.handler s.ip s.identifier s.items)) }
        ensures fits { IfSome result (λ s. IsToBeDone (state_of self.now) ec (Deed.Calls s.handler s.ip s.identifier s.items)) }
    {
        if !self.has_counts(ec) {
            return None;
        }
        let Ok(pt) = self.named(domain, ObjectType::Pt, Rights::CALL, portal) else {
            return None;
        };
        let (handler, ip, _) = self.portal(pt);
        let Admit::Send = calls::admit(&self.contexts, ec, handler, flag) else {
            return None;
        };
        Some(SentCall {
            handler,
            ip,
            identifier: self.identifier(pt),
            items: self.has_items(ec),
        })
    }

    /// The call that the registers of the thread `ec` ask for, where it is sent, as most are. It is told apart from all other deeds, so that these
    /// stay out of its code.
    #[inline(always)]
    #[tactic(auto, unfolding(nova_calls::specs::Hypercalls::call_of))]
    pub(crate) fn sent_call(&self, ec: u32) -> Option<SentCall>
        requires { IsSome (context_at (state_of self.now) ec) }
        ensures deed { IfSome result (λ s. hypercall (state_of self.now) ec (pd_of (state_of self.now) ec) (context (state_of self.now) ec).regs
            ≡ Deed.Calls s.handler s.ip s.identifier s.items) }
        ensures fits { IfSome result (λ s. IsToBeDone (state_of self.now) ec (Deed.Calls s.handler s.ip s.identifier s.items)) }
    {
        let regs = &self.contexts.context(ec).regs;
        if regs.get(17) != numbers::CALL || regs.get(10) >= 1 << 20 || regs.get(11) > 1 {
            return None;
        }
        self.sent_through(ec, self.pd(ec), regs.get(10), regs.get(11) == 1)
    }

    /// The reply that the registers of the thread `ec` ask for, where it is sent, as most are.
    #[inline(always)]
    #[tactic(auto, unfolding(nova_calls::specs::Hypercalls::call_of))]
    pub(crate) fn sent_reply(&self, ec: u32) -> Option<SentReply>
        requires { IsSome (context_at (state_of self.now) ec) }
        ensures deed { IfSome result (λ s. hypercall (state_of self.now) ec (pd_of (state_of self.now) ec) (context (state_of self.now) ec).regs
            ≡ Deed.Replies s.caller s.mark s.items) }
        ensures fits { IfSome result (λ s. IsToBeDone (state_of self.now) ec (Deed.Replies s.caller s.mark s.items)) }
    {
        let context = self.contexts.context(ec);
        if context.regs.get(17) != numbers::REPLY
            || !self.is_local_thread(ec)
            || !self.has_counts(ec)
        {
            return None;
        }
        let (caller, mark) = context.caller?;
        Some(SentReply {
            caller,
            mark,
            items: self.has_items(ec),
        })
    }

    /// `CALL` of `ec`: sends a call through the portal at `portal`, or helps its handler where that is busy.
    /// `BadPar` where the message counts more words than there are, `BadCap` where the capability names no
    /// portal with the right to call; then what `admit` answers.
    #[inline(always)]
    pub(crate) fn call(&self, ec: u32, domain: u32, portal: u32, flag: bool) -> Result<Deed, Status>
        requires { IsSome (context_at (state_of self.now) ec) }
        ensures row { result ≡ call (state_of self.now) ec domain portal flag }
        ensures fits { IfOk result (IsToBeDone (state_of self.now) ec) }
    {
        if !self.has_counts(ec) {
            return Err(Status::BadPar);
        }
        let pt = self.named(domain, ObjectType::Pt, Rights::CALL, portal)?;
        let (handler, ip, _) = self.portal(pt);
        match calls::admit(&self.contexts, ec, handler, flag) {
            Admit::Refused(status) => Err(status),
            Admit::Help => Ok(Deed::Helps { handler }),
            Admit::Send => Ok(Deed::Calls {
                handler,
                ip,
                identifier: self.identifier(pt),
                items: self.has_items(ec),
            }),
        }
    }

    /// `REPLY` of `ec`: replies to the caller. `BadPar` where no local thread asks, or where the message counts more words than there are.
    #[inline(always)]
    pub(crate) fn reply(&self, ec: u32) -> Result<Deed, Status>
        requires { IsSome (context_at (state_of self.now) ec) }
        ensures row { result ≡ reply (state_of self.now) ec }
        ensures fits { IfOk result (IsToBeDone (state_of self.now) ec) }
    {
        if !self.is_local_thread(ec) || !self.has_counts(ec) {
            return Err(Status::BadPar);
        }
        match self.contexts.context(ec).caller {
            Some((caller, mark)) => Ok(Deed::Replies {
                caller,
                mark,
                items: self.has_items(ec),
            }),
            None => Err(Status::BadPar),
        }
    }

    /// The selector of the portal for exits of `ec` of reason 0; those of the other reasons follow.
    fn event_base(&self, ec: u32) -> u32
        ensures { result ≡ event_base (state_of self.now) ec }
    {
        match self.objects.get(ec) {
            Some(Object::Ec { event, .. }) => *event,
            _ => 0,
        }
    }

    /// The portal for an exit of the execution context `ec`: in its own protection domain, with the right to
    /// send exits. `BadCap` where there is none.
    fn exit_portal(&self, ec: u32, reason: u32) -> Result<u32, Status>
        ensures { result ≡ exit_portal (state_of self.now) ec reason }
    {
        let selector = self.event_base(ec).wrapping_add(reason);
        self.named(self.pd(ec), ObjectType::Pt, Rights::EVENT, selector)
    }

    /// The deed of `ec`, which raised the exit `raised`, not yet sent. It is looked up; where no portal is
    /// found, or no reply could come, `ec` dies, and where the handler is busy it waits.
    pub(crate) fn exit(&self, ec: u32, raised: Raised) -> Deed
        requires there { IsSome (context_at (state_of self.now) ec) }
        requires raised { raised_exit (context (state_of self.now) ec).state ≡ Some (raised.reason, raised.q0, raised.q1) }
        ensures deed { result ≡ exits (state_of self.now) ec raised.reason raised.q0 raised.q1 }
        ensures fits { IsToBeDone (state_of self.now) ec result }
    {
        let Raised { reason, q0, q1 } = raised;
        let Ok(pt) = self.exit_portal(ec, reason) else {
            return Deed::Dies { reason, q0 };
        };
        let (handler, ip, mtd) = self.portal(pt);
        match exits::admit(&self.contexts, ec, handler) {
            ExitAdmit::Dies => Deed::Dies { reason, q0 },
            ExitAdmit::Waits => Deed::Waits {
                handler,
                reason,
                q0,
                q1,
            },
            ExitAdmit::Sends => Deed::Sends {
                handler,
                ip,
                identifier: self.identifier(pt),
                mtd,
                reason,
                q0,
                q1,
            },
        }
    }

    /// The mark with which `handler` keeps its caller.
    pub(crate) fn mark_of(&self, handler: u32) -> Mark
        ensures { result ≡ mark_in (context (state_of self.now) handler).caller }
    {
        match self.contexts.get(handler) {
            Some(context) => match context.caller {
                Some((_, mark)) => mark,
                None => Mark::Call,
            },
            None => Mark::Call,
        }
    }
}

/// The argument register that has the word of a first range.
const RANGE_REGISTER: u32 = 12;

impl Parts {
    /// What the creator `ec` gives: a delegation of the range whose word is in x12, to the window that is the range itself.
    fn first_delivery(&self, ec: u32, domain: u32) -> Delivery
        requires { IsSome (context_at (state_of self.now) ec) }
        ensures { result ≡ first_delivery (state_of self.now) ec domain }
    {
        let word = self.contexts.context(ec).regs.get(RANGE_REGISTER);
        Delivery {
            range_word: word,
            second_word: DELEGATES,
            giver: self.pd(ec),
            receiver: domain,
            translations: 0,
            delegations: word,
            told: None,
            items: 1,
            last: Sequel::Opened,
        }
    }

    /// The window of translations to `to`: that in the message of a thread. A virtual CPU has none.
    fn translations_to(&self, to: u32) -> u32
        ensures { result ≡ translations_to (state_of self.now) to }
    {
        if self.is_thread(to) {
            self.reach.message(to).translation_window()
        } else {
            0
        }
    }

    /// The window of delegations to `to`: that in the message of a thread, and for a virtual CPU the whole space of the item's own type.
    fn delegations_to(&self, to: u32, range_word: u32) -> u32
        ensures { result ≡ delegations_to (state_of self.now) to range_word }
    {
        if self.is_thread(to) {
            self.reach.message(to).delegation_window()
        } else {
            whole_of(range_word)
        }
    }

    /// What the execution context `from` gives `to`: item `item` of its message, to the windows of the other.
    fn delivery_between(
        &self,
        from: u32,
        to: u32,
        item: u32,
        told: Option<u32>,
        last: Sequel,
    ) -> Delivery
        requires { item < 62 }
        ensures delivery { result ≡ delivery_between (state_of self.now) from to item told last }
        ensures items { result.items ≤ 62 }
    {
        let message = self.reach.message(from);
        let (range_word, second_word) = message.item(item);
        Delivery {
            range_word,
            second_word,
            giver: self.pd(from),
            receiver: self.pd(to),
            translations: self.translations_to(to),
            delegations: self.delegations_to(to, range_word),
            told,
            items: message.items(),
            last,
        }
    }

    /// What the handler `ec` takes: item `item` of its caller's message.
    fn taken_from(&self, ec: u32, item: u32, caller: Option<(u32, Mark)>) -> Option<Delivery>
        requires there { IsSome (context_at (state_of self.now) ec) }
        requires item { item < 62 }
        ensures delivery { result ≡ taken_from (state_of self.now) ec item caller }
        ensures given { IfSome result (IsGivenBy (state_of self.now) ec item) }
    {
        let (caller, _) = caller?;
        Some(self.delivery_between(caller, ec, item, Some(ec), Sequel::Taken))
    }

    /// What the handler `ec` gives its caller: item `item` of its own message.
    fn given_to(&self, ec: u32, item: u32, caller: Option<(u32, Mark)>) -> Option<Delivery>
        requires there { IsSome (context_at (state_of self.now) ec) }
        requires item { item < 62 }
        requires caller { caller ≡ (context (state_of self.now) ec).caller }
        ensures delivery { result ≡ given_to (state_of self.now) ec item caller }
        ensures given { IfSome result (IsGivenBy (state_of self.now) ec item) }
    {
        self.contexts.keeps_callers();
        let (caller, mark) = caller?;
        let told = told_by(caller, mark);
        Some(self.delivery_between(ec, caller, item, told, Sequel::Replied(caller, mark)))
    }

    /// The present item of the execution context `ec`; none in a state in which no items are given.
    pub(crate) fn delivery(&self, ec: u32, item: u32) -> Option<Delivery>
        requires there { IsSome (context_at (state_of self.now) ec) }
        requires item { item < 62 }
        requires present { item ≡ (transfer (state_of self.now) ec).item }
        ensures delivery { result ≡ delivery (state_of self.now) ec (context (state_of self.now) ec).state }
        ensures given { IfSome result (IsGivenBy (state_of self.now) ec item) }
    {
        let context = self.contexts.context(ec);
        match context.state {
            State::Granting(Some(domain)) => Some(self.first_delivery(ec, domain)),
            State::Granting(None) => self.taken_from(ec, item, context.caller),
            State::Replying => self.given_to(ec, item, context.caller),
            _ => None,
        }
    }

    /// How far the execution context `ec` is with the items that it gives.
    pub(crate) fn transfer(&self, ec: u32) -> Transfer
        ensures { result ≡ transfer (state_of self.now) ec }
    {
        match self.transfers.get(ec as usize) {
            Some(Some(transfer)) => *transfer,
            _ => NO_TRANSFER,
        }
    }

    /// The deed of the execution context `ec`, which gives items: the next part of a delegation, or what ends an item.
    pub(crate) fn deliver(&self, ec: u32) -> Deed
        requires there { IsSome (context_at (state_of self.now) ec) }
        requires counted { IsCounted (state_of self.now) }
        requires running { AreRunning (state_of self.now) self.now.revokes }
        ensures deed { result ≡ delivers (state_of self.now) (transfer (state_of self.now) ec) (delivery (state_of self.now) ec (context (state_of self.now) ec).state) }
        ensures fits { IsToBeDone (state_of self.now) ec result }
    {
        let transfer = self.transfer(ec);
        let delivery = self.delivery(ec, transfer.item);
        next_deed(&self.reach, self.revokes.as_slice(), transfer, delivery)
    }
}
