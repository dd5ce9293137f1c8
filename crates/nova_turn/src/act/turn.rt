ghost use Rattle.std.specs.Prelude.{◌≡◌, ◌^◌, ◌<◌, ◌≤◌, length, true, IsSome, ◌+◌, ◌-◌, ℕ, slice_get, Option, None, Some, IfSome, OnOk, OnErr, option_map};
ghost use Rattle.nova_model.specs.Deeds as deeds;
ghost use Rattle.nova_model.specs.Deeds.{done, performed, recalled};
ghost use Rattle.nova_model.specs.Edges.{acts};
ghost use Rattle.nova_model.specs.State.{context_at, pd_of, entry};
ghost use Rattle.nova_choice.specs.Schedules.{schedule_after, AreQueued};
ghost use Rattle.nova_deeds.specs.Acts.{DeedFits, IsToBeDone, TakesFree, changes_actor_only};
ghost use Rattle.nova_deeds.specs.Counted.{IsCounted, KeepsCounts};
ghost use Rattle.nova_turn.specs.Going.{KeepsRest, AreInStep, HasRaised, MayTurn, Stays, WentOn};
ghost use Rattle.nova_turn.specs.Parts.{state_of, HasRoomFor, view_of};
ghost use Rattle.nova_turn.specs.Revoking.{BeginsWithin, revokes_after, AreRunning};
ghost use Rattle.nova_model.specs.Choice.{choice};
ghost use Rattle.nova_model.specs.Times.{due_on};
ghost use Rattle.nova_turn.specs.Views.{IsTurnTaken};
ghost use Rattle.nova_sched.specs.Queues.{queued_at};
ghost use Rattle.nova_choice.specs.Choices.{chosen_of};
ghost use Rattle.nova_turn.specs.Homes.{HasCounts};
ghost use Rattle.nova_turn.specs.Known.{AreKnown};
ghost use Rattle.nova_deeds.specs.Stirs.{is_stirring, risen_in};

use crate::decide::deciding::Raised;
use crate::decide::ipc::{SentCall, SentReply};
use crate::parts::Parts;
use nova_choice::{Chosen, moved_by};
use nova_deeds::changes::{change, event, sign_of};
use nova_ipc::calls::help;
use nova_ipc::exits::wait;
use nova_model::{Deed, EventKind, NewObject, Turn};
use nova_revoke::Revoke;
use rv_core::outcome::Outcome;
use std::alloc::AllocError;

impl Parts {
    /// Asks for the recall of the execution context `ec`.
    fn ask_recall(&mut self, ec: u32)
        requires { ec < length (state_of self.old).contexts }
        ensures recalled { state_of self.new ≡ recalled (state_of self.old) ec (context_at (state_of self.old) ec) }
        ensures rest { KeepsRest self.old self.new }
    {
        if self.contexts.get(ec).is_some() {
            self.contexts.set_recall(ec, true);
        }
    }

    /// Does `deed` of `ec`, which tells others nothing, in the room that was made.
    fn perform_alone(&mut self, ec: u32, deed: Deed)
        requires there { IsSome (context_at (state_of self.old) ec) }
        requires counted { IsCounted (state_of self.old) }
        requires fits { DeedFits (state_of self.old) ec deed }
        requires alone { changes_actor_only deed ≡ true }
        requires free { TakesFree (state_of self.old) (pd_of (state_of self.old) ec) deed }
        requires room { HasRoomFor (pd_of (state_of self.old) ec) deed self.old }
        requires few { length self.old.queues.all.entries ≤ length self.old.objects.items }
        requires places { BeginsWithin self.old.revokes deed }
        ensures performed { state_of self.new ≡ performed (state_of self.old) ec deed }
        ensures queues { self.new.queues.all ≡ schedule_after (state_of self.old) ec self.old.queues.all deed }
        ensures revokes { self.new.revokes.list ≡ revokes_after (pd_of (state_of self.old) ec) ec deed self.old.revokes.list }
        ensures places { self.new.revokes.places ≡ self.old.revokes.places }
        ensures log { self.new.reach.room ≡ self.old.reach.room }
    {
        let domain = self.pd(ec);
        change(&mut self.contexts, ec, deed);
        match deed {
            Deed::Makes { target, new, .. } => self.add_object(domain, target, new),
            Deed::Opens { target, .. } => self.add_object(domain, target, NewObject::Pd),
            Deed::Recalls { ec } => self.ask_recall(ec),
            Deed::Names { pt, identifier } => self.identifiers[pt as usize] = Some(identifier),
            Deed::Revokes { range, own } => self.revokes.begin(
                ec,
                Revoke {
                    pd: domain,
                    range,
                    own,
                },
            ),
            Deed::Returns => self.revokes.end(ec),
            _ => {}
        }
    }

    /// Does `deed` of `ec`, in the room that was made. An instruction isn't done here.
    #[inline(always)]
    pub(crate) fn perform(&mut self, ec: u32, deed: Deed)
        requires there { IsSome (context_at (state_of self.old) ec) }
        requires acts { acts (state_of self.old).contexts ec ≡ true }
        requires counted { IsCounted (state_of self.old) }
        requires turns { self.old.turns < 2 ^ 31 }
        requires fits { IsToBeDone (state_of self.old) ec deed }
        requires free { TakesFree (state_of self.old) (pd_of (state_of self.old) ec) deed }
        requires room { HasRoomFor (pd_of (state_of self.old) ec) deed self.old }
        requires few { length self.old.queues.all.entries ≤ length self.old.objects.items }
        requires places { BeginsWithin self.old.revokes deed }
        ensures done { state_of self.new ≡ done (state_of self.old) ec deed }
        ensures queues { self.new.queues.all ≡ schedule_after (state_of self.old) ec self.old.queues.all deed }
        ensures revokes { self.new.revokes.list ≡ revokes_after (pd_of (state_of self.old) ec) ec deed self.old.revokes.list }
        ensures places { self.new.revokes.places ≡ self.old.revokes.places }
        ensures log { self.new.reach.room ≡ self.old.reach.room }
    {
        match deed {
            Deed::Rests => {}
            Deed::Gives { child, cursor } => self.give(ec, &child, cursor),
            Deed::Skips { cursor, .. } => self.skip(ec, cursor),
            Deed::Removes { leaf } => self.reach.remove_leaf(leaf.id),
            Deed::Calls {
                handler,
                ip,
                identifier,
                ..
            } => self.send(ec, handler, ip, identifier),
            Deed::Helps { handler } => help(&mut self.contexts, ec, handler),
            Deed::Waits {
                handler,
                reason,
                q0,
                q1,
            } => wait(&mut self.contexts, ec, handler, reason, q0, q1),
            Deed::Sends {
                handler,
                ip,
                identifier,
                mtd,
                ..
            } => self.send_exit(ec, handler, ip, identifier, mtd),
            Deed::Aborts { handler, mark } => self.abort(ec, handler, mark),
            Deed::Replies {
                caller,
                mark,
                items,
            } => self.reply_to(ec, caller, mark, items),
            Deed::Ups { sm, woken } => self.raise_counter(ec, sm, woken),
            Deed::Downs { sm } => self.lower_counter(ec, sm),
            Deed::Blocks { sm, until } => self.block(ec, sm, until),
            Deed::Finishes {
                item,
                words,
                after,
                ..
            } => self.finish(ec, item, words, after),
            _ => self.perform_alone(ec, deed),
        }
    }
}

/// How far a turn took the instruction that is next: it went on, or nothing has changed. Then it raised this, or none is next.
#[derive(Clone, Copy)]
enum Progress {
    WentOn,
    Stayed(Option<Raised>),
}

impl Parts {
    /// The execution context does `deed`, its own, and the marks of the queues stay as they were. No instruction went on. Memory can run out only
    /// where the deed makes an object or a derivation.
    #[inline(always)]
    fn carry_out(&mut self, ec: u32, deed: Deed) -> Result<(), AllocError>
        requires there { IsSome (context_at (state_of self.old) ec) }
        requires acts { acts (state_of self.old).contexts ec ≡ true }
        requires ready { MayTurn self.old }
        requires own { deed ≡ deeds.deed (state_of self.old) ec }
        requires fits { IsToBeDone (state_of self.old) ec deed }
        ensures done { OnOk result (state_of self.new ≡ deeds.done (state_of self.old) ec deed) }
        ensures queues { OnOk result (self.new.queues.all ≡ schedule_after (state_of self.old) ec self.old.queues.all deed) }
        ensures refused { OnErr result (self.new.queues.all ≡ self.old.queues.all) }
        ensures running { OnOk result (AreRunning (state_of self.new) self.new.revokes) }
        ensures stays { OnErr result (AreRunning (state_of self.old) self.new.revokes) }
        ensures memory { OnErr result ((state_of self.new ≡ state_of self.old) × (self.new.reach.room ≡ self.old.reach.room)) }
        ensures making { OnErr result (deeds.is_making (deeds.deed (state_of self.old) ec) ≡ true) }
        ensures log { self.old.reach.room ≤ self.new.reach.room + 1 }
    {
        law_turns::running_revokes_are_their_runners();
        let domain = self.pd(ec);
        self.make_room(domain, deed)?;
        self.perform(ec, deed);
        Ok(())
    }

    /// The execution context does `deed`, its own, and where somebody moves, scheduling contexts are marked anew. It
    /// refuses as `carry_out`.
    #[inline(always)]
    fn act(&mut self, ec: u32, deed: Deed) -> Result<(), AllocError>
        requires there { IsSome (context_at (state_of self.old) ec) }
        requires acts { acts (state_of self.old).contexts ec ≡ true }
        requires ready { MayTurn self.old }
        requires own { deed ≡ deeds.deed (state_of self.old) ec }
        requires fits { IsToBeDone (state_of self.old) ec deed }
        ensures done { OnOk result (state_of self.new ≡ deeds.done (state_of self.old) ec deed) }
        ensures queued { AreQueued (state_of self.new) self.new.queues.all }
        ensures running { AreRunning (state_of self.new) self.new.revokes }
        ensures memory { OnErr result ((state_of self.new ≡ state_of self.old) × (self.new.reach.room ≡ self.old.reach.room)) }
        ensures making { OnErr result (deeds.is_making (deeds.deed (state_of self.old) ec) ≡ true) }
        ensures kept { OnOk result (KeepsCounts (state_of self.old) (state_of self.new)) }
        ensures log { self.old.reach.room ≤ self.new.reach.room + 1 }
    {
        self.carry_out(ec, deed)?;
        self.refresh(moved_by(ec, deed));
        Ok(())
    }

    /// Counts what an instruction that went on is for virtual CPUs: it may be an input for one only where it stored to a frame.
    #[inline(always)]
    pub(crate) fn note_step(&mut self, ec: u32)
        requires counted { HasCounts (state_of self.old) }
        requires few { (g : ℕ) → IfSome (entry (slice_get (state_of self.old).stirs.guests g)) (λ n. n < 2 ^ 64 - 1) }
        ensures shown { state_of self.new ≡ risen_in (state_of self.old) (is_stirring (state_of self.old) self.old.reach.written ec Deed.Steps) }
        ensures rest { KeepsRest self.old self.new }
        ensures reach { self.new.reach ≡ self.old.reach }
        ensures contexts { self.new.contexts ≡ self.old.contexts }
        ensures objects { self.new.objects ≡ self.old.objects }
    {
        if self.reach.has_stored() && !self.guests.numbers().is_empty() {
            self.stir_guests(ec, Deed::Steps);
        }
    }

    /// The instruction that is next of an execution context, where it goes on, is done. Otherwise nothing has changed.
    #[inline(always)]
    fn go_on(&mut self, ec: u32) -> Progress
        requires there { IsSome (context_at (state_of self.old) ec) }
        requires acts { acts (state_of self.old).contexts ec ≡ true }
        requires counted { IsCounted (state_of self.old) }
        requires queued { AreQueued (state_of self.old) self.old.queues.all }
        requires running { AreRunning (state_of self.old) self.old.revokes }
        requires log { 0 < self.old.reach.room }
        ensures went { result ≡ Progress.WentOn → WentOn self.old self.new ec }
        ensures stayed { (raised : Option Raised) → result ≡ Progress.Stayed raised → Stays self.old self.new ec raised }
        ensures queues { self.new.queues ≡ self.old.queues }
        ensures revokes { self.new.revokes ≡ self.old.revokes }
        ensures log { self.old.reach.room ≤ self.new.reach.room + 1 }
    {
        law_turns::running_revokes_are_their_runners();
        if !self.is_executing(ec) {
            return Progress::Stayed(None);
        }
        self.enter(ec);
        match self.contexts.step(ec, &mut self.reach) {
            Outcome::Next => Progress::WentOn,
            Outcome::Raise { reason, q0, q1 } => Progress::Stayed(Some(Raised { reason, q0, q1 })),
        }
    }

    /// A turn of which the scheduling context and the execution context are chosen, by the deed of the latter. It refuses as `turn`.
    #[inline(always)]
    #[tactic(auto, unfolding(nova_model::specs::Turn::turn))]
    fn conclude(&mut self, cpu: u32, chosen: Chosen, deed: Deed) -> Result<Turn, AllocError>
        requires ready { MayTurn self.old }
        requires cpu { cpu < self.old.cpus }
        requires none_due { due_on (state_of self.old).times cpu ≡ None }
        requires told { Some chosen ≡ option_map chosen_of (choice (state_of self.old) cpu) }
        requires there { IsSome (context_at (state_of self.old) chosen.actor) }
        requires pays { IsSome (queued_at self.old.queues.all chosen.sc) }
        requires own { deed ≡ deeds.deed (state_of self.old) chosen.actor }
        requires fits { IsToBeDone (state_of self.old) chosen.actor deed }
        ensures taken { IsTurnTaken (view_of self.old) (view_of self.new) cpu result }
        ensures tables { AreInStep self.new }
    {
        self.act(chosen.actor, deed)?;
        self.stir(chosen.actor, &deed);
        self.charge(cpu, chosen.sc);
        law_turns::turns_keep_what_they_find();
        Ok(Turn::Stepped(event(cpu, chosen, sign_of(deed))))
    }

    /// The same by any deed, which is decided: the instruction that is next raised this, or none is next.
    #[inline(never)]
    fn settle_any(
        &mut self,
        cpu: u32,
        chosen: Chosen,
        raised: Option<Raised>,
    ) -> Result<Turn, AllocError>
        requires ready { MayTurn self.old }
        requires cpu { cpu < self.old.cpus }
        requires none_due { due_on (state_of self.old).times cpu ≡ None }
        requires told { Some chosen ≡ option_map chosen_of (choice (state_of self.old) cpu) }
        requires there { IsSome (context_at (state_of self.old) chosen.actor) }
        requires pays { IsSome (queued_at self.old.queues.all chosen.sc) }
        requires raised { HasRaised (state_of self.old) chosen.actor raised }
        ensures taken { IsTurnTaken (view_of self.old) (view_of self.new) cpu result }
        ensures tables { AreInStep self.new }
    {
        let deed = self.decide(chosen.actor, raised);
        self.conclude(cpu, chosen, deed)
    }

    /// A turn of which the scheduling context and the execution context are chosen, and no instruction went on: the one that is next
    /// raised this, or none is next. It refuses as `turn`. Most turns are an instruction that goes on, so that all else stays out of
    /// their code; and calls and replies have code of their own, in which no other deed is asked for.
    #[inline(never)]
    pub fn settle(
        &mut self,
        cpu: u32,
        chosen: Chosen,
        raised: Option<Raised>,
    ) -> Result<Turn, AllocError>
        requires ready { MayTurn self.old }
        requires cpu { cpu < self.old.cpus }
        requires none_due { due_on (state_of self.old).times cpu ≡ None }
        requires told { Some chosen ≡ option_map chosen_of (choice (state_of self.old) cpu) }
        requires there { IsSome (context_at (state_of self.old) chosen.actor) }
        requires pays { IsSome (queued_at self.old.queues.all chosen.sc) }
        requires raised { HasRaised (state_of self.old) chosen.actor raised }
        ensures taken { IsTurnTaken (view_of self.old) (view_of self.new) cpu result }
        ensures tables { AreInStep self.new }
    {
        if let Some(raised) = raised
            && self.is_hypercall(chosen.actor, raised)
        {
            if let Some(call) = self.sent_call(chosen.actor) {
                let SentCall {
                    handler,
                    ip,
                    identifier,
                    items,
                } = call;
                return self.conclude(
                    cpu,
                    chosen,
                    Deed::Calls {
                        handler,
                        ip,
                        identifier,
                        items,
                    },
                );
            }
            if let Some(reply) = self.sent_reply(chosen.actor) {
                let SentReply {
                    caller,
                    mark,
                    items,
                } = reply;
                return self.conclude(
                    cpu,
                    chosen,
                    Deed::Replies {
                        caller,
                        mark,
                        items,
                    },
                );
            }
        }
        self.settle_any(cpu, chosen, raised)
    }

    /// One turn of a processor: the execution context of the chosen scheduling context does its deed,
    /// and the scheduling context pays. Memory can run out only where the turn would make an object or
    /// a derivation.
    #[tactic(auto, unfolding(nova_model::specs::Turn::turn))]
    pub fn turn(&mut self, cpu: u32, known: &[Option<Chosen>]) -> Result<Turn, AllocError>
        requires ready { MayTurn self.old }
        requires cpu { cpu < self.old.cpus }
        requires known { AreKnown (state_of self.old) known.now }
        ensures taken { IsTurnTaken (view_of self.old) (view_of self.new) cpu result }
        ensures tables { AreInStep self.new }
    {
        if self.times.is_due(cpu) {
            return Ok(self.come_due(cpu));
        }
        let Some(chosen) = self.choice(cpu, known) else {
            return Ok(self.tick_on(cpu));
        };
        law_turns::turns_keep_what_they_find();
        match self.go_on(chosen.actor) {
            Progress::WentOn => {
                self.note_step(chosen.actor);
                self.charge(cpu, chosen.sc);
                Ok(Turn::Stepped(event(cpu, chosen, (EventKind::Step, 0, 0))))
            }
            Progress::Stayed(raised) => self.settle(cpu, chosen, raised),
        }
    }
}
