ghost use Rattle.std.specs.Prelude.{◌≡◌, IsSome, IfSome, option_map, ◌+◌, ◌-◌, ◌^◌, ◌<◌, length, slice_get, slice_index};
ghost use Rattle.nova_model.specs.Choice.{choice, choose, is_idle, is_quiet};
ghost use Rattle.nova_model.specs.State.{context_at, budget_at};
ghost use Rattle.nova_sched.specs.Queues as queues;
ghost use Rattle.nova_choice.specs.Choices.{chosen_of};
ghost use Rattle.nova_turn.specs.Known.{AreKnown};
ghost use Rattle.nova_turn.specs.Parts.{state_of};
ghost use Rattle.nova_choice.specs.Schedules.{AreQueued, AreQueuedAfter, AreQueuedBeyond, AreQueuedBut, AreQueuedBy};
ghost use Rattle.nova_model.specs.Edges.{cpu_in};
ghost use Rattle.nova_model.specs.Turn.{quantum_in, paid_by, counted, charged};
ghost use Rattle.nova_deeds.specs.Counted.{IsToBeCharged};
ghost use Rattle.nova_turn.specs.Views.{ticks_of, left_of};

use crate::parts::Parts;
use crate::tables::inventory::Numbers;
use nova_choice::{Chosen, actor_of, mark_all, mark_one};
use nova_ec::Waiters;

impl Parts {
    /// The runnable scheduling context of the processor `cpu` before which no other goes, and the execution
    /// context that acts. Where that is known of the processor's last turn, no chase is followed.
    pub fn choice(&self, cpu: u32, known: &[Option<Chosen>]) -> Option<Chosen>
        requires queued { AreQueued (state_of self.now) self.now.queues.all }
        requires known { AreKnown (state_of self.now) known.now }
        ensures choice { result ≡ option_map chosen_of (choice (state_of self.now) cpu) }
        ensures acts { IfSome result (λ c. IsSome (context_at (state_of self.now) c.actor)) }
        ensures pays { IfSome result (λ c. IsSome (queues.queued_at self.now.queues.all c.sc)) }
    {
        let sc = self.queues.choose(cpu)?;
        if let Some(Some(last)) = known.get(cpu as usize) {
            if last.sc == sc {
                return Some(*last);
            }
        }
        let actor = actor_of(self.objects.table(), &self.contexts, sc)?;
        Some(Chosen { sc, actor })
    }

    /// The scheduling context that the next turn of the processor `cpu` is charged to, unless something is due there; none where none is runnable.
    #[tactic(auto, using(nova_choice::proofs::Nexts::choose_told))]
    pub fn choose(&self, cpu: u32) -> Option<u32>
        requires { AreQueued (state_of self.now) self.now.queues.all }
        ensures { result ≡ choose (state_of self.now) cpu }
    {
        self.queues.choose(cpu)
    }

    /// Whether the processor `cpu` has no turn to take: nothing is runnable there, and nothing is to come.
    fn is_idle(&self, cpu: u32) -> bool
        requires { AreQueued (state_of self.now) self.now.queues.all }
        ensures { result ≡ is_idle (state_of self.now) cpu }
    {
        self.choose(cpu).is_none() && self.times.next(cpu).is_none()
    }

    /// Whether no processor has a turn to take.
    pub fn is_quiet(&self) -> bool
        requires { AreQueued (state_of self.now) self.now.queues.all }
        ensures { result ≡ is_quiet (state_of self.now) }
    {
        for cpu in 0..self.cpus {
            if !self.is_idle(cpu) {
                return false;
            }
        }
        true
    }

    /// Marks all scheduling contexts of the processor of the execution context `moved` anew.
    fn refresh_all(&mut self, moved: u32)
        requires { AreQueuedBut (cpu_in (state_of self.old).contexts moved) (state_of self.old) self.old.queues.all }
        ensures queued { AreQueued (state_of self.new) self.new.queues.all }
        ensures shown { state_of self.new ≡ state_of self.old }
        ensures revokes { self.new.revokes ≡ self.old.revokes }
        ensures log { self.new.reach.room ≡ self.old.reach.room }
    {
        let Some(context) = self.contexts.get(moved) else {
            return;
        };
        let cpu = context.cpu;
        mark_all(&mut self.queues, self.objects.table(), &self.contexts, cpu);
    }

    /// Marks the scheduling context of the execution context `moved` anew, where it has one; or all, where it may have several.
    fn refresh_own(&mut self, moved: u32, at: u32)
        requires { AreQueuedBy moved at (state_of self.old) self.old.queues.all }
        ensures queued { AreQueuedBeyond moved at (state_of self.new) self.new.queues.all }
        ensures shown { state_of self.new ≡ state_of self.old }
        ensures revokes { self.new.revokes ≡ self.old.revokes }
        ensures log { self.new.reach.room ≡ self.old.reach.room }
    {
        match self.objects.schedules_of(at) {
            Numbers::Empty => {}
            Numbers::Single(sc) => mark_one(
                &mut self.queues,
                self.objects.table(),
                &self.contexts,
                sc,
            ),
            Numbers::Several => self.refresh_all(moved),
        }
    }

    /// Marks anew the scheduling contexts whose turns the move of `moved` may have led elsewhere: its own, and those of the context that waits for
    /// it, one after another; or all of its processor, where several may wait for one.
    fn refresh_after(&mut self, moved: u32)
        requires { AreQueuedBy moved moved (state_of self.old) self.old.queues.all }
        ensures queued { AreQueued (state_of self.new) self.new.queues.all }
        ensures shown { state_of self.new ≡ state_of self.old }
        ensures revokes { self.new.revokes ≡ self.old.revokes }
        ensures log { self.new.reach.room ≡ self.old.reach.room }
    {
        let mut at = moved;
        for _ in 0..self.objects.len() {
            self.refresh_own(moved, at);
            match self.contexts.waiters(at) {
                Waiters::Nobody => return,
                Waiters::Only(waiter) => at = waiter,
                Waiters::Several => {
                    self.refresh_all(moved);
                    return;
                }
            }
        }
        self.refresh_all(moved);
    }

    /// Marks anew the scheduling contexts whose turns the move of `moved`, if any, may have led elsewhere.
    #[inline(always)]
    pub(crate) fn refresh(&mut self, moved: Option<u32>)
        requires { AreQueuedAfter moved (state_of self.old) self.old.queues.all }
        ensures queued { AreQueued (state_of self.new) self.new.queues.all }
        ensures shown { state_of self.new ≡ state_of self.old }
        ensures revokes { self.new.revokes ≡ self.old.revokes }
        ensures log { self.new.reach.room ≡ self.old.reach.room }
    {
        if let Some(moved) = moved {
            self.refresh_after(moved);
        }
    }

    /// The turns that the scheduling context `sc` paid for; none where no scheduling context has the number.
    #[tactic(auto, using(nova_choice::proofs::Budgets::budget_queued))]
    pub fn ticks(&self, sc: u32) -> Option<u64>
        ensures { result ≡ ticks_of (state_of self.now) sc }
    {
        if self.queues.contains(sc) {
            Some(self.queues.ticks(sc))
        } else {
            None
        }
    }

    /// The turns that are left of the quantum of the scheduling context `sc`; none where no scheduling context has the number.
    #[tactic(auto, using(nova_choice::proofs::Budgets::budget_queued))]
    pub fn left(&self, sc: u32) -> Option<u32>
        ensures { result ≡ left_of (state_of self.now) sc }
    {
        if self.queues.contains(sc) {
            Some(self.queues.left(sc))
        } else {
            None
        }
    }

    /// Charges a turn to the scheduling context `sc`.
    fn pay(&mut self, sc: u32)
        requires queued { AreQueued (state_of self.old) self.old.queues.all }
        requires there { IsSome (queues.queued_at self.old.queues.all sc) }
        requires ticks { IfSome (queues.queued_at self.old.queues.all sc) (λ e. e.budget.ticks < 2 ^ 64 - 1) }
        requires stamp { self.old.queues.all.next_stamp < 2 ^ 64 - 1 }
        ensures turns { self.new.turns ≡ self.old.turns }
        ensures cpus { self.new.cpus ≡ self.old.cpus }
        ensures times { self.new.times ≡ self.old.times }
        ensures charged { self.new.queues.all ≡ queues.charged_schedule self.old.queues.all sc }
        ensures paid { state_of self.new ≡ paid_by (state_of self.old) sc (quantum_in (slice_get (state_of self.old).objects sc)) (budget_at (state_of self.old) sc) }
        ensures revokes { self.new.revokes ≡ self.old.revokes }
        ensures log { self.new.reach.room ≡ self.old.reach.room }
    {
        self.queues.charge(sc);
    }

    /// Counts the turn, for the kernel and for the processor `cpu`, whose clock goes on.
    pub(crate) fn count(&mut self, cpu: u32)
        requires turns { self.old.turns < 2 ^ 31 }
        requires cpu { cpu < length self.old.times.all.clocks }
        requires stirs { slice_index self.old.times.all.clocks cpu < 2 ^ 32 }
        ensures turns { self.new.turns ≡ self.old.turns + 1 }
        ensures cpus { self.new.cpus ≡ self.old.cpus }
        ensures queues { self.new.queues.all ≡ self.old.queues.all }
        ensures counted { state_of self.new ≡ counted (state_of self.old) cpu }
        ensures revokes { self.new.revokes ≡ self.old.revokes }
        ensures log { self.new.reach.room ≡ self.old.reach.room }
    {
        self.turns += 1;
        self.times.tick(cpu);
    }

    /// Charges a turn of the processor `cpu` to the scheduling context `sc`.
    #[inline(always)]
    #[tactic(auto, unfolding(nova_model::specs::Turn::charged))]
    pub fn charge(&mut self, cpu: u32, sc: u32)
        requires charged { IsToBeCharged (state_of self.old) }
        requires queued { AreQueued (state_of self.old) self.old.queues.all }
        requires turns { self.old.turns < 2 ^ 31 }
        requires cpu { cpu < self.old.cpus }
        requires there { IsSome (queues.queued_at self.old.queues.all sc) }
        ensures charged { state_of self.new ≡ charged (state_of self.old) cpu sc }
        ensures queued { AreQueued (state_of self.new) self.new.queues.all }
        ensures turns { self.new.turns ≡ self.old.turns + 1 }
        ensures cpus { self.new.cpus ≡ self.old.cpus }
        ensures revokes { self.new.revokes ≡ self.old.revokes }
        ensures log { self.new.reach.room ≡ self.old.reach.room }
    {
        self.pay(sc);
        self.count(cpu);
    }
}
