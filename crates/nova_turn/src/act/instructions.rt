ghost use Rattle.std.specs.Prelude.{◌≡◌, ◌+◌, ◌-◌, ◌^◌, ◌<◌, ◌≤◌, ℕ, slice_get, None, Some, IsSome, IfSome};
ghost use Rattle.nova_model.specs.Deeds.{instruction, done};
ghost use Rattle.nova_model.specs.declared.deed.Deed.TheVariants.{Steps};
ghost use Rattle.nova_model.specs.Inputs.{stirred};
ghost use Rattle.nova_model.specs.State.{context_at, entry};
ghost use Rattle.nova_turn.specs.Beside.{IsEntered, with_regs};
ghost use Rattle.nova_turn.specs.Homes.{AreStirred, HasCounts};
ghost use Rattle.nova_turn.specs.StoresSeen.{AreSeersOf, IsSeer};
ghost use Rattle.nova_deeds.specs.StirCounts.{risen_from};
ghost use Rattle.nova_turn.specs.Parts.{state_of};
ghost use Rattle.nova_deeds.specs.Acts.{outcome_of};
ghost use Rattle.nova_deeds.specs.Stirs.{is_stirring, risen_in, written_frame};

use crate::act::seers::{Seer, Seers};
use crate::parts::Parts;
use crate::tables::inventory::Numbers;
use nova_model::Deed;
use rv_core::Regs;
use rv_core::outcome::Outcome;

impl Parts {
    /// Enters the address space of `ec`: instructions reach it from now on.
    pub fn enter(&mut self, ec: u32)
        requires there { IsSome (context_at (state_of self.old) ec) }
        ensures entered { IsEntered self.new ec }
        ensures state { state_of self.new ≡ state_of self.old }
        ensures contexts { self.new.contexts ≡ self.old.contexts }
        ensures queues { self.new.queues ≡ self.old.queues }
        ensures revokes { self.new.revokes ≡ self.old.revokes }
        ensures written { self.new.reach.written ≡ None }
        ensures log { self.new.reach.room ≡ self.old.reach.room }
    {
        let pd = self.pd(ec);
        let is_thread = self.is_thread(ec);
        self.reach.enter(ec, pd, is_thread);
    }

    /// Executes one instruction of `ec`, whose address space was entered, on `regs`, which lie beside the table. Its deed is done where these are put
    /// in, or it raises and nothing has changed.
    #[inline(always)]
    pub fn execute_beside(&mut self, ec: u32, regs: &mut Regs) -> Outcome
        requires there { IsSome (context_at (state_of self.old) ec) }
        requires entered { IsEntered self.old ec }
        requires log { 0 < self.old.reach.room }
        ensures outcome { result ≡ outcome_of (instruction (with_regs (state_of self.old) ec regs.old) ec) }
        ensures done { with_regs (state_of self.new) ec regs.new ≡ done (with_regs (state_of self.old) ec regs.old) ec Steps }
        ensures written { self.old.reach.written ≡ None → self.new.reach.written ≡ written_frame (with_regs (state_of self.old) ec regs.old) ec }
        ensures entered { IsEntered self.new ec }
        ensures contexts { self.new.contexts ≡ self.old.contexts }
        ensures queues { self.new.queues ≡ self.old.queues }
        ensures revokes { self.new.revokes ≡ self.old.revokes }
        ensures log { self.old.reach.room ≤ self.new.reach.room + 1 }
        ensures raised { (reason q0 q1 : ℕ) → result ≡ Outcome.Raise reason q0 q1 → self.new.reach.room ≡ self.old.reach.room }
    {
        self.reach.step(regs)
    }

    /// The virtual CPU for which a store of `ec` is counted, of `guests`, for which it may be.
    fn seer_of(&self, ec: u32, guests: Numbers) -> Seer
        requires these { AreStirred (state_of self.now) (is_stirring (state_of self.now) self.now.reach.written ec Steps) guests }
        ensures { (frame : ℕ) → self.now.reach.written ≡ Some frame → IsSeer (state_of self.now) ec frame result }
    {
        match guests {
            Numbers::Empty => Seer::Nobody,
            Numbers::Single(guest) => {
                if self.is_stirring(ec, Deed::Steps, guest) {
                    Seer::Only(guest)
                } else {
                    Seer::Nobody
                }
            }
            Numbers::Several => Seer::Unknown,
        }
    }

    /// Counts a store of `ec` to `frame`, of which it isn't known for which virtual CPU it is counted. Where that is none, or one alone, it is known
    /// from now on. Few stores are to such a frame, so that this stays out of the code of each.
    #[inline(never)]
    fn note_anew(&mut self, ec: u32, frame: u32, seers: &mut Seers)
        requires counted { HasCounts (state_of self.old) }
        requires few { (g : ℕ) → IfSome (entry (slice_get (state_of self.old).stirs.guests g)) (λ n. n < 2 ^ 64 - 1) }
        requires written { self.old.reach.written ≡ Some frame }
        ensures counts { self.new.guests.counts ≡ risen_from (is_stirring (state_of self.old) self.old.reach.written ec Steps) 0 self.old.guests.counts }
        ensures rest { self.new ≡ record self.old { guests = self.new.guests } }
        ensures seers { AreSeersOf (state_of self.old) ec seers.old → AreSeersOf (state_of self.old) ec seers.new }
    {
        let guests = self.whom(ec, Deed::Steps);
        let seer = self.seer_of(ec, guests);
        seers.learn(frame, seer);
        self.stir_these(ec, Deed::Steps, guests);
    }

    /// Counts the store of an instruction to `frame` for each other virtual CPU that could see it.
    fn note_in(&mut self, ec: u32, frame: u32, seers: &mut Seers)
        requires counted { HasCounts (state_of self.old) }
        requires few { (g : ℕ) → IfSome (entry (slice_get (state_of self.old).stirs.guests g)) (λ n. n < 2 ^ 64 - 1) }
        requires written { self.old.reach.written ≡ Some frame }
        requires seers { AreSeersOf (state_of self.old) ec seers.old }
        ensures counts { self.new.guests.counts ≡ risen_from (is_stirring (state_of self.old) self.old.reach.written ec Steps) 0 self.old.guests.counts }
        ensures rest { self.new ≡ record self.old { guests = self.new.guests } }
        ensures seers { AreSeersOf (state_of self.old) ec seers.new }
    {
        match seers.of(frame) {
            Seer::Unknown => self.note_anew(ec, frame, seers),
            Seer::Nobody => {}
            Seer::Only(guest) => self.guests.rise(guest),
        }
    }

    /// Counts the store of an instruction of `ec`, where there was one, for each other virtual CPU that could see it.
    fn note_written(&mut self, ec: u32, seers: &mut Seers)
        requires counted { HasCounts (state_of self.old) }
        requires few { (g : ℕ) → IfSome (entry (slice_get (state_of self.old).stirs.guests g)) (λ n. n < 2 ^ 64 - 1) }
        requires seers { AreSeersOf (state_of self.old) ec seers.old }
        ensures shown { state_of self.new ≡ risen_in (state_of self.old) (is_stirring (state_of self.old) self.old.reach.written ec Steps) }
        ensures rest { self.new ≡ record self.old { guests = self.new.guests } }
        ensures seers { AreSeersOf (state_of self.old) ec seers.new }
    {
        if let Some(frame) = self.reach.stored_to() {
            self.note_in(ec, frame, seers);
        }
    }

    /// Counts the store of an instruction of `ec` for each other virtual CPU that could see it; then nothing is stored again. Most instructions store
    /// nothing, so that this stays out of their code.
    #[inline(never)]
    fn note_store(&mut self, ec: u32, seers: &mut Seers)
        requires entered { IsEntered self.old ec }
        requires counted { HasCounts (state_of self.old) }
        requires few { (g : ℕ) → IfSome (entry (slice_get (state_of self.old).stirs.guests g)) (λ n. n < 2 ^ 64 - 1) }
        requires seers { AreSeersOf (state_of self.old) ec seers.old }
        ensures shown { state_of self.new ≡ risen_in (state_of self.old) (is_stirring (state_of self.old) self.old.reach.written ec Steps) }
        ensures entered { IsEntered self.new ec }
        ensures contexts { self.new.contexts ≡ self.old.contexts }
        ensures queues { self.new.queues ≡ self.old.queues }
        ensures revokes { self.new.revokes ≡ self.old.revokes }
        ensures written { self.new.reach.written ≡ None }
        ensures log { self.new.reach.room ≡ self.old.reach.room }
        ensures seers { AreSeersOf (state_of self.old) ec seers.new }
    {
        self.note_written(ec, seers);
        self.reach.forget_store();
    }

    /// Executes one instruction of `ec` as by `execute_beside`, where nothing is stored yet. Where it goes on, its store is counted for each other
    /// virtual CPU that could see it, and then nothing is stored again.
    #[inline(always)]
    pub fn step_beside(&mut self, ec: u32, regs: &mut Regs, seers: &mut Seers) -> Outcome
        requires there { IsSome (context_at (state_of self.old) ec) }
        requires entered { IsEntered self.old ec }
        requires fresh { self.old.reach.written ≡ None }
        requires log { 0 < self.old.reach.room }
        requires seers { AreSeersOf (state_of self.old) ec seers.old }
        requires counted { HasCounts (state_of self.old) }
        requires few { (g : ℕ) → IfSome (entry (slice_get (state_of self.old).stirs.guests g)) (λ n. n < 2 ^ 64 - 1) }
        ensures outcome { result ≡ outcome_of (instruction (with_regs (state_of self.old) ec regs.old) ec) }
        ensures went { result ≡ Outcome.Next → with_regs (state_of self.new) ec regs.new ≡ stirred (with_regs (state_of self.old) ec regs.old) ec Steps
            (done (with_regs (state_of self.old) ec regs.old) ec Steps) }
        ensures raised { (reason q0 q1 : ℕ) → result ≡ Outcome.Raise reason q0 q1 → with_regs (state_of self.new) ec regs.new ≡ with_regs (state_of self.old) ec regs.old }
        ensures fresh { result ≡ Outcome.Next → self.new.reach.written ≡ None }
        ensures seers { AreSeersOf (state_of self.new) ec seers.new }
        ensures entered { IsEntered self.new ec }
        ensures contexts { self.new.contexts ≡ self.old.contexts }
        ensures queues { self.new.queues ≡ self.old.queues }
        ensures revokes { self.new.revokes ≡ self.old.revokes }
        ensures log { self.old.reach.room ≤ self.new.reach.room + 1 }
        ensures room { (reason q0 q1 : ℕ) → result ≡ Outcome.Raise reason q0 q1 → self.new.reach.room ≡ self.old.reach.room }
    {
        match self.execute_beside(ec, regs) {
            Outcome::Next => {
                if self.reach.has_stored() {
                    self.note_store(ec, seers);
                }
                Outcome::Next
            }
            Outcome::Raise { reason, q0, q1 } => Outcome::Raise { reason, q0, q1 },
        }
    }
}
