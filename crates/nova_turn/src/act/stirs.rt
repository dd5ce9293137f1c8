ghost use Rattle.std.specs.Prelude.{◌≡◌, ◌-◌, ◌^◌, ◌<◌, ℕ, slice_get, IfSome};
ghost use Rattle.nova_model.specs.State.{entry};
ghost use Rattle.nova_turn.specs.Homes.{AreOthersOf, AreSeers, AreStirred, HasCounts};
ghost use Rattle.nova_turn.specs.Parts.{state_of};
ghost use Rattle.nova_deeds.specs.Stirs.{is_seen, is_stirring};
ghost use Rattle.nova_deeds.specs.StirCounts.{risen_from};

use crate::parts::Parts;
use crate::tables::inventory::Numbers;
use nova_deeds::inputs::{is_memory_of, stirs_itself};
use nova_model::{Deed, Mark, Sequel};

impl Parts {
    /// Whether memory of the protection domain `pd` leads to the RAM frame that was stored to.
    fn is_seen(&self, pd: u32) -> bool
        ensures { result ≡ is_seen (state_of self.now) pd self.now.reach.written }
    {
        match self.reach.stored_to() {
            Some(frame) => frame < self.reach.ram_frames() && self.reach.leads_to(pd, frame),
            None => false,
        }
    }

    /// Whether `deed` of the execution context `ec` is an input from outside for the virtual CPU `guest`.
    pub(crate) fn is_stirring(&self, ec: u32, deed: Deed, guest: u32) -> bool
        ensures { result ≡ is_stirring (state_of self.now) self.now.reach.written ec deed guest }
    {
        if ec == guest {
            return stirs_itself(deed);
        }
        match deed {
            Deed::Steps => self.is_seen(self.pd(guest)),
            Deed::Recalls { ec: whose } => whose == guest,
            Deed::Replies {
                caller,
                mark: Mark::Exit,
                items: false,
            } => caller == guest,
            Deed::Finishes {
                after: Sequel::Replied(caller, Mark::Exit),
                ..
            } => caller == guest,
            Deed::Gives { child, .. } => is_memory_of(self.pd(guest), &child),
            Deed::Removes { leaf } => is_memory_of(self.pd(guest), &leaf),
            _ => false,
        }
    }

    /// The virtual CPUs of the protection domains `domains`, but for `ec`.
    #[tactic(auto, using(crate::proofs::Homes::none_yet, crate::proofs::Homes::one_more, crate::proofs::Homes::all_others))]
    fn others_of(&self, ec: u32, domains: &[u32]) -> Numbers
        ensures { AreOthersOf (state_of self.now).objects ec domains.now result }
    {
        let mut others = Numbers::Empty;
        for pd in domains {
            others = others.and(self.objects.others(*pd, ec));
        }
        others
    }

    /// The virtual CPUs that see what `ec` stored, but for itself. The domains that see the frame are looked up where they are not remembered.
    #[tactic(auto, using(crate::proofs::Whom::seers_none, crate::proofs::Whom::seers_beyond, crate::proofs::Whom::seers_of, crate::proofs::Whom::seers_any))]
    fn seers(&mut self, ec: u32) -> Numbers
        ensures seers { AreSeers (state_of self.old) ec self.old.reach.written result }
        ensures kept { self.new ≡ self.old }
    {
        self.reach.look();
        let Some(frame) = self.reach.stored_to() else {
            return Numbers::Empty;
        };
        if frame >= self.reach.ram_frames() {
            return Numbers::Empty;
        }
        match self.reach.known_viewers(frame) {
            Some(viewers) => self.others_of(ec, viewers.domains()),
            None => Numbers::Several,
        }
    }

    /// The virtual CPUs for which `deed` of the execution context `ec` may be an input from outside.
    #[tactic(auto, using(crate::proofs::Whom::steps_stir, crate::proofs::Whom::gives_stir, crate::proofs::Whom::removes_stir, crate::proofs::Whom::named_stir))]
    pub(crate) fn whom(&mut self, ec: u32, deed: Deed) -> Numbers
        ensures stirred { AreStirred (state_of self.old) (is_stirring (state_of self.old) self.old.reach.written ec deed) result }
        ensures kept { self.new ≡ self.old }
    {
        match deed {
            Deed::Steps => self.seers(ec),
            Deed::Gives { child, .. } => self.objects.others(child.pd, ec),
            Deed::Removes { leaf } => self.objects.others(leaf.pd, ec),
            Deed::Sends { .. } | Deed::Dies { .. } | Deed::Aborts { .. } => Numbers::Single(ec),
            Deed::Recalls { ec: whose } => Numbers::Single(whose),
            Deed::Replies { caller, .. } => Numbers::Single(caller),
            Deed::Finishes {
                after: Sequel::Replied(caller, _),
                ..
            } => Numbers::Single(caller),
            _ => Numbers::Empty,
        }
    }

    /// Counts `deed` of the execution context `ec` for each virtual CPU for which it is an input from outside.
    fn stir_each(&mut self, ec: u32, deed: Deed)
        requires { (g : ℕ) → IfSome (entry (slice_get (state_of self.old).stirs.guests g)) (λ n. n < 2 ^ 64 - 1) }
        ensures counts { self.new.guests.counts ≡ risen_from (is_stirring (state_of self.old) self.old.reach.written ec deed) 0 self.old.guests.counts }
        ensures rest { self.new ≡ record self.old { guests = self.new.guests } }
    {
        for i in 0..self.guests.numbers().len() {
            let guest = self.guests.numbers()[i];
            if self.is_stirring(ec, deed, guest) {
                self.guests.rise(guest);
            }
        }
    }

    /// Counts `deed` of the execution context `ec` for those of some virtual CPUs for which it is an input from outside; it is none for others.
    pub(crate) fn stir_these(&mut self, ec: u32, deed: Deed, guests: Numbers)
        requires counted { HasCounts (state_of self.old) }
        requires these { AreStirred (state_of self.old) (is_stirring (state_of self.old) self.old.reach.written ec deed) guests }
        requires few { (g : ℕ) → IfSome (entry (slice_get (state_of self.old).stirs.guests g)) (λ n. n < 2 ^ 64 - 1) }
        ensures counts { self.new.guests.counts ≡ risen_from (is_stirring (state_of self.old) self.old.reach.written ec deed) 0 self.old.guests.counts }
        ensures rest { self.new ≡ record self.old { guests = self.new.guests } }
    {
        match guests {
            Numbers::Empty => {}
            Numbers::Single(guest) => {
                if self.is_stirring(ec, deed, guest) {
                    self.guests.rise(guest);
                }
            }
            Numbers::Several => self.stir_each(ec, deed),
        }
    }

    /// Counts `deed` of the execution context `ec` for each virtual CPU for which it is an input from outside. Where there is none, turns pass this
    /// by.
    #[inline(never)]
    pub(crate) fn stir_guests(&mut self, ec: u32, deed: Deed)
        requires counted { HasCounts (state_of self.old) }
        requires few { (g : ℕ) → IfSome (entry (slice_get (state_of self.old).stirs.guests g)) (λ n. n < 2 ^ 64 - 1) }
        ensures counts { self.new.guests.counts ≡ risen_from (is_stirring (state_of self.old) self.old.reach.written ec deed) 0 self.old.guests.counts }
        ensures rest { self.new ≡ record self.old { guests = self.new.guests } }
    {
        let guests = self.whom(ec, deed);
        self.stir_these(ec, deed, guests);
    }

    /// Counts what `deed`, which the execution context `ec` did, is for virtual CPUs.
    #[inline(always)]
    pub(crate) fn stir(&mut self, ec: u32, deed: &Deed)
        requires counted { HasCounts (state_of self.old) }
        requires few { (g : ℕ) → IfSome (entry (slice_get (state_of self.old).stirs.guests g)) (λ n. n < 2 ^ 64 - 1) }
        ensures shown { state_of self.new ≡ record (state_of self.old) {
          stirs = record (state_of self.old).stirs {
            guests = risen_from (is_stirring (state_of self.old) self.old.reach.written ec deed.now) 0 (state_of self.old).stirs.guests;
          };
        } }
        ensures queues { self.new.queues ≡ self.old.queues }
        ensures revokes { self.new.revokes ≡ self.old.revokes }
        ensures turns { self.new.turns ≡ self.old.turns }
        ensures cpus { self.new.cpus ≡ self.old.cpus }
        ensures log { self.new.reach.room ≡ self.old.reach.room }
    {
        if !self.guests.numbers().is_empty() {
            self.stir_guests(ec, *deed);
        }
    }
}
