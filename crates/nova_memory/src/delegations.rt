ghost use Rattle.std.specs.Prelude.{false, ◌≡◌, ◌≤◌, ◌-◌, ◌^◌, ◌<◌, ℕ, is_some, None, Some, IfSome, IsOk, OnOk, option_map, IfOk};
ghost use Rattle.std.specs.List.{find};
ghost use Rattle.nova_range.specs.Rights.{IsRights};
ghost use Rattle.nova_model.specs.Delegations.{added, covers, derived, from_id, with_id, without};
ghost use Rattle.nova_model.specs.Translations.{translated};
ghost use Rattle.nova_nodes.specs.NodesStates.{IsPlaced, room};
ghost use Rattle.nova_delegate.specs.Parts.{IsReady, IsUnderWay, pair_of};
ghost use Rattle.nova_memory.specs.Reach.{selector_range};
ghost use Rattle.nova_model.specs.Transfers.{next_part};
ghost use Rattle.nova_revoke.specs.Runners.{busy_under};
ghost use Rattle.law_forest.specs.Courses.{IsLeaf};
ghost use Rattle.nova_model.specs.Forest.{IsChildless};
ghost use Rattle.nova_model.specs.Revokes.{next_leaf};

use crate::reach::Reach;
use nova_delegate::{next_part, translate};
use nova_model::{Derivation, Job, Kind, Reason, Rights};
use nova_range::Range;
use nova_revoke::{Revoke, Running, next_leaf};
use std::alloc::AllocError;

/// Whether `derivation` lies in a space of the protection domain `pd` and covers `place`.
#[inline(always)]
pub(crate) fn covers(derivation: &Derivation, kind: Kind, pd: u32, place: u32) -> bool
    requires { derivation.now.order ≤ 20 }
    ensures { result ≡ covers kind pd place derivation.now }
{
    matches!(
        (kind, derivation.kind),
        (Kind::Mem, Kind::Mem) | (Kind::Obj, Kind::Obj)
    ) && derivation.pd == pd
        && derivation.base <= place
        && place - derivation.base < 1 << derivation.order
}

impl Reach {
    /// Makes room for one more derivation of the protection domain `pd`. Where there is room, this succeeds.
    pub fn reserve(&mut self, pd: u32) -> Result<(), AllocError>
        ensures room { OnOk result (0 < room self.new.nodes pd) }
        ensures enough { 0 < room self.old.nodes pd → IsOk result }
        ensures delegations { self.new.nodes.delegations ≡ self.old.nodes.delegations }
        ensures memory { self.new.memory ≡ self.old.memory }
        ensures messages { self.new.messages ≡ self.old.messages }
        ensures consoles { self.new.consoles ≡ self.old.consoles }
        ensures log { self.new.room ≡ self.old.room }
    {
        self.nodes.reserve(pd, 1)
    }

    /// Makes the spaces of the new protection domain `pd`.
    pub fn add_domain(&mut self, pd: u32) -> Result<(), AllocError>
        ensures room { (other : ℕ) → room self.old.nodes other ≤ room self.new.nodes other }
        ensures delegations { self.new.nodes.delegations ≡ self.old.nodes.delegations }
        ensures memory { self.new.memory ≡ self.old.memory }
        ensures messages { self.new.messages ≡ self.old.messages }
        ensures consoles { self.new.consoles ≡ self.old.consoles }
        ensures log { self.new.room ≡ self.old.room }
    {
        self.nodes.add_pd(pd)
    }

    /// Adds a capability of `object` to the domain `pd`, at `selector`, which is free, in the room that was made.
    pub fn add_capability(&mut self, pd: u32, selector: u32, rights: Rights, object: u32)
        requires room { 0 < room self.old.nodes pd }
        requires next { self.old.nodes.delegations.next < 2 ^ 32 - 1 }
        requires selector { selector < 2 ^ 20 }
        requires free { is_some (find (covers Kind.Obj pd selector) self.old.nodes.delegations.list) ≡ false }
        requires rights { IsRights rights }
        requires object { object < 2 ^ 32 - 1 }
        ensures delegations { self.new.nodes.delegations ≡ added self.old.nodes.delegations (derived self.old.nodes.delegations.next None pd (selector_range selector) rights object) }
        ensures memory { self.new.memory ≡ self.old.memory }
        ensures messages { self.new.messages ≡ self.old.messages }
        ensures consoles { self.new.consoles ≡ self.old.consoles }
        ensures log { self.new.room ≡ self.old.room }
    {
        let place = Range {
            kind: Kind::Obj,
            base: selector,
            order: 0,
        };
        self.sights.forget();
        self.nodes.root(pd, place, rights, object);
    }

    /// The capability at hand, where it is that at `selector` of the domain `pd`.
    #[inline(always)]
    fn at_hand(&self, pd: u32, selector: u32) -> Option<Derivation>
        ensures found { IfSome result (λ d. find (covers Kind.Obj pd selector) self.now.nodes.delegations.list ≡ Some d) }
        ensures placed { IfSome result IsPlaced }
    {
        let capability = self.recents.capability.as_ref()?;
        if covers(capability, Kind::Obj, pd, selector) {
            Some(*capability)
        } else {
            None
        }
    }

    /// Takes the capability at `selector` of the domain `pd` to hand. Where the same is named again and again, this is seldom done, and stays out of
    /// the code of each call.
    #[inline(never)]
    fn take_to_hand(&mut self, pd: u32, selector: u32)
        ensures { self.new ≡ self.old }
    {
        self.recents.capability = self.nodes.covering(pd, Kind::Obj, selector);
    }

    /// Keeps the capability at `selector` of the domain `pd` at hand, if there is one: until delegations change or another is kept, it is found there
    /// without a search.
    #[inline(always)]
    pub fn keep_at_hand(&mut self, pd: u32, selector: u32)
        ensures { self.new ≡ self.old }
    {
        if self.at_hand(pd, selector).is_none() {
            self.take_to_hand(pd, selector);
        }
    }

    /// The search for the derivation that covers `place` of the protection domain `pd`.
    #[inline(never)]
    fn search(&self, pd: u32, kind: Kind, place: u32) -> Option<Derivation>
        ensures found { result ≡ find (covers kind pd place) self.now.nodes.delegations.list }
        ensures placed { IfSome result IsPlaced }
    {
        self.nodes.covering(pd, kind, place)
    }

    /// The derivation that covers `place` of the space `kind` of the domain `pd`, or nothing.
    #[inline(always)]
    pub fn covering(&self, pd: u32, kind: Kind, place: u32) -> Option<Derivation>
        ensures found { result ≡ find (covers kind pd place) self.now.nodes.delegations.list }
        ensures placed { IfSome result IsPlaced }
    {
        if let Kind::Obj = kind
            && let Some(capability) = self.at_hand(pd, place)
        {
            return Some(capability);
        }
        self.search(pd, kind, place)
    }

    /// The derivation `id`, or nothing.
    pub fn get(&self, id: u32) -> Option<Derivation>
        ensures { result ≡ with_id self.now.nodes.delegations.list id }
    {
        self.nodes.get(id)
    }

    /// The derivation of least id at or after `id`, or nothing.
    pub fn from_id(&self, id: u32) -> Option<Derivation>
        ensures { result ≡ from_id self.now.nodes.delegations.list id }
    {
        self.nodes.from_id(id)
    }

    /// Adds the derivation `child`, in room that was made for it.
    pub fn add_child(&mut self, child: &Derivation)
        requires room { 0 < room self.old.nodes child.now.pd }
        requires next { self.old.nodes.delegations.next < 2 ^ 32 - 1 }
        requires child { IsReady self.old.nodes.delegations child.now }
        ensures delegations { self.new.nodes.delegations ≡ added self.old.nodes.delegations child.now }
        ensures memory { self.new.memory ≡ self.old.memory }
        ensures messages { self.new.messages ≡ self.old.messages }
        ensures consoles { self.new.consoles ≡ self.old.consoles }
        ensures log { self.new.room ≡ self.old.room }
    {
        let Some(parent) = child.parent else {
            unreachable!()
        };
        self.sights.forget();
        self.nodes.child(parent, child.pd, child.range(), child.rights, child.target);
    }

    /// The word that answers the range word `word` of the domain `giver`: the same memory or object as the domain `receiver` has it.
    pub fn translate(&self, word: u32, window: u32, giver: u32, receiver: u32) -> u32
        ensures { result ≡ translated self.now.nodes.delegations.list word window giver receiver }
    {
        translate(&self.nodes, word, window, giver, receiver)
    }

    /// The next part of `job` while `revokes` run: the giver's derivation that it is of, with the child to be
    /// made of it or the first reason to skip it. The answer is nothing where none is left.
    pub fn next_part(
        &self,
        job: &Job,
        revokes: &[Running],
    ) -> Option<(Derivation, Result<Derivation, Reason>)>
        requires job { IsUnderWay job.now }
        ensures part { result ≡ option_map pair_of (next_part (busy_under revokes.now self.now.nodes.delegations.list) self.now.nodes.delegations job.now) }
        ensures source { IfSome result (λ p. IsPlaced p.0) }
        ensures child { IfSome result (λ p. IfOk p.1 (IsReady self.now.nodes.delegations)) }
    {
        next_part(&self.nodes, job, revokes)
    }

    /// The leaf that `revoke` takes next; nothing where nothing is left of what it takes. The next search may be quicker; what is kept stays.
    pub fn next_leaf(&mut self, revoke: &Revoke) -> Option<Derivation>
        ensures found { result ≡ next_leaf revoke.now self.old.nodes.delegations }
        ensures leaf { IfSome result (IsLeaf revoke.now self.old.nodes.delegations) }
        ensures kept { self.new ≡ self.old }
    {
        next_leaf(&mut self.nodes, revoke)
    }

    /// Takes away the derivation `id`, which is no other's parent.
    pub fn remove_leaf(&mut self, id: u32)
        requires childless { IsChildless self.old.nodes.delegations.list id }
        ensures delegations { self.new.nodes.delegations ≡ without self.old.nodes.delegations id }
        ensures memory { self.new.memory ≡ self.old.memory }
        ensures messages { self.new.messages ≡ self.old.messages }
        ensures consoles { self.new.consoles ≡ self.old.consoles }
        ensures log { self.new.room ≡ self.old.room }
    {
        self.last = None;
        self.sights.forget();
        self.recents.forget();
        self.others.forget();
        self.recalled.forget();
        self.nodes.remove_leaf(id);
    }
}
