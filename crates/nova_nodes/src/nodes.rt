ghost use Rattle.std.specs.Prelude.{◌≡◌, ◌<◌, ◌≤◌, ◌+◌, ◌-◌, ◌^◌, ℕ, [], Contains, IfSome, IsSome, IsOk, IfOk, OnOk, OnErr, Some, None, option_map};
ghost use Rattle.std.specs.List.{find, list_any};
ghost use Rattle.nova_model.specs.Inputs.{leads_to};
ghost use Rattle.nova_model.specs.Delegations.{covers, first_from, with_id, from_id, is_child_of, newest_child, older_child, parent_of, derived, added, without, id_of};
ghost use Rattle.nova_model.specs.Forest.{IsFitting, IsChildless};
ghost use Rattle.nova_model.specs.Revokes.{leaf_by};
ghost use Rattle.nova_nodes.specs.Trails.{IsOnWay, step_back};
ghost use Rattle.nova_nodes.specs.NodesStates.{HasSpaces, IsPlaced, IsSound, room};

use crate::linked::Linked;
use crate::node::Trail;
use crate::spaces::Spaces;
use nova_model::Derivation;
use nova_range::{Index, Kind, Range, Rights};
use std::alloc::{AllocError, Global};
use std::marker::Model;

/// The delegations: derivations by rising id, with links between parents and children, and the next id. Each protection domain has an index of its
/// memory and one of its objects. Room for more is reserved before they are added, for each domain by itself.
#[derive(Drop)]
pub struct Nodes<I: Index> {
    list: Linked,
    next: u32,
    spare: usize,
    spaces: Spaces<I>,
    trail: Trail,
}

impl<I: Index> Model for Nodes<I> {
    ghost use Rattle.std.specs.Prelude.{◌≤◌, map};
    ghost use Rattle.nova_nodes.specs.NodesStates.{NodesState, IsSound};
    ghost use Rattle.nova_nodes.specs.Spaces.{IsIndexed, shown_room, total_room};
    ghost use Rattle.nova_nodes.specs.Trails.{IsTrail};

    ghost Value = { NodesState };

    ghost view = { λ n. record {
      delegations = record { list = n.list.list; next = n.next };
      rooms = map shown_room n.spaces;
    } };

    ghost invariant = { λ n. IsSound (record { list = n.list.list; next = n.next }) × (IsIndexed n.spaces n.list.list × ((total_room n.spaces ≤ n.spare) × ((n.spare ≤ n.list.spare) × IsTrail (record { list = n.list.list; next = n.next }) n.trail))) };
}

/// The id before the end of the way from `from` to `leaf`: of the parent, or of the beginning where that is the end.
fn step_back(from: &Derivation, leaf: &Derivation) -> u32
    ensures { result ≡ step_back from.now leaf.now }
{
    if leaf.id == from.id {
        return from.id;
    }
    match leaf.parent {
        Some(parent) => parent,
        None => from.id,
    }
}

impl<I: Index> Nodes<I> {
    /// No derivations, and room for none. The first that is added has id 0.
    pub fn new(alloc: Global) -> Nodes<I>
        ensures none { result.delegations ≡ record { list = []; next = 0 } }
        ensures room { (pd : ℕ) → room result pd ≡ 0 }
    {
        Nodes {
            list: Linked::new(alloc),
            next: 0,
            spare: 0,
            spaces: Spaces::new(alloc),
            trail: Trail {
                from: 0,
                at: 0,
                next: 0,
            },
        }
    }

    /// Copies the derivations into memory of their own, and the domains with spaces, with no room for more.
    pub fn copy(&self) -> Result<Nodes<I>, AllocError>
        ensures same { IfOk result (λ copy. copy.delegations ≡ self.now.delegations) }
        ensures spaces { IfOk result (λ copy. (pd : ℕ) → HasSpaces self.now pd → HasSpaces copy pd) }
    {
        let list = self.list.copy()?;
        let spaces = self.spaces.copy()?;
        Ok(Nodes {
            list,
            next: self.next,
            spare: 0,
            spaces,
            trail: self.trail,
        })
    }

    /// Whether some memory derivation of the protection domain `pd` leads to `frame`.
    pub fn leads_to(&self, pd: u32, frame: u32) -> bool
        ensures { result ≡ list_any (leads_to pd frame) self.now.delegations.list }
    {
        self.list.leads_to(pd, frame)
    }

    /// The id that the next derivation takes.
    pub fn next(&self) -> u32
        ensures next { result ≡ self.now.delegations.next }
        ensures sound { IsSound self.now.delegations }
    {
        self.next
    }

    /// Makes the two spaces of the protection domain `pd`, with no derivations; those that are there stay.
    pub fn add_pd(&mut self, pd: u32) -> Result<(), AllocError>
        ensures there { OnOk result (HasSpaces self.new pd) }
        ensures kept { self.new.delegations ≡ self.old.delegations }
        ensures rooms { (other : ℕ) → room self.old other ≤ room self.new other }
        ensures err { OnErr result (self.new ≡ self.old) }
    {
        self.spaces.add_pd(pd)
    }

    /// Makes room for `n` more derivations of the protection domain `pd`, counted from those that are there,
    /// and its spaces where they are wanted for that. Room that was made before stays, for each domain its own,
    /// and where it is enough, this succeeds. Where memory runs out, no derivation and no room has changed; the
    /// spaces may have been made.
    pub fn reserve(&mut self, pd: u32, n: usize) -> Result<(), AllocError>
        ensures kept { self.new.delegations ≡ self.old.delegations }
        ensures ok { OnOk result (n ≤ room self.new pd) }
        ensures enough { n ≤ room self.old pd → IsOk result }
        ensures rooms { (other : ℕ) → room self.old other ≤ room self.new other }
        ensures err { OnErr result ((other : ℕ) → room self.new other ≡ room self.old other) }
    {
        let room = self.spaces.room(pd);
        if n <= room {
            return Ok(());
        }
        let spare = self.spare.checked_add(n - room).ok_or(AllocError)?;
        self.list.reserve(spare)?;
        self.spaces.reserve(pd, n)?;
        self.spare = spare;
        Ok(())
    }

    /// Makes room for `n` more derivations of the protection domain `pd` than there was room for. Where memory
    /// runs out, no derivation and no room has changed; the spaces may have been made.
    pub fn reserve_more(&mut self, pd: u32, n: usize) -> Result<(), AllocError>
        ensures kept { self.new.delegations ≡ self.old.delegations }
        ensures ok { OnOk result (room self.old pd + n ≤ room self.new pd) }
        ensures rooms { (other : ℕ) → room self.old other ≤ room self.new other }
        ensures err { OnErr result ((other : ℕ) → room self.new other ≡ room self.old other) }
    {
        let room = self.spaces.room(pd).checked_add(n).ok_or(AllocError)?;
        self.reserve(pd, room)
    }

    /// Adds a derivation to `pd` in room that was made for it, and answers its id. With the next id it fits
    /// into the forest: it lies within its parent, and shares no place with another of its space.
    fn add(
        &mut self,
        parent: Option<u32>,
        pd: u32,
        range: Range,
        rights: Rights,
        target: u32,
    ) -> u32
        requires room { 0 < room self.old pd }
        requires next { self.old.delegations.next < 2 ^ 32 - 1 }
        requires fits { IsFitting self.old.delegations (derived self.old.delegations.next parent pd range rights target) }
        requires placed { IsPlaced (derived self.old.delegations.next parent pd range rights target) }
        ensures id { result ≡ self.old.delegations.next }
        ensures added { self.new.delegations ≡ added self.old.delegations (derived self.old.delegations.next parent pd range rights target) }
        ensures room { room self.old pd ≤ room self.new pd + 1 }
        ensures others { (other : ℕ) → ¬ (other ≡ pd) → room self.old other ≤ room self.new other }
        ensures there { with_id self.new.delegations.list result ≡ Some (derived self.old.delegations.next parent pd range rights target) }
    {
        let id = self.next;
        self.list.push(Derivation {
            id,
            pd,
            kind: range.kind,
            base: range.base,
            order: range.order,
            rights,
            target,
            parent,
        });
        self.spaces.insert(pd, range, id);
        self.next += 1;
        self.spare -= 1;
        id
    }

    /// Adds a derivation with no parent to `pd`, in room that was made, and answers its id. It fits into the
    /// forest: it is aligned, and shares no place with another of its space.
    pub fn root(&mut self, pd: u32, range: Range, rights: Rights, target: u32) -> u32
        requires room { 0 < room self.old pd }
        requires next { self.old.delegations.next < 2 ^ 32 - 1 }
        requires fits { IsFitting self.old.delegations (derived self.old.delegations.next None pd range rights target) }
        requires placed { IsPlaced (derived self.old.delegations.next None pd range rights target) }
        ensures id { result ≡ self.old.delegations.next }
        ensures added { self.new.delegations ≡ added self.old.delegations (derived self.old.delegations.next None pd range rights target) }
        ensures room { room self.old pd ≤ room self.new pd + 1 }
        ensures others { (other : ℕ) → ¬ (other ≡ pd) → room self.old other ≤ room self.new other }
        ensures there { with_id self.new.delegations.list result ≡ Some (derived self.old.delegations.next None pd range rights target) }
    {
        self.add(None, pd, range, rights, target)
    }

    /// Adds a child of the derivation `parent` to `pd`, in room that was made, and answers its id. It fits into
    /// the forest: it is aligned, lies within its parent, and shares no place with another of its space.
    pub fn child(&mut self, parent: u32, pd: u32, range: Range, rights: Rights, target: u32) -> u32
        requires room { 0 < room self.old pd }
        requires next { self.old.delegations.next < 2 ^ 32 - 1 }
        requires fits { IsFitting self.old.delegations (derived self.old.delegations.next (Some parent) pd range rights target) }
        requires placed { IsPlaced (derived self.old.delegations.next (Some parent) pd range rights target) }
        ensures id { result ≡ self.old.delegations.next }
        ensures added { self.new.delegations ≡ added self.old.delegations (derived self.old.delegations.next (Some parent) pd range rights target) }
        ensures room { room self.old pd ≤ room self.new pd + 1 }
        ensures others { (other : ℕ) → ¬ (other ≡ pd) → room self.old other ≤ room self.new other }
        ensures there { with_id self.new.delegations.list result ≡ Some (derived self.old.delegations.next (Some parent) pd range rights target) }
    {
        self.add(Some(parent), pd, range, rights, target)
    }

    /// Takes away the derivation `id`, which is no other's parent. Where no derivation has the id, nothing changes.
    pub fn remove_leaf(&mut self, id: u32)
        requires childless { IsChildless self.old.delegations.list id }
        ensures removed { self.new.delegations ≡ without self.old.delegations id }
        ensures rooms { (other : ℕ) → room self.old other ≤ room self.new other }
    {
        let Some(d) = self.get(id) else { return };
        self.spaces.remove(d.pd, d.kind, d.base);
        self.list.remove(id);
    }

    /// The derivation `id`, or nothing where none has it.
    pub fn get(&self, id: u32) -> Option<Derivation>
        ensures found { result ≡ with_id self.now.delegations.list id }
        ensures placed { IfSome result IsPlaced }
        ensures sound { IsSound self.now.delegations }
    {
        self.list.get(id)
    }

    /// The derivation of least id at or after `id`, or nothing where there is none.
    pub fn from_id(&self, id: u32) -> Option<Derivation>
        ensures found { result ≡ from_id self.now.delegations.list id }
        ensures placed { IfSome result IsPlaced }
        ensures sound { IsSound self.now.delegations }
    {
        self.list.from_id(id)
    }

    /// The derivation that covers `place` of the space `kind` of `pd`, or nothing where none does. The search
    /// may be quicker the next time; what is kept stays.
    pub fn at(&mut self, pd: u32, kind: Kind, place: u32) -> Option<Derivation>
        ensures found { result ≡ find (covers kind pd place) self.new.delegations.list }
        ensures kept { self.new ≡ self.old }
        ensures placed { IfSome result IsPlaced }
        ensures sound { IsSound self.new.delegations }
    {
        let id = self.spaces.find(pd, kind, place)?;
        self.get(id)
    }

    /// The derivation that covers `place` of the space `kind` of `pd`, or nothing where none does, for callers that only look.
    pub fn covering(&self, pd: u32, kind: Kind, place: u32) -> Option<Derivation>
        ensures found { result ≡ find (covers kind pd place) self.now.delegations.list }
        ensures placed { IfSome result IsPlaced }
        ensures sound { IsSound self.now.delegations }
    {
        let (range, id) = self.spaces.first_from(pd, kind, place)?;
        if range.base > place {
            return None;
        }
        self.get(id)
    }

    /// The derivation of least base in the space `kind` of `pd` that holds some place at or after `place`, or nothing where there is none.
    pub fn first_from(&self, pd: u32, kind: Kind, place: u32) -> Option<Derivation>
        ensures found { result ≡ first_from self.now.delegations.list kind pd place }
        ensures placed { IfSome result IsPlaced }
        ensures sound { IsSound self.now.delegations }
    {
        let (_, id) = self.spaces.first_from(pd, kind, place)?;
        self.get(id)
    }

    /// The child of greatest id of the derivation `id`, or nothing where it has no child.
    pub fn newest_child(&self, id: u32) -> Option<u32>
        ensures found { result ≡ option_map id_of (newest_child self.now.delegations.list id) }
        ensures sound { IsSound self.now.delegations }
    {
        self.list.newest(id)
    }

    /// How far the way from `from`, from newest child to newest child, is known.
    fn resume(&self, from: &Derivation) -> Derivation
        requires there { Contains self.now.delegations.list from.now }
        ensures way { IsOnWay self.now.delegations.list from.now result }
        ensures there { Contains self.now.delegations.list result }
    {
        if self.trail.from == from.id && self.trail.next == self.next {
            match self.get(self.trail.at) {
                Some(d) => d,
                None => *from,
            }
        } else {
            *from
        }
    }

    /// The derivation at the end of the way from `from`, which is there, from newest child to newest child, for callers that only look.
    pub fn leaf_of(&self, from: Derivation) -> Derivation
        requires { Contains self.now.delegations.list from }
        ensures leaf { result ≡ leaf_by self.now.delegations.next self.now.delegations.list from }
        ensures way { IsOnWay self.now.delegations.list from result }
        ensures last { newest_child self.now.delegations.list result.id ≡ None }
    {
        let mut at = from;
        while let Some(child) = self.newest_child(at.id) {
            let Some(c) = self.get(child) else {
                unreachable!()
            };
            at = c;
        }
        at
    }

    /// The derivation at the end of the way from `from`, which is there, from newest child to newest child. The
    /// search begins one derivation before where the last search from there ended, if none has joined since;
    /// what is kept stays.
    pub fn leaf_below(&mut self, from: Derivation) -> Derivation
        requires { Contains self.old.delegations.list from }
        ensures leaf { result ≡ leaf_by self.old.delegations.next self.old.delegations.list from }
        ensures kept { self.new ≡ self.old }
    {
        let start = self.resume(&from);
        let leaf = self.leaf_of(start);
        self.trail = Trail {
            from: from.id,
            at: step_back(&from, &leaf),
            next: self.next,
        };
        leaf
    }

    /// The next older sibling of the derivation `id`, or nothing where it has no parent or none is older. It is
    /// that of greatest id below its own of its parent's children. The derivation is there.
    pub fn older(&self, id: u32) -> Option<u32>
        requires there { IsSome (with_id self.now.delegations.list id) }
        ensures found { IfSome (with_id self.now.delegations.list id) (λ d. result ≡ option_map id_of (older_child self.now.delegations.list d)) }
        ensures sound { IsSound self.now.delegations }
    {
        self.list.older(id)
    }

    /// The parent of the derivation `id`, which is there; nothing where it has none.
    pub fn parent(&self, id: u32) -> Option<u32>
        requires there { IsSome (with_id self.now.delegations.list id) }
        ensures found { IfSome (with_id self.now.delegations.list id) (λ d. result ≡ option_map id_of (parent_of self.now.delegations.list d)) }
        ensures sound { IsSound self.now.delegations }
    {
        let Some(d) = self.get(id) else {
            unreachable!()
        };
        d.parent
    }
}
