ghost use Rattle.std.specs.Prelude.{◌≡◌, ◌<◌, ◌≤◌, ◌-◌, [], ◌∷◌, ◌++◌, not, length, map, max, filter, drop, take, slice_get, option_map, Some, IfOk, OnOk, OnErr, IfSome};
ghost use Rattle.std.specs.List.{All, AllByRecursion, find, list_any};
ghost use Rattle.slab.specs.Slab.{ContainsKey, Updates, slab_len};
ghost use Rattle.nova_model.specs.Inputs.{leads_to};
ghost use Rattle.nova_nodes.specs.Links.{IsSmall, derivations, passes_in};
ghost use Rattle.nova_nodes.specs.NodesStates.{IsPlaced};
ghost use Rattle.nova_nodes.specs.Stores.{AreInOrder, AreRising, is_after, is_number, node_at, node_id, node_of, nodes_at, place_id, put};

use crate::node::{Entry, Node, Place};
use nova_model::Derivation;
use nova_range::Kind;
use slab::Slab;
use std::alloc::{AllocError, Global};
use std::marker::Model;

/// Nodes in a slab, with their places by rising id: ids rise, and none is used twice. A node that is taken away
/// leaves its place behind; once more than half of the places are such, all of them are pressed out, so that on
/// average a removal moves few places.
#[derive(Drop)]
pub(crate) struct Store {
    slab: Slab<Node>,
    places: Vec<Place>,
    gone: usize,
    spare: usize,
}

impl Model for Store {
    ghost use Rattle.std.specs.Prelude.{◌≡◌, ◌+◌, ◌≤◌, length, vec_len, vec_capacity};
    ghost use Rattle.slab.specs.Slab.{HasRoomFor};
    ghost use Rattle.nova_nodes.specs.Stores.{AreInOrder, StoreState, nodes_at};

    ghost Value = { StoreState };

    ghost view = { λ s. record { nodes = nodes_at s.slab s.places.items; spare = s.spare } };

    ghost invariant = { λ s. AreInOrder s.places.items × ((length (nodes_at s.slab s.places.items) + s.gone ≡ length s.places.items) × ((vec_len s.places + s.spare ≤ vec_capacity s.places) × HasRoomFor s.slab s.spare)) };
}

/// At which index of `places` the first id from `id` on stands.
fn point(places: &[Place], id: u32) -> usize
    requires { AreInOrder places.now }
    ensures bound { result ≤ length places.now }
    ensures found { slice_get places.now result ≡ find (is_after place_id id) places.now }
    ensures before { take result places.now ≡ filter (λ p. not (is_after place_id id p)) places.now }
    ensures rest { drop result places.now ≡ filter (is_after place_id id) places.now }
{
    places.partition_point(|p| p.id < id)
}

/// The first of `places` whose id is at or after `id`.
fn first_place(places: &[Place], id: u32) -> Option<Place>
    requires { AreInOrder places.now }
    ensures { result ≡ find (is_after place_id id) places.now }
{
    places.get(point(places, id)).copied()
}

/// The node at `place`, if it is still there.
fn node_at(slab: &Slab<Node>, place: &Place) -> Option<Node>
    ensures { result ≡ node_at slab.now place.now }
{
    let node = slab.get(place.key).copied()?;
    if node.derivation.id == place.id {
        Some(node)
    } else {
        None
    }
}

/// The node of `id` with its place, if there is one.
fn entry_of(slab: &Slab<Node>, places: &[Place], id: u32) -> Option<Entry>
    requires { AreInOrder places.now }
    ensures node { option_map node_of result ≡ find (is_number node_id id) (nodes_at slab.now places.now) }
    ensures place { IfSome result (λ e. find (is_after place_id id) places.now ≡ Some e.place) }
    ensures there { IfSome result (λ e. node_at slab.now e.place ≡ Some e.node) }
    ensures id { IfSome result (λ e. e.node.derivation.id ≡ id) }
{
    let place = first_place(places, id)?;
    let node = node_at(slab, &place)?;
    if node.derivation.id == id {
        Some(Entry { place, node })
    } else {
        None
    }
}

/// The first node that is at one of `places`.
fn first_node(slab: &Slab<Node>, places: &[Place]) -> Option<Node>
    ensures { result ≡ slice_get (nodes_at slab.now places.now) 0 }
{
    for place in places {
        if let Some(node) = node_at(slab, place) {
            return Some(node);
        }
    }
    None
}

/// Writes `node` at `key`, which has one.
fn write(slab: &mut Slab<Node>, key: usize, node: Node)
    requires { ContainsKey slab.old key }
    ensures updates { Updates slab.old slab.new key (Some node) }
    ensures len { slab_len slab.new ≡ slab_len slab.old }
    ensures capacity { slab.new.capacity ≡ slab.old.capacity }
{
    slab.remove(key);
    slab.insert_reserved(node);
}

/// Whether the derivation `d` is of the memory of the protection domain `pd`, and leads to `frame`.
fn leads_to(d: &Derivation, pd: u32, frame: u32) -> bool
    requires { d.now.order ≤ 20 }
    ensures { result ≡ leads_to pd frame d.now }
{
    matches!(d.kind, Kind::Mem)
        && d.pd == pd
        && d.target <= frame
        && frame - d.target < 1 << d.order
}

/// Whether the derivation of the node at `place` leads to `frame`.
fn leads_at(slab: &Slab<Node>, place: &Place, pd: u32, frame: u32) -> bool
    requires { IsSmall (node_at slab.now place.now) }
    ensures { result ≡ passes_in (leads_to pd frame) (node_at slab.now place.now) }
{
    match node_at(slab, place) {
        Some(node) => leads_to(&node.derivation, pd, frame),
        None => false,
    }
}

/// Whether the derivation of some node at places leads to `frame`.
fn some_leads(slab: &Slab<Node>, places: &[Place], pd: u32, frame: u32) -> bool
    requires { All (λ p. IsSmall (node_at slab.now p)) places.now }
    ensures { result ≡ list_any (λ p. passes_in (leads_to pd frame) (node_at slab.now p)) places.now }
{
    for place in places {
        if leads_at(slab, place, pd, frame) {
            return true;
        }
    }
    false
}

impl Store {
    /// No nodes, and room for none.
    pub(crate) fn new(alloc: Global) -> Store
        ensures { result ≡ record { nodes = []; spare = 0 } }
    {
        Store {
            slab: Slab::new(alloc),
            places: Vec::new(alloc),
            gone: 0,
            spare: 0,
        }
    }

    /// Copies the nodes into memory of their own, with no room for more.
    pub(crate) fn copy(&self, alloc: Global) -> Result<Store, AllocError>
        ensures { IfOk result (λ copy. copy ≡ record self.now { spare = 0 }) }
    {
        let mut slab = self.slab.clone()?;
        // This takes no memory; it says that the copy has room for what it holds.
        slab.reserve(0)?;
        let places = Vec::from_slice(alloc, self.places.as_slice())?;
        Ok(Store {
            slab,
            places,
            gone: self.gone,
            spare: 0,
        })
    }

    /// Makes room for `n` more nodes, counted from those that are there.
    pub(crate) fn reserve(&mut self, n: usize) -> Result<(), AllocError>
        ensures ok { OnOk result (self.new ≡ record self.old { spare = max self.old.spare n }) }
        ensures err { OnErr result (self.new ≡ self.old) }
    {
        let spare = self.spare.max(n);
        self.slab.reserve(spare)?;
        self.places.reserve(spare)?;
        self.spare = spare;
        Ok(())
    }

    /// Whether some memory derivation of the protection domain `pd` leads to `frame`.
    pub(crate) fn leads_to(&self, pd: u32, frame: u32) -> bool
        requires { All IsPlaced (derivations self.now.nodes) }
        ensures { result ≡ list_any (leads_to pd frame) (derivations self.now.nodes) }
    {
        some_leads(&self.slab, self.places.as_slice(), pd, frame)
    }

    /// The node of least id at or after `id`.
    pub(crate) fn from_id(&self, id: u32) -> Option<Node>
        ensures found { result ≡ find (is_after node_id id) self.now.nodes }
        ensures rising { AreRising self.now.nodes }
    {
        let places = self.places.as_slice();
        let at = point(places, id);
        first_node(&self.slab, &places[at..])
    }

    /// The node of `id`.
    pub(crate) fn get(&self, id: u32) -> Option<Node>
        ensures found { result ≡ find (is_number node_id id) self.now.nodes }
        ensures rising { AreRising self.now.nodes }
    {
        let entry = entry_of(&self.slab, self.places.as_slice(), id)?;
        Some(entry.node)
    }

    /// Adds `node` of a greater id than all, in room that was made.
    pub(crate) fn push(&mut self, node: Node)
        requires room { 0 < self.old.spare }
        requires last { AllByRecursion (λ n. n.derivation.id < node.derivation.id) self.old.nodes }
        ensures { self.new ≡ record { nodes = self.old.nodes ++ node ∷ []; spare = self.old.spare - 1 } }
    {
        let id = node.derivation.id;
        // Those that had this id or a greater one are gone, and so are their places now.
        let end = point(self.places.as_slice(), id);
        self.gone -= self.places.len() - end;
        self.places.truncate(end);
        let key = self.slab.insert_reserved(node);
        self.places.push_reserved(Place { id, key });
        self.spare -= 1;
    }

    /// Puts `node` in the place of that of its id, if there is one.
    pub(crate) fn set(&mut self, node: Node)
        ensures { self.new ≡ record self.old { nodes = map (put node) self.old.nodes } }
    {
        let Some(entry) = entry_of(&self.slab, self.places.as_slice(), node.derivation.id) else {
            return;
        };
        write(&mut self.slab, entry.place.key, node);
    }

    /// Presses out the places of nodes that are gone, if they are more than half.
    fn press(&mut self)
        ensures { self.new ≡ self.old }
    {
        if self.gone <= self.places.len() / 2 {
            return;
        }
        let slab = &self.slab;
        self.places.retain(|place| node_at(slab, place).is_some());
        self.gone = 0;
    }

    /// Takes away the node of `id`, if there is one.
    pub(crate) fn remove(&mut self, id: u32)
        ensures { self.new ≡ record self.old { nodes = filter (λ n. not (is_number node_id id n)) self.old.nodes } }
    {
        let Some(entry) = entry_of(&self.slab, self.places.as_slice(), id) else {
            return;
        };
        self.slab.remove(entry.place.key);
        self.gone += 1;
        self.press();
    }
}
