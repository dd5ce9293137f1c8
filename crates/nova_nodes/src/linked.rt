ghost use Rattle.std.specs.Prelude.{◌≡◌, ◌<◌, ◌-◌, ◌==◌, ℕ, [], ◌∷◌, ◌++◌, false, not, map, max, filter, option_map, Option, Some, None, IfOk, OnOk, OnErr, IsSome, IfSome};
ghost use Rattle.std.specs.List.{All, AllByRecursion, find, list_any};
ghost use Rattle.nova_model.specs.Inputs.{leads_to};
ghost use Rattle.nova_model.specs.Delegations.{is_child_of, is_from, is_id, newest_child, older_child, with_id, id_of};
ghost use Rattle.nova_model.specs.Forest.{IsChildless};
ghost use Rattle.nova_nodes.specs.NodesStates.{IsPlaced};
ghost use Rattle.nova_nodes.specs.Links.{changed_at, is_child_in, joined, left, or_else, past};

use crate::node::Node;
use crate::store::Store;
use nova_model::Derivation;
use std::alloc::{AllocError, Global};
use std::marker::Model;

/// Derivations by rising id, each with links to its newest child and to the next older and the next
/// younger child of its parent.
#[derive(Drop)]
pub(crate) struct Linked {
    store: Store,
    alloc: Global,
}

impl Model for Linked {
    ghost use Rattle.std.specs.Prelude.{◌<◌};
    ghost use Rattle.nova_model.specs.Forest.{ArePairs};
    ghost use Rattle.nova_nodes.specs.Links.{AreLinked, LinkedState, derivations};

    ghost Value = { LinkedState };

    ghost view = { λ l. record { list = derivations l.store.nodes; spare = l.store.spare } };

    ghost invariant = { λ l. AreLinked l.store.nodes × ArePairs (λ a b. a.id < b.id) (derivations l.store.nodes) };
}

/// Whether `link` leads to `id`.
fn is_id(id: u32, link: Option<u32>) -> bool
    ensures { result ≡ is_id id link }
{
    match link {
        Some(other) => other == id,
        None => false,
    }
}

/// `link`, or `next` where it leads to the node `gone`.
fn past(gone: u32, next: Option<u32>, link: Option<u32>) -> Option<u32>
    ensures { result ≡ past gone next link }
{
    match link {
        None => None,
        Some(id) => { if id == gone { next } else { Some(id) } }
    }
}

/// `node` with its links led past `gone`, a node that goes.
fn left(gone: &Node, node: Node) -> Node
    ensures { result ≡ left gone.now node }
{
    Node {
        derivation: node.derivation,
        newest: past(gone.derivation.id, gone.older, node.newest),
        older: past(gone.derivation.id, gone.older, node.older),
        younger: past(gone.derivation.id, gone.younger, node.younger),
    }
}

/// Whether `d` is a child of `parent`, if there is one.
fn is_child_in(parent: Option<u32>, d: &Derivation) -> bool
    ensures { result ≡ is_child_in parent d.now }
{
    match parent {
        None => false,
        Some(parent) => is_id(parent, d.parent),
    }
}

/// `link`, or else `id`: the next younger child where the derivation `id` joins.
fn or_else(link: Option<u32>, id: u32) -> Option<u32>
    ensures { result ≡ or_else link id }
{
    match link {
        None => Some(id),
        Some(other) => Some(other),
    }
}

/// `node` where `x` joins, a derivation of the greatest id.
fn joined(x: &Derivation, node: Node) -> Node
    ensures { result ≡ joined x.now node }
{
    let newest = if is_id(node.derivation.id, x.parent) {
        Some(x.id)
    } else {
        node.newest
    };
    let younger = if is_child_in(x.parent, &node.derivation) {
        or_else(node.younger, x.id)
    } else {
        node.younger
    };
    Node {
        derivation: node.derivation,
        newest,
        older: node.older,
        younger,
    }
}

/// Leads the links of the node `to` past `gone`, a node that goes.
fn pass(store: &mut Store, to: Option<u32>, gone: &Node)
    ensures { store.new ≡ record store.old { nodes = map (changed_at (left gone.now) to) store.old.nodes } }
{
    let Some(id) = to else { return };
    let Some(node) = store.get(id) else { return };
    store.set(left(gone, node));
}

/// Leads the links of the node `to` to `x`, a derivation that joins.
fn join(store: &mut Store, to: Option<u32>, x: &Derivation)
    ensures { store.new ≡ record store.old { nodes = map (changed_at (joined x.now) to) store.old.nodes } }
{
    let Some(id) = to else { return };
    let Some(node) = store.get(id) else { return };
    store.set(joined(x, node));
}

impl Linked {
    /// No derivations, and room for none.
    pub(crate) fn new(alloc: Global) -> Linked
        ensures { result ≡ record { list = []; spare = 0 } }
    {
        Linked {
            store: Store::new(alloc),
            alloc,
        }
    }

    /// Makes room for `n` more derivations, counted from those that are there.
    pub(crate) fn reserve(&mut self, n: usize) -> Result<(), AllocError>
        ensures ok { OnOk result (self.new ≡ record self.old { spare = max self.old.spare n }) }
        ensures err { OnErr result (self.new ≡ self.old) }
    {
        self.store.reserve(n)
    }

    /// Copies the derivations into memory of their own, with no room for more.
    pub(crate) fn copy(&self) -> Result<Linked, AllocError>
        ensures { IfOk result (λ copy. copy ≡ record self.now { spare = 0 }) }
    {
        Ok(Linked {
            store: self.store.copy(self.alloc)?,
            alloc: self.alloc,
        })
    }

    /// Whether some memory derivation of the protection domain `pd` leads to `frame`.
    pub(crate) fn leads_to(&self, pd: u32, frame: u32) -> bool
        requires { All IsPlaced self.now.list }
        ensures { result ≡ list_any (leads_to pd frame) self.now.list }
    {
        self.store.leads_to(pd, frame)
    }

    /// The derivation of least id at or after `id`.
    pub(crate) fn from_id(&self, id: u32) -> Option<Derivation>
        ensures { result ≡ find (is_from id) self.now.list }
    {
        Some(self.store.from_id(id)?.derivation)
    }

    /// The derivation `id`.
    pub(crate) fn get(&self, id: u32) -> Option<Derivation>
        ensures { result ≡ with_id self.now.list id }
    {
        Some(self.store.get(id)?.derivation)
    }

    /// The newest child of the derivation `id`; nothing where that isn't there.
    pub(crate) fn newest(&self, id: u32) -> Option<u32>
        ensures found { IsSome (with_id self.now.list id) → result ≡ option_map id_of (newest_child self.now.list id) }
        ensures absent { with_id self.now.list id ≡ None → result ≡ None }
    {
        self.store.get(id)?.newest
    }

    /// The next older child of the parent of the derivation `id`; nothing where that isn't there.
    pub(crate) fn older(&self, id: u32) -> Option<u32>
        ensures { IfSome (with_id self.now.list id) (λ d. result ≡ option_map id_of (older_child self.now.list d)) }
    {
        self.store.get(id)?.older
    }

    /// The newest child of `parent`, if there is one.
    fn newest_of(&self, parent: Option<u32>) -> Option<u32>
        ensures none { parent ≡ None → result ≡ None }
        ensures some { (p : ℕ) → parent ≡ Some p → IsSome (with_id self.now.list p) → result ≡ option_map id_of (newest_child self.now.list p) }
    {
        match parent {
            Some(parent) => self.newest(parent),
            None => None,
        }
    }

    /// Adds `x`, a derivation of a greater id than all, whose parent is there and which has no child.
    pub(crate) fn push(&mut self, x: Derivation)
        requires room { 0 < self.old.spare }
        requires last { AllByRecursion (λ a. a.id < x.id) self.old.list }
        requires childless { IsChildless self.old.list x.id }
        requires parent { IfSome x.parent (λ p. IsSome (with_id self.old.list p)) }
        ensures { self.new ≡ record { list = self.old.list ++ x ∷ []; spare = self.old.spare - 1 } }
    {
        let older = self.newest_of(x.parent);
        join(&mut self.store, x.parent, &x);
        join(&mut self.store, older, &x);
        self.store.push(Node {
            derivation: x,
            newest: None,
            older,
            younger: None,
        });
    }

    /// Takes away the derivation `id`, if there is one.
    pub(crate) fn remove(&mut self, id: u32)
        ensures { self.new ≡ record self.old { list = filter (λ d. not (d.id == id)) self.old.list } }
    {
        let Some(gone) = self.store.get(id) else {
            return;
        };
        pass(&mut self.store, gone.derivation.parent, &gone);
        pass(&mut self.store, gone.older, &gone);
        pass(&mut self.store, gone.younger, &gone);
        self.store.remove(id);
    }
}
