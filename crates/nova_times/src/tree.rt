ghost use Rattle.std.specs.Prelude.{◌≡◌, ◌<◌, ◌≤◌, ◌+◌, ◌*◌, ◌-◌, ◌/◌, ◌^◌, ℕ, [], length, replicate, slice_set, vec_capacity, None, IfOk, OnOk, OnErr};
ghost use Rattle.nova_times.specs.Trees.{IsTree, IsTreeBut, leaf, least_of, node, of_children};

use crate::entry::{Entry, lesser};
use std::alloc::{AllocError, Global};
use std::marker::Model;

/// Entries by number, and above them a tree whose nodes each have the lesser of two, so that the least of all is at its root, and a change costs one
/// path to it. There are as many inner nodes as leaves; inner node 0 is not used.
#[derive(Drop)]
pub(crate) struct Tree {
    leaves: Vec<Option<Entry>>,
    inner: Vec<Option<Entry>>,
}

impl Model for Tree {
    ghost use Rattle.std.specs.Prelude.{List, Option};
    ghost use Rattle.nova_times.specs.declared.entry.Entry.{Entry};
    ghost use Rattle.nova_times.specs.Trees.{IsTree};

    ghost Value = { List (Option Entry) };

    ghost view = { λ t. t.leaves.items };

    ghost invariant = { λ t. IsTree t.inner.items t.leaves.items };
}

/// What stands at `n`, or nothing.
fn leaf(entries: &[Option<Entry>], n: usize) -> Option<Entry>
    ensures { result ≡ leaf entries.now n }
{
    *entries.get(n)?
}

/// The node `i`: behind the inner nodes come the leaves.
fn node(inner: &[Option<Entry>], leaves: &[Option<Entry>], i: usize) -> Option<Entry>
    ensures { result ≡ node inner.now leaves.now i }
{
    if i < inner.len() {
        leaf(inner, i)
    } else {
        leaf(leaves, i - inner.len())
    }
}

/// Gives the node `i` the lesser of its children.
fn settle(inner: &mut Vec<Option<Entry>>, leaves: &[Option<Entry>], i: usize)
    requires { i < length inner.old.items }
    ensures { inner.new.items ≡ slice_set inner.old.items i (of_children inner.old.items leaves.now i) }
{
    let nodes = inner.as_slice();
    let least = lesser(node(nodes, leaves, 2 * i), node(nodes, leaves, 2 * i + 1));
    inner[i] = least;
}

/// Gives each node on the way up from `from` the lesser of its children.
#[tactic(auto, using(crate::proofs::Trees::settled, crate::proofs::Trees::all_settled))]
fn climb(inner: &mut Vec<Option<Entry>>, leaves: &[Option<Entry>], from: usize)
    requires low { from < length inner.old.items }
    requires tree { IsTreeBut from inner.old.items leaves.now }
    ensures { IsTree inner.new.items leaves.now }
{
    let mut i = from;
    while i > 0 {
        settle(inner, leaves, i);
        i /= 2;
    }
}

/// Each node gets the lesser of its children.
#[tactic(auto, using(crate::proofs::Trees::built, crate::proofs::Trees::all_built))]
fn build(inner: &mut Vec<Option<Entry>>, leaves: &[Option<Entry>])
    requires { length leaves.now ≡ length inner.old.items }
    ensures { IsTree inner.new.items leaves.now }
{
    let mut i = inner.len();
    while i > 1 {
        i -= 1;
        settle(inner, leaves, i);
    }
}

/// `count` places with nothing.
fn places(alloc: Global, count: usize) -> Result<Vec<Option<Entry>>, AllocError>
    ensures { IfOk result (λ v. v.items ≡ replicate count None) }
{
    let mut places = Vec::new(alloc);
    places.reserve(count)?;
    for _ in 0..count {
        places.push(None)?;
    }
    Ok(places)
}

/// Puts nothing at each number before `count` that isn't there yet, in room that was made.
fn pad(leaves: &mut Vec<Option<Entry>>, count: usize)
    requires room { count ≤ vec_capacity leaves.old }
    requires more { length leaves.old.items ≤ count }
    ensures same { (n : ℕ) → leaf leaves.new.items n ≡ leaf leaves.old.items n }
    ensures count { length leaves.new.items ≡ count }
{
    for _ in leaves.len()..count {
        leaves.push_reserved(None);
    }
}

impl Tree {
    /// No entries, and places for none.
    pub(crate) fn new(alloc: Global) -> Tree
        ensures { result ≡ [] }
    {
        Tree {
            leaves: Vec::new(alloc),
            inner: Vec::new(alloc),
        }
    }

    /// Makes places for the numbers before `count`.
    pub(crate) fn reserve(&mut self, count: usize) -> Result<(), AllocError>
        requires few { count ≤ 2 ^ 32 }
        ensures same { (n : ℕ) → leaf self.new n ≡ leaf self.old n }
        ensures keeps { length self.old ≤ length self.new }
        ensures room { OnOk result (count ≤ length self.new) }
    {
        let now = self.leaves.len();
        if count <= now {
            return Ok(());
        }
        let all = count.max(now.saturating_mul(2));
        let mut inner = places(*self.leaves.allocator(), all)?;
        self.leaves.reserve(all - now)?;
        pad(&mut self.leaves, all);
        build(&mut inner, self.leaves.as_slice());
        self.inner = inner;
        Ok(())
    }

    /// Puts `e`, an entry or nothing, at `n`, which has a place.
    #[tactic(auto, using(crate::proofs::Trees::put_in))]
    pub(crate) fn put(&mut self, n: usize, e: Option<Entry>)
        requires { n < length self.old }
        ensures { self.new ≡ slice_set self.old n e }
    {
        let parent = (self.leaves.len() + n) / 2;
        self.leaves[n] = e;
        climb(&mut self.inner, self.leaves.as_slice(), parent);
    }

    /// The entry before which no other comes.
    #[tactic(auto, using(crate::proofs::Trees::root_is))]
    #[inline(always)]
    pub(crate) fn least(&self) -> Option<Entry>
        ensures { result ≡ least_of self.now }
    {
        node(self.inner.as_slice(), self.leaves.as_slice(), 1)
    }

    /// Copies the tree.
    pub(crate) fn copy(&self, alloc: Global) -> Result<Tree, AllocError>
        ensures { IfOk result (λ t. t ≡ self.now) }
    {
        let leaves = Vec::from_slice(alloc, self.leaves.as_slice())?;
        let inner = Vec::from_slice(alloc, self.inner.as_slice())?;
        Ok(Tree { leaves, inner })
    }
}
