ghost use Rattle.std.specs.Prelude.{◌≡◌, ◌↔◌, [], Contains, None, IfSome};
ghost use Rattle.law_forest.specs.Courses.{IsLeaf};
ghost use Rattle.nova_model.specs.Delegations.{first_from};
ghost use Rattle.nova_model.specs.Revokes.{scope, newest_in, is_entry, scope_entry, leaf_by, next_leaf};
ghost use Rattle.nova_nodes.specs.NodesStates.{IsPlaced, IsSound};

use crate::revoke::Revoke;
use crate::scope::{end, in_scope_of};
use nova_model::Derivation;
use nova_nodes::Nodes;
use nova_range::Index;

/// The newest child of the derivation `id` that is in the scope of `revoke`.
fn newest_in<I: Index>(nodes: &Nodes<I>, revoke: &Revoke, id: u32) -> Option<Derivation>
    requires sound { IsSound nodes.now.delegations }
    ensures { result ≡ newest_in revoke.now nodes.now.delegations.list id }
{
    let mut at = nodes.newest_child(id);
    while let Some(child) = at {
        let Some(d) = nodes.get(child) else {
            unreachable!()
        };
        if in_scope_of(nodes, revoke, d) {
            return Some(d);
        }
        at = nodes.older(child);
    }
    None
}

/// Whether `d`, of the revoker's, is in the scope or has a child in it.
fn is_entry<I: Index>(nodes: &Nodes<I>, revoke: &Revoke, d: Derivation) -> bool
    requires sound { IsSound nodes.now.delegations }
    requires there { Contains nodes.now.delegations.list d }
    requires placed { IsPlaced d }
    requires pd { d.pd ≡ revoke.now.pd }
    ensures { result ≡ is_entry revoke.now nodes.now.delegations.list d }
{
    in_scope_of(nodes, revoke, d) || newest_in(nodes, revoke, d.id).is_some()
}

/// The revoker's derivation of least base that has a place at or after `place`.
fn next_held<I: Index>(nodes: &Nodes<I>, revoke: &Revoke, place: u32) -> Option<Derivation>
    ensures found { result ≡ first_from nodes.now.delegations.list revoke.now.range.kind revoke.now.pd place }
    ensures placed { IfSome result IsPlaced }
    ensures sound { IsSound nodes.now.delegations }
{
    nodes.first_from(revoke.pd, revoke.range.kind, place)
}

/// The entry at which the way to the next leaf of `revoke` begins.
fn scope_entry<I: Index>(nodes: &Nodes<I>, revoke: &Revoke) -> Option<Derivation>
    ensures found { result ≡ scope_entry revoke.now nodes.now.delegations.list }
    ensures sound { IsSound nodes.now.delegations }
{
    let mut place = 0;
    while let Some(d) = next_held(nodes, revoke, place) {
        if is_entry(nodes, revoke, d) {
            return Some(d);
        }
        place = end(d.range());
    }
    None
}

/// Searches for the leaf that `revoke` takes next.
fn find_leaf<I: Index>(nodes: &mut Nodes<I>, revoke: &Revoke) -> Option<Derivation>
    ensures found { result ≡ next_leaf revoke.now nodes.old.delegations }
    ensures sound { IsSound nodes.old.delegations }
    ensures kept { nodes.new ≡ nodes.old }
{
    let d = scope_entry(nodes, revoke)?;
    match newest_in(nodes, revoke, d.id) {
        None => Some(d),
        Some(c) => Some(nodes.leaf_below(c)),
    }
}

/// The leaf that `revoke` takes next, a derivation of its scope without a child; nothing exactly where the scope is empty. It is found thus. Of the
/// revoker's derivations that are in the scope or have a child in it, the way begins at that of least base, and goes to its newest child in the scope
/// and on from newest child to newest child; where none of its children is in the scope, it ends at once. The next search may be quicker; what is
/// kept stays.
pub fn next_leaf<I: Index>(nodes: &mut Nodes<I>, revoke: &Revoke) -> Option<Derivation>
    ensures found { result ≡ next_leaf revoke.now nodes.old.delegations }
    ensures leaf { IfSome result (IsLeaf revoke.now nodes.old.delegations) }
    ensures ended { (result ≡ None) ↔ (scope revoke.now nodes.old.delegations.list ≡ []) }
    ensures kept { nodes.new ≡ nodes.old }
{
    find_leaf(nodes, revoke)
}
