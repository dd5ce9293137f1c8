ghost use Rattle.std.specs.Prelude.{◌≡◌, IsTrue, ◌+◌, ◌-◌, ◌^◌, ◌<◌, ◌≤◌, ◌==◌, ◌&&◌, ◌||◌, ℕ, Contains, IfSome, IsSome};
ghost use Rattle.nova_range.specs.Ranges.{IsRange, end_of, overlaps};
ghost use Rattle.nova_range.specs.declared.rights.Rights.{Rights};
ghost use Rattle.nova_model.specs.Delegations.{is_same_kind, with_id, parent_of, derived};
ghost use Rattle.nova_model.specs.Revokes.{is_met, first_target, end_target, leads_into, is_made_of, is_own, is_top, in_scope, busy};
ghost use Rattle.nova_nodes.specs.NodesStates.{IsPlaced, IsSound};

use crate::revoke::Revoke;
use nova_model::Derivation;
use nova_nodes::{Guarded, Nodes};
use nova_range::{Index, Kind, Range, inside, overlap};

/// Whether `a` and `b` are the same.
fn is_same_kind(a: Kind, b: Kind) -> bool
    ensures { result ≡ is_same_kind a b }
{
    match (a, b) {
        (Kind::Mem, Kind::Mem) | (Kind::Obj, Kind::Obj) => true,
        (Kind::Mem, Kind::Obj) | (Kind::Obj, Kind::Mem) => false,
    }
}

/// The first place after `range`, at most 2^20.
pub(crate) fn end(range: Range) -> u32
    requires { IsRange range }
    ensures { result ≡ end_of range }
{
    range.base + (1 << range.order)
}

/// Whether `range` is the revoker's and shares a place with that of the revoke.
fn meets(revoke: &Revoke, pd: u32, range: Range) -> bool
    requires { IsRange range }
    ensures { result ≡ (is_same_kind revoke.now.range.kind range.kind && (pd == revoke.now.pd && overlaps range revoke.now.range)) }
{
    is_same_kind(revoke.range.kind, range.kind) && pd == revoke.pd && overlap(range, revoke.range)
}

/// The first target of the places that the derivation `d` shares with the range of `revoke`.
fn first_target(revoke: &Revoke, d: &Derivation) -> u64
    requires placed { IsPlaced d.now }
    requires met { IsTrue (is_met revoke.now d.now) }
    ensures { result ≡ first_target revoke.now d.now }
{
    let first = d.base.max(revoke.range.base);
    d.target as u64 + (first - d.base) as u64
}

/// The first target after these of `d`.
fn end_target(revoke: &Revoke, d: &Derivation) -> u64
    requires placed { IsPlaced d.now }
    requires met { IsTrue (is_met revoke.now d.now) }
    ensures { result ≡ end_target revoke.now d.now }
{
    let end = end(d.range()).min(end(revoke.range));
    d.target as u64 + (end - d.base) as u64
}

/// Whether one of `2^order` targets is among those of the places that the derivation `d` shares with the range of `revoke`.
fn leads_into(revoke: &Revoke, d: &Derivation, target: u32, order: u8) -> bool
    requires placed { IsPlaced d.now }
    requires order { order ≤ 20 }
    ensures { result ≡ leads_into revoke.now d.now target order }
{
    meets(revoke, d.pd, d.range())
        && (target as u64) < end_target(revoke, d)
        && first_target(revoke, d) < target as u64 + (1u64 << order)
}

/// Whether `child`, whose parent is `parent`, is made of the revoker's places in the range of `revoke`.
fn is_made_of(revoke: &Revoke, child: &Derivation, parent: Option<Derivation>) -> bool
    requires placed { IsPlaced child.now }
    requires parent { IfSome parent IsPlaced }
    ensures { result ≡ is_made_of revoke.now child.now parent }
{
    match parent {
        Some(d) => leads_into(revoke, &d, child.target, child.order),
        None => false,
    }
}

/// Whether the derivation `d` is the revoker's own and goes too.
fn is_own(revoke: &Revoke, d: &Derivation) -> bool
    requires { IsPlaced d.now }
    ensures { result ≡ is_own revoke.now d.now }
{
    revoke.own && meets(revoke, d.pd, d.range()) && inside(d.range(), revoke.range)
}

/// The parent of the derivation `d`.
fn parent_of<I: Index>(nodes: &Nodes<I>, d: &Derivation) -> Option<Derivation>
    ensures found { result ≡ parent_of nodes.now.delegations.list d.now }
    ensures placed { IfSome result IsPlaced }
{
    let id = d.parent?;
    nodes.get(id)
}

/// Whether `d`, which is there, is in the scope of `revoke`.
pub(crate) fn in_scope_of<I: Index>(nodes: &Nodes<I>, revoke: &Revoke, d: Derivation) -> bool
    requires sound { IsSound nodes.now.delegations }
    requires there { Contains nodes.now.delegations.list d }
    requires placed { IsPlaced d }
    ensures { result ≡ in_scope revoke.now nodes.now.delegations.list d }
{
    let mut at = d;
    loop {
        let parent = parent_of(nodes, &at);
        if is_made_of(revoke, &at, parent) || is_own(revoke, &at) {
            return true;
        }
        match parent {
            None => return false,
            Some(p) => at = p,
        }
    }
}

/// Whether the derivation `id`, which is there, is in the scope of `revoke`. The scope is what was made of the
/// places that the revoker has in the range, where the revoke takes own derivations too those of the revoker's
/// that lie inside the range, and all descendants of both.
pub fn in_scope<I: Index>(nodes: &Nodes<I>, revoke: &Revoke, id: u32) -> bool
    requires there { IsSome (with_id nodes.now.delegations.list id) }
    ensures { IfSome (with_id nodes.now.delegations.list id) (λ d. result ≡ in_scope revoke.now nodes.now.delegations.list d) }
{
    let Some(d) = nodes.get(id) else {
        unreachable!()
    };
    in_scope_of(nodes, revoke, d)
}

/// Whether a further derivation may not join while `revoke` runs: it would be in the scope, or it would be the
/// revoker's and share a place with the range. Its parent is there.
pub fn would_grow<I: Index>(
    nodes: &Nodes<I>,
    revoke: &Revoke,
    parent: Option<u32>,
    pd: u32,
    range: Range,
    target: u32,
) -> bool
    requires range { IsRange range }
    requires targets { target + 2 ^ range.order ≤ 2 ^ 32 }
    requires parent { IfSome parent (λ id. IsSome (with_id nodes.now.delegations.list id)) }
    ensures busy { (rights : Rights) → result ≡ busy revoke.now nodes.now.delegations.list (derived nodes.now.delegations.next parent pd range rights target) }
{
    if meets(revoke, pd, range) {
        return true;
    }
    let Some(id) = parent else {
        return false;
    };
    let Some(d) = nodes.get(id) else {
        unreachable!()
    };
    leads_into(revoke, &d, target, range.order) || in_scope_of(nodes, revoke, d)
}

impl Guarded for Revoke {
    ghost revoke = { λ r. r };

    fn would_grow<I: Index>(
        &self,
        nodes: &Nodes<I>,
        parent: Option<u32>,
        pd: u32,
        range: Range,
        target: u32,
    ) -> bool {
        would_grow(nodes, self, parent, pd, range, target)
    }
}
