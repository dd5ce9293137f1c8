// A part of a delegation, and one of a revoke: what is next, done.
ghost use Rattle.std.specs.Prelude.{◌≤◌, ◌+◌, ◌-◌, ◌^◌, ◌<◌};
ghost use Rattle.nova_delegate.specs.Parts.{IsReady, IsUnderWay};

use nova_delegate::{Job, Reason, next_part};
use nova_model::Derivation;
use nova_nodes::Nodes;
use nova_revoke::{Revoke, next_leaf};
use nova_space::Space;
use std::process::Abort;

/// What a part of a delegation did.
#[derive(Clone, Copy)]
pub enum PartDone {
    /// It made the child of this id.
    Made(u32),
    /// It skipped a derivation for this reason. The derivation's places of the source begin at this place.
    Skipped(Reason, u32),
    /// No derivation was left.
    Ended,
}

/// Adds `child`, and answers its id.
fn add(rt: &impl Abort, nodes: &mut Nodes<Space>, child: &Derivation) -> u32
    requires next { nodes.old.delegations.next < 2 ^ 32 - 1 }
    requires child { IsReady nodes.old.delegations child.now }
    ensures { nodes.new.delegations.next ≤ nodes.old.delegations.next + 1 }
{
    nodes.reserve(child.pd, 1).expect(rt, "ample memory");
    let Some(parent) = child.parent else {
        unreachable!()
    };
    nodes.child(parent, child.pd, child.range(), child.rights, child.target)
}

/// Gives the next part of `item` while `revokes` run, and the item goes on behind it.
pub fn give(
    rt: &impl Abort,
    nodes: &mut Nodes<Space>,
    item: &mut Job,
    revokes: &[Revoke],
) -> PartDone
    requires next { nodes.old.delegations.next < 2 ^ 32 - 1 }
    requires item { IsUnderWay item.old }
    ensures next { nodes.new.delegations.next ≤ nodes.old.delegations.next + 1 }
    ensures item { IsUnderWay item.new }
{
    let Some((source, child)) = next_part(nodes, item, revokes) else {
        return PartDone::Ended;
    };
    let place = source.base.max(item.source);
    item.cursor = source.base + (1 << source.order);
    match child {
        Ok(child) => PartDone::Made(add(rt, nodes, &child)),
        Err(reason) => PartDone::Skipped(reason, place),
    }
}

/// Takes the next leaf of `revoke`, and answers its id and domain; nothing where none is left.
pub fn take(nodes: &mut Nodes<Space>, revoke: &Revoke) -> Option<(u32, u32)>
    ensures { nodes.new.delegations.next ≤ nodes.old.delegations.next }
{
    let leaf = next_leaf(nodes, revoke)?;
    nodes.remove_leaf(leaf.id);
    Some((leaf.id, leaf.pd))
}
