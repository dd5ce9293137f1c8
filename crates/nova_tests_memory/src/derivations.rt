ghost use Rattle.nova_model.specs.Forest.{IsChildless};

use nova_nodes::{Derivation, Kind, Nodes, Range, Rights};
use nova_space::Space;
use std::alloc::Global;
use std::process::Abort;

/// Derivation 0 of pages 16 to 19 of domain 0, which lead to frames 32 to 35, and its child 1: page 5
/// of domain 1, which leads to frame 34.
fn parent_and_child(rt: &impl Abort, alloc: Global) -> Nodes<Space>
    ensures { IsChildless result.delegations.list 1 }
{
    let mut nodes: Nodes<Space> = Nodes::new(alloc);
    nodes.reserve(0, 1).expect(rt, "ample memory");
    let four = Range {
        kind: Kind::Mem,
        base: 16,
        order: 2,
    };
    nodes.root(0, four, Rights::READ, 32);
    nodes.reserve(1, 1).expect(rt, "ample memory");
    let one = Range {
        kind: Kind::Mem,
        base: 5,
        order: 0,
    };
    nodes.child(0, 1, one, Rights::READ, 34);
    nodes
}

/// The id of `derivation`, and the first frame or object that it leads to.
fn told(derivation: Option<Derivation>) -> Option<(u32, u32)> {
    let d = derivation?;
    Some((d.id, d.target))
}

#[test]
fn derivations_are_found_by_their_places(rt: HostRuntime) {
    let mut nodes = parent_and_child(&rt, rt.alloc());
    let found = [
        told(nodes.at(0, Kind::Mem, 15)),
        told(nodes.at(0, Kind::Obj, 16)),
        told(nodes.at(0, Kind::Mem, 19)),
        told(nodes.covering(1, Kind::Mem, 5)),
        told(nodes.first_from(0, Kind::Mem, 0)),
        told(nodes.first_from(0, Kind::Mem, 20)),
    ];
    let (parent, child) = (Some((0, 32)), Some((1, 34)));
    assert!(rt; found == [None, None, parent, child, parent, None]);
}

#[test]
fn what_is_removed_stays_in_a_copy(rt: HostRuntime) {
    let mut nodes = parent_and_child(&rt, rt.alloc());
    let mut copy = nodes.copy().expect(&rt, "ample memory");
    let before = nodes.newest_child(0);
    nodes.remove_leaf(1);
    let answers = [
        told(nodes.at(1, Kind::Mem, 5)),
        told(copy.at(1, Kind::Mem, 5)),
    ];
    let newest = [before, nodes.newest_child(0)];
    assert!(rt; (answers, newest) == ([None, Some((1, 34))], [Some(1), None]));
}
