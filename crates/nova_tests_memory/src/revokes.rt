ghost use Rattle.std.specs.Prelude.{◌≡◌};
ghost use Rattle.nova_range.specs.declared.range.Range.{Range};
ghost use Rattle.nova_range.specs.declared.range.Kind.TheVariants.{Mem};

use crate::parts::take;
use crate::translations::give;
use nova_nodes::Nodes;
use nova_range::{Kind, Range, Rights};
use nova_revoke::{Revoke, in_scope, would_grow};
use nova_space::Space;
use std::alloc::Global;
use std::process::Abort;

/// A range of memory.
const fn pages(base: u32, order: u8) -> Range
    ensures { result ≡ record { kind = Mem; base = base; order = order } }
{
    Range {
        kind: Kind::Mem,
        base,
        order,
    }
}

/// Page 0 goes from domain 0, which holds pages 0 to 3, to domain 1, to domain 2 and to domain 3, each
/// time as the derivation of the domain's number; and page 1 goes from domain 0 to domain 4.
fn nodes(rt: &impl Abort, alloc: Global) -> Nodes<Space> {
    let mut nodes = Nodes::new(alloc);
    nodes.reserve(0, 1).expect(rt, "ample memory");
    nodes.root(0, pages(0, 2), Rights::READ, 32);
    give(rt, &mut nodes, 0, 1, 0x0000_0005, 0x0000_0005);
    give(rt, &mut nodes, 1, 2, 0x0000_0005, 0x0000_0005);
    give(rt, &mut nodes, 2, 3, 0x0000_0005, 0x0000_0005);
    give(rt, &mut nodes, 0, 4, 0x0000_1005, 0x0000_0005);
    nodes
}

/// A revoke of page 0.
fn of_page(pd: u32, own: bool) -> Revoke {
    Revoke {
        pd,
        range: pages(0, 0),
        own,
    }
}

/// Whose part it is, and what it takes.
static NESTED: [(u32, Option<(u32, u32)>); 5] = [
    (1, Some((3, 3))),
    (0, Some((2, 2))),
    (1, None),
    (0, Some((1, 1))),
    (0, None),
];

#[test]
fn nested_revokes_take_leaf_by_leaf(rt: HostRuntime) {
    let mut nodes = nodes(&rt, rt.alloc());
    for &(pd, wanted) in &NESTED {
        let taken = take(&mut nodes, &of_page(pd, false));
        assert!(rt; taken == wanted, "{pd}");
    }
    assert!(rt; nodes.get(0).is_some() && nodes.get(4).is_some());
}

static WITH_OWN: [Option<(u32, u32)>; 4] = [Some((3, 3)), Some((2, 2)), Some((1, 1)), None];

#[test]
fn own_derivations_go_where_the_revoke_says_so(rt: HostRuntime) {
    let mut nodes = nodes(&rt, rt.alloc());
    for &wanted in &WITH_OWN {
        let taken = take(&mut nodes, &of_page(1, true));
        assert!(rt; taken == wanted);
    }
    assert!(rt; nodes.get(0).is_some());
}

#[test]
fn nothing_goes_where_nothing_is_held(rt: HostRuntime) {
    let mut nodes = nodes(&rt, rt.alloc());
    let revoke = Revoke {
        pd: 0,
        range: pages(8, 3),
        own: true,
    };
    let taken = [
        take(&mut nodes, &revoke),
        take(&mut nodes, &of_page(5, true)),
    ];
    assert!(rt; taken == [None, None]);
}

/// Ids, and whether they are in the scope of domain 0's revoke of page 0.
static SCOPE: [(u32, bool); 5] = [(0, false), (1, true), (2, true), (3, true), (4, false)];

#[test]
fn the_scope_is_what_was_made_of_the_range(rt: HostRuntime) {
    let nodes = nodes(&rt, rt.alloc());
    for &(id, wanted) in &SCOPE {
        nodes.get(id).expect(&rt, "the derivation");
        assert!(rt; in_scope(&nodes, &of_page(0, false), id) == wanted, "{id}");
    }
}

/// Parent and target of a child, and whether it may not join while domain 0 revokes page 0.
static CHILDREN: [(u32, u32, bool); 4] = [
    (3, 32, true),
    (0, 32, true),
    (0, 33, false),
    (4, 33, false),
];

/// Domain and page of a derivation without a parent, and the same of it.
static ROOTS: [(u32, u16, bool); 3] = [(0, 0, true), (0, 8, false), (5, 0, false)];

#[test]
fn what_would_add_to_the_scope_is_busy(rt: HostRuntime) {
    let nodes = nodes(&rt, rt.alloc());
    let revoke = of_page(0, false);
    for &(parent, target, wanted) in &CHILDREN {
        nodes.get(parent).expect(&rt, "the parent");
        let busy = would_grow(&nodes, &revoke, Some(parent), 5, pages(8, 0), target);
        assert!(rt; busy == wanted, "{parent} {target}");
    }
    for &(pd, page, wanted) in &ROOTS {
        let busy = would_grow(&nodes, &revoke, None, pd, pages(page as u32, 0), 99);
        assert!(rt; busy == wanted, "{pd} {page}");
    }
}
