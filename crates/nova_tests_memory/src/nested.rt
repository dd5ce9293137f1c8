// Two callers revoke at a time, one within what the other takes away, while a third domain gives on.
ghost use Rattle.std.specs.Prelude.{◌≤◌, ◌^◌, ◌<◌};

use crate::parts::{PartDone, give, take};
use nova_delegate::{Reason, job};
use nova_nodes::Nodes;
use nova_range::{Kind, Range, Rights};
use nova_revoke::Revoke;
use nova_space::Space;
use std::alloc::Global;
use std::process::Abort;

/// The word of page 0 to read, and that of a window of 16 pages from page 16 on.
const PAGE: u32 = 0x0005;

const WINDOW: u32 = 0x1021d;

/// Page 0.
const PAGE_RANGE: Range = Range {
    kind: Kind::Mem,
    base: 0,
    order: 0,
};

/// A revoke of page 0 by the domain `pd`.
fn of_page(pd: u32) -> Revoke {
    Revoke {
        pd,
        range: PAGE_RANGE,
        own: false,
    }
}

/// Gives page 0 of the domain `pd` on to the next one, as far as its window goes, while these revokes run.
fn give_on(
    rt: &impl Abort,
    nodes: &mut Nodes<Space>,
    pd: u32,
    window: u32,
    revokes: &[Revoke],
) -> PartDone {
    assert!(rt; pd < 3 && nodes.next() <= 4);
    let Ok(mut item) = job(PAGE, 0, window, pd, pd + 1) else {
        panic!(rt; "the item is skipped");
    };
    give(rt, nodes, &mut item, revokes)
}

/// Page 0 goes from domain 0 to domain 1, to domain 2 and to domain 3, each time as the derivation of
/// the domain's number.
fn nodes(rt: &impl Abort, alloc: Global) -> Nodes<Space> {
    let mut nodes = Nodes::new(alloc);
    nodes.reserve(0, 1).expect(rt, "ample memory");
    nodes.root(0, PAGE_RANGE, Rights::READ, 32);
    for pd in 0..3 {
        give_on(rt, &mut nodes, pd, PAGE, &[]);
    }
    nodes
}

/// The parts that follow: domains 0, 1, 0 and 0 revoke.
fn parts(nodes: &mut Nodes<Space>) -> [Option<(u32, u32)>; 4] {
    [
        take(nodes, &of_page(0)),
        take(nodes, &of_page(1)),
        take(nodes, &of_page(0)),
        take(nodes, &of_page(0)),
    ]
}

/// What each of those takes.
static TAKEN: [Option<(u32, u32)>; 4] = [Some((2, 2)), None, Some((1, 1)), None];

#[test]
fn nested_revokes_take_leaf_by_leaf_and_nothing_joins(rt: HostRuntime) {
    let mut nodes = nodes(&rt, rt.alloc());
    let first = take(&mut nodes, &of_page(1));
    let given = give_on(&rt, &mut nodes, 2, WINDOW, &[of_page(0), of_page(1)]);
    let is_busy = nodes.next() == 4 && matches!(given, PartDone::Skipped(Reason::Busy, 0));
    let rest = parts(&mut nodes);
    let is_so = first == Some((3, 3)) && is_busy && rest == TAKEN;
    assert!(rt; is_so);
}
