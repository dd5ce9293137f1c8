ghost use Rattle.std.specs.Prelude.{◌≤◌};
ghost use Rattle.nova_delegate.specs.Parts.{IsUnderWay};

use crate::parts::{PartDone, give};
use bitflags::Flags;
use nova_delegate::{Job, Reason, Skip, job};
use nova_nodes::Nodes;
use nova_range::{Kind, Range, Rights};
use nova_revoke::Revoke;
use nova_space::Space;
use std::alloc::Global;
use std::process::Abort;

/// The protection domains that give and receive.
const GIVER: u32 = 0;

const RECEIVER: u32 = 5;

/// Pages as base, order and rights.
type Pages = (u32, u32, u32);

/// The range word of pages.
fn memory((base, order, rights): Pages) -> u32 {
    base << 12 | order << 7 | rights << 2 | 1
}

/// An item between the two, with hotspot 0.
fn item(rt: &impl Abort, sent: Pages, window: Pages) -> Job
    ensures { IsUnderWay result }
{
    let sent = memory(sent);
    match job(sent, 0, memory(window), GIVER, RECEIVER) {
        Ok(item) => item,
        Err(_) => panic!(rt; "{sent:08x} is skipped"),
    }
}

/// A protection domain that has nothing.
pub const STRANGER: u32 = 7;

/// The revoke of all pages of the protection domain `pd`.
pub fn revoke_of(pd: u32) -> Revoke {
    let range = Range {
        kind: Kind::Mem,
        base: 0,
        order: 20,
    };
    Revoke {
        pd,
        range,
        own: false,
    }
}

/// The giver holds pages 0 to 3 as derivation 0, to read and write, from frame 0 on; the receiver holds
/// page 8 as derivation 1, the last of these pages to read.
fn nodes(rt: &impl Abort, alloc: Global) -> Nodes<Space>
    ensures { result.delegations.next ≤ 2 }
{
    let mut nodes = Nodes::new(alloc);
    nodes.reserve(GIVER, 1).expect(rt, "ample memory");
    let range = Range {
        kind: Kind::Mem,
        base: 0,
        order: 2,
    };
    nodes.root(GIVER, range, Rights::from_bits_retain(3), 0);
    let mut item = item(rt, (3, 0, 1), (8, 0, 1));
    give(rt, &mut nodes, &mut item, &[revoke_of(STRANGER)]);
    nodes
}

/// What a part did, as a test compares it.
fn told(done: PartDone) -> (&'static str, u32) {
    match done {
        PartDone::Made(id) => ("made", id),
        PartDone::Skipped(Reason::Rights, place) => ("no right", place),
        PartDone::Skipped(Reason::Taken, place) => ("taken", place),
        PartDone::Skipped(Reason::Busy, place) => ("busy", place),
        PartDone::Ended => ("ended", 0),
    }
}

/// What is sent and its window, and what the first part comes to.
static PARTS: [(Pages, Pages, (&str, u32)); 5] = [
    ((0, 2, 4), (16, 2, 7), ("no right", 0)),
    ((0, 0, 1), (8, 0, 7), ("taken", 0)),
    ((0, 0, 4), (8, 0, 7), ("no right", 0)),
    ((1, 0, 4), (16, 2, 7), ("no right", 1)),
    ((0, 2, 1), (16, 2, 7), ("made", 2)),
];

#[test]
fn a_part_is_made_or_skipped_for_the_first_reason(rt: HostRuntime) {
    for &(sent, window, wanted) in &PARTS {
        let mut nodes = nodes(&rt, rt.alloc());
        let mut item = item(&rt, sent, window);
        let first = give(&rt, &mut nodes, &mut item, &[revoke_of(STRANGER)]);
        let second = give(&rt, &mut nodes, &mut item, &[revoke_of(STRANGER)]);
        assert!(rt;
            [told(first), told(second)] == [wanted, ("ended", 0)],
            "{sent:?}"
        );
    }
}

#[test]
fn a_revoke_forbids_a_child(rt: HostRuntime) {
    for revoker in [GIVER, RECEIVER] {
        let mut nodes = nodes(&rt, rt.alloc());
        let mut item = item(&rt, (0, 2, 1), (16, 2, 7));
        let revokes = [revoke_of(STRANGER), revoke_of(revoker)];
        let done = give(&rt, &mut nodes, &mut item, &revokes);
        assert!(rt; told(done) == ("busy", 0), "{revoker}");
    }
}

#[test]
fn a_child_lies_where_the_window_says(rt: HostRuntime) {
    let mut nodes = nodes(&rt, rt.alloc());
    let mut item = item(&rt, (0, 2, 1), (16, 2, 7));
    give(&rt, &mut nodes, &mut item, &[revoke_of(STRANGER)]);
    let child = nodes.get(2).expect(&rt, "the child");
    let place = (child.pd, child.base, child.order);
    let way = (child.parent, child.rights.bits(), child.target);
    assert!(rt; (place, way) == ((RECEIVER, 16, 2), (Some(0), 1, 0)));
}

/// Range word and window of an item, and what comes of it.
static ITEMS: [(u32, u32, &str); 5] = [
    (0, 0x0001_011d, "empty"),
    (0x0000_0105, 0, "empty"),
    (0x0001_011f, 0, "empty"),
    (0x0001_011f, 0x0001_011d, "window"), // objects to pages
    (0x0000_0105, 0x0001_011d, "given"),
];

#[test]
fn an_item_is_skipped_for_the_first_reason(rt: HostRuntime) {
    for &(sent, window, wanted) in &ITEMS {
        let told = match job(sent, 0, window, GIVER, RECEIVER) {
            Ok(_) => "given",
            Err(Skip::Empty) => "empty",
            Err(Skip::Window) => "window",
        };
        assert!(rt; told == wanted, "{sent:08x}");
    }
}
