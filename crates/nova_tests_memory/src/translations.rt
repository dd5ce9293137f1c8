ghost use Rattle.std.specs.Prelude.{◌≤◌, ◌<◌, ◌+◌, ◌^◌, ◌-◌};

use crate::delegations::{STRANGER, revoke_of};
use crate::parts;
use bitflags::Flags;
use nova_delegate::{job, translate};
use nova_nodes::Nodes;
use nova_range::{Kind, Range, Rights};
use nova_space::Space;
use std::alloc::Global;
use std::process::Abort;

/// Gives what the range word `sent` says from the protection domain `from` to `to`, in one part.
pub fn give(rt: &impl Abort, nodes: &mut Nodes<Space>, from: u32, to: u32, sent: u32, window: u32)
    requires { nodes.old.delegations.next < 2 ^ 32 - 1 }
    ensures { nodes.new.delegations.next ≤ nodes.old.delegations.next + 1 }
{
    match job(sent, 0, window, from, to) {
        Ok(mut item) => {
            parts::give(rt, nodes, &mut item, &[revoke_of(STRANGER)]);
        }
        Err(_) => panic!(rt; "{sent:08x} is skipped"),
    }
}

/// Protection domain 0 holds pages 0 to 3 with rights 3, which lead to frames 0 to 3; domain 5 holds
/// page 8 with right 1, made of page 3; and domain 6 holds page 16 with right 1, made of that.
fn pages(rt: &impl Abort, alloc: Global) -> Nodes<Space> {
    let mut nodes = Nodes::new(alloc);
    nodes.reserve(0, 1).expect(rt, "ample memory");
    let range = Range {
        kind: Kind::Mem,
        base: 0,
        order: 2,
    };
    nodes.root(0, range, Rights::from_bits_retain(3), 0);
    give(rt, &mut nodes, 0, 5, 0x0000_3005, 0x0000_8005);
    give(rt, &mut nodes, 5, 6, 0x0000_8005, 0x0001_0005);
    nodes
}

/// Protection domain 0 holds object 7 at selector 64 with rights 7, and domain 5 has it at selector 32
/// with rights 3.
fn objects(rt: &impl Abort, alloc: Global) -> Nodes<Space> {
    let mut nodes = Nodes::new(alloc);
    nodes.reserve(0, 1).expect(rt, "ample memory");
    let range = Range {
        kind: Kind::Obj,
        base: 64,
        order: 0,
    };
    nodes.root(0, range, Rights::from_bits_retain(7), 7);
    give(rt, &mut nodes, 0, 5, 0x0004_000f, 0x0002_000f);
    nodes
}

/// What is shown, giver and receiver, range word and window, and the answer.
type Row = (&'static str, (u32, u32), (u32, u32), u32);

static PAGES: [Row; 14] = [
    (
        "a parent's page",
        (5, 0),
        (0x0000_801d, 0x0000_0101),
        0x0000_3005,
    ),
    ("outside the window", (5, 0), (0x0000_801d, 0x0000_0081), 0),
    ("no way down", (0, 5), (0x0000_001d, 0x0000_0101), 0),
    (
        "no right is not null",
        (5, 0),
        (0x0000_8009, 0x0000_0101),
        0x0000_3001,
    ),
    (
        "a grandparent's page",
        (6, 0),
        (0x0001_001d, 0x0000_0101),
        0x0000_3005,
    ),
    (
        "the parent before its own",
        (6, 5),
        (0x0001_001d, 0x0000_0a01),
        0x0000_8005,
    ),
    (
        "one's own page first",
        (5, 5),
        (0x0000_801d, 0x0000_0a01),
        0x0000_8005,
    ),
    (
        "a word of more pages",
        (5, 0),
        (0x0000_811d, 0x0000_0101),
        0x0000_3005,
    ),
    (
        "a word of fewer pages",
        (0, 0),
        (0x0000_209d, 0x0000_0101),
        0x0000_208d,
    ),
    ("nothing held", (5, 0), (0x0000_901d, 0x0000_0101), 0),
    ("a window of objects", (5, 0), (0x0000_801d, 0x0000_0103), 0),
    ("a null word", (5, 0), (0x0000_801c, 0x0000_0101), 0),
    ("no range word", (5, 0), (0x0000_801e, 0x0000_0101), 0),
    ("a null window", (5, 0), (0x0000_801d, 0x0000_0100), 0),
];

static OBJECTS: [Row; 3] = [
    (
        "a parent's object",
        (5, 0),
        (0x0002_007f, 0x0000_0a03),
        0x0004_000f,
    ),
    ("another selector", (5, 0), (0x0002_107f, 0x0000_0a03), 0),
    ("a window of pages", (5, 0), (0x0002_007f, 0x0000_0a01), 0),
];

fn check(rt: &impl Abort, nodes: &Nodes<Space>, rows: &[Row]) {
    for &(shown, (giver, receiver), (word, window), wanted) in rows {
        let answer = translate(nodes, word, window, giver, receiver);
        assert!(rt; answer == wanted, "{shown}: {answer:08x}");
    }
}

#[test]
fn pages_are_answered_by_those_that_they_come_from(rt: HostRuntime) {
    check(&rt, &pages(&rt, rt.alloc()), &PAGES);
}

#[test]
fn objects_are_answered_by_those_that_they_come_from(rt: HostRuntime) {
    check(&rt, &objects(&rt, rt.alloc()), &OBJECTS);
}
