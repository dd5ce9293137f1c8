// A long chain of derivations, and its revoke.
ghost use Rattle.nova_delegate.specs.Parts.{IsUnderWay};

use crate::parts::{PartDone, give, take};
use nova_delegate::{Job, job};
use nova_nodes::Nodes;
use nova_range::{Kind, Range, Rights};
use nova_revoke::Revoke;
use nova_space::Space;
use std::alloc::Global;
use std::process::Abort;

/// How many domains hold page 0, each of them from the domain before it.
const DOMAINS: u32 = 10_000;

/// Page 0.
const PAGE: Range = Range {
    kind: Kind::Mem,
    base: 0,
    order: 0,
};

/// Its word, with the right to read.
const WORD: u32 = 5;

/// Page 0 of a domain, for another.
fn item(rt: &impl Abort, giver: u32, receiver: u32) -> Job
    ensures { IsUnderWay result }
{
    match job(WORD, 0, WORD, giver, receiver) {
        Ok(item) => item,
        Err(_) => panic!(rt; "{giver} gives nothing"),
    }
}

/// A domain's page 0 goes to another domain. The answer is its id there.
fn hand_down(rt: &impl Abort, nodes: &mut Nodes<Space>, giver: u32, receiver: u32) -> Option<u32> {
    assert!(rt; nodes.next() < DOMAINS);
    let mut item = item(rt, giver, receiver);
    let running: &[Revoke] = &[];
    match give(rt, nodes, &mut item, running) {
        PartDone::Made(id) => Some(id),
        PartDone::Skipped(..) | PartDone::Ended => None,
    }
}

/// The chain: the derivation of each domain has the domain's number.
fn chain(rt: &impl Abort, alloc: Global) -> Nodes<Space> {
    let mut nodes = Nodes::new(alloc);
    nodes.reserve(0, 1).expect(rt, "ample memory");
    nodes.root(0, PAGE, Rights::READ, 32);
    for receiver in 1..DOMAINS {
        let id = hand_down(rt, &mut nodes, receiver - 1, receiver);
        assert!(rt; id == Some(receiver), "{receiver}");
    }
    nodes
}

/// The id and the domain of what the next part of the first domain's revoke takes.
fn taken(nodes: &mut Nodes<Space>) -> Option<(u32, u32)> {
    let revoke = Revoke {
        pd: 0,
        range: PAGE,
        own: false,
    };
    take(nodes, &revoke)
}

#[test]
fn a_chain_of_ten_thousand_domains_is_taken_from_its_end(rt: HostRuntime) {
    let mut nodes = chain(&rt, rt.alloc());
    for i in 1..DOMAINS {
        let last = DOMAINS - i;
        assert!(rt; taken(&mut nodes) == Some((last, last)), "{last}");
    }
    assert!(rt; taken(&mut nodes).is_none() && nodes.get(0).is_some());
}
