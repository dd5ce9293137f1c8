ghost use Rattle.std.specs.Prelude.{◌≡◌, ◌++◌, ◌+◌, ◌<◌, ◌^◌, ◌&&◌, ◌||◌, [], false, flat_map, if◌then◌else◌, nat_lt, not, option_to_list, true, IfOk, OnOk};
ghost use Rattle.nova_range.specs.Rights.{allows, write_right};
ghost use Rattle.law_sides.specs.Tied.{flowing, flowing_by, leads_to, meets, overlaps, overlaps_all, passes, weak};
ghost use Rattle.nova_sides.specs.Among.{flows_in, is_flow};

use crate::common::{is_object, push, weak};
use crate::derivations::derivations_of;
use bitflags::Flags;
use nova_kernel::{Derivation, Kernel, Kind, Rights};
use nova_ties::{Cause, Tie, label_of};
use std::alloc::{AllocError, Global};

/// The first frame after a range of memory.
fn end_of(target: u32, order: u8) -> u64
    requires { order < 32 }
    ensures { result ≡ target + 2 ^ order }
{
    u64::from(target) + (1 << order)
}

/// Whether a frame is below the first one after a range of memory.
#[tactic(auto, using(law_sides::proofs::Ranges::far_end))]
fn is_below(target: u32, order: u8, frame: u32) -> bool
    ensures { result ≡ nat_lt frame (target + 2 ^ order) }
{
    order >= 32 || u64::from(frame) < end_of(target, order)
}

/// Whether a range of memory has a frame.
fn leads_to(d: Derivation, frame: u32) -> bool
    ensures { result ≡ leads_to d frame }
{
    d.target <= frame && is_below(d.target, d.order, frame)
}

/// Whether two ranges of memory have a frame in common.
pub(crate) fn meets(d: Derivation, e: Derivation) -> bool
    ensures { result ≡ meets d e }
{
    leads_to(d, e.target) || leads_to(e, d.target)
}

/// Whether one of some pairs is of these labels: that the first flows to the second.
fn is_flow(flows: &[(u32, u32)], from: u32, to: u32) -> bool
    ensures { result ≡ is_flow flows.now from to }
{
    flows.iter().any(|flow| flow.0 == from && flow.1 == to)
}

/// Whether memory flows from one domain to another, by their labels.
fn flows_in(flows: &[(u32, u32)], labels: &[u32], from: u32, to: u32) -> bool
    ensures { result ≡ flows_in flows.now labels.now from to }
{
    is_flow(flows, label_of(labels, from), label_of(labels, to))
}

/// Whether it is looked for: what flows, or what doesn't.
fn passes(through: bool, flow: bool) -> bool
    ensures { result ≡ passes through flow }
{
    if through { flow } else { !flow }
}

/// Other memory with a frame of some memory, where that flows, or doesn't.
fn overlaps(
    through: bool,
    labels: &[u32],
    flows: &[(u32, u32)],
    d: Derivation,
    e: Derivation,
) -> Option<Tie>
    ensures { result ≡ overlaps through (flows_in flows.now labels.now) d e }
{
    match e.kind {
        Kind::Mem => {
            if meets(d, e) && passes(through, flows_in(flows, labels, d.pd, e.pd)) {
                Some(weak(d.pd, e.pd, Cause::Frames(d.id, e.id)))
            } else {
                None
            }
        }
        Kind::Obj => None,
    }
}

fn push_overlapping(
    out: &mut Vec<Tie>,
    through: bool,
    labels: &[u32],
    flows: &[(u32, u32)],
    d: Derivation,
    list: &[Derivation],
) -> Result<(), AllocError>
    ensures { OnOk result (out.new.items ≡ out.old.items ++ flat_map (λ e. option_to_list (overlaps through (flows_in flows.now labels.now) d e)) list.now) }
{
    for e in list {
        push(out, overlaps(through, labels, flows, d, *e))?;
    }
    Ok(())
}

/// All memory with a frame of some memory, if that may be written, where that flows, or doesn't.
pub(crate) fn push_overlaps(
    out: &mut Vec<Tie>,
    through: bool,
    labels: &[u32],
    flows: &[(u32, u32)],
    d: Derivation,
    list: &[Derivation],
) -> Result<(), AllocError>
    ensures { OnOk result (out.new.items ≡ out.old.items ++ overlaps_all through (flows_in flows.now labels.now) list.now d (allows d.rights write_right)) }
{
    if d.rights.contains(Rights::WRITE) {
        push_overlapping(out, through, labels, flows, d, list)
    } else {
        Ok(())
    }
}

fn push_flowing_by(
    out: &mut Vec<Tie>,
    labels: &[u32],
    flows: &[(u32, u32)],
    d: Derivation,
    list: &[Derivation],
) -> Result<(), AllocError>
    ensures { OnOk result (out.new.items ≡ out.old.items ++ flowing_by (flows_in flows.now labels.now) list.now d) }
{
    if is_object(d.kind) {
        Ok(())
    } else {
        push_overlaps(out, true, labels, flows, d, list)
    }
}

fn push_flowing(
    out: &mut Vec<Tie>,
    labels: &[u32],
    flows: &[(u32, u32)],
    list: &[Derivation],
) -> Result<(), AllocError>
    ensures { OnOk result (out.new.items ≡ out.old.items ++ flat_map (flowing_by (flows_in flows.now labels.now) list.now) list.now) }
{
    for d in list {
        push_flowing_by(out, labels, flows, *d, list)?;
    }
    Ok(())
}

/// The memory of `kernel` that flows from one side of `labels` to another by `flows`, pairs of labels: a capability with which a protection domain may
/// write it, and each of a domain of the other side that has a frame of it.
#[tactic(auto, unfolding(law_sides::specs::Tied::flowing))]
pub fn flowing(
    alloc: Global,
    kernel: &Kernel,
    labels: &[u32],
    flows: &[(u32, u32)],
) -> Result<Vec<Tie>, AllocError>
    ensures { IfOk result (λ list. list.items ≡ flowing (flows_in flows.now labels.now) kernel.now.state) }
{
    let list = derivations_of(alloc, kernel)?;
    let mut out = Vec::new(alloc);
    push_flowing(&mut out, labels, flows, &list)?;
    Ok(out)
}
