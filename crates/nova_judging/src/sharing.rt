ghost use Rattle.std.specs.Prelude.{◌≡◌, ◌++◌, IfOk, OnOk, flat_map, string_bytes};
ghost use Rattle.nova_model.specs.Capabilities.{down_right, up_right};
ghost use Rattle.nova_model.specs.Semaphores.{semaphore};
ghost use Rattle.nova_judging.specs.Sharing.{down_text, holds, is_of, lowers, next_text, raises, shared_line, sharer_at, sharer_of, sharer_text, sharers, sharers_text, shares, up_text, waits, waits_text};

use crate::lines::domain_of;
use crate::processors::is_object;
use crate::sides::begins_side;
use bitflags::Flags;
use nova_kernel::{Derivation, Kernel, Rights};
use nova_naming::Policy;
use nova_ties::label_of;
use std::alloc::{AllocError, Global};

/// Whether a capability of a side leads to the semaphore `sm`, with up.
fn holds_up(labels: &[u32], sm: u32, label: u32, d: Derivation) -> bool
    ensures { result ≡ holds labels.now sm up_right label d }
{
    label_of(labels, d.pd) == label
        && is_object(d.kind)
        && d.target == sm
        && d.rights.contains(Rights::UP)
}

/// The same with down.
fn holds_down(labels: &[u32], sm: u32, label: u32, d: Derivation) -> bool
    ensures { result ≡ holds labels.now sm down_right label d }
{
    label_of(labels, d.pd) == label
        && is_object(d.kind)
        && d.target == sm
        && d.rights.contains(Rights::DOWN)
}

fn raises(kernel: &Kernel, labels: &[u32], list: &[Derivation], sm: u32, label: u32) -> bool
    requires list { list.now ≡ kernel.now.state.delegations.list }
    ensures { result ≡ raises kernel.now.state labels.now sm label }
{
    list.iter().any(|&d| holds_up(labels, sm, label, d))
}

fn lowers(kernel: &Kernel, labels: &[u32], list: &[Derivation], sm: u32, label: u32) -> bool
    requires list { list.now ≡ kernel.now.state.delegations.list }
    ensures { result ≡ lowers kernel.now.state labels.now sm label }
{
    list.iter().any(|&d| holds_down(labels, sm, label, d))
}

fn is_of(kernel: &Kernel, labels: &[u32], label: u32, ec: u32) -> bool
    ensures { result ≡ is_of kernel.now.state labels.now label ec }
{
    label_of(labels, domain_of(kernel, ec)) == label
}

/// Whether an execution context of a side waits in a queue.
fn waits(kernel: &Kernel, labels: &[u32], queue: &[u32], sm: u32, label: u32) -> bool
    requires queue { queue.now ≡ (semaphore kernel.now.state.semaphores sm).waiting }
    ensures { result ≡ waits kernel.now.state labels.now sm label }
{
    queue.iter().any(|&ec| is_of(kernel, labels, label, ec))
}

fn shares(
    kernel: &Kernel,
    labels: &[u32],
    list: &[Derivation],
    queue: &[u32],
    sm: u32,
    label: u32,
) -> bool
    requires list { list.now ≡ kernel.now.state.delegations.list }
    requires queue { queue.now ≡ (semaphore kernel.now.state.semaphores sm).waiting }
    ensures { result ≡ shares kernel.now.state labels.now sm label }
{
    raises(kernel, labels, list, sm, label)
        || lowers(kernel, labels, list, sm, label)
        || waits(kernel, labels, queue, sm, label)
}

/// A label, if it is of what shares the semaphore `sm`.
fn push_sharer(
    out: &mut Vec<u32>,
    kernel: &Kernel,
    labels: &[u32],
    list: &[Derivation],
    queue: &[u32],
    sm: u32,
    label: u32,
) -> Result<(), AllocError>
    requires list { list.now ≡ kernel.now.state.delegations.list }
    requires queue { queue.now ≡ (semaphore kernel.now.state.semaphores sm).waiting }
    ensures { OnOk result (out.new.items ≡ out.old.items ++ sharer_of kernel.now.state labels.now sm label) }
{
    if shares(kernel, labels, list, queue, sm, label) {
        out.push(label)?;
    }
    Ok(())
}

/// The same, where a number is the first with its label.
fn push_sharer_at(
    out: &mut Vec<u32>,
    kernel: &Kernel,
    labels: &[u32],
    list: &[Derivation],
    queue: &[u32],
    sm: u32,
    n: usize,
    label: u32,
) -> Result<(), AllocError>
    requires list { list.now ≡ kernel.now.state.delegations.list }
    requires queue { queue.now ≡ (semaphore kernel.now.state.semaphores sm).waiting }
    ensures { OnOk result (out.new.items ≡ out.old.items ++ sharer_at kernel.now.state labels.now sm (n, label)) }
{
    if begins_side(labels, n, label) {
        return push_sharer(out, kernel, labels, list, queue, sm, label);
    }
    Ok(())
}

/// The labels of all that share the semaphore `sm`.
fn sharers(
    alloc: Global,
    kernel: &Kernel,
    labels: &[u32],
    list: &[Derivation],
    sm: u32,
) -> Result<Vec<u32>, AllocError>
    requires list { list.now ≡ kernel.now.state.delegations.list }
    ensures { IfOk result (λ out. out.items ≡ sharers kernel.now.state labels.now sm) }
{
    let queue = kernel.queue(alloc, sm)?;
    let mut out = Vec::new(alloc);
    push_sharer(&mut out, kernel, labels, list, &queue, sm, 0)?;
    for (n, label) in labels.iter().enumerate() {
        push_sharer_at(&mut out, kernel, labels, list, &queue, sm, n, *label)?;
    }
    Ok(out)
}

fn write_up(out: &mut String, told: bool) -> Result<(), AllocError>
    ensures { OnOk result (string_bytes out.new ≡ string_bytes out.old ++ up_text told) }
{
    out.push_str(if told { " up" } else { "" })
}

fn write_down(out: &mut String, told: bool) -> Result<(), AllocError>
    ensures { OnOk result (string_bytes out.new ≡ string_bytes out.old ++ down_text told) }
{
    out.push_str(if told { " down" } else { "" })
}

fn write_waits(out: &mut String, told: bool) -> Result<(), AllocError>
    ensures { OnOk result (string_bytes out.new ≡ string_bytes out.old ++ waits_text told) }
{
    out.push_str(if told { " waits" } else { "" })
}

/// What a side may do at the semaphore `sm`, and whether it waits there.
fn write_sharer(
    out: &mut String,
    policy: &Policy,
    kernel: &Kernel,
    labels: &[u32],
    list: &[Derivation],
    queue: &[u32],
    sm: u32,
    label: u32,
) -> Result<(), AllocError>
    requires list { list.now ≡ kernel.now.state.delegations.list }
    requires queue { queue.now ≡ (semaphore kernel.now.state.semaphores sm).waiting }
    ensures { OnOk result (string_bytes out.new ≡ string_bytes out.old ++ sharer_text policy.now kernel.now.state labels.now sm label) }
{
    policy.write_side(out, label)?;
    write_up(out, raises(kernel, labels, list, sm, label))?;
    write_down(out, lowers(kernel, labels, list, sm, label))?;
    write_waits(out, waits(kernel, labels, queue, sm, label))
}

fn write_others(
    out: &mut String,
    policy: &Policy,
    kernel: &Kernel,
    labels: &[u32],
    list: &[Derivation],
    queue: &[u32],
    sm: u32,
    others: &[u32],
) -> Result<(), AllocError>
    requires list { list.now ≡ kernel.now.state.delegations.list }
    requires queue { queue.now ≡ (semaphore kernel.now.state.semaphores sm).waiting }
    ensures { OnOk result (string_bytes out.new ≡ string_bytes out.old ++ flat_map (next_text policy.now kernel.now.state labels.now sm) others.now) }
{
    for label in others {
        out.push_str(", ")?;
        write_sharer(out, policy, kernel, labels, list, queue, sm, *label)?;
    }
    Ok(())
}

fn write_sharers(
    out: &mut String,
    policy: &Policy,
    kernel: &Kernel,
    labels: &[u32],
    list: &[Derivation],
    queue: &[u32],
    sm: u32,
    sharers: &[u32],
) -> Result<(), AllocError>
    requires list { list.now ≡ kernel.now.state.delegations.list }
    requires queue { queue.now ≡ (semaphore kernel.now.state.semaphores sm).waiting }
    ensures { OnOk result (string_bytes out.new ≡ string_bytes out.old ++ sharers_text policy.now kernel.now.state labels.now sm sharers.now) }
{
    match sharers {
        [] => Ok(()),
        [label, others @ ..] => {
            out.push_str(" ")?;
            write_sharer(out, policy, kernel, labels, list, queue, sm, *label)?;
            write_others(out, policy, kernel, labels, list, queue, sm, others)
        }
    }
}

/// The semaphore `sm`, with all that share it.
fn write_shared_line(
    out: &mut String,
    alloc: Global,
    policy: &Policy,
    kernel: &Kernel,
    labels: &[u32],
    list: &[Derivation],
    sm: u32,
) -> Result<(), AllocError>
    requires list { list.now ≡ kernel.now.state.delegations.list }
    ensures { OnOk result (string_bytes out.new ≡ string_bytes out.old ++ shared_line policy.now kernel.now.state labels.now sm) }
{
    let queue = kernel.queue(alloc, sm)?;
    let sharers = sharers(alloc, kernel, labels, list, sm)?;
    write!(out, "shared {sm}:")?;
    write_sharers(out, policy, kernel, labels, list, &queue, sm, &sharers)?;
    out.push_str("\n")
}

/// Writes the semaphores that sides share, with all that hold them or wait there.
pub(crate) fn write_shared(
    out: &mut String,
    alloc: Global,
    policy: &Policy,
    kernel: &Kernel,
    labels: &[u32],
    list: &[Derivation],
    shared: &[u32],
) -> Result<(), AllocError>
    requires list { list.now ≡ kernel.now.state.delegations.list }
    ensures { OnOk result (string_bytes out.new ≡ string_bytes out.old ++ flat_map (shared_line policy.now kernel.now.state labels.now) shared.now) }
{
    for sm in shared {
        write_shared_line(out, alloc, policy, kernel, labels, list, *sm)?;
    }
    Ok(())
}
