ghost use Rattle.std.specs.Prelude.{◌≡◌, ◌++◌, not, OnOk, flat_map, string_bytes};
ghost use Rattle.std.specs.List.{enumerate_from, list_any};
ghost use Rattle.nova_model.specs.Delegations.{is_memory};
ghost use Rattle.nova_judging.specs.Processors.{creates, is_on, may_run, processor_line, processor_lines, runner_text};

use crate::sides::begins_side;
use crate::strangers::is_domain;
use bitflags::Flags;
use nova_kernel::{Derivation, Kernel, Kind, Object, Rights};
use nova_naming::Policy;
use nova_ties::label_of;
use std::alloc::AllocError;

/// Whether `object` is an execution context of a side, on the processor `cpu`.
fn is_on(labels: &[u32], label: u32, cpu: u32, object: Object) -> bool
    ensures { result ≡ is_on labels.now label cpu object }
{
    match object {
        Object::Ec { pd, cpu: at, .. } => at == cpu && label_of(labels, pd) == label,
        _ => false,
    }
}

fn is_any_on(labels: &[u32], label: u32, cpu: u32, objects: &[Object]) -> bool
    ensures { result ≡ list_any (is_on labels.now label cpu) objects.now }
{
    objects
        .iter()
        .any(|&object| is_on(labels, label, cpu, object))
}

pub(crate) fn is_object(kind: Kind) -> bool
    ensures { result ≡ not (is_memory kind) }
{
    matches!(kind, Kind::Obj)
}

/// Whether `d`, a capability of a side, leads to a protection domain, to create in it.
fn creates(kernel: &Kernel, labels: &[u32], label: u32, d: Derivation) -> bool
    ensures { result ≡ creates kernel.now.state labels.now label d }
{
    label_of(labels, d.pd) == label
        && is_object(d.kind)
        && d.rights.contains(Rights::CREATE)
        && is_domain(kernel, d.target)
}

fn creates_by(kernel: &Kernel, labels: &[u32], label: u32, list: &[Derivation]) -> bool
    ensures { result ≡ list_any (creates kernel.now.state labels.now label) list.now }
{
    list.iter().any(|&d| creates(kernel, labels, label, d))
}

/// Whether a side has an execution context on the processor `cpu`, or may come to have one.
fn may_run(kernel: &Kernel, labels: &[u32], list: &[Derivation], cpu: u32, label: u32) -> bool
    requires list { list.now ≡ kernel.now.state.delegations.list }
    ensures { result ≡ may_run kernel.now.state labels.now cpu label }
{
    is_any_on(labels, label, cpu, kernel.objects()) || creates_by(kernel, labels, label, list)
}

/// A side that may take turns of a processor, where a number is the first with its label.
fn write_runner(
    out: &mut String,
    policy: &Policy,
    kernel: &Kernel,
    labels: &[u32],
    list: &[Derivation],
    cpu: u32,
    n: usize,
    label: u32,
) -> Result<(), AllocError>
    requires list { list.now ≡ kernel.now.state.delegations.list }
    ensures { OnOk result (string_bytes out.new ≡ string_bytes out.old ++ runner_text policy.now kernel.now.state labels.now cpu (n, label)) }
{
    if begins_side(labels, n, label) && may_run(kernel, labels, list, cpu, label) {
        out.push_str(" ")?;
        return policy.write_side(out, label);
    }
    Ok(())
}

fn write_runners(
    out: &mut String,
    policy: &Policy,
    kernel: &Kernel,
    labels: &[u32],
    list: &[Derivation],
    cpu: u32,
) -> Result<(), AllocError>
    requires list { list.now ≡ kernel.now.state.delegations.list }
    ensures { OnOk result (string_bytes out.new ≡ string_bytes out.old ++ flat_map (runner_text policy.now kernel.now.state labels.now cpu) (enumerate_from 0 labels.now)) }
{
    for (n, label) in labels.iter().enumerate() {
        write_runner(out, policy, kernel, labels, list, cpu, n, *label)?;
    }
    Ok(())
}

/// Writes the processor `cpu`, with the sides that may take turns of it.
fn write_processor(
    out: &mut String,
    policy: &Policy,
    kernel: &Kernel,
    labels: &[u32],
    list: &[Derivation],
    cpu: u32,
) -> Result<(), AllocError>
    requires list { list.now ≡ kernel.now.state.delegations.list }
    ensures { OnOk result (string_bytes out.new ≡ string_bytes out.old ++ processor_line policy.now kernel.now.state labels.now cpu) }
{
    write!(out, "processor {cpu}:")?;
    write_runners(out, policy, kernel, labels, list, cpu)?;
    out.push_str("\n")
}

/// Writes which sides may take turns of each processor.
pub(crate) fn write_processors(
    out: &mut String,
    policy: &Policy,
    kernel: &Kernel,
    labels: &[u32],
    list: &[Derivation],
) -> Result<(), AllocError>
    requires list { list.now ≡ kernel.now.state.delegations.list }
    ensures { OnOk result (string_bytes out.new ≡ string_bytes out.old ++ processor_lines policy.now kernel.now.state labels.now) }
{
    for cpu in 0..kernel.cpus() {
        write_processor(out, policy, kernel, labels, list, cpu)?;
    }
    Ok(())
}
