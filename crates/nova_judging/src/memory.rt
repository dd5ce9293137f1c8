ghost use Rattle.std.specs.Prelude.{◌≡◌, ◌++◌, OnOk, string_bytes};
ghost use Rattle.nova_sides.specs.Among.{flows_in};
ghost use Rattle.law_sides.specs.Tied.{flowing};
ghost use Rattle.nova_judging.specs.Answers.{read_lines};
ghost use Rattle.nova_judging.specs.Memory.{flowing_lines, memory_line, memory_lines, memory_text, right_text, rights_text};

use crate::lines::{write_cause, write_domain};
use crate::trails::with_id;
use bitflags::Flags;
use nova_kernel::{Derivation, Kernel};
use nova_naming::Policy;
use nova_sides::{flowing, reading};
use nova_ties::{Cause, Tie};
use std::alloc::{AllocError, Global};

fn write_right(out: &mut String, derivation: Option<Derivation>) -> Result<(), AllocError>
    ensures { OnOk result (string_bytes out.new ≡ string_bytes out.old ++ right_text derivation) }
{
    match derivation {
        Some(derivation) => {
            let rights = derivation.rights.bits();
            write!(out, "{rights}")
        }
        None => out.push_str("-"),
    }
}

/// Writes the rights of the capabilities of `cause`, if it is of two to memory.
fn write_rights(out: &mut String, list: &[Derivation], cause: Cause) -> Result<(), AllocError>
    ensures { OnOk result (string_bytes out.new ≡ string_bytes out.old ++ rights_text list.now cause) }
{
    if let Cause::Frames(cap, other) = cause {
        out.push_str(" rights ")?;
        write_right(out, with_id(list, cap))?;
        out.push_str(" ")?;
        write_right(out, with_id(list, other))?;
    }
    out.push_str("\n")
}

/// Writes the two domains of `pair`, and by which capabilities they reach a frame, with their rights.
fn write_pair(
    out: &mut String,
    policy: &Policy,
    labels: &[u32],
    list: &[Derivation],
    pair: Tie,
) -> Result<(), AllocError>
    ensures { OnOk result (string_bytes out.new ≡ string_bytes out.old ++ memory_text policy.now labels.now list.now pair) }
{
    write_domain(out, policy, labels, pair.from)?;
    out.push_str(" ")?;
    write_domain(out, policy, labels, pair.to)?;
    out.push_str(" ")?;
    write_cause(out, pair.cause)?;
    write_rights(out, list, pair.cause)
}

fn write_line(
    out: &mut String,
    word: &str,
    policy: &Policy,
    labels: &[u32],
    list: &[Derivation],
    pair: Tie,
) -> Result<(), AllocError>
    ensures { OnOk result (string_bytes out.new ≡ string_bytes out.old ++ memory_line word.now policy.now labels.now list.now pair) }
{
    out.push_str(word)?;
    write_pair(out, policy, labels, list, pair)
}

/// Writes a line of each of `pairs`, behind `word`.
fn write_lines(
    out: &mut String,
    word: &str,
    policy: &Policy,
    labels: &[u32],
    list: &[Derivation],
    pairs: &[Tie],
) -> Result<(), AllocError>
    ensures { OnOk result (string_bytes out.new ≡ string_bytes out.old ++ memory_lines word.now policy.now labels.now list.now pairs.now) }
{
    for pair in pairs {
        write_line(out, word, policy, labels, list, *pair)?;
    }
    Ok(())
}

/// Writes the memory that flows from sides to others.
pub(crate) fn write_flowing(
    out: &mut String,
    alloc: Global,
    policy: &Policy,
    kernel: &Kernel,
    labels: &[u32],
    list: &[Derivation],
    flows: &[(u32, u32)],
) -> Result<(), AllocError>
    ensures { OnOk result (string_bytes out.new ≡ string_bytes out.old ++ flowing_lines policy.now labels.now list.now (flowing (flows_in flows.now labels.now) kernel.now.state)) }
{
    let flowing = flowing(alloc, kernel, labels, flows)?;
    write_lines(out, "flows ", policy, labels, list, &flowing)
}

/// Writes the memory that two sides reach, and that neither may write.
pub(crate) fn write_reading(
    out: &mut String,
    alloc: Global,
    policy: &Policy,
    kernel: &Kernel,
    labels: &[u32],
    list: &[Derivation],
) -> Result<(), AllocError>
    requires list { list.now ≡ kernel.now.state.delegations.list }
    ensures { OnOk result (string_bytes out.new ≡ string_bytes out.old ++ read_lines policy.now kernel.now.state labels.now) }
{
    let reading = reading(alloc, kernel, labels)?;
    write_lines(out, "memory ", policy, labels, list, &reading)
}
