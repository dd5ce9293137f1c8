// Memory that two sides reach, and neither may write.
ghost use Rattle.std.specs.Prelude.{◌≡◌, ◌++◌, ◌==◌, ◌&&◌, not, flat_map, option_to_list, IfOk, OnOk};
ghost use Rattle.nova_ties.specs.Ties.{label_in};
ghost use Rattle.law_sides.specs.Tied.{are_read, both_read, is_read, reading, reading_by};

use crate::common::{is_memory, push, weak};
use crate::derivations::derivations_of;
use crate::memory::meets;
use bitflags::Flags;
use nova_kernel::{Derivation, Kernel, Rights};
use nova_ties::{Cause, Tie, label_of};
use std::alloc::{AllocError, Global};

/// Whether a domain of a side has a range of memory, and may not write it.
fn is_read(labels: &[u32], d: Derivation) -> bool
    ensures { result ≡ is_read (label_in labels.now) d }
{
    label_of(labels, d.pd) != 0 && is_memory(d.kind) && !d.rights.contains(Rights::WRITE)
}

/// Whether a second range is one of another side, which may not write it either, with a frame in common; each pair is so in one order.
fn are_read(labels: &[u32], d: Derivation, e: Derivation) -> bool
    ensures { result ≡ are_read (label_in labels.now) d e }
{
    is_read(labels, e)
        && label_of(labels, e.pd) != label_of(labels, d.pd)
        && d.id <= e.id
        && meets(d, e)
}

fn both_read(labels: &[u32], d: Derivation, e: Derivation) -> Option<Tie>
    ensures { result ≡ both_read (label_in labels.now) d e }
{
    if are_read(labels, d, e) {
        Some(weak(d.pd, e.pd, Cause::Frames(d.id, e.id)))
    } else {
        None
    }
}

fn push_both_read(
    out: &mut Vec<Tie>,
    labels: &[u32],
    d: Derivation,
    list: &[Derivation],
) -> Result<(), AllocError>
    ensures { OnOk result (out.new.items ≡ out.old.items ++ flat_map (λ e. option_to_list (both_read (label_in labels.now) d e)) list.now) }
{
    for e in list {
        push(out, both_read(labels, d, *e))?;
    }
    Ok(())
}

fn push_reading_by(
    out: &mut Vec<Tie>,
    labels: &[u32],
    d: Derivation,
    list: &[Derivation],
) -> Result<(), AllocError>
    ensures { OnOk result (out.new.items ≡ out.old.items ++ reading_by (label_in labels.now) list.now d) }
{
    if is_read(labels, d) {
        push_both_read(out, labels, d, list)
    } else {
        Ok(())
    }
}

fn push_reading(out: &mut Vec<Tie>, labels: &[u32], list: &[Derivation]) -> Result<(), AllocError>
    ensures { OnOk result (out.new.items ≡ out.old.items ++ flat_map (reading_by (label_in labels.now) list.now) list.now) }
{
    for d in list {
        push_reading_by(out, labels, *d, list)?;
    }
    Ok(())
}

/// The memory of `kernel` that two sides of `labels` reach, and that neither may write: a capability of a protection domain of one, and one of a
/// domain of the other, that have a frame in common; each pair once, with the lesser number first.
#[tactic(auto, unfolding(law_sides::specs::Tied::reading))]
pub fn reading(alloc: Global, kernel: &Kernel, labels: &[u32]) -> Result<Vec<Tie>, AllocError>
    ensures { IfOk result (λ list. list.items ≡ reading (label_in labels.now) kernel.now.state) }
{
    let list = derivations_of(alloc, kernel)?;
    let mut out = Vec::new(alloc);
    push_reading(&mut out, labels, &list)?;
    Ok(out)
}
