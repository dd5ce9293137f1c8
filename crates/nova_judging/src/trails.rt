ghost use Rattle.std.specs.Prelude.{◌≡◌, ◌++◌, OnOk, option_map, string_bytes};
ghost use Rattle.nova_model.specs.Delegations.{parent_of, with_id};
ghost use Rattle.nova_report.specs.Words.{parent_word, space_word};
ghost use Rattle.nova_judging.specs.Trails.{cause_lines, link_line, trail_lines};

use bitflags::Flags;
use nova_kernel::{Derivation, Kind};
use nova_ties::Cause;
use std::alloc::AllocError;

fn space_word<'a>(kind: Kind) -> &'a str
    ensures { result.now ≡ space_word kind }
{
    match kind {
        Kind::Mem => "mem",
        Kind::Obj => "obj",
    }
}

fn write_parent(out: &mut String, parent: Option<u32>) -> Result<(), AllocError>
    ensures { OnOk result (string_bytes out.new ≡ string_bytes out.old ++ parent_word parent) }
{
    match parent {
        Some(id) => write!(out, "{id}"),
        None => out.push_str("-"),
    }
}

/// Writes `derivation`, with what a report tells of it.
fn write_link(out: &mut String, derivation: Derivation) -> Result<(), AllocError>
    ensures { OnOk result (string_bytes out.new ≡ string_bytes out.old ++ link_line derivation) }
{
    let Derivation {
        id,
        pd,
        kind,
        base,
        order,
        rights,
        target,
        parent,
    } = derivation;
    let space = space_word(kind);
    let rights = rights.bits();
    write!(out, "from {id} ")?;
    write_parent(out, parent)?;
    writeln!(out, " {pd} {space} {base} {order} {rights} {target}")
}

fn of_id(list: &[Derivation], id: u32) -> Option<&Derivation>
    ensures { option_map (λ d. d.now) result ≡ with_id list.now id }
{
    list.iter().find(|d| d.id == id)
}

/// The derivation `id` of `list`, where there is one.
pub(crate) fn with_id(list: &[Derivation], id: u32) -> Option<Derivation>
    ensures { result ≡ with_id list.now id }
{
    Some(*of_id(list, id)?)
}

/// The derivation of `list` from which `derivation` was derived, if it was.
fn parent_of(list: &[Derivation], derivation: Derivation) -> Option<Derivation>
    ensures { result ≡ parent_of list.now derivation }
{
    with_id(list, derivation.parent?)
}

/// Writes where the capability `cap` came from: itself, that from which it was derived, and so on.
pub(crate) fn write_trail(out: &mut String, list: &[Derivation], cap: u32) -> Result<(), AllocError>
    ensures { OnOk result (string_bytes out.new ≡ string_bytes out.old ++ trail_lines list.now cap) }
{
    let mut next = with_id(list, cap);
    for _link in 0..u64::from(cap) + 1 {
        let Some(derivation) = next else {
            return Ok(());
        };
        write_link(out, derivation)?;
        next = parent_of(list, derivation);
    }
    Ok(())
}

/// Writes where the capabilities `cap` and `other` came from.
fn write_trails(
    out: &mut String,
    list: &[Derivation],
    cap: u32,
    other: u32,
) -> Result<(), AllocError>
    ensures { OnOk result (string_bytes out.new ≡ string_bytes out.old ++ (trail_lines list.now cap ++ trail_lines list.now other)) }
{
    write_trail(out, list, cap)?;
    write_trail(out, list, other)
}

/// Writes where the capabilities of `cause` came from.
pub(crate) fn write_cause_trails(
    out: &mut String,
    list: &[Derivation],
    cause: Cause,
) -> Result<(), AllocError>
    ensures { OnOk result (string_bytes out.new ≡ string_bytes out.old ++ cause_lines list.now cause) }
{
    match cause {
        Cause::Domain(cap) => write_trail(out, list, cap),
        Cause::Context(cap) => write_trail(out, list, cap),
        Cause::Portal(cap) => write_trail(out, list, cap),
        Cause::Scheduling(cap) => write_trail(out, list, cap),
        Cause::Frames(cap, other) => write_trails(out, list, cap, other),
        Cause::Shared(cap, other) => write_trails(out, list, cap, other),
        Cause::Waits(cap, _) => write_trail(out, list, cap),
        Cause::Queue(..) | Cause::Serves(..) | Cause::Takes(..) | Cause::Gives(_) => Ok(()),
    }
}
