ghost use Rattle.std.specs.Prelude.{◌≡◌, ◌++◌, OnOk, string_bytes};
ghost use Rattle.nova_report.specs.Words.{parent_word, space_word};
ghost use Rattle.nova_report.specs.Report.{derivation_line, derivation_lines};

use bitflags::Flags;
use nova_kernel::Kernel;
use nova_model::{Derivation, Kind};
use std::alloc::AllocError;

fn space_word<'a>(kind: Kind) -> &'a str
    ensures { result.now ≡ space_word kind }
{
    match kind {
        Kind::Mem => "mem",
        Kind::Obj => "obj",
    }
}

fn write_parent(out: &mut String, parent: Option<u32>) -> Result<(), AllocError>
    ensures { OnOk result (string_bytes out.new ≡ string_bytes out.old ++ parent_word parent) }
{
    match parent {
        Some(id) => write!(out, "{id}"),
        None => out.push_str("-"),
    }
}

fn write_derivation(out: &mut String, derivation: Derivation) -> Result<(), AllocError>
    ensures { OnOk result (string_bytes out.new ≡ string_bytes out.old ++ derivation_line derivation) }
{
    let Derivation {
        id,
        pd,
        kind,
        base,
        order,
        rights,
        target,
        parent,
    } = derivation;
    let space = space_word(kind);
    let rights = rights.bits();
    write!(out, "cap {id} ")?;
    write_parent(out, parent)?;
    writeln!(out, " {pd} {space} {base} {order} {rights} {target}")
}

/// Writes a line for each derivation of `kernel`, by rising id.
pub fn write_derivations(out: &mut String, kernel: &Kernel) -> Result<(), AllocError>
    ensures { OnOk result (string_bytes out.new ≡ string_bytes out.old ++ derivation_lines kernel.now.state) }
{
    let mut id = 0;
    while let Some(derivation) = kernel.derivation_from(id) {
        write_derivation(out, derivation)?;
        id = derivation.id + 1;
    }
    Ok(())
}
