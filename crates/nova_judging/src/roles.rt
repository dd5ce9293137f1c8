ghost use Rattle.std.specs.Prelude.{◌≡◌, ◌++◌, OnOk, string_bytes};
ghost use Rattle.nova_ties.specs.Ties.{label_in};
ghost use Rattle.nova_sides.specs.Works.{role_of};
ghost use Rattle.nova_judging.specs.Roles.{role_line, role_lines, role_text};

use nova_kernel::{Derivation, Kernel, Object};
use nova_sides::{Role, role_of};
use nova_ties::label_of;
use std::alloc::AllocError;

/// Writes what the trusted domain `n` is.
fn write_role(out: &mut String, n: u32, role: Role) -> Result<(), AllocError>
    ensures { OnOk result (string_bytes out.new ≡ string_bytes out.old ++ role_text n role) }
{
    match role {
        Role::Rests => writeln!(out, "domain {n} at rest"),
        Role::Bare => writeln!(out, "domain {n} bare"),
        Role::Mute => writeln!(out, "domain {n} mute"),
        Role::Works => writeln!(out, "domain {n} at work"),
    }
}

/// Writes what `object` is, if it is a trusted domain that isn't at rest.
fn write_role_of(
    out: &mut String,
    labels: &[u32],
    kernel: &Kernel,
    list: &[Derivation],
    n: u32,
    object: Object,
) -> Result<(), AllocError>
    requires list { list.now ≡ kernel.now.state.delegations.list }
    ensures { OnOk result (string_bytes out.new ≡ string_bytes out.old ++ role_line kernel.now.state labels.now (n, object)) }
{
    let Object::Pd = object else {
        return Ok(());
    };
    if label_of(labels, n) != 0 {
        return Ok(());
    }
    write_role(out, n, role_of(kernel, labels, list, n))
}

/// Writes what each trusted domain is.
pub(crate) fn write_roles(
    out: &mut String,
    labels: &[u32],
    kernel: &Kernel,
    list: &[Derivation],
) -> Result<(), AllocError>
    requires list { list.now ≡ kernel.now.state.delegations.list }
    ensures { OnOk result (string_bytes out.new ≡ string_bytes out.old ++ role_lines kernel.now.state labels.now) }
{
    for (i, object) in kernel.objects().iter().enumerate() {
        write_role_of(out, labels, kernel, list, i as u32, *object)?;
    }
    Ok(())
}
