ghost use Rattle.std.specs.Prelude.{◌≡◌, ◌++◌, ◌≤◌, ◌^◌, OnOk, flat_map, length, string_bytes};
ghost use Rattle.std.specs.List.{enumerate_from, position};
ghost use Rattle.nova_ties.specs.Ties.{has_label, is_place};
ghost use Rattle.nova_judging.specs.Sides.{begins_side, member_text, members_text, side_line, side_lines};

use nova_kernel::Object;
use nova_naming::Policy;
use nova_ties::label_of;
use std::alloc::AllocError;

/// A domain of a label.
fn write_member(
    out: &mut String,
    labels: &[u32],
    label: u32,
    n: u32,
    object: Object,
) -> Result<(), AllocError>
    ensures { OnOk result (string_bytes out.new ≡ string_bytes out.old ++ member_text labels.now label (n, object)) }
{
    let Object::Pd = object else {
        return Ok(());
    };
    if label_of(labels, n) != label {
        return Ok(());
    }
    write!(out, " {n}")
}

/// Writes the domains of `label`.
fn write_members(
    out: &mut String,
    labels: &[u32],
    label: u32,
    objects: &[Object],
) -> Result<(), AllocError>
    requires few { length objects.now ≤ 2 ^ 31 }
    ensures { OnOk result (string_bytes out.new ≡ string_bytes out.old ++ members_text labels.now label objects.now) }
{
    for (i, object) in objects.iter().enumerate() {
        write_member(out, labels, label, i as u32, *object)?;
    }
    Ok(())
}

/// The first number with `label`.
fn place_of(labels: &[u32], label: u32) -> Option<usize>
    ensures { result ≡ position (has_label label) labels.now }
{
    labels.iter().position(|&other| other == label)
}

fn is_place(n: usize, place: Option<usize>) -> bool
    ensures { result ≡ is_place n place }
{
    match place {
        Some(place) => place == n,
        None => false,
    }
}

/// Whether `n` is the first number with `label`, that of a side.
pub(crate) fn begins_side(labels: &[u32], n: usize, label: u32) -> bool
    ensures { result ≡ begins_side labels.now (n, label) }
{
    label != 0 && is_place(n, place_of(labels, label))
}

/// A side, where a number is the first with its label.
fn write_side(
    out: &mut String,
    policy: &Policy,
    labels: &[u32],
    objects: &[Object],
    n: usize,
    label: u32,
) -> Result<(), AllocError>
    requires few { length objects.now ≤ 2 ^ 31 }
    ensures { OnOk result (string_bytes out.new ≡ string_bytes out.old ++ side_line policy.now labels.now objects.now (n, label)) }
{
    if !begins_side(labels, n, label) {
        return Ok(());
    }
    out.push_str("side ")?;
    policy.write_side(out, label)?;
    out.push_str(":")?;
    write_members(out, labels, label, objects)?;
    out.push_str("\n")
}

fn write_each_side(
    out: &mut String,
    policy: &Policy,
    labels: &[u32],
    objects: &[Object],
) -> Result<(), AllocError>
    requires few { length objects.now ≤ 2 ^ 31 }
    ensures { OnOk result (string_bytes out.new ≡ string_bytes out.old ++ flat_map (side_line policy.now labels.now objects.now) (enumerate_from 0 labels.now)) }
{
    for (n, label) in labels.iter().enumerate() {
        write_side(out, policy, labels, objects, n, *label)?;
    }
    Ok(())
}

/// Writes what is trusted, and the sides.
pub(crate) fn write_sides(
    out: &mut String,
    policy: &Policy,
    labels: &[u32],
    objects: &[Object],
) -> Result<(), AllocError>
    requires few { length objects.now ≤ 2 ^ 31 }
    ensures { OnOk result (string_bytes out.new ≡ string_bytes out.old ++ side_lines policy.now labels.now objects.now) }
{
    out.push_str("trusted:")?;
    write_members(out, labels, 0, objects)?;
    out.push_str("\n")?;
    write_each_side(out, policy, labels, objects)
}
