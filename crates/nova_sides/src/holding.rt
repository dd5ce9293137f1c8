ghost use Rattle.std.specs.Prelude.{◌≡◌, ◌++◌, ◌||◌, [], flat_map, if◌then◌else◌, length, option_to_list, slice_get, OnOk, Some, ℕ};
ghost use Rattle.std.specs.List.{enumerate_from};
ghost use Rattle.nova_range.specs.Rights.{allows};
ghost use Rattle.nova_model.specs.Capabilities.{bind_portal_right, bind_scheduling_right, control_right};
ghost use Rattle.nova_model.specs.Delegations.{is_child_of};
ghost use Rattle.nova_model.specs.Semaphores.{semaphore};
ghost use Rattle.nova_model.specs.State.{context_at};
ghost use Rattle.law_turns.specs.Waiting.{AreBlocked};
ghost use Rattle.law_sides.specs.Isolated.{commands};
ghost use Rattle.law_sides.specs.Tied.{is_blocked_at, lead_of, leads, shares, shares_all, shares_at, strict, ties_by, waits_all, waits_at, waits_in, weak};
ghost use Rattle.nova_sides.specs.Among.{flows_in, is_among};

use crate::common::{domain_of, is_among, is_blocked_at, is_object, push, strict, weak};
use crate::memory::push_overlaps;
use bitflags::Flags;
use nova_kernel::{Derivation, Kernel, Kind, Object, Rights};
use nova_ties::{Cause, Tie};
use std::alloc::AllocError;

/// Whether rights to an execution context command it.
fn commands_context(rights: Rights) -> bool
    ensures { result ≡ (allows rights control_right || (allows rights bind_scheduling_right || allows rights bind_portal_right)) }
{
    rights.contains(Rights::CONTROL)
        || rights.contains(Rights::BIND_SC)
        || rights.contains(Rights::BIND_PT)
}

/// Whether rights command an object.
fn commands(rights: Rights, object: Object) -> bool
    ensures { result ≡ commands rights object }
{
    match object {
        Object::Pd => rights.contains(Rights::CREATE),
        Object::Ec { .. } => commands_context(rights),
        Object::Sc { .. } | Object::Pt { .. } => rights.contains(Rights::CONTROL),
        Object::Sm => false,
    }
}

fn leads(d: Derivation, to: u32, object: Object, cause: Cause) -> Tie
    ensures { result ≡ leads d to object cause }
{
    Tie {
        from: d.pd,
        to,
        strict: commands(d.rights, object),
        cause,
    }
}

/// The domain to which a capability leads, by its object.
fn lead_by(kernel: &Kernel, d: Derivation, object: Object) -> Option<Tie>
    ensures { result ≡ lead_of kernel.now.state d (Some object) }
{
    match object {
        Object::Pd => Some(leads(d, d.target, object, Cause::Domain(d.id))),
        Object::Ec { pd, .. } => Some(leads(d, pd, object, Cause::Context(d.id))),
        Object::Sc { ec, .. } => {
            let donor = domain_of(kernel, ec);
            Some(leads(d, donor, object, Cause::Scheduling(d.id)))
        }
        Object::Pt { ec, .. } => {
            let handler = domain_of(kernel, ec);
            Some(leads(d, handler, object, Cause::Portal(d.id)))
        }
        Object::Sm => None,
    }
}

/// The domain to which a capability leads.
pub(crate) fn lead_of(kernel: &Kernel, d: Derivation) -> Option<Tie>
    ensures { result ≡ lead_of kernel.now.state d (slice_get kernel.now.state.objects d.target) }
{
    match kernel.object(d.target) {
        Some(object) => lead_by(kernel, d, *object),
        None => None,
    }
}

/// Whether a capability was derived from one of an id.
fn is_child_of(id: u32, d: Derivation) -> bool
    ensures { result ≡ is_child_of id d }
{
    match d.parent {
        Some(parent) => parent == id,
        None => false,
    }
}

/// Another capability to a semaphore, which is shared or not.
fn shares_at(common: bool, d: Derivation, e: Derivation) -> Option<Tie>
    ensures { result ≡ shares_at common d e }
{
    if !common {
        Some(weak(d.pd, e.pd, Cause::Shared(d.id, e.id)))
    } else if is_child_of(d.id, e) {
        Some(strict(d.pd, e.pd, Cause::Shared(d.id, e.id)))
    } else {
        None
    }
}

/// Another capability to the same semaphore.
fn shares(shared: &[u32], d: Derivation, e: Derivation) -> Option<Tie>
    ensures { result ≡ shares (is_among shared.now) d e }
{
    match e.kind {
        Kind::Mem => None,
        Kind::Obj => {
            if e.target == d.target {
                shares_at(is_among(shared, d.target), d, e)
            } else {
                None
            }
        }
    }
}

fn push_shared(
    out: &mut Vec<Tie>,
    shared: &[u32],
    d: Derivation,
    list: &[Derivation],
) -> Result<(), AllocError>
    ensures { OnOk result (out.new.items ≡ out.old.items ++ flat_map (λ e. option_to_list (shares (is_among shared.now) d e)) list.now) }
{
    for e in list {
        push(out, shares(shared, d, *e))?;
    }
    Ok(())
}

/// All capabilities to the semaphore to which a capability leads, if it leads to one.
fn push_shares(
    out: &mut Vec<Tie>,
    kernel: &Kernel,
    shared: &[u32],
    d: Derivation,
    list: &[Derivation],
) -> Result<(), AllocError>
    ensures { OnOk result (out.new.items ≡ out.old.items ++ shares_all (is_among shared.now) list.now d (slice_get kernel.now.state.objects d.target)) }
{
    match kernel.object(d.target) {
        Some(Object::Sm) => push_shared(out, shared, d, list),
        _ => Ok(()),
    }
}

/// Whether an execution context waits at what a capability leads to.
fn waits_at(kernel: &Kernel, d: Derivation, n: u32, pd: u32) -> Option<Tie>
    ensures { result ≡ waits_at d n pd (context_at kernel.now.state n) }
{
    let context = kernel.ec(n)?;
    if is_blocked_at(d.target, context) {
        return Some(weak(d.pd, pd, Cause::Waits(d.id, n)));
    }
    None
}

fn waits_in(kernel: &Kernel, d: Derivation, n: u32, object: Object) -> Option<Tie>
    ensures { result ≡ waits_in kernel.now.state d (n, object) }
{
    match object {
        Object::Ec { pd, .. } => waits_at(kernel, d, n, pd),
        _ => None,
    }
}

/// How many execution contexts wait at a semaphore.
fn waiting_at(kernel: &Kernel, sm: u32) -> u32
    ensures { result ≡ length (semaphore kernel.now.state.semaphores sm).waiting }
{
    match kernel.semaphore(sm) {
        Some((_, waiting)) => waiting,
        None => 0,
    }
}

fn push_waiting(out: &mut Vec<Tie>, kernel: &Kernel, d: Derivation) -> Result<(), AllocError>
    ensures { OnOk result (out.new.items ≡ out.old.items ++ flat_map (λ e. option_to_list (waits_in kernel.now.state d e)) (enumerate_from 0 kernel.now.state.objects)) }
{
    for (i, object) in kernel.objects().iter().enumerate() {
        push(out, waits_in(kernel, d, i as u32, *object))?;
    }
    Ok(())
}

/// All that wait at what a capability leads to. Mostly nobody does, and then no execution context is looked at.
fn push_waits(out: &mut Vec<Tie>, kernel: &Kernel, d: Derivation) -> Result<(), AllocError>
    requires blocked { AreBlocked kernel.now.state.contexts kernel.now.state.semaphores }
    ensures { OnOk result (out.new.items ≡ out.old.items ++ flat_map (λ e. option_to_list (waits_in kernel.now.state d e)) (enumerate_from 0 kernel.now.state.objects)) }
{
    if waiting_at(kernel, d.target) == 0 {
        return Ok(());
    }
    push_waiting(out, kernel, d)
}

/// The same, unless that is shared.
fn push_unshared_waits(
    out: &mut Vec<Tie>,
    kernel: &Kernel,
    shared: &[u32],
    d: Derivation,
) -> Result<(), AllocError>
    requires blocked { AreBlocked kernel.now.state.contexts kernel.now.state.semaphores }
    ensures { OnOk result (out.new.items ≡ out.old.items ++ waits_all (is_among shared.now) kernel.now.state d) }
{
    if is_among(shared, d.target) {
        Ok(())
    } else {
        push_waits(out, kernel, d)
    }
}

fn push_by(
    out: &mut Vec<Tie>,
    kernel: &Kernel,
    labels: &[u32],
    shared: &[u32],
    flows: &[(u32, u32)],
    d: Derivation,
    list: &[Derivation],
) -> Result<(), AllocError>
    requires blocked { AreBlocked kernel.now.state.contexts kernel.now.state.semaphores }
    ensures { OnOk result (out.new.items ≡ out.old.items ++ ties_by (is_among shared.now) (flows_in flows.now labels.now) kernel.now.state list.now d) }
{
    if !is_object(d.kind) {
        return push_overlaps(out, false, labels, flows, d, list);
    }
    push(out, lead_of(kernel, d))?;
    push_shares(out, kernel, shared, d, list)?;
    push_unshared_waits(out, kernel, shared, d)
}

pub(crate) fn push_all_by(
    out: &mut Vec<Tie>,
    kernel: &Kernel,
    labels: &[u32],
    shared: &[u32],
    flows: &[(u32, u32)],
    list: &[Derivation],
) -> Result<(), AllocError>
    requires blocked { AreBlocked kernel.now.state.contexts kernel.now.state.semaphores }
    ensures { OnOk result (out.new.items ≡ out.old.items ++ flat_map (ties_by (is_among shared.now) (flows_in flows.now labels.now) kernel.now.state list.now) list.now) }
{
    for d in list {
        push_by(out, kernel, labels, shared, flows, *d, list)?;
    }
    Ok(())
}
