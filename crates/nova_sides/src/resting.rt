ghost use Rattle.std.specs.Prelude.{◌≡◌, ◌<◌, ◌^◌, find, length, option_copied, option_map, slice_get, ℕ};
ghost use Rattle.std.specs.List.{enumerate_from};
ghost use Rattle.nova_model.specs.State.{context_at};
ghost use Rattle.nova_model.specs.Times.{until_due};
ghost use Rattle.law_sides.specs.Resting.{is_astray, is_astray_at, is_leading, is_leading_by, is_nothing, is_resting, is_sided, is_stirring, is_stirring_at, is_unraised, is_unrung, raises};
ghost use Rattle.law_sides.specs.Roles.{is_other};
ghost use Rattle.nova_ties.specs.Ties.{label_in};

use crate::common::is_object;
use crate::holding::lead_of;
use bitflags::Flags;
use nova_kernel::{Derivation, EcState, Kernel, Object, Rights, State};
use nova_ties::{Tie, label_of};

/// Whether the capability `d` may raise the semaphore `sm`.
fn raises(sm: u32, d: Derivation) -> bool
    ensures { result ≡ raises sm d }
{
    is_object(d.kind) && d.target == sm && d.rights.contains(Rights::UP)
}

/// Whether no side may raise the semaphore `sm`.
fn is_unraised_by_sides(labels: &[u32], list: &[Derivation], sm: u32) -> bool
    ensures { result ≡ is_unraised (is_sided (label_in labels.now)) list.now sm }
{
    list.iter()
        .all(|&d| !(raises(sm, d) && label_of(labels, d.pd) != 0))
}

/// Whether no domain but `n` may raise the semaphore `sm`.
fn is_unraised_by_others(n: u32, list: &[Derivation], sm: u32) -> bool
    ensures { result ≡ is_unraised (is_other n) list.now sm }
{
    list.iter().all(|&d| !(raises(sm, d) && d.pd != n))
}

/// Whether the semaphore `sm` is no alarm's.
fn is_unrung(kernel: &Kernel, sm: u32) -> bool
    ensures { result ≡ is_unrung kernel.now.state.times sm }
{
    kernel.sources().iter().all(|a| a.sm != sm)
}

/// Whether nothing is to come on the processor `cpu`: no deadline and no alarm.
fn is_nothing(kernel: &Kernel, cpu: u32) -> bool
    ensures { result ≡ is_nothing (until_due kernel.now.state.times cpu) }
{
    kernel.until_due(cpu).is_none()
}

/// Whether `context` does nothing, and nothing but a call or an exit has it do something, where of all others sides alone act.
fn rests_beside_sides(
    kernel: &Kernel,
    labels: &[u32],
    list: &[Derivation],
    context: &EcState,
) -> bool
    requires list { list.now ≡ kernel.now.state.delegations.list }
    ensures { result ≡ is_resting kernel.now.state (is_sided (label_in labels.now)) context.now }
{
    match context.state {
        State::Parked | State::Dead => true,
        State::Blocked(sm) => {
            is_unraised_by_sides(labels, list, sm)
                && is_unrung(kernel, sm)
                && is_nothing(kernel, context.cpu)
        }
        _ => false,
    }
}

/// Whether `context` does nothing, and nothing but a call or an exit has it do something, where all domains but `n` may act.
pub(crate) fn rests_beside_others(
    kernel: &Kernel,
    list: &[Derivation],
    n: u32,
    context: &EcState,
) -> bool
    requires list { list.now ≡ kernel.now.state.delegations.list }
    ensures { result ≡ is_resting kernel.now.state (is_other n) context.now }
{
    match context.state {
        State::Parked | State::Dead => true,
        State::Blocked(sm) => {
            is_unraised_by_others(n, list, sm)
                && is_unrung(kernel, sm)
                && is_nothing(kernel, context.cpu)
        }
        _ => false,
    }
}

/// Whether what has a side is no domain.
fn is_astray_at(label: u32, object: Option<&Object>) -> bool
    ensures { result ≡ is_astray_at label (option_copied object.entry) }
{
    label != 0 && !matches!(object, Some(Object::Pd))
}

/// The first number in `labels` that has a side and is of no domain of `kernel`.
pub fn first_astray(kernel: &Kernel, labels: &[u32]) -> Option<u32>
    requires { length labels.now < 2 ^ 32 }
    ensures { result ≡ option_map (λ e. e.0) (find (is_astray kernel.now.state) (enumerate_from 0 labels.now)) }
{
    for (i, label) in labels.iter().enumerate() {
        if is_astray_at(*label, kernel.object(i as u32)) {
            return Some(i as u32);
        }
    }
    None
}

/// Whether `tie` leads from a side to what is trusted.
fn is_leading_by(labels: &[u32], tie: Option<Tie>) -> bool
    ensures { result ≡ is_leading_by (label_in labels.now) tie }
{
    match tie {
        Some(tie) => label_of(labels, tie.from) != 0 && label_of(labels, tie.to) == 0,
        None => false,
    }
}

/// Whether `d`, a capability of a side, leads to a domain, an execution context or a portal of what is trusted.
fn is_leading(kernel: &Kernel, labels: &[u32], d: Derivation) -> bool
    ensures { result ≡ is_leading kernel.now.state (label_in labels.now) d }
{
    is_object(d.kind) && is_leading_by(labels, lead_of(kernel, d))
}

fn leading_in<'a>(kernel: &Kernel, labels: &[u32], list: &'a [Derivation]) -> Option<&'a Derivation>
    ensures { option_map (λ d. d.now) result ≡ find (is_leading kernel.now.state (label_in labels.now)) list.now }
{
    list.iter().find(|d| is_leading(kernel, labels, **d))
}

/// The first capability in `list` of a side that leads to what is trusted.
pub fn first_leading(kernel: &Kernel, labels: &[u32], list: &[Derivation]) -> Option<Derivation>
    ensures { result ≡ find (is_leading kernel.now.state (label_in labels.now)) list.now }
{
    Some(*leading_in(kernel, labels, list)?)
}

fn is_stirring_at(kernel: &Kernel, labels: &[u32], list: &[Derivation], n: u32, pd: u32) -> bool
    requires list { list.now ≡ kernel.now.state.delegations.list }
    ensures { result ≡ is_stirring_at kernel.now.state (label_in labels.now) pd (context_at kernel.now.state n) }
{
    match kernel.ec(n) {
        Some(context) => {
            label_of(labels, pd) == 0 && !rests_beside_sides(kernel, labels, list, context)
        }
        None => false,
    }
}

/// Whether the execution context `n` of what is trusted isn't at rest.
fn is_stirring(kernel: &Kernel, labels: &[u32], list: &[Derivation], n: u32, object: Object) -> bool
    requires list { list.now ≡ kernel.now.state.delegations.list }
    ensures { result ≡ is_stirring kernel.now.state (label_in labels.now) (n, object) }
{
    match object {
        Object::Ec { pd, .. } => is_stirring_at(kernel, labels, list, n, pd),
        _ => false,
    }
}

/// The first execution context of what is trusted by `labels` that isn't at rest.
pub fn first_stirring(kernel: &Kernel, labels: &[u32], list: &[Derivation]) -> Option<u32>
    requires list { list.now ≡ kernel.now.state.delegations.list }
    ensures { result ≡ option_map (λ e. e.0) (find (is_stirring kernel.now.state (label_in labels.now)) (enumerate_from 0 kernel.now.state.objects)) }
{
    for (i, object) in kernel.objects().iter().enumerate() {
        if is_stirring(kernel, labels, list, i as u32, *object) {
            return Some(i as u32);
        }
    }
    None
}
