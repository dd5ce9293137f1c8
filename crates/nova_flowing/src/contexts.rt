// What premises ask of an execution context.
ghost use Rattle.std.specs.Prelude.{◌≡◌, ◌==◌, ◌&&◌, ◌||◌, ◌<◌, ℕ, not};
ghost use Rattle.std.specs.List.{enumerate_from, list_any};
ghost use Rattle.nova_model.specs.Edges.{edge_of};
ghost use Rattle.nova_model.specs.State.{context_at};
ghost use Rattle.law_sides.specs.Resting.{is_unrung};
ghost use Rattle.nova_flowing.specs.Tests.{blocked_at, caller_of, first_of, gives_without, holds, is_awaited_without, is_blocked_at, is_in, is_member, is_of_neither, is_quiet, is_some_with, is_without, queues_of, queues_without, stirs, waits_at_theirs, waits_beside, waits_from_without};

use crate::capabilities::{holds, is_unraised};
use crate::tables::{is_in, is_member, is_of};
use nova_kernel::{Derivation, Kernel, Mark, Object, State};

/// The handler that one waits for.
pub(crate) fn edge_of(state: State) -> Option<u32>
    ensures { result ≡ edge_of state }
{
    match state {
        State::Calling(handler) | State::Helping(handler) | State::Sending(_, _, _, handler) => {
            Some(handler)
        }
        _ => None,
    }
}

/// The semaphore at which one is blocked.
pub(crate) fn blocked_at(state: State) -> Option<u32>
    ensures { result ≡ blocked_at state }
{
    match state {
        State::Blocked(sm) => Some(sm),
        _ => None,
    }
}

/// The domain to which one gives a first range.
fn first_of(state: State) -> Option<u32>
    ensures { result ≡ first_of state }
{
    match state {
        State::Granting(new) => new,
        _ => None,
    }
}

pub(crate) fn caller_of(caller: Option<(u32, Mark)>) -> Option<u32>
    ensures { result ≡ caller_of caller }
{
    match caller {
        Some((caller, _)) => Some(caller),
        None => None,
    }
}

fn is_some_member(kernel: &Kernel, set: &[bool], n: Option<u32>) -> bool
    ensures { result ≡ is_some_with (is_member kernel.now.state (is_in set.now)) n }
{
    match n {
        Some(n) => is_member(kernel, set, n),
        None => false,
    }
}

/// Whether there is a number, and it isn't in a table.
pub(crate) fn is_without(set: &[bool], n: Option<u32>) -> bool
    ensures { result ≡ is_without (is_in set.now) n }
{
    match n {
        Some(n) => !is_in(set, n),
        None => false,
    }
}

/// Whether one waits for a handler of a set, and isn't of it.
pub(crate) fn waits_from_without(kernel: &Kernel, set: &[bool], n: u32, state: State) -> bool
    ensures { result ≡ waits_from_without kernel.now.state (is_in set.now) n state }
{
    !is_member(kernel, set, n) && is_some_member(kernel, set, edge_of(state))
}

/// Whether one of a set gives a first range to a domain that isn't of it.
pub(crate) fn gives_without(kernel: &Kernel, set: &[bool], n: u32, state: State) -> bool
    ensures { result ≡ gives_without kernel.now.state (is_in set.now) n state }
{
    is_member(kernel, set, n) && is_without(set, first_of(state))
}

fn is_unrung(kernel: &Kernel, sm: u32) -> bool
    ensures { result ≡ is_unrung kernel.now.state.times sm }
{
    kernel.sources().iter().all(|a| a.sm != sm)
}

/// Whether nothing but a deadline has one of neither set do something.
fn is_quiet(
    kernel: &Kernel,
    list: &[Derivation],
    own: &[bool],
    others: &[bool],
    state: State,
) -> bool
    requires list { list.now ≡ kernel.now.state.delegations.list }
    ensures { result ≡ is_quiet kernel.now.state (is_in own.now) (is_in others.now) state }
{
    match state {
        State::Parked | State::Dead => true,
        State::Blocked(sm) => is_unraised(list, own, others, sm) && is_unrung(kernel, sm),
        _ => false,
    }
}

pub(crate) fn is_of_neither(kernel: &Kernel, own: &[bool], others: &[bool], n: u32) -> bool
    ensures { result ≡ is_of_neither kernel.now.state (is_in own.now) (is_in others.now) n }
{
    !is_member(kernel, own, n) && !is_member(kernel, others, n)
}

/// Whether one of neither set goes on, or may be had go on.
pub(crate) fn stirs(
    kernel: &Kernel,
    list: &[Derivation],
    own: &[bool],
    others: &[bool],
    n: u32,
    state: State,
) -> bool
    requires list { list.now ≡ kernel.now.state.delegations.list }
    ensures { result ≡ stirs kernel.now.state (is_in own.now) (is_in others.now) n state }
{
    is_of_neither(kernel, own, others, n) && !is_quiet(kernel, list, own, others, state)
}

fn is_some_held(list: &[Derivation], set: &[bool], sm: Option<u32>) -> bool
    ensures { result ≡ is_some_with (holds list.now (is_in set.now)) sm }
{
    match sm {
        Some(sm) => holds(list, set, sm),
        None => false,
    }
}

/// Whether one of a set waits at a semaphore that another set holds.
pub(crate) fn waits_at_theirs(
    kernel: &Kernel,
    list: &[Derivation],
    own: &[bool],
    others: &[bool],
    n: u32,
    state: State,
) -> bool
    requires list { list.now ≡ kernel.now.state.delegations.list }
    ensures { result ≡ waits_at_theirs kernel.now.state (is_in own.now) (is_in others.now) n state }
{
    is_member(kernel, own, n) && is_some_held(list, others, blocked_at(state))
}

fn is_at(sm: u32, other: Option<u32>) -> bool
    ensures { result ≡ is_some_with (λ (m : ℕ). m == sm) other }
{
    match other {
        Some(other) => other == sm,
        None => false,
    }
}

/// Whether an execution context is blocked at a semaphore.
fn is_blocked_at(kernel: &Kernel, sm: u32, n: u32) -> bool
    ensures { result ≡ is_blocked_at sm (context_at kernel.now.state n) }
{
    match kernel.ec(n) {
        Some(context) => is_at(sm, blocked_at(context.state)),
        None => false,
    }
}

fn queues_of(kernel: &Kernel, set: &[bool], sm: u32, m: u32, object: Object) -> bool
    ensures { result ≡ queues_of kernel.now.state (is_in set.now) sm (m, object) }
{
    is_of(set, object) && is_blocked_at(kernel, sm, m)
}

pub(crate) fn is_any_queued(kernel: &Kernel, set: &[bool], sm: u32) -> bool
    ensures { result ≡ list_any (queues_of kernel.now.state (is_in set.now) sm) (enumerate_from 0 kernel.now.state.objects) }
{
    for (i, object) in kernel.objects().iter().enumerate() {
        if queues_of(kernel, set, sm, i as u32, *object) {
            return true;
        }
    }
    false
}

fn is_queued_at(kernel: &Kernel, set: &[bool], sm: Option<u32>) -> bool
    ensures { result ≡ is_some_with (λ (sm : ℕ). list_any (queues_of kernel.now.state (is_in set.now) sm) (enumerate_from 0 kernel.now.state.objects)) sm }
{
    match sm {
        Some(sm) => is_any_queued(kernel, set, sm),
        None => false,
    }
}

/// Whether one of a set waits where one of another does.
pub(crate) fn waits_beside(
    kernel: &Kernel,
    own: &[bool],
    others: &[bool],
    n: u32,
    state: State,
) -> bool
    ensures { result ≡ waits_beside kernel.now.state (is_in own.now) (is_in others.now) n state }
{
    is_member(kernel, own, n) && is_queued_at(kernel, others, blocked_at(state))
}

fn queues_without(kernel: &Kernel, part: &[bool], sm: u32, m: u32, object: Object) -> bool
    ensures { result ≡ queues_without kernel.now.state (is_in part.now) sm (m, object) }
{
    match object {
        Object::Ec { .. } => !is_in(part, m) && is_blocked_at(kernel, sm, m),
        _ => false,
    }
}

fn is_any_without(kernel: &Kernel, part: &[bool], sm: u32) -> bool
    ensures { result ≡ list_any (queues_without kernel.now.state (is_in part.now) sm) (enumerate_from 0 kernel.now.state.objects) }
{
    for (i, object) in kernel.objects().iter().enumerate() {
        if queues_without(kernel, part, sm, i as u32, *object) {
            return true;
        }
    }
    false
}

/// Whether an object is of a part, and one that isn't waits at it.
pub(crate) fn is_awaited_without(kernel: &Kernel, part: &[bool], n: u32) -> bool
    ensures { result ≡ is_awaited_without kernel.now.state (is_in part.now) n }
{
    is_in(part, n) && is_any_without(kernel, part, n)
}
