ghost use Rattle.std.specs.Prelude.{◌≡◌, ◌≢◌, ◌&&◌, ℕ, Some, slice_get};
ghost use Rattle.std.specs.List.{enumerate_from, list_all};
ghost use Rattle.nova_model.specs.Edges.{edge_of};
ghost use Rattle.nova_objects.specs.declared.object.Object.TheVariants.{Pd};
ghost use Rattle.nova_model.specs.State.{KernelState, context_at};
ghost use Rattle.nova_ties.specs.Ties.{label_in};
ghost use Rattle.law_turns.specs.Giving.{gives_no_first};
ghost use Rattle.law_sides.specs.Resting.{is_resting};
ghost use Rattle.law_sides.specs.Roles.{AreHarmless, controls_alone, is_at_rest, is_bare, is_bare_by, is_bare_in, is_controlled, is_domain, is_held, is_if_there, is_mute, is_mute_by, is_mute_in, is_no_grant, is_none_or, is_other, is_powerless, is_reached_by, is_side, is_uncalled, rests_by, rests_in, target_domain, waits_for_none, waits_within, waits_without};
ghost use Rattle.nova_sides.specs.Works.{role_of};

use crate::common::{domain_of, is_object};
use crate::resting::rests_beside_others;
use crate::waiting::edge_of;
use bitflags::Flags;
use nova_kernel::{Derivation, EcState, Kernel, Mark, Object, Rights, State};
use nova_ties::label_of;

/// What a trusted domain is.
#[derive(Clone, Copy, Debug, PartialEq, Eq)]
pub enum Role {
    /// No capability of a side leads there, and each of its execution contexts is parked or dead, or waits for good.
    Rests,

    /// It holds memory alone, and all that sides hold of it are portals for exits: where no trusted domain is at work, it is careful whatever its program
    /// does.
    Bare,

    /// It holds nothing of another domain's but memory and semaphores, and of a side's what it controls at most, and no side holds anything of its:
    /// where no trusted domain is at work, it is careful whatever its program does.
    Mute,

    /// It is careful if its program is.
    Works,
}

/// The domain whose the object is to which the capability `d` leads.
fn target_domain(kernel: &Kernel, d: Derivation) -> Option<u32>
    ensures { result ≡ target_domain kernel.now.state d }
{
    match kernel.object(d.target)? {
        Object::Pd => Some(d.target),
        Object::Ec { pd, .. } => Some(*pd),
        Object::Sc { ec, .. } | Object::Pt { ec, .. } => Some(domain_of(kernel, *ec)),
        Object::Sm => None,
    }
}

fn is_domain(n: u32, domain: Option<u32>) -> bool
    ensures { result ≡ is_domain n domain }
{
    match domain {
        Some(other) => other == n,
        None => false,
    }
}

fn is_none_or(n: u32, domain: Option<u32>) -> bool
    ensures { result ≡ is_none_or n domain }
{
    match domain {
        Some(other) => other == n,
        None => true,
    }
}

/// Whether `d` is a capability of the domain `n`, to an object.
fn is_held(n: u32, d: Derivation) -> bool
    ensures { result ≡ is_held n d }
{
    is_object(d.kind) && d.pd == n
}

/// Whether `d` is a capability of a side, to what is of the domain `n`.
fn is_reached_by(kernel: &Kernel, labels: &[u32], n: u32, d: Derivation) -> bool
    ensures { result ≡ is_reached_by kernel.now.state (label_in labels.now) n d }
{
    is_object(d.kind) && label_of(labels, d.pd) != 0 && is_domain(n, target_domain(kernel, d))
}

/// Whether the capability `d` neither makes anything, nor sends items.
fn is_powerless(kernel: &Kernel, d: Derivation) -> bool
    ensures { result ≡ is_powerless d.rights (slice_get kernel.now.state.objects d.target) }
{
    match kernel.object(d.target) {
        Some(Object::Pd) => !d.rights.contains(Rights::CREATE),
        Some(Object::Ec { .. }) => !d.rights.contains(Rights::BIND_PT),
        Some(Object::Pt { .. }) => !d.rights.contains(Rights::CALL),
        _ => true,
    }
}

fn rests_by(kernel: &Kernel, labels: &[u32], n: u32, d: Derivation) -> bool
    ensures { result ≡ rests_by kernel.now.state (label_in labels.now) n d }
{
    !is_reached_by(kernel, labels, n, d)
}

fn is_bare_by(kernel: &Kernel, labels: &[u32], n: u32, d: Derivation) -> bool
    ensures { result ≡ is_bare_by kernel.now.state (label_in labels.now) n d }
{
    !is_held(n, d) && (!is_reached_by(kernel, labels, n, d) || is_powerless(kernel, d))
}

/// Whether the capability `d` allows to control its object, and no more.
fn controls_alone(kernel: &Kernel, d: Derivation) -> bool
    ensures { result ≡ controls_alone d.rights (slice_get kernel.now.state.objects d.target) }
{
    match kernel.object(d.target) {
        Some(Object::Pd) => !d.rights.contains(Rights::CREATE),
        Some(Object::Ec { .. }) => {
            !d.rights.contains(Rights::BIND_PT) && !d.rights.contains(Rights::BIND_SC)
        }
        Some(Object::Pt { .. }) => {
            !d.rights.contains(Rights::CALL) && !d.rights.contains(Rights::EVENT)
        }
        _ => true,
    }
}

fn is_side(labels: &[u32], domain: Option<u32>) -> bool
    ensures { result ≡ is_side (label_in labels.now) domain }
{
    match domain {
        Some(n) => label_of(labels, n) != 0,
        None => false,
    }
}

/// Whether the capability `d` leads to a side's object, and allows to control it at most.
fn is_controlled(kernel: &Kernel, labels: &[u32], d: Derivation) -> bool
    ensures { result ≡ is_controlled kernel.now.state (label_in labels.now) d }
{
    is_side(labels, target_domain(kernel, d)) && controls_alone(kernel, d)
}

fn is_mute_by(kernel: &Kernel, labels: &[u32], n: u32, d: Derivation) -> bool
    ensures { result ≡ is_mute_by kernel.now.state (label_in labels.now) n d }
{
    !is_reached_by(kernel, labels, n, d)
        && (!is_held(n, d)
            || is_none_or(n, target_domain(kernel, d))
            || is_controlled(kernel, labels, d))
}

fn rests_by_all(kernel: &Kernel, labels: &[u32], list: &[Derivation], n: u32) -> bool
    ensures { result ≡ list_all (rests_by kernel.now.state (label_in labels.now) n) list.now }
{
    list.iter().all(|&d| rests_by(kernel, labels, n, d))
}

fn is_bare_by_all(kernel: &Kernel, labels: &[u32], list: &[Derivation], n: u32) -> bool
    ensures { result ≡ list_all (is_bare_by kernel.now.state (label_in labels.now) n) list.now }
{
    list.iter().all(|&d| is_bare_by(kernel, labels, n, d))
}

fn is_mute_by_all(kernel: &Kernel, labels: &[u32], list: &[Derivation], n: u32) -> bool
    ensures { result ≡ list_all (is_mute_by kernel.now.state (label_in labels.now) n) list.now }
{
    list.iter().all(|&d| is_mute_by(kernel, labels, n, d))
}

// WHAT EXECUTION CONTEXTS DO

fn is_no_grant(state: State) -> bool
    ensures { result ≡ is_no_grant state }
{
    !matches!(state, State::Granting(_))
}

fn gives_no_first(state: State) -> bool
    ensures { result ≡ gives_no_first state }
{
    !matches!(state, State::Granting(Some(_)))
}

fn is_uncalled(caller: Option<(u32, Mark)>) -> bool
    ensures { result ≡ is_uncalled caller }
{
    !matches!(caller, Some((_, Mark::Call)))
}

fn waits_for_none(handler: Option<u32>) -> bool
    ensures { result ≡ waits_for_none handler }
{
    handler.is_none()
}

fn waits_within(kernel: &Kernel, n: u32, handler: Option<u32>) -> bool
    ensures { result ≡ waits_within kernel.now.state n handler }
{
    match handler {
        Some(handler) => domain_of(kernel, handler) == n,
        None => true,
    }
}

fn waits_without(kernel: &Kernel, n: u32, handler: Option<u32>) -> bool
    ensures { result ≡ waits_without kernel.now.state n handler }
{
    match handler {
        Some(handler) => domain_of(kernel, handler) != n,
        None => true,
    }
}

fn is_bare_context(context: &EcState) -> bool
    ensures { result ≡ (waits_for_none (edge_of context.now.state) && (is_no_grant context.now.state && is_uncalled context.now.caller)) }
{
    waits_for_none(edge_of(context.state))
        && is_no_grant(context.state)
        && is_uncalled(context.caller)
}

fn is_mute_context(kernel: &Kernel, n: u32, context: &EcState) -> bool
    ensures { result ≡ (waits_within kernel.now.state n (edge_of context.now.state) && gives_no_first context.now.state) }
{
    waits_within(kernel, n, edge_of(context.state)) && gives_no_first(context.state)
}

fn rests_at(kernel: &Kernel, list: &[Derivation], n: u32, m: u32) -> bool
    requires list { list.now ≡ kernel.now.state.delegations.list }
    ensures { result ≡ is_if_there (is_resting kernel.now.state (is_other n)) (context_at kernel.now.state m) }
{
    match kernel.ec(m) {
        Some(context) => rests_beside_others(kernel, list, n, context),
        None => true,
    }
}

fn is_bare_at(kernel: &Kernel, m: u32) -> bool
    ensures { result ≡ is_if_there (λ x. waits_for_none (edge_of x.state) && (is_no_grant x.state && is_uncalled x.caller)) (context_at kernel.now.state m) }
{
    match kernel.ec(m) {
        Some(context) => is_bare_context(context),
        None => true,
    }
}

fn is_mute_at(kernel: &Kernel, n: u32, m: u32) -> bool
    ensures { result ≡ is_if_there (λ x. waits_within kernel.now.state n (edge_of x.state) && gives_no_first x.state) (context_at kernel.now.state m) }
{
    match kernel.ec(m) {
        Some(context) => is_mute_context(kernel, n, context),
        None => true,
    }
}

fn is_without_at(kernel: &Kernel, n: u32, m: u32) -> bool
    ensures { result ≡ is_if_there (λ x. waits_without kernel.now.state n (edge_of x.state)) (context_at kernel.now.state m) }
{
    match kernel.ec(m) {
        Some(context) => waits_without(kernel, n, edge_of(context.state)),
        None => true,
    }
}

fn rests_in(kernel: &Kernel, list: &[Derivation], n: u32, m: u32, object: Object) -> bool
    requires list { list.now ≡ kernel.now.state.delegations.list }
    ensures { result ≡ rests_in kernel.now.state n (m, object) }
{
    match object {
        Object::Ec { pd, .. } => pd != n || rests_at(kernel, list, n, m),
        _ => true,
    }
}

fn is_bare_in(kernel: &Kernel, n: u32, m: u32, object: Object) -> bool
    ensures { result ≡ is_bare_in kernel.now.state n (m, object) }
{
    match object {
        Object::Ec { pd, .. } => pd != n || is_bare_at(kernel, m),
        _ => true,
    }
}

fn is_mute_in(kernel: &Kernel, labels: &[u32], n: u32, m: u32, object: Object) -> bool
    ensures { result ≡ is_mute_in kernel.now.state (label_in labels.now) n (m, object) }
{
    match object {
        Object::Ec { pd, .. } => {
            (pd != n || is_mute_at(kernel, n, m))
                && (label_of(labels, pd) == 0 || is_without_at(kernel, n, m))
        }
        _ => true,
    }
}

fn rests_in_all(kernel: &Kernel, list: &[Derivation], n: u32) -> bool
    requires list { list.now ≡ kernel.now.state.delegations.list }
    ensures { result ≡ list_all (rests_in kernel.now.state n) (enumerate_from 0 kernel.now.state.objects) }
{
    for (i, object) in kernel.objects().iter().enumerate() {
        if !rests_in(kernel, list, n, i as u32, *object) {
            return false;
        }
    }
    true
}

fn is_bare_in_all(kernel: &Kernel, n: u32) -> bool
    ensures { result ≡ list_all (is_bare_in kernel.now.state n) (enumerate_from 0 kernel.now.state.objects) }
{
    for (i, object) in kernel.objects().iter().enumerate() {
        if !is_bare_in(kernel, n, i as u32, *object) {
            return false;
        }
    }
    true
}

fn is_mute_in_all(kernel: &Kernel, labels: &[u32], n: u32) -> bool
    ensures { result ≡ list_all (is_mute_in kernel.now.state (label_in labels.now) n) (enumerate_from 0 kernel.now.state.objects) }
{
    for (i, object) in kernel.objects().iter().enumerate() {
        if !is_mute_in(kernel, labels, n, i as u32, *object) {
            return false;
        }
    }
    true
}

// ROLES

fn is_at_rest(kernel: &Kernel, labels: &[u32], list: &[Derivation], n: u32) -> bool
    requires list { list.now ≡ kernel.now.state.delegations.list }
    ensures { result ≡ is_at_rest kernel.now.state (label_in labels.now) n }
{
    rests_by_all(kernel, labels, list, n) && rests_in_all(kernel, list, n)
}

fn is_bare(kernel: &Kernel, labels: &[u32], list: &[Derivation], n: u32) -> bool
    requires list { list.now ≡ kernel.now.state.delegations.list }
    ensures { result ≡ is_bare kernel.now.state (label_in labels.now) n }
{
    is_bare_by_all(kernel, labels, list, n) && is_bare_in_all(kernel, n)
}

fn is_mute(kernel: &Kernel, labels: &[u32], list: &[Derivation], n: u32) -> bool
    requires list { list.now ≡ kernel.now.state.delegations.list }
    ensures { result ≡ is_mute kernel.now.state (label_in labels.now) n }
{
    is_mute_by_all(kernel, labels, list, n) && is_mute_in_all(kernel, labels, n)
}

/// What the trusted domain `n` is in the present state of `kernel`, whose derivations are `list`: at rest, bare or mute, by the sides of `labels`; or
/// else at work.
pub fn role_of(kernel: &Kernel, labels: &[u32], list: &[Derivation], n: u32) -> Role
    requires list { list.now ≡ kernel.now.state.delegations.list }
    ensures { result ≡ role_of kernel.now.state (label_in labels.now) n }
{
    if is_at_rest(kernel, labels, list, n) {
        Role::Rests
    } else if is_bare(kernel, labels, list, n) {
        Role::Bare
    } else if is_mute(kernel, labels, list, n) {
        Role::Mute
    } else {
        Role::Works
    }
}

/// Where no trusted domain is at work, and what has a side is a domain, `bare_and_mute_domains_are_careful` says that all that is trusted is careful for
/// good.
pub fn what_is_not_at_work_is_harmless()
    ensures { (k : KernelState) (label : ℕ → ℕ) → ((n : ℕ) → label n ≢ 0 → slice_get k.objects n ≡ Some Pd)
        → ((n : ℕ) → label n ≡ 0 → slice_get k.objects n ≡ Some Pd → role_of k label n ≢ Role.Works) → AreHarmless k label }
{}
