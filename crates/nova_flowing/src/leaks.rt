// Which parts of the premises fail, of each capability, object and source.
ghost use Rattle.std.specs.Prelude.{◌≡◌, ◌&&◌, ◌||◌, ◌<◌, option_and_then, option_copied, slice_get};
ghost use Rattle.std.specs.List.{enumerate_from};
ghost use Rattle.nova_model.specs.State.{context_at};
ghost use Rattle.nova_objects.specs.ObjectTables.{is_domain};
ghost use Rattle.nova_kernel.specs.Begun.{sources_of};
ghost use Rattle.nova_flowing.specs.Leaks.{apart_at, apart_in, at_cap, at_context, at_source, awaited_at, divided_at, first_some, guarded_at, handler_of, is_semaphore, leak_at, leak_by, leak_of, queue_in, rest_in, side_at, side_in, when};
ghost use Rattle.nova_flowing.specs.Tests.{gives_without, is_foreign, waits_at_theirs, waits_from_without};
ghost use Rattle.nova_flowing.specs.Premises.{home_of, leak_of_premise, others_of, own_of, part_of};

use crate::capabilities::{
    holds, is_creator, is_derived, is_foreign, is_outside, is_shared, is_written,
};
use crate::contexts::{
    blocked_at, caller_of, edge_of, gives_without, is_awaited_without, is_without, stirs,
    waits_at_theirs, waits_beside, waits_from_without,
};
use crate::division::Division;
use crate::leak::{Field, Leak, Place, Premise};
use crate::tables::{is_in, is_member, is_of, is_own};
use nova_kernel::{Alarm, Derivation, EcState, Kernel, Object, State};

pub(crate) fn when(fails: bool, field: Field, place: Place) -> Option<Leak>
    ensures { result ≡ when fails field place }
{
    if fails {
        Some(Leak { field, place })
    } else {
        None
    }
}

pub(crate) fn at_cap(d: Derivation) -> Place
    ensures { result ≡ at_cap d }
{
    Place::Capability {
        cap: d.id,
        target: d.target,
    }
}

fn is_any_foreign(kernel: &Kernel, v: &Division, d: Derivation) -> bool
    ensures { result ≡ (is_foreign kernel.now.state (own_of v.now) d || is_foreign kernel.now.state (others_of v.now) d) }
{
    is_foreign(kernel, &v.own, d) || is_foreign(kernel, &v.others, d)
}

/// Which part of being apart fails of a capability.
fn apart_by(kernel: &Kernel, list: &[Derivation], v: &Division, d: Derivation) -> Option<Leak>
    requires list { list.now ≡ kernel.now.state.delegations.list }
    ensures { result ≡ leak_by kernel.now.state (own_of v.now) (others_of v.now) (part_of v.now) Premise.Apart d }
{
    let foreign = is_any_foreign(kernel, v, d);
    let shared = is_shared(list, &v.own, &v.others, d);
    when(foreign, Field::Capabilities, at_cap(d)).or(when(shared, Field::Objects, at_cap(d)))
}

/// Which part of being guarded fails of a capability.
fn guarded_by(kernel: &Kernel, list: &[Derivation], v: &Division, d: Derivation) -> Option<Leak>
    requires list { list.now ≡ kernel.now.state.delegations.list }
    ensures { result ≡ leak_by kernel.now.state (own_of v.now) (others_of v.now) (part_of v.now) Premise.Guarded d }
{
    let derived = is_derived(list, &v.own, &v.others, d);
    let written = is_written(list, &v.own, &v.others, d);
    when(derived, Field::Lines, at_cap(d)).or(when(written, Field::Memory, at_cap(d)))
}

/// Which part of a premise fails of a capability.
fn leak_by(
    kernel: &Kernel,
    list: &[Derivation],
    v: &Division,
    premise: Premise,
    d: Derivation,
) -> Option<Leak>
    requires list { list.now ≡ kernel.now.state.delegations.list }
    ensures { result ≡ leak_by kernel.now.state (own_of v.now) (others_of v.now) (part_of v.now) premise d }
{
    match premise {
        Premise::Apart => apart_by(kernel, list, v, d),
        Premise::Side => when(is_outside(&v.own, &v.part, d), Field::Holds, at_cap(d)),
        Premise::Guarded => guarded_by(kernel, list, v, d),
        Premise::Divided => when(is_creator(kernel, &v.others, d), Field::Creates, at_cap(d)),
    }
}

fn at_context(n: u32, context: &EcState) -> Place
    ensures { result ≡ at_context n context.now }
{
    Place::Context {
        ec: n,
        cpu: context.cpu,
    }
}

fn any_waits_from_without(kernel: &Kernel, v: &Division, n: u32, state: State) -> bool
    ensures { result ≡ (waits_from_without kernel.now.state (own_of v.now) n state || waits_from_without kernel.now.state (others_of v.now) n state) }
{
    waits_from_without(kernel, &v.own, n, state) || waits_from_without(kernel, &v.others, n, state)
}

fn any_gives_without(kernel: &Kernel, v: &Division, n: u32, state: State) -> bool
    ensures { result ≡ (gives_without kernel.now.state (own_of v.now) n state || gives_without kernel.now.state (others_of v.now) n state) }
{
    gives_without(kernel, &v.own, n, state) || gives_without(kernel, &v.others, n, state)
}

fn any_waits_at_theirs(
    kernel: &Kernel,
    list: &[Derivation],
    v: &Division,
    n: u32,
    state: State,
) -> bool
    requires list { list.now ≡ kernel.now.state.delegations.list }
    ensures { result ≡ (waits_at_theirs kernel.now.state (own_of v.now) (others_of v.now) n state || waits_at_theirs kernel.now.state (others_of v.now) (own_of v.now) n state) }
{
    let own = waits_at_theirs(kernel, list, &v.own, &v.others, n, state);
    let others = waits_at_theirs(kernel, list, &v.others, &v.own, n, state);
    own || others
}

fn queue_in(
    kernel: &Kernel,
    list: &[Derivation],
    v: &Division,
    n: u32,
    context: &EcState,
) -> Option<Leak>
    requires list { list.now ≡ kernel.now.state.delegations.list }
    ensures { result ≡ queue_in kernel.now.state (own_of v.now) (others_of v.now) n context.now }
{
    let waits = any_waits_at_theirs(kernel, list, v, n, context.state);
    let beside = waits_beside(kernel, &v.own, &v.others, n, context.state);
    let place = at_context(n, context);
    when(waits, Field::Waits, place).or(when(beside, Field::Queues, place))
}

fn rest_in(
    kernel: &Kernel,
    list: &[Derivation],
    v: &Division,
    n: u32,
    context: &EcState,
) -> Option<Leak>
    requires list { list.now ≡ kernel.now.state.delegations.list }
    ensures { result ≡ rest_in kernel.now.state (own_of v.now) (others_of v.now) n context.now }
{
    let rest = stirs(kernel, list, &v.own, &v.others, n, context.state);
    when(rest, Field::Rest, at_context(n, context)).or(queue_in(kernel, list, v, n, context))
}

/// Which part of being apart fails of an execution context.
fn apart_in(
    kernel: &Kernel,
    list: &[Derivation],
    v: &Division,
    n: u32,
    context: &EcState,
) -> Option<Leak>
    requires list { list.now ≡ kernel.now.state.delegations.list }
    ensures { result ≡ apart_in kernel.now.state (own_of v.now) (others_of v.now) n context.now }
{
    let waiter = any_waits_from_without(kernel, v, n, context.state);
    let gives = any_gives_without(kernel, v, n, context.state);
    let place = at_context(n, context);
    let rest = rest_in(kernel, list, v, n, context);
    when(waiter, Field::Waiters, place).or(when(gives, Field::Firsts, place).or(rest))
}

fn apart_of(kernel: &Kernel, list: &[Derivation], v: &Division, n: u32) -> Option<Leak>
    requires list { list.now ≡ kernel.now.state.delegations.list }
    ensures { result ≡ option_and_then (apart_in kernel.now.state (own_of v.now) (others_of v.now) n) (context_at kernel.now.state n) }
{
    match kernel.ec(n) {
        Some(context) => apart_in(kernel, list, v, n, context),
        None => None,
    }
}

/// Which part of being apart fails of an object.
fn apart_at(
    kernel: &Kernel,
    list: &[Derivation],
    v: &Division,
    n: u32,
    object: Object,
) -> Option<Leak>
    requires list { list.now ≡ kernel.now.state.delegations.list }
    ensures { result ≡ apart_at kernel.now.state (own_of v.now) (others_of v.now) n object }
{
    let place = Place::Object { object: n };
    let own = is_in(&v.own, n);
    let others = is_in(&v.others, n);
    let astray = (own || others) && !is_pd(object);
    when(astray, Field::There, place).or(when(own && others, Field::Disjoint, place).or(apart_of(
        kernel, list, v, n,
    )))
}

fn is_pd(object: Object) -> bool
    ensures { result ≡ is_domain (Some object) }
{
    matches!(object, Object::Pd)
}

/// Which part of being a side fails of an execution context.
fn side_in(v: &Division, n: u32, context: &EcState) -> Option<Leak>
    ensures { result ≡ side_in (part_of v.now) n context.now }
{
    let place = at_context(n, context);
    let is_part = is_in(&v.part, n);
    let edge = is_part && is_without(&v.part, edge_of(context.state));
    let caller = is_part && is_without(&v.part, caller_of(context.caller));
    let blocked = is_part && is_without(&v.part, blocked_at(context.state));
    when(edge, Field::Edges, place).or(when(caller, Field::Callers, place).or(when(
        blocked,
        Field::Blocked,
        place,
    )))
}

fn side_of(kernel: &Kernel, v: &Division, n: u32) -> Option<Leak>
    ensures { result ≡ option_and_then (side_in (part_of v.now) n) (context_at kernel.now.state n) }
{
    match kernel.ec(n) {
        Some(context) => side_in(v, n, context),
        None => None,
    }
}

fn handler_of(object: Object) -> Option<u32>
    ensures { result ≡ handler_of object }
{
    match object {
        Object::Pt { ec, .. } => Some(ec),
        _ => None,
    }
}

fn awaited_at(kernel: &Kernel, v: &Division, n: u32) -> Option<Leak>
    ensures { result ≡ awaited_at kernel.now.state (part_of v.now) n }
{
    let awaited = is_awaited_without(kernel, &v.part, n);
    when(awaited, Field::Queued, Place::Object { object: n }).or(side_of(kernel, v, n))
}

/// Which part of being a side fails of an object.
fn side_at(kernel: &Kernel, v: &Division, n: u32, object: Object) -> Option<Leak>
    ensures { result ≡ side_at kernel.now.state (own_of v.now) (part_of v.now) n object }
{
    let place = Place::Object { object: n };
    let is_part = is_in(&v.part, n);
    let handler = is_part && is_without(&v.part, handler_of(object));
    let member = is_of(&v.own, object) && !is_part;
    let rest = awaited_at(kernel, v, n);
    when(handler, Field::Handlers, place).or(when(member, Field::Members, place).or(rest))
}

fn is_semaphore(object: Object) -> bool
    ensures { result ≡ is_semaphore object }
{
    matches!(object, Object::Sm)
}

/// Which part of being guarded fails of an object.
fn guarded_at(
    kernel: &Kernel,
    list: &[Derivation],
    v: &Division,
    n: u32,
    object: Object,
) -> Option<Leak>
    requires list { list.now ≡ kernel.now.state.delegations.list }
    ensures { result ≡ guarded_at kernel.now.state (own_of v.now) (others_of v.now) (part_of v.now) n object }
{
    let place = Place::Object { object: n };
    let is_part = is_in(&v.part, n);
    let astray = is_part && !is_own(kernel, &v.own, n, object);
    let held = is_part && is_semaphore(object) && holds(list, &v.others, n);
    when(astray, Field::Owned, place).or(when(held, Field::Semaphores, place))
}

/// Which part of a division of processors fails of an object.
fn divided_at(kernel: &Kernel, v: &Division, n: u32, object: Object) -> Option<Leak>
    ensures { result ≡ divided_at kernel.now.state (own_of v.now) (others_of v.now) (part_of v.now) (home_of v.now) n object }
{
    match object {
        Object::Ec { pd, cpu, .. } => {
            let place = Place::Context { ec: n, cpu };
            let away = is_in(&v.own, pd) && !is_in(&v.home, cpu);
            let strange = is_in(&v.others, pd) && is_in(&v.home, cpu);
            when(away, Field::Contexts, place).or(when(strange, Field::Others, place))
        }
        Object::Sc { ec, .. } => {
            let bound = is_member(kernel, &v.own, ec) && !is_in(&v.part, n);
            when(bound, Field::Schedules, Place::Object { object: n })
        }
        _ => None,
    }
}

/// Which part of a premise fails of an object.
fn leak_at(
    kernel: &Kernel,
    list: &[Derivation],
    v: &Division,
    premise: Premise,
    n: u32,
    object: Object,
) -> Option<Leak>
    requires list { list.now ≡ kernel.now.state.delegations.list }
    ensures { result ≡ leak_at kernel.now.state (own_of v.now) (others_of v.now) (part_of v.now) (home_of v.now) premise (n, object) }
{
    match premise {
        Premise::Apart => apart_at(kernel, list, v, n, object),
        Premise::Side => side_at(kernel, v, n, object),
        Premise::Guarded => guarded_at(kernel, list, v, n, object),
        Premise::Divided => divided_at(kernel, v, n, object),
    }
}

/// Which part of a premise fails of a source.
fn leak_of(v: &Division, premise: Premise, n: u64, source: Alarm) -> Option<Leak>
    ensures { result ≡ leak_of (part_of v.now) (home_of v.now) premise (n, source) }
{
    match premise {
        Premise::Divided => {
            let place = Place::Source {
                source: n,
                cpu: source.cpu,
                sm: source.sm,
            };
            let home = is_in(&v.home, source.cpu);
            let part = is_in(&v.part, source.sm);
            when(part && !home, Field::Rings, place)
        }
        _ => None,
    }
}

fn first_by(kernel: &Kernel, list: &[Derivation], v: &Division, premise: Premise) -> Option<Leak>
    requires list { list.now ≡ kernel.now.state.delegations.list }
    ensures { result ≡ first_some (leak_by kernel.now.state (own_of v.now) (others_of v.now) (part_of v.now) premise) kernel.now.state.delegations.list }
{
    for d in list {
        let leak = leak_by(kernel, list, v, premise, *d);
        if leak.is_some() {
            return leak;
        }
    }
    None
}

fn first_at(kernel: &Kernel, list: &[Derivation], v: &Division, premise: Premise) -> Option<Leak>
    requires list { list.now ≡ kernel.now.state.delegations.list }
    ensures { result ≡ first_some (leak_at kernel.now.state (own_of v.now) (others_of v.now) (part_of v.now) (home_of v.now) premise) (enumerate_from 0 kernel.now.state.objects) }
{
    for (i, object) in kernel.objects().iter().enumerate() {
        let leak = leak_at(kernel, list, v, premise, i as u32, *object);
        if leak.is_some() {
            return leak;
        }
    }
    None
}

fn first_of(kernel: &Kernel, v: &Division, premise: Premise) -> Option<Leak>
    ensures { result ≡ first_some (leak_of (part_of v.now) (home_of v.now) premise) (enumerate_from 0 (sources_of kernel.now.state)) }
{
    for (i, source) in kernel.sources().iter().enumerate() {
        let leak = leak_of(v, premise, i as u64, *source);
        if leak.is_some() {
            return leak;
        }
    }
    None
}

/// The first part of a premise that fails: of capabilities, then of objects, then of sources.
pub(crate) fn leak_in(
    kernel: &Kernel,
    list: &[Derivation],
    v: &Division,
    premise: Premise,
) -> Option<Leak>
    requires list { list.now ≡ kernel.now.state.delegations.list }
    ensures { result ≡ leak_of_premise kernel.now.state v.now premise }
{
    first_by(kernel, list, v, premise).or(first_at(kernel, list, v, premise).or(first_of(
        kernel, v, premise,
    )))
}
