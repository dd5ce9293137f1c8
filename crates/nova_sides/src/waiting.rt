ghost use Rattle.std.specs.Prelude.{◌≡◌, ◌++◌, ◌<◌, [], flat_map, if◌then◌else◌, option_to_list, OnOk, Some};
ghost use Rattle.std.specs.List.{enumerate_from};
ghost use Rattle.nova_model.specs.Edges.{edge_of};
ghost use Rattle.nova_model.specs.State.{context, context_at, context_in, is_local_thread};
ghost use Rattle.law_sides.specs.Isolated.{came_by_exit, is_exit_of, is_sending};
ghost use Rattle.law_sides.specs.Tied.{beside_at, beside_in, gives_of, is_blocked_at, queue_of, served, serves_of, strict, takes_by, takes_of, ties_at, weak};
ghost use Rattle.nova_sides.specs.Among.{is_among};

use crate::common::{domain_of, is_among, is_blocked_at, push, strict, weak};
use nova_kernel::{EcKind, Kernel, Mark, Object, State};
use nova_ties::{Cause, Tie};
use std::alloc::AllocError;

/// The handler that one waits for.
pub(crate) fn edge_of(state: State) -> Option<u32>
    ensures { result ≡ edge_of state }
{
    match state {
        State::Calling(handler) => Some(handler),
        State::Helping(handler) => Some(handler),
        State::Sending(_, _, _, handler) => Some(handler),
        _ => None,
    }
}

/// Whether an execution context is a local thread: a handler.
fn is_local_thread(kernel: &Kernel, ec: u32) -> bool
    ensures { result ≡ is_local_thread kernel.now.state ec }
{
    matches!(
        kernel.object(ec),
        Some(Object::Ec {
            kind: EcKind::Local,
            ..
        })
    )
}

fn is_sending(kernel: &Kernel, ec: u32) -> bool
    ensures { result ≡ is_sending (context kernel.now.state ec).state }
{
    match kernel.ec(ec) {
        Some(context) => matches!(context.state, State::Sending(..)),
        None => false,
    }
}

fn serves_exit(kernel: &Kernel, handler: u32, waiter: u32) -> bool
    ensures { result ≡ is_exit_of waiter (context kernel.now.state handler).caller }
{
    match kernel.ec(handler) {
        Some(context) => match context.caller {
            Some((caller, Mark::Exit)) => caller == waiter,
            _ => false,
        },
        None => false,
    }
}

/// Whether an execution context that waits for a handler came by an exit.
fn came_by_exit(kernel: &Kernel, waiter: u32, handler: u32) -> bool
    ensures { result ≡ came_by_exit kernel.now.state waiter handler }
{
    is_sending(kernel, waiter) || serves_exit(kernel, handler, waiter)
}

fn served(kernel: &Kernel, handler: u32, n: u32, pd: u32) -> Tie
    ensures { result ≡ served kernel.now.state handler n pd }
{
    Tie {
        from: domain_of(kernel, handler),
        to: pd,
        strict: is_local_thread(kernel, n) || came_by_exit(kernel, n, handler),
        cause: Cause::Serves(handler, n),
    }
}

fn serves_of(kernel: &Kernel, n: u32, pd: u32, state: State) -> Option<Tie>
    ensures { result ≡ serves_of kernel.now.state n pd state }
{
    let handler = edge_of(state)?;
    Some(served(kernel, handler, n, pd))
}

fn takes_by(kernel: &Kernel, n: u32, pd: u32, caller: Option<(u32, Mark)>) -> Option<Tie>
    ensures { result ≡ takes_by kernel.now.state n pd caller }
{
    let (caller, _) = caller?;
    let giver = domain_of(kernel, caller);
    Some(strict(pd, giver, Cause::Takes(n, caller)))
}

/// The domain of the caller whose items a handler takes.
fn takes_of(
    kernel: &Kernel,
    n: u32,
    pd: u32,
    state: State,
    caller: Option<(u32, Mark)>,
) -> Option<Tie>
    ensures { result ≡ takes_of kernel.now.state n pd state caller }
{
    match state {
        State::Granting(None) => takes_by(kernel, n, pd, caller),
        _ => None,
    }
}

fn gives_of(n: u32, pd: u32, state: State) -> Option<Tie>
    ensures { result ≡ gives_of n pd state }
{
    match state {
        State::Granting(new) => Some(strict(pd, new?, Cause::Gives(n))),
        _ => None,
    }
}

/// Another execution context that waits at a semaphore.
fn beside_at(kernel: &Kernel, sm: u32, n: u32, pd: u32, m: u32, other: u32) -> Option<Tie>
    ensures { result ≡ beside_at sm n pd m other (context_at kernel.now.state m) }
{
    let context = kernel.ec(m)?;
    if is_blocked_at(sm, context) {
        return Some(weak(pd, other, Cause::Queue(n, m)));
    }
    None
}

fn beside_in(kernel: &Kernel, sm: u32, n: u32, pd: u32, m: u32, object: Object) -> Option<Tie>
    ensures { result ≡ beside_in kernel.now.state sm n pd (m, object) }
{
    match object {
        Object::Ec { pd: other, .. } => beside_at(kernel, sm, n, pd, m, other),
        _ => None,
    }
}

fn push_beside(
    out: &mut Vec<Tie>,
    kernel: &Kernel,
    sm: u32,
    n: u32,
    pd: u32,
) -> Result<(), AllocError>
    ensures { OnOk result (out.new.items ≡ out.old.items ++ flat_map (λ e. option_to_list (beside_in kernel.now.state sm n pd e)) (enumerate_from 0 kernel.now.state.objects)) }
{
    for (i, object) in kernel.objects().iter().enumerate() {
        push(out, beside_in(kernel, sm, n, pd, i as u32, *object))?;
    }
    Ok(())
}

/// All that wait at a semaphore, unless it is shared.
fn push_unshared_queue(
    out: &mut Vec<Tie>,
    kernel: &Kernel,
    shared: &[u32],
    sm: u32,
    n: u32,
    pd: u32,
) -> Result<(), AllocError>
    ensures { OnOk result (out.new.items ≡ out.old.items ++ (if is_among shared.now sm then [] else flat_map (λ e. option_to_list (beside_in kernel.now.state sm n pd e)) (enumerate_from 0 kernel.now.state.objects))) }
{
    if is_among(shared, sm) {
        Ok(())
    } else {
        push_beside(out, kernel, sm, n, pd)
    }
}

/// All that wait where an execution context waits, if it waits at a semaphore.
fn push_queue(
    out: &mut Vec<Tie>,
    kernel: &Kernel,
    shared: &[u32],
    n: u32,
    pd: u32,
    state: State,
) -> Result<(), AllocError>
    ensures { OnOk result (out.new.items ≡ out.old.items ++ queue_of (is_among shared.now) kernel.now.state n pd state) }
{
    match state {
        State::Blocked(sm) => push_unshared_queue(out, kernel, shared, sm, n, pd),
        _ => Ok(()),
    }
}

fn push_at(
    out: &mut Vec<Tie>,
    kernel: &Kernel,
    shared: &[u32],
    n: u32,
    object: Object,
) -> Result<(), AllocError>
    ensures { OnOk result (out.new.items ≡ out.old.items ++ ties_at (is_among shared.now) kernel.now.state (n, object)) }
{
    let Object::Ec { pd, .. } = object else {
        return Ok(());
    };
    let Some(context) = kernel.ec(n) else {
        return Ok(());
    };
    push(out, serves_of(kernel, n, pd, context.state))?;
    push(out, takes_of(kernel, n, pd, context.state, context.caller))?;
    push(out, gives_of(n, pd, context.state))?;
    push_queue(out, kernel, shared, n, pd, context.state)
}

pub(crate) fn push_all_at(
    out: &mut Vec<Tie>,
    kernel: &Kernel,
    shared: &[u32],
) -> Result<(), AllocError>
    ensures { OnOk result (out.new.items ≡ out.old.items ++ flat_map (ties_at (is_among shared.now) kernel.now.state) (enumerate_from 0 kernel.now.state.objects)) }
{
    for (i, object) in kernel.objects().iter().enumerate() {
        push_at(out, kernel, shared, i as u32, *object)?;
    }
    Ok(())
}
