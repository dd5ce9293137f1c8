ghost use Rattle.std.specs.Prelude.{◌≡◌};
ghost use Rattle.nova_model.specs.State.{context_at};
ghost use Rattle.nova_asking.specs.Questions.{is_dead, is_left, is_other_dead, is_over, is_waiting, some_context, some_other_is_dead, waits};

use nova_kernel::{Kernel, State};

/// Whether `state` is that of waiting at a semaphore.
fn is_waiting(state: State) -> bool
    ensures { result ≡ is_waiting state }
{
    matches!(state, State::Blocked(_))
}

/// Whether `state` is that of being dead.
fn is_over(state: State) -> bool
    ensures { result ≡ is_over state }
{
    matches!(state, State::Dead)
}

/// Whether the execution context `ec` is there, and waits at a semaphore.
fn waits(kernel: &Kernel, ec: u32) -> bool
    ensures { result ≡ waits (context_at kernel.now.state ec) }
{
    match kernel.ec(ec) {
        Some(context) => is_waiting(context.state),
        None => false,
    }
}

/// Whether the execution context `ec` is there, and dead.
pub(crate) fn is_dead(kernel: &Kernel, ec: u32) -> bool
    ensures { result ≡ is_dead (context_at kernel.now.state ec) }
{
    match kernel.ec(ec) {
        Some(context) => is_over(context.state),
        None => false,
    }
}

/// Whether the execution context `ec` is there, and not dead.
pub(crate) fn is_left(kernel: &Kernel, ec: u32) -> bool
    ensures { result ≡ is_left (context_at kernel.now.state ec) }
{
    match kernel.ec(ec) {
        Some(context) => !is_over(context.state),
        None => false,
    }
}

/// Whether some execution context waits at a semaphore.
pub(crate) fn some_waits(kernel: &Kernel) -> bool
    ensures { result ≡ some_context waits kernel.now.state }
{
    for n in 0..kernel.objects().len() as u32 {
        if waits(kernel, n) {
            return true;
        }
    }
    false
}

/// Whether some execution context is dead.
pub(crate) fn some_is_dead(kernel: &Kernel) -> bool
    ensures { result ≡ some_context is_dead kernel.now.state }
{
    for n in 0..kernel.objects().len() as u32 {
        if is_dead(kernel, n) {
            return true;
        }
    }
    false
}

/// Whether the execution context `n` is dead, and not `ec`.
fn is_other_dead(kernel: &Kernel, ec: u32, n: u32) -> bool
    ensures { result ≡ is_other_dead ec kernel.now.state n }
{
    n != ec && is_dead(kernel, n)
}

/// Whether some execution context other than `ec` is dead.
pub(crate) fn some_other_is_dead(kernel: &Kernel, ec: u32) -> bool
    ensures { result ≡ some_other_is_dead ec kernel.now.state }
{
    for n in 0..kernel.objects().len() as u32 {
        if is_other_dead(kernel, ec, n) {
            return true;
        }
    }
    false
}
