ghost use Rattle.std.specs.Prelude.{◌≡◌, is_some};
ghost use Rattle.nova_choice.specs.Schedules.{is_ready};
ghost use Rattle.nova_deeds.specs.Acts.{is_executing};
ghost use Rattle.nova_model.specs.Times.{due_on};
ghost use Rattle.nova_asking.specs.Locations.{another_is_at, is_at, is_going, is_in, is_there, next_actor, some_is_at, two_are_at};

use crate::question::Location;
use nova_kernel::{EcState, Kernel, Object, State};

/// Whether a state is that of executing instructions.
fn is_ready(state: State) -> bool
    ensures { result ≡ is_ready state }
{
    matches!(state, State::Ready)
}

/// Whether an execution context is about to execute an instruction.
pub(crate) fn is_executing(context: &EcState) -> bool
    ensures { result ≡ is_executing context.now }
{
    is_ready(context.state) && !context.recall
}

/// Whether an execution context is about to execute the instruction at an address.
fn is_going(context: &EcState, address: u32) -> bool
    ensures { result ≡ is_going context.now address }
{
    is_executing(context) && context.regs.pc() == address
}

/// Whether an execution context is of a protection domain.
fn is_in(kernel: &Kernel, ec: u32, pd: u32) -> bool
    ensures { result ≡ is_in kernel.now.state ec pd }
{
    match kernel.object(ec) {
        Some(Object::Ec { pd: its_pd, .. }) => *its_pd == pd,
        _ => false,
    }
}

/// Whether the execution context of a number is about to execute the instruction at a location.
fn is_there(kernel: &Kernel, ec: u32, location: Location) -> bool
    ensures { result ≡ is_there kernel.now.state location ec }
{
    match kernel.ec(ec) {
        Some(context) => is_going(context, location.address) && is_in(kernel, ec, location.pd),
        None => false,
    }
}

/// Whether something is due on a processor.
#[tactic(auto, using(crate::proofs::Due::due_when, crate::proofs::Due::never_due))]
fn is_due(kernel: &Kernel, cpu: u32) -> bool
    ensures { result ≡ is_some (due_on kernel.now.state.times cpu) }
{
    match kernel.until_due(cpu) {
        Some(left) => left == 0,
        None => false,
    }
}

/// The execution context that acts in a processor's next turn; none where it is idle, or something is due first.
#[tactic(auto, using(crate::proofs::Due::nobody_where_due, crate::proofs::Due::chosen_where_not))]
pub(crate) fn next_actor(kernel: &Kernel, cpu: u32) -> Option<u32>
    ensures { result ≡ next_actor kernel.now.state cpu }
{
    if is_due(kernel, cpu) {
        return None;
    }
    kernel.actor(cpu)
}

/// Whether a processor is about to execute the instruction at a location.
fn is_at(kernel: &Kernel, cpu: u32, location: Location) -> bool
    ensures { result ≡ is_at kernel.now.state location cpu }
{
    match next_actor(kernel, cpu) {
        Some(ec) => is_there(kernel, ec, location),
        None => false,
    }
}

/// Whether some processor is about to execute the instruction at a location.
pub(crate) fn some_is_at(kernel: &Kernel, location: Location) -> bool
    ensures { result ≡ some_is_at kernel.now.state location }
{
    for cpu in 0..kernel.cpus() {
        if is_at(kernel, cpu, location) {
            return true;
        }
    }
    false
}

/// Whether a processor but one is about to execute the instruction at a location.
fn another_is_at(kernel: &Kernel, cpu: u32, location: Location) -> bool
    ensures { result ≡ another_is_at kernel.now.state location cpu }
{
    for other in 0..kernel.cpus() {
        if other != cpu && is_at(kernel, other, location) {
            return true;
        }
    }
    false
}

/// Whether a processor is about to execute the instruction at a location, and another one that at a second location.
pub(crate) fn two_are_at(kernel: &Kernel, first: Location, second: Location) -> bool
    ensures { result ≡ two_are_at kernel.now.state first second }
{
    for cpu in 0..kernel.cpus() {
        if is_at(kernel, cpu, first) && another_is_at(kernel, cpu, second) {
            return true;
        }
    }
    false
}
