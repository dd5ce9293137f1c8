ghost use Rattle.std.specs.Prelude.{◌≡◌, ◌<◌, ◌^◌, ℕ, false, IfOk};
ghost use Rattle.nova_model.specs.Deeds.{deed};
ghost use Rattle.nova_model.specs.Turn.{answer_of, turn};
ghost use Rattle.law_alike.specs.Alike.{TellsNoTicks, may_tell_ticks, tells_ticks};

use crate::spares::copied;
use crate::vertex::let_go;
use nova_calls::numbers::SC_CTRL;
use nova_kernel::{EventKind, Kernel, Turn};
use std::alloc::{AllocError, Global};

/// How many turns a kernel takes at most.
const MOST: u64 = 1 << 31;

/// Whether the execution context of number `ec` may be about to ask for ticks: x17 has the number of the hypercall that tells them.
#[tactic(auto, using(crate::proofs::Telling::asks_not, crate::proofs::Telling::nobody_asks))]
fn may_ask(kernel: &Kernel, ec: u32) -> bool
    ensures { result ≡ false → tells_ticks (deed kernel.now.state ec) ≡ false }
{
    law_alike::ticks_are_told_by_one_call();
    match kernel.ec(ec) {
        None => false,
        Some(context) => context.regs.get(17) == SC_CTRL,
    }
}

/// Whether a turn of this answer may have told ticks.
fn may_have_told(answer: Turn) -> bool
    ensures { result ≡ may_tell_ticks answer }
{
    match answer {
        Turn::Stepped(event) => matches!(event.kind, EventKind::Answer) && event.a == SC_CTRL,
        Turn::Idle => false,
    }
}

/// The answer of a turn, for which there is room.
fn answered(kernel: &mut Kernel, cpu: u32) -> Result<Turn, AllocError>
    requires cpu { cpu < kernel.old.state.cpus }
    requires turns { kernel.old.state.turns < 2 ^ 31 }
    ensures { IfOk result (λ answer. answer ≡ answer_of (turn kernel.old.state cpu)) }
{
    kernel.reserve_log(1)?;
    kernel.turn(cpu)
}

/// The answer of a turn, which is taken on a copy.
fn answer_on_copy(alloc: Global, kernel: &Kernel, cpu: u32) -> Result<Turn, AllocError>
    requires cpu { cpu < kernel.now.state.cpus }
    requires turns { kernel.now.state.turns < 2 ^ 31 }
    ensures { IfOk result (λ answer. answer ≡ answer_of (turn kernel.now.state cpu)) }
{
    let mut copy = copied(alloc, kernel)?;
    let answer = answered(&mut copy, cpu);
    let_go(copy);
    answer
}

/// Whether the next turn of the processor `cpu` may tell ticks. It may where it can't be taken on a copy.
fn turn_may_tell(alloc: Global, kernel: &Kernel, cpu: u32) -> bool
    requires { cpu < kernel.now.state.cpus }
    ensures { result ≡ false → TellsNoTicks kernel.now.state cpu }
{
    law_alike::ticks_are_told_by_one_call();
    if kernel.turns() >= MOST {
        return true;
    }
    match answer_on_copy(alloc, kernel, cpu) {
        Err(_) => true,
        Ok(answer) => may_have_told(answer),
    }
}

/// Whether the next turn of the processor `cpu` may tell ticks. Only of a context that may ask for them it is taken, on a copy.
#[tactic(auto, using(crate::proofs::Telling::nobody_tells, crate::proofs::Telling::actor_tells_none))]
fn tells_ticks_on(alloc: Global, kernel: &Kernel, cpu: u32) -> bool
    requires { cpu < kernel.now.state.cpus }
    ensures { result ≡ false → TellsNoTicks kernel.now.state cpu }
{
    let Some(ec) = kernel.actor(cpu) else {
        return false;
    };
    if !may_ask(kernel, ec) {
        return false;
    }
    turn_may_tell(alloc, kernel, cpu)
}

/// Whether the next turn of a processor may tell ticks.
pub(crate) fn tells_ticks(alloc: Global, kernel: &Kernel) -> bool
    ensures { result ≡ false → (cpu : ℕ) → cpu < kernel.now.state.cpus → TellsNoTicks kernel.now.state cpu }
{
    for cpu in 0..kernel.cpus() {
        if tells_ticks_on(alloc, kernel, cpu) {
            return true;
        }
    }
    false
}
