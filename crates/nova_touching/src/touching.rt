ghost use Rattle.std.specs.Prelude.{◌≡◌, true, [], Some, IfOk, IsSome};
ghost use Rattle.std.specs.Bool.{OnTrue, OnFalse};
ghost use Rattle.nova_model.specs.Choice.{choose, in_front};
ghost use Rattle.nova_model.specs.Inputs.{in_ram};
ghost use Rattle.nova_model.specs.State.{context, context_at};
ghost use Rattle.nova_model.specs.Times.{until_due};
ghost use Rattle.nova_model.specs.declared.context.EcState.{EcState};
ghost use Rattle.law_isolation.specs.Sound.{IsSound};
ghost use Rattle.law_swaps.specs.Touches.{Executes};
ghost use Rattle.nova_touching.specs.Looking.{IsSight};
ghost use Rattle.nova_touching.specs.Marks.{nothing};
ghost use Rattle.nova_touching.specs.Touching.{ActsAtMost, IsDecided, TouchesAtMost, step_touch};
ghost use Rattle.nova_touching.specs.Whom.{AreListed, is_among};
ghost use Rattle.nova_touching.specs.declared.whom.Whom.TheVariants.{TheBlocked};

use crate::looking::{Sight, sight_of};
use crate::touch::Touch;
use crate::whom::{Whom, is_moving, whom_of};
use nova_kernel::{EcState, Kernel, State};
use std::alloc::{AllocError, Global};

/// The processor of the execution context `ec`, where it is among `whom`, and somebody is chosen there.
fn listed_at(kernel: &Kernel, whom: Whom, ec: u32) -> Option<u32>
    ensures { (x : EcState) → context_at kernel.now.state ec ≡ Some x → is_among whom x.state ≡ true → IsSome (choose kernel.now.state x.cpu) → result ≡ Some x.cpu }
{
    let context = kernel.ec(ec)?;
    if whom.has(context.state) && kernel.choose(context.cpu).is_some() {
        Some(context.cpu)
    } else {
        None
    }
}

/// The processors of all contexts that are among `whom`, where somebody is chosen there.
fn listed(alloc: Global, kernel: &Kernel, whom: Whom) -> Result<Vec<u64>, AllocError>
    requires sound { IsSound kernel.now.state }
    ensures { IfOk result (λ v. AreListed kernel.now.state whom v.items) }
{
    let mut processors = Vec::new(alloc);
    let count = kernel.objects().len();
    for ec in 0..count {
        if let Some(cpu) = listed_at(kernel, whom, ec as u32) {
            processors.push(u64::from(cpu))?;
        }
    }
    Ok(processors)
}

/// A list of the frames that there are of two.
fn frames(alloc: Global, first: Option<u64>, second: Option<u64>) -> Result<Vec<u64>, AllocError>
    ensures { IfOk result (λ v. v.items ≡ in_front first (in_front second [])) }
{
    let mut frames = Vec::new(alloc);
    if let Some(frame) = first {
        frames.push(frame)?;
    }
    if let Some(frame) = second {
        frames.push(frame)?;
    }
    Ok(frames)
}

/// The frame, where it is one of RAM.
fn in_ram(kernel: &Kernel, frame: u64) -> Option<u64>
    ensures { result ≡ in_ram kernel.now.state frame }
{
    if frame < u64::from(kernel.ram()) {
        Some(frame)
    } else {
        None
    }
}

/// What an instruction that goes on touches.
fn stepping(alloc: Global, kernel: &Kernel, sight: &Sight) -> Result<Touch, AllocError>
    ensures { IfOk result (λ t. t ≡ step_touch kernel.now.state sight.now) }
{
    let stored = match sight.stored {
        Some(frame) => in_ram(kernel, frame),
        None => None,
    };
    Ok(Touch {
        reads: frames(alloc, sight.fetched, sight.loaded)?,
        writes: frames(alloc, stored, None)?,
        meets: Vec::new(alloc),
        moves: false,
        is_plain: sight.stored.is_none() || stored.is_some(),
    })
}

/// What the next deed of an execution context touches that is no instruction that goes on, and reads these frames.
fn deciding(
    alloc: Global,
    kernel: &Kernel,
    context: &EcState,
    reads: Vec<u64>,
) -> Result<Touch, AllocError>
    requires sound { IsSound kernel.now.state }
    ensures { IfOk result (IsDecided kernel.now.state context.now reads.items) }
{
    let meets = listed(alloc, kernel, whom_of(context))?;
    Ok(Touch {
        reads,
        writes: Vec::new(alloc),
        meets,
        moves: is_moving(context.state),
        is_plain: false,
    })
}

/// Whether the next deed of an execution context is an instruction.
fn executes(context: &EcState) -> bool
    ensures yes { OnTrue result (Executes context.now) }
    ensures no { OnFalse result (Executes context.now → ⊥) }
{
    matches!(context.state, State::Ready) && !context.recall
}

/// What the deed of the execution context `ec` touches, which is about to execute an instruction.
#[tactic(auto, using(crate::proofs::Taking::steps_at_most))]
fn executing(
    alloc: Global,
    kernel: &Kernel,
    ec: u32,
    actor: &EcState,
    sight: &Sight,
) -> Result<Touch, AllocError>
    requires sound { IsSound kernel.now.state }
    requires there { actor.now ≡ context kernel.now.state ec }
    requires executes { Executes actor.now }
    requires sight { IsSight kernel.now.state ec sight.now }
    ensures { IfOk result (ActsAtMost kernel.now.state ec) }
{
    if sight.goes_on {
        return stepping(alloc, kernel, sight);
    }
    let reads = frames(alloc, sight.fetched, sight.loaded)?;
    deciding(alloc, kernel, actor, reads)
}

/// What the deed of the execution context `ec` touches, if it acts.
fn acting(alloc: Global, kernel: &Kernel, ec: u32) -> Result<Touch, AllocError>
    requires sound { IsSound kernel.now.state }
    ensures { IfOk result (ActsAtMost kernel.now.state ec) }
{
    let Some(context) = kernel.ec(ec) else {
        return Ok(Touch::nothing(alloc));
    };
    if !executes(context) {
        return deciding(alloc, kernel, context, Vec::new(alloc));
    }
    let sight = sight_of(kernel, ec, &context.regs);
    executing(alloc, kernel, ec, context, &sight)
}

/// What a turn touches in which an alarm rings, or a deadline ends: it wakes one that is blocked, or nobody.
fn waking(alloc: Global, kernel: &Kernel) -> Result<Touch, AllocError>
    requires sound { IsSound kernel.now.state }
    ensures { IfOk result (λ t. (t ≡ record nothing { meets = t.meets }) × AreListed kernel.now.state TheBlocked t.meets) }
{
    Ok(Touch {
        reads: Vec::new(alloc),
        writes: Vec::new(alloc),
        meets: listed(alloc, kernel, Whom::TheBlocked)?,
        moves: false,
        is_plain: false,
    })
}

/// Whether something is due on the processor `cpu`.
fn is_due(kernel: &Kernel, cpu: u32) -> bool
    ensures yes { OnTrue result (until_due kernel.now.state.times cpu ≡ Some 0) }
    ensures no { OnFalse result (until_due kernel.now.state.times cpu ≡ Some 0 → ⊥) }
{
    match kernel.until_due(cpu) {
        Some(left) => left == 0,
        None => false,
    }
}

/// What the next turn of the processor `cpu` touches. The frames are exact; whom it meets, and whether it moves memory, are told by the kind of its deed,
/// and may be more than what comes.
pub fn touch_of(alloc: Global, kernel: &Kernel, cpu: u32) -> Result<Touch, AllocError>
    ensures { IfOk result (TouchesAtMost kernel.now.state cpu) }
{
    law_swaps::instructions_read_their_frames();
    let actor = kernel.actor(cpu);
    if is_due(kernel, cpu) {
        return waking(alloc, kernel);
    }
    match actor {
        Some(ec) => acting(alloc, kernel, ec),
        None => Ok(Touch::nothing(alloc)),
    }
}
