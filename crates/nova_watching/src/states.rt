ghost use Rattle.std.specs.Prelude.{◌≡◌, ◌&&◌, ◌+◌, ◌<◌, ◌≤◌, ◌^◌, ◌∷◌, [], IfOk, IsTrue, OnOk, replicate};
ghost use Rattle.nova_order.specs.Blocks.{is_within, total, turns};
ghost use Rattle.nova_model.specs.Runs.{after};
ghost use Rattle.nova_report.specs.Report.{is_silent};
ghost use Rattle.nova_watching.specs.Watched.{IsKnown, IsWatched, is_plain};

use crate::telling::told_from;
use nova_judging::Told;
use nova_kernel::{EventKind, Kernel, Turn};
use nova_naming::Policy;
use nova_order::{Block, Order};
use std::alloc::{AllocError, Global};

fn is_plain_kind(kind: EventKind) -> bool
    ensures { result ≡ is_silent kind }
{
    matches!(kind, EventKind::Step | EventKind::Tick)
}

/// Whether a turn was one instruction, or of the clock alone, which changes nothing that a judgement reads.
fn is_plain(turn: Turn) -> bool
    ensures { result ≡ is_plain turn }
{
    match turn {
        Turn::Stepped(event) => is_plain_kind(event.kind),
        Turn::Idle => false,
    }
}

fn both(first: bool, second: bool) -> bool
    ensures { result ≡ (first && second) }
{
    first && second
}

/// Takes a turn, and answers whether the sides are isolated after it since they were before.
fn take(
    kernel: &mut Kernel,
    cpu: u32,
    policy: &Option<Policy>,
    known: bool,
) -> Result<bool, AllocError>
    requires cpu { cpu < kernel.old.state.cpus }
    requires room { 0 < kernel.old.room }
    requires turns { kernel.old.state.turns < 2 ^ 31 }
    requires known { IsKnown known policy.now kernel.old.state }
    ensures state { OnOk result (kernel.new.state ≡ after kernel.old.state cpu) }
    ensures known { IfOk result (λ still. IsKnown still policy.now kernel.new.state) }
    ensures room { kernel.old.room ≤ kernel.new.room + 1 }
    ensures turns { OnOk result (kernel.new.state.turns ≤ kernel.old.state.turns + 1) }
    ensures cpus { kernel.new.state.cpus ≡ kernel.old.state.cpus }
{
    let turn = kernel.turn(cpu)?;
    kernel.actor(cpu);
    Ok(both(known, is_plain(turn)))
}

/// Judges a state after so many turns, unless it is known that the sides are isolated, and takes a turn from it if the sides are isolated.
fn step(
    alloc: Global,
    kernel: &mut Kernel,
    cpu: u32,
    policy: &Option<Policy>,
    from: u64,
    done: u64,
    known: &mut bool,
) -> Result<Option<Told>, AllocError>
    requires cpu { cpu < kernel.old.state.cpus }
    requires room { 0 < kernel.old.room }
    requires turns { kernel.old.state.turns < 2 ^ 31 }
    requires known { IsKnown known.old policy.now kernel.old.state }
    ensures known { OnOk result (IsKnown known.new policy.now kernel.new.state) }
    ensures watched { IfOk result (IsWatched policy.now from kernel.old.state done (cpu ∷ []) kernel.new.state) }
    ensures room { kernel.old.room ≤ kernel.new.room + 1 }
    ensures turns { OnOk result (kernel.new.state.turns ≤ kernel.old.state.turns + 1) }
    ensures cpus { kernel.new.state.cpus ≡ kernel.old.state.cpus }
{
    if let Some(told) = told_from(alloc, policy, kernel, from, done, *known)? {
        return Ok(Some(told));
    }
    *known = take(kernel, cpu, policy, *known || from <= done)?;
    Ok(None)
}

/// Judges the states before the turns of `block`, up to the first in which the sides aren't isolated, and takes these turns.
fn watch_block(
    alloc: Global,
    kernel: &mut Kernel,
    block: Block,
    policy: &Option<Policy>,
    from: u64,
    done: u64,
    known: &mut bool,
) -> Result<Option<Told>, AllocError>
    requires cpu { block.cpu < kernel.old.state.cpus }
    requires room { block.count ≤ kernel.old.room }
    requires turns { kernel.old.state.turns + block.count ≤ 2 ^ 31 }
    requires fits { done + block.count < 2 ^ 64 }
    requires known { IsKnown known.old policy.now kernel.old.state }
    ensures known { OnOk result (IsKnown known.new policy.now kernel.new.state) }
    ensures watched { IfOk result (IsWatched policy.now from kernel.old.state done (replicate block.count block.cpu) kernel.new.state) }
    ensures room { OnOk result (kernel.old.room ≤ kernel.new.room + block.count) }
    ensures turns { OnOk result (kernel.new.state.turns ≤ kernel.old.state.turns + block.count) }
    ensures cpus { kernel.new.state.cpus ≡ kernel.old.state.cpus }
{
    for turn in 0..block.count {
        if let Some(told) = step(alloc, kernel, block.cpu, policy, from, done + turn, known)? {
            return Ok(Some(told));
        }
    }
    Ok(None)
}

/// Judges the states of a run from the present one of `kernel` on, before each turn of `order` and after `from` turns of it at least, up to the
/// first in which the sides of `policy`, or the finest, aren't isolated; and takes these turns. What is told of that state is answered, or nothing
/// where there is none. The state after the last turn isn't judged. One after an instruction or a tick is isolated where that before was, and isn't judged
/// anew. The order is of processors that are there, and there is room in the log for
/// its turns. The only refusal is of memory; the kernel has then taken some of the turns.
pub fn watch(
    alloc: Global,
    kernel: &mut Kernel,
    order: &Order,
    policy: &Option<Policy>,
    from: u64,
) -> Result<Option<Told>, AllocError>
    requires within { IsTrue (is_within kernel.old.state.cpus 10000000 order.now.blocks) }
    requires room { total order.now.blocks ≤ kernel.old.room }
    requires turns { kernel.old.state.turns + total order.now.blocks ≤ 2 ^ 31 }
    ensures { IfOk result (IsWatched policy.now from kernel.old.state 0 (turns order.now.blocks) kernel.new.state) }
{
    let mut done = 0;
    let mut known = false;
    for block in order.blocks() {
        if let Some(told) = watch_block(alloc, kernel, *block, policy, from, done, &mut known)? {
            return Ok(Some(told));
        }
        done += block.count;
    }
    Ok(None)
}
