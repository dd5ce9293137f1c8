ghost use Rattle.std.specs.Prelude.{ℕ, ◌≡◌, ◌+◌, ◌^◌, ◌<◌, ◌≤◌, replicate, is_some, nat_lt, IfOk, OnOk, IsTrue, Err};
ghost use Rattle.std.specs.List.{list_all};
ghost use Rattle.nova_model.specs.Runs.{IsFreeOfIdle};
ghost use Rattle.nova_model.specs.Turn.{turn};
ghost use Rattle.nova_order.specs.Blocks.{total, turns};
ghost use Rattle.nova_finished.specs.Finished.{IsIdleLine};
ghost use Rattle.nova_finished.specs.UnderWay.{taken};
ghost use Rattle.nova_finished.specs.declared.fault.RunFault.TheVariants.{OrderIdle};
ghost use Rattle.nova_following.specs.Passes.{HasFollowed, IsBlockTaken};

use crate::trail::{Trail, input_of};
use nova_finished::RunFault;
use nova_kernel::{Kernel, Turn};
use nova_order::Order;
use std::alloc::AllocError;

/// One turn of a processor, in which a virtual CPU is followed, and whether it was taken: it is not where
/// the processor is idle.
fn turn(kernel: &mut Kernel, trail: &mut Trail, guest: u32, cpu: u32) -> Result<bool, AllocError>
    requires cpu { cpu < kernel.old.state.cpus }
    requires room { 0 < kernel.old.room }
    requires turns { kernel.old.state.turns < 2 ^ 31 }
    ensures took { IfOk result (λ took. took ≡ is_some (turn kernel.old.state cpu)) }
    ensures passed { OnOk result (HasFollowed guest kernel.old trail.old (taken kernel.old.state cpu) kernel.new trail.new) }
{
    let input = input_of(trail.alloc(), kernel, cpu, guest)?;
    match kernel.turn(cpu)? {
        Turn::Stepped(_) => {
            trail.note(kernel, guest, input)?;
            Ok(true)
        }
        Turn::Idle => Ok(false),
    }
}

/// Turns of one processor, until one is idle; and whether none was.
fn take(
    kernel: &mut Kernel,
    trail: &mut Trail,
    guest: u32,
    cpu: u32,
    count: u64,
) -> Result<bool, AllocError>
    requires cpu { cpu < kernel.old.state.cpus }
    requires room { count ≤ kernel.old.room }
    requires turns { kernel.old.state.turns + count ≤ 2 ^ 31 }
    ensures { IfOk result (λ all. IsBlockTaken kernel.old.state (replicate count cpu) (HasFollowed guest kernel.old trail.old (replicate count cpu) kernel.new trail.new) all) }
{
    for _turn in 0..count {
        if !turn(kernel, trail, guest, cpu)? {
            return Ok(false);
        }
    }
    Ok(true)
}

/// Runs a kernel along an order of turns, and follows a virtual CPU.
pub(crate) fn follow(
    kernel: &mut Kernel,
    trail: &mut Trail,
    order: &Order,
    guest: u32,
) -> Result<(), RunFault>
    requires cpus { IsTrue (list_all (λ block. nat_lt block.cpu kernel.old.state.cpus) order.now.blocks) }
    requires room { total order.now.blocks ≤ kernel.old.room }
    requires turns { kernel.old.state.turns + total order.now.blocks ≤ 2 ^ 31 }
    ensures passed { OnOk result (HasFollowed guest kernel.old trail.old (turns order.now.blocks) kernel.new trail.new) }
    ensures no_idle { OnOk result (IsFreeOfIdle kernel.old.state (turns order.now.blocks)) }
    ensures idle { (line : ℕ) → result ≡ Err (OrderIdle line) → IsIdleLine kernel.old.state order.now.blocks line }
{
    for (index, block) in order.blocks().iter().enumerate() {
        if !take(kernel, trail, guest, block.cpu, block.count)? {
            return Err(RunFault::OrderIdle(index as u64 + 1));
        }
    }
    Ok(())
}
