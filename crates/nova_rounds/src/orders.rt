ghost use Rattle.std.specs.Prelude.{ℕ, ◌≡◌, ◌+◌, ◌^◌, ◌≤◌, IfOk, OnOk, IsTrue, Err};
ghost use Rattle.nova_model.specs.Runs.{IsFreeOfIdle};
ghost use Rattle.nova_order.specs.Blocks.{turns, total, is_within};
ghost use Rattle.nova_finished.specs.Finished.{IsFinished, IsIdleLine};
ghost use Rattle.nova_finished.specs.declared.fault.RunFault.TheVariants.{OrderIdle};
ghost use Rattle.nova_rounds.specs.UnderWay.{IsAlong, IsBegun};

use crate::rounds::{begin, kept, take};
use nova_finished::{Finished, RunFault};
use nova_kernel::Kernel;
use nova_order::Order;
use std::alloc::Global;

/// Takes the turns of `order`, until one meets an idle processor, by a run that has taken none. There are places for their events.
fn take_all(run: &mut Finished, order: &Order) -> Result<(), RunFault>
    requires begun { IsBegun run.old }
    requires within { IsTrue (is_within run.old.kernel.state.cpus run.old.limit order.now.blocks) }
    requires places { total order.now.blocks ≤ run.old.trace.capacity }
    ensures along { OnOk result (IsAlong run.old.kernel.state run.old.limit run.new order.now.blocks) }
    ensures idle { (line : ℕ) → result ≡ Err (OrderIdle line) → IsIdleLine run.old.kernel.state order.now.blocks line }
{
    for (index, block) in order.blocks().iter().enumerate() {
        if take(run, block.cpu, block.count)? < block.count {
            return Err(RunFault::OrderIdle(index as u64 + 1));
        }
    }
    Ok(())
}

/// Runs a kernel along an order of turns. The order is of processors that are there, and of at most
/// `limit` turns; the kernel has room in its log for as many.
///
/// `OrderIdle` comes exactly where a turn of the order meets an idle processor. It tells the block of
/// the first such turn by the line of the order's text that it stands in, counted from 1. `Memory`
/// comes where memory is refused.
pub fn run_order(
    alloc: Global,
    kernel: Kernel,
    order: &Order,
    limit: u64,
) -> Result<Finished, RunFault>
    requires room { limit ≤ kernel.room }
    requires turns { kernel.state.turns + limit ≤ 2 ^ 31 }
    requires within { IsTrue (is_within kernel.state.cpus limit order.now.blocks) }
    ensures finished { IfOk result (IsFinished kernel.state (turns order.now.blocks) limit) }
    ensures no_idle { OnOk result (IsFreeOfIdle kernel.state (turns order.now.blocks)) }
    ensures idle { (line : ℕ) → result ≡ Err (OrderIdle line) → IsIdleLine kernel.state order.now.blocks line }
{
    let mut run = begin(alloc, kernel, limit, order.sum())?;
    let went = take_all(&mut run, order);
    kept(run, went)
}
