ghost use Rattle.std.specs.Prelude.{ℕ, ◌≡◌, ◌+◌, ◌^◌, ◌≤◌, IfSome, IfOk, OnOk, IsTrue, Err};
ghost use Rattle.nova_model.specs.Runs.{IsFreeOfIdle};
ghost use Rattle.nova_order.specs.Blocks.{turns, is_within};
ghost use Rattle.nova_finished.specs.Finished.{IsIdleLine};
ghost use Rattle.nova_finished.specs.declared.fault.RunFault.TheVariants.{OrderIdle};
ghost use Rattle.nova_twin.specs.Sides.{IsAlone, IsBeginning, IsFound, IsSide};

use crate::following::follow;
use crate::trail::Trail;
use nova_finished::RunFault;
use nova_kernel::{Kernel, let_go};
use nova_order::Order;
use nova_twin::Side;
use std::alloc::Global;

/// Runs `kernel`, which stays its owner's, along `order` of turns, and collects what it shows of the virtual CPU `guest`.
fn gather(
    alloc: Global,
    kernel: &mut Kernel,
    order: &Order,
    limit: u64,
    guest: u32,
) -> Result<Option<Side>, RunFault>
    requires begins { IsBeginning kernel.old.state }
    requires room { limit ≤ kernel.old.room }
    requires turns { kernel.old.state.turns + limit ≤ 2 ^ 31 }
    requires within { IsTrue (is_within kernel.old.state.cpus limit order.now.blocks) }
    ensures side { IfOk result (IsFound kernel.old.state (turns order.now.blocks) guest) }
    ensures alone { IfOk result (λ found. IfSome found IsAlone) }
    ensures comparable { IfOk result (λ found. IfSome found IsSide) }
    ensures no_idle { OnOk result (IsFreeOfIdle kernel.old.state (turns order.now.blocks)) }
    ensures idle { (line : ℕ) → result ≡ Err (OrderIdle line) → IsIdleLine kernel.old.state order.now.blocks line }
{
    law_origins::virtual_cpus_are_guests_alone_from_their_birth();
    let mut trail = Trail::new(alloc);
    follow(kernel, &mut trail, order, guest)?;
    Ok(trail.close()?)
}

/// Runs `kernel` along `order`, and follows the virtual CPU `guest` from its birth. The kernel has taken no
/// turn; the order is of processors that are there, and of at most `limit` turns; the kernel has room in its
/// log for as many.
///
/// There is no side exactly where no virtual CPU has the number at the end. `OrderIdle` comes exactly
/// where a turn of the order meets an idle processor, and tells the block of the first such turn by the
/// line of the order's text that it stands in, counted from 1. `Memory` comes where memory is refused.
pub fn collect(
    alloc: Global,
    kernel: Kernel,
    order: &Order,
    limit: u64,
    guest: u32,
) -> Result<Option<Side>, RunFault>
    requires begins { IsBeginning kernel.state }
    requires room { limit ≤ kernel.room }
    requires turns { kernel.state.turns + limit ≤ 2 ^ 31 }
    requires within { IsTrue (is_within kernel.state.cpus limit order.now.blocks) }
    ensures side { IfOk result (IsFound kernel.state (turns order.now.blocks) guest) }
    ensures alone { IfOk result (λ found. IfSome found IsAlone) }
    ensures comparable { IfOk result (λ found. IfSome found IsSide) }
    ensures no_idle { OnOk result (IsFreeOfIdle kernel.state (turns order.now.blocks)) }
    ensures idle { (line : ℕ) → result ≡ Err (OrderIdle line) → IsIdleLine kernel.state order.now.blocks line }
{
    let mut kernel = kernel;
    let found = gather(alloc, &mut kernel, order, limit, guest);
    let_go(kernel);
    found
}
