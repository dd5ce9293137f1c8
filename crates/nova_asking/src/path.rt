ghost use Rattle.std.specs.Prelude.{◌≡◌, ◌<◌, length, IfOk};
ghost use Rattle.nova_model.specs.State.{KernelState};
ghost use Rattle.nova_order.specs.Blocks.{IsOrder, turns};
ghost use Rattle.nova_search.specs.Searches.{AreLinked, IsWay, state_at};

use nova_order::Order;
use nova_search::{Found, path_to};
use std::alloc::{AllocError, Global};

/// An order as blocks.
fn order_of(alloc: Global, path: &[u32]) -> Result<Order, AllocError>
    ensures turns { IfOk result (λ order. turns order.blocks ≡ path.now) }
    ensures order { IfOk result (λ order. IsOrder order.blocks) }
{
    let mut order = Order::new(alloc);
    for cpu in path {
        order.extend(*cpu, 1)?;
    }
    Ok(order)
}

/// The order of turns by which the state at a place of what was found was come to, from the first.
pub(crate) fn order_to(alloc: Global, found: &[Found], place: usize) -> Result<Order, AllocError>
    requires place { place < length found.now }
    requires linked { AreLinked found.now }
    ensures way { IfOk result (λ order. (d : KernelState) → IsWay (state_at found.now 0 d) (state_at found.now place d) (turns order.blocks)) }
    ensures order { IfOk result (λ order. IsOrder order.blocks) }
{
    let path = path_to(alloc, found, place)?;
    order_of(alloc, &path)
}
