ghost use Rattle.std.specs.Prelude.{◌≡◌, IfOk, IsTrue};
ghost use Rattle.nova_io.specs.Faults.{NeverFalls, Stay};
ghost use Rattle.nova_io.specs.Outside.{depots};
ghost use Rattle.nova_loading.specs.Came.{IsOrderLoaded, most_of_order};
ghost use Rattle.nova_loading.specs.Fetches.{IsFetched};
ghost use Rattle.nova_loading.specs.Unread.{order_failed};
ghost use Rattle.nova_order.specs.Blocks.{is_within};

use crate::unread::OrderUnread;
use nova_io::{Depot, fetch_all};
use nova_order::Order;
use std::alloc::Global;

/// The most bytes of an order.
const MOST_OF_ORDER: u64 = 64 * 1024 * 1024;

/// Fetches the file `name`, of at most 64 MiB, and reads it as an order of processors below `cpus` and of at most `most` turns.
///
/// `Refused` comes exactly where the bytes that came are none. Whatever comes, the depot's files are as before, and no count but that of failed
/// fetches of the name changed.
pub fn load_order<D: Depot>(
    alloc: Global,
    depot: &mut D,
    name: &str,
    cpus: u32,
    most: u64,
) -> Result<Order, OrderUnread>
    ensures loaded { IsOrderLoaded (depots D.files D.gave D.fetch_failed D.fetch_faults D.took D.append_failed D.append_faults) name.now cpus most depot.old depot.new result }
    ensures within { IfOk result (λ order. IsTrue (is_within cpus most order.blocks)) }
    ensures fetches { IsFetched (depots D.files D.gave D.fetch_failed D.fetch_faults D.took D.append_failed D.append_faults) most_of_order name.now (order_failed result) depot.old depot.new }
    ensures counts { NeverFalls (D.fetch_faults depot.old) (D.fetch_faults depot.new) }
    ensures appends { Stay (D.append_faults depot.old) (D.append_faults depot.new) }
    ensures files { D.files depot.new ≡ D.files depot.old }
{
    let bytes = fetch_all(alloc, depot, name, MOST_OF_ORDER)?;
    Ok(Order::read(alloc, &bytes, cpus, most)?)
}
