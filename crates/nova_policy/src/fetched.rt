ghost use Rattle.std.specs.Prelude.{◌≡◌, IfOk, IfSome, IsTrue};
ghost use Rattle.nova_io.specs.Faults.{NeverFalls};
ghost use Rattle.nova_order.specs.Blocks.{is_within};
ghost use Rattle.nova_policy.specs.Came.{IsOrderRead, IsOrderReadIfNamed, IsPolicyRead, IsPolicyReadIfNamed};
ghost use Rattle.nova_io.specs.Outside.{depots};

use crate::exit::Exit;
use nova_command::Name;
use nova_io::{Depot, fetch_all};
use nova_loading::load_order;
use nova_naming::Policy;
use nova_order::Order;
use std::alloc::Global;

/// The most bytes of a policy.
const MOST_OF_POLICY: u64 = 1024 * 1024;

/// The most turns of an order, as of `nova`.
const MOST_TURNS: u64 = 10_000_000;

/// Fetches an order of processors below `cpus`, and reads it.
fn fetch_order<D: Depot>(
    alloc: Global,
    depot: &mut D,
    name: &Name,
    cpus: u32,
) -> Result<Order, Exit>
    ensures read { IsOrderRead (depots D.files D.gave D.fetch_failed D.fetch_faults D.took D.append_failed D.append_faults) name.now cpus depot.old depot.new result }
    ensures within { IfOk result (λ order. IsTrue (is_within cpus 10000000 order.blocks)) }
    ensures counts { NeverFalls (D.fetch_faults depot.old) (D.fetch_faults depot.new) }
{
    match load_order(alloc, depot, name.as_str(), cpus, MOST_TURNS) {
        Ok(order) => Ok(order),
        Err(unread) => Err(Exit::from(unread)),
    }
}

/// Fetches the file `name`, and reads it as a policy.
fn fetch_policy<D: Depot>(alloc: Global, depot: &mut D, name: &Name) -> Result<Policy, Exit>
    ensures read { IsPolicyRead (depots D.files D.gave D.fetch_failed D.fetch_faults D.took D.append_failed D.append_faults) name.now depot.old depot.new result }
    ensures counts { NeverFalls (D.fetch_faults depot.old) (D.fetch_faults depot.new) }
{
    let bytes = match fetch_all(alloc, depot, name.as_str(), MOST_OF_POLICY) {
        Ok(bytes) => bytes,
        Err(fault) => return Err(Exit::of_policy_fetch(fault)),
    };
    Ok(Policy::read(alloc, &bytes)?)
}

/// Fetches the order `name`, where that is given, and reads it.
pub fn fetch_order_if_named<D: Depot>(
    alloc: Global,
    depot: &mut D,
    name: &Option<Name>,
    cpus: u32,
) -> Result<Option<Order>, Exit>
    ensures read { IsOrderReadIfNamed (depots D.files D.gave D.fetch_failed D.fetch_faults D.took D.append_failed D.append_faults) name.now cpus depot.old depot.new result }
    ensures within { IfOk result (λ order. IfSome order (λ o. IsTrue (is_within cpus 10000000 o.blocks))) }
    ensures counts { NeverFalls (D.fetch_faults depot.old) (D.fetch_faults depot.new) }
{
    match name {
        Some(name) => Ok(Some(fetch_order(alloc, depot, name, cpus)?)),
        None => Ok(None),
    }
}

/// Fetches the policy `name`, where that is given, and reads it.
pub fn fetch_policy_if_named<D: Depot>(
    alloc: Global,
    depot: &mut D,
    name: &Option<Name>,
) -> Result<Option<Policy>, Exit>
    ensures read { IsPolicyReadIfNamed (depots D.files D.gave D.fetch_failed D.fetch_faults D.took D.append_failed D.append_faults) name.now depot.old depot.new result }
    ensures counts { NeverFalls (D.fetch_faults depot.old) (D.fetch_faults depot.new) }
{
    match name {
        Some(name) => Ok(Some(fetch_policy(alloc, depot, name)?)),
        None => Ok(None),
    }
}
