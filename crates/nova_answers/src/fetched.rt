ghost use Rattle.std.specs.Prelude.{◌≡◌, IfOk, IsTrue};
ghost use Rattle.nova_io.specs.Faults.{NeverFalls, Stay};
ghost use Rattle.nova_order.specs.Blocks.{is_within};
ghost use Rattle.nova_scenario.specs.Sound.{IsSound};
ghost use Rattle.nova_answers.specs.Fetches.{FetchesOf};
ghost use Rattle.nova_answers.specs.Names.{most_of_subjects};
ghost use Rattle.nova_io.specs.Outside.{depots};
ghost use Rattle.nova_loading.specs.Came.{most_of_order, most_of_scenario};
ghost use Rattle.nova_answers.specs.Prepared.{IsScenarioRead, IsOrderReadBy, AreSubjectsRead, exit_of};

use crate::exit::Exit;
use crate::subjects::{Subjects, read_subjects};
use nova_command::Name;
use nova_io::{Depot, fetch_all};
use nova_loading::{load_order, load_scenario};
use nova_order::Order;
use nova_scenario::Scenario;
use std::alloc::Global;

/// The most bytes of a text that names two guests.
const MOST_OF_SUBJECTS: u64 = 4096;

/// Fetches the file `name` and reads it as a scenario.
pub fn fetch_scenario<D: Depot>(alloc: Global, depot: &mut D, name: &Name) -> Result<Scenario, Exit>
    ensures read { IsScenarioRead (depots D.files D.gave D.fetch_failed D.fetch_faults D.took D.append_failed D.append_faults) name.now depot.old depot.new result }
    ensures sound { IfOk result IsSound }
    ensures fetches { FetchesOf (depots D.files D.gave D.fetch_failed D.fetch_faults D.took D.append_failed D.append_faults) most_of_scenario name.now (exit_of result) depot.old depot.new }
    ensures counts { NeverFalls (D.fetch_faults depot.old) (D.fetch_faults depot.new) }
    ensures appends { Stay (D.append_faults depot.old) (D.append_faults depot.new) }
    ensures files { D.files depot.new ≡ D.files depot.old }
{
    match load_scenario(alloc, depot, name.as_str()) {
        Ok(scenario) => Ok(scenario),
        Err(unread) => Err(Exit::from(unread)),
    }
}

/// Fetches the file `name` and reads it as an order of processors below `cpus` and of at most `most` turns.
pub fn fetch_order<D: Depot>(
    alloc: Global,
    depot: &mut D,
    name: &Name,
    cpus: u32,
    most: u64,
) -> Result<Order, Exit>
    ensures read { IsOrderReadBy (depots D.files D.gave D.fetch_failed D.fetch_faults D.took D.append_failed D.append_faults) name.now cpus most depot.old depot.new result }
    ensures within { IfOk result (λ order. IsTrue (is_within cpus most order.blocks)) }
    ensures fetches { FetchesOf (depots D.files D.gave D.fetch_failed D.fetch_faults D.took D.append_failed D.append_faults) most_of_order name.now (exit_of result) depot.old depot.new }
    ensures counts { NeverFalls (D.fetch_faults depot.old) (D.fetch_faults depot.new) }
    ensures appends { Stay (D.append_faults depot.old) (D.append_faults depot.new) }
    ensures files { D.files depot.new ≡ D.files depot.old }
{
    match load_order(alloc, depot, name.as_str(), cpus, most) {
        Ok(order) => Ok(order),
        Err(unread) => Err(Exit::from(unread)),
    }
}

/// Fetches the file `name` and reads it as a text that names two guests.
pub fn fetch_subjects<D: Depot>(alloc: Global, depot: &mut D, name: &Name) -> Result<Subjects, Exit>
    ensures read { AreSubjectsRead (depots D.files D.gave D.fetch_failed D.fetch_faults D.took D.append_failed D.append_faults) name.now depot.old depot.new result }
    ensures fetches { FetchesOf (depots D.files D.gave D.fetch_failed D.fetch_faults D.took D.append_failed D.append_faults) most_of_subjects name.now (exit_of result) depot.old depot.new }
    ensures counts { NeverFalls (D.fetch_faults depot.old) (D.fetch_faults depot.new) }
    ensures appends { Stay (D.append_faults depot.old) (D.append_faults depot.new) }
    ensures files { D.files depot.new ≡ D.files depot.old }
{
    let bytes = match fetch_all(alloc, depot, name.as_str(), MOST_OF_SUBJECTS) {
        Ok(bytes) => bytes,
        Err(fault) => return Err(Exit::of_subjects_fetch(fault)),
    };
    Ok(read_subjects(alloc, &bytes)?)
}
