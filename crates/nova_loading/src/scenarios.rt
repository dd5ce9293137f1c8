ghost use Rattle.std.specs.Prelude.{◌≡◌, IfOk};
ghost use Rattle.nova_io.specs.Faults.{NeverFalls, Stay};
ghost use Rattle.nova_io.specs.Outside.{depots};
ghost use Rattle.nova_loading.specs.Came.{IsScenarioLoaded, most_of_scenario};
ghost use Rattle.nova_loading.specs.Fetches.{IsFetched};
ghost use Rattle.nova_loading.specs.Unread.{scenario_failed};
ghost use Rattle.nova_scenario.specs.Sound.{IsSound};

use crate::unread::ScenarioUnread;
use nova_io::{Depot, fetch_all};
use nova_scenario::{Scenario, read};
use std::alloc::Global;

/// The most bytes of a scenario.
const MOST_OF_SCENARIO: u64 = 16 * 1024 * 1024;

/// Fetches the file `name`, of at most 16 MiB, and reads it as a scenario.
///
/// `Refused` comes exactly where the bytes that came are none. Whatever comes, the depot's files are as before, and no count but that of failed
/// fetches of the name changed.
pub fn load_scenario<D: Depot>(
    alloc: Global,
    depot: &mut D,
    name: &str,
) -> Result<Scenario, ScenarioUnread>
    ensures loaded { IsScenarioLoaded (depots D.files D.gave D.fetch_failed D.fetch_faults D.took D.append_failed D.append_faults) name.now depot.old depot.new result }
    ensures sound { IfOk result IsSound }
    ensures fetches { IsFetched (depots D.files D.gave D.fetch_failed D.fetch_faults D.took D.append_failed D.append_faults) most_of_scenario name.now (scenario_failed result) depot.old depot.new }
    ensures counts { NeverFalls (D.fetch_faults depot.old) (D.fetch_faults depot.new) }
    ensures appends { Stay (D.append_faults depot.old) (D.append_faults depot.new) }
    ensures files { D.files depot.new ≡ D.files depot.old }
{
    let bytes = fetch_all(alloc, depot, name, MOST_OF_SCENARIO)?;
    Ok(read(alloc, &bytes)?)
}
