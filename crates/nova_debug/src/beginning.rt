ghost use Rattle.std.specs.Prelude.{◌≡◌, ◌≤◌, option_map, IfOk, IsTrue, [], Some};
ghost use Rattle.nova_io.specs.Outside.{depots};
ghost use Rattle.nova_order.specs.Blocks.{is_within};
ghost use Rattle.nova_scenario.specs.Sound.{IsSound};
ghost use Rattle.nova_recording.specs.Recordings.{IsSameRun};
ghost use Rattle.nova_debug.specs.Beginnings.{IsBegun, IsBegunAlong, IsBegunOf, IsBegunRound, IsOrderRead, IsScenarioRead, limit_of, most_kept};

use crate::making::{run_along, run_rounds};
use crate::orders::MOST_TURNS;
use crate::refusal::{Refusal, Unfit};
use crate::serving::Session;
use nova_io::Depot;
use nova_loading::{OrderUnread, ScenarioUnread, load_order, load_scenario};
use nova_order::Order;
use nova_recording::{Recording, Search};
use nova_run::RunFault;
use nova_scenario::Scenario;
use nova_text::parse_number;
use std::alloc::Global;

/// The most bytes of kept states, until a line says otherwise.
const KEPT: usize = 64 * 1024 * 1024;

/// The most turns of a run, as `word` says; none where it is no number from 1 to 10,000,000.
fn limit_of(word: &[u8]) -> Option<u32>
    ensures { result ≡ limit_of word.now }
{
    let limit = parse_number(word).ok()?;
    if 0 < limit && limit <= MOST_TURNS {
        Some(limit)
    } else {
        None
    }
}

/// Fetches the file `name`, of at most 16 MiB, and reads it as a scenario.
fn fetch_scenario<D: Depot>(alloc: Global, depot: &mut D, name: &str) -> Result<Scenario, Refusal>
    ensures read { IsScenarioRead (depots D.files D.gave D.fetch_failed D.fetch_faults D.took D.append_failed D.append_faults) name.now depot.old depot.new result }
    ensures sound { IfOk result IsSound }
    ensures files { D.files depot.new ≡ D.files depot.old }
{
    match load_scenario(alloc, depot, name) {
        Ok(scenario) => Ok(scenario),
        Err(ScenarioUnread::Failed) => Err(Refusal::Scenario(Unfit::Unread)),
        Err(ScenarioUnread::TooLong) => Err(Refusal::Scenario(Unfit::TooLong)),
        Err(ScenarioUnread::Refused { .. }) => Err(Refusal::Scenario(Unfit::Wrong)),
        Err(ScenarioUnread::Memory) => Err(Refusal::Run(RunFault::Memory)),
    }
}

/// Fetches an order of at most 64 MiB, of processors below `cpus` and of at most `most` turns, and reads it.
fn fetch_order<D: Depot>(
    alloc: Global,
    depot: &mut D,
    name: &str,
    cpus: u32,
    most: u64,
) -> Result<Order, Refusal>
    ensures read { IsOrderRead (depots D.files D.gave D.fetch_failed D.fetch_faults D.took D.append_failed D.append_faults) name.now cpus most depot.old depot.new result }
    ensures within { IfOk result (λ order. IsTrue (is_within cpus most order.blocks)) }
    ensures files { D.files depot.new ≡ D.files depot.old }
{
    match load_order(alloc, depot, name, cpus, most) {
        Ok(order) => Ok(order),
        Err(OrderUnread::Failed) => Err(Refusal::Order(Unfit::Unread)),
        Err(OrderUnread::TooLong) => Err(Refusal::Order(Unfit::TooLong)),
        Err(OrderUnread::Refused(_)) => Err(Refusal::Order(Unfit::Wrong)),
        Err(OrderUnread::Memory) => Err(Refusal::Run(RunFault::Memory)),
    }
}

/// A session at the turn of `recording`, with at most 64 MiB of kept states, that looks for nothing.
fn session_of(alloc: Global, recording: Recording) -> Session
    ensures same { IsSameRun recording result.recording }
    ensures turn { result.recording.turn ≡ recording.turn }
    ensures most { result.recording.most ≡ most_kept }
    ensures wants { result.search.wants.items ≡ [] }
    ensures watches { result.search.watches.items ≡ [] }
{
    let mut recording = recording;
    recording.keep_within(KEPT);
    let search = Search {
        wants: Vec::new(alloc),
        watches: Vec::new(alloc),
    };
    Session { recording, search }
}

/// Begins with the run of `scenario` along `order`.
fn begin_along<D: Depot>(
    alloc: Global,
    depot: &mut D,
    scenario: &Scenario,
    order: &str,
    limit: u32,
) -> Result<Session, Refusal>
    requires sound { IsSound scenario.now }
    requires limit { limit ≤ MOST_TURNS }
    ensures begun { IsBegunAlong (depots D.files D.gave D.fetch_failed D.fetch_faults D.took D.append_failed D.append_faults) scenario.now order.now limit depot.old depot.new result }
    ensures files { D.files depot.new ≡ D.files depot.old }
{
    let order = fetch_order(alloc, depot, order, scenario.cpus, u64::from(limit))?;
    match run_along(alloc, scenario, &order, limit) {
        Ok(recording) => Ok(session_of(alloc, recording)),
        Err(fault) => Err(Refusal::Run(fault)),
    }
}

/// Begins with the run of `scenario` by round robin.
fn begin_round(alloc: Global, scenario: &Scenario, limit: u32) -> Result<Session, Refusal>
    requires sound { IsSound scenario.now }
    requires limit { limit ≤ MOST_TURNS }
    ensures { IsBegunRound scenario.now limit result }
{
    match run_rounds(alloc, scenario, limit) {
        Ok(recording) => Ok(session_of(alloc, recording)),
        Err(fault) => Err(Refusal::Run(fault)),
    }
}

/// Begins with the run of `scenario`, along `order` where that is named.
fn begin_of<D: Depot>(
    alloc: Global,
    depot: &mut D,
    scenario: &Scenario,
    limit: u32,
    order: Option<&str>,
) -> Result<Session, Refusal>
    requires sound { IsSound scenario.now }
    requires limit { limit ≤ MOST_TURNS }
    ensures begun { IsBegunOf (depots D.files D.gave D.fetch_failed D.fetch_faults D.took D.append_failed D.append_faults) scenario.now limit (option_map (λ name. name.now) order.entry) depot.old depot.new result }
    ensures files { D.files depot.new ≡ D.files depot.old }
{
    match order {
        Some(order) => begin_along(alloc, depot, scenario, order, limit),
        None => begin_round(alloc, scenario, limit),
    }
}

/// Begins a session with the run of the scenario in `name`, of at most as many turns as `limit` says, along the order in `order`, else by
/// round robin. Where `limit` is no number from 1 to 10,000,000 no file is read. Whatever the answer, the depot's files are as before.
pub fn begin<D: Depot>(
    alloc: Global,
    depot: &mut D,
    name: &str,
    limit: &[u8],
    order: Option<&str>,
) -> Result<Session, Refusal>
    ensures begun { IsBegun (depots D.files D.gave D.fetch_failed D.fetch_faults D.took D.append_failed D.append_faults) name.now (limit_of limit.now) (option_map (λ name. name.now) order.entry) depot.old depot.new result }
    ensures files { D.files depot.new ≡ D.files depot.old }
{
    let Some(limit) = limit_of(limit) else {
        return Err(Refusal::Limit);
    };
    let scenario = fetch_scenario(alloc, depot, name)?;
    begin_of(alloc, depot, &scenario, limit, order)
}
