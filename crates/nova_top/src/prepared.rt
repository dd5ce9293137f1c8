ghost use Rattle.std.specs.Prelude.{◌≡◌, ℕ, List, None, Some};
ghost use Rattle.nova_command.specs.Command.{HasBounds};
ghost use Rattle.nova_command.specs.Limit.{IsLimit, IsSize};
ghost use Rattle.nova_io.specs.Faults.{Stay};
ghost use Rattle.nova_answers.specs.Fetches.{Fetches};
ghost use Rattle.nova_io.specs.Outside.{depots};
ghost use Rattle.nova_answers.specs.Prepared.{IsPrepared, exit_of};

use crate::runs::{run_alone, run_in_order, run_rounds, run_together};
use nova_answers::{Exit, Outcome, bench_scenario, fetch_order, fetch_scenario, summed_up, valid};
use nova_command::{Command, Name};
use nova_gsi::{
    alarms_have_room, counters_tell_what_ended, firings_are_of_their_moments, sources_are_alarms,
};
use nova_io::Depot;
use nova_pair::twin;
use nova_run::Gate;
use std::alloc::Global;
use std::sync::Wait;
use std::thread::Threads;

/// Does `check`: fetches the scenario `name`, and says that it is valid.
fn check<D: Depot>(alloc: Global, depot: &mut D, name: &Name) -> Result<Outcome, Exit>
    ensures prepared { IsPrepared (depots D.files D.gave D.fetch_failed D.fetch_faults D.took D.append_failed D.append_faults) (Command.Check name.now) depot.old depot.new result }
    ensures fetches { Fetches (depots D.files D.gave D.fetch_failed D.fetch_faults D.took D.append_failed D.append_faults) (Command.Check name.now) (exit_of result) depot.old depot.new }
    ensures appends { Stay (D.append_faults depot.old) (D.append_faults depot.new) }
    ensures files { D.files depot.new ≡ D.files depot.old }
{
    let _scenario = fetch_scenario(alloc, depot, name)?;
    Ok(valid(alloc)?)
}

/// Does `run`: fetches the scenario `name`, and runs it with a thread for each processor.
fn run<R: Threads + Wait + Sync, D: Depot, G: Gate + Sync>(
    rt: &R,
    alloc: Global,
    depot: &mut D,
    name: &Name,
    limit: u32,
    gate: &G,
) -> Result<Outcome, Exit>
    requires limit { IsLimit limit }
    ensures prepared { (order : List ℕ) → IsPrepared (depots D.files D.gave D.fetch_failed D.fetch_faults D.took D.append_failed D.append_faults) (Command.Run name.now order limit) depot.old depot.new result }
    ensures fetches { (order : List ℕ) → Fetches (depots D.files D.gave D.fetch_failed D.fetch_faults D.took D.append_failed D.append_faults) (Command.Run name.now order limit) (exit_of result) depot.old depot.new }
    ensures appends { Stay (D.append_faults depot.old) (D.append_faults depot.new) }
    ensures files { D.files depot.new ≡ D.files depot.old }
{
    law_forest::delegations_stay_a_forest();
    law_revocation::a_returned_revoke_left_nothing();
    law_origins::virtual_cpus_are_guests_alone_from_their_birth();
    sources_are_alarms();
    firings_are_of_their_moments();
    counters_tell_what_ended();
    alarms_have_room();
    law_integrity::turns_change_by_right();
    law_origins::inputs_are_by_right();
    let scenario = fetch_scenario(alloc, depot, name)?;
    run_together(rt, alloc, &scenario, limit, gate)
}

/// Does `solo` without an order: fetches the scenario `name`, and runs it by round robin.
fn solo<D: Depot>(alloc: Global, depot: &mut D, name: &Name, limit: u32) -> Result<Outcome, Exit>
    requires limit { IsLimit limit }
    ensures prepared { IsPrepared (depots D.files D.gave D.fetch_failed D.fetch_faults D.took D.append_failed D.append_faults) (Command.Solo name.now None limit) depot.old depot.new result }
    ensures fetches { Fetches (depots D.files D.gave D.fetch_failed D.fetch_faults D.took D.append_failed D.append_faults) (Command.Solo name.now None limit) (exit_of result) depot.old depot.new }
    ensures appends { Stay (D.append_faults depot.old) (D.append_faults depot.new) }
    ensures files { D.files depot.new ≡ D.files depot.old }
{
    law_forest::delegations_stay_a_forest();
    law_revocation::a_returned_revoke_left_nothing();
    law_origins::virtual_cpus_are_guests_alone_from_their_birth();
    sources_are_alarms();
    firings_are_of_their_moments();
    counters_tell_what_ended();
    alarms_have_room();
    law_response::round_robin_serves_the_highest_priority();
    law_integrity::turns_change_by_right();
    law_origins::inputs_are_by_right();
    let scenario = fetch_scenario(alloc, depot, name)?;
    run_rounds(alloc, &scenario, limit)
}

/// Does `solo` with an order: fetches `scenario` and then `order`, and runs the scenario over the order.
fn solo_in_order<D: Depot>(
    alloc: Global,
    depot: &mut D,
    scenario: &Name,
    order: &Name,
    limit: u32,
) -> Result<Outcome, Exit>
    requires limit { IsLimit limit }
    ensures prepared { IsPrepared (depots D.files D.gave D.fetch_failed D.fetch_faults D.took D.append_failed D.append_faults) (Command.Solo scenario.now (Some order.now) limit) depot.old depot.new result }
    ensures fetches { Fetches (depots D.files D.gave D.fetch_failed D.fetch_faults D.took D.append_failed D.append_faults) (Command.Solo scenario.now (Some order.now) limit) (exit_of result) depot.old depot.new }
    ensures appends { Stay (D.append_faults depot.old) (D.append_faults depot.new) }
    ensures files { D.files depot.new ≡ D.files depot.old }
{
    law_forest::delegations_stay_a_forest();
    law_revocation::a_returned_revoke_left_nothing();
    law_origins::virtual_cpus_are_guests_alone_from_their_birth();
    sources_are_alarms();
    firings_are_of_their_moments();
    counters_tell_what_ended();
    alarms_have_room();
    law_integrity::turns_change_by_right();
    law_origins::inputs_are_by_right();
    let scenario = fetch_scenario(alloc, depot, scenario)?;
    let order = fetch_order(alloc, depot, order, scenario.cpus, u64::from(limit))?;
    run_in_order(alloc, &scenario, &order, limit)
}

/// Does `bench`: runs the scenario of the bench `number` with a thread for its processor.
fn bench<R: Threads + Wait + Sync, D: Depot, G: Gate + Sync>(
    rt: &R,
    alloc: Global,
    depot: &D,
    number: u32,
    limit: u32,
    gate: &G,
) -> Result<Outcome, Exit>
    requires size { IsSize number }
    requires limit { IsLimit limit }
    ensures { IsPrepared (depots D.files D.gave D.fetch_failed D.fetch_faults D.took D.append_failed D.append_faults) (Command.Bench number limit) depot.now depot.now result }
{
    law_forest::delegations_stay_a_forest();
    law_revocation::a_returned_revoke_left_nothing();
    law_origins::virtual_cpus_are_guests_alone_from_their_birth();
    sources_are_alarms();
    firings_are_of_their_moments();
    counters_tell_what_ended();
    alarms_have_room();
    law_response::round_robin_serves_the_highest_priority();
    law_integrity::turns_change_by_right();
    law_origins::inputs_are_by_right();
    let scenario = bench_scenario(alloc, number)?;
    let finished = run_alone(rt, alloc, &scenario, limit, gate)?;
    Ok(summed_up(alloc, finished, number)?)
}

/// Makes what `command` asks for, before the first byte goes out.
pub fn prepare<R: Threads + Wait + Sync, D: Depot, G: Gate + Sync>(
    rt: &R,
    alloc: Global,
    command: &Command,
    depot: &mut D,
    gate: &G,
) -> Result<Outcome, Exit>
    requires bounds { HasBounds command.now }
    ensures prepared { IsPrepared (depots D.files D.gave D.fetch_failed D.fetch_faults D.took D.append_failed D.append_faults) command.now depot.old depot.new result }
    ensures fetches { Fetches (depots D.files D.gave D.fetch_failed D.fetch_faults D.took D.append_failed D.append_faults) command.now (exit_of result) depot.old depot.new }
    ensures appends { Stay (D.append_faults depot.old) (D.append_faults depot.new) }
    ensures files { D.files depot.new ≡ D.files depot.old }
{
    match command {
        Command::Run {
            scenario,
            order: _,
            limit,
        } => run(rt, alloc, depot, scenario, *limit, gate),
        Command::Solo {
            scenario,
            order: None,
            limit,
        } => solo(alloc, depot, scenario, *limit),
        Command::Solo {
            scenario,
            order: Some(order),
            limit,
        } => solo_in_order(alloc, depot, scenario, order, *limit),
        Command::Check { scenario } => check(alloc, depot, scenario),
        Command::Bench { number, limit } => bench(rt, alloc, depot, *number, *limit, gate),
        Command::Twin { subjects, limit } => twin(alloc, depot, subjects, *limit),
    }
}
