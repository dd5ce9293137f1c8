ghost use Rattle.std.specs.Prelude.{◌≡◌, [], IfOk, IfErr, IsTrue, length, false};
ghost use Rattle.nova_boot.specs.Boot.{scenario_of};
ghost use Rattle.nova_command.specs.Limit.{IsLimit};
ghost use Rattle.law_turns.specs.Orders.{IsRunOut};
ghost use Rattle.nova_model.specs.Boot.{boot};
ghost use Rattle.nova_model.specs.Runs.{rounds};
ghost use Rattle.nova_order.specs.Blocks.{turns, is_within};
ghost use Rattle.nova_report.specs.Report.{report};
ghost use Rattle.nova_finished.specs.Finished.{IsFinished};
ghost use Rattle.nova_scenario.specs.Sound.{IsSound};
ghost use Rattle.nova_answers.specs.Prepared.{IsReportOf, IsTogether, IsIdleFault, IsAlone};
ghost use Rattle.nova_answers.specs.declared.exit.Exit.TheVariants.{Memory};

use nova_answers::{Exit, Outcome, booted, closed, recorded};
use nova_finished::Finished;
use nova_order::Order;
use nova_rounds::{round_robin, run_order};
use nova_run::{Gate, run_workers};
use nova_scenario::Scenario;
use std::alloc::Global;
use std::sync::Wait;
use std::thread::Threads;

/// Boots `scenario` and runs it by round robin for at most `limit` turns.
pub fn run_rounds(alloc: Global, scenario: &Scenario, limit: u32) -> Result<Outcome, Exit>
    requires sound { IsSound scenario.now }
    requires limit { IsLimit limit }
    ensures order { IfOk result (λ made. made.order.items ≡ []) }
    ensures report { IfOk result (IsReportOf report (boot (scenario_of scenario.now)) (rounds (boot (scenario_of scenario.now)) limit) limit) }
    ensures spent { IfOk result (λ made. made.is_complete ≡ false → length (rounds (boot (scenario_of scenario.now)) limit) ≡ limit) }
    ensures memory { IfErr result (λ exit. exit ≡ Memory) }
{
    law_turns::round_robin_runs_out();
    let most = u64::from(limit);
    let kernel = booted(alloc, scenario, limit)?;
    let finished = round_robin(alloc, kernel, most)?;
    Ok(closed(alloc, finished, Vec::new(alloc))?)
}

/// Boots `scenario` and runs it over `order`, of at most `limit` turns.
pub fn run_in_order(
    alloc: Global,
    scenario: &Scenario,
    order: &Order,
    limit: u32,
) -> Result<Outcome, Exit>
    requires sound { IsSound scenario.now }
    requires limit { IsLimit limit }
    requires within { IsTrue (is_within scenario.now.cpus limit order.now.blocks) }
    ensures order { IfOk result (λ made. made.order.items ≡ []) }
    ensures report { IfOk result (IsReportOf report (boot (scenario_of scenario.now)) (turns order.now.blocks) limit) }
    ensures idle { IfErr result (IsIdleFault (boot (scenario_of scenario.now)) order.now) }
{
    let most = u64::from(limit);
    let kernel = booted(alloc, scenario, limit)?;
    let finished = run_order(alloc, kernel, order, most)?;
    Ok(closed(alloc, finished, Vec::new(alloc))?)
}

/// Boots `scenario` and runs it with a thread for each processor, for at most `limit` turns.
fn work<R: Threads + Wait + Sync, G: Gate + Sync>(
    rt: &R,
    alloc: Global,
    scenario: &Scenario,
    limit: u32,
    gate: &G,
) -> Result<Finished, Exit>
    requires sound { IsSound scenario.now }
    requires limit { IsLimit limit }
    ensures finished { IfOk result (λ run. IsFinished (boot (scenario_of scenario.now)) (turns run.order.blocks) limit run) }
    ensures out { IfOk result (λ run. IsRunOut (boot (scenario_of scenario.now)) limit (turns run.order.blocks)) }
    ensures memory { IfErr result (λ exit. exit ≡ Memory) }
{
    let most = u64::from(limit);
    let kernel = booted(alloc, scenario, limit)?;
    Ok(run_workers(rt, alloc, kernel, most, gate)?)
}

/// Boots `scenario` and runs it with a thread for each processor, for at most `limit` turns; the order of turns that this came to is to be appended.
pub fn run_together<R: Threads + Wait + Sync, G: Gate + Sync>(
    rt: &R,
    alloc: Global,
    scenario: &Scenario,
    limit: u32,
    gate: &G,
) -> Result<Outcome, Exit>
    requires sound { IsSound scenario.now }
    requires limit { IsLimit limit }
    ensures run { IfOk result (IsTogether (boot (scenario_of scenario.now)) limit) }
    ensures memory { IfErr result (λ exit. exit ≡ Memory) }
{
    let finished = work(rt, alloc, scenario, limit, gate)?;
    let _blocks = finished.order.blocks();
    Ok(recorded(alloc, finished)?)
}

/// Boots `scenario`, of one processor, and runs it with a thread for it, for at most `limit` turns. Its order is round robin.
pub fn run_alone<R: Threads + Wait + Sync, G: Gate + Sync>(
    rt: &R,
    alloc: Global,
    scenario: &Scenario,
    limit: u32,
    gate: &G,
) -> Result<Finished, Exit>
    requires sound { IsSound scenario.now }
    requires alone { IsAlone scenario.now }
    requires limit { IsLimit limit }
    ensures finished { IfOk result (λ run. IsFinished (boot (scenario_of scenario.now)) (rounds (boot (scenario_of scenario.now)) limit) limit run) }
    ensures out { IfOk result (λ run. IsRunOut (boot (scenario_of scenario.now)) limit (rounds (boot (scenario_of scenario.now)) limit)) }
    ensures memory { IfErr result (λ exit. exit ≡ Memory) }
{
    work(rt, alloc, scenario, limit, gate)
}
