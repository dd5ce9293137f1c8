ghost use Rattle.std.specs.Prelude.{◌≡◌, ◌<◌, ◌≤◌, ◌+◌, ◌++◌, ◌-◌, ◌^◌, length, min, replicate, None, Some, IfOk, IfErr, IfSome, IsTrue, OnOk, take};
ghost use Rattle.std.specs.List.{AllByRecursion};
ghost use Rattle.nova_boot.specs.Boot.{scenario_of};
ghost use Rattle.nova_model.specs.Boot.{boot};
ghost use Rattle.nova_order.specs.Blocks.{IsOrder, is_within, total, turns};
ghost use Rattle.nova_scenario.specs.Sound.{IsSound};
ghost use Rattle.nova_policy.specs.declared.exit.Exit.TheVariants.{Memory};
ghost use Rattle.nova_policy.specs.Runs.{HasRun, HasTaken, IsNotRun, IsStopped};

use crate::exit::Exit;
use nova_boot::boot;
use nova_finished::Finished;
use nova_kernel::Kernel;
use nova_order::{Block, Order};
use nova_rounds::{round_robin, run_order};
use nova_scenario::Scenario;
use std::alloc::{AllocError, Global};

/// Adds the turns of `block` to `first`, as far as that may have at most `most`.
fn add_within(first: &mut Order, block: Block, most: u64) -> Result<(), AllocError>
    requires few { total first.old.blocks ≤ most }
    ensures turns { OnOk result (turns first.new.blocks ≡ turns first.old.blocks ++ replicate (min block.count (most - total first.old.blocks)) block.cpu) }
    ensures few { OnOk result (total first.new.blocks ≤ most) }
{
    let count = block.count.min(most - first.sum());
    if count > 0 {
        first.extend(block.cpu, count)?;
    }
    Ok(())
}

/// The first turns of `order`, at most `most`.
fn first_turns(alloc: Global, order: &Order, most: u64) -> Result<Order, AllocError>
    ensures turns { IfOk result (λ first. turns first.blocks ≡ take most (turns order.now.blocks)) }
    ensures few { IfOk result (λ first. total first.blocks ≤ most) }
{
    let mut first = Order::new(alloc);
    for block in order.blocks() {
        add_within(&mut first, *block, most)?;
    }
    Ok(first)
}

/// Boots `scenario`, with room for the turns of `order`, which are of processors that are there.
pub fn boot_for(alloc: Global, scenario: &Scenario, order: &Order) -> Result<Kernel, AllocError>
    requires sound { IsSound scenario.now }
    requires there { AllByRecursion (λ cpu. cpu < (boot (scenario_of scenario.now)).cpus) (turns order.now.blocks) }
    requires few { length (turns order.now.blocks) ≤ 10000000 }
    ensures state { IfOk result (λ kernel. kernel.state ≡ boot (scenario_of scenario.now)) }
    ensures within { IfOk result (λ kernel. IsTrue (is_within kernel.state.cpus 10000000 order.now.blocks)) }
    ensures room { IfOk result (λ kernel. total order.now.blocks ≤ kernel.room) }
    ensures turns { IfOk result (λ kernel. kernel.state.turns + total order.now.blocks ≤ 2 ^ 31) }
{
    nova_order::laws::bounds_are_of_turns();
    let _blocks = order.blocks();
    let kernel = boot(alloc, scenario, order.sum())?;
    Ok(kernel)
}

/// Boots `scenario`, and runs it by round robin for at most `at` turns.
fn run_rounds(alloc: Global, scenario: &Scenario, at: u32) -> Result<Finished, Exit>
    requires sound { IsSound scenario.now }
    requires last { at ≤ 10000000 }
    ensures run { IfOk result (HasRun (boot (scenario_of scenario.now)) None at) }
    ensures memory { IfErr result (λ exit. exit ≡ Memory) }
{
    law_turns::round_robin_runs_out();
    let most = u64::from(at);
    let kernel = boot(alloc, scenario, most)?;
    Ok(round_robin(alloc, kernel, most)?)
}

/// Boots `scenario`, and runs it over an order of at most `at` turns.
fn run_first(alloc: Global, scenario: &Scenario, first: &Order, at: u32) -> Result<Finished, Exit>
    requires sound { IsSound scenario.now }
    requires last { at ≤ 10000000 }
    requires order { IsOrder first.now.blocks }
    requires within { IsTrue (is_within scenario.now.cpus at first.now.blocks) }
    ensures run { IfOk result (HasTaken (boot (scenario_of scenario.now)) (turns first.now.blocks)) }
    ensures idle { IfErr result (IsNotRun (boot (scenario_of scenario.now)) first.now.blocks) }
{
    nova_order::laws::bounds_are_of_turns();
    let most = u64::from(at);
    let kernel = boot(alloc, scenario, most)?;
    Ok(run_order(alloc, kernel, first, most)?)
}

/// Boots a scenario, and runs it over the first turns of an order, at most `at`.
pub fn run_along(
    alloc: Global,
    scenario: &Scenario,
    order: &Order,
    at: u32,
) -> Result<Finished, Exit>
    requires sound { IsSound scenario.now }
    requires last { at ≤ 10000000 }
    requires within { IsTrue (is_within scenario.now.cpus 10000000 order.now.blocks) }
    ensures run { IfOk result (HasRun (boot (scenario_of scenario.now)) (Some order.now) at) }
    ensures idle { IfErr result (IsStopped (boot (scenario_of scenario.now)) (Some order.now) at) }
{
    nova_order::laws::bounds_are_of_turns();
    let first = first_turns(alloc, order, u64::from(at))?;
    let _whole = order.blocks();
    let _part = first.blocks();
    run_first(alloc, scenario, &first, at)
}

/// Boots `scenario`, and runs it to the turn `at`, by round robin or along `order`.
pub fn run_to(
    alloc: Global,
    scenario: &Scenario,
    order: &Option<Order>,
    at: u32,
) -> Result<Finished, Exit>
    requires sound { IsSound scenario.now }
    requires last { at ≤ 10000000 }
    requires within { IfSome order.now (λ o. IsTrue (is_within scenario.now.cpus 10000000 o.blocks)) }
    ensures run { IfOk result (HasRun (boot (scenario_of scenario.now)) order.now at) }
    ensures idle { IfErr result (IsStopped (boot (scenario_of scenario.now)) order.now at) }
{
    match order {
        Some(order) => run_along(alloc, scenario, order, at),
        None => run_rounds(alloc, scenario, at),
    }
}
