ghost use Rattle.std.specs.Prelude.{◌≡◌, ◌<◌, ◌≤◌, IfOk, IfSome, IsTrue, length, take, true};
ghost use Rattle.std.specs.List.{AllByRecursion};
ghost use Rattle.nova_boot.specs.Boot.{scenario_of};
ghost use Rattle.nova_model.specs.Boot.{boot};
ghost use Rattle.nova_order.specs.Blocks.{is_within, turns};
ghost use Rattle.nova_scenario.specs.Sound.{IsSound};
ghost use Rattle.nova_policy.specs.Flows.{HasLines};
ghost use Rattle.nova_policy.specs.Runs.{HasTaken, IsAnsweredOn, IsDecided, IsDecidedOn, IsNamedBy, IsToldBefore, IsToldFlowing};
ghost use Rattle.nova_watching.specs.Worked.{AreLapses};

use crate::exit::Exit;
use crate::flows::flows_of;
use crate::request::Span;
use crate::running::{boot_for, run_along, run_to};
use nova_finished::Finished;
use nova_flowing::Lapse;
use nova_judging::{Told, first_stranger};
use nova_kernel::{Kernel, let_go};
use nova_naming::Policy;
use nova_order::Order;
use nova_scenario::Scenario;
use nova_watching::{lapses_of, told_of, watch};
use std::alloc::{AllocError, Global};

/// The last turn of a run.
const LAST_TURN: u32 = 10_000_000;

/// Whether each number that a policy names is of a domain, or of a semaphore, as it is to be.
fn check_names(policy: &Option<Policy>, kernel: &Kernel) -> Result<(), Exit>
    ensures { IsNamedBy policy.now kernel.now.state result }
{
    let Some(policy) = policy else {
        return Ok(());
    };
    match first_stranger(policy, kernel) {
        Some(stranger) => Err(Exit::Misnamed {
            line: stranger.line,
            expected: stranger.expected,
            number: stranger.number,
        }),
        None => Ok(()),
    }
}

/// What is told of the first state before a turn of `order` in which the sides aren't isolated, of those after at least `from` turns.
fn told_before(
    alloc: Global,
    scenario: &Scenario,
    order: &Order,
    policy: &Option<Policy>,
    from: u64,
) -> Result<Option<Told>, AllocError>
    requires sound { IsSound scenario.now }
    requires there { AllByRecursion (λ cpu. cpu < (boot (scenario_of scenario.now)).cpus) (turns order.now.blocks) }
    requires few { length (turns order.now.blocks) ≤ 10000000 }
    ensures { IfOk result (IsToldBefore (boot (scenario_of scenario.now)) (turns order.now.blocks) policy.now from) }
{
    if order.sum() <= from {
        return Ok(None);
    }
    let mut kernel = boot_for(alloc, scenario, order)?;
    let found = watch(alloc, &mut kernel, order, policy, from);
    let_go(kernel);
    found
}

/// What is told of the first state of `run` in which the sides aren't isolated, of those after at least `from` turns, or else of the last.
fn told_on(
    alloc: Global,
    scenario: &Scenario,
    run: &Finished,
    policy: &Option<Policy>,
    from: u64,
) -> Result<Told, Exit>
    requires sound { IsSound scenario.now }
    requires run { HasTaken (boot (scenario_of scenario.now)) (turns run.now.order.blocks) run.now }
    ensures { IsDecidedOn (boot (scenario_of scenario.now)) (turns run.now.order.blocks) policy.now from result }
{
    check_names(policy, &run.kernel)?;
    match told_before(alloc, scenario, &run.order, policy, from)? {
        Some(told) => Ok(told),
        None => Ok(told_of(alloc, policy, &run.kernel)?),
    }
}

/// `told`, with `lines` after it.
fn with_lines(told: Told, lines: &str) -> Result<Told, AllocError>
    ensures { IfOk result (HasLines told lines.now) }
{
    let mut told = told;
    told.text.push_str(lines)?;
    Ok(told)
}

/// The state of a run after its first turns, at most so many. These were taken before, so that none is idle.
fn run_part(
    alloc: Global,
    scenario: &Scenario,
    order: &Order,
    at: u32,
) -> Result<Finished, AllocError>
    requires sound { IsSound scenario.now }
    requires there { AllByRecursion (λ cpu. cpu < (boot (scenario_of scenario.now)).cpus) (turns order.now.blocks) }
    requires few { length (turns order.now.blocks) ≤ 10000000 }
    ensures { IfOk result (HasTaken (boot (scenario_of scenario.now)) (take at (turns order.now.blocks))) }
{
    if at > LAST_TURN {
        return Err(AllocError);
    }
    nova_order::laws::bounds_are_of_turns();
    let _blocks = order.blocks();
    match run_along(alloc, scenario, order, at) {
        Ok(run) => Ok(run),
        Err(_) => Err(AllocError),
    }
}

/// In which turns of an order, after so many, execution contexts create, give beside a revoke, or revoke.
fn lapses_after(
    alloc: Global,
    scenario: &Scenario,
    order: &Order,
    from: u64,
) -> Result<Vec<Lapse>, AllocError>
    requires sound { IsSound scenario.now }
    requires there { AllByRecursion (λ cpu. cpu < (boot (scenario_of scenario.now)).cpus) (turns order.now.blocks) }
    requires few { length (turns order.now.blocks) ≤ 10000000 }
    ensures { IfOk result (λ lapses. AreLapses from (boot (scenario_of scenario.now)) (turns order.now.blocks) lapses.items) }
{
    let mut kernel = boot_for(alloc, scenario, order)?;
    let found = lapses_of(alloc, &mut kernel, order, from);
    let_go(kernel);
    found
}

/// What is told of the last state of a run, with its flows.
fn told_flowing(
    alloc: Global,
    scenario: &Scenario,
    run: &Finished,
    policy: &Option<Policy>,
    from: u64,
    lapses: &[Lapse],
) -> Result<Told, Exit>
    requires sound { IsSound scenario.now }
    requires run { HasTaken (boot (scenario_of scenario.now)) (turns run.now.order.blocks) run.now }
    ensures { IsToldFlowing (boot (scenario_of scenario.now)) (turns run.now.order.blocks) policy.now from lapses.now result }
{
    let told = told_on(alloc, scenario, run, policy, from)?;
    let lines = flows_of(alloc, policy, &run.kernel, lapses)?;
    Ok(with_lines(told, &lines)?)
}

/// What is told of the state after the first turns of a run, with its flows, and until which of the others sides are at work.
fn told_part(
    alloc: Global,
    scenario: &Scenario,
    run: &Finished,
    policy: &Option<Policy>,
    from: u32,
) -> Result<Told, Exit>
    requires sound { IsSound scenario.now }
    requires run { HasTaken (boot (scenario_of scenario.now)) (turns run.now.order.blocks) run.now }
    ensures { IsAnsweredOn (boot (scenario_of scenario.now)) (turns run.now.order.blocks) policy.now from true result }
{
    nova_flowing::laws::sides_may_revoke_what_they_keep();
    let first = u64::from(from);
    let lapses = lapses_after(alloc, scenario, &run.order, first)?;
    let part = run_part(alloc, scenario, &run.order, from)?;
    let told = told_flowing(alloc, scenario, &part, policy, first, &lapses);
    part.let_go();
    told
}

/// What is told of the last state, or with the flows of the first.
fn told_with(
    alloc: Global,
    scenario: &Scenario,
    run: &Finished,
    policy: &Option<Policy>,
    from: u32,
    flow: bool,
) -> Result<Told, Exit>
    requires sound { IsSound scenario.now }
    requires run { HasTaken (boot (scenario_of scenario.now)) (turns run.now.order.blocks) run.now }
    ensures { IsAnsweredOn (boot (scenario_of scenario.now)) (turns run.now.order.blocks) policy.now from flow result }
{
    if flow {
        told_part(alloc, scenario, run, policy, from)
    } else {
        told_on(alloc, scenario, run, policy, u64::from(from))
    }
}

/// What the sides of a policy are in the first state of a span of a scenario's run in which they aren't isolated, or else in the last; or where flows
/// are asked for what they are in its first, with these, and until when they are at work.
pub fn decide(
    alloc: Global,
    scenario: &Scenario,
    order: &Option<Order>,
    policy: &Option<Policy>,
    span: Span,
    flow: bool,
) -> Result<Told, Exit>
    requires sound { IsSound scenario.now }
    requires last { span.until ≤ 10000000 }
    requires within { IfSome order.now (λ o. IsTrue (is_within scenario.now.cpus 10000000 o.blocks)) }
    ensures { IsDecided (boot (scenario_of scenario.now)) order.now policy.now span flow result }
{
    let run = run_to(alloc, scenario, order, span.until)?;
    let told = told_with(alloc, scenario, &run, policy, span.from, flow);
    run.let_go();
    told
}
