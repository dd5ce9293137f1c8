ghost use Rattle.std.specs.Prelude.{◌≡◌, ℕ, ◌^◌, ◌≤◌, ◌<◌, IfOk, IfErr, IsTrue, Err};
ghost use Rattle.nova_boot.specs.Boot.{scenario_of};
ghost use Rattle.nova_model.specs.Boot.{boot};
ghost use Rattle.nova_model.specs.Runs.{rounds, trace};
ghost use Rattle.nova_order.specs.Blocks.{turns, is_within};
ghost use Rattle.nova_recording.specs.Recordings.{order_of};
ghost use Rattle.nova_scenario.specs.Sound.{IsSound};
ghost use Rattle.nova_finished.specs.Finished.{IsIdleLine};
ghost use Rattle.nova_finished.specs.declared.fault.RunFault.TheVariants.{Memory, OrderIdle};

use nova_boot::boot;
use nova_order::Order;
use nova_recording::Recording;
use nova_run::{RunFault, round_robin, run_order};
use nova_scenario::Scenario;
use std::alloc::Global;

/// Makes the run of `scenario` by round robin, of at most `limit` turns.
pub fn run_rounds(alloc: Global, scenario: &Scenario, limit: u32) -> Result<Recording, RunFault>
    requires sound { IsSound scenario.now }
    requires limit { limit ≤ 2 ^ 31 }
    ensures opening { IfOk result (λ r. r.opening ≡ boot (scenario_of scenario.now)) }
    ensures events { IfOk result (λ r. r.events ≡ trace (boot (scenario_of scenario.now)) (rounds (boot (scenario_of scenario.now)) limit)) }
    ensures order { IfOk result (λ r. order_of r.events ≡ rounds (boot (scenario_of scenario.now)) limit) }
    ensures turn { IfOk result (λ r. r.turn ≡ 0) }
    ensures memory { IfErr result (λ fault. fault ≡ Memory) }
{
    law_turns::round_robin_runs_out();
    law_turns::a_trace_has_an_event_a_turn();
    let most = u64::from(limit);
    let kernel = boot(alloc, scenario, most)?;
    let run = round_robin(alloc, kernel, most)?;
    Ok(Recording::new(alloc, run)?)
}

/// Makes the run of `scenario` along `order`, of at most `limit` turns.
pub fn run_along(
    alloc: Global,
    scenario: &Scenario,
    order: &Order,
    limit: u32,
) -> Result<Recording, RunFault>
    requires sound { IsSound scenario.now }
    requires limit { limit ≤ 2 ^ 31 }
    requires within { IsTrue (is_within scenario.now.cpus limit order.now.blocks) }
    ensures opening { IfOk result (λ r. r.opening ≡ boot (scenario_of scenario.now)) }
    ensures events { IfOk result (λ r. r.events ≡ trace (boot (scenario_of scenario.now)) (turns order.now.blocks)) }
    ensures order { IfOk result (λ r. order_of r.events ≡ turns order.now.blocks) }
    ensures turn { IfOk result (λ r. r.turn ≡ 0) }
    ensures idle { (line : ℕ) → result ≡ Err (OrderIdle line) → IsIdleLine (boot (scenario_of scenario.now)) order.now.blocks line }
{
    law_turns::a_trace_has_an_event_a_turn();
    let most = u64::from(limit);
    let kernel = boot(alloc, scenario, most)?;
    let run = run_order(alloc, kernel, order, most)?;
    Ok(Recording::new(alloc, run)?)
}
