//! The text of a bench is a scenario, whatever its number is.
#![tactic(auto)]

ghost use Rattle.std.specs.Prelude.{◌≡◌, ℕ, ◌<◌, ◌^◌, Ok};
ghost use Rattle.nova_gen.specs.Generated.{generated};
ghost use Rattle.nova_scenario.specs.Scenario.{scenario};
ghost use Rattle.nova_scenario.specs.declared.scenario.Scenario.{Scenario};

/// The text of a bench is a valid scenario of one processor, whatever its number is below 2^32. The function does nothing: its contract is
/// the law.
pub fn a_bench_is_a_scenario()
    ensures { (number : ℕ) → number < 2 ^ 32 → (from : Scenario) × (scenario (generated number) ≡ Ok from) × (from.cpus ≡ 1) }
{}
