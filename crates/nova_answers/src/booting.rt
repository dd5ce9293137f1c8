ghost use Rattle.std.specs.Prelude.{◌≡◌, ◌≤◌, ◌+◌, ◌^◌, IfOk};
ghost use Rattle.nova_boot.specs.Boot.{scenario_of};
ghost use Rattle.nova_command.specs.Limit.{IsLimit};
ghost use Rattle.nova_model.specs.Boot.{boot};
ghost use Rattle.nova_scenario.specs.Sound.{IsSound};

use nova_boot::boot;
use nova_kernel::Kernel;
use nova_scenario::Scenario;
use std::alloc::{AllocError, Global};

/// Boots `scenario` for a run of at most `limit` turns: the log of its consoles has room for a byte a turn. The only error is that memory ran out.
pub fn booted(alloc: Global, scenario: &Scenario, limit: u32) -> Result<Kernel, AllocError>
    requires sound { IsSound scenario.now }
    requires limit { IsLimit limit }
    ensures kernel { IfOk result (λ k. k ≡ record { state = boot (scenario_of scenario.now); room = limit }) }
    ensures cpus { IfOk result (λ k. k.state.cpus ≡ scenario.now.cpus) }
    ensures turns { IfOk result (λ k. k.state.turns + limit ≤ 2 ^ 31) }
{
    boot(alloc, scenario, u64::from(limit))
}
