ghost use Rattle.std.specs.Prelude.{◌≡◌, Ok, IfOk, IfErr};
ghost use Rattle.nova_command.specs.Limit.{IsSize};
ghost use Rattle.nova_gen.specs.Generated.{generated};
ghost use Rattle.nova_scenario.specs.Scenario.{scenario};
ghost use Rattle.nova_scenario.specs.Sound.{IsSound};
ghost use Rattle.nova_answers.specs.Prepared.{IsAlone};
ghost use Rattle.nova_answers.specs.declared.exit.Exit.TheVariants.{Memory};

use crate::exit::Exit;
use nova_gen::generate;
use nova_scenario::{Scenario, ScenarioFault, read};
use std::alloc::Global;

/// The scenario of the bench `number`.
pub fn bench_scenario(alloc: Global, number: u32) -> Result<Scenario, Exit>
    requires size { IsSize number }
    ensures valid { IfOk result (λ from. scenario (generated number) ≡ Ok from) }
    ensures sound { IfOk result IsSound }
    ensures alone { IfOk result IsAlone }
    ensures memory { IfErr result (λ exit. exit ≡ Memory) }
{
    law_bench::a_bench_is_a_scenario();
    let text = generate(alloc, number)?;
    match read(alloc, &text) {
        Ok(scenario) => Ok(scenario),
        Err(ScenarioFault::Memory) => Err(Exit::Memory),
        Err(ScenarioFault::At { .. }) => unreachable!("a bench is a scenario"),
    }
}
