// Turns of one processor in a row.
ghost use Rattle.std.specs.Prelude.{◌≡◌, ◌+◌, ◌^◌, ◌<◌, ◌≤◌, OnOk};
ghost use Rattle.nova_burst.specs.Lending.{ComesAfter, LeaseView};

use nova_kernel::Kernel;
use std::alloc::AllocError;

/// Takes `turns` turns of the processor `cpu`, after which a lease comes from where it came from.
#[tactic(auto, using(crate::proofs::Stems::one_more))]
pub fn take(kernel: &mut Kernel, cpu: u32, turns: u64) -> Result<(), AllocError>
    requires cpu { cpu < kernel.old.state.cpus }
    requires room { turns ≤ kernel.old.room }
    requires turns { kernel.old.state.turns + turns ≤ 2 ^ 31 }
    ensures cpus { OnOk result (kernel.new.state.cpus ≡ kernel.old.state.cpus) }
    ensures room { OnOk result (kernel.old.room ≤ kernel.new.room + turns) }
    ensures turns { OnOk result (kernel.new.state.turns ≤ kernel.old.state.turns + turns) }
    ensures after { OnOk result ((l : LeaseView) → ComesAfter l kernel.old.state → ComesAfter l kernel.new.state) }
{
    for _turn in 0..turns {
        kernel.turn(cpu)?;
    }
    Ok(())
}
