// The machine of a scenario, the root of a machine, and what tests lay into its RAM.
ghost use Rattle.std.specs.Prelude.{◌≡◌, ◌+◌, ◌*◌, ◌≤◌, length};

use nova_boot::boot;
use nova_kernel::{Kernel, Root};
use nova_scenario::read;
use nova_tests_bursts::drops::let_go;
use std::alloc::Global;
use std::process::Abort;

/// A root thread at pc 0.
pub const ROOT: Root = Root {
    pc: 0,
    sp: 0,
    priority: 1,
    quantum: 10,
};

/// Lays `words` into RAM one after another from `address` on, where no turn was taken.
pub fn lay(kernel: &mut Kernel, address: u32, words: &[u32])
    requires ram { length kernel.old.state.memory.ram ≤ 2 }
    requires turns { kernel.old.state.turns ≡ 0 }
    requires place { address + 4 * length words.now ≤ 4096 * length kernel.old.state.memory.ram }
    ensures ram { length kernel.new.state.memory.ram ≡ length kernel.old.state.memory.ram }
    ensures cpus { kernel.new.state.cpus ≡ kernel.old.state.cpus }
    ensures room { kernel.new.room ≡ kernel.old.room }
    ensures turns { kernel.new.state.turns ≡ kernel.old.state.turns }
{
    for (i, word) in words.iter().enumerate() {
        kernel.put(address + 4 * i as u32, &word.to_le_bytes());
    }
}

/// The machine of the scenario `text` as it boots, with room for 200 turns.
pub fn booted(rt: &impl Abort, alloc: Global, text: &str) -> Kernel
    ensures room { result.room ≡ 200 }
    ensures turns { result.state.turns ≡ 0 }
{
    let scenario = read(alloc, text.as_bytes()).expect(rt, "a scenario");
    let kernel = boot(alloc, &scenario, 200).expect(rt, "ample memory");
    let_go(scenario);
    assert!(rt; kernel.turns() == 0);
    kernel
}
