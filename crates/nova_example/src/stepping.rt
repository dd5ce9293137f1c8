ghost use Rattle.std.specs.Prelude.{◌≡◌, ◌+◌, ◌^◌, ◌<◌, ◌≤◌, IfOk};
ghost use Rattle.nova_example.specs.Said.{has_said, IsRunUntil};

use crate::said::has_said;
use nova_kernel::{Kernel, Turn};
use std::alloc::{AllocError, Global};

/// Takes turns of the processor `cpu` until `console` has said `word`, which is looked at before each turn: at most `most` turns, and fewer where the
/// processor is idle. The answer is whether the word was said.
pub fn run_until_said(
    alloc: Global,
    kernel: &mut Kernel,
    cpu: u32,
    console: u32,
    word: &[u8],
    most: u32,
) -> Result<bool, AllocError>
    requires cpu { cpu < kernel.old.state.cpus }
    requires room { most ≤ kernel.old.room }
    requires turns { kernel.old.state.turns + most ≤ 2 ^ 31 }
    ensures ran { IfOk result (IsRunUntil kernel.old.state kernel.new.state cpu console most word.now) }
    ensures told { IfOk result (λ said. said ≡ has_said kernel.new.state console word.now) }
{
    for _turn in 0..most {
        if has_said(alloc, kernel, console, word)? {
            return Ok(true);
        }
        if let Turn::Idle = kernel.turn(cpu)? {
            return Ok(false);
        }
    }
    has_said(alloc, kernel, console, word)
}
