ghost use Rattle.std.specs.Prelude.{◌≡◌};
ghost use Rattle.vectors_runs.specs.Run.{run};

use crate::memory::Memory;
use rv_core::{Outcome, Regs, step};

/// Runs instructions until one raises, and gives the raise, or `Next` where none of `steps` did.
pub fn run(regs: &mut Regs, memory: &mut Memory, steps: u32) -> Outcome
    ensures { record { outcome = result; registers = regs.new; bytes = memory.new } ≡ run steps regs.old memory.old }
{
    for _step in 0..steps {
        match step(regs, memory) {
            Outcome::Next => {}
            raise => return raise,
        }
    }
    Outcome::Next
}
