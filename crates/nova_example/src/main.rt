//! A program that is built on the kernel: it steps a machine until its console has said a word.
#![tactic(auto)]

ghost use Rattle.std.specs.Prelude.{◌+◌, ◌^◌, ◌<◌, ◌≤◌};
ghost use Rattle.nova_scenario.specs.Sound.{IsSound};

mod said;
mod stepping;

use nova_boot::boot;
use nova_kernel::Kernel;
use nova_scenario::{Scenario, read};
use std::io;
use stepping::run_until_said;

/// A machine whose root stores two letters to its console, and a line feed behind each.
const MACHINE: &str = "cpus 1
ram 0
consoles 1
root 0 0 1 10
image 0 asm
  lui x5, 1
  addi x7, x0, 10
  addi x6, x0, 72
  sb x6, 0(x5)
  addi x6, x0, 105
  sb x6, 0(x5)
  sb x7, 0(x5)
again: jal x0, again
end
";

/// How many turns the machine may take.
const TURNS: u32 = 1_000;

/// Steps the machine `kernel` until it has said its word, and tells how that went.
fn tell(rt: HostRuntime, kernel: &mut Kernel, most: u32) -> io::Result<()>
    requires cpu { 0 < kernel.old.state.cpus }
    requires room { most ≤ kernel.old.room }
    requires turns { kernel.old.state.turns + most ≤ 2 ^ 31 }
{
    let said = run_until_said(rt.alloc(), kernel, 0, 0, b"Hi", most)?;
    println!(rt; "said: {said}, after {} turns", kernel.turns())
}

/// Boots the machine of `scenario`, and steps it.
fn run(rt: HostRuntime, scenario: &Scenario) -> io::Result<()>
    requires { IsSound scenario.now }
{
    let mut kernel = boot(rt.alloc(), scenario, u64::from(TURNS))?;
    tell(rt, &mut kernel, TURNS)
}

fn main(rt: HostRuntime) -> io::Result<()> {
    match read(rt.alloc(), MACHINE.as_bytes()) {
        Ok(scenario) => run(rt, &scenario),
        Err(_) => println!(rt; "the machine is no scenario"),
    }
}
