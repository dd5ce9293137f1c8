// Runs with more workers than the host may have processors.
ghost use Rattle.std.specs.Prelude.{◌≡◌};

use crate::machines::{ROOT, lay};
use crate::runs::{Told, is_same, tell};
use nova_kernel::Kernel;
use nova_run::{Open, Order, run_order, run_workers};
use nova_tests_bursts::drops::let_go;
use std::alloc::Global;
use std::process::Abort;
use std::sync::Wait;
use std::thread::Threads;

/// What the root executes: for each of seven more processors it makes a thread, and a handler of that thread's startup exit, which loops; and then it
/// loops itself.
static WORDS: [u32; 27] = [
    0x0010_0293, // addi x5, x0, 1: the processor
    0x0200_0313, // addi x6, x0, 32: selectors from here on
    0x0030_0893, // addi x17, x0, 3: create_ec
    0x0003_0513, // addi x10, x6, 0
    0x0002_8613, // addi x12, x5, 0
    0x0000_0073, // ecall: a local thread, the handler
    0x0050_0893, // addi x17, x0, 5: create_pt
    0x0043_0513, // addi x10, x6, 4
    0x0003_0613, // addi x12, x6, 0
    0x0000_0693, // addi x13, x0, 0
    0x0680_0713, // addi x14, x0, 104
    0x0000_0073, // ecall: the portal of startup exits, at which the handler begins with the loop
    0x0030_0893, // addi x17, x0, 3: create_ec
    0x0013_0513, // addi x10, x6, 1
    0x1002_8613, // addi x12, x5, 0x100
    0x0043_0713, // addi x14, x6, 4
    0x0000_0073, // ecall: a global thread, whose exits go to selectors from x14 on
    0x0040_0893, // addi x17, x0, 4: create_sc
    0x0023_0513, // addi x10, x6, 2
    0x0013_0613, // addi x12, x6, 1
    0x5010_0693, // addi x13, x0, 0x501: quantum 5, priority 1
    0x0000_0073, // ecall: its scheduling context
    0x0083_0313, // addi x6, x6, 8
    0x0012_8293, // addi x5, x5, 1
    0x0082_f393, // andi x7, x5, 8
    0xfa03_82e3, // beq x7, x0, -92: until there are eight
    0x0000_006f, // jal x0, 0: the loop
];

/// A machine of eight processors, each of which comes to an endless loop.
fn booted(rt: &impl Abort, alloc: Global) -> Kernel
    ensures cpus { result.state.cpus ≡ 8 }
    ensures room { result.room ≡ 20000 }
    ensures turns { result.state.turns ≡ 0 }
{
    let mut kernel = Kernel::new(alloc, 8, 0, 0, ROOT, 20_000).expect(rt, "ample memory");
    lay(&mut kernel, 0, &WORDS);
    kernel
}

/// What that machine's run by workers comes to.
fn work<R: Abort + Threads + Wait + Sync>(rt: &R, alloc: Global) -> Told {
    let kernel = booted(rt, alloc);
    let run = run_workers(rt, alloc, kernel, 20_000, &Open).expect(rt, "ample memory");
    tell(rt, run)
}

/// What its run by one thread comes to, along an order.
fn take(rt: &impl Abort, alloc: Global, text: &[u8]) -> Told {
    let order = Order::read(alloc, text, 8, 20_000).expect(rt, "an order");
    let kernel = booted(rt, alloc);
    let run = run_order(alloc, kernel, &order, 20_000).expect(rt, "no idle turn");
    let_go(order);
    tell(rt, run)
}

#[test]
fn eight_workers_come_to_an_end(rt: HostRuntime) {
    let run = work(&rt, rt.alloc());
    let again = take(&rt, rt.alloc(), &run.order);
    let is_so = run.turns == 20_000 && !run.is_quiet && is_same(&run, &again);
    assert!(rt; is_so);
}
