// Runs with a thread for each processor.
ghost use Rattle.std.specs.Prelude.{◌≡◌, ◌^◌, ◌≤◌};

use crate::machines::{ROOT, lay};
use crate::runs::{Told, is_same, tell};
use nova_kernel::Kernel;
use nova_run::{Gate, Open, Order, run_order, run_workers};
use nova_tests_bursts::drops::let_go;
use std::alloc::Global;
use std::process::Abort;
use std::sync::Wait;
use std::sync::atomic::{AtomicU64, Ordering};
use std::thread::Threads;

/// What the root executes: it makes a thread on processor 1, and a handler of that thread's startup exit, which loops; and then it loops itself.
static WORDS: [u32; 20] = [
    0x0030_0893, // addi x17, x0, 3: create_ec
    0x0200_0513, // addi x10, x0, 32
    0x0010_0613, // addi x12, x0, 1
    0x0000_0073, // ecall: object 3, a local thread on processor 1, the handler
    0x0050_0893, // addi x17, x0, 5: create_pt
    0x0400_0513, // addi x10, x0, 64
    0x0200_0613, // addi x12, x0, 32
    0x04c0_0713, // addi x14, x0, 76
    0x0000_0073, // ecall: object 4, the portal of startup exits, at which the handler begins with the loop
    0x0030_0893, // addi x17, x0, 3: create_ec
    0x0210_0513, // addi x10, x0, 33
    0x1010_0613, // addi x12, x0, 0x101
    0x0400_0713, // addi x14, x0, 64
    0x0000_0073, // ecall: object 5, a global thread on processor 1, whose exits go to selectors from 64 on
    0x0040_0893, // addi x17, x0, 4: create_sc
    0x0220_0513, // addi x10, x0, 34
    0x0210_0613, // addi x12, x0, 33
    0x5010_0693, // addi x13, x0, 0x501: quantum 5, priority 1
    0x0000_0073, // ecall: object 6, its scheduling context
    0x0000_006f, // jal x0, 0: the loop
];

/// A machine of two processors, each of which comes to an endless loop.
fn booted(rt: &impl Abort, alloc: Global, limit: u64) -> Kernel
    ensures cpus { result.state.cpus ≡ 2 }
    ensures room { result.room ≡ limit }
    ensures turns { result.state.turns ≡ 0 }
{
    let mut kernel = Kernel::new(alloc, 2, 0, 0, ROOT, limit).expect(rt, "ample memory");
    lay(&mut kernel, 0, &WORDS);
    kernel
}

/// What that machine's run by workers comes to.
fn work<R: Abort + Threads + Wait + Sync, G: Gate + Sync>(
    rt: &R,
    alloc: Global,
    limit: u64,
    gate: &G,
) -> Told
    requires { limit ≤ 2 ^ 31 }
{
    let kernel = booted(rt, alloc, limit);
    let run = run_workers(rt, alloc, kernel, limit, gate).expect(rt, "ample memory");
    tell(rt, run)
}

/// What its run by one thread comes to, along an order of at most 5,000 turns.
fn take(rt: &impl Abort, alloc: Global, text: &[u8]) -> Told {
    let order = Order::read(alloc, text, 2, 5_000).expect(rt, "an order");
    let kernel = booted(rt, alloc, 5_000);
    let run = run_order(alloc, kernel, &order, 5_000).expect(rt, "no idle turn");
    let_go(order);
    tell(rt, run)
}

/// A gate that holds the first call for each of two processors until one for the other came, or for 2^28 looks.
#[derive(Drop)]
struct Meeting {
    first: AtomicU64,
    second: AtomicU64,
    missed: AtomicU64,
}

/// Holds the first call of one processor.
fn hold(own: &AtomicU64, other: &AtomicU64, missed: &AtomicU64) {
    if own.swap(1, Ordering::SeqCst) != 0 {
        return;
    }
    for _ in 0..1u64 << 28 {
        if other.load(Ordering::SeqCst) != 0 {
            return;
        }
    }
    missed.store(1, Ordering::SeqCst);
}

impl Gate for Meeting {
    fn at(&self, cpu: u32, _turn: u64) {
        if cpu == 0 {
            hold(&self.first, &self.second, &self.missed);
        } else {
            hold(&self.second, &self.first, &self.missed);
        }
    }
}

#[test]
fn workers_run_beside_each_other(rt: HostRuntime) {
    let gate = Meeting {
        first: AtomicU64::new(0),
        second: AtomicU64::new(0),
        missed: AtomicU64::new(0),
    };
    let run = work(&rt, rt.alloc(), 20_000, &gate);
    let first = gate.first.load(Ordering::SeqCst);
    let second = gate.second.load(Ordering::SeqCst);
    let missed = gate.missed.load(Ordering::SeqCst);
    let told = (first, second, missed, run.turns, run.is_quiet);
    assert!(rt; told == (1, 1, 0, 20_000, false));
}

#[test]
fn one_thread_takes_the_same_turns_again(rt: HostRuntime) {
    let run = work(&rt, rt.alloc(), 5_000, &Open);
    let again = take(&rt, rt.alloc(), &run.order);
    let is_so = is_same(&run, &again);
    assert!(rt; is_so);
}

/// How often the worker of an idle processor has to have looked while another has something to do.
const AGAIN: u64 = 16;

/// A gate that holds the third call for processor 0 until `AGAIN` calls for processor 1 came, or for 2^28 looks.
#[derive(Drop)]
struct Awaiting {
    steps: AtomicU64,
    looks: AtomicU64,
    missed: AtomicU64,
}

/// Waits for `AGAIN` looks, or notes that they didn't come.
fn await_looks(looks: &AtomicU64, missed: &AtomicU64) {
    for _ in 0..1u64 << 28 {
        if looks.load(Ordering::SeqCst) >= AGAIN {
            return;
        }
    }
    missed.store(1, Ordering::SeqCst);
}

impl Gate for Awaiting {
    fn at(&self, cpu: u32, _turn: u64) {
        if cpu == 1 {
            self.looks.fetch_add(1, Ordering::SeqCst);
        } else if self.steps.fetch_add(1, Ordering::SeqCst) == 2 {
            await_looks(&self.looks, &self.missed);
        }
    }
}

#[test]
fn an_idle_worker_looks_again_while_another_has_something_to_do(rt: HostRuntime) {
    let gate = Awaiting {
        steps: AtomicU64::new(0),
        looks: AtomicU64::new(0),
        missed: AtomicU64::new(0),
    };
    let run = work(&rt, rt.alloc(), 5_000, &gate);
    let missed = gate.missed.load(Ordering::SeqCst);
    let told = (missed, run.turns, run.is_quiet);
    assert!(rt; told == (0, 5_000, false));
}
