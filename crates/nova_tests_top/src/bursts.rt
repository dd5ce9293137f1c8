// Workers that take several turns of a guest at once.
use crate::rows::{call_through, file};
use nova_io::{MemDepot, MemSink};
use nova_top::{Exit, Gate};
use std::alloc::Global;
use std::process::Abort;
use std::sync::Wait;
use std::sync::atomic::{AtomicU64, Ordering};
use std::thread::Threads;

/// A guest and its monitor on the first of two processors. The guest is told where it begins and is given a page, on which it loops from the 58th turn on,
/// with most of its quantum of 1,000 left.
static LOOPING: &str =
    "cpus 2\nram 2\nconsoles 1\nroot 0 0 1 10\nimage 0 asm\naddi x17, x0, 3\naddi x10, x0, 32\naddi x14, x0, 48\necall\naddi x17, x0, 5\naddi x10, x0, 64\naddi x12, x0, 32\naddi x14, x0, 0x100\necall\naddi x10, x0, 66\naddi x14, x0, 0x140\necall\naddi x10, x0, 70\naddi x13, x0, 6\naddi x14, x0, 0x180\necall\naddi x17, x0, 2\naddi x10, x0, 33\nlui x12, 0x40\naddi x12, x12, 531\necall\naddi x17, x0, 3\naddi x10, x0, 34\naddi x11, x0, 33\naddi x12, x0, 512\naddi x13, x0, 0\naddi x14, x0, 64\necall\naddi x17, x0, 4\naddi x10, x0, 35\naddi x12, x0, 34\nlui x13, 0x3f\naddi x13, x13, -2046\necall\nebreak\nend\nimage 0x100 asm\nlui x5, 0xfffff\naddi x6, x0, 2\nsw x6, 16(x5)\naddi x17, x0, 1\necall\nend\nimage 0x140 asm\nlui x6, 16\nsw x6, 0(x5)\nlui x6, 1\naddi x6, x6, 29\nsw x6, 504(x5)\naddi x6, x0, 1\nsw x6, 508(x5)\necall\nend\nimage 0x180 asm\nlui x7, 4\nlw x6, 72(x5)\nsb x6, 0(x7)\nlw x6, 28(x5)\naddi x6, x6, 4\nsw x6, 28(x5)\naddi x6, x0, 2\nsw x6, 16(x5)\necall\nend\nimage 0x1000 asm\njal x0, 0\nend\n";

/// A gate that notes before which steps it was called, by the turns of processor 0 that were taken.
#[derive(Drop)]
struct Noting {
    fifty_six: AtomicU64,
    fifty_seven: AtomicU64,
    fifty_eight: AtomicU64,
    one_hundred: AtomicU64,
}

impl Gate for Noting {
    fn at(&self, cpu: u32, turn: u64) {
        let noted = match (cpu, turn) {
            (0, 56) => &self.fifty_six,
            (0, 57) => &self.fifty_seven,
            (0, 58) => &self.fifty_eight,
            (0, 100) => &self.one_hundred,
            _ => return,
        };
        noted.store(1, Ordering::SeqCst);
    }
}

/// Before which of these steps it was called.
fn noted(gate: &Noting) -> [u64; 4] {
    [
        gate.fifty_six.load(Ordering::SeqCst),
        gate.fifty_seven.load(Ordering::SeqCst),
        gate.fifty_eight.load(Ordering::SeqCst),
        gate.one_hundred.load(Ordering::SeqCst),
    ]
}

/// A run of at most 200 turns, with a gate: its end, and whether its order is all turns of processor 0.
fn run<R: Abort + Threads + Wait + Sync>(rt: &R, alloc: Global, gate: &Noting) -> (Exit, bool) {
    let mut files = Vec::with_capacity(alloc, 2).expect(rt, "ample memory");
    files.push_reserved(file(rt, alloc, "scenario", LOOPING, 0));
    files.push_reserved(file(rt, alloc, "order", "", 64));
    let mut depot = MemDepot::new(alloc, files, Vec::new(alloc), Vec::new(alloc)).expect(
        rt,
        "ample memory",
    );
    let mut out = MemSink::new(alloc, 4096, Vec::new(alloc)).expect(rt, "ample memory");
    let words = "run scenario order --limit 200";
    let exit = call_through(rt, alloc, words, &mut depot, &mut out, gate);
    (exit, depot.bytes("order") == Some(b"0 200\n"))
}

#[test]
fn a_burst_of_a_guest_is_one_step_of_its_worker(rt: HostRuntime) {
    let gate = Noting {
        fifty_six: AtomicU64::new(0),
        fifty_seven: AtomicU64::new(0),
        fifty_eight: AtomicU64::new(0),
        one_hundred: AtomicU64::new(0),
    };
    let end = run(&rt, rt.alloc(), &gate);
    assert!(rt; end == (Exit::Limit, true));
    assert!(rt; noted(&gate) == [1, 1, 0, 0]);
}
