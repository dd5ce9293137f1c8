// Sources that are added by calls, and what is told of them.
ghost use Rattle.std.specs.Prelude.{◌≡◌, ◌+◌, ◌*◌, ◌^◌, ◌<◌};

use crate::machines::{ROOT, lay};
use nova_kernel::{Alarm, Kernel};
use nova_tests_bursts::drops::let_go;
use std::alloc::Global;
use std::process::Abort;

/// A machine of two processors, whose root dies in its second turn.
fn bare(rt: &impl Abort, alloc: Global) -> Kernel
    ensures cpus { result.state.cpus ≡ 2 }
    ensures room { result.room ≡ 8 }
    ensures turns { result.state.turns ≡ 0 }
{
    let mut kernel = Kernel::new(alloc, 2, 0, 0, ROOT, 8).expect(rt, "ample memory");
    lay(&mut kernel, 0, &[0x0010_0073]); // ebreak
    kernel
}

/// Adds a source, and answers its number.
fn add(rt: &impl Abort, kernel: &mut Kernel, cpu: u32, first: u64, period: u64, count: u64) -> u32
    requires cpus { kernel.old.state.cpus ≡ 2 }
    requires turns { kernel.old.state.turns ≡ 0 }
    requires cpu { cpu < 2 }
    requires period { 0 < period }
    requires count { 0 < count }
    requires last { first + count * period < 2 ^ 64 }
    ensures cpus { kernel.new.state.cpus ≡ 2 }
    ensures room { kernel.new.room ≡ kernel.old.room }
    ensures turns { kernel.new.state.turns ≡ 0 }
{
    assert!(rt; kernel.objects().len() < 100);
    kernel
        .add_source(cpu, first, period, count)
        .expect(rt, "ample memory")
}

/// Adds a source that fires in both turns of the second processor, and two of the first, of which one ends beyond 2^60; and answers
/// their numbers.
fn add_all(rt: &impl Abort, kernel: &mut Kernel) -> [u32; 3]
    requires cpus { kernel.old.state.cpus ≡ 2 }
    requires turns { kernel.old.state.turns ≡ 0 }
    ensures cpus { kernel.new.state.cpus ≡ 2 }
    ensures room { kernel.new.room ≡ kernel.old.room }
    ensures turns { kernel.new.state.turns ≡ 0 }
{
    [
        add(rt, kernel, 1, 0, 1, 2),
        add(rt, kernel, 0, 5, 1, 1),
        add(rt, kernel, 0, 7, 1 << 40, 1 << 20),
    ]
}

/// A source as its numbers.
fn numbers(alarm: &Alarm) -> (u32, u32, u64, u64, u64) {
    (alarm.cpu, alarm.sm, alarm.first, alarm.period, alarm.count)
}

/// The sources of a machine that has three.
fn sources(rt: &impl Abort, kernel: &Kernel) -> [(u32, u32, u64, u64, u64); 3] {
    let [first, second, third] = kernel.sources() else {
        panic!(rt; "three sources");
    };
    [numbers(first), numbers(second), numbers(third)]
}

/// How many turns are left on both processors until something is due.
fn until(kernel: &Kernel) -> [Option<u64>; 2] {
    [kernel.until_due(0), kernel.until_due(1)]
}

/// The three sources.
static SOURCES: [(u32, u32, u64, u64, u64); 3] = [
    (1, 3, 0, 1, 2),
    (0, 4, 5, 1, 1),
    (0, 5, 7, 1 << 40, 1 << 20),
];

/// Whether the three sources are told as they were added.
fn are_told(rt: &impl Abort, kernel: &mut Kernel) -> bool
    requires cpus { kernel.old.state.cpus ≡ 2 }
    requires turns { kernel.old.state.turns ≡ 0 }
{
    let added = add_all(rt, kernel);
    added == [3, 4, 5] && sources(rt, kernel) == SOURCES && until(kernel) == [Some(5), Some(0)]
}

#[test]
fn added_sources_are_told(rt: HostRuntime) {
    let mut kernel = bare(&rt, rt.alloc());
    let are_told = are_told(&rt, &mut kernel);
    let_go(kernel);
    assert!(rt; are_told);
}
