// Reports and summaries, byte for byte.
use nova_kernel::{Event, EventKind, Kernel, Root};
use nova_report::{report, summary};
use nova_tests_bursts::drops::let_go;
use nova_trace::{Repeated, Trace};
use std::alloc::Global;
use std::process::Abort;

/// The events of eight turns: three steps, which have no line, two children that are made, two equal events of what is removed, and a source
/// at whose semaphore the counter is the greatest.
static EVENTS: [Repeated; 5] = [
    Repeated {
        event: Event {
            cpu: 0,
            sc: 2,
            ec: 1,
            kind: EventKind::Step,
            a: 0,
            b: 0,
        },
        count: 3,
    },
    Repeated {
        event: Event {
            cpu: 0,
            sc: 2,
            ec: 1,
            kind: EventKind::Made,
            a: 5,
            b: 0,
        },
        count: 1,
    },
    Repeated {
        event: Event {
            cpu: 0,
            sc: 2,
            ec: 1,
            kind: EventKind::Made,
            a: 6,
            b: 5,
        },
        count: 1,
    },
    Repeated {
        event: Event {
            cpu: 1,
            sc: 4,
            ec: 3,
            kind: EventKind::Gone,
            a: 6,
            b: 7,
        },
        count: 2,
    },
    Repeated {
        event: Event {
            cpu: 1,
            sc: 0,
            ec: 0,
            kind: EventKind::Irq,
            a: 2,
            b: 3,
        },
        count: 1,
    },
];

/// The report of those events and of a machine at its boot.
static REPORT: &str = "\
run open 0
at 4 0 1 made 5 0
at 5 0 1 made 6 5
at 6 1 3 gone 6 7
at 7 1 3 gone 6 7
at 8 1 0 irq 2 3
ec 1 global ready 00000000 x2=0000abcd
sc 2 0 0
console 0 -
cap 0 - 0 mem 0 0 7 0
cap 1 - 0 mem 1 0 3 1
cap 2 - 0 obj 0 0 1 0
cap 3 - 0 obj 1 0 7 1
cap 4 - 0 obj 2 0 1 2
";

/// Their summary, of scenario 7.
static SUMMARY: &str = "bench 7 turns 0 made 2 gone 2 caps 5\n";

/// Those events in order.
fn trace(rt: &impl Abort, alloc: Global) -> Trace {
    let mut trace = Trace::with_capacity(alloc, 0).expect(rt, "ample memory");
    for entry in &EVENTS {
        assert!(rt; entry.count > 0);
        trace.reserve(entry.count).expect(rt, "ample memory");
        trace.add(entry.event, entry.count);
    }
    trace
}

/// Whether what is written of `kernel` and of those events is the report.
fn is_reported(rt: &impl Abort, alloc: Global, kernel: &Kernel, trace: &Trace) -> bool {
    let lines = report(alloc, kernel, trace).expect(rt, "ample memory");
    lines.as_slice() == REPORT.as_bytes()
}

/// Whether it is the summary.
fn is_summed_up(rt: &impl Abort, alloc: Global, kernel: &Kernel, trace: &Trace) -> bool {
    let line = summary(alloc, 7, kernel, trace).expect(rt, "ample memory");
    line.as_slice() == SUMMARY.as_bytes()
}

/// Whether both are written.
fn are_written(rt: &impl Abort, alloc: Global, kernel: &Kernel) -> bool {
    let trace = trace(rt, alloc);
    let are_written = is_reported(rt, alloc, kernel, &trace)
        && is_summed_up(rt, alloc, kernel, &trace);
    let_go(trace);
    are_written
}

#[test]
fn a_machine_and_events_are_reported(rt: HostRuntime) {
    let root = Root {
        pc: 0,
        sp: 0xabcd,
        priority: 1,
        quantum: 10,
    };
    let kernel = Kernel::new(rt.alloc(), 1, 0, 1, root, 0).expect(&rt, "ample memory");
    let are_written = are_written(&rt, rt.alloc(), &kernel);
    let_go(kernel);
    assert!(rt; are_written);
}
