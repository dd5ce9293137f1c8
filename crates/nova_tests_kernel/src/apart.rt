// A guest on a processor of its own under two orders: all its turns in a row, or one by one with those of another processor.
use crate::machines::booted;
use nova_order::Order;
use nova_report::report;
use nova_run::{Finished, run_order};
use nova_tests_bursts::drops::let_go;
use nova_tests_bursts::scenarios::{LOOPS, apart, joined};
use std::alloc::Global;
use std::process::Abort;

/// The run of a guest apart from a root that loops, along `order`, of at most 200 turns.
fn run(rt: &impl Abort, alloc: Global, order: &str) -> Finished {
    let text = apart(alloc, LOOPS).expect(rt, "ample memory");
    let kernel = booted(rt, alloc, text.as_str());
    let order = Order::read(alloc, order.as_bytes(), kernel.cpus(), 200).expect(rt, "an order");
    let run = run_order(alloc, kernel, &order, 200).expect(rt, "no turn is idle");
    let_go(text);
    let_go(order);
    run
}

/// The report of that run.
fn report_of(rt: &impl Abort, alloc: Global, order: &str) -> Vec<u8> {
    let run = run(rt, alloc, order);
    let text = report(alloc, &run.kernel, &run.trace).expect(rt, "ample memory");
    let_go(run);
    text
}

/// The order in which each of the guest's 34 turns is followed by one of the root.
fn in_turns(rt: &impl Abort, alloc: Global) -> String {
    let mut order = String::from_str(alloc, "0 38\n").expect(rt, "ample memory");
    for _turn in 0..34u32 {
        order.push_str("1 1\n0 1\n").expect(rt, "ample memory");
    }
    order
}

/// The events until the guest begins, under either order.
const MADE: &str = "\
at 5 0 1 answer 3 0
at 10 0 1 answer 5 0
at 13 0 1 answer 5 0
at 17 0 1 answer 5 0
at 22 0 1 begin 2 7
at 23 0 1 made 10 6
at 24 0 1 made 11 7
at 25 0 1 made 12 8
at 26 0 1 ended 0 3
at 33 0 1 answer 3 0
at 38 0 1 answer 4 0
at 39 1 8 raise 0 0
";

/// The execution contexts at the end.
const CONTEXTS: &str = "\
ec 1 global ready 00000088 x11=00000021 x12=00000022 x13=00000702 x14=00000040 x17=00000004
ec 3 local parked 000001a0 x5=fffff000 x6=00000002 x7=00004000 x17=00000001
ec 8 vcpu dead 0000000c x10=00000042
";

/// The end of the report, after what the root paid.
const REST: &str = "\
sc 9 1 34
console 0 41
cap 0 - 0 mem 0 2 7 0
cap 1 - 0 mem 4 0 3 4
cap 2 - 0 obj 0 0 1 0
cap 3 - 0 obj 1 0 7 1
cap 4 - 0 obj 2 0 1 2
cap 5 - 0 obj 32 0 7 3
cap 6 - 0 obj 64 0 7 4
cap 7 - 0 obj 66 0 7 5
cap 8 - 0 obj 70 0 7 6
cap 9 - 0 obj 33 0 1 7
cap 10 6 7 obj 64 0 4 4
cap 11 7 7 obj 66 0 4 5
cap 12 8 7 obj 70 0 4 6
cap 13 - 0 obj 34 0 7 8
cap 14 - 0 obj 35 0 1 9
cap 15 0 7 mem 0 0 7 1
";

/// The events after that where the guest takes its turns in a row.
const IN_A_ROW: &str = "\
at 40 1 8 sent 0 3
at 45 1 3 answer 1 0
at 46 1 8 raise 2 0
at 47 1 8 sent 2 3
at 55 1 3 begin 1 8
at 56 1 3 made 15 0
at 57 1 3 ended 0 1
at 59 1 8 raise 6 0
at 60 1 8 sent 6 3
at 69 1 3 answer 1 0
at 71 1 8 raise 7 0
at 72 1 8 died 7 0
";

/// And where it takes them one by one. But for numbers of turns, and for those that the root paid for, the reports are the same.
const IN_TURNS: &str = "\
at 41 1 8 sent 0 3
at 51 1 3 answer 1 0
at 53 1 8 raise 2 0
at 55 1 8 sent 2 3
at 71 1 3 begin 1 8
at 73 1 3 made 15 0
at 75 1 3 ended 0 1
at 79 1 8 raise 6 0
at 81 1 8 sent 6 3
at 99 1 3 answer 1 0
at 103 1 8 raise 7 0
at 105 1 8 died 7 0
";

/// The report of a run of `turns` turns with `events`, of the guest and its monitor, of which the root paid for `paid`.
fn wanted(rt: &impl Abort, alloc: Global, turns: &str, events: &str, paid: &str) -> String {
    let parts = [
        "run open ",
        turns,
        "\n",
        MADE,
        events,
        CONTEXTS,
        "sc 2 0 ",
        paid,
        "\n",
        REST,
    ];
    joined(alloc, &parts).expect(rt, "ample memory")
}

/// Whether the guest that takes its turns in a row ends so.
fn ends_in_a_row(rt: &impl Abort, alloc: Global) -> bool {
    let report = report_of(rt, alloc, "0 38\n1 34\n");
    let wanted = wanted(rt, alloc, "72", IN_A_ROW, "38");
    report.as_slice() == wanted.as_bytes()
}

/// Whether the run that takes them one by one does.
fn ends_in_turns(rt: &impl Abort, alloc: Global) -> bool {
    let order = in_turns(rt, alloc);
    let report = report_of(rt, alloc, order.as_str());
    let wanted = wanted(rt, alloc, "106", IN_TURNS, "72");
    report.as_slice() == wanted.as_bytes()
}

#[test]
fn a_guest_ends_equal_under_two_orders(rt: HostRuntime) {
    assert!(rt; ends_in_a_row(&rt, rt.alloc()) && ends_in_turns(&rt, rt.alloc()));
}
