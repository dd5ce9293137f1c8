// Runs with a thread for each processor: what they append, what they write, and their exits; and benches.
use crate::rows::{ENDS, Row, depot_of, ends_so};
use nova_io::MemDepot;
use nova_scenario::Why;
use nova_top::{Exit, ScenarioWhy};
use std::alloc::Global;
use std::process::Abort;
use std::sync::Wait;
use std::thread::Threads;

/// A call with an order that has room for `room` bytes more, and the number of the append that is to fail, from 1, or 0; and the bytes of the order
/// after it.
#[derive(Clone, Copy)]
struct Appending {
    row: Row,
    room: u64,
    failing: u64,
    appended: &'static str,
}

/// One processor, and a root that dies in its second turn.
pub const ONE: &str = "cpus 1\nram 0\nconsoles 0\nroot 0 0 1 10\nimage 0 hex\n00100073\nend\n";

/// Its report.
pub const ONE_REPORT: &str =
    "run quiet 2\nat 1 0 1 raise 7 0\nat 2 0 1 died 7 0\nec 1 global dead 00000000\nsc 2 0 2\ncap 0 - 0 mem 0 0 7 0\ncap 1 - 0 obj 0 0 1 0\ncap 2 - 0 obj 1 0 7 1\ncap 3 - 0 obj 2 0 1 2\n";

/// One processor, and a root that loops.
const LOOPS: &str = "cpus 1\nram 0\nconsoles 0\nroot 0 0 1 10\nimage 0 hex\n0000006f\nend\n";

/// Its report after five turns.
const FIVE_TURNS: &str =
    "run open 5\nec 1 global ready 00000000\nsc 2 0 5\ncap 0 - 0 mem 0 0 7 0\ncap 1 - 0 obj 0 0 1 0\ncap 2 - 0 obj 1 0 7 1\ncap 3 - 0 obj 2 0 1 2\n";

static ROWS: [Appending; 16] = [
    Appending {
        row: Row {
            shows: "a run appends its order and writes its report",
            words: "run scenario order",
            scenario: ONE,
            order: Some(""),
            room: 4096,
            exit: Exit::Done,
            text: ONE_REPORT,
        },
        room: 64,
        failing: 0,
        appended: "0 2\n",
    },
    Appending {
        row: Row {
            shows: "the order stands after what the file had",
            words: "run scenario order",
            scenario: ONE,
            order: Some("0 1\n"),
            room: 4096,
            exit: Exit::Done,
            text: ONE_REPORT,
        },
        room: 64,
        failing: 0,
        appended: "0 1\n0 2\n",
    },
    Appending {
        row: Row {
            shows: "processors that are idle from the beginning have no turns",
            words: "run scenario order",
            scenario: ENDS,
            order: Some(""),
            room: 4096,
            exit: Exit::Done,
            text: ONE_REPORT,
        },
        room: 64,
        failing: 0,
        appended: "0 2\n",
    },
    Appending {
        row: Row {
            shows: "an endless loop ends at the limit",
            words: "run scenario order --limit 5",
            scenario: LOOPS,
            order: Some(""),
            room: 4096,
            exit: Exit::Limit,
            text: FIVE_TURNS,
        },
        room: 64,
        failing: 0,
        appended: "0 5\n",
    },
    Appending {
        row: Row {
            shows: "an order that has no room: nothing is written",
            words: "run scenario order",
            scenario: ONE,
            order: Some(""),
            room: 4096,
            exit: Exit::WriteFault,
            text: "",
        },
        room: 3,
        failing: 0,
        appended: "",
    },
    Appending {
        row: Row {
            shows: "an append that fails: nothing is written",
            words: "run scenario order",
            scenario: ONE,
            order: Some(""),
            room: 4096,
            exit: Exit::WriteFault,
            text: "",
        },
        room: 64,
        failing: 1,
        appended: "",
    },
    Appending {
        row: Row {
            shows: "a sink without room has nothing, and the order is whole",
            words: "run scenario order",
            scenario: ONE,
            order: Some(""),
            room: 0,
            exit: Exit::WriteFault,
            text: "",
        },
        room: 64,
        failing: 0,
        appended: "0 2\n",
    },
    Appending {
        row: Row {
            shows: "an order at a name that has no file",
            words: "run scenario other",
            scenario: ONE,
            order: Some(""),
            room: 4096,
            exit: Exit::WriteFault,
            text: "",
        },
        room: 64,
        failing: 0,
        appended: "",
    },
    Appending {
        row: Row {
            shows: "a name without a scenario",
            words: "run other order",
            scenario: ONE,
            order: Some(""),
            room: 4096,
            exit: Exit::ReadFault,
            text: "",
        },
        room: 64,
        failing: 0,
        appended: "",
    },
    Appending {
        row: Row {
            shows: "a scenario at fault: nothing is appended",
            words: "run scenario order",
            scenario: "cpus 1\n",
            order: Some(""),
            room: 4096,
            exit: Exit::Scenario {
                line: 2,
                why: ScenarioWhy::Text(Why::Missing),
            },
            text: "",
        },
        room: 64,
        failing: 0,
        appended: "",
    },
    Appending {
        row: Row {
            shows: "a run without an order",
            words: "run scenario",
            scenario: ONE,
            order: Some(""),
            room: 4096,
            exit: Exit::Usage,
            text: "",
        },
        room: 64,
        failing: 0,
        appended: "",
    },
    Appending {
        row: Row {
            shows: "a bench of one domain",
            words: "bench 1",
            scenario: ONE,
            order: Some(""),
            room: 4096,
            exit: Exit::Done,
            text: "bench 1 turns 19 made 1 gone 1 caps 5\n",
        },
        room: 64,
        failing: 0,
        appended: "",
    },
    Appending {
        row: Row {
            shows: "a bench of seven domains",
            words: "bench 7",
            scenario: ONE,
            order: Some(""),
            room: 4096,
            exit: Exit::Done,
            text: "bench 7 turns 79 made 7 gone 7 caps 11\n",
        },
        room: 64,
        failing: 0,
        appended: "",
    },
    Appending {
        row: Row {
            shows: "and again",
            words: "bench 7",
            scenario: ONE,
            order: Some(""),
            room: 4096,
            exit: Exit::Done,
            text: "bench 7 turns 79 made 7 gone 7 caps 11\n",
        },
        room: 64,
        failing: 0,
        appended: "",
    },
    Appending {
        row: Row {
            shows: "a bench that ends at the limit",
            words: "bench 7 --limit 12",
            scenario: ONE,
            order: Some(""),
            room: 4096,
            exit: Exit::Limit,
            text: "bench 7 turns 12 made 1 gone 0 caps 6\n",
        },
        room: 64,
        failing: 0,
        appended: "",
    },
    Appending {
        row: Row {
            shows: "a bench and a sink without room",
            words: "bench 7",
            scenario: ONE,
            order: Some(""),
            room: 0,
            exit: Exit::WriteFault,
            text: "",
        },
        room: 64,
        failing: 0,
        appended: "",
    },
];

/// Whether a file has these bytes.
fn has(depot: &MemDepot, name: &str, text: &str) -> bool {
    depot.bytes(name) == Some(text.as_bytes())
}

/// Makes the call of a row, and compares its end, its text and the bytes of its files with the row's.
fn append<R: Abort + Threads + Wait + Sync>(rt: &R, alloc: Global, run: &Appending) {
    let mut depot = depot_of(rt, alloc, &run.row, run.room, run.failing);
    let is_so = ends_so(rt, alloc, &run.row, &mut depot);
    let is_appended = has(&depot, "order", run.appended);
    let is_kept = has(&depot, "scenario", run.row.scenario);
    assert!(rt; is_so && is_appended && is_kept, "{}", run.row.shows);
}

#[test]
fn runs_append_their_order_and_write_their_report(rt: HostRuntime) {
    for run in &ROWS {
        append(&rt, rt.alloc(), run);
    }
}
