// Orders: whose turns they give, and what is refused.
use crate::rows::{ENDS, Row, run_row, run_rows};
use nova_scenario::Why;
use nova_top::{Exit, OrderWhy, ScenarioWhy};

/// Two processors, a root that makes a thread and its scheduling context on the second, and dies.
const PAIR: &str =
    "cpus 2\nram 0\nconsoles 0\nroot 0 0 1 10\nimage 0 asm\naddi x17, x0, 3\naddi x10, x0, 32\naddi x12, x0, 257\necall\naddi x17, x0, 4\naddi x10, x0, 33\naddi x12, x0, 32\naddi x13, x0, 257\necall\nebreak\nend\n";

/// What `PAIR` comes to by round robin.
const PAIR_BY_ROUNDS: &str =
    "run quiet 13\nat 4 0 1 answer 3 0\nat 9 0 1 answer 4 0\nat 10 1 3 raise 0 0\nat 11 0 1 raise 7 0\nat 12 1 3 died 0 0\nat 13 0 1 died 7 0\nec 1 global dead 00000024 x12=00000020 x13=00000101 x17=00000004\nec 3 global dead 00000000\nsc 2 0 11\nsc 4 1 2\ncap 0 - 0 mem 0 0 7 0\ncap 1 - 0 obj 0 0 1 0\ncap 2 - 0 obj 1 0 7 1\ncap 3 - 0 obj 2 0 1 2\ncap 4 - 0 obj 32 0 7 3\ncap 5 - 0 obj 33 0 1 4\n";

static ROWS: [Row; 12] = [
    Row {
        shows: "several processors take turns in rounds",
        words: "solo scenario",
        scenario: PAIR,
        order: None,
        room: 4096,
        exit: Exit::Done,
        text: PAIR_BY_ROUNDS,
    },
    Row {
        shows: "an order says which processor has each turn",
        words: "solo scenario order",
        scenario: PAIR,
        order: Some("0 9\n1 2\n0 2\n"),
        room: 4096,
        exit: Exit::Done,
        text: "run quiet 13\nat 4 0 1 answer 3 0\nat 9 0 1 answer 4 0\nat 10 1 3 raise 0 0\nat 11 1 3 died 0 0\nat 12 0 1 raise 7 0\nat 13 0 1 died 7 0\nec 1 global dead 00000024 x12=00000020 x13=00000101 x17=00000004\nec 3 global dead 00000000\nsc 2 0 11\nsc 4 1 2\ncap 0 - 0 mem 0 0 7 0\ncap 1 - 0 obj 0 0 1 0\ncap 2 - 0 obj 1 0 7 1\ncap 3 - 0 obj 2 0 1 2\ncap 4 - 0 obj 32 0 7 3\ncap 5 - 0 obj 33 0 1 4\n",
    },
    Row {
        shows: "the order of the rounds gives their report",
        words: "solo scenario order",
        scenario: PAIR,
        order: Some("0 9\n1 1\n0 1\n1 1\n0 1\n"),
        room: 4096,
        exit: Exit::Done,
        text: PAIR_BY_ROUNDS,
    },
    Row {
        shows: "an order that ends while the second processor alone has something to do",
        words: "solo scenario order",
        scenario: PAIR,
        order: Some("0 9\n1 1\n0 2\n"),
        room: 4096,
        exit: Exit::Limit,
        text: "run open 12\nat 4 0 1 answer 3 0\nat 9 0 1 answer 4 0\nat 10 1 3 raise 0 0\nat 11 0 1 raise 7 0\nat 12 0 1 died 7 0\nec 1 global dead 00000024 x12=00000020 x13=00000101 x17=00000004\nec 3 global exiting 00000000\nsc 2 0 11\nsc 4 1 1\ncap 0 - 0 mem 0 0 7 0\ncap 1 - 0 obj 0 0 1 0\ncap 2 - 0 obj 1 0 7 1\ncap 3 - 0 obj 2 0 1 2\ncap 4 - 0 obj 32 0 7 3\ncap 5 - 0 obj 33 0 1 4\n",
    },
    Row {
        shows: "the empty order",
        words: "solo scenario order",
        scenario: ENDS,
        order: Some(""),
        room: 4096,
        exit: Exit::Limit,
        text: "run open 0\nec 1 global ready 00000000\nsc 2 0 0\ncap 0 - 0 mem 0 0 7 0\ncap 1 - 0 obj 0 0 1 0\ncap 2 - 0 obj 1 0 7 1\ncap 3 - 0 obj 2 0 1 2\n",
    },
    Row {
        shows: "an order of as many turns as may be taken",
        words: "solo scenario order --limit 2",
        scenario: ENDS,
        order: Some("0 2\n"),
        room: 4096,
        exit: Exit::Done,
        text: "run quiet 2\nat 1 0 1 raise 7 0\nat 2 0 1 died 7 0\nec 1 global dead 00000000\nsc 2 0 2\ncap 0 - 0 mem 0 0 7 0\ncap 1 - 0 obj 0 0 1 0\ncap 2 - 0 obj 1 0 7 1\ncap 3 - 0 obj 2 0 1 2\n",
    },
    Row {
        shows: "an order of more turns than may be taken",
        words: "solo scenario order --limit 1",
        scenario: ENDS,
        order: Some("0 2\n"),
        room: 4096,
        exit: Exit::OrderFault {
            line: 1,
            why: OrderWhy::TooMany,
        },
        text: "",
    },
    Row {
        shows: "a name without an order",
        words: "solo scenario order",
        scenario: ENDS,
        order: None,
        room: 4096,
        exit: Exit::ReadFault,
        text: "",
    },
    Row {
        shows: "a scenario at fault, and an order at fault",
        words: "solo scenario order",
        scenario: "cpus 1\n",
        order: Some("x\n"),
        room: 4096,
        exit: Exit::Scenario {
            line: 2,
            why: ScenarioWhy::Text(Why::Missing),
        },
        text: "",
    },
    Row {
        shows: "a scenario at fault, and a name without an order",
        words: "solo scenario order",
        scenario: "cpus 1\n",
        order: None,
        room: 4096,
        exit: Exit::Scenario {
            line: 2,
            why: ScenarioWhy::Text(Why::Missing),
        },
        text: "",
    },
    Row {
        shows: "an order at fault, and a sink without room",
        words: "solo scenario order",
        scenario: ENDS,
        order: Some("0 0\n"),
        room: 0,
        exit: Exit::OrderFault {
            line: 1,
            why: OrderWhy::ZeroCount,
        },
        text: "",
    },
    Row {
        shows: "a report by an order, and a sink without room",
        words: "solo scenario order",
        scenario: ENDS,
        order: Some("0 2\n"),
        room: 0,
        exit: Exit::WriteFault,
        text: "",
    },
];

/// Orders for `ENDS` that are refused, with at most 3 turns: the line at fault, and why.
static FAULTS: [(&str, u64, OrderWhy); 8] = [
    ("0  2\n", 1, OrderWhy::BadLine),
    ("0 3\n1 1", 2, OrderWhy::BadLine), // before the idle turn of line 1
    ("2 1\n", 1, OrderWhy::BadCpu),
    ("0 0\n", 1, OrderWhy::ZeroCount),
    ("0 1\n0 1\n", 2, OrderWhy::NotMerged),
    ("0 2\n1 2\n", 2, OrderWhy::TooMany),
    ("0 2\n1 1\n", 2, OrderWhy::Idle),
    ("0 3\n", 1, OrderWhy::Idle), // in its last turn
];

#[test]
fn orders_say_whose_turns_are_taken(rt: HostRuntime) {
    run_rows(&rt, rt.alloc(), &ROWS);
}

/// A call that an order's fault ends.
fn refused(order: &'static str, line: u64, why: OrderWhy) -> Row {
    Row {
        shows: order,
        words: "solo scenario order --limit 3",
        scenario: ENDS,
        order: Some(order),
        room: 4096,
        exit: Exit::OrderFault { line, why },
        text: "",
    }
}

#[test]
fn orders_are_refused_at_their_first_fault(rt: HostRuntime) {
    for &(order, line, why) in &FAULTS {
        run_row(&rt, rt.alloc(), &refused(order, line, why));
    }
}
