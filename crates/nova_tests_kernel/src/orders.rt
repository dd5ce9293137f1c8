// Runs by one thread, along an order of turns and by round robin.
ghost use Rattle.std.specs.Prelude.{◌≡◌, ◌≤◌};

use crate::machines::ROOT;
use crate::runs::{Told, tell};
use nova_kernel::Kernel;
use nova_run::{Finished, Order, RunFault, round_robin, run_order};
use nova_tests_bursts::drops::let_go;
use std::alloc::Global;
use std::process::Abort;

/// A run of at most `limit` turns, along an order or by round robin: what it shows, the order of the turns that it takes and whether it ends quiet,
/// or why there is none.
#[derive(Clone, Copy)]
struct Row {
    shows: &'static str,
    order: Option<&'static str>,
    limit: u64,
    turns: &'static str,
    is_quiet: bool,
    fault: Option<RunFault>,
}

static ROWS: [Row; 6] = [
    Row {
        shows: "an order that ends quiet",
        order: Some("0 2\n"),
        limit: 8,
        turns: "0 2\n",
        is_quiet: true,
        fault: None,
    },
    Row {
        shows: "an order that ends before",
        order: Some("0 1\n"),
        limit: 1,
        turns: "0 1\n",
        is_quiet: false,
        fault: None,
    },
    Row {
        shows: "an idle turn between others",
        order: Some("0 1\n1 1\n0 1\n"),
        limit: 8,
        turns: "",
        is_quiet: false,
        fault: Some(RunFault::OrderIdle(2)),
    },
    Row {
        shows: "round robin that ends quiet",
        order: None,
        limit: 8,
        turns: "0 2\n",
        is_quiet: true,
        fault: None,
    },
    Row {
        shows: "round robin that ends at its limit",
        order: None,
        limit: 1,
        turns: "0 1\n",
        is_quiet: false,
        fault: None,
    },
    Row {
        shows: "round robin of no turns",
        order: None,
        limit: 0,
        turns: "",
        is_quiet: false,
        fault: None,
    },
];

/// A machine of two processors. The root runs zeros: in two turns it raises an exit and dies.
fn booted(rt: &impl Abort, alloc: Global) -> Kernel
    ensures cpus { result.state.cpus ≡ 2 }
    ensures room { result.room ≡ 8 }
    ensures turns { result.state.turns ≡ 0 }
{
    Kernel::new(alloc, 2, 0, 0, ROOT, 8).expect(rt, "ample memory")
}

/// Its run along the order `text`, of at most `limit` turns.
fn along(rt: &impl Abort, alloc: Global, text: &str, limit: u64) -> Result<Finished, RunFault>
    requires { limit ≤ 8 }
{
    let order = Order::read(alloc, text.as_bytes(), 2, limit).expect(rt, "an order");
    let run = run_order(alloc, booted(rt, alloc), &order, limit);
    let_go(order);
    run
}

/// The run of `row`.
fn run_of(rt: &impl Abort, alloc: Global, row: &Row) -> Result<Finished, RunFault> {
    assert!(rt; row.limit <= 8);
    match row.order {
        Some(text) => along(rt, alloc, text, row.limit),
        None => round_robin(alloc, booted(rt, alloc), row.limit),
    }
}

/// Whether a run comes to what `row` says.
fn is_told(row: &Row, run: &Told) -> bool {
    run.order.as_slice() == row.turns.as_bytes()
        && run.events == run.turns
        && run.is_quiet == row.is_quiet
        && row.fault == None
}

/// Whether the run of `row` is as the row says.
fn is_so(rt: &impl Abort, alloc: Global, row: &Row) -> bool {
    match run_of(rt, alloc, row) {
        Ok(run) => is_told(row, &tell(rt, run)),
        Err(fault) => row.fault == Some(fault),
    }
}

#[test]
fn runs_end_quiet_or_at_the_limit_or_at_an_idle_turn(rt: HostRuntime) {
    for row in &ROWS {
        assert!(rt; is_so(&rt, rt.alloc(), row), "{}", row.shows);
    }
}
