// Calls over files, each a row of a table.
use nova_io::{MemDepot, MemFile, MemSink, Sink};
use nova_top::{Exit, Gate, Open, nova_main};
use std::alloc::Global;
use std::process::Abort;
use std::sync::Wait;
use std::thread::Threads;

/// A call with the file `scenario`, the file `order` where one is given, and a sink of `room` bytes: what it shows, its end, and what it writes.
#[derive(Clone, Copy)]
pub struct Row {
    pub shows: &'static str,
    pub words: &'static str,
    pub scenario: &'static str,
    pub order: Option<&'static str>,
    pub room: u64,
    pub exit: Exit,
    pub text: &'static str,
}

/// A call of `solo` that ends quiet: what it shows, its scenario, its order or nothing, and its report.
pub type Run = [&'static str; 4];

/// Two processors, and a root that dies in its second turn.
pub const ENDS: &str = "cpus 2\nram 0\nconsoles 0\nroot 0 0 1 10\nimage 0 hex\n00100073\nend\n";

/// The file `name` of a depot with the bytes of `text`, and room for `room` bytes more.
pub fn file(rt: &impl Abort, alloc: Global, name: &str, text: &str, room: u64) -> MemFile {
    MemFile {
        name: String::from_str(alloc, name).expect(rt, "ample memory"),
        bytes: Vec::from_slice(alloc, text.as_bytes()).expect(rt, "ample memory"),
        room,
    }
}

/// The words of a command line.
fn words_of(rt: &impl Abort, alloc: Global, line: &str) -> Vec<String> {
    let mut words = Vec::new(alloc);
    for word in line.split_whitespace() {
        let word = String::from_str(alloc, word).expect(rt, "ample memory");
        words.push(word).expect(rt, "ample memory");
    }
    words
}

/// The files of `row`.
fn files_of(rt: &impl Abort, alloc: Global, row: &Row, room: u64) -> Vec<MemFile> {
    let scenario = file(rt, alloc, "scenario", row.scenario, 0);
    let mut files = Vec::with_capacity(alloc, 2).expect(rt, "ample memory");
    files.push_reserved(file(rt, alloc, "scenario", row.scenario, 0));
    if let Some(order) = row.order {
        files.push_reserved(file(rt, alloc, "order", order, room));
    }
    files
}

/// A depot with the files of `row`. The order has room for `room` bytes more, and the append of number `failing` fails; none has the number 0.
pub fn depot_of(rt: &impl Abort, alloc: Global, row: &Row, room: u64, failing: u64) -> MemDepot {
    let files = files_of(rt, alloc, row, room);
    let failing = Vec::from_slice(alloc, &[failing]).expect(rt, "ample memory");
    MemDepot::new(alloc, files, Vec::new(alloc), failing).expect(rt, "ample memory")
}

/// Makes a call with the words `line`, in which workers pass `gate`.
pub fn call_through<R: Abort + Threads + Wait + Sync, O: Sink, G: Gate + Sync>(
    rt: &R,
    alloc: Global,
    line: &str,
    depot: &mut MemDepot,
    out: &mut O,
    gate: &G,
) -> Exit {
    let words = words_of(rt, alloc, line);
    nova_main(rt, alloc, &words, depot, out, gate)
}

/// Makes a call with the words `line`.
pub fn call<R: Abort + Threads + Wait + Sync, O: Sink>(
    rt: &R,
    alloc: Global,
    line: &str,
    depot: &mut MemDepot,
    out: &mut O,
) -> Exit {
    call_through(rt, alloc, line, depot, out, &Open)
}

/// Makes the call of `row`, and tells whether its end and its text are the row's.
pub fn ends_so<R: Abort + Threads + Wait + Sync>(
    rt: &R,
    alloc: Global,
    row: &Row,
    depot: &mut MemDepot,
) -> bool {
    let mut out = MemSink::new(alloc, row.room, Vec::new(alloc)).expect(rt, "ample memory");
    let exit = call(rt, alloc, row.words, depot, &mut out);
    exit == row.exit && out.bytes() == row.text.as_bytes()
}

/// Makes the call of `row`, and compares its end and its text with the row's.
pub fn run_row<R: Abort + Threads + Wait + Sync>(rt: &R, alloc: Global, row: &Row) {
    let mut depot = depot_of(rt, alloc, row, 0, 0);
    let is_so = ends_so(rt, alloc, row, &mut depot);
    assert!(rt; is_so, "{}", row.shows);
}

/// Makes the calls of all `rows`.
pub fn run_rows<R: Abort + Threads + Wait + Sync>(rt: &R, alloc: Global, rows: &[Row]) {
    for row in rows {
        run_row(rt, alloc, row);
    }
}

/// The row of a run.
fn row_of(run: &Run) -> Row {
    let &[shows, scenario, order, report] = run;
    let (words, order) = if order.is_empty() {
        ("solo scenario", None)
    } else {
        ("solo scenario order", Some(order))
    };
    Row {
        shows,
        words,
        scenario,
        order,
        room: 4096,
        exit: Exit::Done,
        text: report,
    }
}

/// Makes the calls of all `runs`.
pub fn run_all<R: Abort + Threads + Wait + Sync>(rt: &R, alloc: Global, runs: &[Run]) {
    for run in runs {
        run_row(rt, alloc, &row_of(run));
    }
}
