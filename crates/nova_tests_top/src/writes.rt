// Writes that fail, one by its number.
use crate::rows::{ENDS, Row, call, depot_of};
use nova_io::MemSink;
use nova_top::Exit;
use std::alloc::Global;
use std::process::Abort;
use std::sync::Wait;
use std::thread::Threads;

/// A call whose sink takes one byte at a time, and fails the write of this number: what it shows, the number, the end, and what is written.
type Writing = (&'static str, u64, Exit, &'static str);

static ROWS: [Writing; 4] = [
    (
        "a first write that fails is the only one",
        1,
        Exit::WriteFault,
        "",
    ),
    ("a second one is the last", 2, Exit::WriteFault, "o"),
    ("and so is a third", 3, Exit::WriteFault, "ok"),
    ("three bytes want three writes", 4, Exit::Done, "ok\n"),
];

/// The call that each row makes.
const CALL: Row = Row {
    shows: "a valid scenario is ok",
    words: "check scenario",
    scenario: ENDS,
    order: None,
    room: 3,
    exit: Exit::Done,
    text: "ok\n",
};

/// Makes the call, and compares its end and what is written with the row's.
fn write<R: Abort + Threads + Wait + Sync>(rt: &R, alloc: Global, row: &Writing) {
    let &(shows, failing, wanted, text) = row;
    let failing = Vec::from_slice(alloc, &[failing]).expect(rt, "ample memory");
    let mut out = MemSink::new(alloc, CALL.room, failing).expect(rt, "ample memory");
    out.set_most(1);
    let mut depot = depot_of(rt, alloc, &CALL, 0, 0);
    let exit = call(rt, alloc, CALL.words, &mut depot, &mut out);
    assert!(rt; exit == wanted && out.bytes() == text.as_bytes(), "{shows}");
}

#[test]
fn a_write_that_fails_is_the_last(rt: HostRuntime) {
    for row in &ROWS {
        write(&rt, rt.alloc(), row);
    }
}
