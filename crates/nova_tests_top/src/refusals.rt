// Refusals from outside, at every place once, where each call gives or takes one byte.
use crate::rows::{call, file};
use crate::runs::{ONE, ONE_REPORT};
use nova_io::{MemDepot, MemSink};
use nova_top::Exit;
use std::alloc::Global;
use std::process::Abort;
use std::sync::Wait;
use std::thread::Threads;

/// The order of turns that a run of that scenario appends.
const ORDER: &str = "0 2\n";

/// A call, and the numbers of the fetch, of the append and of the write that fail, where none has the number 0; its end, and how many
/// bytes of the order and of the report are out.
#[derive(Clone, Copy)]
struct Refusal {
    words: &'static str,
    fetch: u64,
    append: u64,
    write: u64,
    exit: Exit,
    appended: usize,
    written: usize,
}

/// A `solo` at which nothing fails.
const SOLO: Refusal = Refusal {
    words: "solo scenario",
    fetch: 0,
    append: 0,
    write: 0,
    exit: Exit::Done,
    appended: 0,
    written: ONE_REPORT.len(),
};

/// A `run` at which nothing fails.
const RUN: Refusal = Refusal {
    words: "run scenario order",
    appended: ORDER.len(),
    ..SOLO
};

/// The number of the only call that is to fail.
fn only(rt: &impl Abort, alloc: Global, number: u64) -> Vec<u64> {
    Vec::from_slice(alloc, &[number]).expect(rt, "ample memory")
}

/// A depot of the scenario and an empty order, which gives and takes one byte at a time.
fn depot_of(rt: &impl Abort, alloc: Global, refusal: &Refusal) -> MemDepot {
    let mut files = Vec::with_capacity(alloc, 2).expect(rt, "ample memory");
    files.push_reserved(file(rt, alloc, "scenario", ONE, 0));
    files.push_reserved(file(rt, alloc, "order", "", 4));
    let fetches = only(rt, alloc, refusal.fetch);
    let appends = only(rt, alloc, refusal.append);
    let mut depot = MemDepot::new(alloc, files, fetches, appends).expect(rt, "ample memory");
    depot.set_most(1);
    depot
}

/// Whether the call of `refusal` ends as it is to, and has put out what it is to and no more.
fn is_so<R: Abort + Threads + Wait + Sync>(rt: &R, alloc: Global, refusal: &Refusal) -> bool {
    let mut depot = depot_of(rt, alloc, refusal);
    let writes = only(rt, alloc, refusal.write);
    let mut out = MemSink::new(alloc, 4096, writes).expect(rt, "ample memory");
    out.set_most(1);
    let exit = call(rt, alloc, refusal.words, &mut depot, &mut out);
    exit == refusal.exit
        && depot.bytes("order") == ORDER.as_bytes().get(..refusal.appended)
        && Some(out.bytes()) == ONE_REPORT.as_bytes().get(..refusal.written)
}

#[test]
fn a_write_that_fails_leaves_the_bytes_before_it(rt: HostRuntime) {
    for written in 0..ONE_REPORT.len() {
        let refusal = Refusal {
            write: written as u64 + 1,
            exit: Exit::WriteFault,
            written,
            ..SOLO
        };
        assert!(rt; is_so(&rt, rt.alloc(), &refusal), "{written}");
    }
}

#[test]
fn an_append_that_fails_leaves_the_bytes_before_it_and_no_report(rt: HostRuntime) {
    for appended in 0..ORDER.len() {
        let refusal = Refusal {
            append: appended as u64 + 1,
            exit: Exit::WriteFault,
            appended,
            written: 0,
            ..RUN
        };
        assert!(rt; is_so(&rt, rt.alloc(), &refusal), "{appended}");
    }
}

#[test]
fn a_fetch_that_fails_leaves_nothing_out(rt: HostRuntime) {
    // The last one finds the end of the file.
    for fetched in 0..ONE.len() + 1 {
        let refusal = Refusal {
            fetch: fetched as u64 + 1,
            exit: Exit::ReadFault,
            written: 0,
            ..SOLO
        };
        assert!(rt; is_so(&rt, rt.alloc(), &refusal), "{fetched}");
    }
}

#[test]
fn byte_by_byte_all_comes(rt: HostRuntime) {
    assert!(rt; is_so(&rt, rt.alloc(), &SOLO) && is_so(&rt, rt.alloc(), &RUN));
}
