// Depots and sinks in memory.
use nova_io::{Depot, MemDepot, MemFile, MemSink, Sink, append_all, fetch_all, write_all};
use std::alloc::{AllocError, Global};
use std::process::Abort;

/// Pieces for a sink, and whether it takes them.
static WRITES: [(&str, bool); 4] = [("ab", true), ("cd", false), ("cdef", false), ("cde", true)];

/// A sink with room for five bytes, whose second write fails.
fn sink(alloc: Global) -> Result<MemSink, AllocError> {
    MemSink::new(alloc, 5, vec![in alloc; 2]?)
}

/// Writes a piece, and asserts whether it is taken.
fn assert_written(rt: &impl Abort, sink: &mut MemSink, piece: &str, is_taken: bool) {
    let result = write_all(sink, piece.as_bytes());
    assert!(rt; result.is_ok() == is_taken, "{piece}");
}

#[test]
fn a_sink_keeps_what_fits(rt: HostRuntime) {
    let mut sink = sink(rt.alloc()).expect(&rt, "memory");
    for &(piece, is_taken) in &WRITES {
        assert_written(&rt, &mut sink, piece, is_taken);
    }
    assert!(rt; sink.bytes() == b"abcde".as_slice());
}

/// Pieces for a sink that takes two bytes at most, and how many it takes; a piece must fit, all of it.
static BOUNDED: [(&[u8], Option<usize>); 5] = [
    (b"abcdef", None),
    (b"abcde", Some(2)),
    (b"", Some(0)),
    (b"c", Some(1)),
    (b"def", None),
];

#[test]
fn a_sink_takes_no_more_than_its_bound(rt: HostRuntime) {
    let mut sink = MemSink::new(rt.alloc(), 5, Vec::new(rt.alloc())).expect(&rt, "memory");
    sink.set_most(2);
    for &(piece, count) in &BOUNDED {
        assert!(rt; sink.write(piece).ok() == count);
    }
    assert!(rt; sink.bytes() == b"abc".as_slice());
}

/// A depot of one file.
fn depot(
    alloc: Global,
    room: u64,
    fetches: &[u64],
    appends: &[u64],
) -> Result<MemDepot, AllocError> {
    let name = String::from_str(alloc, "log")?;
    let bytes = Vec::from_slice(alloc, b"ab")?;
    let files = vec![in alloc; MemFile { name, bytes, room }]?;
    MemDepot::new(alloc, files, fetches.to_vec(alloc)?, appends.to_vec(alloc)?)
}

/// Names of files, the most bytes that are taken, and whether the whole file comes.
static FETCHES: [(&str, u64, bool); 4] = [
    ("log", 2, true),
    ("log", 2, false),
    ("log", 1, false),
    ("lo", 2, false),
];

#[test]
fn a_depot_gives_whole_files(rt: HostRuntime) {
    let mut depot = depot(rt.alloc(), 0, &[3], &[]).expect(&rt, "memory");
    for &(name, most, is_whole) in &FETCHES {
        assert!(rt; most < 8);
        let result = fetch_all(rt.alloc(), &mut depot, name, most);
        assert!(rt; result.is_ok_and(|bytes| bytes.as_slice() == b"ab".as_slice()) == is_whole);
    }
}

/// Pieces for a file, and whether the depot takes them.
static APPENDS: [(&str, bool); 4] = [("cd", true), ("e", false), ("efgh", false), ("efg", true)];

/// Appends a piece, and asserts whether it is taken.
fn assert_appended(rt: &impl Abort, depot: &mut MemDepot, piece: &str, is_taken: bool) {
    let result = append_all(depot, "log", piece.as_bytes());
    assert!(rt; result.is_ok() == is_taken, "{piece}");
}

#[test]
fn a_depot_takes_what_fits(rt: HostRuntime) {
    let mut depot = depot(rt.alloc(), 5, &[], &[2]).expect(&rt, "memory");
    for &(piece, is_taken) in &APPENDS {
        assert_appended(&rt, &mut depot, piece, is_taken);
    }
    assert!(rt; depot.bytes("log") == Some(b"abcdefg".as_slice()));
}

/// What a depot gives from the beginning of its file, and takes, where a call has one byte at most.
fn counts(depot: &mut MemDepot) -> [Option<usize>; 2] {
    let mut buf = [0; 4];
    [
        depot.fetch("log", 0, &mut buf).ok(),
        depot.append("log", b"cd").ok(),
    ]
}

#[test]
fn a_depot_gives_and_takes_no_more_than_its_bound(rt: HostRuntime) {
    let mut depot = depot(rt.alloc(), 2, &[], &[]).expect(&rt, "memory");
    depot.set_most(1);
    let counts = counts(&mut depot);
    let whole = fetch_all(rt.alloc(), &mut depot, "log", 3);
    assert!(rt;
        counts == [Some(1), Some(1)]
            && whole.is_ok_and(|bytes| bytes.as_slice() == b"abc".as_slice())
    );
}
