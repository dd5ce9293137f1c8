// Depots over the runtime's files.
ghost use Rattle.std.specs.Prelude.{◌≡◌, IsErr};
ghost use Rattle.nova_io.specs.Faults.{raised};

use nova_io::{Depot, Failed, FetchFault, FileDepot, append_all, fetch_all};
use std::alloc::AllocError;
use std::rt::Files;
use std::{fs, process};

/// A path that no other process has.
fn path(rt: &HostRuntime, test: &str) -> Result<String, AllocError> {
    let id = process::id(rt.process());
    format!(in rt.alloc(); "/tmp/nova_io_{test}_{id}")
}

/// A mebibyte, in which no two pages are alike.
fn mebibyte(rt: &HostRuntime) -> Result<Vec<u8>, AllocError> {
    let mut bytes = Vec::new(rt.alloc());
    for byte in 0..=255 {
        bytes.extend_from_slice(&[byte; 4096])?;
    }
    Ok(bytes)
}

#[test]
fn a_mebibyte_is_written_and_read(rt: HostRuntime) {
    let name = path(&rt, "whole").expect(&rt, "memory");
    let bytes = mebibyte(&rt).expect(&rt, "memory");
    let mut depot = FileDepot::new(&rt);
    append_all(&mut depot, &name, &bytes).expect(&rt, "a file");
    let whole = fetch_all(rt.alloc(), &mut depot, &name, 1_048_576).expect(&rt, "the whole");
    let too_long = fetch_all(rt.alloc(), &mut depot, &name, 1_048_575).err();
    fs::remove_file(&rt, &name).expect(&rt, "its removal");
    assert!(rt; whole == bytes);
    assert!(rt; too_long == Some(FetchFault::TooLong));
}

#[test]
fn a_file_is_made_and_lengthened(rt: HostRuntime) {
    let name = path(&rt, "append").expect(&rt, "memory");
    let mut depot = FileDepot::new(&rt);
    for piece in ["ab", "", "cdefg"] {
        append_all(&mut depot, &name, piece.as_bytes()).expect(&rt, piece);
    }
    let mut buf = *b"-----";
    let count = depot.fetch(&name, 3, &mut buf);
    let none = depot.fetch(&name, 9, &mut buf);
    fs::remove_file(&rt, &name).expect(&rt, "its removal");
    assert!(rt; count == Ok(4) && none == Ok(0));
    assert!(rt; buf == *b"defg-");
}

/// Three bytes at most from a place of a file on, and how many they are; 4 where they can't be fetched.
fn fetched<R: Files + Alloc>(depot: &mut FileDepot<R>, name: &str, at: u32) -> ([u8; 3], usize) {
    let mut buf = [0; 3];
    let count = depot.fetch(name, u64::from(at), &mut buf).unwrap_or(4);
    (buf, count)
}

#[test]
fn fetches_are_from_a_place_on(rt: HostRuntime) {
    let name = path(&rt, "places").expect(&rt, "memory");
    let mut depot = FileDepot::new(&rt);
    append_all(&mut depot, &name, b"abcdefgh").expect(&rt, "a file");
    let pieces = [
        fetched(&mut depot, &name, 5),
        fetched(&mut depot, &name, 1),
        fetched(&mut depot, &name, 7),
        fetched(&mut depot, &name, 9),
    ];
    fs::remove_file(&rt, &name).expect(&rt, "its removal");
    assert!(rt; pieces == [(*b"fgh", 3), (*b"bcd", 3), (*b"h\0\0", 1), ([0; 3], 0)]);
}

/// A fetch and an append of a file. Where both fail, each is counted in its own kind.
fn fetched_and_appended<R: Files + Alloc>(
    depot: &mut FileDepot<R>,
    name: &str,
) -> (Result<usize, Failed>, Result<usize, Failed>)
    ensures counted { IsErr result.0 → IsErr result.1 → depot.new ≡ record {
      fetches = raised depot.old.fetches;
      appends = raised depot.old.appends;
    } }
{
    let fetched = depot.fetch(name, 0, &mut []);
    let appended = depot.append(name, b"x");
    (fetched, appended)
}

#[test]
fn faults_are_counted_by_kind(rt: HostRuntime) {
    let mut depot = FileDepot::new(&rt);
    let answers = fetched_and_appended(&mut depot, "/tmp/nova_io_none/file");
    assert!(rt; answers == (Err(Failed), Err(Failed)));
}
