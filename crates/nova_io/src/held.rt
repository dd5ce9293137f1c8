// The files of a depot in memory.
ghost use Rattle.std.specs.Prelude.{◌≡◌, ◌≤◌, ◌↔◌, length, take, IsTrue, IfOk, bytes_eq, string_bytes};
ghost use Rattle.std.specs.Bool.{OnTrue, OnFalse};
ghost use Rattle.std.specs.List.{position};
ghost use Rattle.std.specs.Option.{option_map};
ghost use Rattle.std.specs.FinMap.{get};
ghost use Rattle.nova_io.specs.Files.{appended};
ghost use Rattle.nova_io.specs.Held.{files_given, rooms_given, files_held, rooms_held};
ghost use Rattle.nova_io.specs.Memory.{room_of, lowered};

use crate::stores::Store;
use std::alloc::{AllocError, Global};

/// A file for a depot in memory.
#[derive(Drop)]
pub struct MemFile {
    pub name: String,
    pub bytes: Vec<u8>,
    /// How many bytes may be appended.
    pub room: u64,
}

/// A file that is held, with the memory for its room.
#[derive(Drop)]
pub(crate) struct Held {
    name: String,
    store: Store,
}

/// Takes the memory for the room of each of `files`.
pub(crate) fn hold(alloc: Global, files: Vec<MemFile>) -> Result<Vec<Held>, AllocError>
    ensures bytes { IfOk result (λ held. files_held held.items ≡ files_given files.items) }
    ensures rooms { IfOk result (λ held. rooms_held held.items ≡ rooms_given files.items) }
{
    let mut held = Vec::with_capacity(alloc, files.len())?;
    for file in files {
        let MemFile { name, bytes, room } = file;
        let store = Store::new(bytes, room)?;
        held.push(Held { name, store })?;
    }
    Ok(held)
}

/// The place of the first of `files` that is called `name`.
fn place_of(files: &[Held], name: &str) -> Option<usize>
    ensures { result ≡ position (λ f. bytes_eq name.now (string_bytes f.name)) files.now }
{
    files.iter().position(|file| name == file.name.as_str())
}

/// What is held for `name`, or None where there is no such file.
pub(crate) fn store_of<'a>(files: &'a [Held], name: &str) -> Option<&'a Store>
    ensures { option_map (λ store. store.now.bytes) result ≡ get (files_held files.now) name.now }
{
    let place = place_of(files, name)?;
    Some(&files[place].store)
}

/// Appends the first `count` bytes of `piece` to the file `name` if there is room for all of it, and else changes nothing.
pub(crate) fn put(files: &mut [Held], name: &str, piece: &[u8], count: usize) -> bool
    requires { count ≤ length piece.now }
    ensures fits { IsTrue result ↔ (length piece.now ≤ room_of (rooms_held files.old) name.now) }
    ensures bytes { OnTrue result (files_held files.new ≡ appended (files_held files.old) name.now (take count piece.now)) }
    ensures rooms { OnTrue result (rooms_held files.new ≡ lowered (rooms_held files.old) name.now count) }
    ensures bytes_stay { OnFalse result (files_held files.new ≡ files_held files.old) }
    ensures rooms_stay { OnFalse result (rooms_held files.new ≡ rooms_held files.old) }
{
    match place_of(files, name) {
        Some(place) => {
            let file = &mut files[place];
            file.store.put(piece, count)
        }
        None => piece.is_empty(),
    }
}
