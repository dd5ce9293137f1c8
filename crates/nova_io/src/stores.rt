// Bytes that can grow, in memory that is taken beforehand.
ghost use Rattle.std.specs.Prelude.{◌≡◌, ◌↔◌, ◌-◌, ◌≤◌, ◌++◌, min, length, take, drop, IsTrue, IfOk};
ghost use Rattle.std.specs.Bool.{OnTrue, OnFalse};

use std::alloc::AllocError;
use std::marker::Model;

/// Bytes with room for more.
#[derive(Drop)]
pub(crate) struct Store {
    bytes: Vec<u8>,
    room: u64,
}

impl Model for Store {
    ghost use Rattle.std.specs.Prelude.{◌+◌, ◌≤◌, vec_len, vec_capacity};
    ghost use Rattle.nova_io.specs.Memory.{Stored};

    ghost Value = { Stored };

    ghost view = { λ s. record { bytes = s.bytes.items; room = s.room } };

    ghost invariant = { λ s. vec_len s.bytes + s.room ≤ vec_capacity s.bytes };
}

impl Store {
    /// A store that holds `bytes`, with memory for `room` bytes more.
    pub(crate) fn new(mut bytes: Vec<u8>, room: u64) -> Result<Store, AllocError>
        ensures { IfOk result (λ store. store ≡ record { bytes = bytes.items; room = room }) }
    {
        bytes.reserve_exact(room as usize)?;
        Ok(Store { bytes, room })
    }

    /// The bytes that are held.
    pub(crate) fn bytes(&self) -> &[u8]
        ensures { result.now ≡ self.now.bytes }
    {
        self.bytes.as_slice()
    }

    /// Takes the first `count` bytes of `piece` if there is room for all of it, and else nothing.
    pub(crate) fn put(&mut self, piece: &[u8], count: usize) -> bool
        requires { count ≤ length piece.now }
        ensures fits { IsTrue result ↔ (length piece.now ≤ self.old.room) }
        ensures taken { OnTrue result (self.new ≡ record { bytes = self.old.bytes ++ take count piece.now; room = self.old.room - count }) }
        ensures refused { OnFalse result (self.new ≡ self.old) }
    {
        let fits = piece.len() as u64 <= self.room;
        if fits {
            self.bytes.extend_from_slice(&piece[..count]).unwrap();
            self.room -= count as u64;
        }
        fits
    }

    /// Copies the bytes from `at` on to the front of `buf`, as many as there are and fit, and at most `most`.
    pub(crate) fn copy_to(&self, at: u64, buf: &mut [u8], most: u64) -> usize
        ensures count { result ≡ min (length self.now.bytes - at) (min most (length buf.new)) }
        ensures front { take result buf.new ≡ take result (drop at self.now.bytes) }
        ensures rest { drop result buf.new ≡ drop result buf.old }
    {
        let start = self.bytes.len().min(at as usize);
        let rest = &self.bytes[start..];
        let count = rest.len().min(buf.len().min(most as usize));
        buf[..count].copy_from_slice(&rest[..count]);
        count
    }
}
