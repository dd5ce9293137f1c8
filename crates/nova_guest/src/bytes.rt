ghost use Rattle.std.specs.Prelude.{◌≡◌, ◌+◌, ◌*◌, ◌^◌, ◌<◌, ◌≤◌, length, Some, IfOk};
ghost use Rattle.byteorder.specs.Endian.{little_bytes};
ghost use Rattle.nova_guest.specs.Conditions.{IsWidth};
ghost use Rattle.nova_guest.specs.Frames.{read_in, replaced};

use crate::words::{read_word, write_word};
use std::alloc::AllocError;
use std::marker::Model;

/// Bytes, as a list.
#[derive(Drop)]
pub struct Bytes {
    items: Vec<u8>,
}

impl Model for Bytes {
    ghost use Rattle.std.specs.Prelude.{List, ℕ};

    ghost Value = { List ℕ };

    ghost view = { λ b. b.items.items };
}

impl Bytes {
    /// The bytes of the vector `items`.
    pub fn new(items: Vec<u8>) -> Bytes
        ensures { result ≡ items.items }
    {
        Bytes { items }
    }

    /// The vector of these bytes.
    pub fn into_vec(self) -> Vec<u8>
        ensures { result.items ≡ self }
    {
        self.items
    }

    /// The bytes.
    pub fn as_slice(&self) -> &[u8]
        ensures { result.now ≡ self.now }
    {
        self.items.as_slice()
    }

    /// Copies the bytes into memory of their own.
    pub fn copy(&self) -> Result<Bytes, AllocError>
        ensures { IfOk result (λ copy. copy ≡ self.now) }
    {
        let items = Vec::from_slice(*self.items.allocator(), self.items.as_slice())?;
        Ok(Bytes { items })
    }

    /// The number in the `width` bytes, 1, 2 or 4, from `offset` on, the lowest byte first. They are there.
    pub fn load(&self, offset: u32, width: u32) -> u32
        requires width { IsWidth width }
        requires there { offset + width ≤ length self.now }
        ensures number { result ≡ read_in (Some self.now) offset width }
        ensures fits { result < 2 ^ (8 * width) }
    {
        read_word(&self.items[offset as usize..], width)
    }

    /// Stores the lowest `width` bytes, 1, 2 or 4, of `value` from `offset` on, the lowest byte first, in the place of bytes that are there.
    pub fn store(&mut self, offset: u32, width: u32, value: u32)
        requires width { IsWidth width }
        requires there { offset + width ≤ length self.old }
        ensures { self.new ≡ replaced self.old offset (little_bytes width value) }
    {
        write_word(&mut self.items[offset as usize..], width, value);
    }
}
