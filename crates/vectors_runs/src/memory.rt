ghost use Rattle.std.specs.Prelude.{◌≡◌, ◌*◌, ◌^◌, ◌<◌, ◌≤◌, IfOk, length};
ghost use Rattle.std.specs.Int.{w32, from_le_bytes};
ghost use Rattle.vectors_runs.specs.Memory.{memory_with, offset_of};

use rv_core::Bus;
use std::alloc::{AllocError, Global};
use std::marker::Model;

/// The first address of memory.
pub const START: u32 = 0x0001_0000;

/// How many bytes memory has.
const SIZE: usize = 0x0001_0000;

/// How many words memory has.
pub const WORDS: usize = SIZE / 4;

/// 64 KiB from `START` on. All of it may be executed, read and written, and nothing lies elsewhere.
#[derive(Drop)]
pub struct Memory {
    bytes: Vec<u8>,
}

impl Model for Memory {
    ghost use Rattle.std.specs.Prelude.{◌≡◌, ℕ, List, vec_len};
    ghost use Rattle.vectors_runs.specs.declared.memory.TheConstants.{SIZE};

    ghost Value = { List ℕ };

    ghost view = { λ m. m.bytes.items };

    ghost invariant = { λ m. vec_len m.bytes ≡ SIZE };
}

impl Memory {
    /// Memory with the words of `program` at its start and zeros after them.
    pub fn new(alloc: Global, program: &[u32]) -> Result<Memory, AllocError>
        requires { length program.now ≤ WORDS }
        ensures { IfOk result (λ memory. memory ≡ memory_with program.now) }
    {
        let mut bytes = Vec::with_capacity(alloc, SIZE)?;
        for word in program {
            bytes.extend_from_slice(&word.to_le_bytes())?;
        }
        bytes.resize(SIZE, 0)?;
        Ok(Memory { bytes })
    }
}

/// Where the byte at `addr` stands in memory, or nothing where memory doesn't have it.
fn offset_of(addr: u32) -> Option<usize>
    ensures { result ≡ offset_of addr }
{
    addr.checked_sub(START)
        .map(|offset| offset as usize)
        .filter(|offset| *offset < SIZE)
}

/// The number in `bytes`, at most four, of which the first is the lowest.
fn number_of(bytes: &[u8]) -> u32
    requires { length bytes.now ≤ 4 }
    ensures number { result ≡ from_le_bytes w32 bytes.now }
    ensures fits { result < 2 ^ (8 * length bytes.now) }
{
    let mut word = [0; 4];
    word[..bytes.len()].copy_from_slice(bytes);
    u32::from_le_bytes(word)
}

impl Bus for Memory {
    ghost use Rattle.std.specs.Prelude.{List, ℕ};
    ghost use Rattle.vectors_runs.specs.Memory.{fetched as fetched_of, loaded as loaded_of, takes as takes_of, stored as stored_of};

    ghost State = { List ℕ };

    ghost state = { λ m. m };

    ghost fetched = { fetched_of };

    ghost loaded = { loaded_of };

    ghost takes = { takes_of };

    ghost stored = { stored_of };

    ghost room = { λ _. Unit {0} };

    fn fetch(&mut self, addr: u32) -> Option<u32> {
        self.load(addr, 4)
    }

    fn load(&mut self, addr: u32, width: u32) -> Option<u32> {
        let at = offset_of(addr)?;
        Some(number_of(&self.bytes[at..at + width as usize]))
    }

    fn store(&mut self, addr: u32, width: u32, value: u32) -> bool {
        let Some(at) = offset_of(addr) else {
            return false;
        };
        let width = width as usize;
        self.bytes[at..at + width].copy_from_slice(&value.to_le_bytes()[..width]);
        true
    }
}
