ghost use Rattle.std.specs.Prelude.{◌≡◌, ◌+◌, ◌≤◌, length};
ghost use Rattle.nova_elf.specs.Fields.{half, word};

use byteorder::{ByteOrder, LittleEndian};

/// The half word of `bytes` at `place`, the lowest byte first.
#[tactic(auto, unfolding(crate::specs::Fields::half))]
pub fn half(bytes: &[u8], place: usize) -> u16
    requires { place + 2 ≤ length bytes.now }
    ensures { result ≡ half bytes.now place }
{
    let (_, rest) = bytes.split_at(place);
    LittleEndian::read_u16(rest)
}

/// The word of `bytes` at `place`, the lowest byte first.
#[tactic(auto, unfolding(crate::specs::Fields::word))]
pub fn word(bytes: &[u8], place: usize) -> u32
    requires { place + 4 ≤ length bytes.now }
    ensures { result ≡ word bytes.now place }
{
    let (_, rest) = bytes.split_at(place);
    LittleEndian::read_u32(rest)
}
