ghost use Rattle.std.specs.Prelude.{◌≡◌, ◌*◌, ◌^◌, ◌<◌, ◌≤◌, ◌++◌, length, drop};
ghost use Rattle.byteorder.specs.Endian.{little_number, little_bytes};
ghost use Rattle.nova_guest.specs.Conditions.{IsWidth};

use byteorder::{ByteOrder, LittleEndian};

/// The number in the first `width` bytes, 1, 2 or 4, of `bytes`, the lowest byte first.
pub fn read_word(bytes: &[u8], width: u32) -> u32
    requires width { IsWidth width }
    requires there { width ≤ length bytes.now }
    ensures number { result ≡ little_number width bytes.now }
    ensures fits { result < 2 ^ (8 * width) }
{
    match width {
        1 => u32::from(bytes[0]),
        2 => u32::from(LittleEndian::read_u16(bytes)),
        _ => LittleEndian::read_u32(bytes),
    }
}

/// Writes the lowest `width` bytes, 1, 2 or 4, of `value` to the front of `bytes`, the lowest byte first.
#[inline(always)]
pub fn write_word(bytes: &mut [u8], width: u32, value: u32)
    requires width { IsWidth width }
    requires there { width ≤ length bytes.old }
    ensures { bytes.new ≡ little_bytes width value ++ drop width bytes.old }
{
    match width {
        1 => bytes[0] = (value & 0xff) as u8,
        2 => LittleEndian::write_u16(bytes, (value & 0xffff) as u16),
        _ => LittleEndian::write_u32(bytes, value),
    }
}
