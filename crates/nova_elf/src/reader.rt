ghost use Rattle.std.specs.Prelude.{◌≡◌, ◌≤◌, ℕ, length, None, IfOk};
ghost use Rattle.std.specs.List.{AllByRecursion};
ghost use Rattle.nova_elf.specs.Executable.{is_not_elf, has_other_version, has_bad_table, HasTable, head_fault, program, IsRead};
ghost use Rattle.nova_elf.specs.SegmentFits.{SegmentFits};

use crate::fault::ElfFault;
use crate::fields::{half, word};
use crate::headers::{header_fault, segments};
use crate::program::Program;
use std::alloc::Global;

/// How many bytes the file header has, and a program header.
const HEAD_LEN: usize = 52;

const HEADER_LEN: u16 = 32;

/// What the number of a half word stands for where it is too large for one.
const TOO_MANY: u16 = 65535;

/// Whether `bytes` do not begin with a file header.
fn is_not_elf(bytes: &[u8]) -> bool
    ensures { result ≡ is_not_elf bytes.now }
{
    if bytes.len() < HEAD_LEN {
        return true;
    }
    let (magic, _) = bytes.split_at(4);
    magic != b"\x7fELF".as_slice()
}

/// Whether the program headers of `bytes` are not counted in their place, are of another length, or reach past the end.
fn has_bad_table(bytes: &[u8]) -> bool
    requires { 52 ≤ length bytes.now }
    ensures { result ≡ has_bad_table bytes.now }
{
    let count = half(bytes, 44);
    let end = u64::from(word(bytes, 28)) + 32 * u64::from(count);
    0 < count && (count == TOO_MANY || half(bytes, 42) != HEADER_LEN || (bytes.len() as u64) < end)
}

/// The first fault of the file header of `bytes`.
fn head_fault(bytes: &[u8]) -> Option<ElfFault>
    ensures fault { result ≡ head_fault bytes.now }
    ensures table { result ≡ None → HasTable bytes.now }
{
    if is_not_elf(bytes) {
        Some(ElfFault::NotElf)
    } else if bytes[4] != 1 {
        Some(ElfFault::Class)
    } else if bytes[5] != 1 {
        Some(ElfFault::ByteOrder)
    } else if bytes[6] != 1 || word(bytes, 20) != 1 {
        Some(ElfFault::Version)
    } else if half(bytes, 16) != 2 {
        Some(ElfFault::NotExec)
    } else if half(bytes, 18) != 243 {
        Some(ElfFault::Machine)
    } else if has_bad_table(bytes) {
        Some(ElfFault::Table)
    } else {
        None
    }
}

/// Reads `bytes` as an executable.
///
/// A fault comes exactly where the bytes are no executable, and is the first one. `Memory` comes where memory is refused, and only for
/// an executable.
#[tactic(auto, unfolding(crate::specs::Executable::first_fault, crate::specs::Executable::program))]
pub fn read(alloc: Global, bytes: &[u8]) -> Result<Program, ElfFault>
    ensures exact { IsRead (program bytes.now) result }
    ensures segments { IfOk result (λ p. AllByRecursion (SegmentFits (length bytes.now)) p.segments) }
{
    if let Some(fault) = head_fault(bytes) {
        return Err(fault);
    }
    if let Some(fault) = header_fault(bytes) {
        return Err(fault);
    }
    Ok(Program {
        entry: word(bytes, 24),
        segments: segments(alloc, bytes)?.into(),
    })
}
