// Pieces of an open file or stream. What it tells of its bytes pins what a piece is.
ghost use Rattle.std.specs.Prelude.{◌≡◌, ℕ, ◌≤◌, List, length, take, drop, Option, Some, IfSome, IfOk, OnOk, OnErr};
ghost use Rattle.std.specs.Io.KnownBytes.{Appends};
ghost use Rattle.nova_io.specs.Faults.{Rose, raised};
ghost use Rattle.nova_io.specs.Fetched.{IsPiece};

use crate::faults::{Failed, raise};
use std::io::{self, Read, Write};

/// A reader that can be moved to any place of its bytes.
pub(crate) trait ReadFrom: Read {
    /// All bytes of the file, where they are known.
    ghost bytes: { Self → Option (List ℕ) };

    /// The place of the next read, where it is known.
    ghost place: { Self → Option ℕ };

    /// Moves to `at`: the next read gives the bytes from there on.
    fn move_to(&mut self, at: u64) -> io::Result<()>
        ensures bytes { bytes self.new ≡ bytes self.old }
        ensures place { OnOk result (IfSome (place self.old) (λ _. place self.new ≡ Some at)) }
        ensures moved { OnOk result (IfSome (bytes self.old) (λ all. Self.remaining self.new ≡ Some (drop at all))) };
}

/// Moves `file` to `at` and reads from there.
fn read_from<F: ReadFrom>(file: &mut F, at: u64, buf: &mut [u8]) -> io::Result<usize>
    ensures within { IfOk result (λ count. count ≤ length buf.new) }
    ensures piece { IfOk result (λ count. IfSome (F.bytes file.old) (λ all.
        IsPiece all at (length buf.new) (take count buf.new))) }
{
    file.move_to(at)?;
    file.read(buf)
}

/// Fetches bytes of `file`, which is open, from `at` on, puts them to the front of `buf`, and says how many came. A fault is counted.
pub(crate) fn fetch_from<F: ReadFrom>(
    file: &mut F,
    faults: &mut u64,
    at: u64,
    buf: &mut [u8],
) -> Result<usize, Failed>
    ensures within { IfOk result (λ count. count ≤ length buf.new) }
    ensures piece { IfOk result (λ count. IfSome (F.bytes file.old) (λ all.
        IsPiece all at (length buf.new) (take count buf.new))) }
    ensures given { OnOk result (faults.new ≡ faults.old) }
    ensures refused { OnErr result (faults.new ≡ raised faults.old) }
    ensures failed { OnErr result (Rose faults.old faults.new) }
{
    match read_from(file, at, buf) {
        Ok(count) => Ok(count),
        Err(_) => Err(raise(faults)),
    }
}

/// Writes a part of `bytes`, from the first on, and flushes it.
fn write_and_flush<W: Write>(out: &mut W, bytes: &[u8]) -> io::Result<usize>
    ensures within { IfOk result (λ count. count ≤ length bytes.now) }
    ensures taken { IfOk result (λ count. Appends (W.contents out.old) (W.contents out.new) (take count bytes.now)) }
{
    let count = out.write(bytes)?;
    out.flush()?;
    Ok(count)
}

/// Writes `bytes` from the first on, flushes them, and says how many were taken. To take none of a piece that isn't empty is a fault. A fault is
/// counted.
pub(crate) fn put_to<W: Write>(out: &mut W, faults: &mut u64, bytes: &[u8]) -> Result<usize, Failed>
    ensures within { IfOk result (λ count. count ≤ length bytes.now) }
    ensures progress { IfOk result (λ count. count ≡ 0 → length bytes.now ≡ 0) }
    ensures taken { IfOk result (λ count. Appends (W.contents out.old) (W.contents out.new) (take count bytes.now)) }
    ensures given { OnOk result (faults.new ≡ faults.old) }
    ensures refused { OnErr result (faults.new ≡ raised faults.old) }
    ensures failed { OnErr result (Rose faults.old faults.new) }
{
    match write_and_flush(out, bytes) {
        Ok(count) if count > 0 || bytes.is_empty() => Ok(count),
        _ => Err(raise(faults)),
    }
}
