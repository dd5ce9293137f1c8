// Whole files and texts over a depot's and a sink's pieces.
ghost use Rattle.std.specs.Prelude.{◌≡◌, ℕ, ◌+◌, ◌++◌, ◌^◌, ◌<◌, ◌≤◌, List, length, take, Some, IsSome, IfSome, IfOk, OnOk, OnErr, IsErrOf, vec_len};
ghost use Rattle.std.specs.Io.KnownBytes.{append_known};
ghost use Rattle.std.specs.FinMap.{get};
ghost use Rattle.nova_io.specs.Faults.{Rose, NeverFalls, Stay, OthersStay};
ghost use Rattle.nova_io.specs.Files.{bytes_of, with_appended};
ghost use Rattle.nova_io.specs.Fetched.{Came, CameWhole, CameInPart, IsNext, OnlyFetched};
ghost use Rattle.nova_io.specs.Taken.{WentWhole, WentInPart};

use crate::depots::Depot;
use crate::faults::{Failed, FetchFault};
use crate::sinks::Sink;
use std::alloc::Global;

/// The most bytes that one fetch is asked for.
const PIECE: usize = 8192;

/// Fetches the next piece of a file behind the bytes that came, and says whether there was one. With it there are at most
/// `most` bytes and one more.
fn fetch_piece<D: Depot>(
    depot: &mut D,
    name: &str,
    most: u64,
    bytes: &mut Vec<u8>,
) -> Result<bool, FetchFault>
    requires most { most < 2 ^ 62 }
    requires few { length bytes.old.items ≤ most }
    ensures next { IsNext D.gave D.fetch_failed (D.files depot.old) name.now most depot.old bytes.old.items depot.new bytes.new.items result }
    ensures failed { IsErrOf result FetchFault.Failed → Rose (D.fetch_faults depot.old name.now) (D.fetch_faults depot.new name.now) }
    ensures only { OnlyFetched D.files D.fetch_faults D.append_faults name.now depot.old depot.new }
{
    let mut buf = [0; PIECE];
    let at = bytes.len();
    let piece = &mut buf[..PIECE.min(most as usize - at + 1)];
    let count = depot.fetch(name, at as u64, piece)?;
    if count == 0 {
        return Ok(false);
    }
    bytes.extend_from_slice(&piece[..count])?;
    Ok(true)
}

/// Fetches the whole file `name` from `depot`, of at most `most` bytes.
///
/// `most` is below 2^62. The answer is TooLong exactly where more bytes came; the fetches end with the first byte too
/// many. It is Failed only where the last fetch failed and the count of failed fetches of this name rose, and Memory
/// only where memory was refused for bytes that came. Whatever the answer, the depot is as the last of these fetches
/// left it, its files are as before, and no count but that of failed fetches of this name changed.
pub fn fetch_all<D: Depot>(
    alloc: Global,
    depot: &mut D,
    name: &str,
    most: u64,
) -> Result<Vec<u8>, FetchFault>
    requires { most < 2 ^ 62 }

    // Where the depot tells its files, the bytes are those of the file.
    ensures whole { IfOk result (λ bytes. IfSome (D.files depot.old) (λ held. get held name.now ≡ Some bytes.items)) }
    ensures fits { IfOk result (λ bytes. vec_len bytes ≤ most) }
    ensures too_long { IsErrOf result FetchFault.TooLong → IfSome (D.files depot.old) (λ held. most < length (bytes_of held name.now)) }

    // At any depot, they are what came by the fetches of this call, and there were no other fetches.
    ensures came { IfOk result (λ bytes. CameWhole D.gave name.now depot.old bytes.items depot.new) }
    ensures more_came { IsErrOf result FetchFault.TooLong → (bytes : List ℕ)
        × Came D.gave name.now depot.old bytes depot.new × (length bytes ≡ most + 1) }
    ensures part_came { IsErrOf result FetchFault.Failed → (bytes : List ℕ)
        × CameInPart D.gave D.fetch_failed name.now depot.old bytes depot.new × (length bytes ≤ most) }
    ensures some_came { IsErrOf result FetchFault.Memory → (bytes : List ℕ)
        × Came D.gave name.now depot.old bytes depot.new × (0 < length bytes) × (length bytes ≤ most + 1) }

    ensures failed { IsErrOf result FetchFault.Failed → Rose (D.fetch_faults depot.old name.now) (D.fetch_faults depot.new name.now) }
    ensures same { D.files depot.new ≡ D.files depot.old }
    ensures fetches { NeverFalls (D.fetch_faults depot.old) (D.fetch_faults depot.new) }
    ensures others { OthersStay D.fetch_faults name.now depot.old depot.new }
    ensures appends { Stay (D.append_faults depot.old) (D.append_faults depot.new) }
{
    let mut bytes = Vec::new(alloc);
    while bytes.len() as u64 <= most {
        if !fetch_piece(depot, name, most, &mut bytes)? {
            return Ok(bytes);
        }
    }
    Err(FetchFault::TooLong)
}

/// Appends all of `bytes` to the file `name` of `depot`.
///
/// The answer is Failed only where the last append failed and the count of failed appends to this name rose. Then a
/// part of the bytes, from the first on, is appended. Whatever the answer, the depot is as the last of these appends
/// left it; no other name's bytes changed, and no count but that of failed appends to this name.
pub fn append_all<D: Depot>(depot: &mut D, name: &str, bytes: &[u8]) -> Result<(), Failed>
    ensures whole { OnOk result (D.files depot.new ≡ with_appended (D.files depot.old) name.now bytes.now) }
    ensures part { OnErr result ((count : ℕ) × (count < length bytes.now)
        × (D.files depot.new ≡ with_appended (D.files depot.old) name.now (take count bytes.now))) }

    // At any depot, the appends of the bytes to this name are all that was done.
    ensures went { OnOk result (WentWhole (λ d. D.took d name.now) bytes.now depot.old depot.new) }
    ensures part_went { OnErr result (WentInPart (λ d. D.took d name.now) (λ d. D.append_failed d name.now) bytes.now depot.old depot.new) }

    ensures failed { OnErr result (Rose (D.append_faults depot.old name.now) (D.append_faults depot.new name.now)) }
    ensures fetches { Stay (D.fetch_faults depot.old) (D.fetch_faults depot.new) }
    ensures others { OthersStay D.append_faults name.now depot.old depot.new }
    ensures appends { NeverFalls (D.append_faults depot.old) (D.append_faults depot.new) }
{
    let mut done = 0;
    while done < bytes.len() {
        done += depot.append(name, &bytes[done..])?;
    }
    Ok(())
}

/// Writes all of `bytes` to `sink`.
///
/// The answer is Failed only where the last write failed and the sink's count of faults rose. Then a part of the bytes,
/// from the first on, is out. Whatever the answer, the sink is as the last of these writes left it.
pub fn write_all<S: Sink>(sink: &mut S, bytes: &[u8]) -> Result<(), Failed>
    ensures whole { OnOk result (S.written sink.new ≡ append_known (S.written sink.old) bytes.now) }
    ensures part { OnErr result ((count : ℕ) × (count < length bytes.now)
        × (S.written sink.new ≡ append_known (S.written sink.old) (take count bytes.now))) }

    // At any sink, the writes of the bytes are all that was done.
    ensures went { OnOk result (WentWhole S.took bytes.now sink.old sink.new) }
    ensures part_went { OnErr result (WentInPart S.took S.write_failed bytes.now sink.old sink.new) }

    ensures failed { OnErr result (Rose (S.faults sink.old) (S.faults sink.new)) }
    ensures counts { S.faults sink.old ≤ S.faults sink.new }
{
    let mut done = 0;
    while done < bytes.len() {
        done += sink.write(&bytes[done..])?;
    }
    Ok(())
}
