ghost use Rattle.std.specs.Prelude.{◌≡◌, ◌<◌, IfOk, ◌/◌, ◌%◌, ◌^◌};
ghost use Rattle.nova_range.specs.RangeWords.{HasWord, type_of, meaning_of, word_of};

use crate::range::{Kind, Range};
use crate::rights::Rights;
use bitflags::Flags;

/// Why a word is no range word, in the order in which it is asked.
#[derive(Clone, Copy)]
pub enum WordFault {
    /// The type is 2.
    BadType,
    /// The order is above 20.
    BadOrder,
    /// The base is no multiple of 2 to the power of the order.
    BadBase,
}

/// The number in the `count` bits of `word` from bit `low` on.
fn bits(word: u32, low: u32, count: u32) -> u32
    requires low { low < 32 }
    requires count { count < 32 }
    ensures { result ≡ word / 2 ^ low % 2 ^ count }
{
    (word >> low) % (1 << count)
}

/// Reads the range word `word`. The base is in bits 12 to 31, the order in bits 7 to 11, the rights in bits 2
/// to 6 and the type in bits 0 and 1. A word of type 0 is null, whatever its other bits are.
pub fn read_word(word: u32) -> Result<Option<(Range, Rights)>, WordFault>
    ensures exact { result ≡ meaning_of word }
    ensures sound { IfOk result HasWord }
{
    let kind = match bits(word, 0, 2) {
        0 => return Ok(None),
        1 => Kind::Mem,
        3 => Kind::Obj,
        _ => return Err(WordFault::BadType),
    };
    let base = bits(word, 12, 20);
    let order = bits(word, 7, 5) as u8;
    if order > 20 {
        return Err(WordFault::BadOrder);
    }
    if base % (1 << order) != 0 {
        return Err(WordFault::BadBase);
    }
    let rights = Rights::from_bits_retain(bits(word, 2, 5) as u8);
    Ok(Some((Range { kind, base, order }, rights)))
}

/// The type of a range word of `kind`: 1 for memory, 3 for objects.
fn type_of(kind: Kind) -> u32
    ensures { result ≡ type_of kind }
{
    match kind {
        Kind::Mem => 1,
        Kind::Obj => 3,
    }
}

/// The word of `range`, with rights below 32, or 0 for none.
pub fn word_of(range: Option<(Range, Rights)>) -> u32
    requires { HasWord range }
    ensures { result ≡ word_of range }
{
    let Some((range, rights)) = range else {
        return 0;
    };
    let order = u32::from(range.order);
    let rights = u32::from(rights.bits());
    (range.base << 12) + (order << 7) + (rights << 2) + type_of(range.kind)
}
