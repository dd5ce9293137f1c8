ghost use Rattle.std.specs.Prelude.{◌≡◌, ◌++◌, OnOk, string_bytes};
ghost use Rattle.nova_report.specs.Words.{hexadecimal};

use std::alloc::AllocError;

/// Writes the eight hexadecimal digits of `word`.
#[tactic(auto, using(crate::proofs::Numerals::word_is))]
pub fn write_word(out: &mut String, word: u32) -> Result<(), AllocError>
    ensures { OnOk result (string_bytes out.new ≡ string_bytes out.old ++ hexadecimal 8 word) }
{
    write!(out, "{word:08x}")
}

/// Writes the two hexadecimal digits of `byte`.
#[tactic(auto, using(crate::proofs::Numerals::byte_is))]
pub fn write_byte(out: &mut String, byte: u8) -> Result<(), AllocError>
    ensures { OnOk result (string_bytes out.new ≡ string_bytes out.old ++ hexadecimal 2 byte) }
{
    write!(out, "{byte:02x}")
}
