ghost use Rattle.std.specs.Prelude.{◌≡◌, ◌<◌, ◌^◌, true, false, Some, None, IfSome, All};
ghost use Rattle.rv_model.specs.Table.{instr_from};
ghost use Rattle.rv_model.specs.Codes.{instr_of};
ghost use Rattle.rv_core.specs.Rows.{HasRegisters};

use crate::decoder;
use rv_model::{Mnemonic, Operands};

/// How many words are remembered.
const PLACES: usize = 1024;

/// A word with the name and the operands of the instruction that it is.
#[derive(Clone, Copy)]
pub struct Reading {
    pub word: u32,
    pub mnemonic: Mnemonic,
    pub operands: Operands,
    pub ghost reads: { instr_of word ≡ Some (instr_from mnemonic operands) },
    pub ghost registers: { HasRegisters operands },
}

impl Reading {
    /// What `word` reads as; nothing where it is no instruction.
    pub fn of(word: u32) -> Option<Reading>
        ensures word { IfSome result (λ r. r.word ≡ word) }
        ensures none { result ≡ None → instr_of word ≡ None }
    {
        let (mnemonic, operands) = decoder::parts(word)?;
        Some(Reading {
            word,
            mnemonic,
            operands,
        })
    }

    /// The reading of `addi x0, x0, 0`.
    pub fn nothing() -> Reading
        ensures { result.word ≡ 0x13 }
    {
        nothing()
    }

    /// Becomes the reading of `word`, or answers false where that is no instruction. Few words are decoded, so that this stays out of the code of
    /// each.
    #[inline(never)]
    fn learn(&mut self, word: u32) -> bool
        ensures word { result ≡ true → self.new.word ≡ word }
        ensures none { result ≡ false → instr_of word ≡ None }
    {
        let Some((mnemonic, operands)) = decoder::parts(word) else {
            return false;
        };
        *self = Reading {
            word,
            mnemonic,
            operands,
        };
        true
    }
}

/// Words that were decoded, with what they read as, so that few are decoded twice. What a word reads as depends on
/// the word alone, so that nothing has to be forgotten.
#[derive(Drop)]
pub struct Readings {
    places: [Reading; PLACES],
}

/// The place of `word`.
#[inline(always)]
fn place_of(word: u32) -> usize
    ensures { result < PLACES }
{
    (word.wrapping_mul(0x9e37_79b1) >> 22) as usize
}

/// The reading of `addi x0, x0, 0`.
fn nothing() -> Reading
    ensures { result.word ≡ 0x13 }
{
    Reading {
        word: 0x13,
        mnemonic: Mnemonic::Addi,
        operands: Operands {
            rd: 0,
            rs1: 0,
            rs2: 0,
            imm: 0,
        },
    }
}

impl Readings {
    /// The readings in which each place has that of `addi x0, x0, 0`.
    pub fn new() -> Readings
        ensures places { All (λ r. r.word ≡ 0x13) result.places }
    {
        Readings {
            places: [nothing(); PLACES],
        }
    }

    /// What `word` reads as, from now on remembered; nothing where it is no instruction.
    #[inline(always)]
    pub(crate) fn read(&mut self, word: u32) -> Option<&Reading>
        ensures word { IfSome result (λ r. r.now.word ≡ word) }
        ensures none { result ≡ None → instr_of word ≡ None }
    {
        let place = &mut self.places[place_of(word)];
        if place.word == word || place.learn(word) {
            Some(place)
        } else {
            None
        }
    }
}
