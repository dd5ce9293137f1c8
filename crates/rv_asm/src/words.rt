ghost use Rattle.std.specs.Prelude.{◌≡◌, ◌≤◌, ◌++◌, length, map, OnOk, OnErr};
ghost use Rattle.rv_asm.specs.Name.{items_of, item_word, lower_part, Does};
ghost use Rattle.rv_model.specs.Table.{instr_from};
ghost use Rattle.rv_asm.specs.declared.name.Name.TheVariants.{Short};
ghost use Rattle.rv_asm.specs.declared.name.ShortForm.TheVariants.{Li};
ghost use Rattle.rv_asm.specs.Words.{words_in};

use crate::name::{Name, ShortForm};
use rv_core::{encode, table};
use rv_model::{Mnemonic, Operands};
use std::alloc::AllocError;

/// The words of a line.
#[derive(Clone, Copy)]
pub enum Words {
    Nothing,
    One(u32),
    Two(u32, u32),
}

impl Words {
    /// How many words they are.
    pub fn count(self) -> u64
        ensures { result ≡ length (words_in self) }
    {
        match self {
            Words::Nothing => 0,
            Words::One(_) => 1,
            Words::Two(_, _) => 2,
        }
    }

    /// Appends the words to `list`. Where memory is refused, a part of them may be there.
    pub fn push_to(self, list: &mut Vec<u32>) -> Result<(), AllocError>
        ensures words { OnOk result (list.new.items ≡ list.old.items ++ words_in self) }
        ensures memory { OnErr result (1 ≤ length (words_in self)) }
    {
        match self {
            Words::Nothing => {}
            Words::One(word) => list.push(word)?,
            Words::Two(first, second) => {
                list.push(first)?;
                list.push(second)?;
            }
        }
        Ok(())
    }
}

/// The low twelve bits of `number` as a signed number.
fn lower_part(number: u32) -> u32
    ensures { result ≡ lower_part number }
{
    let low = number % 0x1000;
    if low < 0x800 { low } else { low + 0xffff_f000 }
}

/// The word of the instruction `mnemonic` with `operands`.
fn word(mnemonic: Mnemonic, operands: Operands) -> u32
    ensures { result ≡ item_word (Does (instr_from mnemonic operands)) }
{
    encode(&table::instr_from(mnemonic, operands))
}

/// The words of `li` with `operands`.
fn load_immediate(operands: Operands) -> Words
    ensures { words_in result ≡ map item_word (items_of (Short Li) operands) }
{
    let lower = lower_part(operands.imm);
    let upper = Operands {
        imm: operands.imm.wrapping_sub(lower),
        ..operands
    };
    let addition = Operands {
        rs1: operands.rd,
        imm: lower,
        ..operands
    };
    Words::Two(word(Mnemonic::Lui, upper), word(Mnemonic::Addi, addition))
}

/// The words of the instruction `name` with `operands`.
pub fn words_of(name: Name, operands: Operands) -> Words
    ensures { words_in result ≡ map item_word (items_of name operands) }
{
    match name {
        Name::Instruction(mnemonic) => Words::One(word(mnemonic, operands)),
        Name::Short(ShortForm::Nop | ShortForm::Mv) => Words::One(word(Mnemonic::Addi, operands)),
        Name::Short(ShortForm::J) => Words::One(word(Mnemonic::Jal, operands)),
        Name::Short(ShortForm::Ret) => Words::One(word(Mnemonic::Jalr, operands)),
        Name::Short(ShortForm::Li) => load_immediate(operands),
        Name::Short(ShortForm::Word) => Words::One(operands.imm),
    }
}
