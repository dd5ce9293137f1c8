ghost use Rattle.std.specs.Prelude.{◌≡◌, ◌++◌, OnOk, IfOk};
ghost use Rattle.std.specs.String.{string_bytes};
ghost use Rattle.rv_asm.specs.Printed.{register_text, signed_text, upper_text, operand_text, separator, printed};

use crate::name::Name;
use crate::slot::Slot;
use rv_core::table;
use rv_model::{Instr, Operands};
use std::alloc::{AllocError, Global};

/// The name of the register `register` by its number.
fn register_text(alloc: Global, register: u32) -> Result<String, AllocError>
    ensures { IfOk result (λ text. string_bytes text ≡ register_text register) }
{
    format!(in alloc; "x{register}")
}

/// `word` as a signed number, in decimal.
fn signed_text(alloc: Global, word: u32) -> Result<String, AllocError>
    ensures { IfOk result (λ text. string_bytes text ≡ signed_text word) }
{
    if word < 0x8000_0000 {
        return format!(in alloc; "{word}");
    }
    let size = 0x1_0000_0000 - u64::from(word);
    format!(in alloc; "-{size}")
}

/// The upper 20 bits of `word`, in hexadecimal.
fn upper_text(alloc: Global, word: u32) -> Result<String, AllocError>
    ensures { IfOk result (λ text. string_bytes text ≡ upper_text word) }
{
    let upper = word >> 12;
    format!(in alloc; "0x{upper:x}")
}

/// The text of the operand of `operands` that `slot` names.
fn operand_text(alloc: Global, operands: &Operands, slot: Slot) -> Result<String, AllocError>
    ensures { IfOk result (λ text. string_bytes text ≡ operand_text operands.now slot) }
{
    match slot {
        Slot::Rd => register_text(alloc, operands.rd),
        Slot::Rs1 => register_text(alloc, operands.rs1),
        Slot::Rs2 => register_text(alloc, operands.rs2),
        Slot::Number { .. } | Slot::Target { .. } => signed_text(alloc, operands.imm),
        Slot::Upper => upper_text(alloc, operands.imm),
        Slot::Address => {
            let number = signed_text(alloc, operands.imm)?;
            let register = register_text(alloc, operands.rs1)?;
            format!(in alloc; "{number}({register})")
        }
    }
}

/// What stands in front of the operand `index`: a space before the first, a comma and a space before each other.
fn separator(index: usize) -> &'static str
    ensures { result.now ≡ separator index }
{
    if index == 0 { " " } else { ", " }
}

/// The text of `instr`: its name, a space and the operands, with `, ` between them. Registers are `x0` to `x31`. Numbers are decimal, but those of
/// lui and auipc are the upper 20 bits as `0x` and lower hexadecimal digits. Targets are offsets. An instruction without operands is its bare name.
#[tactic(auto, unfolding(crate::specs::Printed::printed))]
pub fn print(alloc: Global, instr: &Instr) -> Result<String, AllocError>
    ensures { IfOk result (λ text. string_bytes text ≡ printed instr.now) }
{
    let mnemonic = table::mnemonic(instr);
    let operands = table::operands(instr);
    let mut text = String::new(alloc);
    text.push_str(table::name(mnemonic))?;
    for (index, slot) in Name::Instruction(mnemonic).slots().iter().enumerate() {
        let operand = operand_text(alloc, &operands, *slot)?;
        text.push_str(separator(index))?;
        text.push_str(operand.as_str())?;
    }
    Ok(text)
}
