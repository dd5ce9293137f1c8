ghost use Rattle.std.specs.Prelude.{◌≡◌, ◌<◌, ◌^◌};
ghost use Rattle.rv_model.specs.Words.{field};
ghost use Rattle.rv_model.specs.Codes.{packed, code, word_of};

use crate::decoder::field_of;
use crate::table;
use crate::table::Row;
use rv_model::{Format, Instr, Operands};

/// The code `fixed` of a row, or 0 where the row leaves it open.
fn code(fixed: Option<u32>) -> u32
    ensures { result ≡ code fixed }
{
    fixed.unwrap_or(0)
}

/// The word of `format` with these codes and operands.
fn packed(format: Format, opcode: u32, funct3: u32, funct7: u32, operands: Operands) -> u32
    requires opcode { opcode < 2 ^ 7 }
    requires funct3 { funct3 < 2 ^ 3 }
    requires funct7 { funct7 < 2 ^ 7 }
    ensures { result ≡ packed format opcode funct3 funct7 operands }
{
    let codes = opcode + (funct3 << 12);
    let rd = field_of(operands.rd, 0, 5) << 7;
    let rs1 = field_of(operands.rs1, 0, 5) << 15;
    let rs2 = field_of(operands.rs2, 0, 5) << 20;
    let imm = operands.imm;
    match format {
        Format::Register => codes + rd + rs1 + rs2 + (funct7 << 25),
        Format::Immediate => codes + rd + rs1 + (field_of(imm, 0, 12) << 20),
        Format::Shift => codes + rd + rs1 + (field_of(imm, 0, 5) << 20) + (funct7 << 25),
        Format::Store => {
            codes + rs1 + rs2 + (field_of(imm, 0, 5) << 7) + (field_of(imm, 5, 7) << 25)
        }
        Format::Branch => {
            let low = (field_of(imm, 11, 1) << 7) + (field_of(imm, 1, 4) << 8);
            let high = (field_of(imm, 5, 6) << 25) + (field_of(imm, 12, 1) << 31);
            codes + rs1 + rs2 + low + high
        }
        Format::Upper => opcode + rd + (field_of(imm, 12, 20) << 12),
        Format::Jump => {
            let low = (field_of(imm, 12, 8) << 12) + (field_of(imm, 11, 1) << 20);
            let high = (field_of(imm, 1, 10) << 21) + (field_of(imm, 20, 1) << 31);
            opcode + rd + low + high
        }
        Format::Fence => 0x0ff0_000f,
        Format::Alone(word) => word,
    }
}

/// The word that encodes `instr`; a fence, which has several, is `0x0ff0_000f`. A register counts by its low
/// five bits, and an immediate by the bits that its format holds.
#[tactic(auto, unfolding(rv_model::specs::Codes::word_of))]
pub fn encode(instr: &Instr) -> u32
    ensures { result ≡ word_of instr.now }
{
    let row = Row::of(table::mnemonic(instr));
    packed(
        row.format,
        row.opcode,
        code(row.funct3),
        code(row.funct7),
        table::operands(instr),
    )
}
