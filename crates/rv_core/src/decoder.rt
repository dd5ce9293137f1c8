ghost use Rattle.std.specs.Prelude.{◌≡◌, ◌<◌, ◌^◌, IfSome, option_map};
ghost use Rattle.rv_model.specs.Words.{field, extended};
ghost use Rattle.rv_model.specs.Table.{instr_from};
ghost use Rattle.rv_model.specs.Table.{branch_code, load_code, store_code, immediate_code, register_code, system_code};
ghost use Rattle.rv_core.specs.Rows.{mnemonic_in, HasRegisters};
ghost use Rattle.rv_core.specs.Encodable.{IsEncodable};
ghost use Rattle.rv_model.specs.Codes.{immediate_of, operands_in, instr_of};

use crate::table;
use rv_model::{Format, Instr, Mnemonic, Operands};

/// The number in the `count` bits of `word` from bit `low` on.
pub(crate) fn field_of(word: u32, low: u32, count: u32) -> u32
    requires low { low < 32 }
    requires count { count < 32 }
    ensures { result ≡ field word low count }
{
    (word >> low) & ((1 << count) - 1)
}

/// Extends the sign of `number`, of `bits` bits, to 32.
pub(crate) fn extend(number: u32, bits: u32) -> u32
    requires some { 0 < bits }
    requires bits { bits < 32 }
    requires fits { number < 2 ^ bits }
    ensures { result ≡ extended bits number }
{
    if number < 1 << (bits - 1) {
        number
    } else {
        number + (u32::MAX - ((1 << bits) - 1))
    }
}

/// The immediate that `word` holds in `format`.
fn immediate(format: Format, word: u32) -> u32
    ensures { result ≡ immediate_of format word }
{
    match format {
        Format::Register | Format::Fence | Format::Alone(_) => 0,
        Format::Immediate => extend(field_of(word, 20, 12), 12),
        Format::Shift => field_of(word, 20, 5),
        Format::Store => extend((field_of(word, 25, 7) << 5) + field_of(word, 7, 5), 12),
        Format::Branch => {
            let high = (field_of(word, 31, 1) << 12) + (field_of(word, 7, 1) << 11);
            extend(
                high + (field_of(word, 25, 6) << 5) + (field_of(word, 8, 4) << 1),
                13,
            )
        }
        Format::Upper => field_of(word, 12, 20) << 12,
        Format::Jump => {
            let high = (field_of(word, 31, 1) << 20) + (field_of(word, 12, 8) << 12);
            extend(
                high + (field_of(word, 20, 1) << 11) + (field_of(word, 21, 10) << 1),
                21,
            )
        }
    }
}

/// The operands that `word` holds in `format`: the registers in their places, and the immediate.
fn operands_in(format: Format, word: u32) -> Operands
    ensures fields { result ≡ operands_in format word }
    ensures registers { HasRegisters result }
{
    Operands {
        rd: field_of(word, 7, 5),
        rs1: field_of(word, 15, 5),
        rs2: field_of(word, 20, 5),
        imm: immediate(format, word),
    }
}

/// The name of the instruction that `word` is, or nothing where it has no row in the table.
#[inline(always)]
fn mnemonic_in(word: u32) -> Option<Mnemonic>
    ensures { result ≡ mnemonic_in word }
{
    let funct3 = field_of(word, 12, 3);
    match field_of(word, 0, 7) {
        0x37 => Some(Mnemonic::Lui),
        0x17 => Some(Mnemonic::Auipc),
        0x6f => Some(Mnemonic::Jal),
        0x67 if funct3 == 0 => Some(Mnemonic::Jalr),
        0x63 => branch(word),
        0x03 => load(word),
        0x23 => store(word),
        0x13 => immediate_operation(word),
        0x33 => register_operation(word),
        0x0f if funct3 == 0 => Some(Mnemonic::Fence),
        0x73 => system(word),
        _ => None,
    }
}

/// The branch that `word`, with the branches' opcode, is.
fn branch(word: u32) -> Option<Mnemonic>
    requires { field word 0 7 ≡ branch_code }
    ensures { result ≡ mnemonic_in word }
{
    match field_of(word, 12, 3) {
        0 => Some(Mnemonic::Beq),
        1 => Some(Mnemonic::Bne),
        4 => Some(Mnemonic::Blt),
        5 => Some(Mnemonic::Bge),
        6 => Some(Mnemonic::Bltu),
        7 => Some(Mnemonic::Bgeu),
        _ => None,
    }
}

/// The load that `word`, with the loads' opcode, is.
fn load(word: u32) -> Option<Mnemonic>
    requires { field word 0 7 ≡ load_code }
    ensures { result ≡ mnemonic_in word }
{
    match field_of(word, 12, 3) {
        0 => Some(Mnemonic::Lb),
        1 => Some(Mnemonic::Lh),
        2 => Some(Mnemonic::Lw),
        4 => Some(Mnemonic::Lbu),
        5 => Some(Mnemonic::Lhu),
        _ => None,
    }
}

/// The store that `word`, with the stores' opcode, is.
fn store(word: u32) -> Option<Mnemonic>
    requires { field word 0 7 ≡ store_code }
    ensures { result ≡ mnemonic_in word }
{
    match field_of(word, 12, 3) {
        0 => Some(Mnemonic::Sb),
        1 => Some(Mnemonic::Sh),
        2 => Some(Mnemonic::Sw),
        _ => None,
    }
}

/// The operation on a register and an immediate that `word`, with their opcode, is.
fn immediate_operation(word: u32) -> Option<Mnemonic>
    requires { field word 0 7 ≡ immediate_code }
    ensures { result ≡ mnemonic_in word }
{
    match (field_of(word, 12, 3), field_of(word, 25, 7)) {
        (0, _) => Some(Mnemonic::Addi),
        (1, 0x00) => Some(Mnemonic::Slli),
        (2, _) => Some(Mnemonic::Slti),
        (3, _) => Some(Mnemonic::Sltiu),
        (4, _) => Some(Mnemonic::Xori),
        (5, 0x00) => Some(Mnemonic::Srli),
        (5, 0x20) => Some(Mnemonic::Srai),
        (6, _) => Some(Mnemonic::Ori),
        (7, _) => Some(Mnemonic::Andi),
        _ => None,
    }
}

/// The operation on two registers that `word`, with their opcode, is.
fn register_operation(word: u32) -> Option<Mnemonic>
    requires { field word 0 7 ≡ register_code }
    ensures { result ≡ mnemonic_in word }
{
    match (field_of(word, 12, 3), field_of(word, 25, 7)) {
        (0, 0x00) => Some(Mnemonic::Add),
        (0, 0x20) => Some(Mnemonic::Sub),
        (1, 0x00) => Some(Mnemonic::Sll),
        (2, 0x00) => Some(Mnemonic::Slt),
        (3, 0x00) => Some(Mnemonic::Sltu),
        (4, 0x00) => Some(Mnemonic::Xor),
        (5, 0x00) => Some(Mnemonic::Srl),
        (5, 0x20) => Some(Mnemonic::Sra),
        (6, 0x00) => Some(Mnemonic::Or),
        (7, 0x00) => Some(Mnemonic::And),
        _ => None,
    }
}

/// The system instruction that `word`, with their opcode, is.
fn system(word: u32) -> Option<Mnemonic>
    requires { field word 0 7 ≡ system_code }
    ensures { result ≡ mnemonic_in word }
{
    match word {
        0x0000_0073 => Some(Mnemonic::Ecall),
        0x0010_0073 => Some(Mnemonic::Ebreak),
        _ => None,
    }
}

/// The name and the operands of the instruction that `word` is, or nothing where it is none.
#[inline(always)]
#[tactic(auto, unfolding(rv_model::specs::Codes::instr_of))]
pub(crate) fn parts(word: u32) -> Option<(Mnemonic, Operands)>
    ensures table { option_map (λ p. instr_from p.0 p.1) result ≡ instr_of word }
    ensures registers { IfSome result (λ p. HasRegisters p.1) }
{
    let mnemonic = mnemonic_in(word)?;
    Some((mnemonic, operands_in(table::format(mnemonic), word)))
}

/// The instruction that `word` is, or nothing where no row of the table has it. (RV32I, "Base Instruction Formats".)
pub fn decode(word: u32) -> Option<Instr>
    ensures table { result ≡ instr_of word }
    ensures encodable { IfSome result IsEncodable }
{
    let (mnemonic, operands) = parts(word)?;
    Some(table::instr_from(mnemonic, operands))
}
