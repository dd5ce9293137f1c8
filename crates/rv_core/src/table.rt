ghost use Rattle.std.specs.Prelude.{◌≡◌};
ghost use Rattle.rv_model.specs.Table.{row_of, instr_from, mnemonic_of, operands_of};
ghost use Rattle.rv_core.specs.Rows.{mnemonic_named};

use rv_model::{Format, Instr, Mnemonic, Operands};

/// A row of the instruction table: the name, how a word holds the operands, and what must stand in a word's
/// fixed bits. These are the opcode (bits 0 to 6), funct3 (bits 12 to 14) and funct7 (bits 25 to 31).
#[derive(Clone, Copy)]
pub struct Row {
    pub name: &'static str,
    pub format: Format,
    pub opcode: u32,
    pub funct3: Option<u32>,
    pub funct7: Option<u32>,
}

impl Row {
    ghost use Rattle.rv_model.specs.Table.{row, row_of};
    ghost use Rattle.rv_core.specs.Rows.{IsRow, HasCodes};

    fn new(
        name: &'static str,
        format: Format,
        opcode: u32,
        funct3: Option<u32>,
        funct7: Option<u32>,
    ) -> Row
        ensures { IsRow result (row name.now format opcode funct3 funct7) }
    {
        Row {
            name,
            format,
            opcode,
            funct3,
            funct7,
        }
    }

    /// The row of the instruction named `mnemonic`.
    pub fn of(mnemonic: Mnemonic) -> Row
        ensures row { IsRow result (row_of mnemonic) }
        ensures codes { HasCodes result }
    {
        match mnemonic {
            Mnemonic::Lui => Row::new("lui", Format::Upper, 0x37, None, None),
            Mnemonic::Auipc => Row::new("auipc", Format::Upper, 0x17, None, None),
            Mnemonic::Jal => Row::new("jal", Format::Jump, 0x6f, None, None),
            Mnemonic::Jalr => Row::new("jalr", Format::Immediate, 0x67, Some(0), None),
            Mnemonic::Beq => Row::new("beq", Format::Branch, 0x63, Some(0), None),
            Mnemonic::Bne => Row::new("bne", Format::Branch, 0x63, Some(1), None),
            Mnemonic::Blt => Row::new("blt", Format::Branch, 0x63, Some(4), None),
            Mnemonic::Bge => Row::new("bge", Format::Branch, 0x63, Some(5), None),
            Mnemonic::Bltu => Row::new("bltu", Format::Branch, 0x63, Some(6), None),
            Mnemonic::Bgeu => Row::new("bgeu", Format::Branch, 0x63, Some(7), None),
            Mnemonic::Lb => Row::new("lb", Format::Immediate, 0x03, Some(0), None),
            Mnemonic::Lh => Row::new("lh", Format::Immediate, 0x03, Some(1), None),
            Mnemonic::Lw => Row::new("lw", Format::Immediate, 0x03, Some(2), None),
            Mnemonic::Lbu => Row::new("lbu", Format::Immediate, 0x03, Some(4), None),
            Mnemonic::Lhu => Row::new("lhu", Format::Immediate, 0x03, Some(5), None),
            Mnemonic::Sb => Row::new("sb", Format::Store, 0x23, Some(0), None),
            Mnemonic::Sh => Row::new("sh", Format::Store, 0x23, Some(1), None),
            Mnemonic::Sw => Row::new("sw", Format::Store, 0x23, Some(2), None),
            Mnemonic::Addi => Row::new("addi", Format::Immediate, 0x13, Some(0), None),
            Mnemonic::Slti => Row::new("slti", Format::Immediate, 0x13, Some(2), None),
            Mnemonic::Sltiu => Row::new("sltiu", Format::Immediate, 0x13, Some(3), None),
            Mnemonic::Xori => Row::new("xori", Format::Immediate, 0x13, Some(4), None),
            Mnemonic::Ori => Row::new("ori", Format::Immediate, 0x13, Some(6), None),
            Mnemonic::Andi => Row::new("andi", Format::Immediate, 0x13, Some(7), None),
            Mnemonic::Slli => Row::new("slli", Format::Shift, 0x13, Some(1), Some(0x00)),
            Mnemonic::Srli => Row::new("srli", Format::Shift, 0x13, Some(5), Some(0x00)),
            Mnemonic::Srai => Row::new("srai", Format::Shift, 0x13, Some(5), Some(0x20)),
            Mnemonic::Add => Row::new("add", Format::Register, 0x33, Some(0), Some(0x00)),
            Mnemonic::Sub => Row::new("sub", Format::Register, 0x33, Some(0), Some(0x20)),
            Mnemonic::Sll => Row::new("sll", Format::Register, 0x33, Some(1), Some(0x00)),
            Mnemonic::Slt => Row::new("slt", Format::Register, 0x33, Some(2), Some(0x00)),
            Mnemonic::Sltu => Row::new("sltu", Format::Register, 0x33, Some(3), Some(0x00)),
            Mnemonic::Xor => Row::new("xor", Format::Register, 0x33, Some(4), Some(0x00)),
            Mnemonic::Srl => Row::new("srl", Format::Register, 0x33, Some(5), Some(0x00)),
            Mnemonic::Sra => Row::new("sra", Format::Register, 0x33, Some(5), Some(0x20)),
            Mnemonic::Or => Row::new("or", Format::Register, 0x33, Some(6), Some(0x00)),
            Mnemonic::And => Row::new("and", Format::Register, 0x33, Some(7), Some(0x00)),
            Mnemonic::Fence => Row::new("fence", Format::Fence, 0x0f, Some(0), None),
            Mnemonic::Ecall => Row::new("ecall", Format::Alone(0x0000_0073), 0x73, None, None),
            Mnemonic::Ebreak => Row::new("ebreak", Format::Alone(0x0010_0073), 0x73, None, None),
        }
    }
}

/// The forty names, in the order of the table.
const MNEMONICS: [Mnemonic; 40] = [
    Mnemonic::Lui,
    Mnemonic::Auipc,
    Mnemonic::Jal,
    Mnemonic::Jalr,
    Mnemonic::Beq,
    Mnemonic::Bne,
    Mnemonic::Blt,
    Mnemonic::Bge,
    Mnemonic::Bltu,
    Mnemonic::Bgeu,
    Mnemonic::Lb,
    Mnemonic::Lh,
    Mnemonic::Lw,
    Mnemonic::Lbu,
    Mnemonic::Lhu,
    Mnemonic::Sb,
    Mnemonic::Sh,
    Mnemonic::Sw,
    Mnemonic::Addi,
    Mnemonic::Slti,
    Mnemonic::Sltiu,
    Mnemonic::Xori,
    Mnemonic::Ori,
    Mnemonic::Andi,
    Mnemonic::Slli,
    Mnemonic::Srli,
    Mnemonic::Srai,
    Mnemonic::Add,
    Mnemonic::Sub,
    Mnemonic::Sll,
    Mnemonic::Slt,
    Mnemonic::Sltu,
    Mnemonic::Xor,
    Mnemonic::Srl,
    Mnemonic::Sra,
    Mnemonic::Or,
    Mnemonic::And,
    Mnemonic::Fence,
    Mnemonic::Ecall,
    Mnemonic::Ebreak,
];

/// The name of `mnemonic`, in lower case.
pub fn name(mnemonic: Mnemonic) -> &'static str
    ensures { result.now ≡ (row_of mnemonic).name }
{
    Row::of(mnemonic).name
}

/// The instruction that is named `text`, or nothing where no instruction has that name.
pub fn named(text: &[u8]) -> Option<Mnemonic>
    ensures { result ≡ mnemonic_named text.now }
{
    MNEMONICS
        .iter()
        .copied()
        .find(|mnemonic| name(*mnemonic).as_bytes() == text)
}

/// How a word holds the operands of the instruction named `mnemonic`.
pub fn format(mnemonic: Mnemonic) -> Format
    ensures { result ≡ (row_of mnemonic).format }
{
    Row::of(mnemonic).format
}

/// The instruction named `mnemonic` with `operands`. Operands that its format lacks are passed over.
pub fn instr_from(mnemonic: Mnemonic, operands: Operands) -> Instr
    ensures { result ≡ instr_from mnemonic operands }
{
    let Operands { rd, rs1, rs2, imm } = operands;
    match mnemonic {
        Mnemonic::Lui => Instr::Lui { rd, imm },
        Mnemonic::Auipc => Instr::Auipc { rd, imm },
        Mnemonic::Jal => Instr::Jal { rd, imm },
        Mnemonic::Jalr => Instr::Jalr { rd, rs1, imm },
        Mnemonic::Beq => Instr::Beq { rs1, rs2, imm },
        Mnemonic::Bne => Instr::Bne { rs1, rs2, imm },
        Mnemonic::Blt => Instr::Blt { rs1, rs2, imm },
        Mnemonic::Bge => Instr::Bge { rs1, rs2, imm },
        Mnemonic::Bltu => Instr::Bltu { rs1, rs2, imm },
        Mnemonic::Bgeu => Instr::Bgeu { rs1, rs2, imm },
        Mnemonic::Lb => Instr::Lb { rd, rs1, imm },
        Mnemonic::Lh => Instr::Lh { rd, rs1, imm },
        Mnemonic::Lw => Instr::Lw { rd, rs1, imm },
        Mnemonic::Lbu => Instr::Lbu { rd, rs1, imm },
        Mnemonic::Lhu => Instr::Lhu { rd, rs1, imm },
        Mnemonic::Sb => Instr::Sb { rs1, rs2, imm },
        Mnemonic::Sh => Instr::Sh { rs1, rs2, imm },
        Mnemonic::Sw => Instr::Sw { rs1, rs2, imm },
        Mnemonic::Addi => Instr::Addi { rd, rs1, imm },
        Mnemonic::Slti => Instr::Slti { rd, rs1, imm },
        Mnemonic::Sltiu => Instr::Sltiu { rd, rs1, imm },
        Mnemonic::Xori => Instr::Xori { rd, rs1, imm },
        Mnemonic::Ori => Instr::Ori { rd, rs1, imm },
        Mnemonic::Andi => Instr::Andi { rd, rs1, imm },
        Mnemonic::Slli => Instr::Slli { rd, rs1, imm },
        Mnemonic::Srli => Instr::Srli { rd, rs1, imm },
        Mnemonic::Srai => Instr::Srai { rd, rs1, imm },
        Mnemonic::Add => Instr::Add { rd, rs1, rs2 },
        Mnemonic::Sub => Instr::Sub { rd, rs1, rs2 },
        Mnemonic::Sll => Instr::Sll { rd, rs1, rs2 },
        Mnemonic::Slt => Instr::Slt { rd, rs1, rs2 },
        Mnemonic::Sltu => Instr::Sltu { rd, rs1, rs2 },
        Mnemonic::Xor => Instr::Xor { rd, rs1, rs2 },
        Mnemonic::Srl => Instr::Srl { rd, rs1, rs2 },
        Mnemonic::Sra => Instr::Sra { rd, rs1, rs2 },
        Mnemonic::Or => Instr::Or { rd, rs1, rs2 },
        Mnemonic::And => Instr::And { rd, rs1, rs2 },
        Mnemonic::Fence => Instr::Fence,
        Mnemonic::Ecall => Instr::Ecall,
        Mnemonic::Ebreak => Instr::Ebreak,
    }
}

/// The name of `instr`.
pub fn mnemonic(instr: &Instr) -> Mnemonic
    ensures { result ≡ mnemonic_of instr.now }
{
    match *instr {
        Instr::Lui { .. } => Mnemonic::Lui,
        Instr::Auipc { .. } => Mnemonic::Auipc,
        Instr::Jal { .. } => Mnemonic::Jal,
        Instr::Jalr { .. } => Mnemonic::Jalr,
        Instr::Beq { .. } => Mnemonic::Beq,
        Instr::Bne { .. } => Mnemonic::Bne,
        Instr::Blt { .. } => Mnemonic::Blt,
        Instr::Bge { .. } => Mnemonic::Bge,
        Instr::Bltu { .. } => Mnemonic::Bltu,
        Instr::Bgeu { .. } => Mnemonic::Bgeu,
        Instr::Lb { .. } => Mnemonic::Lb,
        Instr::Lh { .. } => Mnemonic::Lh,
        Instr::Lw { .. } => Mnemonic::Lw,
        Instr::Lbu { .. } => Mnemonic::Lbu,
        Instr::Lhu { .. } => Mnemonic::Lhu,
        Instr::Sb { .. } => Mnemonic::Sb,
        Instr::Sh { .. } => Mnemonic::Sh,
        Instr::Sw { .. } => Mnemonic::Sw,
        Instr::Addi { .. } => Mnemonic::Addi,
        Instr::Slti { .. } => Mnemonic::Slti,
        Instr::Sltiu { .. } => Mnemonic::Sltiu,
        Instr::Xori { .. } => Mnemonic::Xori,
        Instr::Ori { .. } => Mnemonic::Ori,
        Instr::Andi { .. } => Mnemonic::Andi,
        Instr::Slli { .. } => Mnemonic::Slli,
        Instr::Srli { .. } => Mnemonic::Srli,
        Instr::Srai { .. } => Mnemonic::Srai,
        Instr::Add { .. } => Mnemonic::Add,
        Instr::Sub { .. } => Mnemonic::Sub,
        Instr::Sll { .. } => Mnemonic::Sll,
        Instr::Slt { .. } => Mnemonic::Slt,
        Instr::Sltu { .. } => Mnemonic::Sltu,
        Instr::Xor { .. } => Mnemonic::Xor,
        Instr::Srl { .. } => Mnemonic::Srl,
        Instr::Sra { .. } => Mnemonic::Sra,
        Instr::Or { .. } => Mnemonic::Or,
        Instr::And { .. } => Mnemonic::And,
        Instr::Fence => Mnemonic::Fence,
        Instr::Ecall => Mnemonic::Ecall,
        Instr::Ebreak => Mnemonic::Ebreak,
    }
}

/// The operands of `instr`. What its format lacks is 0.
pub fn operands(instr: &Instr) -> Operands
    ensures { result ≡ operands_of instr.now }
{
    match *instr {
        Instr::Lui { rd, imm } | Instr::Auipc { rd, imm } | Instr::Jal { rd, imm } => Operands {
            rd,
            rs1: 0,
            rs2: 0,
            imm,
        },
        Instr::Jalr { rd, rs1, imm }
        | Instr::Lb { rd, rs1, imm }
        | Instr::Lh { rd, rs1, imm }
        | Instr::Lw { rd, rs1, imm }
        | Instr::Lbu { rd, rs1, imm }
        | Instr::Lhu { rd, rs1, imm }
        | Instr::Addi { rd, rs1, imm }
        | Instr::Slti { rd, rs1, imm }
        | Instr::Sltiu { rd, rs1, imm }
        | Instr::Xori { rd, rs1, imm }
        | Instr::Ori { rd, rs1, imm }
        | Instr::Andi { rd, rs1, imm }
        | Instr::Slli { rd, rs1, imm }
        | Instr::Srli { rd, rs1, imm }
        | Instr::Srai { rd, rs1, imm } => Operands {
            rd,
            rs1,
            rs2: 0,
            imm,
        },
        Instr::Beq { rs1, rs2, imm }
        | Instr::Bne { rs1, rs2, imm }
        | Instr::Blt { rs1, rs2, imm }
        | Instr::Bge { rs1, rs2, imm }
        | Instr::Bltu { rs1, rs2, imm }
        | Instr::Bgeu { rs1, rs2, imm }
        | Instr::Sb { rs1, rs2, imm }
        | Instr::Sh { rs1, rs2, imm }
        | Instr::Sw { rs1, rs2, imm } => Operands {
            rd: 0,
            rs1,
            rs2,
            imm,
        },
        Instr::Add { rd, rs1, rs2 }
        | Instr::Sub { rd, rs1, rs2 }
        | Instr::Sll { rd, rs1, rs2 }
        | Instr::Slt { rd, rs1, rs2 }
        | Instr::Sltu { rd, rs1, rs2 }
        | Instr::Xor { rd, rs1, rs2 }
        | Instr::Srl { rd, rs1, rs2 }
        | Instr::Sra { rd, rs1, rs2 }
        | Instr::Or { rd, rs1, rs2 }
        | Instr::And { rd, rs1, rs2 } => Operands {
            rd,
            rs1,
            rs2,
            imm: 0,
        },
        Instr::Fence | Instr::Ecall | Instr::Ebreak => Operands {
            rd: 0,
            rs1: 0,
            rs2: 0,
            imm: 0,
        },
    }
}
