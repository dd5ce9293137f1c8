/// An instruction, a variant for each name of the table. It has the registers of its format (0 to 31) and its
/// immediate, sign-extended to a word, or its shift amount (0 to 31).
#[derive(Clone, Copy)]
pub enum Instr {
    // Upper immediates and jumps.
    Lui { rd: u32, imm: u32 },
    Auipc { rd: u32, imm: u32 },
    Jal { rd: u32, imm: u32 },
    Jalr { rd: u32, rs1: u32, imm: u32 },
    // Branches.
    Beq { rs1: u32, rs2: u32, imm: u32 },
    Bne { rs1: u32, rs2: u32, imm: u32 },
    Blt { rs1: u32, rs2: u32, imm: u32 },
    Bge { rs1: u32, rs2: u32, imm: u32 },
    Bltu { rs1: u32, rs2: u32, imm: u32 },
    Bgeu { rs1: u32, rs2: u32, imm: u32 },
    // Loads of 1, 2 and 4 bytes; `Lbu` and `Lhu` fill with zeros.
    Lb { rd: u32, rs1: u32, imm: u32 },
    Lh { rd: u32, rs1: u32, imm: u32 },
    Lw { rd: u32, rs1: u32, imm: u32 },
    Lbu { rd: u32, rs1: u32, imm: u32 },
    Lhu { rd: u32, rs1: u32, imm: u32 },
    // Stores of 1, 2 and 4 bytes.
    Sb { rs1: u32, rs2: u32, imm: u32 },
    Sh { rs1: u32, rs2: u32, imm: u32 },
    Sw { rs1: u32, rs2: u32, imm: u32 },
    // A register and an immediate.
    Addi { rd: u32, rs1: u32, imm: u32 },
    Slti { rd: u32, rs1: u32, imm: u32 },
    Sltiu { rd: u32, rs1: u32, imm: u32 },
    Xori { rd: u32, rs1: u32, imm: u32 },
    Ori { rd: u32, rs1: u32, imm: u32 },
    Andi { rd: u32, rs1: u32, imm: u32 },
    // Shifts by an amount.
    Slli { rd: u32, rs1: u32, imm: u32 },
    Srli { rd: u32, rs1: u32, imm: u32 },
    Srai { rd: u32, rs1: u32, imm: u32 },
    // Two registers.
    Add { rd: u32, rs1: u32, rs2: u32 },
    Sub { rd: u32, rs1: u32, rs2: u32 },
    Sll { rd: u32, rs1: u32, rs2: u32 },
    Slt { rd: u32, rs1: u32, rs2: u32 },
    Sltu { rd: u32, rs1: u32, rs2: u32 },
    Xor { rd: u32, rs1: u32, rs2: u32 },
    Srl { rd: u32, rs1: u32, rs2: u32 },
    Sra { rd: u32, rs1: u32, rs2: u32 },
    Or { rd: u32, rs1: u32, rs2: u32 },
    And { rd: u32, rs1: u32, rs2: u32 },
    // Fence, environment call and breakpoint.
    Fence,
    Ecall,
    Ebreak,
}

/// The operands of an instruction, by the manual's names: registers 0 to 31, and the immediate. An
/// operand that a format lacks is 0.
#[derive(Clone, Copy)]
pub struct Operands {
    pub rd: u32,
    pub rs1: u32,
    pub rs2: u32,
    pub imm: u32,
}
