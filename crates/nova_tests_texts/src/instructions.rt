mod memory;
mod programs;
mod words;

use rv_core::{Instr, Operands, table};
use std::process::Abort;

/// An instruction as the tests have it: its name, rd, rs1 and rs2, and its immediate. An operand that the instruction lacks is 0.
type Line = (&'static str, [u32; 3], i64);

/// `number` as a word, which is counted up from 0 and down from 2^32.
fn word(number: i64) -> u32 {
    u32::try_from(number.rem_euclid(0x1_0000_0000)).unwrap_or(0)
}

fn instr_of(rt: &impl Abort, line: Line) -> Instr {
    let (name, [rd, rs1, rs2], imm) = line;
    let mnemonic = table::named(name.as_bytes()).expect(rt, "a name of the table");
    let imm = word(imm);
    table::instr_from(mnemonic, Operands { rd, rs1, rs2, imm })
}
