use super::{Line, instr_of, word};
use rv_core::{Operands, decode, encode, table};

/// A word as the name, the registers and the immediate of an instruction.
type Reading = (&'static str, [u32; 3], u32);

/// How `word` is read, where it is an instruction.
fn reading(word: u32) -> Option<Reading> {
    let instr = decode(word)?;
    let Operands { rd, rs1, rs2, imm } = table::operands(&instr);
    Some((table::name(table::mnemonic(&instr)), [rd, rs1, rs2], imm))
}

/// Words, and how a disassembler reads them.
static READINGS: [(u32, Line); 13] = [
    (0xaa8f_0563, ("beq", [0, 30, 8], -3414)),
    (0xffe1_7f63, ("bgeu", [0, 2, 30], -2050)),
    (0xaaaa_af6f, ("jal", [30, 0, 0], -351_574)),
    (0x0000_1fef, ("jal", [31, 0, 0], 4096)),
    (0xaaa4_0f67, ("jalr", [30, 8, 0], -1366)),
    (0xffef_2103, ("lw", [2, 30, 0], -2)),
    (0xaa8f_2523, ("sw", [0, 30, 8], -1366)),
    (0xaaa4_3f13, ("sltiu", [30, 8, 0], -1366)),
    (0x41fb_d393, ("srai", [7, 23, 0], 31)),
    (0x40f0_8033, ("sub", [0, 1, 15], 0)),
    (0xaaaa_afb7, ("lui", [31, 0, 0], 0xaaaa_a000)),
    (0x0ff0_000f, ("fence", [0, 0, 0], 0)),
    (0x0010_0073, ("ebreak", [0, 0, 0], 0)),
];

#[test]
fn words_are_those_of_a_disassembler(rt: HostRuntime) {
    for &(code, line) in &READINGS {
        let (name, registers, imm) = line;
        let encoded = encode(&instr_of(&rt, line));
        assert!(rt; encoded == code, "{name}");
        assert!(rt;
            reading(code) == Some((name, registers, word(imm))),
            "{name}"
        );
    }
}

static ILLEGAL: [u32; 10] = [
    0x0000_0000, // all zeros
    0xffff_ffff, // all ones
    0x9002_9002, // two compressed instructions
    0x02b5_0533, // mul
    0x1005_252f, // lr.w
    0xc000_1073, // csrrw
    0x0000_100f, // fence.i
    0x0200_1013, // slli with the amount 32
    0x6000_5013, // srai with another high part
    0x1050_0073, // wfi
];

#[test]
fn neighbours_are_illegal(rt: HostRuntime) {
    for word in ILLEGAL {
        assert!(rt; decode(word).is_none(), "{word:08x}");
    }
}
