use nova_text::Span;
use rv_asm::{AsmFault, assemble, print};
use rv_core::decode;
use std::alloc::{AllocError, Global};
use std::process::Abort;
use std::test::Fail;

/// Asserts the words of `text`.
fn assert_words(rt: &impl Abort, alloc: Global, text: &[u8], wanted: &[u32]) {
    let words = assemble(alloc, text).expect(rt, "words");
    assert!(rt; words.as_slice() == wanted, "{text:?}");
}

/// Asserts that `text` has a fault.
fn assert_fault(rt: &impl Abort, alloc: Global, text: &[u8], fault: AsmFault) {
    let found = assemble(alloc, text).err();
    assert!(rt; found == Some(fault), "{text:?}");
}

/// Lines, and the word of each.
static LINES: [(&[u8], u32); 36] = [
    (b"addi x10, x0, 65", 0x0410_0513),
    (b"addi x1, x2, 2047", 0x7ff1_0093),
    (b"andi x1, x2, -2048", 0x8001_7093),
    (b"lui x1, 0", 0x0000_00b7),
    (b"lui x1, 0xFFFFF", 0xffff_f0b7),
    (b"auipc t6,0", 0x0000_0f97),
    (b"jal ra, -1048576", 0x8000_00ef),
    (b"jal ra, 1048574", 0x7fff_f0ef),
    (b"jalr x0, -2048(x1)", 0x8000_8067),
    (b"beq s0, fp, 4094", 0x7e84_0fe3),
    (b"bgeu a7, s11, -4096", 0x81b8_f063),
    (b"blt x1, x2, -0", 0x0020_c063),
    (b"lw x6, 0x7fF(sp)", 0x7ff1_2303),
    (b"lw x1, -2048(x2)", 0x8001_2083),
    (b"lbu gp, 0(tp)", 0x0002_4183),
    (b"sh x1, 2047(x2)", 0x7e11_1fa3),
    (b"sw x6, -4(x5)", 0xfe62_ae23),
    (b"sb a0, 007(a1)", 0x00a5_83a3),
    (b"srai x1, x2, 31", 0x41f1_5093),
    (b"slli x1, x2, 0", 0x0001_1093),
    (b"sub s2, t3, t0", 0x405e_0933),
    (b"and x31, x30, x29", 0x01df_7fb3),
    (b"sltiu x1,x1,-1", 0xfff0_b093),
    (b"fence", 0x0ff0_000f),
    (b"ecall", 0x0000_0073),
    (b"ebreak", 0x0010_0073),
    (b"nop", 0x0000_0013),
    (b"mv x5, x6", 0x0003_0293),
    (b"ret", 0x0000_8067),
    (b"j -4", 0xffdf_f06f),
    (b"j -1048576", 0x8000_006f),
    (b".word 0", 0),
    (b".word 0xFFFFFFFF", 0xffff_ffff),
    (b"\t addi\r x10 ,\tx0\t,65 # sixty-five\r", 0x0410_0513),
    (b"l:j l", 0x0000_006f),
    (b"beq x0, x0, e\ne:", 0x0000_0263),
];

#[test]
fn lines_are_words(rt: HostRuntime) {
    for &(text, word) in &LINES {
        assert_words(&rt, rt.alloc(), text, &[word]);
    }
}

/// Texts of no word or of several, and these.
static TEXTS: [(&[u8], &[u32]); 17] = [
    (b"", &[]),
    (b" \t\r\n# nop \xff\x00\n\n", &[]),
    (b"li x8, 0x800", &[0x0000_1437, 0x8004_0413]),
    (b"li x8, 2047", &[0x0000_0437, 0x7ff4_0413]),
    (b"li x8, -1", &[0x0000_0437, 0xfff4_0413]),
    (b"li x8, -2147483648", &[0x8000_0437, 0x0004_0413]),
    (b"li x8, 4294967295", &[0x0000_0437, 0xfff4_0413]),
    (b"li x8, 0x12345FFF", &[0x1234_6437, 0xfff4_0413]),
    (b"nop#nop\nret", &[0x0000_0013, 0x0000_8067]),
    (b"nop\n\nret\n", &[0x0000_0013, 0x0000_8067]),
    (b"nop\r\nret\r\n", &[0x0000_0013, 0x0000_8067]),
    (
        b"j E\ne: nop\nE: nop",
        &[0x0080_006f, 0x0000_0013, 0x0000_0013],
    ),
    (
        b"j end\nli x8, 0\nend: nop",
        &[0x00c0_006f, 0x0000_0437, 0x0004_0413, 0x0000_0013],
    ),
    (
        b"loop:\n nop\n_x9: bne x8, x0, loop",
        &[0x0000_0013, 0xfe04_1ee3],
    ),
    (b"j x5\nx5: .word 7", &[0x0040_006f, 7]),
    (b"a: \n\n# b:\nb:\nj b\nj a", &[0x0000_006f, 0xffdf_f06f]),
    (b"nop: nop\nj nop", &[0x0000_0013, 0xffdf_f06f]),
];

#[test]
fn texts_are_their_words(rt: HostRuntime) {
    for &(text, words) in &TEXTS {
        assert_words(&rt, rt.alloc(), text, words);
    }
}

static UNKNOWN_NAMES: [(&[u8], u64, u64); 17] = [
    (b"loop : nop", 0, 4),
    (b"1a: nop", 0, 3),
    (b"a: b: nop", 3, 5),
    (b"a::", 2, 3),
    (b"a:b:c", 2, 5),
    (b"addi,x1, x2", 0, 8),
    (b"ADDI x1, x1, 1", 0, 4),
    (b"nop\n\n\tfoo x99", 6, 9),
    (b"nop\x01", 0, 4),
    (b"\xc3", 0, 1),
    (b"l: end # x", 3, 6),
    (b"mv: mvx x1", 4, 7),
    (b".words 1", 0, 6),
    (b"a: nop\nb: subi x1, x1, 1\nc c", 10, 14),
    (b"j l\nl: foo", 7, 10),
    (b"a: nop\nfoo\na:", 7, 10),
    (b"foo\nj l", 0, 3),
];

#[test]
fn unknown_names_are_refused(rt: HostRuntime) {
    for &(text, start, end) in &UNKNOWN_NAMES {
        let fault = AsmFault::UnknownName(Span { start, end });
        assert_fault(&rt, rt.alloc(), text, fault);
    }
}

static BAD_OPERANDS: [(&[u8], u64, u64); 41] = [
    (b"nop ,", 0, 3),
    (b"l:nop x1", 2, 5),
    (b"addi x1, x2", 0, 4),
    (b"addi x1, x2, 3, 4", 0, 4),
    (b"addi x1 x2, 3", 0, 4),
    (b"addi", 0, 4),
    (b"addi x32, x1, 1", 5, 8),
    (b"addi x1, X2, 1", 9, 11),
    (b"addi x1,, 1", 8, 8),
    (b"addi x1, x2, ", 12, 12),
    (b"addi ,x2,1", 4, 4),
    (b"addi x1, x2, x3", 13, 15),
    (b"addi x01, x2, 3", 5, 8),
    (b"addi x1, x2, --1", 13, 16),
    (b"addi x1, x2, -", 13, 14),
    (b"addi x1, x2, 0X1", 13, 16),
    (b"addi x1, x2, 0x", 13, 15),
    (b"addi x1, x2, 1 0", 13, 16),
    (b"lw x1, 4 (x2)", 7, 13),
    (b"lw x1, 4(x2", 7, 11),
    (b"lw x1, 4(x2))", 7, 13),
    (b"lw x1, (x2)", 7, 11),
    (b"lw x1, 4(x2)x", 7, 13),
    (b"lw x1, 4()", 7, 10),
    (b"lw x1, 4", 7, 8),
    (b"jalr x1, x2, 0", 0, 4),
    (b"slli x1, x2, -0", 13, 15),
    (b"lui x1, -1", 8, 10),
    (b".word -1", 6, 8),
    (b".word a", 6, 7),
    (b"j 3", 2, 3),
    (b"j -99999999999999999999", 2, 23),
    (b"beq x1, x2, 4095", 12, 16),
    (b"j 9a", 2, 4),
    (b"j a-b", 2, 5),
    (b"j a.b", 2, 5),
    (b"fence x1", 0, 5),
    (b"addi x1, x2, 99999\x7f", 13, 19),
    (b"addi x99, x98, 99999", 5, 8),
    (b"lw x1, 5000(x99)", 7, 16),
    (b"beq x1, x99, l", 8, 11),
];

#[test]
fn bad_operands_are_refused(rt: HostRuntime) {
    for &(text, start, end) in &BAD_OPERANDS {
        let fault = AsmFault::BadOperand(Span { start, end });
        assert_fault(&rt, rt.alloc(), text, fault);
    }
}

static LABELS_THAT_ARE_NOT_THERE: [(&[u8], u64, u64); 5] = [
    (b"j x5", 2, 4),
    (b"nop\nbne x1, x2, lop\nloop:", 16, 19),
    (b"a: j A", 5, 6),
    (b"j end # end:", 2, 5),
    (b"jal x1, l\n l :", 8, 9),
];

#[test]
fn labels_that_are_not_there_are_refused(rt: HostRuntime) {
    for &(text, start, end) in &LABELS_THAT_ARE_NOT_THERE {
        let fault = AsmFault::NoLabel(Span { start, end });
        assert_fault(&rt, rt.alloc(), text, fault);
    }
}

static NUMBERS_OUT_OF_RANGE: [(&[u8], u64, u64); 21] = [
    (b"addi x1, x2, 2048", 13, 17),
    (b"addi x1, x2, -2049", 13, 18),
    (b"andi x1, x2, 99999999999999999999", 13, 33),
    (b"addi x1, x2, -99999999999999999999", 13, 34),
    (b"slli x1, x2, 32", 13, 15),
    (b"srai x1, x2, 0x20", 13, 17),
    (b"lw x1, 2048(x2)", 7, 15),
    (b"sw x1, -2049(x2)", 7, 16),
    (b"jalr x1, 0xffffffff(x2)", 9, 23),
    (b"beq x1, x2, 4096", 12, 16),
    (b"beq x1, x2, -4098", 12, 17),
    (b"j 1048576", 2, 9),
    (b"jal x1, 1048576 # nop", 8, 15),
    (b"jal x1, -1048578", 8, 16),
    (b"j 99999999998", 2, 13),
    (b"lui x1, 0x100000", 8, 16),
    (b"auipc x1, 1048576", 10, 17),
    (b"li x1, 4294967296", 7, 17),
    (b"li x1, -2147483649", 7, 18),
    (b".word 0x100000000", 6, 17),
    (b"nop\naddi x1, x2, 2048\nfoo", 17, 21),
];

#[test]
fn numbers_out_of_range_are_refused(rt: HostRuntime) {
    for &(text, start, end) in &NUMBERS_OUT_OF_RANGE {
        let fault = AsmFault::OutOfRange(Span { start, end });
        assert_fault(&rt, rt.alloc(), text, fault);
    }
}

static LABELS_GIVEN_TWICE: [(&[u8], u64, u64); 3] = [
    (b"a:\na: foo x1, x2", 3, 5),
    (b"a: nop\n b: nop\n  a:j x99", 17, 19),
    (b"l:\nL:\nl:", 6, 8),
];

#[test]
fn labels_given_twice_are_refused(rt: HostRuntime) {
    for &(text, start, end) in &LABELS_GIVEN_TWICE {
        let fault = AsmFault::TwiceLabel(Span { start, end });
        assert_fault(&rt, rt.alloc(), text, fault);
    }
}

/// A text with `lines` lines of `nop` between `front` and `back`.
fn with_nops(
    alloc: Global,
    front: &[u8],
    lines: usize,
    back: &[u8],
) -> Result<Vec<u8>, AllocError> {
    let mut text = Vec::new(alloc);
    text.extend_from_slice(front)?;
    for _ in 0..lines {
        text.extend_from_slice(b"nop\n")?;
    }
    text.extend_from_slice(back)?;
    Ok(text)
}

/// Texts with some lines of `nop` in them, and how many words they have. The last has more than a MiB.
static LABELS_IN_REACH: [(&[u8], usize, &[u8], usize); 3] = [
    (b"beq x0, x0, to\n", 1022, b"to:", 1023),
    (b"to:\n", 1024, b"beq x0, x0, to", 1025),
    (b"j to\n", 262_142, b"to:", 262_143),
];

#[test]
fn labels_in_reach_are_taken(rt: HostRuntime) -> Result<(), Fail> {
    for &(front, lines, back, count) in &LABELS_IN_REACH {
        let text = with_nops(rt.alloc(), front, lines, back)?;
        let words = assemble(rt.alloc(), text.as_slice())?;
        assert!(rt; words.len() == count, "{count}");
    }
    Ok(())
}

/// In the last text the line at fault counts as a word.
static LABELS_OUT_OF_REACH: [(&[u8], usize, &[u8], u64, u64); 3] = [
    (b"beq x0, x0, to\n", 1023, b"to:", 12, 14),
    (b"to:\n", 1025, b"beq x0, x0, to", 4116, 4118),
    (b"bne x0, x0, to\n", 1022, b"foo\nto:", 12, 14),
];

#[test]
fn labels_out_of_reach_are_refused(rt: HostRuntime) -> Result<(), Fail> {
    for &(front, lines, back, start, end) in &LABELS_OUT_OF_REACH {
        let text = with_nops(rt.alloc(), front, lines, back)?;
        let fault = AsmFault::OutOfRange(Span { start, end });
        assert_fault(&rt, rt.alloc(), text.as_slice(), fault);
    }
    Ok(())
}

static PRINTED: [(u32, &str); 14] = [
    (0x0410_0513, "addi x10, x0, 65"),
    (0xffff_f0b7, "lui x1, 0xfffff"),
    (0x0000_0f97, "auipc x31, 0x0"),
    (0x8000_00ef, "jal x1, -1048576"),
    (0x0000_006f, "jal x0, 0"),
    (0x8000_8067, "jalr x0, -2048(x1)"),
    (0x81b8_f063, "bgeu x17, x27, -4096"),
    (0x7ff1_2303, "lw x6, 2047(x2)"),
    (0xfe62_ae23, "sw x6, -4(x5)"),
    (0x41f1_5093, "srai x1, x2, 31"),
    (0x405e_0933, "sub x18, x28, x5"),
    (0x0ff0_000f, "fence"),
    (0x0000_0073, "ecall"),
    (0x0010_0073, "ebreak"),
];

/// Asserts how the instruction of `word` is printed, and that the text is assembled as that word.
fn assert_printed(rt: &impl Abort, alloc: Global, word: u32, wanted: &str) {
    let instr = decode(word).expect(rt, "an instruction");
    let text = print(alloc, &instr).expect(rt, "ample memory");
    assert!(rt; text.as_str() == wanted, "{wanted}");
    assert_words(rt, alloc, text.as_bytes(), &[word]);
}

#[test]
fn printed_instructions_are_assembled_again(rt: HostRuntime) {
    for &(word, wanted) in &PRINTED {
        assert_printed(&rt, rt.alloc(), word, wanted);
    }
}
