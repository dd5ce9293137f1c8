// Faults of lines outside of blocks.
use super::assert_faults;
use nova_scenario::Why::{self, Missing, Range, Repeated, Syntax};
use std::alloc::AllocError;

/// Each limit from both sides. Where the line is right, a setting is missing on the next one.
static LIMITS: [(&[u8], u64, Why); 28] = [
    (b"", 1, Missing),
    (b"\n", 2, Missing),
    (b"\n\n \t\r", 4, Missing),
    (b"cpus 0", 1, Range),
    (b"cpus 1", 2, Missing),
    (b"cpus 8", 2, Missing),
    (b"cpus 9", 1, Range),
    (b"ram 0", 2, Missing),
    (b"ram 14", 2, Missing),
    (b"ram 15", 1, Range),
    (b"ram 256", 1, Range),
    (b"consoles 0", 2, Missing),
    (b"consoles 16", 2, Missing),
    (b"consoles 17", 1, Range),
    (b"root 0 0 0 1", 2, Missing),
    (b"root 2 0 0 1", 1, Range),
    (b"root 1 0 0 1", 1, Range),
    (b"root 0 0 255 1", 2, Missing),
    (b"root 0 0 256 1", 1, Range),
    (b"root 0 0 0 0", 1, Range),
    (b"root 0 0 0 16777215", 2, Missing),
    (b"root 0 0 0 16777216", 1, Range),
    (b"root 4294967292 4294967295 0 1", 2, Missing),
    (b"root 4294967295 0 0 1", 1, Range),
    (b"root 4294967296 0 0 1", 1, Range),
    (b"root 0 4294967296 0 1", 1, Range),
    (b"root 0 0 4294967296 1", 1, Range),
    (b"root 0 0 0 4294967296", 1, Range),
];

#[test]
fn lines_keep_their_limits(rt: HostRuntime) -> Result<(), AllocError> {
    assert_faults(&rt, rt.alloc(), b"", &LIMITS)
}

/// How numbers are written.
static NUMBERS: [(&[u8], u64, Why); 16] = [
    (b"cpus 007", 2, Missing),
    (b"cpus 0x8", 2, Missing),
    (b"cpus 0x0000000000008", 2, Missing),
    (b"ram 0xE", 2, Missing),
    (b"ram 0xe", 2, Missing),
    (b"ram 0xF", 1, Range),
    (b"cpus 0X1", 1, Syntax),
    (b"cpus 0x", 1, Syntax),
    (b"cpus 0x1g", 1, Syntax),
    (b"cpus -1", 1, Syntax),
    (b"cpus +1", 1, Syntax),
    (b"cpus 1a", 1, Syntax),
    (b"cpus 4294967296", 1, Range),
    (b"cpus 99999999999999999999", 1, Range),
    (b"cpus 0x100000000", 1, Range),
    (b"cpus 99999999999999999999x", 1, Syntax),
];

#[test]
fn numbers_have_forms_and_limits(rt: HostRuntime) -> Result<(), AllocError> {
    assert_faults(&rt, rt.alloc(), b"", &NUMBERS)
}

/// The forms of lines.
static FORMS: [(&[u8], u64, Why); 24] = [
    (b"cpus", 1, Syntax),
    (b"cpus 1 1", 1, Syntax),
    (b"Cpus 1", 1, Syntax),
    (b"cpu 1", 1, Syntax),
    (b"cpuss 1", 1, Syntax),
    (b"cpus hex", 1, Syntax),
    (b"root 0 0 1", 1, Syntax),
    (b"root 0 0 1 10 0", 1, Syntax),
    (b"root 0 0 1 x", 1, Syntax),
    (b"root", 1, Syntax),
    (b"image 0", 1, Syntax),
    (b"image 0 hexx", 1, Syntax),
    (b"image 0 HEX", 1, Syntax),
    (b"image x hex", 1, Syntax),
    (b"image hex", 1, Syntax),
    (b"image 0 hex 1", 1, Syntax),
    (b"image", 1, Syntax),
    (b"end", 1, Syntax),
    (b"00100073", 1, Syntax),
    (b"l: end", 1, Syntax),
    (b"image 0 hex", 1, Missing),
    (b"image 0 asm", 1, Missing),
    (b"image 4294967296 hex", 1, Missing),
    (b"image 1 hex", 1, Missing),
];

#[test]
fn lines_have_forms(rt: HostRuntime) -> Result<(), AllocError> {
    assert_faults(&rt, rt.alloc(), b"", &FORMS)
}

/// Comments, separators and bytes that stand nowhere else.
static BYTES: [(&[u8], u64, Why); 14] = [
    (b"# \xff\x00", 2, Missing),
    (b"cpus 1 # \xff\x00\x0b", 2, Missing),
    (b"cpus 1#x", 2, Missing),
    (b"#cpus 9", 2, Missing),
    (b"\tcpus\t1 \r", 2, Missing),
    (b"\rcpus\r1", 2, Missing),
    (b"cpus 1\r\nram 15\r\n", 2, Range),
    (b"\x00", 1, Syntax),
    (b"cpus 1 \x0b", 1, Syntax),
    (b"cpus\x0c1", 1, Syntax),
    (b"\xff# x", 1, Syntax),
    (b" \x7f", 1, Syntax),
    (b"cpus 1\xc2\xa0", 1, Syntax),
    (b"cpus 9\x00", 1, Syntax),
];

#[test]
fn comments_and_separators_are_passed_over(rt: HostRuntime) -> Result<(), AllocError> {
    assert_faults(&rt, rt.alloc(), b"", &BYTES)
}

/// The first line at fault, and of its faults the first.
static ORDER: [(&[u8], u64, Why); 17] = [
    (b"cpus 1\ncpus 9", 2, Repeated),
    (b"cpus 1\ncpus 1", 2, Repeated),
    (b"cpus 1\ncpus x", 2, Syntax),
    (b"cpus 9\ncpus x", 1, Range),
    (b"ram 0\nram 99999999999", 2, Repeated),
    (b"consoles 1\n\n#\nconsoles 1", 4, Repeated),
    (b"root 0 0 0 1\nroot 1 0 0 1", 2, Repeated),
    (b"root 1 0 0 1\nroot 1 0 0 1", 1, Range),
    (b"cpus 1\ncpus 1\nx", 2, Repeated),
    (b"cpus 1\nx\ncpus 1", 2, Syntax),
    (b"cpus 1\nimage 0 hex\nzz", 2, Missing),
    (b"cpus 1\nimage 1 hexx", 2, Syntax),
    (
        b"cpus 1\nram 0\nconsoles 0\nimage 0 hex\nend\nroot 0 0 0 1",
        4,
        Missing,
    ),
    (b"cpus 1\nram 0\nconsoles 0\n", 4, Missing),
    (b"cpus 1\nram 0\nroot 0 0 0 1", 4, Missing),
    (b"cpus 1\nconsoles 0\nroot 0 0 0 1", 4, Missing),
    (b"ram 1\nconsoles 0\nroot 0 0 0 1\n\n", 5, Missing),
];

#[test]
fn the_first_fault_is_answered(rt: HostRuntime) -> Result<(), AllocError> {
    assert_faults(&rt, rt.alloc(), b"", &ORDER)
}
