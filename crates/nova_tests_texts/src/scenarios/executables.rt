// Blocks of executables.
use super::{assert_faults, assert_images};
use nova_elf::ElfFault::{Class, Dynamic, Machine, NotElf, Segment};
use nova_scenario::Why::{self, Elf, Missing, Overlap, Range, Syntax};
use nova_scenario::{Scenario, ScenarioFault, read};
use std::alloc::{AllocError, Global};
use std::test::Fail;

/// The settings of the texts below, on four lines.
static ENTRY: &[u8] = b"cpus 1\nram 0\nconsoles 0\nroot entry 0 1 10\n";

/// An executable of one instruction, `ebreak`, at address 0, with four more bytes of memory.
static EBREAK: &[u8] =
    b"7f454c460101010000000000000000000200f3000100000000000000340000000000000000000000340020000100000000000000010000005400000000000000000000000400000008000000050000000400000073001000";

/// Digits of it that are changed, each with the fault that comes of it where it lies at 0 and is the only image.
static CHANGED: [(usize, &[u8], Why); 10] = [
    (0, b"7e", Elf(NotElf)),
    (8, b"02", Elf(Class)),
    (36, b"3e", Elf(Machine)),
    (104, b"02", Elf(Dynamic(0))),
    (136, b"05", Elf(Segment(0))),
    (144, b"03", Elf(Segment(0))),
    (48, b"02", Range),
    (144, b"0110", Range),
    (122, b"10", Range),
    (0, b"7g", Syntax),
];

/// What stands in the place of an executable, or after an executable that lies at 0.
static OTHERS: [(&[u8], u64, Why); 10] = [
    (b"", 5, Missing),
    (b"image 0 hex\n00100073\nend", 8, Missing),
    (b"image 0 elf", 6, Missing),
    (b"image 0 elf\nend", 6, Elf(NotElf)),
    (b"image 0 elf\n7f4\nend", 6, Syntax),
    (b"image 0 elf\n7f 4c\n0x12\nend", 7, Syntax),
    (b"image 0 elf\n7f\xff\nend", 6, Syntax),
    (b"image 4096 elf\nend", 5, Range),
    (b"image 0 ELF\nend", 5, Syntax),
    (b"image entry elf\nend", 5, Syntax),
];

/// What stands after an executable at 0 that takes 8 bytes, of which 4 are zeros.
static SHARING: [(&[u8], u64, Why); 6] = [
    (b"image 0 hex\n00000000\nend", 10, Overlap),
    (b"image 4 hex\n00000000\nend", 10, Overlap),
    (
        b"image 8 hex\n00000000\nend\nimage 8 asm\nnop\nend",
        13,
        Overlap,
    ),
    (
        b"image 4 elf\n7f454c460101010000000000000000000200f3000100000000000000340000000000000000000000340020000100000000000000010000005400000000000000000000000400000008000000050000000400000073001000\nend",
        10,
        Overlap,
    ),
    (
        b"image 4 elf\n7f454c460101010000000000000000000200f3000100000000000000340000000000000000000000340020000100000000000000010000005400000000000000000000000400000000100000050000000400000073001000\nend",
        10,
        Range,
    ),
    (
        b"image 4 elf\n7f454c4601010100000000000000000002003e000100000000000000340000000000000000000000340020000100000000000000010000005400000000000000000000000400000000100000050000000400000073001000\nend",
        10,
        Elf(Machine),
    ),
];

/// A scenario with such parts after its settings.
fn text_of(alloc: Global, parts: &[&[u8]]) -> Result<Vec<u8>, AllocError> {
    let mut text = Vec::from_slice(alloc, ENTRY)?;
    for part in parts {
        text.extend_from_slice(part)?;
    }
    Ok(text)
}

/// A scenario with the executable, which has other digits from `place` on.
fn changed(alloc: Global, place: usize, digits: &[u8]) -> Result<Vec<u8>, AllocError> {
    let mut bytes = Vec::from_slice(alloc, EBREAK)?;
    for (index, digit) in digits.iter().enumerate() {
        if let Some(old) = bytes.get_mut(place.saturating_add(index)) {
            *old = *digit;
        }
    }
    text_of(alloc, &[b"image 0 elf\n", &bytes, b"\nend\n"])
}

#[test]
fn executables_have_faults(rt: HostRuntime) -> Result<(), Fail> {
    for &(place, digits, why) in &CHANGED {
        let line = if why == Syntax { 6 } else { 7 };
        let want = ScenarioFault::At { line, why };
        let text = changed(rt.alloc(), place, digits)?;
        assert!(rt;
            read(rt.alloc(), &text).err() == Some(want),
            "place {place}"
        );
    }
    Ok(())
}

#[test]
fn blocks_of_executables_have_faults(rt: HostRuntime) -> Result<(), AllocError> {
    assert_faults(&rt, rt.alloc(), ENTRY, &OTHERS)
}

/// The settings and the executable.
fn before(alloc: Global) -> Result<Vec<u8>, AllocError> {
    text_of(alloc, &[b"image 0 elf\n", EBREAK, b"\nend\n"])
}

#[test]
fn zero_filled_bytes_are_shared_with_none(rt: HostRuntime) -> Result<(), AllocError> {
    let text = before(rt.alloc())?;
    assert_faults(&rt, rt.alloc(), &text, &SHARING)
}

#[test]
fn digits_are_of_either_case_and_lines_of_any_length(rt: HostRuntime) -> Result<(), Fail> {
    let text = text_of(
        rt.alloc(),
        &[
            b"image 8 elf\n7F454c46 01 0101 # ELF\n\n",
            b"0000000000000000000200F3000100000000000000\n34000000000000000000000034002000010000000000000001000000\r\n",
            b"\t5400000001000000000000000400000008000000050000000400000073001000\nend",
        ],
    )?;
    let scenario = read(rt.alloc(), &text)?;
    let bytes = [0x73, 0, 0x10, 0, 0, 0, 0, 0];
    assert!(rt; scenario.pc == 8);
    assert_images(
        &rt,
        rt.alloc(),
        scenario.images.as_slice(),
        &[(9, bytes.as_slice())],
    );
    Ok(())
}

#[test]
fn an_executable_without_its_last_byte_is_refused(rt: HostRuntime) -> Result<(), Fail> {
    let (short, _) = EBREAK.split_at(174);
    let text = text_of(rt.alloc(), &[b"image 0 elf\n", short, b"\nend"])?;
    let want = ScenarioFault::At {
        line: 7,
        why: Elf(Segment(0)),
    };
    assert!(rt; read(rt.alloc(), &text).err() == Some(want));
    Ok(())
}

/// Reads the executable twice: at address 0, and as a second image at another.
fn second(alloc: Global, address: &[u8]) -> Result<Result<Scenario, ScenarioFault>, AllocError> {
    let text = text_of(
        alloc,
        &[
            b"image 0 elf\n",
            EBREAK,
            b"\nend\nimage ",
            address,
            b" elf\n",
            EBREAK,
            b"\nend",
        ],
    )?;
    Ok(read(alloc, &text))
}

#[test]
fn segments_share_no_byte(rt: HostRuntime) -> Result<(), Fail> {
    let overlap = ScenarioFault::At {
        line: 10,
        why: Overlap,
    };
    assert!(rt; second(rt.alloc(), b"4")?.err() == Some(overlap));
    Ok(())
}

#[test]
fn segments_may_lie_side_by_side(rt: HostRuntime) -> Result<(), Fail> {
    let scenario = second(rt.alloc(), b"8")??;
    let bytes = [0x73, 0, 0x10, 0, 0, 0, 0, 0];
    let wanted = [(0, bytes.as_slice()), (8, bytes.as_slice())];
    assert!(rt; scenario.pc == 0);
    assert_images(&rt, rt.alloc(), scenario.images.as_slice(), &wanted);
    Ok(())
}
