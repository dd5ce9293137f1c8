mod executables;
mod lines;
mod sources;

use nova_scenario::Why::{self, Asm, Missing, Overlap, Range, Repeated, Syntax};
use nova_scenario::{Image, Scenario, ScenarioFault, read};
use nova_text::Span;
use rv_asm::AsmFault::{BadOperand, NoLabel, OutOfRange, TwiceLabel, UnknownName};
use std::alloc::{AllocError, Global};
use std::process::Abort;
use std::test::Fail;

/// The settings of the texts below, on four lines.
static SETTINGS: &[u8] = b"cpus 1\nram 0\nconsoles 0\nroot 0 0 0 1\n";

/// Hex blocks after the settings.
static HEX: [(&[u8], u64, Why); 35] = [
    (b"cpus 1", 5, Repeated),
    (b"ram 99", 5, Repeated),
    (b"root 0 0 0 1", 5, Repeated),
    (b"consoles 0", 5, Repeated),
    (b"image 4096 hex\nend", 5, Range),
    (b"image 4093 hex", 5, Range),
    (b"image 2 hex", 5, Range),
    (b"image 4294967292 hex", 5, Range),
    (b"image 4294967296 asm", 5, Range),
    (b"image 4094 hex\nx", 5, Range),
    (b"image 4092 hex\n00000000 00000000\nend", 7, Range),
    (b"image 4092 hex\n\n00000000\n00000000\nend\nx", 9, Range),
    (b"image 0 hex\n0010007\nend", 6, Syntax),
    (b"image 0 hex\n001000731\nend", 6, Syntax),
    (b"image 0 hex\n0010007g", 6, Syntax),
    (b"image 0 hex\n0x100073\nend", 6, Syntax),
    (b"image 0 hex\n00000000,00000000", 6, Syntax),
    (b"image 0 hex\n00000000 1\nend", 6, Syntax),
    (b"image 4092 hex\n00000000 00000000\nx\nend", 7, Syntax),
    (b"image 0 hex\nend x\nend", 6, Syntax),
    (b"image 0 hex\nl: end\nend", 6, Syntax),
    (b"image 0 hex\nEND\nend", 6, Syntax),
    (b"image 0 hex\nimage 4 hex", 6, Syntax),
    (b"image 0 hex\ncpus 1", 6, Syntax),
    (b"image 0 hex\n00000000 \xff\nend", 6, Syntax),
    (b"image 0 hex\n0000000\x00\nend", 6, Syntax),
    (b"image 0 hex\nend \xff", 6, Syntax),
    (b"image 0 hex", 6, Missing),
    (b"image 0 hex\n", 6, Missing),
    (b"image 0 hex\n00000000", 7, Missing),
    (b"image 0 hex\n00000000\n\n# end\n", 9, Missing),
    (b"image 4092 hex\n00000000 00000000", 7, Missing),
    (b"image 0 hex\nend\ncpus 1", 7, Repeated),
    (b"image 0 hex\nend\nend", 7, Syntax),
    (b"image 0 hex\nend\nimage 0 hex", 8, Missing),
];

/// Images that share bytes.
static APART: [(&[u8], u64, Why); 8] = [
    (
        b"image 0 hex\n00000000\nend\nimage 0 hex\n00000000\nend",
        10,
        Overlap,
    ),
    (
        b"image 4 hex\n00000000\nend\nimage 0 hex\n00000000 00000000\nend",
        10,
        Overlap,
    ),
    (
        b"image 0 hex\n00000000 00000000\nend\nimage 4 hex\n00000000\nend",
        10,
        Overlap,
    ),
    (
        b"image 0 hex\n00000000\n00000000\n00000000\nend\nimage 4 hex\n00000000\nend",
        12,
        Overlap,
    ),
    (
        b"image 4 hex\n00000000\nend\nimage 0 hex\n00000000\n00000000 00000000\nend",
        11,
        Overlap,
    ),
    (
        b"image 4088 hex\n00000000 00000000\nend\nimage 4092 hex\n00000000 00000000\nend",
        10,
        Range,
    ),
    (
        b"image 8 hex\n00000000\nend\nimage 0 hex\n00000000\nend\nimage 4 hex\n00000000 00000000\nend",
        13,
        Overlap,
    ),
    (
        b"image 8 hex\n00000000\nend\nimage 0 hex\n00000000\nend\nimage 0 hex\n00000000 00000000\nend",
        13,
        Overlap,
    ),
];

/// Asm blocks after the settings.
static ASSEMBLED: [(&[u8], u64, Why); 29] = [
    (
        b"image 0 asm\nfoo\nend",
        6,
        Asm(UnknownName(Span { start: 0, end: 3 })),
    ),
    (
        b"image 0 asm\nnop\n\n nop\n foo x1\nend",
        9,
        Asm(UnknownName(Span { start: 11, end: 14 })),
    ),
    (
        b"image 0 asm\nnop\nend x\nend",
        7,
        Asm(UnknownName(Span { start: 4, end: 7 })),
    ),
    (
        b"image 0 asm\nl: end\nend",
        6,
        Asm(UnknownName(Span { start: 3, end: 6 })),
    ),
    (
        b"image 0 asm\naddi x1, x2\nend",
        6,
        Asm(BadOperand(Span { start: 0, end: 4 })),
    ),
    (
        b"image 0 asm\naddi x1, x2, x3\nend",
        6,
        Asm(BadOperand(Span { start: 13, end: 15 })),
    ),
    (
        b"image 0 asm\naddi x1, x2, 2048\nend",
        6,
        Asm(OutOfRange(Span { start: 13, end: 17 })),
    ),
    (
        b"image 0 asm\na:\na:\nend",
        7,
        Asm(TwiceLabel(Span { start: 3, end: 5 })),
    ),
    (
        b"image 0 asm\nj x\nend",
        6,
        Asm(NoLabel(Span { start: 2, end: 3 })),
    ),
    (
        b"image 0 asm\nj x\nx: foo\nend",
        7,
        Asm(UnknownName(Span { start: 7, end: 10 })),
    ),
    (
        b"image 0 asm\nj x\nend\nx: nop",
        6,
        Asm(NoLabel(Span { start: 2, end: 3 })),
    ),
    (b"image 0 asm\n\xff\nfoo\nend", 6, Syntax),
    (b"image 0 asm\nfoo \xff\nend", 6, Syntax),
    (
        b"image 0 asm\nfoo\n\xff\nend",
        6,
        Asm(UnknownName(Span { start: 0, end: 3 })),
    ),
    (b"image 0 asm\nnop\x0b\nend", 6, Syntax),
    (b"image 0 asm\nnop\nnop \x00\nend", 7, Syntax),
    (b"image 0 asm\n\x00\n\x00\nend", 6, Syntax),
    (b"image 0 asm\nnop", 7, Missing),
    (b"image 0 asm", 6, Missing),
    (
        b"image 0 asm\nfoo",
        6,
        Asm(UnknownName(Span { start: 0, end: 3 })),
    ),
    (
        b"image 0 asm\nfoo\n\n",
        6,
        Asm(UnknownName(Span { start: 0, end: 3 })),
    ),
    (b"image 0 asm\n\xff", 6, Syntax),
    (b"image 0 asm\nnop\n#\xff end", 8, Missing),
    (b"image 4092 asm\nnop\nnop\nend", 8, Range),
    (
        b"image 4092 asm\nnop\nnop\nx\nend",
        8,
        Asm(UnknownName(Span { start: 8, end: 9 })),
    ),
    (b"image 4092 asm\nli x1, 0\nend", 7, Range),
    (b"image 0 asm\nnop\nend\nimage 0 asm\nnop\nend", 10, Overlap),
    (
        b"image 0 hex\nend\nimage 0 asm\nfoo\nend",
        8,
        Asm(UnknownName(Span { start: 0, end: 3 })),
    ),
    (b"image 0 asm\nnop\nend\nx", 8, Syntax),
];

/// The images of scenarios, each with its address and bytes.
static IMAGES: [(&[u8], &[(u32, &[u8])]); 14] = [
    (b"", &[]),
    (b"\n # \xff", &[]),
    (b"image 0 hex\nend", &[(0, &[])]),
    (b"image 4092 hex\n end # \xff", &[(4092, &[])]),
    (b"image 0 hex\n00100073\nend\n", &[(0, &[115, 0, 16, 0])]),
    (
        b"image 0xFfC hex\r\nDEADbeef\r\nend\r\n",
        &[(4092, &[239, 190, 173, 222])],
    ),
    (
        b"image 8 hex\n01234567\t89abcdef # \xff\n\n# end\n0000000a\nend",
        &[(8, &[103, 69, 35, 1, 239, 205, 171, 137, 10, 0, 0, 0])],
    ),
    (
        b"image 4 hex\n00000001\nend\nimage 0 hex\n00000002\nend\nimage 8 hex\n00000003\nend",
        &[(4, &[1, 0, 0, 0]), (0, &[2, 0, 0, 0]), (8, &[3, 0, 0, 0])],
    ),
    (
        b"image 0 hex\n00000000 00000000\nend\nimage 4 hex\nend\nimage 4 hex\nend",
        &[(0, &[0, 0, 0, 0, 0, 0, 0, 0]), (4, &[]), (4, &[])],
    ),
    (
        b"image 4 hex\nend\nimage 0 hex\n00000000 00000000\nend",
        &[(4, &[]), (0, &[0, 0, 0, 0, 0, 0, 0, 0])],
    ),
    (b"image 0 asm\nend", &[(0, &[])]),
    (
        b"image 0 asm\nnop # \xff\x00\nl: ebreak\r\n\tend\t",
        &[(0, &[19, 0, 0, 0, 115, 0, 16, 0])],
    ),
    (b"image 0 asm\nend:\nj end\nend", &[(0, &[111, 0, 0, 0])]),
    (
        b"image 0 asm\nimage: # x\nend\nimage 4092 asm\nnop\nend",
        &[(0, &[]), (4092, &[19, 0, 0, 0])],
    ),
];

/// The fault of a text in two parts, where it has one.
fn fault_of(
    alloc: Global,
    front: &[u8],
    after: &[u8],
) -> Result<Option<ScenarioFault>, AllocError> {
    let mut text = Vec::from_slice(alloc, front)?;
    text.extend_from_slice(after)?;
    Ok(read(alloc, &text).err())
}

/// Asserts the line and the fault of each text, which stands after a front.
fn assert_faults(
    rt: &impl Abort,
    alloc: Global,
    front: &[u8],
    rows: &[(&[u8], u64, Why)],
) -> Result<(), AllocError> {
    for &(after, line, why) in rows {
        let fault = fault_of(alloc, front, after)?;
        assert!(rt; fault == Some(ScenarioFault::At { line, why }), "{after:?}");
    }
    Ok(())
}

#[test]
fn blocks_of_words_have_faults(rt: HostRuntime) -> Result<(), AllocError> {
    assert_faults(&rt, rt.alloc(), SETTINGS, &HEX)
}

#[test]
fn images_lie_apart(rt: HostRuntime) -> Result<(), AllocError> {
    assert_faults(&rt, rt.alloc(), SETTINGS, &APART)
}

#[test]
fn blocks_of_the_assembler_have_faults(rt: HostRuntime) -> Result<(), AllocError> {
    assert_faults(&rt, rt.alloc(), SETTINGS, &ASSEMBLED)
}

/// Images as their addresses and bytes.
fn parts_of<'a>(alloc: Global, images: &'a [Image]) -> Result<Vec<(u32, &'a [u8])>, AllocError> {
    let mut parts = Vec::new(alloc);
    for image in images {
        parts.push((image.address, image.bytes.as_slice()))?;
    }
    Ok(parts)
}

/// Asserts the addresses and the bytes of images.
fn assert_images(rt: &impl Abort, alloc: Global, images: &[Image], wanted: &[(u32, &[u8])]) {
    let parts = parts_of(alloc, images).expect(rt, "ample memory");
    assert!(rt; parts.as_slice() == wanted);
}

/// The scenario of the settings and of what stands after them.
fn scenario_of(alloc: Global, after: &[u8]) -> Result<Scenario, ScenarioFault> {
    let mut text = Vec::from_slice(alloc, SETTINGS)?;
    text.extend_from_slice(after)?;
    read(alloc, &text)
}

/// Asserts the images of the scenario of the settings and of what stands after them.
fn assert_laid(rt: &impl Abort, alloc: Global, after: &[u8], wanted: &[(u32, &[u8])]) {
    let scenario = scenario_of(alloc, after).expect(rt, "a scenario");
    assert_images(rt, alloc, scenario.images.as_slice(), wanted);
}

#[test]
fn images_hold_words(rt: HostRuntime) {
    for &(after, wanted) in &IMAGES {
        assert_laid(&rt, rt.alloc(), after, wanted);
    }
}

static LARGEST: &[u8] =
    b"root 0x400 0xFFFFffff 255 0xffffff\nconsoles 16\n\ncpus 8\nram 14\nimage 67108860 asm\nnop\nend";

#[test]
fn largest_values_are_read(rt: HostRuntime) -> Result<(), Fail> {
    let scenario = read(rt.alloc(), LARGEST)?;
    let machine = [scenario.cpus, u32::from(scenario.ram), scenario.consoles];
    let thread = [
        scenario.pc,
        scenario.sp,
        u32::from(scenario.priority),
        scenario.quantum,
    ];
    assert!(rt; machine == [8, 14, 16]);
    assert!(rt; thread == [0x400, 4_294_967_295, 255, 16_777_215]);
    assert_images(
        &rt,
        rt.alloc(),
        scenario.images.as_slice(),
        &[(67_108_860, &[19, 0, 0, 0])],
    );
    Ok(())
}

/// How an image of a MiB begins, and each of its lines.
static LARGE: [(&[u8], &[u8]); 2] = [
    (b"image 0 hex\n", b"00000013\n"),
    (b"image 0 asm\n", b"nop\n"),
];

/// A scenario whose image has 262,144 times the same line.
fn large_text(alloc: Global, head: &[u8], line: &[u8]) -> Result<Vec<u8>, AllocError> {
    let mut text = Vec::from_slice(alloc, b"cpus 1\nram 8\nconsoles 0\nroot 0 0 0 1\n")?;
    text.extend_from_slice(head)?;
    for _ in 0..262_144 {
        text.extend_from_slice(line)?;
    }
    text.extend_from_slice(b"end")?;
    Ok(text)
}

#[test]
fn large_images_are_read(rt: HostRuntime) -> Result<(), Fail> {
    for &(head, line) in &LARGE {
        let text = large_text(rt.alloc(), head, line)?;
        let scenario = read(rt.alloc(), &text)?;
        let images = scenario.images.as_slice();
        assert!(rt; matches!(images, [image] if image.bytes.as_slice().len() == 0x10_0000));
    }
    Ok(())
}
