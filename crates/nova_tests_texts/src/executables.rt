use nova_elf::ElfFault::{
    ByteOrder, Class, Dynamic, Machine, NotElf, NotExec, Segment as BadSegment, Table, Version,
};
use nova_elf::{ElfFault, Segment, read};
use std::alloc::{AllocError, Global};
use std::test::Fail;

/// An executable of one instruction, `ebreak`, with four more bytes of memory.
const EXECUTABLE: &[u8] =
    b"\x7fELF\x01\x01\x01\0\0\0\0\0\0\0\0\0\x02\0\xf3\0\x01\0\0\0\0\0\0\0\x34\0\0\0\0\0\0\0\0\0\0\0\x34\0\x20\0\x01\0\0\0\0\0\0\0\x01\0\0\0\x54\0\0\0\0\0\0\0\0\0\0\0\x04\0\0\0\x08\0\0\0\x05\0\0\0\x04\0\0\0\x73\0\x10\0";

/// Words of it that are changed, each with the fault that comes of it, where one does.
static CHANGED: [(usize, u32, Option<ElfFault>); 27] = [
    (0, 0x464c_457e, Some(NotElf)),
    (0, 0x474c_457f, Some(NotElf)),
    (4, 0x0001_0202, Some(Class)),
    (4, 0x0002_0201, Some(ByteOrder)),
    (4, 0x0000_0101, Some(Version)),
    (20, 2, Some(Version)),
    (20, 0x0100_0001, Some(Version)),
    (16, 0x003e_0003, Some(NotExec)),
    (16, 0x003e_0002, Some(Machine)),
    (42, 0x0001_0028, Some(Table)),
    (42, 0x0002_0020, Some(Table)),
    (42, 0xffff_0020, Some(Table)),
    (28, 57, Some(Table)),
    (28, 0xffff_ffff, Some(Table)),
    (52, 2, Some(Dynamic(0))),
    (52, 3, Some(Dynamic(0))),
    (56, 85, Some(BadSegment(0))),
    (68, 5, Some(BadSegment(0))),
    (72, 3, Some(BadSegment(0))),
    (60, 0xffff_fff9, Some(BadSegment(0))),
    (8, 0xffff_ffff, None),
    (24, 0xffff_ffff, None),
    (42, 0x0000_0028, None),
    (52, 4, None),
    (56, 0, None),
    (60, 0xffff_fff8, None),
    (72, 4, None),
];

/// Two program headers, of which the first wants a dynamic linker and the second is longer than the file, behind a file header in
/// which all is wrong.
const WRONG: &[u8] =
    b"\x7fELG\x02\x02\x02\0\0\0\0\0\0\0\0\0\x03\0\x3e\0\x02\0\0\0\0\0\0\0\x34\0\0\0\0\0\0\0\0\0\0\0\x34\0\x28\0\x02\0\0\0\0\0\0\0\x02\0\0\0\0\0\0\0\0\0\0\0\0\0\0\0\x75\0\0\0\x74\0\0\0\0\0\0\0\0\0\0\0\x01\0\0\0\0\0\0\0\0\0\0\0\0\0\0\0\x75\0\0\0\x75\0\0\0\0\0\0\0\0\0\0\0";

/// Words of it that are mended one after another, each with the fault that is named then.
static MENDED: [(usize, u32, Option<ElfFault>); 12] = [
    (52, 2, Some(NotElf)),
    (0, 0x464c_457f, Some(Class)),
    (4, 0x0002_0201, Some(ByteOrder)),
    (4, 0x0002_0101, Some(Version)),
    (4, 0x0001_0101, Some(Version)),
    (20, 1, Some(NotExec)),
    (16, 0x003e_0002, Some(Machine)),
    (16, 0x00f3_0002, Some(Table)),
    (42, 0x0002_0020, Some(Dynamic(0))),
    (52, 1, Some(BadSegment(0))),
    (52, 6, Some(BadSegment(1))),
    (100, 0x0000_0074, None),
];

/// Puts `word` at `place`.
fn put(bytes: &mut Vec<u8>, place: usize, word: u32) {
    for (index, byte) in word.to_le_bytes().into_iter().enumerate() {
        if let Some(old) = bytes.get_mut(place.saturating_add(index)) {
            *old = byte;
        }
    }
}

/// The executable with another word at `place`.
fn changed(alloc: Global, place: usize, word: u32) -> Result<Vec<u8>, AllocError> {
    let mut bytes = Vec::from_slice(alloc, EXECUTABLE)?;
    put(&mut bytes, place, word);
    Ok(bytes)
}

#[test]
fn an_executable_is_read(rt: HostRuntime) -> Result<(), Fail> {
    let program = read(rt.alloc(), EXECUTABLE)?;
    let segment = Segment {
        address: 0,
        offset: 84,
        file: 4,
        memory: 8,
    };
    assert!(rt; program.entry == 0);
    assert!(rt; program.segments.as_slice() == [segment].as_slice());
    Ok(())
}

#[test]
fn each_fault_is_named(rt: HostRuntime) -> Result<(), Fail> {
    let alloc = rt.alloc();
    for &(place, word, fault) in &CHANGED {
        let bytes = changed(alloc, place, word)?;
        assert!(rt; read(alloc, &bytes).err() == fault, "{word:08x} at {place}");
    }
    Ok(())
}

#[test]
fn the_first_fault_is_named(rt: HostRuntime) -> Result<(), Fail> {
    let alloc = rt.alloc();
    let mut bytes = Vec::from_slice(alloc, WRONG)?;
    for &(place, word, fault) in &MENDED {
        put(&mut bytes, place, word);
        assert!(rt; read(alloc, &bytes).err() == fault, "{word:08x} at {place}");
    }
    Ok(())
}

#[test]
fn a_segment_past_the_end_is_refused(rt: HostRuntime) {
    let (short, _) = EXECUTABLE.split_at(87);
    assert!(rt; read(rt.alloc(), short).err() == Some(BadSegment(0)));
}
