ghost use Rattle.std.specs.Prelude.{◌≡◌};

use bitflags::Flags;
use nova_range::{Clamped, Kind, Range, WordFault, clamp, read_word, word_of};

/// A range as a test compares it: whether it is of objects, its base, its order, and the rights.
type Fields = (bool, u32, u8, u8);

/// What a word reads as, and the word of that; none for null and for a word at fault.
fn read_back(word: u32) -> Option<(Fields, u32)> {
    match read_word(word) {
        Ok(Some((range, rights))) => {
            let is_object = matches!(range.kind, Kind::Obj);
            let fields = (is_object, range.base, range.order, rights.bits());
            Some((fields, word_of(Some((range, rights)))))
        }
        _ => None,
    }
}

/// What reading `word` comes to, as a number: 0 for a range, 1 to 3 for a fault, 4 for null.
fn told(word: u32) -> u32 {
    match read_word(word) {
        Ok(Some(_)) => 0,
        Ok(None) => 4,
        Err(WordFault::BadType) => 1,
        Err(WordFault::BadOrder) => 2,
        Err(WordFault::BadBase) => 3,
    }
}

static WORDS: [(u32, Fields); 8] = [
    (133, (false, 0, 1, 1)),
    (0x0000_208d, (false, 2, 1, 3)),
    (0x0004_0213, (true, 64, 4, 4)),
    (0x0000_101d, (false, 1, 0, 7)),
    (0x0000_011d, (false, 0, 2, 7)),
    (0x0000_027f, (true, 0, 4, 31)),
    (0xffff_f001, (false, 0xf_ffff, 0, 0)),
    (0x0000_0a03, (true, 0, 20, 0)),
];

#[test]
fn words_stand_for_ranges(rt: HostRuntime) {
    for &(word, wanted) in &WORDS {
        assert!(rt; read_back(word) == Some((wanted, word)), "{word:08x}");
    }
    assert!(rt; word_of(None) == 0);
}

static FAULTS: [(u32, u32); 9] = [
    (0x0000_0000, 4), // null
    (0xffff_fffc, 4), // null, with all other bits
    (0x0000_1a82, 1), // type 2, order 21, base 1
    (0x0000_0002, 1), // type 2 alone
    (0x0000_1a81, 2), // order 21, base 1
    (0x0000_0f83, 2), // order 31
    (0x0000_1081, 3), // base 1, order 1
    (0x8000_0a01, 3), // base 2^19, order 20
    (0x0000_0a01, 0), // base 0, order 20
];

#[test]
fn the_first_fault_is_answered(rt: HostRuntime) {
    for &(word, wanted) in &FAULTS {
        assert!(rt; told(word) == wanted, "{word:08x}");
    }
}

/// A range of memory.
fn memory(base: u32, order: u8) -> Range
    ensures base { result.base ≡ base }
    ensures order { result.order ≡ order }
{
    Range {
        kind: Kind::Mem,
        base,
        order,
    }
}

/// Source, destination and order of a cut.
fn parts(cut: Clamped) -> (u32, u32, u8) {
    (cut.source, cut.dest, cut.order)
}

#[test]
fn the_larger_is_cut_by_the_hotspot(rt: HostRuntime) {
    let cuts = [
        parts(clamp(memory(0x40, 6), memory(0x100, 2), 0x55)),
        parts(clamp(memory(0x54, 2), memory(0x100, 6), 0x55)),
        parts(clamp(memory(0x40, 4), memory(0x80, 4), 0x55)),
    ];
    assert!(rt; cuts == [(0x54, 0x100, 2), (0x54, 0x114, 2), (0x40, 0x80, 4)]);
}
