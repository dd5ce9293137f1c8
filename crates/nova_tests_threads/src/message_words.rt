ghost use Rattle.std.specs.Prelude.{◌≤◌};

use nova_range::{Flags, Mtd};
use nova_utcb::{BadCounts, Utcb};
use rv_model::Regs;
use std::process::Abort;

/// Words that are all different: word `i` is `base + i`, but word 0 has the counts.
fn numbered(base: u16, untyped: u16, items: u16) -> Utcb {
    let mut utcb = Utcb::new();
    for i in 1..128 {
        utcb.set(i, u32::from(base) + i as u32);
    }
    utcb.set(0, u32::from(untyped) + (u32::from(items) << 16));
    utcb
}

/// Whether words `first` to `end - 1` are `base` and their own numbers. `end` is at most 128.
fn is_numbered(utcb: &Utcb, first: usize, end: usize, base: u16) -> bool
    requires { end ≤ 128 }
{
    for i in first..end {
        if utcb.word(i) != u32::from(base) + i as u32 {
            return false;
        }
    }
    true
}

/// Whether words `first` to `end - 1` are 0. `end` is at most 128.
fn is_zero(utcb: &Utcb, first: usize, end: usize) -> bool
    requires { end ≤ 128 }
{
    for i in first..end {
        if utcb.word(i) != 0 {
            return false;
        }
    }
    true
}

/// Registers that are all different: pc is 0x100, and register `i` is `1000 + i`.
fn registers() -> Regs {
    let mut regs = Regs::new(0x100, 0);
    for i in 1..32 {
        regs.set(i, 1000 + i);
    }
    regs
}

/// The counts of untyped words and of items, or nothing where they are too many.
fn counts(utcb: &Utcb) -> Option<(u32, u32)> {
    match utcb.counts() {
        Ok(counts) => Some(counts),
        Err(BadCounts) => None,
    }
}

#[test]
fn words_at_birth_are_0(rt: HostRuntime) {
    let utcb = Utcb::new();
    assert!(rt; (is_zero(&utcb, 0, 128), counts(&utcb)) == (true, Some((0, 0))));
}

/// Word 0, and the counts of untyped words and items.
static COUNTS: [(u32, Option<(u32, u32)>); 9] = [
    (0, Some((0, 0))),
    (36, Some((36, 0))),
    (124, Some((124, 0))),
    (125, None),
    (0x003e_0000, Some((0, 62))),
    (0x003e_0001, None),
    (0x0001_007a, Some((122, 1))),
    (0x003f_0000, None),
    (0xffff_ffff, None),
];

#[test]
fn counts_come_to_at_most_124_words(rt: HostRuntime) {
    for &(word, wanted) in &COUNTS {
        let mut utcb = Utcb::new();
        utcb.set(0, word);
        assert!(rt; counts(&utcb) == wanted, "{word}");
    }
}

#[test]
fn items_lie_from_the_last_word_down(rt: HostRuntime) {
    let utcb = numbered(0, 0, 62);
    let items = [utcb.item(0), utcb.item(1), utcb.item(61)];
    assert!(rt; items == [(126, 127), (124, 125), (4, 5)]);
}

/// Copies a message that has its counts to a message whose words are 5000 and their numbers, or were copied
/// before. It answers word 0, and whether words 1 to 3 are of 5000, those from 4 to `end - 1` of 1000, and the
/// others of 5000. `end` is at least 4 and at most 128.
fn copied(rt: &impl Abort, from: &Utcb, to: &mut Utcb, end: usize) -> (u32, [bool; 3])
    requires { end ≤ 128 }
{
    match from.counts() {
        Ok(_) => to.copy_words(from),
        Err(BadCounts) => panic!(rt; "no counts"),
    }
    let parts = [
        is_numbered(to, 1, 4, 5000),
        is_numbered(to, 4, end, 1000),
        is_numbered(to, end, 128, 5000),
    ];
    (to.word(0), parts)
}

#[test]
fn counted_words_are_copied(rt: HostRuntime) {
    let mut to = numbered(5000, 124, 0);
    let answer = copied(&rt, &numbered(1000, 3, 2), &mut to, 7);
    assert!(rt; answer == (0x0002_0003, [true; 3]));
}

#[test]
fn full_and_empty_messages_are_copied(rt: HostRuntime) {
    let mut to = numbered(5000, 0, 0);
    let answers = [
        copied(&rt, &numbered(1000, 124, 0), &mut to, 128),
        copied(&rt, &numbered(9000, 0, 62), &mut to, 128),
    ];
    assert!(rt; answers == [(124, [true; 3]), (0x003e_0000, [true; 3])]);
}

/// The words before the registers of an exit's message.
fn head(utcb: &Utcb) -> [u32; 9] {
    let mut words = [0; 9];
    for i in 0..9 {
        words[i] = utcb.word(i);
    }
    words
}

/// The head of an exit's message with these groups, put where word 0 has the counts, and the other words
/// are 5000 and their numbers. With it, whether x1 to x15 are in words 9 to 23; whether x16 to x31 are
/// in words 24 to 39; whether those are 0; and whether the words from 40 on stay.
fn put(counts: u16, groups: Mtd) -> ([u32; 9], [bool; 4]) {
    let mut utcb = numbered(5000, counts, counts);
    utcb.put_state(groups, 77, 88, &registers());
    let rest = [
        is_numbered(&utcb, 9, 24, 992),
        is_numbered(&utcb, 24, 40, 992),
        is_zero(&utcb, 24, 40),
        is_numbered(&utcb, 40, 128, 5000),
    ];
    (head(&utcb), rest)
}

#[test]
fn exits_fill_all_groups(rt: HostRuntime) {
    let head = [36, 5001, 5002, 5003, 15, 77, 88, 0x100, 0];
    let wanted = (head, [true, true, false, true]);
    assert!(rt; put(7, Mtd::from_bits_retain(15)) == wanted);
}

#[test]
fn groups_that_are_not_named_are_0(rt: HostRuntime) {
    let head = [36, 5001, 5002, 5003, 5, 77, 88, 0, 0];
    let wanted = (head, [true, false, true, true]);
    assert!(rt; put(0, Mtd::from_bits_retain(1 + 4)) == wanted);
}

/// pc, x0, x1, x15, x16 and x31 after the groups that word 4 names are written back from words 5 to 39,
/// each of them 5000 and its number.
fn written_back(named: u32) -> [u32; 6] {
    let mut utcb = numbered(5000, 0, 0);
    utcb.set(4, named);
    let mut regs = registers();
    utcb.take_state(&mut regs);
    [
        regs.pc(),
        regs.get(0),
        regs.get(1),
        regs.get(15),
        regs.get(16),
        regs.get(31),
    ]
}

/// Word 4, and pc, x0, x1, x15, x16 and x31 after it.
static BACK: [(u32, [u32; 6]); 7] = [
    (0, [0x100, 0, 1001, 1015, 1016, 1031]),
    (1, [0x100, 0, 1001, 1015, 1016, 1031]),
    (2, [5007, 0, 1001, 1015, 1016, 1031]),
    (4, [0x100, 0, 5009, 5023, 1016, 1031]),
    (8, [0x100, 0, 1001, 1015, 5024, 5039]),
    (0xffff_fff0, [0x100, 0, 1001, 1015, 1016, 1031]),
    (0xffff_ffff, [5007, 0, 5009, 5023, 5024, 5039]),
];

#[test]
fn named_groups_are_written_back(rt: HostRuntime) {
    for &(named, wanted) in &BACK {
        assert!(rt; written_back(named) == wanted, "{named}");
    }
}

/// A place in a word and a width; what is loaded there where the word is 0x4433_2211, and the word
/// after 0xddcc_bbaa is stored there.
static ACCESSES: [(u32, u32, u32, u32); 7] = [
    (0, 1, 0x11, 0x4433_22aa),
    (1, 1, 0x22, 0x4433_aa11),
    (2, 1, 0x33, 0x44aa_2211),
    (3, 1, 0x44, 0xaa33_2211),
    (0, 2, 0x2211, 0x4433_bbaa),
    (2, 2, 0x4433, 0xbbaa_2211),
    (0, 4, 0x4433_2211, 0xddcc_bbaa),
];

/// What is loaded at a place of word 127, the word after the store, and whether the other words stay.
fn accessed(rt: &impl Abort, at: u32, width: u32) -> (u32, u32, bool) {
    assert!(rt; width == 1 || width == 2 || width == 4);
    assert!(rt; at < 4 && at % width == 0);
    let mut utcb = numbered(5000, 0, 0);
    utcb.set(127, 0x4433_2211);
    let loaded = utcb.load(508 + at, width);
    utcb.store(508 + at, width, 0xddcc_bbaa);
    (loaded, utcb.word(127), is_numbered(&utcb, 1, 127, 5000))
}

#[test]
fn bytes_of_a_word_are_loaded_and_stored(rt: HostRuntime) {
    for &(at, width, loaded, stored) in &ACCESSES {
        let answer = accessed(&rt, at, width);
        assert!(rt; answer == (loaded, stored, true), "{at} {width}");
    }
}

/// How many items there are, whether there are any in its count, and whether it has its counts.
fn counted(utcb: &Utcb) -> (u32, bool, bool) {
    (utcb.items(), utcb.has_items(), utcb.has_counts())
}

/// Items 61 and 0 are put in: words 4 and 5, item 0, and whether the other words stay but word 0.
fn put_in(utcb: &mut Utcb) -> ([(u32, u32); 2], [bool; 2]) {
    utcb.set_item(61, 7, 8);
    utcb.set_item(0, 9, 10);
    let others = [
        is_numbered(utcb, 1, 4, 5000),
        is_numbered(utcb, 6, 126, 5000),
    ];
    ([(utcb.word(4), utcb.word(5)), utcb.item(0)], others)
}

#[test]
fn items_are_put_in_and_counted(rt: HostRuntime) {
    let mut utcb = numbered(5000, 0, 62);
    let counts = counted(&utcb);
    let items = put_in(&mut utcb);
    let windows = (utcb.translation_window(), utcb.delegation_window());
    utcb.set(0, 0x003e_0001);
    let answers = (items, windows, [counts, counted(&utcb)]);
    let items = ([(7, 8), (9, 10)], [true; 2]);
    let counts = [(62, true, true), (0, true, false)];
    assert!(rt; answers == (items, (5001, 5002), counts));
}
