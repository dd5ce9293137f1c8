ghost use Rattle.std.specs.Prelude.{◌<◌};

use crate::rows::Row;
use nova_deeds::items::DELEGATES;
use nova_range::{Flags, Mtd};
use nova_utcb::Utcb;
use rv_model::Regs;

/// The qualifications, the pc and the register x1 of an exit, by which their words are known.
const Q0: u32 = 1001;

const Q1: u32 = 1002;

const PC: u32 = 1004;

const X1: u32 = 1005;

/// The first word that has `value`, or 128 where none has.
fn place_of(message: &Utcb, value: u32) -> u32 {
    for place in 0..128 {
        if message.word(place) == value {
            return place as u32;
        }
    }
    128
}

/// Message words of which each has its own number.
fn numbered() -> Utcb {
    let mut message = Utcb::new();
    for place in 0..128 {
        message.set(place, place as u32);
    }
    message
}

/// The message of an exit.
fn exited() -> Utcb {
    let mut regs = Regs::new(PC, 0);
    regs.set(1, X1);
    let mut message = Utcb::new();
    message.put_state(Mtd::all(), Q0, Q1, &regs);
    message
}

/// Message words of which word 0 is `word`.
fn counted(word: u32) -> Utcb {
    let mut message = Utcb::new();
    message.set(0, word);
    message
}

/// The greatest number of words that a message may count in bits `at` of word 0 on.
fn most_counted(at: u32) -> u32
    requires { at < 24 }
{
    let mut most = 0;
    for number in 0..200 {
        if counted(number << at).has_counts() {
            most = number;
        }
    }
    most
}

/// Where the number of items begins in word 0.
fn items_at() -> u32 {
    for at in 0..32 {
        if matches!(counted(1 << at).counts(), Ok((0, 1))) {
            return at;
        }
    }
    32
}

/// The first word that is passed on, after word 0.
fn first_passed() -> u32 {
    let mut from = numbered();
    from.set(0, 1);
    let mut to = Utcb::new();
    if from.has_counts() {
        to.copy_words(&from);
    }
    for place in 1..128 {
        if to.word(place) != 0 {
            return place as u32;
        }
    }
    128
}

/// The places of an exit's message.
pub(crate) fn exits() -> [Row; 7] {
    let message = exited();
    [
        ("NOVA_EXIT_WORDS", message.word(0)),
        ("NOVA_ALL_GROUPS", message.word(4)),
        ("NOVA_EXIT_GROUPS", place_of(&message, Mtd::all().bits())),
        ("NOVA_EXIT_Q0", place_of(&message, Q0)),
        ("NOVA_EXIT_Q1", place_of(&message, Q1)),
        ("NOVA_EXIT_PC", place_of(&message, PC)),
        ("NOVA_EXIT_X0", place_of(&message, X1).wrapping_sub(1)),
    ]
}

/// The places of message words, and how many there may be of what.
pub(crate) fn places() -> [Row; 12] {
    let message = numbered();
    let (range, second) = message.item(0);
    [
        ("NOVA_COUNTS", place_of(&counted(1), 1)),
        ("NOVA_TRANSLATION_WINDOW", message.translation_window()),
        ("NOVA_DELEGATION_WINDOW", message.delegation_window()),
        ("NOVA_DATA", first_passed()),
        ("NOVA_ITEM_RANGE", range),
        ("NOVA_ITEM_SECOND", second),
        ("NOVA_WORDS", second.wrapping_add(1)),
        ("NOVA_DATA_WORDS", most_counted(0)),
        ("NOVA_ITEMS", most_counted(16)),
        ("NOVA_ITEMS_AT", items_at()),
        ("NOVA_DELEGATE", DELEGATES),
        ("NOVA_TRANSLATE", 1 - DELEGATES),
    ]
}
