use crate::rows::Row;
use nova_delegate::job;
use nova_range::{Flags, Kind, read_word};

/// A page, and all memory, as range words.
const PAGE: u32 = 1;

const ALL_MEMORY: u32 = 1 + (20 << 7);

/// The name of what `word` is read as: a type of range words, or the field whose least bit it has beside that.
fn name_of(word: u32) -> &'static str {
    match read_word(word) {
        Ok(None) => "NOVA_NULL",
        Ok(Some((range, rights))) => match (range.kind, range.base, range.order, rights.bits()) {
            (Kind::Mem, 0, 0, 0) => "NOVA_MEMORY",
            (Kind::Obj, 0, 0, 0) => "NOVA_OBJECTS",
            (_, 0, 0, 1) => "NOVA_RIGHTS_AT",
            (_, 0, 1, 0) => "NOVA_ORDER_AT",
            (_, 1, 0, 0) => "NOVA_BASE_AT",
            _ => "",
        },
        Err(_) => "",
    }
}

/// The first place from 2 on at which the word of a page has to have a bit to be read as this, or 32.
fn field_at(name: &str) -> u32 {
    for at in 2..32u32 {
        if name_of(PAGE + (1 << at)) == name {
            return at;
        }
    }
    32
}

/// Where the hotspot begins in the second word of an item.
fn hotspot_at() -> u32 {
    for at in 0..32 {
        if let Ok(job) = job(PAGE, 1 << at, ALL_MEMORY, 0, 0) {
            if job.dest == 1 {
                return at;
            }
        }
    }
    32
}

/// The greatest rights that a range word may have.
fn most_rights() -> u32 {
    let mut most = 0;
    for number in 0..128 {
        if let Ok(Some((_, rights))) = read_word(PAGE + (number << 2)) {
            most = u32::from(rights.bits()).max(most);
        }
    }
    most
}

/// The greatest order that a range word may have.
fn most_order() -> u32 {
    let mut most = 0;
    for number in 0..32 {
        if let Ok(Some((range, _))) = read_word(PAGE + (number << 7)) {
            most = u32::from(range.order).max(most);
        }
    }
    most
}

/// How many pages there are: the last is the greatest base.
fn pages() -> u32 {
    match read_word(PAGE + (0xf_ffff << 12)) {
        Ok(Some((range, _))) => range.base.wrapping_add(1),
        _ => 0,
    }
}

/// What is read as range words and as hotspots.
pub(crate) fn words() -> [Row; 11] {
    [
        (name_of(0), 0),
        (name_of(1), 1),
        (name_of(2), 2),
        (name_of(3), 3),
        ("NOVA_RIGHTS_AT", field_at("NOVA_RIGHTS_AT")),
        ("NOVA_ORDER_AT", field_at("NOVA_ORDER_AT")),
        ("NOVA_BASE_AT", field_at("NOVA_BASE_AT")),
        ("NOVA_HOTSPOT_AT", hotspot_at()),
        ("NOVA_ALL_RIGHTS", most_rights()),
        ("NOVA_MOST_ORDER", most_order()),
        ("NOVA_PAGES", pages()),
    ]
}
