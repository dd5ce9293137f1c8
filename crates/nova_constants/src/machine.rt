use crate::rows::Row;
use nova_deeds::changes::RECALL;
use nova_deeds::root_objects;
use nova_frames::frames::FRAME_SIZE;
use nova_model::{Object, Root};
use nova_objects::Objects;
use rv_core::outcome;
use std::alloc::{AllocError, Global};

/// The root, of which nothing is wanted but what is made with it.
const ROOT: Root = Root {
    pc: 0,
    sp: 0,
    priority: 0,
    quantum: 1,
};

/// The reasons of exits, and the size of a page.
pub(crate) fn reasons() -> [Row; 9] {
    [
        ("NOVA_ILLEGAL", outcome::ILLEGAL),
        ("NOVA_FETCH_FAULT", outcome::FETCH_FAULT),
        ("NOVA_LOAD_FAULT", outcome::LOAD_FAULT),
        ("NOVA_STORE_FAULT", outcome::STORE_FAULT),
        ("NOVA_MISALIGNED", outcome::MISALIGNED),
        ("NOVA_ECALL", outcome::ENVIRONMENT_CALL),
        ("NOVA_EBREAK", outcome::BREAKPOINT),
        ("NOVA_RECALL", RECALL),
        ("NOVA_PAGE_BYTES", FRAME_SIZE as u32),
    ]
}

/// The name of the selector at which the root holds `object`, which is the object's number, or the first that is free for a source.
fn name_of(object: Option<&Object>) -> &'static str {
    match object {
        Some(Object::Pd) => "NOVA_OWN_PD",
        Some(Object::Ec { .. }) => "NOVA_OWN_EC",
        Some(Object::Sc { .. }) => "NOVA_OWN_SC",
        None => "NOVA_FIRST_SOURCE",
        _ => "",
    }
}

/// The event base of the thread `number` among `objects`.
fn event_base(objects: &Objects, number: u32) -> u32 {
    match objects.get(number) {
        Some(Object::Ec { event, .. }) => *event,
        _ => 0,
    }
}

/// The root's objects.
pub(crate) fn objects(alloc: Global) -> Result<Objects, AllocError> {
    root_objects(alloc, ROOT)
}

/// What the root begins with.
pub(crate) fn root(objects: &Objects) -> [Row; 5] {
    [
        (name_of(objects.get(0)), 0),
        (name_of(objects.get(1)), 1),
        (name_of(objects.get(2)), 2),
        (name_of(objects.get(3)), 3),
        ("NOVA_OWN_EVENT_BASE", event_base(objects, 1)),
    ]
}
