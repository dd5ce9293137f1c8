use crate::calls::read_with;
use crate::rows::Row;
use nova_calls::{Call, numbers};
use nova_range::Status;

/// The first number that no hypercall has.
fn calls() -> u32 {
    for number in 0..64 {
        if matches!(read_with(number, 10, 1), Err(Status::BadHyp)) {
            return number;
        }
    }
    64
}

/// The first power of two that is no selector.
fn selectors() -> u32 {
    for order in 0..32u32 {
        if read_with(numbers::EC_CTRL, 10, 1 << order).is_err() {
            return 1 << order;
        }
    }
    0
}

/// The greatest event base, near the greatest selector.
fn most_event_base(selectors: u32) -> u32 {
    let mut most = 0;
    for back in 0..64 {
        let base = selectors.wrapping_sub(64 - back);
        if read_with(numbers::CREATE_EC, 14, base).is_ok() {
            most = base;
        }
    }
    most
}

/// The greatest quantum and priority.
fn most_turns() -> (u32, u32) {
    match read_with(numbers::CREATE_SC, 13, u32::MAX) {
        Ok(
            Call::CreateSc {
                quantum,
                priority,
                ..
            },
        ) => (quantum, u32::from(priority)),
        _ => (0, 0),
    }
}

/// The greatest arguments of calls.
pub(crate) fn limits() -> [Row; 6] {
    let selectors = selectors();
    let event_base = most_event_base(selectors);
    let (quantum, priority) = most_turns();
    [
        ("NOVA_CALLS", calls()),
        ("NOVA_SELECTORS", selectors),
        ("NOVA_MOST_EVENT_BASE", event_base),
        ("NOVA_REASONS", selectors.wrapping_sub(event_base)),
        ("NOVA_MOST_QUANTUM", quantum),
        ("NOVA_MOST_PRIORITY", priority),
    ]
}
