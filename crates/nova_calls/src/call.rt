use nova_objects::EcKind;
use nova_range::{Mtd, Range, Rights};

/// What is done to a semaphore.
#[derive(Clone, Copy)]
pub enum SmAction {
    Up,
    Down,
    /// A down that waits for at most this many ticks.
    DownWithin(u32),
}

/// A hypercall with its arguments. A selector is below 2^20: `target` is that of the object to be
/// made, and `pd`, `ec`, `sc`, `pt`, `sm` and `portal` are those of capabilities.
#[derive(Clone, Copy)]
pub enum Call {
    /// Calls a portal's handler. With the flag it doesn't wait where the handler is busy.
    Call {
        portal: u32,
        flag: bool,
    },
    /// Replies to the caller that is served.
    Reply,
    /// Makes a protection domain, and gives it a first range where there is one.
    CreatePd {
        target: u32,
        pd: u32,
        first: Option<(Range, Rights)>,
    },
    /// Makes an execution context on a processor, 0 to 255, with the initial x2 and the base of its
    /// event selectors, at most 2^20 - 9.
    CreateEc {
        target: u32,
        pd: u32,
        cpu: u32,
        kind: EcKind,
        sp: u32,
        event: u32,
    },
    /// Makes a scheduling context for an execution context, with a quantum of 1 to 2^24 - 1 turns and
    /// a priority.
    CreateSc {
        target: u32,
        pd: u32,
        ec: u32,
        quantum: u32,
        priority: u8,
    },
    /// Makes a portal to an execution context, with a message transfer descriptor and an instruction
    /// pointer, a multiple of 4.
    CreatePt {
        target: u32,
        pd: u32,
        ec: u32,
        mtd: Mtd,
        ip: u32,
    },
    /// Makes a semaphore with a counter.
    CreateSm {
        target: u32,
        pd: u32,
        count: u32,
    },
    /// Revokes what was delegated from a range, and with `own` also what the caller holds inside it.
    Revoke {
        range: Range,
        own: bool,
    },
    /// Asks what covers the base of a range.
    Lookup {
        range: Range,
    },
    /// Recalls an execution context.
    EcCtrl {
        ec: u32,
    },
    /// Asks for the ticks of a scheduling context.
    ScCtrl {
        sc: u32,
    },
    /// Sets a portal's identifier.
    PtCtrl {
        pt: u32,
        identifier: u32,
    },
    /// Raises or lowers a semaphore's counter.
    SmCtrl {
        sm: u32,
        action: SmAction,
    },
}
