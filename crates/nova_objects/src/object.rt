/// The kind of an execution context: a local thread (a handler, which has no scheduling context), a
/// global thread, or a virtual CPU.
#[derive(Clone, Copy)]
pub enum EcKind {
    Local,
    Global,
    Vcpu,
}

/// A kernel object, as it was made: a protection domain, execution context, scheduling context,
/// portal or semaphore. What changes in one stands elsewhere.
#[derive(Clone, Copy)]
pub enum Object {
    /// A protection domain.
    Pd,
    /// An execution context in a protection domain, on a processor, with the base of its event
    /// selectors.
    Ec {
        pd: u32,
        cpu: u32,
        kind: EcKind,
        event: u32,
    },
    /// A scheduling context of an execution context, on a processor, with a priority (255 is the
    /// greatest) and a quantum of at least 1 turn.
    Sc {
        ec: u32,
        cpu: u32,
        priority: u8,
        quantum: u32,
    },
    /// A portal to an execution context, with the message transfer descriptor and the instruction
    /// pointer that it gives.
    Pt {
        ec: u32,
        mtd: u32,
        ip: u32,
    },
    /// A semaphore.
    Sm,
}
