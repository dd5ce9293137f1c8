/// What a turn came to.
#[derive(Clone, Copy)]
pub enum EventKind {
    /// An instruction was done.
    Step,
    /// An exit was raised: reason, first qualification.
    Raise,
    /// A hypercall ended, in its own turn or, a revoke, in the turn in which it returned: number, status.
    Answer,
    /// A hypercall goes on: number, and the handler, caller, domain, base or semaphore.
    Begin,
    /// A call or an exit found the handler busy: handler, 0 for a call or 1 for an exit.
    Help,
    /// An exit was sent: reason, handler.
    Sent,
    /// An exit found no handler: reason, first qualification.
    Died,
    /// The callee was dead: handler, 0 for a call or 1 for an exit.
    Abort,
    /// A child was made: its id, its parent's.
    Made,
    /// A part of a delegation was skipped: reason, and the item's index or the base of the overlap.
    Skip,
    /// A translation was made: the answered word, the item's index.
    Xlat,
    /// A delegation item ended: its index, and how many children it made.
    Ended,
    /// A derivation was removed: its id, its protection domain.
    Gone,
    /// A deadline came: the semaphore, the status.
    Late,
    /// An alarm rang: its number, the status.
    Irq,
    /// Nothing ran, and something is to come: the clock alone went on.
    Tick,
}

/// One turn of a processor: the scheduling context that paid, the execution context that acted, and
/// what it came to.
#[derive(Clone, Copy)]
pub struct Event {
    pub cpu: u32,
    pub sc: u32,
    pub ec: u32,
    pub kind: EventKind,
    pub a: u32,
    pub b: u32,
}

/// The answer of a turn: an event, or that nothing on the processor can run.
#[derive(Clone, Copy)]
pub enum Turn {
    Stepped(Event),
    Idle,
}
