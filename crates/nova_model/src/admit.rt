use nova_range::Status;

/// What comes of a call to a handler.
#[derive(Clone, Copy)]
pub enum Admit {
    /// It is refused with this status.
    Refused(Status),
    /// The handler is busy: its caller helps it.
    Help,
    /// The handler takes it.
    Send,
}

/// What comes of an exit at the handler of its portal.
#[derive(Clone, Copy)]
pub enum ExitAdmit {
    /// No reply can come: the context that raised it dies.
    Dies,
    /// The handler is busy: the exit waits for it.
    Waits,
    /// The handler takes it.
    Sends,
}
