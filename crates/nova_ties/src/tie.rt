/// What ties a protection domain to another: the ids of derivations, and the numbers of execution contexts.
#[derive(Clone, Copy)]
pub enum Cause {
    /// A capability of the first leads to the second itself.
    Domain(u32),
    /// A capability of the first leads to an execution context of the second.
    Context(u32),
    /// A capability of the first leads to a portal, whose handler is of the second.
    Portal(u32),
    /// A capability of the first leads to a scheduling context, which is bound to an execution context of the second.
    Scheduling(u32),
    /// A range of memory of the first, with the right to write, and one of the second have a frame in common.
    Frames(u32, u32),
    /// A capability of the first and one of the second lead to one semaphore.
    Shared(u32, u32),
    /// A capability of the first leads to a semaphore, at which an execution context of the second waits.
    Waits(u32, u32),
    /// An execution context of the first and one of the second wait at one semaphore.
    Queue(u32, u32),
    /// A handler of the first is waited for, by a call, a help or an exit, by an execution context of the second.
    Serves(u32, u32),
    /// A handler of the first takes the items of a call of an execution context of the second.
    Takes(u32, u32),
    /// An execution context of the first gives the second its first range.
    Gives(u32),
}

/// A protection domain of a side, and another that has to be of the same side; or, where the tie isn't strict, trusted.
#[derive(Clone, Copy)]
pub struct Tie {
    pub from: u32,
    pub to: u32,
    pub strict: bool,
    pub cause: Cause,
}
