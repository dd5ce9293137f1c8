/// What is read of a run, in its present state.
#[derive(Clone, Copy)]
pub enum Reading {
    /// The present turn, and how many the run has.
    Place,
    /// The instruction that is next.
    Instruction,
    /// The execution contexts, with their registers.
    Contexts,
    /// The semaphores, with their counters.
    Semaphores,
    /// What the consoles show.
    Consoles,
    /// The delegations.
    Delegations,
    /// The domain and the processor of each execution context, the caller that it serves, and what it waits for.
    Objects,
    /// The message words of a thread.
    Words(u32),
    /// The bytes of a frame.
    Frame(u32),
    /// The events of the turns from one on, before another.
    Events(u32, u32),
    /// The payers and actors of the turns from one on, before another, in slices.
    Slices(u32, u32),
    /// The execution contexts that wait at a semaphore, in order.
    Queue(u32),
}
