/// The counter of a semaphore can't rise: it is 2^32 - 1, and no context waits.
#[derive(Clone, Copy, PartialEq, Debug)]
pub struct Overflow;

/// What a down of a semaphore comes to.
#[derive(Clone, Copy, PartialEq, Debug)]
pub enum Down {
    /// The counter was above 0, and is one less.
    Done,
    /// The counter is 0: the execution context waits, last in the queue.
    Blocked,
}
