/// A semaphore as it is kept: its counter, how many execution contexts wait, and the first and the last of them. Those mean nothing where none waits.
#[derive(Clone, Copy)]
pub(crate) struct Counter {
    pub(crate) count: u32,
    pub(crate) waiting: u32,
    pub(crate) first: u32,
    pub(crate) last: u32,
}
