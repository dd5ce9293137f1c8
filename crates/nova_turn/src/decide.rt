//! What an execution context does next, which is decided and not done; and what that is for a virtual CPU.

pub(crate) mod capabilities;
pub(crate) mod deciding;
mod hypercalls;
mod input;
pub(crate) mod ipc;
mod semaphores;
