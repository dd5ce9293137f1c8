//! Execution contexts at work, and the handlers that they wait for.
#![tactic(auto)]

mod contexts;
pub mod ecs;
pub mod laws;
mod states;
pub mod waiters;

pub use ecs::{Ecs, Entries};
pub use nova_model::{EcState, Mark, State};
pub use waiters::Waiters;
