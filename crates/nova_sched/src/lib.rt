//! Scheduling contexts: whose turn is next on a processor, and what a turn is charged to.
#![tactic(auto)]

mod charge;
mod choice;
pub mod laws;
mod queue;
pub mod queued;
pub mod queues;
mod ready;

pub use queued::{Queued, Runnable};
pub use queues::Queues;
