//! Semaphores: counters with the execution contexts that wait at them, first in and first out.
#![tactic(auto)]

mod counter;
pub mod laws;
mod queue;
pub mod sems;

pub use nova_model::{Down, Overflow};
pub use sems::Sems;
