//! Runs of a kernel by one thread: along a given order of turns, and by round robin.
#![tactic(auto)]

mod orders;
mod rounds;

pub use orders::run_order;
pub use rounds::{kept, round_robin, run_all};
