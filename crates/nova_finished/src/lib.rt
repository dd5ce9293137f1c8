//! A run of a kernel as far as it got: its opening, the turns that were taken, their events, and what a turn more adds; and why there is none.
#![tactic(auto)]

mod fault;
mod finished;

pub use fault::RunFault;
pub use finished::{Block, Finished};
