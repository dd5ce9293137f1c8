//! A kernel that several processors run, each by a seat: the turns that they take have one order, and the kernel is the run over it.
#![tactic(auto)]

mod shared;
mod shared_run;

pub use nova_finished::{Block, Finished};
pub use shared::{CpuSeat, Shared};
pub use shared_run::SharedTurn;
