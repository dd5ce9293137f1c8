//! Runs of a kernel by a thread for each processor.
#![tactic(auto)]

mod bursts;
mod crew;
mod gate;
mod workers;

pub use gate::{Gate, Open};
pub use nova_finished::{Finished, RunFault};
pub use nova_kernel::{Event, Kernel};
pub use nova_order::Order;
pub use nova_rounds::{round_robin, run_order};
pub use workers::run_workers;
