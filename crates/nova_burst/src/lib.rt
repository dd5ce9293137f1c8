//! Bursts: a virtual CPU steps on copies of some of its frames, outside the kernel.
#![tactic(auto)]

pub mod copies;
mod gathering;
pub mod laws;
mod leasing;
mod lent;
pub mod run;

pub use copies::{Copies, Known};
pub use leasing::{commit, lease};
pub use lent::Lease;
pub use run::Burst;
