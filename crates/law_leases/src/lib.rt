//! Laws of bursts: several plain steps of a virtual CPU are one change of the kernel's state.
#![tactic(auto)]

pub mod commit;
pub mod laws;
pub mod steps;

pub use commit::CommitDone;
pub use nova_guest::Bytes;
pub use steps::{Page, Steps};
