//! Hypercalls: what a thread's registers ask for.
#![tactic(auto)]

pub mod call;
pub mod laws;
pub mod numbers;
pub mod read;

pub use call::{Call, SmAction};
pub use read::read_call;
