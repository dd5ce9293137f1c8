//! Policies of sides: which protection domains are trusted, which are one side, which semaphores sides share, and what flows from one to another, as the
//! lines of a text say it.
#![tactic(auto)]

mod fault;
pub mod laws;
mod lines;
mod policy;
mod statement;

pub use fault::{PolicyFault, PolicyWhy};
pub use policy::Policy;
pub use statement::{Flow, Statement};
