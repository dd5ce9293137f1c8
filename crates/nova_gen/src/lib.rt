//! The text of a scenario that makes many domains and takes them all away, of whatever size is asked for.
#![tactic(auto)]

mod bench;

pub use bench::generate;
