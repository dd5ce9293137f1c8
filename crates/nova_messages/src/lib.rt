//! The message words of threads, by the number of their object.
#![tactic(auto)]

mod messages;

pub use messages::Messages;
