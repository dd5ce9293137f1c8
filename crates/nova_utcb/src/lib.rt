//! The message words of a thread: counts, windows, data and items, and the message of an exit.
#![tactic(auto)]

mod counts;
mod exit;
mod item;
pub mod laws;
mod page;
mod utcb;

pub use counts::BadCounts;
pub use utcb::Utcb;
