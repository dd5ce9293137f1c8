//! A run that was made, gone through in both directions: the state after any of its turns, and which turns do what one looks for.
#![tactic(auto)]

mod copies;
mod events;
pub mod laws;
mod preview;
mod recording;
mod wants;

pub use preview::Access;
pub use recording::Recording;
pub use wants::{Next, Search, Want, Watch, is_next_seen, is_passing};
