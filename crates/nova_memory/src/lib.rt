//! What leads from an address to a frame or to a message word: delegations, frames, and the message words of threads.
#![tactic(auto)]

mod boot;
mod contents;
mod delegations;
mod maps;
pub mod preview;
pub mod reach;
mod recent;
mod seeing;
pub mod sights;
mod stepping;
mod tables;
pub mod viewers;

pub use nova_messages::Messages;
pub use preview::{Preview, Write};
pub use reach::Reach;
pub use tables::ReachTables;
pub use viewers::Viewers;
