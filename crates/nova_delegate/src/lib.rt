//! Items of messages. A delegation is cut to the receiver's window, and is then given derivation by
//! derivation, of which the next is found by a call; a translation is answered at once.
#![tactic(auto)]

pub mod laws;
pub mod parts;
pub mod translations;

pub use nova_model::{Job, Reason, Skip};
pub use parts::{job, next_part};
pub use translations::translate;
