//! What is told of the sides of a policy in a kernel's state: what they are, the finest that there are, and what ties them.
#![tactic(auto)]

mod answer;
mod labels;
pub mod laws;
mod lines;
mod memory;
mod processors;
mod roles;
mod sharing;
mod sides;
mod strangers;
mod trails;

pub use answer::{Answer, Told, answer_finest, answer_named, settle_in};
pub use labels::labels_of;
pub use strangers::{Expected, Stranger, first_stranger};
