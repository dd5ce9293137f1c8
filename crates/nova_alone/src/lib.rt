//! A guest that runs alone: what inputs make of a virtual CPU that knows nothing else.
#![tactic(auto)]

mod applying;
mod laws;
mod registers;
mod runs;
mod sight;

pub use applying::apply;
pub use laws::{inputs_go_on_from_what_others_left, inputs_that_are_not_admitted_change_nothing};
pub use runs::alone;
