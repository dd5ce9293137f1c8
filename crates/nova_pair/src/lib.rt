//! Does `twin`: follows the two guests that a text names, one after the other, and compares them.
#![tactic(auto)]

mod guests;

pub use guests::twin;
