//! Ties between protection domains, and the finest sides that respect them.
#![tactic(auto)]

mod labels;
mod sides;
mod tie;

pub use labels::{first_broken, is_respected, label_of};
pub use sides::settle;
pub use tie::{Cause, Tie};
