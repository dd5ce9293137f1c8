//! What is told of a run that is gone through, line by line.
#![tactic(auto)]

mod reading;
mod slices;
mod telling;

pub use reading::Reading;
pub use slices::Slice;
pub use telling::{tell, write_access, write_code, write_page};
