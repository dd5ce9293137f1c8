//! What ties the protection domains of a kernel to one another, so that sides are isolated exactly where they respect it; and whether all
//! that isn't of a side is at rest.
#![tactic(auto)]

mod common;
mod derivations;
mod holding;
mod judging;
mod memory;
mod read_only;
mod resting;
mod roles;
mod tied;
mod waiting;

pub use derivations::derivations_of;
pub use judging::{Restless, Verdict, judge};
pub use memory::flowing;
pub use read_only::reading;
pub use roles::{Role, role_of, what_is_not_at_work_is_harmless};
pub use tied::ties;
