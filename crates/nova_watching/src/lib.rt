//! What is told of a run: the first state in which the sides of a policy aren't isolated, and until which turn sides are at work.
#![tactic(auto)]

mod states;
mod telling;
mod work;

pub use states::watch;
pub use telling::told_of;
pub use work::{Doer, lapses_of};
