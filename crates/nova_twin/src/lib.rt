//! Two guests compared, each a virtual CPU of a run, followed from its birth. They are the same but
//! for the frames that their pages lead to, or they differ from some input on.
#![tactic(auto)]

mod alike;
mod comparing;
mod side;
mod verdict;

pub use comparing::compare;
pub use nova_guest::{Guest, Input, Out};
pub use side::Side;
pub use verdict::Verdict;
