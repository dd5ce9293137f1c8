//! What is next of an item and of a revoke, as a deed; what an instruction comes to and where it would store, by looking alone; and the inputs that
//! deeds are for a virtual CPU.
#![tactic(auto)]

mod inputs;
mod next;

pub use inputs::{foreign, given_if, input_if, own_input, reply_if};
pub use next::{Ahead, leaf_deed, next_deed, next_instruction};
