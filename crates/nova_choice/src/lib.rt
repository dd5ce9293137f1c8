//! Which scheduling context has the next turn of a processor, and the context that acts in it: how queues stand to the state.
#![tactic(auto)]

pub mod choice;
pub mod queues;

pub use choice::{Chosen, actor_of};
pub use queues::{enqueue, mark_all, mark_one, moved_by, root_queues};
