//! What deeds come to by themselves: what one makes of the execution context that does it, how it ends an item, whether it is an
//! input for a virtual CPU, and its sign in the trace. The stir counts of virtual CPUs. And what deeds keep of the state.
#![tactic(auto)]

pub mod changes;
pub mod inputs;
pub mod items;
mod roots;
pub mod stir_counts;

pub use roots::{
    no_entries, root_contexts, root_guests, root_objects, root_revokes, root_semaphores,
    root_times, root_transfers,
};
pub use stir_counts::StirCounts;
