//! The states that a kernel comes to, in whatever order its processors take their turns.
#![tactic(auto)]

mod again;
mod edges;
mod expanding;
mod exploring;
mod following;
mod found;
mod frontier;
mod goal;
mod hash;
mod index;
mod laws;
mod merging;
mod notes;
mod path;
mod reducing;

pub use again::{first_goal, kernel_at};
pub use edges::Edge;
pub use exploring::{Explored, explore};
pub use following::follow;
pub use found::Found;
pub use goal::{Goal, NoGoal};
pub use laws::{
    quiet_ends_are_found, reduced_searches_are_complete, stable_properties_are_found,
    what_is_in_no_state_is_in_no_order, what_no_note_shows_is_never_done,
};
pub use merging::Merging;
pub use notes::Notes;
pub use path::path_to;
pub use reducing::{Ending, Reduced, explore_reduced};
