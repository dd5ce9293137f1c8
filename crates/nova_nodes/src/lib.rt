//! Derivations in a list by rising id, found by an index for each space of a protection domain.
#![tactic(auto)]

pub mod guarded;
mod linked;
pub mod node;
pub mod nodes;
mod space;
mod spaces;
mod store;

pub use guarded::Guarded;
pub use nodes::Nodes;
pub use nova_model::Derivation;
pub use nova_range::{Entry, Index, Kind, Range, Rights};
