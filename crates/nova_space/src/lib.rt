//! A sorted index from ranges of places to keys, which looks first at what it found last.
#![tactic(auto)]

mod cache;
pub mod space;

pub use nova_range::{Entry, Index, Range};
pub use space::Space;
