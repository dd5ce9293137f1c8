//! The objects of a kernel, numbered from 0 in the order of their making.
#![tactic(auto)]

pub mod object;
pub mod objects;

pub use object::{EcKind, Object};
pub use objects::Objects;
