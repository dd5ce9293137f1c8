//! Revokes, leaf by leaf: which derivations one takes, which may not join while it runs, and which leaf
//! goes next. And the revokes that run, by the execution context that runs each.
#![tactic(auto)]

pub mod leaves;
pub mod revoke;
pub mod running;
pub mod scope;

pub use leaves::next_leaf;
pub use revoke::Revoke;
pub use running::{Revokes, Running};
pub use scope::{in_scope, would_grow};
