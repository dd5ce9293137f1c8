//! What the tables hold: how they begin and are copied, what is read of an entry, and sources.

mod boot;
mod contexts;
pub(crate) mod copy;
pub mod inventory;
mod sources;
