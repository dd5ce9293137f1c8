//! The tables of a kernel, and what a turn does to them.
#![tactic(auto)]

mod act;
mod decide;
mod parts;
mod tables;

pub use act::seers::Seers;
pub use decide::deciding::Raised;
pub use nova_memory::Reach;
pub use parts::Parts;
pub use tables::inventory::Inventory;
