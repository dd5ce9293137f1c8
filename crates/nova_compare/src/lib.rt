//! Whether two kernels are in one state, or in states that are alike.
#![tactic(auto)]

mod contexts;
mod counts;
mod derivations;
mod entries;
mod memory;
mod objects;
mod order;
mod reading;
mod spares;
mod tally;
mod ticks;
mod times;
mod vertex;

pub use spares::Spares;
pub use vertex::Vertex;
