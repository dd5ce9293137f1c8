//! Orders of turns, and their texts.
//!
//! An order says which processor has each turn. It is kept in blocks of turns of one processor. Its text has a line `cpu count` for
//! each block, both decimal without a leading zero, with one space between and a line feed at the end.
#![tactic(auto)]

mod block;
mod fault;
pub mod laws;
mod number;
mod order;
mod read;
mod split;
mod text;

pub use block::Block;
pub use fault::OrderFault;
pub use order::Order;
