//! A virtual CPU as a machine that knows its inputs only, with no kernel, no other execution context and no scheduler, and the definition of
//! what it does.
#![tactic(auto)]

pub mod bytes;
pub mod cell;
pub mod guest;
pub mod input;
mod keyed;
pub mod map;
pub mod page;
pub mod words;

pub use bytes::Bytes;
pub use cell::{Cell, Cells};
pub use guest::{Guest, GuestState};
pub use input::{Input, Out};
pub use map::{Map, Maps};
pub use page::Page;
