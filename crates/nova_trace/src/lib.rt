//! The events of a run, in order. Equal events in a row are kept once, with their number.
#![tactic(auto)]

mod trace;

pub use trace::{Repeated, Trace};
