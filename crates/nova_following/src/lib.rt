//! A virtual CPU of a run along an order, followed from its birth: what the turns are for it, and its view at the end.
#![tactic(auto)]

mod collecting;
mod following;
mod trail;

pub use collecting::collect;
