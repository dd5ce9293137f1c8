//! Calls and exits: which handler each reaches, what it does to both and their message words, and the replies.
#![tactic(auto)]

pub mod calls;
pub mod exits;
