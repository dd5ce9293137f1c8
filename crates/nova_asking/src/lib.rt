//! Questions on the states that a kernel comes to, in whatever order its processors take their turns.
#![tactic(auto)]

mod aim;
mod answer;
mod bytes;
mod contexts;
mod ends;
mod extent;
mod hang;
mod laws;
mod least;
mod locations;
mod outcome;
mod path;
mod presence;
mod question;
mod scenarios;
mod search;
mod stores;

pub use aim::Aim;
pub use answer::{Answer, judge};
pub use bytes::Bytes;
pub use ends::{End, Ends, list_ends};
pub use extent::Extent;
pub use laws::{alike_states_answer_alike, what_comes_within_turns};
pub use question::{Location, Question};
pub use scenarios::{judge_scenario, list_scenario_ends};
