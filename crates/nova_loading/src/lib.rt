//! Loads the files that a program's words name: a scenario, and an order of turns.
#![tactic(auto)]

mod orders;
mod scenarios;
mod unread;

pub use orders::load_order;
pub use scenarios::load_scenario;
pub use unread::{OrderUnread, ScenarioUnread};
