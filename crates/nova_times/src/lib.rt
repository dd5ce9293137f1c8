//! Time: a clock for each processor, deadlines of execution contexts that wait, and alarms.
#![tactic(auto)]

mod entry;
mod leaves;
mod processor;
pub mod times;
mod tree;

pub use nova_model::{Alarm, AlarmState, Deadline, Due};
pub use times::Times;
