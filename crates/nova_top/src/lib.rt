//! The top call of the hypervisor: from the words of the command line, the bytes of a scenario and those of an order to the bytes of a
//! report.
#![tactic(auto)]

mod main_call;
mod prepared;
mod runs;

pub use main_call::nova_main;
pub use nova_answers::{Exit, OrderWhy, ScenarioWhy, TwinWhy};
pub use nova_command::CommandFault;
pub use nova_run::{Gate, Open};
