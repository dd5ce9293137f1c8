//! The command line: the words after the program's own name, read as a command.
#![tactic(auto)]

mod command;
mod fault;
mod form;
pub mod laws;
mod limit;
mod name;
mod number;
mod parsing;
mod reader;
mod verb;

pub use command::Command;
pub use fault::CommandFault;
pub use name::Name;
pub use number::number_within;
pub use parsing::{parse, text_of, with_program_name};
pub use reader::read_command;
