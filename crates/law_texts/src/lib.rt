//! What the lines of a scenario mean in the state that boot makes of it, and what some texts are read as: laws of definitions. The
//! functions do nothing: their contracts are the laws.
#![tactic(auto)]

mod benches;
mod laws;
mod rows;

pub use benches::benches_by_their_turns;
pub use laws::{
    a_fault_of_closed_lines_stays, settings_are_what_boot_begins_with, words_lie_at_their_address,
};
pub use rows::{
    executables_by_their_bytes, orders_by_their_columns, reports_by_their_columns,
    settings_by_their_columns,
};
