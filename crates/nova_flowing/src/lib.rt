//! Whether the premises of noninterference on divided processors hold of a side in a state, or which one fails first and of what; and the lines that
//! tell it of each side.
#![tactic(auto)]

mod capabilities;
mod contexts;
mod deciding;
mod division;
mod lapse;
pub mod laws;
mod leak;
mod leaks;
mod lines;
mod made;
mod sides;
mod tables;

pub use deciding::{Verdict, decide};
pub use division::Division;
pub use lapse::{Lapse, LapseKind, Work};
pub use leak::{Field, Leak, Place, Premise};
pub use lines::write_flows;
pub use made::first_made;
pub use sides::division_of;
