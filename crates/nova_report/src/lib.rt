//! The report of a run: its turns, its events, and what the kernel holds at the end, as text; and its sections.
#![tactic(auto)]

mod bench;
mod consoles;
mod derivations;
mod events;
mod hex;
mod line;
mod objects;
mod run;
mod sources;
mod told;

pub use bench::{count_derivations, summary};
pub use consoles::write_consoles;
pub use derivations::write_derivations;
pub use events::event_word;
pub use hex::{write_byte, write_word};
pub use objects::{state_word, write_contexts, write_semaphores};
pub use run::report;
