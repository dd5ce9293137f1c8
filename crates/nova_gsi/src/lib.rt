//! Interrupt sources and deadlines: how often each source fired in a trace, and how late; and laws of both.
#![tactic(auto)]

mod deadlines;
mod laws;
mod lines;
mod source_line;

pub use deadlines::{deadlines_are_of_who_waits, deadlines_come_in_time};
pub use laws::{
    alarms_have_room, counters_tell_what_ended, firings_are_of_their_moments, sources_are_alarms,
};
pub use lines::table;
pub use nova_model::Alarm as Source;
pub use source_line::SourceLine;
