//! The outside of the hypervisor: files by name, and a stream that takes what is written.
#![tactic(auto)]

mod calls;
mod depots;
mod faults;
mod file_depot;
mod held;
mod kept;
mod mem_depot;
mod mem_sink;
mod sinks;
mod std_sink;
mod stores;
mod streams;
mod whole;

pub use depots::Depot;
pub use faults::{Failed, FetchFault};
pub use file_depot::FileDepot;
pub use held::MemFile;
pub use mem_depot::MemDepot;
pub use mem_sink::MemSink;
pub use sinks::Sink;
pub use std_sink::StdSink;
pub use whole::{append_all, fetch_all, write_all};
