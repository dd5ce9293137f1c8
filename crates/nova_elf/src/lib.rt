//! Executables: 32-bit little-endian ELF files for RISC-V, as linkers write them.
//!
//! Of an executable only what is to lie in memory is read: the entry, and the program headers of type 1. Other headers, sections, flags
//! and alignment are passed over.
#![tactic(auto)]

mod fault;
mod fields;
mod header;
mod headers;
mod program;
mod reader;

pub use fault::ElfFault;
pub use program::{Program, Segment, Segments};
pub use reader::read;
