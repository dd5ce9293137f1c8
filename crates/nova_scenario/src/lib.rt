//! Scenario texts: what a machine has, how its first thread starts, and the images that lie in its memory.
//!
//! A text has one line each of `cpus N`, `ram M`, `consoles C` and `root PC SP PRIORITY QUANTUM`, in any order, then up to 32 lines
//! `source CPU FIRST PERIOD COUNT`, and then any number of images. An image is a line `image ADDRESS hex`, `image ADDRESS asm` or `image ADDRESS elf`, lines of words, of the assembler or of the
//! bytes of an executable, and a line `end`. Where `entry` stands in place of PC, the first thread starts at the first executable's entry.
#![tactic(auto)]

mod asm;
mod block;
mod bytes;
mod draft;
mod elf;
mod executable;
mod fault;
mod image;
mod occupied;
mod reader;
mod scenario;
mod settings;
mod slices;
mod source;
mod statement;
mod words;

pub use bytes::Bytes;
pub use fault::{ScenarioFault, Why};
pub use image::{Image, Images};
pub use reader::read;
pub use scenario::Scenario;
pub use source::{SourceRow, Sources};
