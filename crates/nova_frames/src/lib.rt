//! The memory of the machine: RAM in frames of 4,096 bytes, console frames after it, and the log of
//! what was stored to the consoles. `Frames::new`, `Frames::copy` and `Frames::reserve_log` take memory; no
//! other call takes any.
#![tactic(auto)]

pub mod frames;
pub mod laws;

pub use frames::{FRAME_SIZE, Frames};
pub use nova_model::LogByte;
