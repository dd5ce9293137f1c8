//! RV32I: words to instructions and back, and one instruction over a bus.
#![tactic(auto)]

pub mod bus;
pub mod decoder;
pub mod encoder;
pub mod hart;
pub mod laws;
pub mod outcome;
pub mod readings;
pub mod table;

pub use bus::Bus;
pub use decoder::decode;
pub use encoder::encode;
pub use hart::{step, step_known, step_read};
pub use outcome::Outcome;
pub use readings::{Reading, Readings};
pub use rv_model::{Format, Instr, Mnemonic, Operands, Regs};
