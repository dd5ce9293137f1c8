//! The RV32I instruction set as definitions: words, the instruction table, registers, and what one
//! instruction does. The crate `rv_core` decodes, encodes and steps by them.
//!
//! Source: The RISC-V Instruction Set Manual, Volume I, RV32I base integer instruction set,
//! version 2.1.
#![tactic(auto)]

pub mod instr;
pub mod mnemonic;
pub mod regs;

pub use instr::{Instr, Operands};
pub use mnemonic::{Format, Mnemonic};
pub use regs::Regs;
