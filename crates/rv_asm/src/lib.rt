//! The assembler and the printer of RV32I instructions.
//!
//! A line is an optional label (`name:`), an optional instruction with its operands, and an optional comment from `#` on. Space, tab and
//! carriage return stand between them, and commas between operands. A name is a letter or `_`, then letters, digits and `_`.
//!
//! A number is decimal digits, or `0x` and hexadecimal digits of either case, with `-` in front where its range has negative numbers. A
//! register is `x0` to `x31`, or by its use `zero`, `ra`, `sp`, `gp`, `tp`, `t0` to `t6`, `s0` to `s11`, `a0` to `a7`, or `fp`, which is
//! `s0`. A target is a label, or an even offset in bytes from the instruction's own address.
//!
//! Beside the instructions there are `nop`, `mv rd, rs`, `j target` and `ret`, which are one word each, `li rd, n`, which is always
//! `lui` and `addi`, and `.word n`, which is the number itself.
#![tactic(auto)]

mod fault;
mod label;
pub mod laws;
mod name;
mod operand;
mod printer;
mod program;
mod register;
mod slot;
mod statement;
mod syntax;
mod words;

pub use fault::AsmFault;
pub use printer::print;
pub use program::assemble;
