//! The lines of a text, the tokens of a line and the number of a token, read in place.
//!
//! A line ends at a line feed, and bytes after the last line feed are a line too. In a line a comment runs from `#` to the end and
//! may hold any bytes. Before it, space, tab and carriage return stand between tokens. A number is decimal digits, or `0x` and
//! hexadecimal digits of either case.
#![tactic(auto)]

mod bytes;
pub mod laws;
mod line;
mod lines;
mod number;
mod span;

pub use bytes::{before_comment, gap_len, has_forbidden, is_separator};
pub use line::{Line, Token};
pub use lines::Lines;
pub use number::{NumberError, NumberFault, parse_digits, parse_number, read_number};
pub use span::Span;
