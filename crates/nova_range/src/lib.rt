//! Ranges of pages and selectors, the words that stand for them, and the rights, message groups and
//! statuses that hypercalls speak of.
#![tactic(auto)]

pub mod clamped;
pub mod index;
pub mod laws;
pub mod mtd;
pub mod range;
pub mod rights;
pub mod status;
pub mod word;

pub use bitflags::Flags;
pub use clamped::{Clamped, clamp};
pub use index::{Entry, Index};
pub use mtd::Mtd;
pub use range::{Kind, Range, inside, overlap};
pub use rights::{Rights, Target};
pub use status::Status;
pub use word::{WordFault, read_word, word_of};
