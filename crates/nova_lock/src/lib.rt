//! A ticket lock whose value has a history: what a seat saw of it begins every later history, and closing the lock tells what all seats saw.
#![tactic(auto)]

mod bell;
mod called;
mod lock;
mod plays;
mod view;

pub use called::{Historied, LockCall};
pub use lock::{HistoryLock, Seat};
