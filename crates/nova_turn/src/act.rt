//! A turn: who acts is chosen, a deed is done, counted for those for which it is an input, and charged.

mod creation;
mod due;
mod instructions;
mod ipc;
mod scheduling;
pub mod seers;
mod semaphores;
mod stirs;
mod turn;
