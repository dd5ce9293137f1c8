//! Tests of threads and what they do to each other: message words, scheduling contexts, semaphores,
//! execution contexts, calls and exits.
#![tactic(auto)]

#[cfg(test)]
mod calls;
#[cfg(test)]
mod contexts;
#[cfg(test)]
mod exits;
#[cfg(test)]
mod message_words;
#[cfg(test)]
mod scheduling;
#[cfg(test)]
mod semaphores;
