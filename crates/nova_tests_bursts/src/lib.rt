//! Tests of bursts: what leases and their commits come to. And scenarios with a guest, turns in a row and a drop, for these tests and those of
//! the kernel.
#![tactic(auto)]

#[cfg(test)]
mod commits;
pub mod drops;
#[cfg(test)]
mod due;
pub mod scenarios;
pub mod turns;
