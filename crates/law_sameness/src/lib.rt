//! Laws of when two states are the same, or alike: what no call of a kernel reads is counted turn by turn from what calls read, and where both are the
//! same, so are the states; where counts differ, they are alike.
#![tactic(auto)]

mod laws;

pub use laws::{
    states_that_are_read_alike_and_in_step_are_alike,
    states_that_are_read_and_counted_alike_are_the_same, turns_count_by_what_is_read,
    x0_is_always_zero,
};
