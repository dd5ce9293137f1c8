//! Laws of alike states: states that differ in nothing but what counts turns, with scheduling contexts that compete in the same order and moments as
//! far from clocks, have alike turns. The functions do nothing: their contracts are the laws.
#![tactic(auto)]

mod laws;

pub use laws::{
    a_spinning_run_stays_alike, alike_states_are_as_one, alike_states_have_alike_turns,
    alikeness_is_an_equivalence, ticks_are_told_by_one_call,
};
