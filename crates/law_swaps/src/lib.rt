//! Laws of turns that change places: a plain step of one processor, and a turn of another that touches nothing that it touches. The functions do nothing:
//! their contracts are the laws.
#![tactic(auto)]

mod laws;

pub use laws::{
    alike_states_touch_alike, instructions_read_their_frames, plain_steps_tell_no_ticks,
    turns_that_are_apart_change_places,
};
