//! Integrity: whatever a turn changes, the context whose turn it is had the authority for it, by what was held
//! in the state before. And what the definitions that authority rests on come to: what may run, what
//! instructions see, what is made, and which contexts wait for which. A state is reachable where some turns
//! make it of the boot state of some scenario. The functions do nothing: their contracts are the laws.
#![tactic(auto)]

mod callers;
mod confinement;
mod disclosure;
mod examples;
mod making;
mod rights;
mod running;
mod secrecy;
mod seeing;
mod trusted;

pub use callers::{
    callers_came_by_right, deadlines_were_set_by_right, exits_of_virtual_cpus_end_by_right,
};
pub use confinement::{
    closed_sets_are_blind_to_the_rest, closed_sets_stay_confined,
    guests_that_share_nothing_stay_apart,
};
pub use disclosure::{
    a_turn_is_the_same_over_what_it_doesnt_see, closed_sets_are_blind_to_registers_and_words,
    message_words_are_read_by_their_thread_and_its_handler,
    registers_are_told_by_exits_calls_and_stores,
};
pub use examples::runs_come_to_the_conditions;
pub use making::objects_are_made_as_asked;
pub use rights::{deeds_are_rightful, frames_that_nobody_may_write_stay, turns_change_by_right};
pub use running::{only_handlers_are_paid_for, who_may_run_is_a_candidate};
pub use secrecy::hidden_bytes_tell_nothing;
pub use seeing::instructions_see_what_their_domain_reaches;
pub use trusted::sides_are_apart_beside_trusted_domains;
