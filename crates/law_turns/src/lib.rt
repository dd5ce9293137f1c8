//! Laws of the kernel's definitions. The functions do nothing: their contracts are the laws.
#![tactic(auto)]

mod callers;
mod choice;
mod edges;
mod events;
mod keeping;
mod making;
mod orders;
mod quiet;
mod refusals;
mod revokes;
mod rounds;
mod scheduling;
mod semaphores;
mod stirs;
mod tables;
mod times;
mod transfers;
mod virtual_cpus;
mod words;

pub use callers::a_handler_at_work_has_one_caller;
pub use choice::the_best_is_chosen;
pub use edges::edges_form_no_circle;
pub use events::{a_trace_has_an_event_a_turn, an_event_names_the_chosen};
pub use keeping::turns_keep_what_they_find;
pub use making::a_schedule_is_made_as_asked;
pub use orders::round_robin_runs_out;
pub use quiet::quiet_is_every_processor_idle;
pub use refusals::a_refused_call_changes_its_callers_registers;
pub use revokes::running_revokes_are_their_runners;
pub use rounds::round_robin_goes_round;
pub use scheduling::{
    each_has_at_most_one_scheduling_context, stamps_are_given_once, the_chosen_pays,
    ticks_count_turns, what_is_left_is_within_its_quantum,
};
pub use semaphores::{the_blocked_wait_at_their_semaphores, the_first_is_woken};
pub use stirs::{stir_counts_are_within_turns, stir_counts_rise_with_inputs_from_outside};
pub use tables::tables_go_with_objects;
pub use times::{
    alarms_keep_their_moments, the_first_that_is_to_come_is_due, what_is_due_takes_the_turn,
    who_has_a_deadline_waits_there,
};
pub use transfers::{
    a_child_is_what_range_and_derivation_share, a_creator_gives_a_range_to_a_domain,
    an_item_counts_its_children, each_part_moves_on, items_are_given_in_order,
    items_go_to_the_windows_of_the_receiver, what_is_left_is_given_next,
    words_tell_what_came_of_an_item,
};
pub use virtual_cpus::virtual_cpus_wait_for_their_exits_alone;
pub use words::a_turn_writes_the_words_of_one;
