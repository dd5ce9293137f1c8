//! What definitions of the model say where no other law does: numbers and bits of the format, the state after a deed, and which deed comes
//! of what. The functions do nothing: their contracts are the laws, on definitions alone.
#![tactic(auto)]

mod acting;
mod asked;
mod calls;
mod deeds;
mod examples;
mod messages;
mod objects;
mod parts;
mod refusals;
mod registers;
mod signs;
mod stores;
mod turning;

pub use acting::{edges_lead_to_handlers, states_that_act, who_goes_first_at_one_moment};
pub use asked::{calls_and_replies_are_as_asked, what_is_asked_for_is_done};
pub use calls::{
    a_lookup_tells_what_covers, an_item_that_doesnt_read_is_skipped, semaphores_refuse_so,
    the_hotspot_is_above_its_flags,
};
pub use deeds::{deeds_leave_this, deeds_that_make, what_is_told_is_in_its_registers};
pub use examples::{
    a_guest_is_served_by_its_monitor, the_newest_child_goes_first, the_root_begins_so,
    who_helps_pays,
};
pub use messages::{
    a_copy_has_the_counted_words, a_message_counts_its_words,
    an_exit_tells_the_groups_of_its_descriptor,
};
pub use objects::{
    a_maker_holds_what_it_made_where_it_asked, a_source_is_a_semaphore_of_the_roots,
    new_words_are_all_zero, rights_are_these_bits,
};
pub use parts::{a_part_is_skipped_for_the_first_reason, only_delegations_give};
pub use refusals::{
    makers_are_refused_in_this_order, refusals_are_of_rows, without_a_capability_is_bad_cap,
};
pub use registers::{registers_ask_for_these_calls, registers_that_ask_for_nothing};
pub use signs::events_tell_these_numbers;
pub use stores::{stores_are_done, what_consoles_got_stays};
pub use turning::{
    a_deed_leaves_its_actor_so, each_state_has_its_deed, only_what_is_asked_for_changes_others,
};
