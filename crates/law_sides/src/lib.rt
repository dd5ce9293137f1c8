//! Laws of sides: what ties protection domains to one another, so that sides are isolated exactly where their labels respect it; and what isolation
//! says of the turns that follow.
#![tactic(auto)]

mod laws;

pub use laws::{
    a_source_is_not_reached_by_its_sink, all_memory_that_flows_is_told,
    bare_and_mute_domains_are_careful, isolated_sides_touch_no_frame_of_another,
    isolation_is_respect_of_ties, sides_beside_what_rests_are_apart_for_good,
    sides_share_a_semaphore_and_no_more, sides_that_stay_isolated_met_careful_turns,
};
