//! Whole histories of a group and of its data, whose calls are those that the program makes: laws from what it promises of them.
#![tactic(auto)]

mod laws;

pub use laws::{
    a_group_keeps_its_history_and_its_data_at_every_moment,
    a_group_that_was_found_whole_begins_a_history_of_data, a_label_begins_a_history_of_data,
    a_label_cut_short_begins_a_history_of_data, a_read_prints_what_its_moment_promises,
    an_array_that_a_scrub_found_clean_agrees, arrays_that_joined_keep_what_was_promised_of_them,
    disks_that_join_wholly_have_their_floors,
};
