//! Histories of two groups and of their data over the same disks, side by side.
#![tactic(auto)]

mod laws;

pub use laws::{
    a_call_of_another_group_is_aside, a_group_is_labelled_beside_another,
    an_import_is_aside_of_a_third_group,
    arrays_of_an_import_that_was_cut_keep_what_was_promised_of_them,
    no_disk_of_a_history_is_ahead_of_its_group_or_of_another,
    two_groups_keep_their_histories_and_their_data_side_by_side,
};
