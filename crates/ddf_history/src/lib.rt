//! The history of a group of disks: what a stop at any moment leaves of its configuration.
#![tactic(auto)]

mod answers;
mod laws;

pub use answers::assembly_answers_as_histories_tell;
pub use laws::{
    a_call_goes_on_from_what_it_assembled, a_call_on_other_disks_keeps_what_each_slot_shows,
    a_change_is_issued_behind_the_last, a_change_may_follow,
    a_change_that_all_show_is_acknowledged, a_disk_write_keeps_what_each_slot_shows,
    a_history_starts_with_a_group, a_listed_member_that_is_not_lost_is_a_current_member,
    a_lost_member_is_missing, assembly_answers_a_configuration_since_the_last_acknowledged,
    changed_copies_may_be_written, disks_of_other_groups_that_are_written_last_join_last,
};
