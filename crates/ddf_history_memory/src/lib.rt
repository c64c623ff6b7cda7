//! Histories of a group on disks in memory: calls, stops within them and between them, disks that are lost and come back; and of a group that was found.
#![tactic(auto)]

mod laws;

pub use laws::{
    a_bay_still_tells_behind_counted_calls, a_call_goes_on_in_its_history,
    a_call_that_only_reads_leaves_its_history, a_disk_that_comes_back_goes_on_in_its_history,
    a_disk_that_was_left_out_is_missing, a_group_that_is_shown_alone_isnt_absorbed,
    a_group_that_was_found_whole_begins_a_history, a_group_that_was_found_whole_goes_on,
    a_kept_member_is_a_member_behind_a_call, a_stop_goes_on_in_its_history,
    an_unplugged_disk_is_lost, disks_are_assembled_as_promised, no_plugged_slot_is_left_out,
};
