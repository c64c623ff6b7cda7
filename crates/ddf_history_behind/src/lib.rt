//! No disk of a history is taken for an older image: how far behind the newest configuration stops and lost disks leave a disk.
#![tactic(auto)]

mod laws;

pub use laws::{
    a_call_leaves_no_disk_far_behind, a_command_leaves_no_disk_far_behind,
    a_history_begins_with_no_disk_behind, an_import_leaves_no_disk_far_behind,
    no_command_loses_nothing, no_disk_of_a_history_is_taken_for_an_older_image,
    no_moment_of_a_history_has_a_disk_that_is_taken_for_an_older_image,
    no_stop_leaves_a_disk_that_is_taken_for_an_older_image, what_is_absent_is_a_current_member,
};
