//! The headline in use, over disks in memory: from the label on, through commands that stops cut anywhere, a disk that is lost and comes back, to what
//! is assembled in the end.
#![tactic(auto)]

mod laws;

pub use laws::{
    a_command_goes_on_in_its_history, a_command_leaves_a_bay_that_still_tells,
    a_command_tells_what_is_promised, a_label_of_all_disks_begins_a_history,
    what_was_acknowledged_outlives_stops_and_a_lost_disk,
};
