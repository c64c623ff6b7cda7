//! The headline of data in use, over disks in memory: from the label on, through arrays that are created, resynced and written, a write that a stop cuts
//! anywhere and a lost disk, to what a read prints in the end.
#![tactic(auto)]

mod laws;

pub use laws::{
    a_call_goes_on_in_its_history_of_data, a_command_finds_the_group_of_its_history,
    a_group_that_was_found_whole_goes_on_with_its_data,
    a_label_of_all_disks_begins_a_history_of_data, a_read_prints_what_its_history_promises,
    a_stop_a_loss_and_a_return_go_on_in_their_history_of_data,
    what_was_written_outlives_a_stop_and_a_lost_disk,
};
