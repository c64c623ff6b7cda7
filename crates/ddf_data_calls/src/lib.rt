//! What the calls of the program mean to the data of arrays, those on blocks too: laws from what they promise.
#![tactic(auto)]

mod block_laws;
mod laws;

pub use block_laws::{
    a_call_that_only_reads_keeps_its_history_and_its_data,
    a_copyback_keeps_its_history_and_its_data, a_rebuild_keeps_its_history_and_its_data,
    a_resync_keeps_its_history_and_its_data, a_resynced_array_counts_with_what_it_holds,
    a_write_keeps_its_history_and_its_data, a_write_without_its_bytes_only_reads,
    an_accepted_array_counts_with_what_it_holds,
};
pub use laws::{
    a_call_keeps_its_history_and_its_data, a_call_on_other_disks_keeps_the_data,
    a_calls_seats_are_those_of_its_history, a_created_array_may_have_any_bytes,
    a_read_prints_what_was_acknowledged, fewer_promises_are_kept,
    the_changes_of_a_call_keep_the_data, what_a_stop_leaves_has_whole_sectors,
    what_a_wish_asks_for,
};
