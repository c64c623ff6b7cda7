//! What a stop leaves of the disks of a group, as its history tells of it.
#![tactic(auto)]

mod blocks;
mod laws;

pub use blocks::{
    a_call_of_several_steps_keeps_its_history, blocks_keep_a_history, floors_lie_before_records,
};
pub use laws::{
    a_call_is_answered_as_its_history_promises, a_call_keeps_the_slots,
    a_call_that_was_done_ends_with_its_last_change, a_commit_keeps_its_history,
    a_named_group_is_the_one_that_is_found, a_recovery_keeps_its_history,
};
