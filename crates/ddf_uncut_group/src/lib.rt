//! A settled group through the steps of commands that nothing cuts, through writes below its floors, and through the loss of a disk.
#![tactic(auto)]

mod asking;
mod laws;
mod plain;

pub use asking::changes_that_nothing_refuses_are_readied;
pub use laws::{
    a_change_is_readied_as_its_step, a_command_finds_and_leaves_a_group_that_all_tell,
    a_group_is_found_without_a_disk, a_settled_group_isnt_stray,
    a_step_leaves_a_group_that_all_tell, blocks_leave_a_group_as_it_is,
    changes_are_readied_one_after_another, steps_leave_a_group_that_all_tell,
    the_loss_of_a_disk_comes_first,
};
pub use plain::{
    a_change_of_plain_disks_has_room, a_plain_copy_has_room, copies_of_a_new_group_stay_plain,
    disks_of_zeros_may_be_labelled, labelled_disks_are_a_settled_group, newest_copies_stay_plain,
    references_of_labelled_disks_are_distinct, steps_of_plain_disks_cost_few_sectors,
    what_a_plain_copy_is,
};
