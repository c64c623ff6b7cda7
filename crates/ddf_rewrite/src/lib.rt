//! What the copy of a disk is after a change of its group, or after a recovery in which nothing is lost: its tables, its configuration
//! records, its notes and its spare record, over the bytes that it had, and whether they have room.
#![tactic(auto)]

mod arrays;
mod associated;
mod copies;
mod disks;
mod elements;
mod holding;
mod issue;
mod item;
mod laws;
mod leading;
mod notes;
mod placement;
mod recovery;
mod room;
mod rows;
mod slots;
mod spares;
mod wanted;

pub use copies::{changed_copy, recovered_copy};
pub use item::{Item, Slotted};
pub use laws::{
    a_change_that_has_room_can_be_written, a_changed_copy_can_be_written,
    a_changed_copy_can_be_written_in_both_places, a_changed_copy_shows_the_configuration_fully,
    a_changed_copy_tells_linux_which_disks_are_filled, a_configuration_that_is_read_can_be_held,
    a_recovered_copy_agrees_with_the_leaders, a_recovered_copy_can_be_written,
    a_recovered_copy_shows_the_configuration, a_recovery_that_has_room_can_be_written,
    changed_copies_agree, changed_copies_give_the_configuration, recovered_copies_agree,
};
pub use room::{full_after_change, full_after_recovery};
