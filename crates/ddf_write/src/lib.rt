//! Writes of the blocks of an array, and the look at what lies beside them before.
#![tactic(auto)]

mod beside;
mod filling;
mod kept;
mod laws;
mod look;
mod looking;
mod pieces;
mod row;
mod rows;
mod touching;
mod write;

pub use beside::{Beside, LookFault, look_beside};
pub use kept::{DataCell, Kept};
pub use laws::{
    a_block_that_can_be_written_has_a_cell, a_fault_of_a_write_names_a_disk_of_the_array,
    a_look_ends_only_where_two_disks_failed, a_settled_write_is_in_every_image,
    a_stop_in_a_write_has_an_image_before, a_whole_array_is_sound, a_write_gives_values,
    a_write_keeps_an_array_redundant, a_write_leaves_old_or_new,
    a_write_sets_the_cells_of_its_blocks, the_mark_is_no_part_of_redundancy,
};
pub use pieces::piece_of;
pub use write::{write_blocks, write_refusal, write_unsynced};
