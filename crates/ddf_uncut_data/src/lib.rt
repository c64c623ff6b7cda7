//! What the blocks of an array have behind calls that no stop cut: exactly the bytes that were given to them.
#![tactic(auto)]

mod laws;

pub use laws::{
    a_done_rebuild_leaves_the_blocks, a_done_resync_leaves_the_blocks_that_were_there,
    a_done_write_leaves_its_sectors, a_lost_disk_is_rebuilt, a_read_gives_the_blocks,
    a_rebuild_leaves_the_blocks, a_resync_leaves_the_blocks_that_were_there,
    a_scrub_of_agreeing_blocks_is_clean, a_write_leaves_its_sectors,
    an_array_below_the_floors_lies_aside, another_disk_leaves_the_blocks, blocks_are_values,
    fewer_places_leave_the_blocks, other_sectors_leave_the_blocks,
};
