//! The disks of an exercise at its steps: a settled group that all of them tell, through commands of which nothing fails.
#![tactic(auto)]

mod ending;
mod first;
mod laws;
mod rebuilding;
mod writing;

pub use ending::{a_read_gives_all_blocks, a_scrub_is_clean, reads_leave_the_blocks};
pub use first::{
    a_label_founds_the_group_on_new_disks, a_new_array_is_created, a_resync_leaves_zeros,
    spares_leave_the_blocks,
};
pub use laws::a_change_is_done;
pub use rebuilding::a_rebuild_is_done;
pub use writing::a_write_fills_its_blocks;
