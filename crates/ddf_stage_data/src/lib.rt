//! What arrays keep while a block of them is written from a stage, whatever stops it and whichever disks are lost.
#![tactic(auto)]

mod laws;

pub use laws::{
    a_block_written_from_a_stage_keeps_the_data, a_staged_write_keeps_the_data_at_every_moment,
    a_stop_in_a_staged_write_has_an_image_before,
};
