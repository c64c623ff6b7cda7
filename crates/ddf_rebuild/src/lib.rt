//! The rebuild of a position of an array that is out of sync, and the copy of one into free room.
#![tactic(auto)]

mod aim;
mod copying;
mod laws;
mod piece;
mod rows;

pub use copying::copyback;
pub use ddf_repair::Target;
pub use laws::{
    a_rebuild_changes_no_value, a_stop_in_a_copyback_has_an_image_before,
    a_stop_in_a_rebuild_has_an_image_before, rebuilt_rows_add_up, what_is_filled_aside_is_nothing,
};
pub use rows::{rebuild_rows, row_count};
