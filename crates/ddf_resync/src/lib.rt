//! The copies and parity of an array: whether they agree, and how they are made to.
#![tactic(auto)]

mod copies;
mod copying;
mod laws;
mod looking;
mod outcome;
mod resyncing;
mod rows;
mod setting;
mod several;
mod sums;
mod walk;

pub use laws::{
    a_fault_of_a_resync_names_a_disk_of_the_array, a_resync_leaves_bytes_of_copies,
    a_resync_sets_sectors_of_extents, a_resync_takes_the_first_copy,
    a_settled_resync_is_in_every_image, a_stop_in_a_resync_has_an_image_before,
    agreeing_is_redundant,
};
pub use looking::needs_of_resync;
pub use outcome::Scrub;
pub use resyncing::{resync, resync_differing, resync_refusal};
pub use walk::scrub;
