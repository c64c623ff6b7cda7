//! What is left of arrays: which lie on a disk, what becomes of them without it, which are failed, what a call that failed left of their blocks, which disk of
//! one is being filled, which spare stands in for one that is lost, and what a `copyback` left that didn't end.
//!
//! argued: that what is told of an array is what is left of it, for each is a few lines over the group as it was assembled.
#![tactic(auto)]

mod arrays_after;
mod faulted;
mod filling;
mod going_back;
mod interim;
mod positions;
mod shown;
mod uncopied;
mod unfilled;

pub use arrays_after::{failed_array, lies_on, name_arrays_after};
pub use faulted::{name_marked, tell_cut, tell_faulted};
pub use going_back::{name_stand_in, tell_back};
pub use interim::name_interim;
pub use positions::{keeps_parity, lacks_one, slot_filled};
pub use shown::group_shown;
pub use uncopied::name_half_moved;
pub use unfilled::Fault;
