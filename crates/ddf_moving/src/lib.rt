//! A disk whose records have other numbers than those of a group: its copies with the group's numbers at other places of the disk, and what
//! stands in the way of such a move.
#![tactic(auto)]

mod copies;
mod laws;
mod length;
mod looking;
mod numbers;
mod obstacle;
mod records;
mod stretch;
mod tables;

pub use copies::moved_copy;
pub use laws::{a_moved_copy_lies_apart, what_a_moved_copy_keeps};
pub use length::copy_length;
pub use looking::first_obstacle;
pub use numbers::same_numbers;
pub use obstacle::Obstacle;
