//! Assembly: the group that the disks of a bay are, with its configuration, or why there is none.
#![tactic(auto)]

mod assembling;
mod group;
mod reading;

pub use assembling::{AssembledGroup, assemble, assemble_with_left_out, first_left_out, shown};
pub use ddf_group::{Assembly, Differ};
pub use group::Group;
