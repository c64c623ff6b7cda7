//! The commands over the group that the disks are: `assemble`, `show`, and every change that words ask for; and how a group is read.
#![tactic(auto)]

mod assembling;
mod changing;
mod linux;
mod showing;
mod writing;

pub use assembling::assemble_disks;
pub use changing::change;
pub use linux::linux_members;
pub use showing::show;
pub use writing::{failure_of, read_group, read_with_left_out, recovered};
