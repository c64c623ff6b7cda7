//! The commands that write the blocks of arrays: `resync` and `write`.
#![tactic(auto)]

mod around;
mod payload;
mod planning;
mod resyncing;
mod writing;

pub use resyncing::resync_disks;
pub use writing::write;
