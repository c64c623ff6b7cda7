//! The commands that read the blocks of arrays: `read` and `scrub`; and what the use of blocks is refused for.
#![tactic(auto)]

mod pieces;
mod reading;
mod scrubbing;
mod using;

pub use reading::read;
pub use scrubbing::scrub_disks;
pub use using::{Access, failure_of, usable};
