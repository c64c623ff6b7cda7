//! What a disk holds that isn't this program's, by the marks of others, and records of the standard that don't lie at its end, or lie on it once; the disks that
//! `label` would write over.
//!
//! argued: that a disk which `label` would write over is named where it holds something, and by what it holds, for each is a few lines over the sectors of one
//! disk.
#![tactic(auto)]

mod contents;
mod early;
mod filled;
mod moved;
mod odd;
mod one_copy;
mod sectors;

pub use early::name_early;
pub use filled::name_filled;
pub use odd::name_odd;
