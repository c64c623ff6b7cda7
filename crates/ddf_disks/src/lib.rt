//! The disks that a command gets: the images that its words name, seen to where their records reach, turned where Linux sealed them, and by what
//! their bad block logs say. Where it can't be read what a disk's sectors are, it fails each call: it might else be taken for a blank one.
//! docs/DISK-MODEL.md#the-bays
#![tactic(auto)]

mod bad_log;
mod disks;
mod opened;
mod ranges;

pub use disks::{Disks, ends_of, name_failed_of, open};
pub use ranges::name_ranges;
