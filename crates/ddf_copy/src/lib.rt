//! The copies of a disk: whether each is whole, and which of them is the newest.
#![tactic(auto)]

mod anchor;
mod copies;
mod copy;
mod fault;
mod gate;
mod headers;
mod image;
mod level;
mod newest_copy;
mod raw;
mod reading;
mod room;
mod run;
mod sections;
mod which;
mod writing;

pub use anchor::anchor_of;
pub use copies::{Copies, copies_of, newest};
pub use copy::DiskCopy;
pub use fault::{AnchorFault, CopyFault, SectionName, ShowFault};
pub use image::image_of;
pub use newest_copy::Newest;
pub use raw::Raw;
pub use reading::read_copy;
pub use run::{Run, runs_of};
pub use which::Which;
