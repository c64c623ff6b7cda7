//! The headers of a disk: the anchor in its last sector, and the primary and the secondary header.
#![tactic(auto)]

mod fault;
mod geometry;
mod kind;
pub mod layout;
mod reading;
mod writing;

pub use fault::HeaderFault;
pub use geometry::{
    ARRAYS, BAD_BLOCKS, CONTROLLER, DIAGNOSTIC, DISK_DATA, DISKS, Geometry, RECORDS, Section,
    VENDOR_LOGS,
};
pub use kind::{HeaderKind, Revision};
pub use layout::HEADER_SIGNATURE;
pub use reading::{Header, decode};
pub use writing::encode;
