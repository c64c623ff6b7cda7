//! Bays of disks: slots of sectors, and what a stop at any moment may leave of them.
#![tactic(auto)]

mod access;
mod bay;
pub mod counts;
mod disk_fault;
mod file;
mod index;
mod log;
mod logged;
mod logged_write;
mod memory;
mod memory_calls;
mod opening;
mod transfer;

pub use bay::{Bay, BayFailed};
pub use disk_fault::DiskFault;
pub use file::FileBay;
pub use memory::MemoryBay;
