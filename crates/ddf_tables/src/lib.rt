//! The tables of a disk's copy: disk and array entries, controller and disk data, and the bad block log.
#![tactic(auto)]

mod array_building;
mod array_table;
mod arrays;
mod bad_blocks;
mod bits;
mod controller;
mod disk_building;
mod disk_data;
mod disk_table;
mod disks;
mod fault;
pub mod layout;
mod row;
mod table;

pub use array_table::{ArrayTable, decode_arrays, encode_arrays};
pub use arrays::{ArrayEntry, ArrayRow};
pub use bad_blocks::{BadBlock, BadBlockLog, decode_bad_blocks, encode_bad_blocks};
pub use bits::{DiskState, DiskType};
pub use controller::{Controller, decode_controller, encode_controller};
pub use disk_data::{DiskData, decode_disk_data, encode_disk_data};
pub use disk_table::{DiskTable, decode_disks, encode_disks};
pub use disks::{DiskEntry, DiskRow};
pub use fault::TableFault;
