//! The stage of a disk: one block of an array, its parity, and a gate before them, written and made sure before the block itself is
//! written. A stop then leaves the block whole or not written at all.
#![tactic(auto)]

mod cells;
mod desk;
mod each;
mod gate;
pub mod layout;
mod reading;
mod staging;

pub use desk::{DESK_SECTORS, Desk, PAYLOAD_SECTORS, StageCell, Staged};
pub use gate::{Gate, gate_sector, open_gate};
pub use reading::{overlay, read_desk};
pub use staging::{replay, stage};
