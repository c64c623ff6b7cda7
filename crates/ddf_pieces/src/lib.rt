//! The blocks of an array, read and written piece by piece: ranges of any length, in memory for one piece.
#![tactic(auto)]

mod fault;
mod reading;
mod sizes;
mod source;
mod writing;

pub use fault::PieceFault;
pub use reading::{read_pieces, read_pieces_counted};
pub use sizes::{room_for, sectors_in};
pub use writing::write_pieces;
