//! The cells of an array's positions: which block each holds, reads of their values and of the sums of rows by runs of
//! neighbouring sectors, and writes of the cells of blocks.
#![tactic(auto)]

mod blocks;
mod cell;
mod cell_writes;
mod cells;
mod degraded;
mod inverse;
mod sums;
mod touched;
mod wanted;
mod without;
mod writing;

pub use blocks::{blocks_along, read_run};
pub use cell::cell_on;
pub use cell_writes::write_cells;
pub use cells::read_cells;
pub use degraded::{all_available, is_degraded};
pub use inverse::block_at;
pub use sums::read_sums;
pub use touched::{sync_touched, touch};
pub use wanted::{SECTORS, depth_of, holds_parity, piece_at, read_wanted};
pub use without::empty_from;
pub use writing::write_from;
