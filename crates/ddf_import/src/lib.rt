//! What an import makes of a group: the disks and arrays of another group join it.
#![tactic(auto)]

mod clash;
mod joining;
mod numbers;
mod offering;
mod places;
mod relocating;

pub use joining::join;
pub use offering::offer;
pub use places::Moved;
pub use relocating::{DESK_SECTORS, moved};
