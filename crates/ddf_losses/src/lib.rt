//! What a command over a group would lose: members, disks, arrays, marks; slots that show no member of it, disks that recovery must not write over, disks whose
//! tables can't be in one group, and arrays that another tool reads otherwise.
//!
//! argued: that what is named before a command is what it would lose, for each is a few lines over the group as it was assembled, or over the records of one disk.
#![tactic(auto)]

mod accepting;
mod adaptec;
mod ending;
mod losses;
mod silent;
mod strays;
mod tables;

pub use accepting::name_accepting;
pub use ending::{name_deleting, name_failing};
pub use losses::{name_away, name_losses};
pub use strays::name_strays;
pub use tables::name_difference;
