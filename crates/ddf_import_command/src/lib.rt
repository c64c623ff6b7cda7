//! The command by which the disks and the arrays of another group join a group: `import`.
#![tactic(auto)]

mod importing;
mod laws;

pub use importing::import;
pub use laws::a_group_keeps_the_disks_that_join_it;
