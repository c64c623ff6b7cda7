//! Steps: what a change makes of the disks of a group, or why it is refused, and how it is written to them.
#![tactic(auto)]

mod changes;
mod full;
mod laws;
mod leading;
mod steps;
mod trying;
mod writing;

pub use changes::{any_spent, is_spent, steps_of};
pub use full::{full_of, lengths_differ, lesser};
pub use laws::a_step_gives_the_configuration_after_the_change;
pub use leading::{leading_disks, leading_views};
pub use steps::{Step, config_after, make_step, mode_of, raised, step_with};
pub use trying::most_members;
pub use writing::{sync_seats, write_step};
