//! Recovery: what brings a group in order, the changes behind that, and how both are written to its disks.
#![tactic(auto)]

mod committing;
mod laws;
mod mending;
mod ready;
mod recovering;
mod stray;

pub use committing::{advance, commit, recover};
pub use laws::what_a_change_left_is_assembled_to_the_group_after_it;
pub use ready::{Ready, disks_of, make_ready, recovery_spent};
pub use recovering::{disks_behind, first_step, loss};
pub use stray::{any_stray, trusted_seats};
