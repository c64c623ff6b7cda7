//! Joins: another group's disks become disks of a group, or why they can't.
#![tactic(auto)]

mod importing;
mod joining;
mod laws;
mod sides;
mod told;

pub use importing::{ReadyImport, ReadyJoin, ready_import, refuses_join, write_join};
pub use laws::{
    a_group_knows_the_disks_that_it_did_not_leave_out,
    a_join_is_written_to_the_disks_that_join_last, a_join_may_be_written_and_makes_a_settled_group,
    an_import_is_a_recovery_and_a_join,
};
