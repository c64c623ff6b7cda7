//! What the import of another group means to a history of the group that its disks join, and to a history of the group that they leave.
#![tactic(auto)]

mod laws;

pub use laws::{
    a_disk_that_joins_shows_its_former_group_or_has_left_it, a_group_stands_to_be_joined,
    an_import_is_a_call_of_its_history, an_import_keeps_its_history,
};
