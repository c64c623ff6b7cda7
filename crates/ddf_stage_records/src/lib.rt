//! Where records lie beside the desk of a disk.
#![tactic(auto)]

mod laws;

pub use laws::{new_copies_leave_the_desks, records_lie_aside_of_the_desk};
