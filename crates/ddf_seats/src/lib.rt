//! The seats of a group: the disks of its members, with the copies that stand for them.
#![tactic(auto)]

mod fault;
mod seated;
mod seats;

pub use fault::GroupFault;
pub use seated::{
    Disk, Seated, Written, all_again, all_levelled, levelled, seated_disks, seats_in, views_in,
};
pub use seats::{copy_at, seats_of};
