//! What the bad block logs of a disk's copies mean to its sectors and its records, and a bay whose disks are read and written so.
#![tactic(auto)]

mod copies;
mod defect;
mod kept;
mod laws;
mod log;
mod look;
mod seen;

pub use defect::{LogDefect, defect_at, defect_of};
pub use laws::{
    a_change_leaves_the_exchange, a_disk_whose_log_fits_shows_the_same_copies,
    a_slot_shows_the_same_through_its_exchange,
    an_exchange_beside_the_records_shows_the_same_copies,
};
pub use log::{DiskLog, log_of};
pub use seen::seen_through;
