//! Bad block logs that are honoured, shown without their entries: a bay over a bay in which a disk's log counts what counts against the disk.
#![tactic(auto)]

mod calls;
mod hidden;
mod hiding;
mod honoured;
mod honoured_calls;
mod laws;
mod look;
mod mask;
mod masks;
mod pieces;
mod recount;

pub use hidden::Hidden;
pub use hiding::hide_logs;
pub use honoured::Honoured;
pub use laws::{
    a_bay_of_hidden_logs_goes_on_where_the_bay_below_does, a_change_keeps_the_log,
    a_disk_shows_what_counts_against_it, what_is_written_keeps_the_log,
    what_is_written_keeps_the_mask,
};
