//! What standard error says of Linux: what it makes of the disks and the arrays of a group, and what is to be done before it sees them.
//!
//! argued: that Linux takes a disk or an array as is told, for each is a few lines over the words of a command or over the group as it was assembled.
#![tactic(auto)]

mod for_linux;
mod linux_bay;

pub use for_linux::{
    made_for_linux, name_lost_on_linux, name_misread, name_turned, name_unfinished, name_unrebuilt,
    name_untaken,
};
pub use linux_bay::LinuxBay;
