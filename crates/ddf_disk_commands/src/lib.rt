//! The commands over the copies of single disks: `examine` and `label`.
#![tactic(auto)]

mod examining;
mod label_slots;
mod labelling;
mod viewing;

pub use examining::examine;
pub use label_slots::layout_for;
pub use labelling::label;
