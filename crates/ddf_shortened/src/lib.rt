//! Disks whose records end 256 sectors before the last sector: a bay over a bay, in which such a slot is seen so much shorter.
#![tactic(auto)]

mod calls;
mod ends;
mod laws;
mod shortened;

pub use ends::Ends;
pub use laws::the_next_look_finds_the_same_end;
pub use shortened::Shortened;
