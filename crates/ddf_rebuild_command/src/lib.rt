//! The command that fills a position of an array that is out of sync, onto a spare where its disk is lost: `rebuild`; and the one by which a position goes back
//! from such a spare to another disk: `copyback`.
#![tactic(auto)]

mod copying;
mod filling;
mod going_back;
mod notes;
mod passing;
mod planning;
mod rebuilding;
mod stepping;

pub use copying::copyback;
pub use rebuilding::rebuild;
