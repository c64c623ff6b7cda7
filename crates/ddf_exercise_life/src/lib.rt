//! Lives that are lived: an exercise that was done is a life of a group and of its data, so that what the laws of long histories ask for is met together.
#![tactic(auto)]

mod laws;
mod living;

pub use laws::an_exercise_that_was_done_is_a_life;
pub use living::lives;
