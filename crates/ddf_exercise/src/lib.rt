//! The program's exercise: it labels disks in memory, makes an array of them and writes it, loses two of the disks one after the other and rebuilds, and tells what it reads in the
//! end.
#![tactic(auto)]

mod blocks;
mod draws;
mod exercising;
mod laws;
mod line;
mod steps;
mod taking;

pub use draws::Fill;
pub use exercising::{Found, exercise, exercise_new_disks};
pub use laws::{an_exercise_tells_the_sequence_behind_its_steps, two_exercises_tell_these_lines};
pub use steps::Step;
