//! Plays written scenarios: calls of a program over disks in memory, and tells where one is answered otherwise than is written.
#![tactic(auto)]

mod answer;
mod call;
mod compare;
mod disks;
mod edit;
mod input;
mod lines;
mod looking;
mod numbers;
mod outcomes;
mod placing;
mod player;
mod program;
mod report;
mod row;
mod run;
mod script;
mod stop;
mod sweep;
mod tiers;
mod told;
mod variables;
mod vectors;
mod words;

pub use player::play;
pub use program::{Program, Seen, Sight};
pub use report::Report;
pub use script::{Step, steps_of};
