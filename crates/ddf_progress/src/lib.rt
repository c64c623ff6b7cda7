//! A bay that tells how many sectors were read and written while calls go on.
#![tactic(auto)]

mod calls;
mod watched;

pub use watched::{Progress, Watched};
