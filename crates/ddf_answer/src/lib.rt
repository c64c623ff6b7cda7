//! How commands answer: their exit statuses, what is printed at their end, and why they aren't done.
#![tactic(auto)]

mod failure;
mod status;
mod telling;

pub use failure::{Failure, tell_failure};
pub use status::Status;
pub use telling::{tell, tell_line};
