//! A line for people behind each refusal: why it comes, and the way out.
//!
//! argued: that the line for people fits the refusal that was printed, for its number is read from what the output took, and one table has a text for
//! each number.
#![tactic(auto)]

mod answers;
mod causes;
mod ear;
mod hearing;

pub use answers::Refused;
pub use ear::Ear;
pub use hearing::HearingSink;
