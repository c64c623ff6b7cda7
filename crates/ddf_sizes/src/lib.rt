//! Sizes, and what may be written for short: a group by the first digits of its GUID, `100%` and units in the words of a command, the numbers
//! of `create` and of arrays told in units on standard error, and how long a command will go on.
//!
//! argued: that the sizes, the numbers and the lengths that standard error tells are so, for each is a few lines over the group as it was assembled.
#![tactic(auto)]

mod founded;
mod length;
mod numbers;
mod people;
mod shape;
mod short;
mod spares;

pub use length::length_of;
pub use numbers::name_numbers;
pub use people::name_sizes;
pub use short::{complete, is_short};
