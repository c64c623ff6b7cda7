//! Parity: the exclusive-or of the sectors of a row.
#![tactic(auto)]

mod xor;

pub use xor::{missing_of, xor_into};
