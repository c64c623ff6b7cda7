//! Names of arrays: 16 bytes on disk, and the word that they print as.
#![tactic(auto)]

mod plain;
mod printed;

pub use printed::{NameText, print_alike, prints_as, prints_as_place};
