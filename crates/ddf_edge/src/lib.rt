//! The edge between the program and the system: images as files that are claimed, words that name them, help and what is wrong with words, the standard streams,
//! and the moment and the random numbers for new names.
//!
//! argued: that each image is opened, claimed and closed as its command asks, and that help and what standard error says are so, for each function is
//! a few lines around one call of the system or one text.
#![tactic(auto)]

mod care;
mod claims;
mod command_help;
mod counting;
mod device;
mod disks;
mod element_images;
mod failure;
mod given;
mod help;
mod in_use;
mod memory;
mod meter;
mod no_text;
mod noting;
mod one_line;
mod patience;
mod patient;
mod reasons;
mod rest_of_input;
mod sizes;
mod slot_images;
mod stamp;
mod streams;
mod twins;
mod wrong_words;

pub use care::{Care, care_of_environment, care_word};
pub use counting::CountingSink;
pub use disks::{any_locked, first_unopened, name_failed, open_disks};
pub use failure::{DISK_FAULT, Failure, NO_MEMORY, STREAM_FAULT};
pub use given::{Given, lines_of_input};
pub use help::{FIRST_LINE, USAGE, answer};
pub use memory::keep_freed;
pub use meter::{LastCall, Length, Meter};
pub use no_text::name_no_texts;
pub use noting::NotingSource;
pub use one_line::OneLine;
pub use patient::Patient;
pub use reasons::{Reason, reason_of};
pub use rest_of_input::name_rest;
pub use sizes::{Size, number_sizes};
pub use slot_images::{command_word, name_place, number_slots, put_word};
pub use stamp::stamp_for;
pub use streams::hold_streams;
pub use twins::same_disk;
pub use wrong_words::explain;
