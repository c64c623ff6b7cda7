//! Files that keep what the system said where a call on them failed, and that name the place with each read and write.
//!
//! argued: that what is kept of a file is why the last call that failed on it did so, for each call keeps the error that it hands on; and that bytes are read and
//! written at the place that was sought, for a read and a write hand it on, and each moves it by the bytes that it moved.
#![tactic(auto)]

mod file;
mod files;

pub use file::HeardFile;
pub use files::Heard;
