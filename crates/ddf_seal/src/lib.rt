//! The seal that every record of the format begins with, and the bytes of a record that no field names.
#![tactic(auto)]

mod crc;
mod crc_tables;
mod plain_crc;
mod sealing;
mod unread;

pub use crc::crc32;
pub use plain_crc::plain_crc32;
pub use sealing::{CRC_AT, SEAL, SIGNATURE_AT, SealFault, check, seal};
pub use unread::{Span, clear, guid_at, place};
