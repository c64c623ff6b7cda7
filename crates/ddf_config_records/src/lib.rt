//! The configuration records of a copy: which disks an array stands on, spares, notes and what other vendors keep.
#![tactic(auto)]

mod bit_set;
mod decoding;
mod duplicating;
mod element;
mod element_building;
mod element_reading;
mod element_writing;
mod encoding;
mod fault;
pub mod layout;
mod notes;
mod notes_reading;
mod notes_writing;
mod number_bounds;
mod place;
mod rest;
mod sizes;
mod slot;
mod slot_reading;
mod spare;
mod spare_building;
mod spare_reading;
mod spare_writing;
mod valid_slot;
mod vendor;

pub use decoding::{decode_slots, record_size};
pub use element::Element;
pub use encoding::encode_slots;
pub use fault::{ElementFault, SlotFault};
pub use notes::{Notes, SlotNote};
pub use place::Place;
pub use sizes::{notes_fit, slot_count, spare_entries};
pub use slot::RecordSlot;
pub use spare::SpareRecord;
pub use valid_slot::valid_notes_slot;
