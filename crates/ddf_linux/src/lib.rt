//! Disks whose records are sealed as Linux's mdadm counts the CRC, seen as the standard seals them.
#![tactic(auto)]

mod calls;
mod crcs;
mod kind;
mod laws;
mod layout;
mod pieces;
mod places;
mod records;
mod turned;
mod zeros;

pub use crcs::{linux_crc32, turn_record};
pub use laws::{
    a_blank_slot_is_seen_as_a_new_disk, a_founded_disk_is_sealed_for_linux,
    a_founding_cut_short_is_seen_blank_or_whole, an_anchor_of_other_places_is_left,
};
pub use turned::Turned;
pub use zeros::constant_of;
