//! The notes of this project, as values: what the standard has no field for, as which positions are out of sync. docs/FORMAT.md#notes-record
use ddf_bytes::{Guid, Seq};

/// The notes that this project keeps on each member, in a vendor's record of its own (profile).
#[derive(Drop)]
pub struct Notes {
    /// The GUID of the group.
    pub group: Guid,
    /// The sequence number of the header that the notes belong to.
    pub sequence: u32,
    /// A note for each slot of the section.
    pub slots: Seq<SlotNote>,
}

/// What is noted about a slot (profile).
#[derive(Drop)]
pub struct SlotNote {
    /// Whether the slot is a copy of an element's record, on a disk that isn't a member of the element.
    pub copied: bool,
    /// The position that is rebuilt. FFFF is none.
    pub position: u16,
    /// The reference of the disk that stands in at a position of the element, to give its place back. 0 is none.
    pub stand_in: u32,
    /// The row that the rebuild has come to.
    pub row: u64,
    /// The positions that are out of sync, in rising order.
    pub out: Seq<u16>,
}
