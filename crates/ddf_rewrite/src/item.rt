//! What needs a slot among the configuration records of a disk, and the slot that it has.
use ddf_bytes::Guid;

/// What has a slot among the configuration records of a disk (profile).
#[derive(Clone, Copy, PartialEq, Eq)]
pub enum Item {
    /// This project's notes.
    Notes,
    /// The spare record.
    Spare,
    /// The record of an element: the GUID of its array, and its place among the elements.
    Element(Guid, usize),
}

/// An item and the slot that it has.
#[derive(Clone, Copy, PartialEq, Eq)]
pub struct Slotted {
    /// What has the slot.
    pub item: Item,
    /// The number of the slot.
    pub slot: usize,
}
