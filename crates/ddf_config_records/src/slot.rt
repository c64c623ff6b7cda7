//! What a slot of the configuration records may hold. What isn't understood is kept with all its bytes, and written back.
use crate::element::Element;
use crate::fault::ElementFault;
use crate::notes::Notes;
use crate::spare::SpareRecord;
use ddf_bytes::{Guid, Seq};

/// What stands in a slot of the configuration records.
#[derive(Drop)]
pub enum RecordSlot {
    /// An element of an array that this disk is a member of.
    Element(Element),
    /// A copy of an element's record, which valid notes list (profile).
    Copied(Element),
    /// A spare record.
    Spare(SpareRecord),
    /// This project's notes (profile).
    Notes(Notes),
    /// Any other vendor's record: its GUID, and its other bytes with zeros in the places of the seal and the GUID.
    Vendor(Guid, Seq<u8>),
    /// An element record whose element isn't read: why, and all its bytes.
    Unread(ElementFault, Seq<u8>),
    /// A slot of no known signature: all its bytes.
    Unused(Seq<u8>),
}
