//! A cell of RAID 1E: a member of an element, and a sector of its extent.

/// A place on one member of an element.
#[derive(Clone, Copy, PartialEq, Eq)]
pub struct MirrorCell {
    /// The member's place in the element's member list, from 0.
    pub member: u16,
    /// The sector, counted from the start of the member's extent.
    pub sector: u64,
    /// The pair of rows of strips that the sector is in, from 0.
    pub row: u64,
}
