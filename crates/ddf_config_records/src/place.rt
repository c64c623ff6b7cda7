//! A member's place in the record of an element.

/// Where a member of an element lies.
#[derive(Clone, Copy, Default, PartialEq, Eq)]
pub struct Place {
    /// The reference of the disk. FFFFFFFF is a position without a disk.
    pub reference: u32,
    /// The LBA of the extent's first sector.
    pub start: u64,
}
