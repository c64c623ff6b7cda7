//! The places of a disk's copies.

/// The places of a disk's copies behind a move.
#[derive(Clone, Copy, Debug, PartialEq, Eq)]
pub struct Moved {
    /// The LBA of the primary header.
    pub primary: u64,
    /// The LBA of the secondary header.
    pub secondary: u64,
    /// The sectors that are left of the workspace.
    pub length: u64,
}
