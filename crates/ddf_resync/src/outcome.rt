//! What a scrub answers.

/// What a scrub of an array found.
#[derive(Clone, Copy, PartialEq, Eq)]
pub enum Scrub {
    /// All available copies of each block are equal, and each row of which all cells are available has the sum of its data as
    /// parity.
    Clean,
    /// In this row of this element, the least such, they aren't.
    Differs {
        /// The number of the element.
        element: u8,
        /// The row of the element (of strips, in RAID 1E of two strips), a last part of one a row of its own.
        row: u64,
    },
}
