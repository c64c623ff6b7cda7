//! What an array has to know of an element: three numbers.

/// What an element gives to an array.
#[derive(Clone, Copy, PartialEq, Eq)]
pub struct ElementSize {
    /// The blocks that the element holds.
    pub capacity: u64,
    /// The blocks of one of its data rows.
    pub unit: u64,
    /// Its whole data rows.
    pub rows: u64,
}
