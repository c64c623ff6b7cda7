//! What a rebuild fills.

/// What is filled: a position of the array, and an extent where what it should hold is written.
#[derive(Clone, Copy)]
pub(crate) struct Aim {
    /// The number of the element.
    pub(crate) element: usize,
    /// The number of the position in it.
    pub(crate) position: usize,
    /// The slot of the extent's disk.
    pub(crate) slot: usize,
    /// The LBA of the extent's first sector.
    pub(crate) start: u64,
}
