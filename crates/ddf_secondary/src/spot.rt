//! A spot: an element of an array, and a block of it.

/// A place in an array: a block of one of its elements.
#[derive(Clone, Copy, PartialEq, Eq)]
pub struct Spot {
    /// The element's number in the array, from 0.
    pub element: u8,
    /// The block's number in the element, from 0.
    pub block: u64,
}
