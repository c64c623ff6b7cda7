//! In what two copies differ, least first, so that each order of disks tells the same difference.
use ddf_bytes::Guid;

/// The least thing in which the copies of two disks of one group differ: disks come first, then arrays, then elements.
#[derive(Clone, Copy, PartialEq, Eq)]
pub enum Difference {
    /// The disk with this reference: in its GUID, type, state, size or place, or only one copy lists it.
    Disk(u32),
    /// The array with this GUID: in its number, state, init, name or place, or only one copy lists it.
    Array(Guid),
    /// An element of an array, by the array's GUID and its place among the elements, whose records both copies hold.
    Element(Guid, u8),
}
