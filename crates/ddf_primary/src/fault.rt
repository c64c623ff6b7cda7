//! Why numbers make no element. docs/PLACING.md#numbers

/// Why numbers make no shape. Where several of these hold, the first in this order is told.
#[derive(Clone, Copy, PartialEq, Eq)]
pub enum ShapeFault {
    /// The primary level is not served.
    Level(u8),
    /// The level is served, and not with this qualifier.
    Qualifier(u8),
    /// The level takes another number of members.
    MemberCount(u16),
    /// The blocks per member are none, over 2^48, or for a level with rows fewer than one strip, in RAID 1E two.
    Blocks(u64),
}
