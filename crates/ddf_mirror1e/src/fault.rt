//! Why numbers make no RAID 1E.

/// Why numbers make no RAID 1E. Where several of these hold, the first in this order is told.
#[derive(Clone, Copy, PartialEq, Eq)]
pub enum MirrorFault {
    /// The qualifier is neither adjacent nor offset.
    Qualifier(u8),
    /// There are fewer than three members.
    MemberCount(u16),
    /// The blocks per member are over 2^48, or fewer than two strips.
    Blocks(u64),
}
