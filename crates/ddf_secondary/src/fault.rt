//! Why elements make no array. docs/PLACING.md#secondary-levels

/// Why a level and sizes make no tiers. Where several of these hold, the first is told.
#[derive(Clone, Copy, PartialEq, Eq)]
pub enum TiersFault {
    /// The secondary level is not served.
    Level(u8),
    /// There are no elements, or more than 16.
    Count(usize),
    /// The level goes by rows, and the elements have different units, or one has a unit of 0.
    Mixed,
}
