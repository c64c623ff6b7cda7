//! Why blocks aren't read or written.

/// Why blocks of an array can't be read or written.
#[derive(Clone, Copy, PartialEq, Eq)]
pub enum VolumeFault {
    /// The range passes the capacity, which is this.
    Range(u64),
    /// The array isn't within its level.
    Lost,
    /// Only parity has a block, and the array is marked as not consistent.
    Unsure,
    /// An element that keeps parity lacks a position, so what is written has no parity.
    Degraded,
    /// No source of a block is left: each has a slot of which a read failed, and this is such a slot of the first. Or a
    /// write or sync of this slot failed.
    Disk(usize),
}
