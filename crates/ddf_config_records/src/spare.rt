//! The record of a spare, as a value. docs/FORMAT.md#spare-record
use ddf_bytes::{Guid, Seq};

/// A spare assignment record (SNIA DDF 2.0), on the spare's own disk.
#[derive(Drop)]
pub struct SpareRecord {
    /// Seconds since 1980 began.
    pub timestamp: u32,
    /// The type: bit 0 dedicated, 1 revertible, 2 active, 3 affinity.
    pub kind: u8,
    /// The GUIDs of the arrays in the first entries: as many as the populated count says, and at most as fit the record.
    pub arrays: Seq<Guid>,
    /// The other bytes of the record, among them the populated count (bytes 20 and 21) and the maximum, and zeros in the
    /// places of the seal and of the fields above.
    pub rest: Seq<u8>,
}
