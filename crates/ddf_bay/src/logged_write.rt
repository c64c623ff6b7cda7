//! One record of the log of a bay in memory.
use ddf_bytes::Sector;

/// A sector's write: where, what, the clock when it was made, and the clock when a sync made it sure.
#[derive(Clone, Copy, Drop)]
pub(crate) struct LoggedWrite {
    pub slot: usize,
    pub lba: u64,
    pub bytes: Sector,
    pub at: u64,
    pub settled: Option<u64>,
}
