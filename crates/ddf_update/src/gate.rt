//! A copy's header as its gate: open while the sections change, closed when they are sure. docs/UPDATES.md#behind-a-gate
use ddf_bytes::Sector;

/// Where a copy is written, and its header before and after.
#[derive(Drop)]
pub struct Gate {
    /// The LBA of the header.
    pub lba: u64,
    /// The header while the sections change.
    pub opened: Sector,
    /// The header behind them.
    pub closed: Sector,
}
