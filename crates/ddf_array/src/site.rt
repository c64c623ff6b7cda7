//! A slot and a sector of it: what placing ends in, and what a bay is asked for.

/// A sector of a slot of the bay.
#[derive(Clone, Copy, PartialEq, Eq)]
pub struct Site {
    /// The number of the slot.
    pub slot: usize,
    /// The LBA of the sector on it.
    pub lba: u64,
}
