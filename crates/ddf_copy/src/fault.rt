//! Why a slot has no anchor, and why a copy isn't whole: `examine` prints these. docs/FORMAT.md#whole-copies
use ddf_header::HeaderFault;
use ddf_seal::SealFault;
use ddf_tables::TableFault;

/// Why a slot has no anchor that can be read.
#[derive(Clone, Copy, PartialEq, Eq)]
pub enum AnchorFault {
    /// There is none: the slot has no sector, or its last one doesn't begin with the signature of a header.
    Blank,
    /// The last sector begins as a header, and is no anchor.
    Damaged(HeaderFault),
    /// A call on this slot failed.
    Disk(usize),
}

/// The sections of a copy that are read, in the order of the header.
#[derive(Clone, Copy, PartialEq, Eq)]
pub enum SectionName {
    /// The controller data.
    Controller,
    /// The physical disk records.
    Disks,
    /// The virtual disk records.
    Arrays,
    /// The configuration records.
    Records,
    /// The physical disk data.
    DiskData,
    /// The bad block log.
    BadBlocks,
}

/// Why a copy isn't whole (profile): the first of these in this order, but that a header past the disk's end is `Room(0)`
/// before all others. Sections count in the order of the header.
#[derive(Clone, Copy, PartialEq, Eq)]
pub enum CopyFault {
    /// There is no header of the copy's kind.
    Header(HeaderFault),
    /// The header's gate is open: an update of this sequence was stopped.
    Opened(u32),
    /// The header isn't the anchor's: the first byte that differs of the GUID, the revision, the two LBAs and all from the
    /// workspace length on, by its offset.
    Anchor(u16),
    /// A header or section of the copy, or the same of the other copy, doesn't end before the anchor, or one of this copy
    /// shares a sector with one of the other. 0 names the header, and otherwise the offset in the header of the first
    /// such section.
    Room(u16),
    /// A section that isn't what it is to be.
    Section(SectionName, TableFault),
    /// A slot of the configuration records that has a known signature and isn't sealed.
    Slot(usize, SealFault),
    /// A call on this slot of the bay failed.
    Disk(usize),
    /// Memory ran out.
    Memory,
}

/// Why it isn't told what a slot shows.
#[derive(Clone, Copy, PartialEq, Eq)]
pub enum ShowFault {
    /// A call on this slot failed.
    Disk(usize),
    /// Memory ran out.
    Memory,
}
