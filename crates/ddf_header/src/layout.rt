//! Where the fields of a header stand in its sector: offsets in bytes (SNIA DDF 2.0). docs/FORMAT.md#header
use ddf_seal::{SEAL, Span};

/// The signature of each header (SNIA DDF 2.0).
pub const HEADER_SIGNATURE: u32 = 0xDE11_DE11;

/// Offset of the GUID of the group.
pub const GUID_AT: usize = 8;

/// Offset of the revision.
pub const REVISION_AT: usize = 32;

/// Offset of the sequence number.
pub const SEQUENCE_AT: usize = 40;

/// Offset of the timestamp.
pub const TIMESTAMP_AT: usize = 44;

/// Offset of the open flag.
pub const OPEN_FLAG_AT: usize = 48;

/// Offset of the foreign flag: one byte, unread.
pub const FOREIGN_FLAG_AT: usize = 49;

/// Offset of the disk grouping: one byte, unread.
pub const GROUPING_AT: usize = 50;

/// Offset of the LBA of the primary header.
pub const PRIMARY_LBA_AT: usize = 96;

/// Offset of the LBA of the secondary header.
pub const SECONDARY_LBA_AT: usize = 104;

/// Offset of the type.
pub const KIND_AT: usize = 112;

/// Offset of the sectors of the workspace.
pub const WORKSPACE_LENGTH_AT: usize = 116;

/// Offset of the LBA of the workspace.
pub const WORKSPACE_LBA_AT: usize = 120;

/// Offset of Max_PD_Entries.
pub const MAX_DISKS_AT: usize = 128;

/// Offset of Max_VD_Entries.
pub const MAX_ARRAYS_AT: usize = 130;

/// Offset of Max_Partitions.
pub const MAX_PARTITIONS_AT: usize = 132;

/// Offset of Configuration_Record_Length.
pub const RECORD_LENGTH_AT: usize = 134;

/// Offset of Max_Primary_Element_Entries.
pub const MAX_MEMBERS_AT: usize = 136;

/// Offset of the sections: eight pairs of offset and length.
pub const SECTIONS_AT: usize = 192;

/// The places of the seal and of all fields. The other bytes of the sector are unread.
pub(crate) const FIELDS: [Span; 17] = [
    SEAL,
    Span {
        at: GUID_AT,
        length: 24,
    },
    Span {
        at: REVISION_AT,
        length: 8,
    },
    Span {
        at: SEQUENCE_AT,
        length: 4,
    },
    Span {
        at: TIMESTAMP_AT,
        length: 4,
    },
    Span {
        at: OPEN_FLAG_AT,
        length: 1,
    },
    Span {
        at: PRIMARY_LBA_AT,
        length: 8,
    },
    Span {
        at: SECONDARY_LBA_AT,
        length: 8,
    },
    Span {
        at: KIND_AT,
        length: 1,
    },
    Span {
        at: WORKSPACE_LENGTH_AT,
        length: 4,
    },
    Span {
        at: WORKSPACE_LBA_AT,
        length: 8,
    },
    Span {
        at: MAX_DISKS_AT,
        length: 2,
    },
    Span {
        at: MAX_ARRAYS_AT,
        length: 2,
    },
    Span {
        at: MAX_PARTITIONS_AT,
        length: 2,
    },
    Span {
        at: RECORD_LENGTH_AT,
        length: 2,
    },
    Span {
        at: MAX_MEMBERS_AT,
        length: 2,
    },
    Span {
        at: SECTIONS_AT,
        length: 64,
    },
];
