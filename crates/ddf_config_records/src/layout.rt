//! Where the fields of the configuration records stand: offsets in bytes (SNIA DDF 2.0). docs/FORMAT.md#element-record
use ddf_seal::{SEAL, Span};

/// Offset of the GUID of the array.
pub const GUID_AT: usize = 8;

/// Offset of the timestamp.
pub const TIMESTAMP_AT: usize = 32;

/// Offset of the sequence number of the update that last altered the record.
pub const SEQUENCE_AT: usize = 36;

/// Offset of the count of the members.
pub const MEMBERS_AT: usize = 64;

/// Offset of the stripe size code n.
pub const STRIP_AT: usize = 66;

/// Offset of the RAID level.
pub const LEVEL_AT: usize = 67;

/// Offset of the qualifier of the level.
pub const QUALIFIER_AT: usize = 68;

/// Offset of the count of the array's elements.
pub const ELEMENTS_AT: usize = 69;

/// Offset of the place of this element among them.
pub const INDEX_AT: usize = 70;

/// Offset of the level over the elements.
pub const SECONDARY_AT: usize = 71;

/// Offset of the sectors of each member.
pub const BLOCKS_AT: usize = 72;

/// Offset of the sectors of the array.
pub const SIZE_AT: usize = 80;

/// Offset of the bytes of a block.
pub const BLOCK_SIZE_AT: usize = 88;

/// Offset of the associated spares: eight references.
pub const SPARES_AT: usize = 96;

/// Offset of the cache policies and parameters: eight bytes, unread.
pub const CACHE_AT: usize = 128;

/// Offset of the references of the members: behind those of as many members as the header allows stand the LBAs of their first sectors.
pub const REFERENCES_AT: usize = 512;

/// The places of the seal and of the fields of an element record in its first sector.
pub(crate) const HEAD: [Span; 15] = [
    SEAL,
    Span {
        at: GUID_AT,
        length: 24,
    },
    Span {
        at: TIMESTAMP_AT,
        length: 4,
    },
    Span {
        at: SEQUENCE_AT,
        length: 4,
    },
    Span {
        at: MEMBERS_AT,
        length: 2,
    },
    Span {
        at: STRIP_AT,
        length: 1,
    },
    Span {
        at: LEVEL_AT,
        length: 1,
    },
    Span {
        at: QUALIFIER_AT,
        length: 1,
    },
    Span {
        at: ELEMENTS_AT,
        length: 1,
    },
    Span {
        at: INDEX_AT,
        length: 1,
    },
    Span {
        at: SECONDARY_AT,
        length: 1,
    },
    Span {
        at: BLOCKS_AT,
        length: 8,
    },
    Span {
        at: SIZE_AT,
        length: 8,
    },
    Span {
        at: BLOCK_SIZE_AT,
        length: 2,
    },
    Span {
        at: SPARES_AT,
        length: 32,
    },
];

pub(crate) const ELEMENT_SIGNATURE: u32 = 0xEEEE_EEEE;

pub(crate) const VENDOR_SIGNATURE: u32 = 0x8888_8888;

pub(crate) const SPARE_SIGNATURE: u32 = 0x5555_5555;

/// Offset of the GUID of the vendor's record.
pub const VENDOR_GUID_AT: usize = 8;

/// The places of the seal and of the GUID of a vendor's record.
pub(crate) const VENDOR_HEAD: [Span; 2] = [
    SEAL,
    Span {
        at: VENDOR_GUID_AT,
        length: 24,
    },
];

/// Offset of the timestamp of a spare record.
pub const SPARE_TIMESTAMP_AT: usize = 8;

/// Offset of the type of a spare record.
pub const SPARE_KIND_AT: usize = 19;

/// Offset of the populated count of a spare record.
pub const SPARE_POPULATED_AT: usize = 20;

/// Offset of the maximum of a spare record.
pub const SPARE_MAXIMUM_AT: usize = 22;

/// Offset of the entries of a spare record.
pub const SPARE_ENTRIES_AT: usize = 32;

/// The bytes of an entry of a spare record, which begins with the GUID of an array.
pub const SPARE_ENTRY_BYTES: usize = 32;

/// Offset of the place of the element in an entry of a spare record: two bytes.
pub const SPARE_SECONDARY_AT: usize = 24;

/// The places of the seal and of the fields of a spare record before its entries.
pub(crate) const SPARE_HEAD: [Span; 3] = [
    SEAL,
    Span {
        at: SPARE_TIMESTAMP_AT,
        length: 4,
    },
    Span {
        at: SPARE_KIND_AT,
        length: 1,
    },
];

/// The name of a notes record (profile).
pub(crate) const NOTES: &[u8; 8] = b"RDDFNOTE";

/// Offset of the GUID of the group in a notes record.
pub const NOTES_GROUP_AT: usize = 8;

/// Offset of `RDDFNOTE` in ASCII, the name of a notes record.
pub const NOTES_NAME_AT: usize = 32;

/// Offset of the sequence number of the header that the notes belong to.
pub const NOTES_SEQUENCE_AT: usize = 40;

/// Offset of how many slots the section has.
pub const NOTES_SLOTS_AT: usize = 44;

/// Offset of Max_Primary_Element_Entries in a notes record.
pub const NOTES_MEMBERS_AT: usize = 46;

/// Offset of sixteen bytes 00 in a notes record.
pub const NOTES_ZEROS_AT: usize = 48;

/// Offset of the notes in a notes record.
pub const NOTES_AT: usize = 64;

/// Offset of a byte 00 in a note.
pub const NOTE_ZERO_AT: usize = 1;

/// Offset of the position that is rebuilt in a note, which begins with the byte that tells a copy.
pub const NOTE_POSITION_AT: usize = 2;

/// Offset of the reference of the disk that stands in, in a note.
pub const NOTE_STAND_IN_AT: usize = 4;

/// Offset of the row that the rebuild has come to in a note.
pub const NOTE_ROW_AT: usize = 8;

/// Offset of a bit for each position in a note.
pub const NOTE_BITS_AT: usize = 16;
