//! Where the fields of the tables, of controller data, of disk data and of the bad block log stand: offsets in bytes (SNIA DDF 2.0).
//! docs/FORMAT.md#physical-disk-records

/// Offset of the populated count in a table of disks or of arrays.
pub const POPULATED_AT: usize = 8;

/// Offset of the maximum in a table.
pub const MAXIMUM_AT: usize = 10;

/// Offset of the entries in a table, one after another.
pub const ROWS_AT: usize = 64;

/// The bytes of an entry of a table.
pub const ROW_BYTES: usize = 64;

/// Offset of the GUID of the disk in its entry.
pub const DISK_GUID_AT: usize = 0;

/// Offset of the reference in the entry of a disk.
pub const DISK_REFERENCE_AT: usize = 24;

/// Offset of the type in the entry of a disk.
pub const DISK_KIND_AT: usize = 28;

/// Offset of the state in the entry of a disk.
pub const DISK_STATE_AT: usize = 30;

/// Offset of the configured size in the entry of a disk.
pub const DISK_SIZE_AT: usize = 32;

/// Offset of the block size in the entry of a disk: two bytes, unread.
pub const DISK_BLOCK_SIZE_AT: usize = 58;

/// Offset of the GUID of the array in its entry.
pub const ARRAY_GUID_AT: usize = 0;

/// Offset of the number of the array in its entry.
pub const ARRAY_NUMBER_AT: usize = 24;

/// Offset of the type in the entry of an array: four bytes, unread.
pub const ARRAY_KIND_AT: usize = 28;

/// Offset of the state in the entry of an array.
pub const ARRAY_STATE_AT: usize = 32;

/// Offset of the init state in the entry of an array.
pub const ARRAY_INIT_AT: usize = 33;

/// Offset of the name in the entry of an array.
pub const ARRAY_NAME_AT: usize = 48;

/// Offset of the GUID of the controller in controller data.
pub const CONTROLLER_GUID_AT: usize = 8;

/// Offset of the GUID of the disk in disk data.
pub const DISK_DATA_GUID_AT: usize = 8;

/// Offset of the reference in disk data.
pub const DISK_DATA_REFERENCE_AT: usize = 32;

/// Offset of the count of the entries in a bad block log.
pub const LOG_COUNT_AT: usize = 8;

/// Offset of the count of the spare blocks in a bad block log.
pub const LOG_SPARE_COUNT_AT: usize = 10;

/// Offset of the LBA of the first spare block in a bad block log.
pub const LOG_FIRST_SPARE_AT: usize = 24;

/// Offset of the entries in a bad block log, one after another.
pub const LOG_ENTRIES_AT: usize = 32;

/// The bytes of an entry of a bad block log, in front of which its LBA stands.
pub const LOG_ENTRY_BYTES: usize = 16;

/// Offset of the place of its spare in an entry of a bad block log.
pub const BAD_SPARE_AT: usize = 8;

/// Offset of the number of bad sectors in an entry of a bad block log.
pub const BAD_COUNT_AT: usize = 12;
