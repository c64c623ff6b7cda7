//! A row of the physical disk records: the fields of a disk. docs/FORMAT.md#physical-disk-records
ghost use Rattle.std.specs.Prelude.{◌≡◌};
ghost use Rattle.ddf_seal.specs.Unread.{written};
ghost use Rattle.ddf_tables.specs.Disks.{disk_at, disk_fields};

use crate::bits::{DiskState, DiskType};
use crate::fault::TableFault;
use crate::layout::{DISK_GUID_AT, DISK_KIND_AT, DISK_REFERENCE_AT, DISK_SIZE_AT, DISK_STATE_AT};
use crate::row::{Row, is_unused};
use ddf_bytes::{Guid, NoMemory, be16, be32, be64, put16, put32, put64};
use ddf_seal::{Span, clear, guid_at, place};
use std::alloc::Global;
use std::collections::BTreeSet;

/// A used entry of the physical disk records (SNIA DDF 2.0).
#[derive(Clone, Copy, PartialEq, Eq)]
pub struct DiskEntry {
    /// The GUID of the disk.
    pub guid: Guid,
    /// The number by which configuration records refer to the disk.
    pub reference: u32,
    /// The type of the disk.
    pub kind: DiskType,
    /// The state of the disk.
    pub state: DiskState,
    /// The configured size, in sectors.
    pub size: u64,
    /// The bytes of the entry that no field names, and zeros in the places of the fields.
    pub rest: [u8; 64],
}

/// A row of the physical disk records.
#[derive(Clone, Copy, PartialEq, Eq)]
pub enum DiskRow {
    /// A disk.
    Entry(DiskEntry),
    /// No disk: the GUID is 24 bytes FF. All bytes of the row.
    Unused([u8; 64]),
}

/// The places of the fields. The other bytes of an entry are unread.
pub(crate) const FIELDS: [Span; 5] = [
    Span {
        at: DISK_GUID_AT,
        length: 24,
    },
    Span {
        at: DISK_REFERENCE_AT,
        length: 4,
    },
    Span {
        at: DISK_KIND_AT,
        length: 2,
    },
    Span {
        at: DISK_STATE_AT,
        length: 2,
    },
    Span {
        at: DISK_SIZE_AT,
        length: 8,
    },
];

/// The reference that names no disk (profile).
const NO_REFERENCE: u32 = u32::MAX;

impl Row for DiskRow {
    ghost use Rattle.ddf_tables.specs.Disks.{disk_signature, disk_row_at, disk_row_bytes, is_used_disk, disk_twice};

    const SIGNATURE: u32 = 0x2222_2222;

    ghost SIGNATURE = { disk_signature };

    ghost row_at = { disk_row_at };

    ghost row_bytes = { disk_row_bytes };

    ghost is_used_row = { is_used_disk };

    ghost twice_after = { disk_twice };

    #[tactic(auto, unfolding(crate::specs::Disks::disk_row_at))]
    fn read(bytes: &[u8]) -> DiskRow {
        let guid = guid_at(bytes, DISK_GUID_AT);
        let mut rest = [0; 64];
        rest.copy_from_slice(bytes);
        if is_unused(&guid) {
            DiskRow::Unused(rest)
        } else {
            DiskRow::Entry(entry_at(rest))
        }
    }

    fn bytes(&self) -> [u8; 64] {
        match self {
            DiskRow::Entry(entry) => entry_bytes(entry),
            DiskRow::Unused(whole) => *whole,
        }
    }

    fn is_used(&self) -> bool {
        matches!(self, DiskRow::Entry(_))
    }

    fn first_twice(alloc: Global, rows: &[DiskRow]) -> Result<Option<TableFault>, NoMemory> {
        let mut seen = BTreeSet::new(alloc);
        for row in rows {
            if let DiskRow::Entry(entry) = row {
                let reference = entry.reference;
                if reference == NO_REFERENCE || !seen.insert(reference)? {
                    return Ok(Some(TableFault::TwiceSameReference(reference)));
                }
            }
        }
        Ok(None)
    }
}

fn entry_at(bytes: [u8; 64]) -> DiskEntry
    ensures { result ≡ disk_at bytes }
{
    let mut rest = bytes;
    clear(&mut rest, &FIELDS);
    DiskEntry {
        guid: guid_at(&bytes, DISK_GUID_AT),
        reference: be32(&bytes, DISK_REFERENCE_AT),
        kind: DiskType(be16(&bytes, DISK_KIND_AT)),
        state: DiskState(be16(&bytes, DISK_STATE_AT)),
        size: be64(&bytes, DISK_SIZE_AT),
        rest,
    }
}

fn entry_bytes(entry: &DiskEntry) -> [u8; 64]
    ensures { result ≡ written (disk_fields entry.now) entry.now.rest }
{
    let mut bytes = entry.rest;
    place(&mut bytes, DISK_GUID_AT, &entry.guid.bytes());
    put32(&mut bytes, DISK_REFERENCE_AT, entry.reference);
    put16(&mut bytes, DISK_KIND_AT, entry.kind.0);
    put16(&mut bytes, DISK_STATE_AT, entry.state.0);
    put64(&mut bytes, DISK_SIZE_AT, entry.size);
    bytes
}
