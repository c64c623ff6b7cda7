//! A row of the virtual disk records: the fields of an array. docs/FORMAT.md#virtual-disk-records
ghost use Rattle.std.specs.Prelude.{◌≡◌};
ghost use Rattle.ddf_seal.specs.Unread.{written};
ghost use Rattle.ddf_tables.specs.Arrays.{array_at, array_fields};

use crate::fault::TableFault;
use crate::layout::{ARRAY_GUID_AT, ARRAY_INIT_AT, ARRAY_NAME_AT, ARRAY_NUMBER_AT, ARRAY_STATE_AT};
use crate::row::{Row, is_unused};
use ddf_bytes::{Guid, NoMemory, be16, put16};
use ddf_seal::{Span, clear, guid_at, place};
use std::alloc::Global;
use std::collections::BTreeSet;

/// A used entry of the virtual disk records (SNIA DDF 2.0).
#[derive(Clone, Copy, PartialEq, Eq)]
pub struct ArrayEntry {
    /// The GUID of the array.
    pub guid: Guid,
    /// The number of the array.
    pub number: u16,
    /// The state of the array.
    pub state: u8,
    /// How far it is initialized, and who may access it.
    pub init: u8,
    /// The name, padded.
    pub name: [u8; 16],
    /// The bytes of the entry that no field names, and zeros in the places of the fields.
    pub rest: [u8; 64],
}

/// A row of the virtual disk records.
#[derive(Clone, Copy, PartialEq, Eq)]
pub enum ArrayRow {
    /// An array.
    Entry(ArrayEntry),
    /// No array: the GUID is 24 bytes FF. All bytes of the row.
    Unused([u8; 64]),
}

/// The places of the fields. The other bytes of an entry are unread.
pub(crate) const FIELDS: [Span; 5] = [
    Span {
        at: ARRAY_GUID_AT,
        length: 24,
    },
    Span {
        at: ARRAY_NUMBER_AT,
        length: 2,
    },
    Span {
        at: ARRAY_STATE_AT,
        length: 1,
    },
    Span {
        at: ARRAY_INIT_AT,
        length: 1,
    },
    Span {
        at: ARRAY_NAME_AT,
        length: 16,
    },
];

impl Row for ArrayRow {
    ghost use Rattle.ddf_tables.specs.Arrays.{array_signature, array_row_at, array_row_bytes, is_used_array, array_twice};

    const SIGNATURE: u32 = 0xDDDD_DDDD;

    ghost SIGNATURE = { array_signature };

    ghost row_at = { array_row_at };

    ghost row_bytes = { array_row_bytes };

    ghost is_used_row = { is_used_array };

    ghost twice_after = { array_twice };

    #[tactic(auto, unfolding(crate::specs::Arrays::array_row_at))]
    fn read(bytes: &[u8]) -> ArrayRow {
        let guid = guid_at(bytes, ARRAY_GUID_AT);
        let mut rest = [0; 64];
        rest.copy_from_slice(bytes);
        if is_unused(&guid) {
            ArrayRow::Unused(rest)
        } else {
            ArrayRow::Entry(entry_at(rest))
        }
    }

    fn bytes(&self) -> [u8; 64] {
        match self {
            ArrayRow::Entry(entry) => entry_bytes(entry),
            ArrayRow::Unused(whole) => *whole,
        }
    }

    fn is_used(&self) -> bool {
        matches!(self, ArrayRow::Entry(_))
    }

    fn first_twice(alloc: Global, rows: &[ArrayRow]) -> Result<Option<TableFault>, NoMemory> {
        let mut seen = BTreeSet::new(alloc);
        for row in rows {
            if let ArrayRow::Entry(entry) = row {
                let guid = entry.guid;
                if !seen.insert(guid.bytes())? {
                    return Ok(Some(TableFault::TwiceSameGuid(guid)));
                }
            }
        }
        Ok(None)
    }
}

fn entry_at(bytes: [u8; 64]) -> ArrayEntry
    ensures { result ≡ array_at bytes }
{
    let mut name = [0; 16];
    name.copy_from_slice(&bytes[ARRAY_NAME_AT..]);
    let mut rest = bytes;
    clear(&mut rest, &FIELDS);
    ArrayEntry {
        guid: guid_at(&bytes, ARRAY_GUID_AT),
        number: be16(&bytes, ARRAY_NUMBER_AT),
        state: bytes[ARRAY_STATE_AT],
        init: bytes[ARRAY_INIT_AT],
        name,
        rest,
    }
}

fn entry_bytes(entry: &ArrayEntry) -> [u8; 64]
    ensures { result ≡ written (array_fields entry.now) entry.now.rest }
{
    let mut bytes = entry.rest;
    place(&mut bytes, ARRAY_GUID_AT, &entry.guid.bytes());
    put16(&mut bytes, ARRAY_NUMBER_AT, entry.number);
    place(&mut bytes, ARRAY_STATE_AT, &[entry.state]);
    place(&mut bytes, ARRAY_INIT_AT, &[entry.init]);
    place(&mut bytes, ARRAY_NAME_AT, &entry.name);
    bytes
}
