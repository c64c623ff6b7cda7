//! The physical disk data: the GUID and the reference by which a disk finds itself in the tables. docs/FORMAT.md#physical-disk-data
ghost use Rattle.std.specs.Prelude.{◌≡◌, ◌↔◌, ℕ, List, length, Ok, IfOk};
ghost use Rattle.ddf_seal.specs.Records.{record_bytes};
ghost use Rattle.ddf_seal.specs.Unread.{AreBytes, written};
ghost use Rattle.ddf_tables.specs.Sectors.{
  IsDiskData,
  IsDiskDataOf,
  decoded_disk_data,
  disk_data_fields,
  disk_data_signature,
};

use crate::layout::{DISK_DATA_GUID_AT, DISK_DATA_REFERENCE_AT};
use ddf_bytes::{Guid, Sector, be32, put32};
use ddf_seal::{SEAL, SealFault, Span, check, clear, guid_at, place, seal};

/// The physical disk data: what a disk says of itself (SNIA DDF 2.0).
#[derive(Clone, Copy, PartialEq, Eq)]
pub struct DiskData {
    /// The GUID of the disk.
    pub guid: Guid,
    /// The number by which configuration records refer to the disk.
    pub reference: u32,
    /// The bytes of the sector that no field names, and zeros in the places of the fields.
    pub rest: Sector,
}

const SIGNATURE: u32 = 0x3333_3333;

/// The places of the seal and of all fields. The other bytes of the sector are unread.
const FIELDS: [Span; 3] = [
    SEAL,
    Span {
        at: DISK_DATA_GUID_AT,
        length: 24,
    },
    Span {
        at: DISK_DATA_REFERENCE_AT,
        length: 4,
    },
];

/// The physical disk data that stand in a sector, or else the fault of its seal.
pub fn decode_disk_data(sector: &Sector) -> Result<DiskData, SealFault>
    ensures exact { result ≡ decoded_disk_data sector.now }
    // The disk data are the value of the sector, and the only one.
    ensures ok { (disk : DiskData) → (result ≡ Ok disk) ↔ IsDiskDataOf disk sector.now }
    ensures writable { IfOk result IsDiskData }
{
    read(sector)
}

/// The sealed sector of physical disk data: each field in its place, and all other bytes from the rest.
pub fn encode_disk_data(value: &DiskData) -> Sector
    ensures exact { result ≡ record_bytes disk_data_signature (disk_data_fields value.now) value.now.rest }
    // What was decoded is given back.
    ensures back { (sector : List ℕ) → IsDiskDataOf value.now sector → result ≡ sector }
    // What can be written is the value of the sector.
    ensures made { IsDiskData value.now → IsDiskDataOf value.now result }
{
    let mut sector = value.rest;
    write(&mut sector, value);
    sector
}

fn read(sector: &Sector) -> Result<DiskData, SealFault>
    ensures { result ≡ decoded_disk_data sector.now }
{
    check(sector, SIGNATURE)?;
    let mut rest = *sector;
    clear(&mut rest, &FIELDS);
    Ok(DiskData {
        guid: guid_at(sector, DISK_DATA_GUID_AT),
        reference: be32(sector, DISK_DATA_REFERENCE_AT),
        rest,
    })
}

fn write(sector: &mut [u8], value: &DiskData)
    requires { length sector.old ≡ 512 }
    ensures exact { sector.new ≡ record_bytes disk_data_signature (disk_data_fields value.now) sector.old }
    ensures bytes { AreBytes sector.new }
{
    put_fields(sector, value);
    seal(sector, SIGNATURE);
}

fn put_fields(sector: &mut [u8], value: &DiskData)
    requires { length sector.old ≡ 512 }
    ensures { sector.new ≡ written (disk_data_fields value.now) sector.old }
{
    place(sector, DISK_DATA_GUID_AT, &value.guid.bytes());
    put32(sector, DISK_DATA_REFERENCE_AT, value.reference);
}
