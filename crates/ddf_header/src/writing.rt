//! A header, written: bytes that no field names go back as they were read. docs/FORMAT.md#header
ghost use Rattle.std.specs.Prelude.{◌≡◌, ◌≤◌, ℕ, List, length};
ghost use Rattle.ddf_seal.specs.Records.{record_bytes};
ghost use Rattle.ddf_seal.specs.Unread.{AreBytes, written};
ghost use Rattle.ddf_header.specs.declared.kind.HeaderKind.{HeaderKind};
ghost use Rattle.ddf_header.specs.Header.{
  IsHeaderOf,
  IsWritable,
  header_fields,
  header_signature,
  name_fields,
};

use crate::layout;
use crate::reading::Header;
use ddf_bytes::{Sector, put32, put64};
use ddf_seal::{place, seal};

/// The sealed sector of a header: each field in its place, and all other bytes from the header's rest.
pub fn encode(header: &Header) -> Sector
    ensures exact { result ≡ record_bytes header_signature (header_fields header.now) header.now.rest }

    // What was decoded is given back.
    // promise:unread
    ensures back { (kind : HeaderKind) (sector : List ℕ)
        → IsHeaderOf kind header.now sector → result ≡ sector }

    // Each header that can be written is the value of the sector.
    ensures made { (kind : HeaderKind) → IsWritable kind header.now → IsHeaderOf kind header.now result }
{
    let mut sector = header.rest;
    write(&mut sector, header);
    sector
}

/// Writes the fields of the header, and then the seal.
fn write(sector: &mut [u8], header: &Header)
    requires { 256 ≤ length sector.old }
    ensures exact { sector.new ≡ record_bytes header_signature (header_fields header.now) sector.old }
    ensures bytes { AreBytes sector.new }
{
    put_names(sector, header);
    header.geometry.put(sector);
    seal(sector, layout::HEADER_SIGNATURE);
}

/// Writes the fields before the geometry.
fn put_names(sector: &mut [u8], header: &Header)
    requires { 256 ≤ length sector.old }
    ensures { sector.new ≡ written (name_fields header.now) sector.old }
{
    place(sector, layout::GUID_AT, &header.guid.bytes());
    place(sector, layout::REVISION_AT, &header.revision.text());
    put32(sector, layout::SEQUENCE_AT, header.sequence);
    put32(sector, layout::TIMESTAMP_AT, header.timestamp);
    place(sector, layout::OPEN_FLAG_AT, &[header.openness]);
    put64(sector, layout::PRIMARY_LBA_AT, header.primary_lba);
    put64(sector, layout::SECONDARY_LBA_AT, header.secondary_lba);
    place(sector, layout::KIND_AT, &[header.kind.code()]);
}
