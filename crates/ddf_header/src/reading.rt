//! A header, read. docs/FORMAT.md#header
ghost use Rattle.std.specs.Prelude.{◌≡◌, ◌↔◌, Ok, IfOk};
ghost use Rattle.ddf_header.specs.Geometry.{IsSound};
ghost use Rattle.ddf_header.specs.Header.{IsHeaderOf, IsWritable, decoded, is_open_flag, are_header_places};

use crate::fault::HeaderFault;
use crate::geometry::Geometry;
use crate::kind::{HeaderKind, Revision};
use crate::layout;
use ddf_bytes::{Guid, Sector, be32, be64};
use ddf_seal::{check, clear, guid_at};

/// A header (SNIA DDF 2.0).
#[derive(Clone, Copy, PartialEq, Eq)]
pub struct Header {
    /// Which of the disk's headers it is.
    pub kind: HeaderKind,
    /// The GUID of the group.
    pub guid: Guid,
    /// The revision of the standard that the copy is written by.
    pub revision: Revision,
    /// The sequence number of the group's last update. FFFFFFFF in an anchor.
    pub sequence: u32,
    /// Seconds since 1980 began.
    pub timestamp: u32,
    /// The open flag: 00 where the copy is closed, FF in an anchor.
    pub openness: u8,
    /// The LBA of the primary header.
    pub primary_lba: u64,
    /// The LBA of the secondary header.
    pub secondary_lba: u64,
    /// The workspace, the sizes of records and the sections.
    pub geometry: Geometry,
    /// The bytes of the sector that no field names, and zeros in the places of the fields.
    pub rest: Sector,
}

/// The header of this kind that stands in a sector, or else the first fault.
pub fn decode(sector: &Sector, kind: HeaderKind) -> Result<Header, HeaderFault>
    // promise:header
    ensures exact { result ≡ decoded kind sector.now }
    // The header is the value of the sector, and the only one.
    // promise:header
    ensures ok { (header : Header) → (result ≡ Ok header) ↔ IsHeaderOf kind header sector.now }
    ensures writable { IfOk result (IsWritable kind) }
    ensures sound { IfOk result (λ header. IsSound header.geometry) }
{
    read(sector, kind)
}

fn read(sector: &Sector, kind: HeaderKind) -> Result<Header, HeaderFault>
    ensures { result ≡ decoded kind sector.now }
{
    if let Err(fault) = check(sector, layout::HEADER_SIGNATURE) {
        return Err(HeaderFault::Seal(fault));
    }
    let Some(revision) = Revision::from_text(&sector[layout::REVISION_AT..layout::REVISION_AT + 8])
    else {
        return Err(HeaderFault::Revision);
    };
    let openness = sector[layout::OPEN_FLAG_AT];
    if !is_open_flag(kind, openness) {
        return Err(HeaderFault::OpenFlag(openness));
    }
    let primary_lba = be64(sector, layout::PRIMARY_LBA_AT);
    let secondary_lba = be64(sector, layout::SECONDARY_LBA_AT);
    if !are_header_places(primary_lba, secondary_lba) {
        return Err(HeaderFault::Place);
    }
    if sector[layout::KIND_AT] != kind.code() {
        return Err(HeaderFault::Kind(sector[layout::KIND_AT]));
    }
    let geometry = Geometry::read(sector);
    if let Some(offset) = geometry.fault() {
        return Err(HeaderFault::Geometry(offset));
    }
    let mut rest = *sector;
    clear(&mut rest, &layout::FIELDS);
    Ok(Header {
        kind,
        guid: guid_at(sector, layout::GUID_AT),
        revision,
        sequence: be32(sector, layout::SEQUENCE_AT),
        timestamp: be32(sector, layout::TIMESTAMP_AT),
        openness,
        primary_lba,
        secondary_lba,
        geometry,
        rest,
    })
}

#[tactic(auto, unfolding(crate::specs::Header::is_open_flag))]
fn is_open_flag(kind: HeaderKind, flag: u8) -> bool
    ensures { result ≡ is_open_flag kind flag }
{
    match kind {
        HeaderKind::Anchor => true,
        HeaderKind::Primary | HeaderKind::Secondary => flag <= 0x0F,
    }
}

#[tactic(auto, unfolding(crate::specs::Header::are_header_places))]
fn are_header_places(primary_lba: u64, secondary_lba: u64) -> bool
    ensures { result ≡ are_header_places primary_lba secondary_lba }
{
    primary_lba != secondary_lba && primary_lba != u64::MAX && secondary_lba != u64::MAX
}
