//! The controller data. docs/FORMAT.md#controller-data
ghost use Rattle.std.specs.Prelude.{◌≡◌, ◌↔◌, ℕ, List, length, Ok, IfOk};
ghost use Rattle.ddf_seal.specs.Records.{record_bytes};
ghost use Rattle.ddf_seal.specs.Unread.{AreBytes};
ghost use Rattle.ddf_tables.specs.Sectors.{
  IsController,
  IsControllerOf,
  controller_fields,
  controller_signature,
  decoded_controller,
};

use crate::layout::CONTROLLER_GUID_AT;
use ddf_bytes::{Guid, Sector};
use ddf_seal::{SEAL, SealFault, Span, check, clear, guid_at, place, seal};

/// The controller data (SNIA DDF 2.0).
#[derive(Clone, Copy, PartialEq, Eq)]
pub struct Controller {
    /// The GUID of the controller.
    pub guid: Guid,
    /// The bytes of the sector that no field names, and zeros in the places of the fields.
    pub rest: Sector,
}

const SIGNATURE: u32 = 0xAD11_1111;

/// The places of the seal and of all fields. The other bytes of the sector are unread.
const FIELDS: [Span; 2] = [
    SEAL,
    Span {
        at: CONTROLLER_GUID_AT,
        length: 24,
    },
];

/// The controller data that stand in a sector, or else the fault of its seal.
pub fn decode_controller(sector: &Sector) -> Result<Controller, SealFault>
    ensures exact { result ≡ decoded_controller sector.now }
    // The controller data are the value of the sector, and the only one.
    ensures ok { (controller : Controller) → (result ≡ Ok controller) ↔ IsControllerOf controller sector.now }
    ensures writable { IfOk result IsController }
{
    read(sector)
}

/// The sealed sector of controller data: each field in its place, and all other bytes from the rest.
pub fn encode_controller(value: &Controller) -> Sector
    ensures exact { result ≡ record_bytes controller_signature (controller_fields value.now) value.now.rest }
    // What was decoded is given back.
    ensures back { (sector : List ℕ) → IsControllerOf value.now sector → result ≡ sector }
    // What can be written is the value of the sector.
    ensures made { IsController value.now → IsControllerOf value.now result }
{
    let mut sector = value.rest;
    write(&mut sector, value);
    sector
}

fn read(sector: &Sector) -> Result<Controller, SealFault>
    ensures { result ≡ decoded_controller sector.now }
{
    check(sector, SIGNATURE)?;
    let mut rest = *sector;
    clear(&mut rest, &FIELDS);
    Ok(Controller {
        guid: guid_at(sector, CONTROLLER_GUID_AT),
        rest,
    })
}

fn write(sector: &mut [u8], value: &Controller)
    requires { length sector.old ≡ 512 }
    ensures exact { sector.new ≡ record_bytes controller_signature (controller_fields value.now) sector.old }
    ensures bytes { AreBytes sector.new }
{
    place(sector, CONTROLLER_GUID_AT, &value.guid.bytes());
    seal(sector, SIGNATURE);
}
