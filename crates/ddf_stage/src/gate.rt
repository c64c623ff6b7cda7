//! The gate of a desk: one sealed sector that says whether what stands behind it counts. It is opened when the desk is sure, and closed when
//! the cells are: opened before, it could give a block that nobody wrote.
ghost use Rattle.std.specs.Prelude.{◌≡◌, ◌↔◌, ◌≤◌, ℕ, List, Some, None, true, length, if◌then◌else◌};
ghost use Rattle.ddf_seal.specs.Records.{record_bytes};
ghost use Rattle.ddf_seal.specs.Unread.{AreBytes, written};
ghost use Rattle.ddf_stage.specs.Gate.{IsGate, gate_at, gate_bytes, gate_fields, gate_signature, open_flag, opened};

use crate::layout;
use ddf_bytes::{Guid, Sector, be16, be64, put16, put64};
use ddf_seal::{guid_at, place, seal};

/// What a gate names: a block of an array, and the elements whose parity is staged with it.
#[derive(Clone, Copy, PartialEq, Eq)]
pub struct Gate {
    /// The GUID of the array.
    pub array: Guid,
    /// The number of the block.
    pub block: u64,
    /// Bit e is set where the parity of element e is staged.
    pub parities: u16,
}

const SIGNATURE: u32 = 0x5354_4147;

/// The sealed sector of a gate, open or closed (profile).
pub fn gate_sector(gate: &Gate, is_open: bool) -> Sector
    ensures exact { result ≡ gate_bytes is_open gate.now }
    // What an open gate names is read again, and a closed one names nothing.
    ensures again { IsGate gate.now → opened result ≡ (if is_open then Some gate.now else None) }
{
    let mut sector = [0; 512];
    write(&mut sector, gate, is_open);
    sector
}

/// What the gate names that stands open in a sector. None where the sector is no gate, or a closed one.
pub fn open_gate(sector: &Sector) -> Option<Gate>
    ensures exact { result ≡ opened sector.now }
    // It is the gate whose sector this is, and the only one.
    ensures gate { (gate : Gate) → (result ≡ Some gate) ↔ (IsGate gate × (sector.now ≡ gate_bytes true gate)) }
{
    let gate = read(sector);
    if gate_sector(&gate, true) == *sector {
        return Some(gate);
    }
    None
}

/// The values that stand in the places of the fields.
fn read(sector: &Sector) -> Gate
    ensures exact { result ≡ gate_at sector.now }
    ensures fits { IsGate result }
{
    Gate {
        array: guid_at(sector, layout::ARRAY_AT),
        block: be64(sector, layout::BLOCK_AT),
        parities: be16(sector, layout::PARITIES_AT),
    }
}

fn write(sector: &mut [u8], gate: &Gate, is_open: bool)
    requires { length sector.old ≡ 512 }
    ensures exact { sector.new ≡ record_bytes gate_signature (gate_fields is_open gate.now) sector.old }
    ensures bytes { AreBytes sector.new }
{
    put_fields(sector, gate, is_open);
    seal(sector, SIGNATURE);
}

fn put_fields(sector: &mut [u8], gate: &Gate, is_open: bool)
    requires { length sector.old ≡ 512 }
    ensures { sector.new ≡ written (gate_fields is_open gate.now) sector.old }
{
    place(sector, layout::ARRAY_AT, &gate.array.bytes());
    place(sector, layout::MARKER_AT, b"RDDFSTAG");
    place(sector, layout::OPEN_AT, &[flag(is_open)]);
    put64(sector, layout::BLOCK_AT, gate.block);
    put16(sector, layout::PARITIES_AT, gate.parities);
}

/// The flag of a gate that is open, or closed.
fn flag(is_open: bool) -> u8
    ensures { result ≡ open_flag is_open }
{
    if is_open { 1 } else { 0 }
}
