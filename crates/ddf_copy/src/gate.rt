//! The header of a copy against the anchor. An open header counts for nothing: its sections may be half written. docs/FORMAT.md#whole-copies
ghost use Rattle.std.specs.Prelude.{◌≡◌, ◌<◌, IfSome, Some, IfErr, Ok};
ghost use Rattle.std.specs.Result.{result_err};
ghost use Rattle.ddf_copy.specs.Gate.{differ_at, first_difference, gate_fault, header_bytes, is_shared};

use crate::fault::CopyFault;
use crate::room::Room;
use crate::which::Which;
use ddf_bytes::Sector;
use ddf_header::{Header, encode, layout};

/// What is wrong with a header that was read at its place, on a disk of so many sectors.
#[tactic(auto, unfolding(crate::specs::Gate::gate_fault))]
pub(crate) fn gate_fault(
    size: u64,
    anchor: &Header,
    which: Which,
    header: &Header,
    sector: &Sector,
) -> Option<CopyFault>
    requires { 0 < size }
    ensures { result ≡ gate_fault size anchor.now which header.now sector.now }
{
    if header.openness != 0 {
        return Some(CopyFault::Opened(header.sequence));
    }
    if let Some(offset) = first_difference(&encode(anchor), sector) {
        return Some(CopyFault::Anchor(offset as u16));
    }
    let room = Room {
        last: size - 1,
        own: which.place(anchor),
        other: which.other().place(anchor),
    };
    room.fault(&header.geometry).map(CopyFault::Room)
}

/// The first byte of those that both share in which a header isn't as the anchor.
#[tactic(auto, unfolding(crate::specs::Gate::first_difference))]
fn first_difference(anchor: &Sector, header: &Sector) -> Option<usize>
    ensures place { result ≡ first_difference anchor.now header.now }
    ensures within { IfSome result (λ offset. offset < 512) }
{
    (0..512).position(|at| differ_at(anchor, header, at))
}

fn differ_at(one: &Sector, other: &Sector, at: usize) -> bool
    requires { at < 512 }
    ensures { result ≡ differ_at one.now other.now at }
{
    is_shared(at) && one[at] != other[at]
}

fn is_shared(at: usize) -> bool
    ensures { result ≡ is_shared at }
{
    matches!(
        at,
        layout::GUID_AT..layout::SEQUENCE_AT
            | layout::PRIMARY_LBA_AT..layout::KIND_AT
            | layout::WORKSPACE_LENGTH_AT..512
    )
}
