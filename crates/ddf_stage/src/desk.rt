//! The desk of a disk: where a block and its parity are laid down before they are written in their places.
ghost use Rattle.std.specs.Prelude.{◌≡◌, ◌<◌};
ghost use Rattle.ddf_stage.specs.Laid.{sector_of};

use crate::gate::Gate;
use ddf_bytes::Sector;

/// How many sectors a desk has: its gate, the bytes of the block, and the parity of each of sixteen elements.
pub const DESK_SECTORS: u64 = 18;

/// How many of them stand behind the gate.
pub const PAYLOAD_SECTORS: usize = 17;

/// The place of a stage: sectors of a slot, from an LBA on.
#[derive(Clone, Copy, PartialEq, Eq)]
pub struct Desk {
    /// The slot of the disk.
    pub slot: usize,
    /// The LBA of the gate.
    pub lba: u64,
}

/// What is staged: what the gate names, and the sectors behind it. The first has the bytes of the block, and each later one the parity
/// of an element, in their order, or zeros where none is staged.
#[derive(Clone, Copy)]
pub struct Staged {
    /// What the gate names.
    pub gate: Gate,
    /// The sectors behind the gate.
    pub sectors: [Sector; PAYLOAD_SECTORS],
}

/// A sector of the array that gets one of the staged sectors.
#[derive(Clone, Copy, PartialEq, Eq)]
pub struct StageCell {
    /// The slot of the disk.
    pub slot: usize,
    /// The LBA of the sector.
    pub lba: u64,
    /// Which of the sectors behind the gate it gets.
    pub from: usize,
}

/// The staged sector that a cell gets.
pub(crate) fn sector_for<'a>(staged: &'a Staged, cell: &StageCell) -> &'a Sector
    requires { cell.now.from < 17 }
    ensures { result.now ≡ sector_of staged.now cell.now }
{
    &staged.sectors[cell.from]
}
