//! What a position should hold: the values of its cells, and the sums of rows where it holds parity.
ghost use Rattle.std.specs.Prelude.{◌≡◌, ◌+◌, ◌%◌, ◌<◌, ◌≤◌, ◌^◌, Some, true, length, OnOk, IfErr, slice_get};
ghost use Rattle.ddf_primary.specs.Cells.{depth_of};
ghost use Rattle.ddf_array.specs.declared.part.Part.{Part};
ghost use Rattle.ddf_array.specs.Levels.{keeps_parity};
ghost use Rattle.ddf_array.specs.Volume.{Fits, IsPart};
ghost use Rattle.ddf_read.specs.Reading.{OnlyReads, Failed};
ghost use Rattle.ddf_cells.specs.CellSources.{AreWantedAt, IsInOneRow, IsReadable, IsSure, NoneLeftFor, is_parity};
ghost use Rattle.ddf_cells.specs.GivenCells.{AreWantedGiven};

use crate::cells::read_cells;
use crate::sums::read_sums;
use ddf_array::{Part, View};
use ddf_bay::Bay;
use ddf_bytes::Sector;
use ddf_read::{keeps_parity, strip_of};

/// How many sectors of each position hold blocks or parity.
pub fn depth_of(part: &Part) -> u64
    requires { IsPart part.now }
    ensures value { result ≡ depth_of part.now.shape }
    ensures within { result ≤ part.now.shape.blocks }
{
    part.shape.depth()
}

/// How many sectors of each position are read or written in one call.
pub const SECTORS: usize = 32;

/// How many of so many sectors from one on are taken together: those of one row of strips where the element keeps parity.
pub fn piece_at(part: &Part, sector: u64, left: u64) -> usize
    requires part { IsPart part.now }
    requires some { 0 < left }
    ensures some { 0 < result }
    ensures few { result ≤ 32 }
    ensures within { result ≤ left }
    ensures row { IsInOneRow part.now sector result }
{
    let mut most = left.min(SECTORS as u64);
    if keeps_parity(part.shape.layout()) {
        let strip = strip_of(part);
        most = most.min(strip - sector % strip);
    }
    most as usize
}

/// Whether a position holds the parity of the row of a sector.
pub fn holds_parity(part: &Part, position: usize, sector: u64) -> bool
    requires part { IsPart part.now }
    requires sector { sector < depth_of part.now.shape }
    ensures { result ≡ is_parity part.now position sector }
{
    if !keeps_parity(part.shape.layout()) {
        return false;
    }
    match part.shape.parity_of(sector / strip_of(part)) {
        Some(member) => usize::from(member) == position,
        None => false,
    }
}

/// Reads what a position should hold at neighbouring sectors of one row of strips: the value of each cell, or the sum of
/// the row where it holds parity.
///
/// # Errors
/// The slot at which no source is left of a cell that is needed.
pub fn read_wanted<B: Bay>(
    bay: &mut B,
    view: &View,
    element: usize,
    position: usize,
    sector: u64,
    work: &mut [Sector],
    out: &mut [Sector],
) -> Result<(), usize>
    requires fits { Fits (B.disks bay.old).sizes view.now }
    requires readable { IsReadable view.now }
    requires room { length work.old ≡ length out.old }
    requires some { 0 < length out.old }
    requires there { element < length view.now.parts }
    requires sectors { (part : Part) → slice_get view.now.parts element ≡ Some part → sector + length out.old ≤ depth_of part.shape }
    requires row { (part : Part) → slice_get view.now.parts element ≡ Some part → IsInOneRow part sector (length out.old) }
    ensures wanted { B.tells → OnOk result (IsSure view.now (B.disks bay.old) (B.disks bay.new)
        → AreWantedAt view.now (B.disks bay.old).held element sector position out.new (length out.old)) }
    ensures given { B.tells → OnOk result (AreWantedGiven (Failed (B.disks bay.old) (B.disks bay.new)) view.now (B.disks bay.old).held element sector position out.new (length out.old)) }
    ensures left { IfErr result (λ slot. (part : Part) → slice_get view.now.parts element ≡ Some part
        → NoneLeftFor (Failed (B.disks bay.old) (B.disks bay.new)) view.now element part sector (length out.old) position slot) }
    ensures reads { OnlyReads (B.disks bay.old) (B.disks bay.new) }
{
    let part = &view.parts()[element];
    if holds_parity(part, position, sector) {
        read_sums(bay, view, element, position, sector, work, out)
    } else {
        read_cells(bay, view, element, position, sector, out)
    }
}
