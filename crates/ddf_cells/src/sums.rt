//! Reads of what the parity of neighbouring rows should be.
ghost use Rattle.std.specs.Prelude.{◌≡◌, ◌+◌, ◌/◌, ◌<◌, ◌≤◌, ◌^◌, ℕ, [], Some, length, OnOk, IfErr, slice_get, slice_index_or};
ghost use Rattle.ddf_primary.specs.Cells.{depth_of};
ghost use Rattle.ddf_array.specs.declared.part.Part.{Part};
ghost use Rattle.ddf_array.specs.Volume.{Fits};
ghost use Rattle.ddf_read.specs.Reading.{OnlyReads, Failed};
ghost use Rattle.ddf_cells.specs.CellSources.{IsReadable, IsSure, NoneLeftAmong};
ghost use Rattle.ddf_cells.specs.GivenCells.{AreCellsAdded, AreSumsGiven};
ghost use Rattle.ddf_cells.specs.RowSums.{AreAddedAt, AreSumsAt, HoldsParityAlong, NoneLeftForSum, is_other};

use crate::cells::read_cells;
use ddf_array::View;
use ddf_bay::Bay;
use ddf_bytes::Sector;
use ddf_read::{add_each, clear};

/// Adds the values of neighbouring cells of a position, but for the one with the parity. After a failure, the slot at
/// which no source of a cell is left.
fn add_cells<B: Bay>(
    bay: &mut B,
    view: &View,
    element: usize,
    parity: usize,
    other: usize,
    sector: u64,
    work: &mut [Sector],
    into: &mut [Sector],
) -> Result<(), usize>
    requires fits { Fits (B.disks bay.old).sizes view.now }
    requires readable { IsReadable view.now }
    requires room { length work.old ≡ length into.old }
    requires small { sector + length into.old < 2 ^ 64 }
    requires there { element < length view.now.parts }
    requires sectors { (part : Part) → slice_get view.now.parts element ≡ Some part → sector + length into.old ≤ depth_of part.shape }
    ensures added { B.tells → OnOk result (IsSure view.now (B.disks bay.old) (B.disks bay.new)
        → AreAddedAt view.now (B.disks bay.old).held element sector (is_other parity other) into.old into.new) }
    ensures given { B.tells → OnOk result (AreCellsAdded (Failed (B.disks bay.old) (B.disks bay.new)) view.now (B.disks bay.old).held element sector parity other into.old into.new) }
    ensures left { IfErr result (λ slot. (part : Part) → slice_get view.now.parts element ≡ Some part
        → (other ≡ parity → ⊥) × NoneLeftAmong (Failed (B.disks bay.old) (B.disks bay.new)) view.now element part sector (length into.old) other slot) }
    ensures reads { OnlyReads (B.disks bay.old) (B.disks bay.new) }
{
    if other == parity {
        return Ok(());
    }
    match read_cells(bay, view, element, other, sector, work) {
        Ok(()) => {
            add_each(into, work);
            Ok(())
        }
        Err(slot) => Err(slot),
    }
}

/// Reads what the parity of neighbouring rows should be, from a sector on: the exclusive-or of the values of the data
/// cells. After a failure, the slot at which no source of a data cell is left.
pub fn read_sums<B: Bay>(
    bay: &mut B,
    view: &View,
    element: usize,
    parity: usize,
    sector: u64,
    work: &mut [Sector],
    out: &mut [Sector],
) -> Result<(), usize>
    requires fits { Fits (B.disks bay.old).sizes view.now }
    requires readable { IsReadable view.now }
    requires room { length work.old ≡ length out.old }
    requires small { sector + length out.old < 2 ^ 64 }
    requires there { element < length view.now.parts }
    requires sectors { (part : Part) → slice_get view.now.parts element ≡ Some part → sector + length out.old ≤ depth_of part.shape }
    requires parity { (part : Part) → slice_get view.now.parts element ≡ Some part → HoldsParityAlong part parity sector (length out.old) }
    ensures sums { B.tells → OnOk result (IsSure view.now (B.disks bay.old) (B.disks bay.new)
        → AreSumsAt view.now (B.disks bay.old).held element sector out.new (length out.old)) }
    ensures given { B.tells → OnOk result (AreSumsGiven (Failed (B.disks bay.old) (B.disks bay.new)) view.now (B.disks bay.old).held element sector out.new (length out.old)) }
    ensures left { IfErr result (λ slot. (part : Part) → slice_get view.now.parts element ≡ Some part
        → NoneLeftForSum (Failed (B.disks bay.old) (B.disks bay.new)) view.now element part sector (length out.old) slot) }
    ensures reads { OnlyReads (B.disks bay.old) (B.disks bay.new) }
{
    clear(out);
    for other in 0..view.parts()[element].places.items().len() {
        match add_cells(bay, view, element, parity, other, sector, work, out) {
            Ok(()) => {}
            Err(slot) => return Err(slot),
        }
    }
    Ok(())
}
