//! Reads of the values of neighbouring cells.
ghost use Rattle.std.specs.Prelude.{◌≡◌, ◌+◌, ◌<◌, ◌≤◌, ◌^◌, Some, length, OnOk, IfOk, IfErr, slice_get};
ghost use Rattle.ddf_primary.specs.Cells.{depth_of};
ghost use Rattle.ddf_array.specs.declared.part.Part.{Part};
ghost use Rattle.ddf_array.specs.Volume.{Fits};
ghost use Rattle.ddf_read.specs.Reading.{OnlyReads, Failed};
ghost use Rattle.ddf_cells.specs.CellSources.{AreCellsAt, IsReadable, IsSure, NoneLeftAmong};
ghost use Rattle.ddf_cells.specs.GivenCells.{AreCellsGiven};

use crate::blocks::read_held;
use crate::inverse::block_at;
use crate::without::read_empty;
use ddf_array::View;
use ddf_bay::Bay;
use ddf_bytes::Sector;

/// Reads the first of neighbouring cells: those that hold neighbouring blocks, or that hold none. Answers how many these
/// are. After a failure, the slot at which no source of one is left.
fn read_first<B: Bay>(
    bay: &mut B,
    view: &View,
    element: usize,
    position: usize,
    sector: u64,
    out: &mut [Sector],
) -> Result<usize, usize>
    requires fits { Fits (B.disks bay.old).sizes view.now }
    requires readable { IsReadable view.now }
    requires some { 0 < length out.old }
    requires small { sector + length out.old < 2 ^ 64 }
    requires there { element < length view.now.parts }
    requires sectors { (part : Part) → slice_get view.now.parts element ≡ Some part → sector + length out.old ≤ depth_of part.shape }
    ensures some { IfOk result (λ count. 0 < count) }
    ensures within { IfOk result (λ count. count ≤ length out.old) }
    ensures cells { B.tells → IfOk result (λ count. IsSure view.now (B.disks bay.old) (B.disks bay.new)
        → AreCellsAt view.now (B.disks bay.old).held element sector position out.new count) }
    ensures given { B.tells → IfOk result (λ count. AreCellsGiven (Failed (B.disks bay.old) (B.disks bay.new)) view.now (B.disks bay.old).held element sector position out.new count) }
    ensures left { IfErr result (λ slot. (part : Part) → slice_get view.now.parts element ≡ Some part
        → NoneLeftAmong (Failed (B.disks bay.old) (B.disks bay.new)) view.now element part sector (length out.old) position slot) }
    ensures reads { OnlyReads (B.disks bay.old) (B.disks bay.new) }
{
    match block_at(view, element, position, sector) {
        Some(block) => {
            let count = read_held(bay, view, block, out)?;
            Ok(count)
        }
        None => {
            let count = read_empty(bay, view, element, position, sector, out)?;
            Ok(count)
        }
    }
}

/// Reads the values of neighbouring cells of a position, from a sector of it on, as many as there are sectors to read
/// into: those of the blocks that they hold. A cell that holds none has its own bytes where it is available, else those
/// that the others of its row give where the element keeps parity and all of these are available, else zeros (profile).
/// Where no read failed on a slot of the array's available places, or the array is redundant, each is exactly that.
/// In any case it has the bytes of one of its sources, and each source before that one has a slot of which a read failed in
/// this call.
///
/// # Errors
/// The slot at which no source of a cell is left.
pub fn read_cells<B: Bay>(
    bay: &mut B,
    view: &View,
    element: usize,
    position: usize,
    sector: u64,
    out: &mut [Sector],
) -> Result<(), usize>
    requires fits { Fits (B.disks bay.old).sizes view.now }
    requires readable { IsReadable view.now }
    requires small { sector + length out.old < 2 ^ 64 }
    requires there { element < length view.now.parts }
    requires sectors { (part : Part) → slice_get view.now.parts element ≡ Some part → sector + length out.old ≤ depth_of part.shape }
    ensures cells { B.tells → OnOk result (IsSure view.now (B.disks bay.old) (B.disks bay.new)
        → AreCellsAt view.now (B.disks bay.old).held element sector position out.new (length out.old)) }
    ensures given { B.tells → OnOk result (AreCellsGiven (Failed (B.disks bay.old) (B.disks bay.new)) view.now (B.disks bay.old).held element sector position out.new (length out.old)) }
    ensures left { IfErr result (λ slot. (part : Part) → slice_get view.now.parts element ≡ Some part
        → NoneLeftAmong (Failed (B.disks bay.old) (B.disks bay.new)) view.now element part sector (length out.old) position slot) }
    ensures reads { OnlyReads (B.disks bay.old) (B.disks bay.new) }
{
    let mut at = 0;
    while at < out.len() {
        at += read_first(
            bay,
            view,
            element,
            position,
            sector + at as u64,
            &mut out[at..],
        )?;
    }
    Ok(())
}
