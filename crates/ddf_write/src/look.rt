//! What lies beside blocks is looked at before they are written: row by row of each piece, and piece by piece of the range.
ghost use Rattle.std.specs.Prelude.{◌≡◌, ◌+◌, ◌<◌, ◌≤◌, ◌^◌, ℕ, Some, None, false, true, length, slice_get, OnOk, IfOk, IfErr};
ghost use Rattle.ddf_primary.specs.Cells.{depth_of};
ghost use Rattle.ddf_array.specs.declared.part.Part.{Part};
ghost use Rattle.ddf_array.specs.Levels.{keeps_parity};
ghost use Rattle.ddf_array.specs.Sources.{trusts_parity};
ghost use Rattle.ddf_array.specs.Volume.{Fits, IsVolume, capacity};
ghost use Rattle.ddf_read.specs.Reading.{Failed, OnlyReads};
ghost use Rattle.ddf_cells.specs.CellSources.{IsReadable};
ghost use Rattle.ddf_cells.specs.Degraded.{is_degraded};
ghost use Rattle.ddf_cells.specs.RowSums.{HoldsParityAlong};
ghost use Rattle.ddf_write.specs.Beside.{NoneLeftBeside};
ghost use Rattle.ddf_write.specs.Gathering.{AreKnownAlong, Gathers, IsKnownAt, IsMissed, IsOfAnother, IsSplitRow, NoneLeftOfOthers, RowIsKnown};
ghost use Rattle.ddf_write.specs.Keeping.{AllAreKept};
ghost use Rattle.ddf_write.specs.RowWrites.{AreTouched, RowsIn};

use crate::kept::Kept;
use crate::looking::{Missed, Piece, keep_cells};
use crate::touching::{cell_in_element, touched_from, untouched_from};
use ddf_array::{Part, View};
use ddf_bay::Bay;
use ddf_cells::{blocks_along, piece_at};
use ddf_read::keeps_parity;

/// Keeps the cells of a position of neighbouring rows, but for the one with the parity.
fn keep_position<B: Bay>(
    bay: &mut B,
    view: &View,
    kept: &mut Kept,
    piece: Piece,
    element: usize,
    parity: usize,
    position: usize,
    sector: u64,
    rows: usize,
) -> Result<(), Missed>
    requires fits { Fits (B.disks bay.old).sizes view.now }
    requires readable { IsReadable view.now }
    requires few { rows ≤ 32 }
    requires numbers { piece.first + piece.blocks < 2 ^ 64 }
    requires small { sector + rows < 2 ^ 64 }
    requires there { element < length view.now.parts }
    requires sectors { (part : Part) → slice_get view.now.parts element ≡ Some part → sector + rows ≤ depth_of part.shape }
    ensures known { OnOk result ((position ≡ parity → ⊥) → AreKnownAlong view.now piece.first piece.blocks kept.new element position sector rows) }
    ensures gathers { OnOk result (Gathers B.tells (B.disks bay.old) (B.disks bay.new) view.now piece.start piece.count kept.old kept.new) }
    ensures left { IfErr result (λ missed. (part : Part) → slice_get view.now.parts element ≡ Some part → (position ≡ parity → ⊥)
        × IsMissed (NoneLeftOfOthers (Failed (B.disks bay.old) (B.disks bay.new)) view.now piece.start piece.count element part position sector rows) (IsOfAnother view.now piece element position sector rows) missed) }
    ensures reads { OnlyReads (B.disks bay.old) (B.disks bay.new) }
{
    if position == parity {
        return Ok(());
    }
    keep_cells(bay, view, kept, piece, element, position, sector, rows)
}

/// Keeps the data cells of neighbouring rows that the piece touches, those that hold no block of it.
fn keep_run_of_rows<B: Bay>(
    bay: &mut B,
    view: &View,
    kept: &mut Kept,
    piece: Piece,
    part: &Part,
    element: usize,
    parity: usize,
    sector: u64,
    rows: usize,
) -> Result<(), Missed>
    requires fits { Fits (B.disks bay.old).sizes view.now }
    requires readable { IsReadable view.now }
    requires trusted { trusts_parity view.now ≡ true }
    requires is_part { slice_get view.now.parts element ≡ Some part.now }
    requires keeps { keeps_parity part.now.shape.layout ≡ true }
    requires is_parity { HoldsParityAlong part.now parity sector rows }
    requires few { rows ≤ 32 }
    requires sectors { sector + rows ≤ depth_of part.now.shape }
    requires known { IsVolume view.now }
    requires begins { piece.start ≤ piece.first }
    requires ends { piece.first + piece.blocks ≤ piece.start + piece.count }
    requires numbers { piece.start + piece.count < 2 ^ 64 }
    requires touched { AreTouched view.now piece.first piece.blocks element sector rows }
    ensures known { OnOk result ((j position : ℕ) → j < rows → position < length part.now.places → (position ≡ parity → ⊥)
        → IsKnownAt view.now piece.first piece.blocks kept.new element position (sector + j)) }
    ensures gathers { OnOk result (Gathers B.tells (B.disks bay.old) (B.disks bay.new) view.now piece.start piece.count kept.old kept.new) }
    ensures left { IfErr result (IsMissed (NoneLeftBeside (Failed (B.disks bay.old) (B.disks bay.new)) view.now piece.start piece.count) (IsSplitRow view.now piece)) }
    ensures reads { OnlyReads (B.disks bay.old) (B.disks bay.new) }
{
    for position in 0..part.places.items().len() {
        keep_position(
            bay, view, kept, piece, element, parity, position, sector, rows,
        )?;
    }
    Ok(())
}

/// Keeps the data cells of the rows of an element that blocks of the piece touch from one of them on, where the blocks before it don't: as far as these lie
/// along a strip. Answers how many blocks they are.
fn keep_rows_from<B: Bay>(
    bay: &mut B,
    view: &View,
    kept: &mut Kept,
    piece: Piece,
    part: &Part,
    element: usize,
    k: usize,
) -> Result<usize, Missed>
    requires known { IsVolume view.now }
    requires fits { Fits (B.disks bay.old).sizes view.now }
    requires readable { IsReadable view.now }
    requires trusted { trusts_parity view.now ≡ true }
    requires is_part { slice_get view.now.parts element ≡ Some part.now }
    requires keeps { keeps_parity part.now.shape.layout ≡ true }
    requires begins { piece.start ≤ piece.first }
    requires ends { piece.first + piece.blocks ≤ piece.start + piece.count }
    requires numbers { piece.start + piece.count < 2 ^ 64 }
    requires blocks { piece.start + piece.count ≤ capacity view.now }
    requires here { k < piece.blocks }
    ensures some { IfOk result (λ count. 0 < count) }
    ensures within { IfOk result (λ count. k + count ≤ piece.blocks) }
    ensures known { IfOk result (λ count. RowsIn view.now piece.first k element (RowIsKnown view.now piece.first piece.blocks kept.old)
        → RowsIn view.now piece.first (k + count) element (RowIsKnown view.now piece.first piece.blocks kept.new)) }
    ensures gathers { OnOk result (Gathers B.tells (B.disks bay.old) (B.disks bay.new) view.now piece.start piece.count kept.old kept.new) }
    ensures left { IfErr result (IsMissed (NoneLeftBeside (Failed (B.disks bay.old) (B.disks bay.new)) view.now piece.start piece.count) (IsSplitRow view.now piece)) }
    ensures reads { OnlyReads (B.disks bay.old) (B.disks bay.new) }
{
    let block = piece.first + k as u64;
    let Some(cell) = cell_in_element(view, part, element, block) else {
        return Ok(1);
    };
    let along = blocks_along(view, block, piece.blocks as usize - k);
    let passed = touched_from(view, part, element, cell.sector, piece.first, k);
    if passed > 0 {
        return Ok(passed.min(along));
    }
    let most = piece_at(part, cell.sector, along as u64);
    let rows = untouched_from(view, part, element, cell.sector, piece.first, most);
    let Some(parity) = part.shape.parity_of(cell.row) else {
        unreachable!()
    };
    keep_run_of_rows(
        bay,
        view,
        kept,
        piece,
        part,
        element,
        usize::from(parity),
        cell.sector,
        rows,
    )?;
    Ok(rows)
}

/// Keeps the data cells of each row of an element that the piece touches.
fn keep_rows_in<B: Bay>(
    bay: &mut B,
    view: &View,
    kept: &mut Kept,
    piece: Piece,
    element: usize,
) -> Result<(), Missed>
    requires known { IsVolume view.now }
    requires fits { Fits (B.disks bay.old).sizes view.now }
    requires readable { IsReadable view.now }
    requires trusted { trusts_parity view.now ≡ true }
    requires begins { piece.start ≤ piece.first }
    requires ends { piece.first + piece.blocks ≤ piece.start + piece.count }
    requires numbers { piece.start + piece.count < 2 ^ 64 }
    requires blocks { piece.start + piece.count ≤ capacity view.now }
    ensures known { OnOk result (RowsIn view.now piece.first piece.blocks element (RowIsKnown view.now piece.first piece.blocks kept.new)) }
    ensures gathers { OnOk result (Gathers B.tells (B.disks bay.old) (B.disks bay.new) view.now piece.start piece.count kept.old kept.new) }
    ensures left { IfErr result (IsMissed (NoneLeftBeside (Failed (B.disks bay.old) (B.disks bay.new)) view.now piece.start piece.count) (IsSplitRow view.now piece)) }
    ensures reads { OnlyReads (B.disks bay.old) (B.disks bay.new) }
{
    let Some(part) = view.part(element) else {
        return Ok(());
    };
    if !keeps_parity(part.shape.layout()) {
        return Ok(());
    }
    let mut k = 0;
    while k < piece.blocks as usize {
        k += keep_rows_from(bay, view, kept, piece, part, element, k)?;
    }
    Ok(())
}

/// Keeps the data cells of each row that the piece touches, those that hold no block of it: element by element.
pub(crate) fn keep_piece<B: Bay>(
    bay: &mut B,
    view: &View,
    kept: &mut Kept,
    piece: Piece,
) -> Result<(), Missed>
    requires known { IsVolume view.now }
    requires fits { Fits (B.disks bay.old).sizes view.now }
    requires readable { IsReadable view.now }
    requires whole { is_degraded view.now ≡ false }
    requires trusted { trusts_parity view.now ≡ true }
    requires begins { piece.start ≤ piece.first }
    requires ends { piece.first + piece.blocks ≤ piece.start + piece.count }
    requires numbers { piece.start + piece.count < 2 ^ 64 }
    requires blocks { piece.start + piece.count ≤ capacity view.now }
    ensures all { OnOk result (AllAreKept view.now piece.first piece.blocks kept.new) }
    ensures gathers { OnOk result (Gathers B.tells (B.disks bay.old) (B.disks bay.new) view.now piece.start piece.count kept.old kept.new) }
    ensures left { IfErr result (IsMissed (NoneLeftBeside (Failed (B.disks bay.old) (B.disks bay.new)) view.now piece.start piece.count) (IsSplitRow view.now piece)) }
    ensures reads { OnlyReads (B.disks bay.old) (B.disks bay.new) }
{
    for element in 0..view.parts().len() {
        keep_rows_in(bay, view, kept, piece, element)?;
    }
    Ok(())
}
