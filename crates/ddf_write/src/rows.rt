//! The parity of rows that are touched while blocks are written, by runs of neighbouring rows. docs/DECISIONS-COMMANDS.md#blocks-written
ghost use Rattle.std.specs.Prelude.{◌≡◌, ◌⊎◌, ◌+◌, ◌<◌, ◌≤◌, ◌^◌, ℕ, List, Some, false, true, length, slice_get, OnOk, IfOk, IfErr};
ghost use Rattle.ddf_array.specs.declared.site.Site.{Site};
ghost use Rattle.ddf_array.specs.Apart.{IsApart};
ghost use Rattle.ddf_array.specs.Levels.{keeps_parity};
ghost use Rattle.ddf_array.specs.Places.{site_at};
ghost use Rattle.ddf_array.specs.Rows.{row_sum};
ghost use Rattle.ddf_array.specs.Values.{bytes_at};
ghost use Rattle.ddf_array.specs.Volume.{Fits, IsVolume, capacity};
ghost use Rattle.ddf_cells.specs.Degraded.{is_degraded};
ghost use Rattle.ddf_cells.specs.Parity.{IsOfRows};
ghost use Rattle.ddf_cells.specs.RowSums.{HoldsParityAlong};
ghost use Rattle.ddf_cells.specs.Touching.{IsTouchedSlot, Writes};
ghost use Rattle.ddf_write.specs.Keeping.{AllAreKept, AreTheirValues};
ghost use Rattle.ddf_write.specs.RowWrites.{AllRows, AreTouched, IsFilled, IsNoted, IsSummed, KeepsSums, RowsIn, keeps_parity_anywhere, parity_cells, row_cells};
ghost use Rattle.ddf_write.specs.WriteRefused.{IsStopped};
ghost use Rattle.ddf_write.specs.Writing.{MayGive};

use crate::kept::Kept;
use crate::row::sum_rows;
use crate::touching::{cell_in_element, touched_from, untouched_from};
use ddf_array::{Part, View};
use ddf_bay::Bay;
use ddf_bytes::Sector;
use ddf_cells::{SECTORS, blocks_along, piece_at, touch};
use ddf_read::keeps_parity;

/// Sets the parity of neighbouring rows to the sums of their data cells. After a failure, the slot that failed.
fn set_run<B: Bay>(
    bay: &mut B,
    view: &View,
    kept: &Kept,
    part: &Part,
    element: usize,
    parity: usize,
    sector: u64,
    count: usize,
    start: u64,
    from: &[Sector],
    touched: &mut [bool; 64],
) -> Result<(), usize>
    requires known { IsVolume view.now }
    requires apart { IsApart view.now }
    requires fits { Fits (B.disks bay.old).sizes view.now }
    requires whole { is_degraded view.now ≡ false }
    requires is_part { slice_get view.now.parts element ≡ Some part.now }
    requires keeps { keeps_parity part.now.shape.layout ≡ true }
    requires is_parity { HoldsParityAlong part.now parity sector count }
    requires inside { parity < length part.now.places }
    requires some { 0 < count }
    requires few { count ≤ 32 }
    requires small { sector + count < 2 ^ 64 }
    requires numbers { start + length from.now < 2 ^ 64 }
    requires sectors { sector + count ≤ part.now.shape.blocks }
    requires all_kept { AllAreKept view.now start (length from.now) kept.now }
    requires rows_touched { AreTouched view.now start (length from.now) element sector count }
    ensures writes { Writes (MayGive view.now start from.now) B.tells (B.disks bay.old) (B.disks bay.new) touched.old touched.new }
    ensures only { B.tells → (s l : ℕ) → ((B.disks bay.new).held s l ≡ (B.disks bay.old).held s l) ⊎ IsOfRows part.now parity sector count s l }
    ensures summed { B.tells → (entry : ℕ → ℕ → List ℕ) → IsFilled view.now start from.now entry (B.disks bay.old).held
        → OnOk result (AreTheirValues view.now entry kept.now → (j : ℕ) (one : Site) → j < count → site_at part.now.places parity (sector + j) ≡ Some one
        → bytes_at (B.disks bay.new).held one ≡ row_sum view.now (B.disks bay.new).held element part.now (sector + j)) }
    ensures noted { OnOk result ((j : ℕ) (one : Site) → j < count → site_at part.now.places parity (sector + j) ≡ Some one → IsTouchedSlot touched.new one.slot) }
    ensures unfailed { OnOk result ((B.disks bay.new).failed_writes ≡ (B.disks bay.old).failed_writes) }
    ensures reads { (B.disks bay.new).failed_reads ≡ (B.disks bay.old).failed_reads }
    ensures cause { IfErr result (IsStopped (B.disks bay.old) (B.disks bay.new) view.now start (length from.now)) }
    ensures asked { (B.disks bay.new).sectors_asked ≤ (B.disks bay.old).sectors_asked + count }
    ensures written { (B.disks bay.new).sectors_written ≤ (B.disks bay.old).sectors_written + count }
{
    let mut work = [[0; 512]; SECTORS];
    let mut sums = [[0; 512]; SECTORS];
    let work = &mut work[..count];
    let out = &mut sums[..count];
    sum_rows(
        view, kept, part, element, parity, sector, start, from, work, out,
    );
    let Some(first) = part.site_at(parity, sector) else {
        unreachable!()
    };
    touch(touched, first.slot);
    match bay.write_run(first.slot, first.lba, out) {
        Ok(()) => Ok(()),
        Err(_) => Err(first.slot),
    }
}

/// Sets the parity of the rows of an element that blocks of the range touch from one of them on, where the blocks before
/// it haven't: as far as these lie along a strip. Answers how many blocks they are.
fn set_rows_from<B: Bay>(
    bay: &mut B,
    view: &View,
    kept: &Kept,
    part: &Part,
    element: usize,
    start: u64,
    k: usize,
    from: &[Sector],
    touched: &mut [bool; 64],
) -> Result<usize, usize>
    requires known { IsVolume view.now }
    requires apart { IsApart view.now }
    requires fits { Fits (B.disks bay.old).sizes view.now }
    requires whole { is_degraded view.now ≡ false }
    requires is_part { slice_get view.now.parts element ≡ Some part.now }
    requires keeps { keeps_parity part.now.shape.layout ≡ true }
    requires small { start + length from.now < 2 ^ 64 }
    requires blocks { start + length from.now ≤ capacity view.now }
    requires all_kept { AllAreKept view.now start (length from.now) kept.now }
    requires here { k < length from.now }
    ensures some { IfOk result (λ count. 0 < count) }
    ensures within { IfOk result (λ count. k + count ≤ length from.now) }
    ensures writes { Writes (MayGive view.now start from.now) B.tells (B.disks bay.old) (B.disks bay.new) touched.old touched.new }
    ensures kept { B.tells → (entry : ℕ → ℕ → List ℕ) → IsFilled view.now start from.now entry (B.disks bay.old).held
        → IfOk result (λ count. AreTheirValues view.now entry kept.now → KeepsSums view.now start (length from.now) (B.disks bay.old).held (B.disks bay.new).held) }
    ensures summed { B.tells → (entry : ℕ → ℕ → List ℕ) → IsFilled view.now start from.now entry (B.disks bay.old).held
        → IfOk result (λ count. AreTheirValues view.now entry kept.now
        → RowsIn view.now start k element (IsSummed view.now (B.disks bay.old).held) → RowsIn view.now start (k + count) element (IsSummed view.now (B.disks bay.new).held)) }
    ensures noted { IfOk result (λ count. RowsIn view.now start k element (IsNoted touched.old) → RowsIn view.now start (k + count) element (IsNoted touched.new)) }
    ensures unfailed { OnOk result ((B.disks bay.new).failed_writes ≡ (B.disks bay.old).failed_writes) }
    ensures reads { (B.disks bay.new).failed_reads ≡ (B.disks bay.old).failed_reads }
    ensures cause { IfErr result (IsStopped (B.disks bay.old) (B.disks bay.new) view.now start (length from.now)) }
    ensures asked { IfOk result (λ count. (B.disks bay.new).sectors_asked ≤ (B.disks bay.old).sectors_asked + count) }
    ensures written { IfOk result (λ count. (B.disks bay.new).sectors_written ≤ (B.disks bay.old).sectors_written + count) }
    ensures asked_most { k + (B.disks bay.new).sectors_asked ≤ (B.disks bay.old).sectors_asked + length from.now }
    ensures written_most { k + (B.disks bay.new).sectors_written ≤ (B.disks bay.old).sectors_written + length from.now }
{
    let block = start + k as u64;
    let Some(cell) = cell_in_element(view, part, element, block) else {
        return Ok(1);
    };
    let along = blocks_along(view, block, from.len() - k);
    let passed = touched_from(view, part, element, cell.sector, start, k);
    if passed > 0 {
        return Ok(passed.min(along));
    }
    let piece = piece_at(part, cell.sector, along as u64);
    let count = untouched_from(view, part, element, cell.sector, start, piece);
    let Some(parity) = part.shape.parity_of(cell.row) else {
        unreachable!()
    };
    set_run(
        bay,
        view,
        kept,
        part,
        element,
        usize::from(parity),
        cell.sector,
        count,
        start,
        from,
        touched,
    )?;
    Ok(count)
}

/// Sets the parity of each row of an element that these blocks touch. After a failure, the slot that failed.
fn set_rows_in<B: Bay>(
    bay: &mut B,
    view: &View,
    kept: &Kept,
    element: usize,
    start: u64,
    from: &[Sector],
    touched: &mut [bool; 64],
) -> Result<(), usize>
    requires known { IsVolume view.now }
    requires apart { IsApart view.now }
    requires fits { Fits (B.disks bay.old).sizes view.now }
    requires whole { is_degraded view.now ≡ false }
    requires small { start + length from.now < 2 ^ 64 }
    requires blocks { start + length from.now ≤ capacity view.now }
    requires all_kept { AllAreKept view.now start (length from.now) kept.now }
    ensures writes { Writes (MayGive view.now start from.now) B.tells (B.disks bay.old) (B.disks bay.new) touched.old touched.new }
    ensures kept { B.tells → (entry : ℕ → ℕ → List ℕ) → IsFilled view.now start from.now entry (B.disks bay.old).held
        → OnOk result (AreTheirValues view.now entry kept.now → KeepsSums view.now start (length from.now) (B.disks bay.old).held (B.disks bay.new).held) }
    ensures summed { B.tells → (entry : ℕ → ℕ → List ℕ) → IsFilled view.now start from.now entry (B.disks bay.old).held
        → OnOk result (AreTheirValues view.now entry kept.now → RowsIn view.now start (length from.now) element (IsSummed view.now (B.disks bay.new).held)) }
    ensures noted { OnOk result (RowsIn view.now start (length from.now) element (IsNoted touched.new)) }
    ensures unfailed { OnOk result ((B.disks bay.new).failed_writes ≡ (B.disks bay.old).failed_writes) }
    ensures reads { (B.disks bay.new).failed_reads ≡ (B.disks bay.old).failed_reads }
    ensures cause { IfErr result (IsStopped (B.disks bay.old) (B.disks bay.new) view.now start (length from.now)) }
    ensures asked { (B.disks bay.new).sectors_asked ≤ (B.disks bay.old).sectors_asked + parity_cells view.now.parts (length from.now) element }
    ensures written { (B.disks bay.new).sectors_written ≤ (B.disks bay.old).sectors_written + parity_cells view.now.parts (length from.now) element }
    ensures calls { keeps_parity_anywhere view.now ≡ false → (B.disks bay.new).calls ≤ (B.disks bay.old).calls }
{
    let Some(part) = view.part(element) else {
        return Ok(());
    };
    if !keeps_parity(part.shape.layout()) {
        return Ok(());
    }
    let mut k = 0;
    while k < from.len() {
        k += set_rows_from(bay, view, kept, part, element, start, k, from, touched)?;
    }
    Ok(())
}

/// Sets the parity of each row that these blocks touch, element by element. After a failure, the slot that failed.
pub(crate) fn set_rows<B: Bay>(
    bay: &mut B,
    view: &View,
    kept: &Kept,
    start: u64,
    from: &[Sector],
    touched: &mut [bool; 64],
) -> Result<(), usize>
    requires known { IsVolume view.now }
    requires apart { IsApart view.now }
    requires fits { Fits (B.disks bay.old).sizes view.now }
    requires whole { is_degraded view.now ≡ false }
    requires small { start + length from.now < 2 ^ 64 }
    requires blocks { start + length from.now ≤ capacity view.now }
    requires all_kept { AllAreKept view.now start (length from.now) kept.now }
    ensures writes { Writes (MayGive view.now start from.now) B.tells (B.disks bay.old) (B.disks bay.new) touched.old touched.new }
    ensures summed { B.tells → (entry : ℕ → ℕ → List ℕ) → IsFilled view.now start from.now entry (B.disks bay.old).held
        → OnOk result (AreTheirValues view.now entry kept.now → AllRows view.now start (length from.now) (IsSummed view.now (B.disks bay.new).held)) }
    ensures noted { OnOk result (AllRows view.now start (length from.now) (IsNoted touched.new)) }
    ensures unfailed { OnOk result ((B.disks bay.new).failed_writes ≡ (B.disks bay.old).failed_writes) }
    ensures reads { (B.disks bay.new).failed_reads ≡ (B.disks bay.old).failed_reads }
    ensures cause { IfErr result (IsStopped (B.disks bay.old) (B.disks bay.new) view.now start (length from.now)) }
    ensures asked { (B.disks bay.new).sectors_asked ≤ (B.disks bay.old).sectors_asked + row_cells view.now (length from.now) }
    ensures written { (B.disks bay.new).sectors_written ≤ (B.disks bay.old).sectors_written + row_cells view.now (length from.now) }
    ensures calls { keeps_parity_anywhere view.now ≡ false → (B.disks bay.new).calls ≤ (B.disks bay.old).calls }
{
    for element in 0..view.parts().len() {
        set_rows_in(bay, view, kept, element, start, from, touched)?;
    }
    Ok(())
}
