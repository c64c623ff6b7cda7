//! The sums of neighbouring rows, once blocks are written.
ghost use Rattle.std.specs.Prelude.{◌≡◌, ◌+◌, ◌<◌, ◌≤◌, ◌^◌, ℕ, List, Some, false, true, length, slice_get};
ghost use Rattle.ddf_array.specs.Apart.{IsApart};
ghost use Rattle.ddf_array.specs.Levels.{keeps_parity};
ghost use Rattle.ddf_array.specs.Volume.{IsVolume};
ghost use Rattle.ddf_cells.specs.CellSources.{AreSums};
ghost use Rattle.ddf_cells.specs.Degraded.{is_degraded};
ghost use Rattle.ddf_cells.specs.RowSums.{AreAddedAt, HoldsParityAlong, is_other};
ghost use Rattle.ddf_write.specs.Keeping.{AllAreKept, AreTheirValues};
ghost use Rattle.ddf_write.specs.RowWrites.{AreTouched, IsFilled};

use crate::filling::fill_cells;
use crate::kept::Kept;
use ddf_array::{Part, View};
use ddf_bytes::Sector;
use ddf_read::{add_each, clear};

/// Adds the values of neighbouring cells of a position, but for the one with the parity.
fn add_cells(
    view: &View,
    kept: &Kept,
    part: &Part,
    element: usize,
    parity: usize,
    other: usize,
    sector: u64,
    start: u64,
    from: &[Sector],
    work: &mut [Sector],
    into: &mut [Sector],
)
    requires known { IsVolume view.now }
    requires apart { IsApart view.now }
    requires whole { is_degraded view.now ≡ false }
    requires is_part { slice_get view.now.parts element ≡ Some part.now }
    requires keeps { keeps_parity part.now.shape.layout ≡ true }
    requires parity { HoldsParityAlong part.now parity sector (length into.old) }
    requires other { other < length part.now.places }
    requires room { length work.old ≡ length into.old }
    requires small { sector + length into.old < 2 ^ 64 }
    requires numbers { start + length from.now < 2 ^ 64 }
    requires sectors { sector + length into.old ≤ part.now.shape.blocks }
    requires touched { AreTouched view.now start (length from.now) element sector (length into.old) }
    requires all_kept { AllAreKept view.now start (length from.now) kept.now }
    ensures added { (entry image : ℕ → ℕ → List ℕ) → IsFilled view.now start from.now entry image → AreTheirValues view.now entry kept.now
        → AreAddedAt view.now image element sector (is_other parity other) into.old into.new }
{
    if other == parity {
        return;
    }
    fill_cells(view, kept, part, element, other, sector, start, from, work);
    add_each(into, work);
}

/// Adds up the data cells of neighbouring rows that blocks touch, as they are once these are written.
pub(crate) fn sum_rows(
    view: &View,
    kept: &Kept,
    part: &Part,
    element: usize,
    parity: usize,
    sector: u64,
    start: u64,
    from: &[Sector],
    work: &mut [Sector],
    out: &mut [Sector],
)
    requires known { IsVolume view.now }
    requires apart { IsApart view.now }
    requires whole { is_degraded view.now ≡ false }
    requires is_part { slice_get view.now.parts element ≡ Some part.now }
    requires keeps { keeps_parity part.now.shape.layout ≡ true }
    requires parity { HoldsParityAlong part.now parity sector (length out.old) }
    requires room { length work.old ≡ length out.old }
    requires small { sector + length out.old < 2 ^ 64 }
    requires numbers { start + length from.now < 2 ^ 64 }
    requires sectors { sector + length out.old ≤ part.now.shape.blocks }
    requires touched { AreTouched view.now start (length from.now) element sector (length out.old) }
    requires all_kept { AllAreKept view.now start (length from.now) kept.now }
    ensures sums { (entry image : ℕ → ℕ → List ℕ) → IsFilled view.now start from.now entry image → AreTheirValues view.now entry kept.now
        → AreSums view.now image element part.now sector out.new (length out.old) }
{
    clear(out);
    for other in 0..part.places.items().len() {
        add_cells(
            view, kept, part, element, parity, other, sector, start, from, work, out,
        );
    }
}
