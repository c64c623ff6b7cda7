//! The data cells of neighbouring rows, once blocks are written: from these, or from what was kept of the cells beside them.
ghost use Rattle.std.specs.Prelude.{◌≡◌, ◌+◌, ◌-◌, ◌<◌, ◌≤◌, ◌^◌, ℕ, List, [], Some, true, false, length, slice_get, slice_index_or, MatchOption};
ghost use Rattle.ddf_array.specs.Apart.{IsApart};
ghost use Rattle.ddf_array.specs.Levels.{keeps_parity};
ghost use Rattle.ddf_array.specs.Rows.{block_at};
ghost use Rattle.ddf_array.specs.Volume.{IsVolume, capacity};
ghost use Rattle.ddf_cells.specs.CellSources.{AreCells};
ghost use Rattle.ddf_cells.specs.Degraded.{is_degraded};
ghost use Rattle.ddf_write.specs.Beside.{HoldsNone};
ghost use Rattle.ddf_write.specs.Filling.{HoldsDataAlong};
ghost use Rattle.ddf_write.specs.Keeping.{AllAreKept, AreTheirValues, kept_of};
ghost use Rattle.ddf_write.specs.RowWrites.{AreTouched, IsFilled};

use crate::kept::{DataCell, Kept};
use ddf_array::{Part, View};
use ddf_bytes::Sector;
use ddf_cells::{block_at, blocks_along};

/// The number among so many blocks of the one that a cell holds, if it is one of them.
pub(crate) fn place_among(
    view: &View,
    element: usize,
    position: usize,
    sector: u64,
    start: u64,
    count: u64,
) -> Option<u64>
    ensures { MatchOption result (HoldsNone view.now start count element position sector) (λ k. (k < count) × (block_at view.now element position sector ≡ Some (start + k))) }
{
    match block_at(view, element, position, sector) {
        Some(block) => {
            if block < start {
                return None;
            }
            let place = block - start;
            if place < count {
                return Some(place);
            }
            None
        }
        None => None,
    }
}

/// Copies sectors, each to the one beside it.
fn copy_each(into: &mut [Sector], from: &[Sector])
    requires { length into.old ≡ length from.now }
    ensures { into.new ≡ from.now }
{
    into.copy_from_slice(from);
}

/// Takes blocks that neighbouring cells hold from those that are written, from one of them on. Answers how many.
fn take_blocks(view: &View, start: u64, from: &[Sector], at: usize, out: &mut [Sector]) -> usize
    requires some { 0 < length out.old }
    requires here { at < length from.now }
    requires numbers { start + length from.now < 2 ^ 64 }
    requires block { start + at < capacity view.now }
    ensures some { 0 < result }
    ensures within { result ≤ length out.old }
    ensures inside { at + result ≤ length from.now }
    ensures follow { (element position sector k : ℕ) → block_at view.now element position sector ≡ Some (start + at) → k < result → block_at view.now element position (sector + k) ≡ Some (start + at + k) }
    ensures taken { (k : ℕ) → k < result → slice_index_or out.new k [] ≡ slice_index_or from.now (at + k) [] }
{
    let most = out.len().min(from.len() - at);
    let count = blocks_along(view, start + at as u64, most);
    copy_each(&mut out[..count], &from[at..at + count]);
    count
}

/// Takes a cell from what is kept.
fn take_kept(kept: &Kept, cell: DataCell, out: &mut [Sector])
    requires some { 0 < length out.old }
    requires kept { (bytes : List ℕ) × (kept_of kept.now cell.element cell.position cell.sector ≡ Some bytes) }
    ensures { kept_of kept.now cell.element cell.position cell.sector ≡ Some (slice_index_or out.new 0 []) }
{
    let Some(bytes) = kept.bytes_of(cell) else {
        unreachable!()
    };
    out[0] = bytes;
}

/// Takes the first of neighbouring data cells of rows that blocks touch, as their values once these are written: from the blocks where they hold them,
/// else from what is kept. Answers how many.
fn fill_first(
    view: &View,
    kept: &Kept,
    part: &Part,
    element: usize,
    position: usize,
    sector: u64,
    start: u64,
    from: &[Sector],
    out: &mut [Sector],
) -> usize
    requires known { IsVolume view.now }
    requires apart { IsApart view.now }
    requires whole { is_degraded view.now ≡ false }
    requires is_part { slice_get view.now.parts element ≡ Some part.now }
    requires parity { keeps_parity part.now.shape.layout ≡ true }
    requires position { position < length part.now.places }
    requires some { 0 < length out.old }
    requires small { sector + length out.old < 2 ^ 64 }
    requires numbers { start + length from.now < 2 ^ 64 }
    requires sectors { sector + length out.old ≤ part.now.shape.blocks }
    requires holds_data { HoldsDataAlong part.now position sector (length out.old) }
    requires touched { AreTouched view.now start (length from.now) element sector (length out.old) }
    requires all_kept { AllAreKept view.now start (length from.now) kept.now }
    ensures some { 0 < result }
    ensures within { result ≤ length out.old }
    ensures values { (entry image : ℕ → ℕ → List ℕ) → IsFilled view.now start from.now entry image → AreTheirValues view.now entry kept.now
        → AreCells view.now image element part.now sector position out.new result }
{
    match place_among(view, element, position, sector, start, from.len() as u64) {
        Some(at) => take_blocks(view, start, from, at as usize, out),
        None => {
            let cell = DataCell {
                element,
                position,
                sector,
            };
            take_kept(kept, cell, out);
            1
        }
    }
}

/// Takes neighbouring data cells of rows that blocks touch, as their values once these are written, as many as there are sectors to take them into.
pub(crate) fn fill_cells(
    view: &View,
    kept: &Kept,
    part: &Part,
    element: usize,
    position: usize,
    sector: u64,
    start: u64,
    from: &[Sector],
    out: &mut [Sector],
)
    requires known { IsVolume view.now }
    requires apart { IsApart view.now }
    requires whole { is_degraded view.now ≡ false }
    requires is_part { slice_get view.now.parts element ≡ Some part.now }
    requires parity { keeps_parity part.now.shape.layout ≡ true }
    requires position { position < length part.now.places }
    requires small { sector + length out.old < 2 ^ 64 }
    requires numbers { start + length from.now < 2 ^ 64 }
    requires sectors { sector + length out.old ≤ part.now.shape.blocks }
    requires holds_data { HoldsDataAlong part.now position sector (length out.old) }
    requires touched { AreTouched view.now start (length from.now) element sector (length out.old) }
    requires all_kept { AllAreKept view.now start (length from.now) kept.now }
    ensures values { (entry image : ℕ → ℕ → List ℕ) → IsFilled view.now start from.now entry image → AreTheirValues view.now entry kept.now
        → AreCells view.now image element part.now sector position out.new (length out.old) }
{
    let mut at = 0;
    while at < out.len() {
        at += fill_first(
            view,
            kept,
            part,
            element,
            position,
            sector + at as u64,
            start,
            from,
            &mut out[at..],
        );
    }
}
