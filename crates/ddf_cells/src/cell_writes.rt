//! Writes of blocks' cells, position by position.
ghost use Rattle.std.specs.Prelude.{◌≡◌, ◌+◌, ◌-◌, ◌<◌, ◌≤◌, ◌^◌, ℕ, length, OnOk, IfOk, IfErr};
ghost use Rattle.std.specs.List.{range_with_len, sum_by};
ghost use Rattle.ddf_bytes.specs.Counts.{Rose};
ghost use Rattle.ddf_bay.specs.Moments.{Costs};
ghost use Rattle.ddf_array.specs.Apart.{IsApart};
ghost use Rattle.ddf_array.specs.Volume.{Fits, IsVolume, capacity};
ghost use Rattle.ddf_cells.specs.CellsOn.{GivesCells, cells_on, how_many, stretches_on, places_at, write_cells, write_stretches};
ghost use Rattle.ddf_cells.specs.Touching.{Writes, AreSet, IsTouchedSlot};

use crate::cell::{cell_on, run_on};
use crate::touched::touch;
use ddf_array::View;
use ddf_bay::Bay;
use ddf_bytes::Sector;
use ddf_read::left_in_strip;

/// Writes the cells on a position of the first stretch of these blocks from one of them on, or passes the blocks of
/// a strip where they have none there. Answers how many blocks these are. After a failure, the slot that failed.
fn write_first<B: Bay>(
    bay: &mut B,
    view: &View,
    element: usize,
    position: usize,
    start: u64,
    from: &[Sector],
    at: usize,
    touched: &mut [bool; 64],
) -> Result<usize, usize>
    requires known { IsVolume view.now }
    requires fits { Fits (B.disks bay.old).sizes view.now }
    requires small { start + length from.now < 2 ^ 64 }
    requires blocks { start + length from.now ≤ capacity view.now }
    requires here { at < length from.now }
    ensures some { IfOk result (λ count. 0 < count) }
    ensures within { IfOk result (λ count. at + count ≤ length from.now) }
    ensures set { B.tells → IfOk result (λ count. AreSet view.now element position start at (at + count) from.now (B.disks bay.new).held touched.new) }
    ensures writes { Writes (GivesCells view.now start from.now) B.tells (B.disks bay.old) (B.disks bay.new) touched.old touched.new }
    ensures unfailed { OnOk result ((B.disks bay.new).failed_writes ≡ (B.disks bay.old).failed_writes) }
    ensures failed { IfErr result (λ slot. Rose ((B.disks bay.old).failed_writes slot) ((B.disks bay.new).failed_writes slot)) }
    ensures touched { IfErr result (IsTouchedSlot touched.new) }
    ensures reads { (B.disks bay.new).failed_reads ≡ (B.disks bay.old).failed_reads }
    ensures costs { Costs (B.disks bay.old) (B.disks bay.new) (how_many (cells_on view.now element position (start + at) (length from.now - at)))
        (stretches_on (cells_on view.now element position (start + at) (length from.now - at))) }
    ensures rest_cells { IfOk result (λ count. how_many (cells_on view.now element position (start + (at + count)) (length from.now - (at + count)))
        ≤ how_many (cells_on view.now element position (start + at) (length from.now - at))) }
    ensures rest_stretches { IfOk result (λ count. stretches_on (cells_on view.now element position (start + (at + count)) (length from.now - (at + count)))
        ≤ stretches_on (cells_on view.now element position (start + at) (length from.now - at))) }
    ensures rest_costs { IfOk result (λ count. Costs (B.disks bay.old) (B.disks bay.new)
        (how_many (cells_on view.now element position (start + at) (length from.now - at)) - how_many (cells_on view.now element position (start + (at + count)) (length from.now - (at + count))))
        (stretches_on (cells_on view.now element position (start + at) (length from.now - at)) - stretches_on (cells_on view.now element position (start + (at + count)) (length from.now - (at + count))))) }
{
    let block = start + at as u64;
    let Some(first) = cell_on(view, element, position, block) else {
        return Ok(left_in_strip(view, block, from.len() - at));
    };
    let count = run_on(view, element, position, first, block, from.len() - at);
    touch(touched, first.slot);
    match bay.write_run(first.slot, first.lba, &from[at..at + count]) {
        Ok(()) => Ok(count),
        Err(_) => Err(first.slot),
    }
}

/// Writes the cells of these blocks on a position, stretch by stretch.
fn write_position<B: Bay>(
    bay: &mut B,
    view: &View,
    element: usize,
    position: usize,
    start: u64,
    from: &[Sector],
    touched: &mut [bool; 64],
) -> Result<(), usize>
    requires known { IsVolume view.now }
    requires apart { IsApart view.now }
    requires fits { Fits (B.disks bay.old).sizes view.now }
    requires small { start + length from.now < 2 ^ 64 }
    requires blocks { start + length from.now ≤ capacity view.now }
    ensures set { B.tells → OnOk result (AreSet view.now element position start 0 (length from.now) from.now (B.disks bay.new).held touched.new) }
    ensures writes { Writes (GivesCells view.now start from.now) B.tells (B.disks bay.old) (B.disks bay.new) touched.old touched.new }
    ensures unfailed { OnOk result ((B.disks bay.new).failed_writes ≡ (B.disks bay.old).failed_writes) }
    ensures failed { IfErr result (λ slot. Rose ((B.disks bay.old).failed_writes slot) ((B.disks bay.new).failed_writes slot)) }
    ensures touched { IfErr result (IsTouchedSlot touched.new) }
    ensures reads { (B.disks bay.new).failed_reads ≡ (B.disks bay.old).failed_reads }
    ensures costs { Costs (B.disks bay.old) (B.disks bay.new) (how_many (cells_on view.now element position start (length from.now)))
        (stretches_on (cells_on view.now element position start (length from.now))) }
{
    let mut at = 0;
    while at < from.len() {
        at += write_first(bay, view, element, position, start, from, at, touched)?;
    }
    Ok(())
}

/// Writes the cells of these blocks on each position of an element.
fn write_element<B: Bay>(
    bay: &mut B,
    view: &View,
    element: usize,
    places: usize,
    start: u64,
    from: &[Sector],
    touched: &mut [bool; 64],
) -> Result<(), usize>
    requires known { IsVolume view.now }
    requires apart { IsApart view.now }
    requires fits { Fits (B.disks bay.old).sizes view.now }
    requires small { start + length from.now < 2 ^ 64 }
    requires blocks { start + length from.now ≤ capacity view.now }
    ensures set { B.tells → OnOk result ((position : ℕ) → position < places → AreSet view.now element position start 0 (length from.now) from.now (B.disks bay.new).held touched.new) }
    ensures writes { Writes (GivesCells view.now start from.now) B.tells (B.disks bay.old) (B.disks bay.new) touched.old touched.new }
    ensures unfailed { OnOk result ((B.disks bay.new).failed_writes ≡ (B.disks bay.old).failed_writes) }
    ensures failed { IfErr result (λ slot. Rose ((B.disks bay.old).failed_writes slot) ((B.disks bay.new).failed_writes slot)) }
    ensures touched { IfErr result (IsTouchedSlot touched.new) }
    ensures reads { (B.disks bay.new).failed_reads ≡ (B.disks bay.old).failed_reads }
    ensures costs { Costs (B.disks bay.old) (B.disks bay.new)
        (sum_by (λ position. how_many (cells_on view.now element position start (length from.now))) (range_with_len 0 places))
        (sum_by (λ position. stretches_on (cells_on view.now element position start (length from.now))) (range_with_len 0 places)) }
{
    for position in 0..places {
        write_position(bay, view, element, position, start, from, touched)?;
    }
    Ok(())
}

/// How many positions an element has.
fn count_places(view: &View, element: usize) -> usize
    ensures { result ≡ places_at view.now.parts element }
{
    match view.part(element) {
        Some(part) => part.places.items().len(),
        None => 0,
    }
}

/// Writes every available cell of these blocks, element by element and position by position: neighbouring blocks in one
/// call where their cells on a position follow one another. The slots that are written to are noted, and none is synced.
///
/// # Errors
/// The slot of which a write failed in this call: one that was noted.
pub fn write_cells<B: Bay>(
    bay: &mut B,
    view: &View,
    start: u64,
    from: &[Sector],
    touched: &mut [bool; 64],
) -> Result<(), usize>
    requires known { IsVolume view.now }
    requires apart { IsApart view.now }
    requires fits { Fits (B.disks bay.old).sizes view.now }
    requires small { start + length from.now < 2 ^ 64 }
    requires blocks { start + length from.now ≤ capacity view.now }
    ensures set { B.tells → OnOk result ((element position : ℕ) → AreSet view.now element position start 0 (length from.now) from.now (B.disks bay.new).held touched.new) }
    ensures writes { Writes (GivesCells view.now start from.now) B.tells (B.disks bay.old) (B.disks bay.new) touched.old touched.new }
    ensures unfailed { OnOk result ((B.disks bay.new).failed_writes ≡ (B.disks bay.old).failed_writes) }
    ensures failed { IfErr result (λ slot. Rose ((B.disks bay.old).failed_writes slot) ((B.disks bay.new).failed_writes slot)) }
    ensures touched { IfErr result (IsTouchedSlot touched.new) }
    ensures reads { (B.disks bay.new).failed_reads ≡ (B.disks bay.old).failed_reads }
    ensures costs { Costs (B.disks bay.old) (B.disks bay.new) (write_cells view.now start (length from.now)) (write_stretches view.now start (length from.now)) }
{
    for element in 0..view.parts().len() {
        let places = count_places(view, element);
        write_element(bay, view, element, places, start, from, touched)?;
    }
    Ok(())
}
