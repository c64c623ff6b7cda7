//! Which rows of an element blocks touch: how many neighbouring ones, strip by strip, and which of them earlier blocks touch too.
ghost use Rattle.std.specs.Prelude.{◌≡◌, ◌≢◌, ◌<◌, ◌≤◌, ℕ, Some, true, slice_get, MatchOption};
ghost use Rattle.ddf_array.specs.Levels.{keeps_parity};
ghost use Rattle.ddf_array.specs.Rows.{block_at};
ghost use Rattle.ddf_array.specs.Volume.{IsVolume, capacity};
ghost use Rattle.ddf_write.specs.RowWrites.{AreTouched, IsOnlyCell};

use ddf_array::{Part, View};
use ddf_cells::{block_at, blocks_along};
use ddf_primary::Cell;

/// How many neighbouring rows of an element from one on hold one of so many blocks on a position.
fn touched_at(
    view: &View,
    element: usize,
    position: usize,
    sector: u64,
    start: u64,
    count: usize,
) -> usize
    ensures { AreTouched view.now start count element sector result }
{
    match block_at(view, element, position, sector) {
        Some(block) => {
            if start <= block && block - start < count as u64 {
                return blocks_along(view, block, count - (block - start) as usize);
            }
            0
        }
        None => 0,
    }
}

/// How many neighbouring rows of an element from one on hold one of so many blocks. Some where the first row does.
pub(crate) fn touched_from(
    view: &View,
    part: &Part,
    element: usize,
    sector: u64,
    start: u64,
    count: usize,
) -> usize
    ensures { AreTouched view.now start count element sector result }
{
    for position in 0..part.places.items().len() {
        let rows = touched_at(view, element, position, sector, start, count);
        if rows > 0 {
            return rows;
        }
    }
    0
}

/// How many of so many neighbouring rows a position can pass before it holds a block from one on, where it holds an
/// earlier one.
fn rows_before(
    view: &View,
    element: usize,
    position: usize,
    sector: u64,
    start: u64,
    most: usize,
) -> usize
    requires some { 0 < most }
    ensures some { 0 < result }
    ensures within { result ≤ most }
{
    match block_at(view, element, position, sector) {
        Some(block) => {
            if block < start && start - block < most as u64 {
                return (start - block) as usize;
            }
            most
        }
        None => most,
    }
}

/// How many of so many neighbouring rows come before one that another strip of the range touches too.
pub(crate) fn untouched_from(
    view: &View,
    part: &Part,
    element: usize,
    sector: u64,
    start: u64,
    most: usize,
) -> usize
    requires some { 0 < most }
    ensures some { 0 < result }
    ensures within { result ≤ most }
{
    let mut count = most;
    for position in 0..part.places.items().len() {
        count = rows_before(view, element, position, sector, start, count);
    }
    count
}

/// The cell of a block on an element that keeps parity, if it holds the block.
pub(crate) fn cell_in_element(view: &View, part: &Part, element: usize, block: u64) -> Option<Cell>
    requires is_part { slice_get view.now.parts element ≡ Some part.now }
    requires known { IsVolume view.now }
    requires parity { keeps_parity part.now.shape.layout ≡ true }
    requires block { block < capacity view.now }
    ensures cell { MatchOption result ((position sector : ℕ) → block_at view.now element position sector ≢ Some block) (IsOnlyCell view.now element part.now block) }
{
    let spot = view.spot(block);
    if view.is_in_every() {
        return Some(part.shape.place(spot.block));
    }
    if usize::from(spot.element) == element {
        return Some(part.shape.place(spot.block));
    }
    None
}
