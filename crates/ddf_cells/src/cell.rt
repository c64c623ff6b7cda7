//! The cells of blocks on one position of an element.
ghost use Rattle.std.specs.Prelude.{◌≡◌, ◌≢◌, ◌<◌, ◌≤◌, ◌+◌, ◌^◌, Some, length, slice_get};
ghost use Rattle.ddf_primary.specs.Cells.{cells};
ghost use Rattle.ddf_array.specs.Places.{site_on};
ghost use Rattle.ddf_array.specs.Volume.{HasBlock, IsPart, capacity};
ghost use Rattle.ddf_cells.specs.CellsOn.{cell_in, cell_of, cell_on, IsRunOn};

use ddf_array::{Part, Site, View};
use ddf_read::{left_in_strip, lies_behind};

/// The available cell of a block of an element on a position.
fn cell_in(part: &Part, position: usize, block: u64) -> Option<Site>
    requires part { IsPart part.now }
    requires block { block < length (cells part.now.shape) }
    ensures { result ≡ cell_in part.now position block }
{
    if position >= part.places.items().len() {
        return None;
    }
    let sector = part.shape.sector_on(position as u16, block)?;
    part.site_at(position, sector)
}

/// The same, if the element is there.
fn cell_at(view: &View, element: usize, position: usize, block: u64) -> Option<Site>
    requires { HasBlock view.now element block }
    ensures { result ≡ cell_of (slice_get view.now.parts element) position block }
{
    let part = view.part(element)?;
    cell_in(part, position, block)
}

/// The available cell of a block of the array on a position of an element, if it has one there.
pub fn cell_on(view: &View, element: usize, position: usize, block: u64) -> Option<Site>
    requires { block < capacity view.now }
    ensures { result ≡ cell_on view.now element position block }
{
    let spot = view.spot(block);
    if view.is_in_every() {
        return cell_at(view, element, position, spot.block);
    }
    if usize::from(spot.element) == element {
        return cell_at(view, element, position, spot.block);
    }
    None
}

/// How many of these blocks have cells on a position that follow one another, from the first's on. It goes strip by strip.
pub(crate) fn run_on(
    view: &View,
    element: usize,
    position: usize,
    first: Site,
    start: u64,
    most: usize,
) -> usize
    requires some { 0 < most }
    requires small { start + most < 2 ^ 64 }
    requires blocks { start + most ≤ capacity view.now }
    requires first { cell_on view.now element position start ≡ Some first }
    ensures { IsRunOn view.now element position first start result most }
{
    let mut count = left_in_strip(view, start, most);
    while count < most {
        let next = start + count as u64;
        if !lies_behind(cell_on(view, element, position, next), first, count as u64) {
            return count;
        }
        count += left_in_strip(view, next, most - count);
    }
    count
}
