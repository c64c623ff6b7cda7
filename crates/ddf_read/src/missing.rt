//! The cells of blocks that only the other cells of their rows give.
ghost use Rattle.std.specs.Prelude.{◌≡◌, ◌<◌, ℕ, None, MatchOption, IfSome, length, slice_get};
ghost use Rattle.std.specs.List.{flat_map, range_with_len};
ghost use Rattle.ddf_primary.specs.Cells.{cells};
ghost use Rattle.ddf_array.specs.Sources.{at_element, element_rows, rows};
ghost use Rattle.ddf_array.specs.Volume.{IsPart, HasBlock, capacity};
ghost use Rattle.ddf_read.specs.Missing.{IsMissing, IsMissingAt};

use crate::level::keeps_parity;
use crate::strip::left_in_part;
use ddf_array::{Part, View};

/// A cell that the other cells of its row give.
#[derive(Clone, Copy)]
pub struct MissingCell {
    /// The number of the element.
    pub element: usize,
    /// The number of the position in it.
    pub position: usize,
    /// The sector of the position's extent.
    pub sector: u64,
    /// How many sectors from it on are left of its strip.
    pub left: u64,
}

/// The cell of a block of an element, if its row gives it.
fn missing_in(part: &Part, element: usize, block: u64) -> Option<MissingCell>
    requires part { IsPart part.now }
    requires block { block < length (cells part.now.shape) }
    ensures missing { MatchOption result (slice_get (element_rows part.now block) 0 ≡ None) (IsMissing part.now (slice_get (element_rows part.now block) 0)) }
    ensures element { IfSome result (λ missing. missing.element ≡ element) }
{
    if !keeps_parity(part.shape.layout()) {
        return None;
    }
    let cell = part.shape.place(block);
    let position = usize::from(cell.member);
    if !part.has_row(position, cell.sector) {
        return None;
    }
    Some(MissingCell {
        element,
        position,
        sector: cell.sector,
        left: left_in_part(part, block),
    })
}

/// The same of an element of the array.
fn missing_at(view: &View, element: usize, block: u64) -> Option<MissingCell>
    requires { HasBlock view.now element block }
    ensures { MatchOption result (slice_get (at_element view.now.parts element_rows block element) 0 ≡ None)
        (IsMissingAt view.now (slice_get (at_element view.now.parts element_rows block element) 0)) }
{
    let part = view.part(element)?;
    missing_in(part, element, block)
}

/// The first such cell of a block that every element holds.
fn missing_at_each(view: &View, block: u64) -> Option<MissingCell>
    requires { (element : ℕ) → HasBlock view.now element block }
    ensures { let row = slice_get (flat_map (at_element view.now.parts element_rows block) (range_with_len 0 (length view.now.parts))) 0 in
        MatchOption result (row ≡ None) (IsMissingAt view.now row) }
{
    for element in 0..view.parts().len() {
        let missing = missing_at(view, element, block);
        if missing.is_some() {
            return missing;
        }
    }
    None
}

/// The first cell of a block that its row gives. None where the block has no row.
pub fn first_missing(view: &View, block: u64) -> Option<MissingCell>
    requires { block < capacity view.now }
    ensures { MatchOption result (slice_get (rows view.now block) 0 ≡ None) (IsMissingAt view.now (slice_get (rows view.now block) 0)) }
{
    let spot = view.spot(block);
    if view.is_in_every() {
        return missing_at_each(view, spot.block);
    }
    missing_at(view, usize::from(spot.element), spot.block)
}
