//! The first available cell of a block: the one copy that all reads begin with, so that two reads of copies that differ give the same bytes.
//! docs/STOPS.md#the-blocks-of-arrays
ghost use Rattle.std.specs.Prelude.{◌≡◌, ◌<◌, ◌++◌, ℕ, length, slice_get, option_to_list};
ghost use Rattle.std.specs.List.{flat_map, range_with_len};
ghost use Rattle.ddf_primary.specs.Cells.{cells};
ghost use Rattle.ddf_array.specs.Places.{site_at};
ghost use Rattle.ddf_array.specs.Sources.{element_copies, at_element, first_copy};
ghost use Rattle.ddf_array.specs.Volume.{IsPart, HasBlock, capacity};

use crate::{Part, Site, View};
use ddf_primary::Cell;

/// The sector of the first position that is available.
fn first_position(part: &Part, sector: u64) -> Option<Site>
    requires part { IsPart part.now }
    requires sector { sector < part.now.shape.blocks }
    ensures { result ≡ slice_get (flat_map (λ position. option_to_list (site_at part.now.places position sector)) (range_with_len 0 (length part.now.places))) 0 }
{
    for position in 0..part.places.items().len() {
        let site = part.site_at(position, sector);
        if site.is_some() {
            return site;
        }
    }
    None
}

/// The first of two cells that is available.
fn first_of_two(part: &Part, low: Cell, high: Cell) -> Option<Site>
    requires part { IsPart part.now }
    requires low { low.sector < part.now.shape.blocks }
    requires high { high.sector < part.now.shape.blocks }
    ensures { result ≡ slice_get (option_to_list (site_at part.now.places low.member low.sector) ++ option_to_list (site_at part.now.places high.member high.sector)) 0 }
{
    let site = part.site_at(usize::from(low.member), low.sector);
    if site.is_some() {
        return site;
    }
    part.site_at(usize::from(high.member), high.sector)
}

/// The first available cell of a block of an element.
fn first_in(part: &Part, block: u64) -> Option<Site>
    requires part { IsPart part.now }
    requires block { block < length (cells part.now.shape) }
    ensures { result ≡ slice_get (element_copies part.now block) 0 }
{
    let cell = part.shape.place(block);
    if part.shape.layout().is_on_every() {
        return first_position(part, cell.sector);
    }
    match part.shape.twins(block) {
        Some(twins) => first_of_two(part, twins.low, twins.high),
        None => part.site_at(usize::from(cell.member), cell.sector),
    }
}

fn first_at(view: &View, element: usize, block: u64) -> Option<Site>
    requires { HasBlock view.now element block }
    ensures { result ≡ slice_get (at_element view.now.parts element_copies block element) 0 }
{
    let part = view.part(element)?;
    first_in(part, block)
}

fn first_of_every(view: &View, block: u64) -> Option<Site>
    requires { (element : ℕ) → HasBlock view.now element block }
    ensures { result ≡ slice_get (flat_map (at_element view.now.parts element_copies block) (range_with_len 0 (length view.now.parts))) 0 }
{
    for element in 0..view.parts().len() {
        let site = first_at(view, element, block);
        if site.is_some() {
            return site;
        }
    }
    None
}

impl View {
    /// The first available cell of a block, by element and position: the first of its sources (profile). None where the
    /// block has no such cell, so that only parity can give it.
    pub fn first_copy(&self, block: u64) -> Option<Site>
        requires { block < capacity self.now }
        ensures { result ≡ first_copy self.now block }
    {
        let spot = self.spot(block);
        if self.is_in_every() {
            return first_of_every(self, spot.block);
        }
        first_at(self, usize::from(spot.element), spot.block)
    }
}
