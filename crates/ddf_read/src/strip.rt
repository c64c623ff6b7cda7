//! How far the sources of blocks lie side by side: to the end of a strip.
ghost use Rattle.std.specs.Prelude.{◌≡◌, ◌+◌, ◌<◌, ◌≤◌, ℕ, Some, length, slice_get};
ghost use Rattle.ddf_primary.specs.Cells.{cells};
ghost use Rattle.ddf_array.specs.Volume.{IsPart, HasBlock, capacity};
ghost use Rattle.ddf_read.specs.Along.{IsAlong, IsAlongAt, LieAlong};

use ddf_array::{Part, View};

/// The sectors of a strip.
pub fn strip_of(part: &Part) -> u64
    requires { IsPart part.now }
    ensures { result ≡ part.now.shape.strip }
{
    part.shape.strip()
}

/// What is left of the member of a block.
fn left_of_member(part: &Part, block: u64) -> u64
    requires part { IsPart part.now }
    requires block { block < length (cells part.now.shape) }
    ensures some { 0 < result }
    ensures room { (member sector : ℕ) → slice_get (cells part.now.shape) block ≡ Some (member, sector)
        → sector + result ≤ part.now.shape.blocks }
{
    part.shape.depth() - part.shape.place(block).sector
}

/// How many blocks of an element from one on are left of its strip.
pub(crate) fn left_in_part(part: &Part, block: u64) -> u64
    requires part { IsPart part.now }
    requires block { block < length (cells part.now.shape) }
    ensures some { 0 < result }
    ensures along { IsAlong part.now block result }
{
    let strip = strip_of(part);
    let left = (strip - block % strip).min(part.shape.capacity() - block);
    left.min(left_of_member(part, block))
}

/// The same of an element of the array. Any number where that isn't there.
fn left_at(view: &View, element: usize, block: u64) -> u64
    requires { HasBlock view.now element block }
    ensures some { 0 < result }
    ensures along { IsAlongAt view.now element block result }
{
    match view.part(element) {
        Some(part) => left_in_part(part, block),
        None => 1,
    }
}

/// The same of a block that every element holds.
fn left_at_each(view: &View, block: u64) -> u64
    requires { (element : ℕ) → HasBlock view.now element block }
    ensures some { 0 < result }
    ensures along { (element : ℕ) → IsAlongAt view.now element block result }
{
    let mut left = u64::MAX;
    for element in 0..view.parts().len() {
        left = left.min(left_at(view, element, block));
    }
    left
}

/// How many blocks of the array from one on are left of its strip.
fn left_of_strip(view: &View, block: u64) -> u64
    requires { block < capacity view.now }
    ensures some { 0 < result }
    ensures along { (count : ℕ) → count ≤ result → block + count ≤ capacity view.now → LieAlong view.now block count }
{
    let spot = view.spot(block);
    if view.is_in_every() {
        return left_at_each(view, spot.block);
    }
    left_at(view, usize::from(spot.element), spot.block)
}

/// How many of so many blocks from one on are left of its strip: their sources lie side by side.
pub fn left_in_strip(view: &View, block: u64, most: usize) -> usize
    requires some { 0 < most }
    requires blocks { block + most ≤ capacity view.now }
    ensures some { 0 < result }
    ensures within { result ≤ most }
    ensures along { LieAlong view.now block result }
{
    let left = left_of_strip(view, block);
    if left < most as u64 {
        left as usize
    } else {
        most
    }
}
