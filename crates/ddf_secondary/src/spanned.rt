//! Elements of different sizes, a unit of each in turn, of those that still have rows: the one level whose rows grow shorter.
//! docs/PLACING.md#03-spanned
ghost use Rattle.std.specs.Prelude.{◌≡◌, ◌⊎◌, ◌↔◌, ℕ, ◌<◌, ◌≤◌, ◌+◌, ◌-◌, ◌*◌, ◌^◌};
ghost use Rattle.std.specs.Prelude.{min, length, slice_get, sum_by, Some};
ghost use Rattle.ddf_secondary.specs.Arrangement.{IsArray};
ghost use Rattle.ddf_secondary.specs.Spots.{spots_by, size_of, longer_from};
ghost use Rattle.ddf_secondary.specs.Sizes.{unit_of};
ghost use Rattle.ddf_secondary.specs.declared.element.ElementSize.{ElementSize};

use crate::sizes::{rows_of_all, unit_of};
use crate::{ElementSize, SecondaryLevel, Spot};

/// The blocks of an array that spans these elements.
pub(crate) fn capacity(sizes: &[ElementSize]) -> u64
    requires { IsArray SecondaryLevel.Spanned sizes.now }
    ensures { result ≡ length (spots_by SecondaryLevel.Spanned sizes.now) }
{
    unit_of(sizes) * rows_of_all(sizes)
}

/// The spot of a block.
pub(crate) fn spot_of_block(sizes: &[ElementSize], block: u64) -> Spot
    requires array { IsArray SecondaryLevel.Spanned sizes.now }
    requires within { block < length (spots_by SecondaryLevel.Spanned sizes.now) }
    ensures { slice_get (spots_by SecondaryLevel.Spanned sizes.now) block ≡ Some result }
{
    let unit = unit_of(sizes);
    let place = unit_place(sizes, block / unit);
    Spot {
        element: place.element,
        block: place.row * unit + block % unit,
    }
}

/// The block of a spot in a row that the element has.
pub(crate) fn block_of_spot(sizes: &[ElementSize], spot: Spot) -> u64
    requires array { IsArray SecondaryLevel.Spanned sizes.now }
    requires element { spot.element < length sizes.now }
    requires within { spot.block < (size_of sizes.now spot.element).rows * unit_of sizes.now }
    ensures { (block : ℕ) → (block ≡ result)
        ↔ (slice_get (spots_by SecondaryLevel.Spanned sizes.now) block ≡ Some spot) }
{
    let unit = unit_of(sizes);
    let row = spot.block / unit;
    let ahead = longer(&sizes[..spot.element as usize], row);
    (units_before(sizes, row) + ahead) * unit + spot.block % unit
}

/// One unit of spanned elements: the element that holds it, and the row that it fills there.
#[derive(Clone, Copy)]
struct SpannedUnit {
    element: u8,
    row: u64,
}

/// Rows that the same elements take part in.
#[derive(Clone, Copy)]
struct Band {
    /// How many elements have these rows.
    elements: u64,
    /// The first row that fewer elements have.
    end: u64,
}

/// The place of a unit, where units are counted row by row over the elements that have the row.
fn unit_place(sizes: &[ElementSize], unit: u64) -> SpannedUnit
    requires few { length sizes.now ≤ 16 }
    requires within { unit < sum_by (λ size. size.rows) sizes.now }
    requires small { sum_by (λ size. size.rows) sizes.now < 2 ^ 64 }
    ensures { (place : ℕ)
        × (slice_get (longer_from 0 sizes.now result.row) place ≡ Some result.element)
        × (unit ≡ sum_by (λ size. min size.rows result.row) sizes.now + place) }
{
    let mut row = 0;
    let mut left = unit;
    'bands: loop {
        let band = band_from(sizes, row);
        let rows = band.end - row;
        if left / band.elements < rows {
            return SpannedUnit {
                element: nth_longer(sizes, row, left % band.elements),
                row: row + left / band.elements,
            };
        }
        left -= rows * band.elements;
        row = band.end;
    }
}

/// The units of all rows before this one.
fn units_before(sizes: &[ElementSize], row: u64) -> u64
    requires { sum_by (λ size. size.rows) sizes.now < 2 ^ 64 }
    ensures { result ≡ sum_by (λ size. min size.rows row) sizes.now }
{
    let mut units = 0;
    for size in sizes {
        units += size.rows.min(row);
    }
    units
}

/// How many elements have this row.
fn longer(sizes: &[ElementSize], row: u64) -> u64
    requires { length sizes.now ≤ 16 }
    ensures { result ≡ length (longer_from 0 sizes.now row) }
{
    band_from(sizes, row).elements
}

/// The elements that have this row, and the rows that all of these have.
fn band_from(sizes: &[ElementSize], row: u64) -> Band
    requires { length sizes.now ≤ 16 }
    ensures elements { result.elements ≡ length (longer_from 0 sizes.now row) }
    ensures end { row < 2 ^ 64 - 1 → row < result.end }
    ensures apart { (k : ℕ) (size : ElementSize) → slice_get sizes.now k ≡ Some size
        → (size.rows ≤ row) ⊎ (result.end ≤ size.rows) }
{
    let mut elements = 0;
    let mut end = u64::MAX;
    for size in sizes {
        if row < size.rows {
            elements += 1;
            end = end.min(size.rows);
        }
    }
    Band { elements, end }
}

/// Of the elements that have this row the one at a place, in their order.
fn nth_longer(sizes: &[ElementSize], row: u64, place: u64) -> u8
    requires few { length sizes.now ≤ 16 }
    requires within { place < length (longer_from 0 sizes.now row) }
    ensures { slice_get (longer_from 0 sizes.now row) place ≡ Some result }
{
    let mut left = place;
    for (element, size) in sizes.iter().enumerate() {
        if row < size.rows {
            if left == 0 {
                return element as u8;
            }
            left -= 1;
        }
    }
    unreachable!()
}
