//! A unit of each element in turn. docs/PLACING.md#00-striped
ghost use Rattle.std.specs.Prelude.{◌≡◌, ◌↔◌, ℕ, ◌<◌, ◌*◌, ◌/◌, length, slice_get, Some};
ghost use Rattle.ddf_secondary.specs.Arrangement.{IsArray};
ghost use Rattle.ddf_secondary.specs.Sizes.{least_of, unit_of};
ghost use Rattle.ddf_secondary.specs.Spots.{spots_by};

use crate::sizes::{least_rows, unit_of};
use crate::{ElementSize, SecondaryLevel, Spot};

/// The blocks of an array that is striped over these elements.
pub(crate) fn capacity(sizes: &[ElementSize]) -> u64
    requires { IsArray SecondaryLevel.Striped sizes.now }
    ensures { result ≡ length (spots_by SecondaryLevel.Striped sizes.now) }
{
    least_rows(sizes) * unit_of(sizes) * sizes.len() as u64
}

/// The spot of a block.
pub(crate) fn spot_of_block(sizes: &[ElementSize], block: u64) -> Spot
    requires array { IsArray SecondaryLevel.Striped sizes.now }
    requires within { block < length (spots_by SecondaryLevel.Striped sizes.now) }
    ensures { slice_get (spots_by SecondaryLevel.Striped sizes.now) block ≡ Some result }
{
    let unit = unit_of(sizes);
    let elements = sizes.len() as u64;
    let place = block / unit;
    Spot {
        element: (place % elements) as u8,
        block: place / elements * unit + block % unit,
    }
}

/// The block of a spot in a row that all elements have.
pub(crate) fn block_of_spot(sizes: &[ElementSize], spot: Spot) -> u64
    requires array { IsArray SecondaryLevel.Striped sizes.now }
    requires element { spot.element < length sizes.now }
    requires within { spot.block < least_of (λ size. size.rows) sizes.now * unit_of sizes.now }
    ensures { (block : ℕ) → (block ≡ result)
        ↔ (slice_get (spots_by SecondaryLevel.Striped sizes.now) block ≡ Some spot) }
{
    let unit = unit_of(sizes);
    let elements = sizes.len() as u64;
    (spot.block / unit * elements + u64::from(spot.element)) * unit + spot.block % unit
}
