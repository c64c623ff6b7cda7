//! Elements one after another. docs/PLACING.md#02-concatenated
ghost use Rattle.std.specs.Prelude.{◌≡◌, ◌↔◌, ℕ, ◌<◌, length, slice_get, Some};
ghost use Rattle.ddf_secondary.specs.Arrangement.{IsArray};
ghost use Rattle.ddf_secondary.specs.Spots.{spots_by, size_of};

use crate::sizes::capacity_of_all;
use crate::{ElementSize, SecondaryLevel, Spot};

/// The blocks of an array of these elements, one after another.
pub(crate) fn capacity(sizes: &[ElementSize]) -> u64
    requires { IsArray SecondaryLevel.Concatenated sizes.now }
    ensures { result ≡ length (spots_by SecondaryLevel.Concatenated sizes.now) }
{
    capacity_of_all(sizes)
}

/// The spot of a block.
pub(crate) fn spot_of_block(sizes: &[ElementSize], block: u64) -> Spot
    requires array { IsArray SecondaryLevel.Concatenated sizes.now }
    requires within { block < length (spots_by SecondaryLevel.Concatenated sizes.now) }
    ensures { slice_get (spots_by SecondaryLevel.Concatenated sizes.now) block ≡ Some result }
{
    let mut left = block;
    for (element, size) in sizes.iter().enumerate() {
        if left < size.capacity {
            return Spot {
                element: element as u8,
                block: left,
            };
        }
        left -= size.capacity;
    }
    unreachable!()
}

/// The block of a spot.
pub(crate) fn block_of_spot(sizes: &[ElementSize], spot: Spot) -> u64
    requires array { IsArray SecondaryLevel.Concatenated sizes.now }
    requires element { spot.element < length sizes.now }
    requires within { spot.block < (size_of sizes.now spot.element).capacity }
    ensures { (block : ℕ) → (block ≡ result)
        ↔ (slice_get (spots_by SecondaryLevel.Concatenated sizes.now) block ≡ Some spot) }
{
    capacity_of_all(&sizes[..spot.element as usize]) + spot.block
}
