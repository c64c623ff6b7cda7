//! An array as numbers: from a block to its spot and back, for every secondary level. docs/PLACING.md#secondary-levels
ghost use Rattle.std.specs.Prelude.{◌≡◌, ◌↔◌, ℕ, ◌<◌, ◌≤◌, ◌^◌, take, length, slice_get, IfOk};

use crate::sizes::{least_capacity, least_rows, share_a_unit, unit_of};
use crate::{ElementSize, SecondaryLevel, Spot, TiersFault, concatenated, spanned, striped};
use std::marker::Model;

/// The most elements of an array (profile).
const MOST_ELEMENTS: usize = 16;

/// The elements of one array, and the secondary level that says which of them holds each block.
#[derive(Drop)]
pub struct Tiers {
    level: SecondaryLevel,
    count: usize,
    sizes: [ElementSize; MOST_ELEMENTS],
}

impl Model for Tiers {
    ghost use Rattle.std.specs.Prelude.{ℕ, ◌≤◌, take};
    ghost use Rattle.ddf_secondary.specs.Arrangement.{Arrangement, IsArray};

    ghost Value = { Arrangement };

    ghost view = { λ t. record { level = t.level; sizes = take t.count t.sizes } };

    ghost invariant = { λ t. IsArray t.level (take t.count t.sizes) × (t.count ≤ 16) };
}

impl Tiers {
    ghost use Rattle.ddf_secondary.specs.Arrangement.{tiers_of, IsArray};
    ghost use Rattle.ddf_secondary.specs.Sizes.{AreSmall};
    ghost use Rattle.ddf_secondary.specs.Spots.{spots, Holds, carried};

    /// The tiers of a secondary level over elements, in order. An array with one element is asked for
    /// with level 00, since its stored level has no meaning.
    ///
    /// # Errors
    /// The first fault, in the order of `TiersFault`.
    pub fn new(level: u8, sizes: &[ElementSize]) -> Result<Tiers, TiersFault>
        requires { AreSmall sizes.now }
        ensures value { result ≡ tiers_of level sizes.now }
        ensures sound { IfOk result (λ tiers. IsArray tiers.level tiers.sizes) }
    {
        let Some(tiers_level) = SecondaryLevel::from_code(level) else {
            return Err(TiersFault::Level(level));
        };
        if sizes.is_empty() || sizes.len() > MOST_ELEMENTS {
            return Err(TiersFault::Count(sizes.len()));
        }
        if tiers_level.goes_by_rows() && !share_a_unit(sizes) {
            return Err(TiersFault::Mixed);
        }
        let none = ElementSize {
            capacity: 0,
            unit: 0,
            rows: 0,
        };
        let mut held = [none; MOST_ELEMENTS];
        held[..sizes.len()].copy_from_slice(sizes);
        Ok(Tiers {
            level: tiers_level,
            count: sizes.len(),
            sizes: held,
        })
    }

    /// The secondary level.
    pub fn level(&self) -> SecondaryLevel
        ensures { result ≡ self.now.level }
    {
        self.level
    }

    /// The sizes of the elements, in order.
    pub fn elements(&self) -> &[ElementSize]
        ensures value { result.now ≡ self.now.sizes }
        ensures sound { IsArray self.now.level self.now.sizes }
    {
        &self.sizes[..self.count]
    }

    /// The blocks that the array holds.
    pub fn capacity(&self) -> u64
        ensures value { result ≡ length (spots self.now) }
        ensures sound { IsArray self.now.level self.now.sizes }
    {
        let sizes = self.elements();
        if sizes.len() == 1 {
            return sizes[0].capacity;
        }
        match self.level {
            SecondaryLevel::Striped => striped::capacity(sizes),
            SecondaryLevel::Mirrored => least_capacity(sizes),
            SecondaryLevel::Concatenated => concatenated::capacity(sizes),
            SecondaryLevel::Spanned => spanned::capacity(sizes),
        }
    }

    /// The spot of a block. For mirrored tiers it is that of element 0, and every element holds the
    /// block at the same number.
    pub fn locate(&self, block: u64) -> Spot
        requires { block < length (spots self.now) }
        ensures spot { slice_get (spots self.now) block ≡ Some result }
        ensures holds { Holds self.now result block }
        ensures element { result.element < length self.now.sizes }
        ensures block { result.block < carried self.now result.element }
    {
        self.spot_of_block(block)
    }

    /// The block of the array that an element's block holds. None past the elements, and past the
    /// blocks of the element that hold any.
    pub fn block_at(&self, spot: Spot) -> Option<u64>
        ensures { (block : ℕ) → (result ≡ Some block) ↔ Holds self.now spot block }
    {
        let sizes = self.elements();
        if usize::from(spot.element) >= sizes.len() || spot.block >= self.carried(spot.element) {
            return None;
        }
        if sizes.len() == 1 {
            return Some(spot.block);
        }
        let block = match self.level {
            SecondaryLevel::Striped => striped::block_of_spot(sizes, spot),
            SecondaryLevel::Mirrored => spot.block,
            SecondaryLevel::Concatenated => concatenated::block_of_spot(sizes, spot),
            SecondaryLevel::Spanned => spanned::block_of_spot(sizes, spot),
        };
        Some(block)
    }

    /// How many blocks of an element hold blocks of the array, from the element's first.
    pub fn carried(&self, element: u8) -> u64
        requires { element < length self.now.sizes }
        ensures { result ≡ carried self.now element }
    {
        let sizes = self.elements();
        if sizes.len() == 1 {
            return sizes[0].capacity;
        }
        let size = sizes[usize::from(element)];
        match self.level {
            SecondaryLevel::Striped => least_rows(sizes) * unit_of(sizes),
            SecondaryLevel::Mirrored => least_capacity(sizes),
            SecondaryLevel::Concatenated => size.capacity,
            SecondaryLevel::Spanned => size.rows * unit_of(sizes),
        }
    }

    fn spot_of_block(&self, block: u64) -> Spot
        requires { block < length (spots self.now) }
        ensures spot { slice_get (spots self.now) block ≡ Some result }
        ensures sound { IsArray self.now.level self.now.sizes }
    {
        let sizes = self.elements();
        if sizes.len() == 1 {
            return Spot { element: 0, block };
        }
        match self.level {
            SecondaryLevel::Striped => striped::spot_of_block(sizes, block),
            SecondaryLevel::Mirrored => Spot { element: 0, block },
            SecondaryLevel::Concatenated => concatenated::spot_of_block(sizes, block),
            SecondaryLevel::Spanned => spanned::spot_of_block(sizes, block),
        }
    }
}
