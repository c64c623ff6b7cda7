//! The view of an array: what all that read, write, resync or rebuild blocks ask for where a block lies and whether parity may be trusted.
//! It holds no bytes of disks, so it stays true while blocks are written. docs/PLACING.md
ghost use Rattle.std.specs.Prelude.{◌≡◌, ◌<◌, ◌↔◌, ℕ, slice_get, length, map, Some, None, MatchOption};
ghost use Rattle.ddf_secondary.specs.Spots.{Holds, spots};
ghost use Rattle.ddf_array.specs.Volume.{IsPart, IsVolume, volume, capacity, size_of};
ghost use Rattle.ddf_array.specs.Cells.{is_in_every};
ghost use Rattle.ddf_array.specs.Sources.{trusts_parity};

use crate::Part;
use ddf_bytes::Seq;
use ddf_secondary::{SecondaryLevel, Spot, Tiers};
use std::marker::Model;

/// One array, a virtual disk of a group (SNIA DDF 2.0), over the seats of the members that are there. What its disks hold
/// isn't read: it tells where each block can be read. Contracts see it as a volume.
#[derive(Drop)]
pub struct View {
    marked: bool,
    tiers: Tiers,
    parts: Seq<Part>,
}

impl Model for View {
    ghost use Rattle.ddf_array.specs.Volume.{Volume, IsVolume, volume};

    ghost Value = { Volume };

    ghost view = { λ v. volume v.marked v.tiers v.parts };

    ghost invariant = { λ v. IsVolume (volume v.marked v.tiers v.parts) };
}

impl View {
    /// A view of these elements.
    pub(crate) fn of(marked: bool, tiers: Tiers, parts: Seq<Part>) -> View
        requires { IsVolume (volume marked tiers parts) }
        ensures { result ≡ volume marked tiers parts }
    {
        View {
            marked,
            tiers,
            parts,
        }
    }

    /// The blocks that the array holds, of one sector each.
    pub fn capacity(&self) -> u64
        ensures value { result ≡ capacity self.now }
        ensures sound { IsVolume self.now }
    {
        self.tiers.capacity()
    }

    /// Whether the array is marked as not consistent.
    pub fn is_marked(&self) -> bool
        ensures { result ≡ self.now.marked }
    {
        self.marked
    }

    /// Whether blocks may be read by parity: not where the array is marked (profile).
    pub fn trusts_parity(&self) -> bool
        ensures { result ≡ trusts_parity self.now }
    {
        !self.marked
    }

    /// The elements, in order.
    pub fn parts(&self) -> &[Part]
        ensures parts { result.now ≡ self.now.parts }
        ensures sound { IsVolume self.now }
    {
        self.parts.items()
    }

    /// An element. None past the last.
    pub fn part(&self, element: usize) -> Option<&Part>
        ensures found { MatchOption result (slice_get self.now.parts element ≡ None) (λ part. slice_get self.now.parts element ≡ Some part.now) }
        ensures sound { IsVolume self.now }
    {
        self.parts().get(element)
    }

    /// The element and the block of it that hold a block of the array. Where the elements are mirrored that is the
    /// first, and each of them holds the block at the same number.
    pub fn spot(&self, block: u64) -> Spot
        requires { block < capacity self.now }
        ensures spot { slice_get (spots self.now.tiers) block ≡ Some result }
        ensures sound { IsVolume self.now }
    {
        self.tiers.locate(block)
    }

    /// The block of the array that an element holds as one of its blocks. None where it holds none there.
    pub fn block_of(&self, spot: Spot) -> Option<u64>
        ensures holds { (block : ℕ) → (result ≡ Some block) ↔ Holds self.now.tiers spot block }
        ensures sound { IsVolume self.now }
    {
        self.tiers.block_at(spot)
    }

    /// The secondary level over the elements, which says which of them holds each block.
    pub fn tiers(&self) -> &Tiers
        ensures tiers { result.now ≡ self.now.tiers }
        ensures sound { IsVolume self.now }
    {
        &self.tiers
    }

    /// Whether every element holds each block.
    pub fn is_in_every(&self) -> bool
        ensures { result ≡ is_in_every self.now.tiers.level }
    {
        matches!(self.tiers.level(), SecondaryLevel::Mirrored)
    }
}
