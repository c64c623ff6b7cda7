//! Sectors that lie one after another, and what has some of them.
ghost use Rattle.std.specs.Prelude.{◌≡◌, ◌<◌, ◌^◌};
ghost use Rattle.std.specs.List.{list_any};
ghost use Rattle.ddf_copy.specs.Room.{has_sector_of, meets_copy, share};
ghost use Rattle.ddf_moving.specs.Obstacles.{meets_extent};

use ddf_config::Extent;
use ddf_header::{Geometry, Section};

/// So many sectors of a disk, from one on.
#[derive(Clone, Copy)]
pub(crate) struct Stretch {
    /// The first one.
    pub from: u64,
    /// How many there are.
    pub many: u64,
}

impl Stretch {
    /// Whether it has one of so many sectors from another one on.
    fn shares(&self, other: u128, more: u64) -> bool
        requires { other < 2 ^ 65 }
        ensures { result ≡ share self.now.from self.now.many other more }
    {
        let from = u128::from(self.from);
        from < other + u128::from(more) && other < from + u128::from(self.many)
    }

    /// Whether it has a sector of a section behind a header.
    pub(crate) fn has_sector_of(&self, lba: u64, section: &Section) -> bool
        ensures { result ≡ has_sector_of lba self.now.from self.now.many section.now }
    {
        let other = u128::from(lba) + u128::from(section.offset);
        section.length != 0 && self.shares(other, u64::from(section.length))
    }

    fn meets_sections(&self, lba: u64, geometry: &Geometry) -> bool
        ensures { result ≡ list_any (has_sector_of lba self.now.from self.now.many) geometry.now.sections }
    {
        geometry
            .sections
            .iter()
            .any(|section| self.has_sector_of(lba, section))
    }

    /// Whether it has a sector of a header or of one of the sections behind it.
    pub(crate) fn meets_copy(&self, lba: u64, geometry: &Geometry) -> bool
        ensures { result ≡ meets_copy lba geometry.now.sections self.now.from self.now.many }
    {
        self.shares(u128::from(lba), 1) || self.meets_sections(lba, geometry)
    }

    /// Whether it has a sector of an extent.
    pub(crate) fn meets_extent(&self, extent: &Extent) -> bool
        ensures { result ≡ meets_extent self.now extent.now }
    {
        extent.blocks != 0 && self.shares(u128::from(extent.start), extent.blocks)
    }

    /// Whether it has a sector of one of these extents.
    pub(crate) fn meets_extents(&self, extents: &[Extent]) -> bool
        ensures { result ≡ list_any (meets_extent self.now) extents.now }
    {
        extents.iter().any(|extent| self.meets_extent(extent))
    }
}
