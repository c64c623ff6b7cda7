//! One element of an array over its disks: which of its positions can be read, and whether a row is whole enough for parity to give a
//! missing one. A row that counts as whole and isn't would give bytes that nobody wrote.
ghost use Rattle.std.specs.Prelude.{◌≡◌, ◌<◌, is_some, length};
ghost use Rattle.ddf_array.specs.Places.{site_at};
ghost use Rattle.ddf_array.specs.Sources.{other_at, row_without, all_of};
ghost use Rattle.ddf_array.specs.Volume.{IsPart};

use crate::{Place, Site};
use ddf_bytes::Seq;
use ddf_primary::Shape;

/// One element of an array, a basic virtual disk (SNIA DDF 2.0): its shape, and where its positions lie.
#[derive(Drop)]
pub struct Part {
    /// Where each of its blocks lies on its positions.
    pub shape: Shape,
    /// Its positions, in order.
    pub places: Seq<Place>,
}

impl Part {
    /// Where a sector of a position lies, if the position is available.
    pub fn site_at(&self, position: usize, sector: u64) -> Option<Site>
        requires part { IsPart self.now }
        requires sector { sector < self.now.shape.blocks }
        ensures { result ≡ site_at self.now.places position sector }
    {
        let place = self.places.items().get(position)?;
        place.site(sector)
    }

    /// Whether the other positions of a row are all available, so that they give what this one holds at the sector.
    pub fn has_row(&self, position: usize, sector: u64) -> bool
        requires part { IsPart self.now }
        requires sector { sector < self.now.shape.blocks }
        ensures { result ≡ is_some (row_without self.now.places position sector) }
    {
        for other in 0..self.places.items().len() {
            if !self.has_other(position, sector, other) {
                return false;
            }
        }
        true
    }

    /// Whether another position is available.
    fn has_other(&self, position: usize, sector: u64, other: usize) -> bool
        requires part { IsPart self.now }
        requires sector { sector < self.now.shape.blocks }
        ensures { result ≡ is_some (all_of (other_at self.now.places sector position other)) }
    {
        other == position || self.site_at(other, sector).is_some()
    }
}
