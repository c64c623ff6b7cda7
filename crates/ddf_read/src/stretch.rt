//! Stretches of blocks: those that one call reads.
ghost use Rattle.std.specs.Prelude.{◌≡◌, ◌≢◌, ◌+◌, ◌<◌, ◌≤◌, ◌^◌, Some, true, false};
ghost use Rattle.ddf_array.specs.Places.{site_on};
ghost use Rattle.ddf_array.specs.Sources.{first_copy};
ghost use Rattle.ddf_array.specs.Volume.{capacity};
ghost use Rattle.ddf_read.specs.Stretches.{IsStretch};

use crate::strip::left_in_strip;
use ddf_array::{Site, View};

/// Whether a sector lies so many behind another one, on its slot.
pub fn lies_behind(found: Option<Site>, first: Site, ahead: u64) -> bool
    ensures yes { result ≡ true → found ≡ Some (site_on first.slot (first.lba + ahead)) }
    ensures no { result ≡ false → found ≢ Some (site_on first.slot (first.lba + ahead)) }
{
    match found {
        Some(site) => {
            site.slot == first.slot && first.lba <= site.lba && site.lba - first.lba == ahead
        }
        None => false,
    }
}

/// How many of these blocks are their first stretch, where the first block's first copy is known. It goes strip by strip.
pub(crate) fn stretch_at(view: &View, first: Site, start: u64, most: usize) -> usize
    requires some { 0 < most }
    requires small { start + most < 2 ^ 64 }
    requires blocks { start + most ≤ capacity view.now }
    requires first { first_copy view.now start ≡ Some first }
    ensures { IsStretch view.now first start result most }
{
    let mut count = left_in_strip(view, start, most);
    while count < most {
        let next = start + count as u64;
        if !lies_behind(view.first_copy(next), first, count as u64) {
            return count;
        }
        count += left_in_strip(view, next, most - count);
    }
    count
}
