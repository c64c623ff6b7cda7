//! Blocks that have several available cells.
ghost use Rattle.std.specs.Prelude.{◌≡◌, ◌<◌, true, false};
ghost use Rattle.ddf_array.specs.Volume.{IsVolume, capacity};
ghost use Rattle.ddf_resync.specs.Copying.{AreThisOn, HasOtherOn};
ghost use Rattle.ddf_resync.specs.Several.{has_other};

use ddf_array::{Site, View};
use ddf_cells::cell_on;

/// Whether two sectors are one.
pub(crate) fn is_site(one: Site, other: Site) -> bool
    ensures yes { result ≡ true → one ≡ other }
    ensures no { result ≡ false → one ≡ other → ⊥ }
{
    one.slot == other.slot && one.lba == other.lba
}

/// Whether the available cell of a block on one of an element's first positions, so many, is another than its first.
fn has_other_on(view: &View, element: usize, places: usize, block: u64, first: Site) -> bool
    requires block { block < capacity view.now }
    ensures yes { result ≡ true → HasOtherOn view.now element block first }
    ensures no { result ≡ false → AreThisOn view.now element places block first }
{
    for position in 0..places {
        if let Some(other) = cell_on(view, element, position, block) {
            if !is_site(other, first) {
                return true;
            }
        }
    }
    false
}

/// Whether a block has another available cell than its first.
pub(crate) fn has_other(view: &View, block: u64) -> bool
    requires known { IsVolume view.now }
    requires block { block < capacity view.now }
    ensures { result ≡ has_other view.now block }
{
    let Some(first) = view.first_copy(block) else {
        return false;
    };
    for element in 0..view.parts().len() {
        let places = view.parts()[element].places.items().len();
        if has_other_on(view, element, places, block, first) {
            return true;
        }
    }
    false
}
