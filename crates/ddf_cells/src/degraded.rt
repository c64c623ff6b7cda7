//! Elements that keep parity and lack a position. Such an array isn't written (25): a stop could lose blocks that were written long ago.
//! docs/LIMITS.md#what-isnt-served
ghost use Rattle.std.specs.Prelude.{◌≡◌};
ghost use Rattle.std.specs.List.{list_all, list_any};
ghost use Rattle.ddf_array.specs.Places.{is_available};
ghost use Rattle.ddf_cells.specs.Degraded.{lacks_place, is_degraded};

use ddf_array::{Part, Place, View};
use ddf_read::keeps_parity;

/// Whether all of an element's positions are available.
pub fn all_available(places: &[Place]) -> bool
    ensures { result ≡ list_all is_available places.now }
{
    places.iter().all(|place| place.is_available())
}

/// Whether an element keeps parity and lacks a position.
fn lacks_place(part: &Part) -> bool
    ensures { result ≡ lacks_place part.now }
{
    keeps_parity(part.shape.layout()) && !all_available(part.places.items())
}

/// Whether an element of these keeps parity and lacks a position.
fn any_lacks(parts: &[Part]) -> bool
    ensures { result ≡ list_any lacks_place parts.now }
{
    parts.iter().any(lacks_place)
}

/// Whether an element of the array keeps parity and lacks a position: then its parity can be neither set nor compared
/// (profile).
pub fn is_degraded(view: &View) -> bool
    ensures { result ≡ is_degraded view.now }
{
    any_lacks(view.parts())
}
