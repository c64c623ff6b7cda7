//! Which disks an array can do without. Taken for more than it is, an array would be changed or written of which blocks are gone.
//! docs/GROUPS.md#arrays
ghost use Rattle.std.specs.Prelude.{◌≡◌, ◌<◌, false, length, map, get_or};
ghost use Rattle.ddf_primary.specs.Needs.{one_of_two};
ghost use Rattle.std.specs.List.{list_any, list_all, range_with_len};
ghost use Rattle.ddf_config.specs.Within.{lacks_one, has_enough};
ghost use Rattle.ddf_array.specs.Places.{is_available};
ghost use Rattle.ddf_array.specs.Within.{is_part_within, is_mirrored, is_within, is_redundant, keeps_more};

use crate::{Part, Place, View};
use ddf_primary::{Need, Spread, begins_pairs};

fn has_available(places: &[Place]) -> bool
    ensures { result ≡ list_any is_available places.now }
{
    places.iter().any(|place| place.is_available())
}

fn all_available(places: &[Place]) -> bool
    ensures { result ≡ list_all is_available places.now }
{
    places.iter().all(|place| place.is_available())
}

/// Whether at most one place isn't available.
fn lacks_one(places: &[Place]) -> bool
    ensures { result ≡ lacks_one is_available places.now }
{
    let away = places.iter().filter(|place| !place.is_available()).count();
    away <= 1
}

/// Whether there is a place of a number, and it is available.
fn is_there(places: &[Place], number: usize) -> bool
    ensures { result ≡ get_or (map is_available places.now) number false }
{
    match places.get(number) {
        Some(place) => place.is_available(),
        None => false,
    }
}

/// Whether of a place of RAID 1E and the one behind it one is available, if they hold the same blocks.
fn one_of_two(spread: Spread, places: &[Place], number: usize) -> bool
    requires { number < length places.now }
    ensures { result ≡ one_of_two spread (map is_available places.now) number }
{
    !begins_pairs(spread, places.len(), number)
        || is_there(places, number)
        || is_there(places, (number + 1) % places.len())
}

fn one_of_each(spread: Spread, places: &[Place]) -> bool
    ensures { result ≡ list_all (one_of_two spread (map is_available places.now)) (range_with_len 0 (length places.now)) }
{
    (0..places.len()).all(|number| one_of_two(spread, places, number))
}

/// Whether enough places are available for what an element needs.
fn has_enough(need: Need, places: &[Place]) -> bool
    ensures { result ≡ has_enough need is_available places.now }
{
    match need {
        Need::All => all_available(places),
        Need::One => has_available(places),
        Need::AllButOne => lacks_one(places),
        Need::Neighbours(spread) => one_of_each(spread, places),
    }
}

fn is_part_within(part: &Part) -> bool
    ensures { result ≡ is_part_within part.now }
{
    has_enough(part.shape.layout().need(), part.places.items())
}

fn keeps_more(part: &Part) -> bool
    ensures { result ≡ keeps_more part.now }
{
    let layout = part.shape.layout();
    layout.keeps_copies() || layout.keeps_parity()
}

fn has_part_within(parts: &[Part]) -> bool
    ensures { result ≡ list_any is_part_within parts.now }
{
    parts.iter().any(is_part_within)
}

fn all_parts_within(parts: &[Part]) -> bool
    ensures { result ≡ list_all is_part_within parts.now }
{
    parts.iter().all(is_part_within)
}

fn has_part_that_keeps_more(parts: &[Part]) -> bool
    ensures { result ≡ list_any keeps_more parts.now }
{
    parts.iter().any(keeps_more)
}

impl View {
    /// Whether the elements are copies of each other.
    pub fn is_mirrored(&self) -> bool
        ensures { result ≡ is_mirrored self.now }
    {
        self.is_in_every() && self.parts().len() >= 2
    }

    /// Whether the array is within its level: each element is, or where they are mirrored one of them. An element
    /// is where all positions are available, for RAID 1 one, for RAID 4 and 5 all but at most one, and for RAID 1E one
    /// of each two that hold the same blocks (profile).
    pub fn within(&self) -> bool
        ensures { result ≡ is_within self.now }
    {
        if self.is_mirrored() {
            has_part_within(self.parts())
        } else {
            all_parts_within(self.parts())
        }
    }

    /// Whether the array keeps what it holds in more than one place: an element is RAID 1, 1E, 4 or 5, or two or more
    /// are mirrored (SNIA DDF 2.0).
    pub fn redundant(&self) -> bool
        ensures { result ≡ is_redundant self.now }
    {
        self.is_mirrored() || has_part_that_keeps_more(self.parts())
    }
}
