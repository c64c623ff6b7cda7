//! Which disks an array can do without, as far as the configuration alone tells. docs/GROUPS.md#arrays
ghost use Rattle.std.specs.Prelude.{◌≡◌, ◌<◌, false, length, map, get_or};
ghost use Rattle.std.specs.List.{list_any, list_all, range_with_len};
ghost use Rattle.ddf_primary.specs.Needs.{one_of_two};
ghost use Rattle.ddf_config.specs.Within.{is_available, lacks_one, has_enough, is_part_within, is_within};

use crate::lookup::is_current;
use crate::{Array, ElementPlan, Member, Position};
use ddf_primary::{Need, Spread, begins_pairs};
use indexmap::IndexMap;

/// Whether a position is in sync and its member current.
fn is_available(members: &IndexMap<u32, Member>, position: &Position) -> bool
    ensures { result ≡ is_available members.now.entries position.now }
{
    position.synced && is_current(members, position.reference)
}

fn has_available(members: &IndexMap<u32, Member>, positions: &[Position]) -> bool
    ensures { result ≡ list_any (is_available members.now.entries) positions.now }
{
    positions
        .iter()
        .any(|position| is_available(members, position))
}

fn all_available(members: &IndexMap<u32, Member>, positions: &[Position]) -> bool
    ensures { result ≡ list_all (is_available members.now.entries) positions.now }
{
    positions
        .iter()
        .all(|position| is_available(members, position))
}

/// Whether at most one position isn't available.
fn lacks_one(members: &IndexMap<u32, Member>, positions: &[Position]) -> bool
    ensures { result ≡ lacks_one (is_available members.now.entries) positions.now }
{
    let away = positions
        .iter()
        .filter(|position| !is_available(members, *position))
        .count();
    away <= 1
}

/// Whether there is a position of a number, and it is available.
fn is_there(members: &IndexMap<u32, Member>, positions: &[Position], number: usize) -> bool
    ensures { result ≡ get_or (map (is_available members.now.entries) positions.now) number false }
{
    match positions.get(number) {
        Some(position) => is_available(members, position),
        None => false,
    }
}

/// Whether of a position of RAID 1E and the one behind it one is available, if they hold the same blocks.
fn one_of_two(
    members: &IndexMap<u32, Member>,
    spread: Spread,
    positions: &[Position],
    number: usize,
) -> bool
    requires { number < length positions.now }
    ensures { result ≡ one_of_two spread (map (is_available members.now.entries) positions.now) number }
{
    !begins_pairs(spread, positions.len(), number)
        || is_there(members, positions, number)
        || is_there(members, positions, (number + 1) % positions.len())
}

fn one_of_each(members: &IndexMap<u32, Member>, spread: Spread, positions: &[Position]) -> bool
    ensures { result ≡ list_all (one_of_two spread (map (is_available members.now.entries) positions.now)) (range_with_len 0 (length positions.now)) }
{
    (0..positions.len()).all(|number| one_of_two(members, spread, positions, number))
}

/// Whether enough positions are available for what an element needs.
fn has_enough(members: &IndexMap<u32, Member>, need: Need, positions: &[Position]) -> bool
    ensures { result ≡ has_enough need (is_available members.now.entries) positions.now }
{
    match need {
        Need::All => all_available(members, positions),
        Need::One => has_available(members, positions),
        Need::AllButOne => lacks_one(members, positions),
        Need::Neighbours(spread) => one_of_each(members, spread, positions),
    }
}

/// Whether an element is within its level: it can do without its positions that are out of sync or whose
/// member isn't current. RAID 1 needs one position, RAID 4 and 5 all but one, RAID 1E one of each two that hold
/// the same blocks, every other level all. An element of which no disk tells isn't within its level.
pub fn is_part_within(members: &IndexMap<u32, Member>, part: &Option<ElementPlan>) -> bool
    ensures { result ≡ is_part_within (is_available members.now.entries) part.now }
{
    match part {
        Some(element) => {
            let need = Need::of_level(element.level, element.qualifier);
            has_enough(members, need, element.positions.as_slice())
        }
        None => false,
    }
}

/// Whether some element is within its level.
pub fn has_part_within(members: &IndexMap<u32, Member>, parts: &[Option<ElementPlan>]) -> bool
    ensures { result ≡ list_any (is_part_within (is_available members.now.entries)) parts.now }
{
    parts.iter().any(|part| is_part_within(members, part))
}

fn all_parts_within(members: &IndexMap<u32, Member>, parts: &[Option<ElementPlan>]) -> bool
    ensures { result ≡ list_all (is_part_within (is_available members.now.entries)) parts.now }
{
    parts.iter().all(|part| is_part_within(members, part))
}

/// Whether an array is within its level: each element is, or where they are mirrored one of them.
pub fn is_within(members: &IndexMap<u32, Member>, array: &Array) -> bool
    ensures { result ≡ is_within (is_available members.now.entries) array.now }
{
    if array.is_mirrored() {
        has_part_within(members, array.elements.items())
    } else {
        all_parts_within(members, array.elements.items())
    }
}
