//! The state of an array by the seats of its members.
ghost use Rattle.std.specs.Prelude.{◌≡◌, ◌<◌, not, false, count_by, length, map, get_or};
ghost use Rattle.std.specs.List.{list_any, list_all, range_with_len};
ghost use Rattle.ddf_primary.specs.Needs.{one_of_two};
ghost use Rattle.ddf_array.specs.Viewing.{is_array_within, is_seated};
ghost use Rattle.ddf_config.specs.Within.{has_enough, is_part_within};
ghost use Rattle.ddf_text.specs.Standing.{has_position_away, has_seat, state_on_seats};

use ddf_config::{Array, ElementPlan, Position, Seat, floor_of};
use ddf_primary::{Need, Spread, begins_pairs};

/// The state of an array with a position that isn't available.
pub(crate) const DEGRADED: u8 = 1;
/// The state of an array that isn't within its level.
pub(crate) const FAILED: u8 = 4;
/// The state of every other array.
const OPTIMAL: u8 = 0;

/// Whether a member has a seat.
pub(crate) fn has_seat(seats: &[Seat], reference: u32) -> bool
    ensures { result ≡ has_seat seats.now reference }
{
    floor_of(seats, reference).is_some()
}

/// Whether a position is in sync, and its member has a seat.
fn is_seated(seats: &[Seat], position: &Position) -> bool
    ensures { result ≡ is_seated seats.now position.now }
{
    position.synced && has_seat(seats, position.reference)
}

/// How many positions aren't available.
fn count_away(seats: &[Seat], positions: &[Position]) -> usize
    ensures { result ≡ count_by (λ position. not (is_seated seats.now position)) positions.now }
{
    positions
        .iter()
        .filter(|position| !is_seated(seats, *position))
        .count()
}

/// Whether there is a position of a number, and it is available.
fn is_there(seats: &[Seat], positions: &[Position], number: usize) -> bool
    ensures { result ≡ get_or (map (is_seated seats.now) positions.now) number false }
{
    match positions.get(number) {
        Some(position) => is_seated(seats, position),
        None => false,
    }
}

/// Whether of a position of RAID 1E and the one behind it one is available, if they hold the same blocks.
fn one_of_two(seats: &[Seat], spread: Spread, positions: &[Position], number: usize) -> bool
    requires { number < length positions.now }
    ensures { result ≡ one_of_two spread (map (is_seated seats.now) positions.now) number }
{
    !begins_pairs(spread, positions.len(), number)
        || is_there(seats, positions, number)
        || is_there(seats, positions, (number + 1) % positions.len())
}

fn one_of_each(seats: &[Seat], spread: Spread, positions: &[Position]) -> bool
    ensures { result ≡ list_all (one_of_two spread (map (is_seated seats.now) positions.now)) (range_with_len 0 (length positions.now)) }
{
    (0..positions.len()).all(|number| one_of_two(seats, spread, positions, number))
}

/// Whether enough positions are available for what an element needs.
fn has_enough(seats: &[Seat], need: Need, positions: &[Position]) -> bool
    ensures { result ≡ has_enough need (is_seated seats.now) positions.now }
{
    let away = count_away(seats, positions);
    match need {
        Need::All => away == 0,
        Need::One => away < positions.len(),
        Need::AllButOne => away <= 1,
        Need::Neighbours(spread) => one_of_each(seats, spread, positions),
    }
}

/// Whether an element is within its level.
fn is_part_within(seats: &[Seat], part: &Option<ElementPlan>) -> bool
    ensures { result ≡ is_part_within (is_seated seats.now) part.now }
{
    match part {
        Some(element) => {
            let need = Need::of_level(element.level, element.qualifier);
            has_enough(seats, need, element.positions.as_slice())
        }
        None => false,
    }
}

/// How many elements aren't within their level.
fn count_beyond(seats: &[Seat], parts: &[Option<ElementPlan>]) -> usize
    ensures { result ≡ count_by (λ part. not (is_part_within (is_seated seats.now) part)) parts.now }
{
    parts
        .iter()
        .filter(|part| !is_part_within(seats, *part))
        .count()
}

/// Whether an array is within its level: each element is, or where they are mirrored one of them.
fn is_within(seats: &[Seat], array: &Array) -> bool
    ensures { result ≡ is_array_within seats.now array.now }
{
    let parts = array.elements.items();
    let beyond = count_beyond(seats, parts);
    if array.is_mirrored() {
        beyond < parts.len()
    } else {
        beyond == 0
    }
}

/// Whether a position of an element isn't available.
fn has_position_away(seats: &[Seat], part: &Option<ElementPlan>) -> bool
    ensures { result ≡ has_position_away seats.now part.now }
{
    match part {
        Some(element) => count_away(seats, element.positions.as_slice()) > 0,
        None => false,
    }
}

fn has_part_away(seats: &[Seat], parts: &[Option<ElementPlan>]) -> bool
    ensures { result ≡ list_any (has_position_away seats.now) parts.now }
{
    parts.iter().any(|part| has_position_away(seats, part))
}

/// The state that an array has by the seats of its members.
pub(crate) fn state_on_seats(seats: &[Seat], array: &Array) -> u8
    ensures { result ≡ state_on_seats seats.now array.now }
{
    if !is_within(seats, array) {
        FAILED
    } else if has_part_away(seats, array.elements.items()) {
        DEGRADED
    } else {
        OPTIMAL
    }
}
