//! The position of an array that goes back from a revertible spare to another disk. docs/GROUPS.md#changes
ghost use Rattle.std.specs.Prelude.{◌≡◌, ◌<◌, ◌≤◌, ◌^◌, length, find, IfSome, Some};
ghost use Rattle.std.specs.List.{enumerate_from};
ghost use Rattle.std.specs.Map.{lookup};
ghost use Rattle.ddf_config.specs.declared.array.Array as arrays;
ghost use Rattle.ddf_config.specs.Members.{same_guid};
ghost use Rattle.ddf_repair.specs.Choose.{back_from, back_in, can_go_back, chosen, part_back};

use crate::first::Target;
use ddf_bytes::Guid;
use ddf_config::{Array, Config, ElementPlan, Position, Seat, floor_of};

/// Whether a position can go back: the element's stand-in holds it, it is in sync, and its disk is here.
fn can_go_back(seats: &[Seat], stand_in: u32, position: &Position) -> bool
    ensures { result ≡ can_go_back seats.now stand_in position.now }
{
    stand_in != 0
        && position.reference == stand_in
        && position.synced
        && floor_of(seats, position.reference).is_some()
}

/// The first of these positions that can go back, with its number.
fn first_back(seats: &[Seat], stand_in: u32, positions: &[Position]) -> Option<(usize, Position)>
    ensures exact { result ≡ find (λ at. can_go_back seats.now stand_in at.1) (enumerate_from 0 positions.now) }
    ensures within { IfSome result (λ at. at.0 < length positions.now) }
{
    positions
        .iter()
        .copied()
        .enumerate()
        .find(|(_, position)| can_go_back(seats, stand_in, position))
}

/// The first position of an element that can go back, with its number.
fn back_in(seats: &[Seat], plan: &ElementPlan) -> Option<(usize, Position)>
    ensures exact { result ≡ back_in seats.now plan.now }
    ensures within { IfSome result (λ at. at.0 < 64) }
{
    first_back(seats, plan.stand_in, plan.positions.as_slice())
}

fn part_back(seats: &[Seat], element: usize, part: &Option<ElementPlan>) -> Option<Target>
    requires { element < 2 ^ 8 }
    ensures { result ≡ part_back seats.now element part.now }
{
    match part {
        Some(plan) => match back_in(seats, plan) {
            Some((position, _)) => Some(Target {
                element: element as u8,
                position: position as u16,
            }),
            None => None,
        },
        None => None,
    }
}

fn back_among(seats: &[Seat], parts: &[Option<ElementPlan>]) -> Option<Target>
    requires { length parts.now ≤ 2 ^ 8 }
    ensures { result ≡ back_from seats.now 0 parts.now }
{
    for (element, part) in parts.iter().enumerate() {
        if let Some(target) = part_back(seats, element, part) {
            return Some(target);
        }
    }
    None
}

fn array_back(seats: &[Seat], array: &Array) -> Option<Target>
    requires { length array.now.elements ≤ 2 ^ 8 }
    ensures { result ≡ back_from seats.now 0 array.now.elements }
{
    back_among(seats, array.elements.items())
}

/// The position of an array that goes back from the spare that stands in there to another disk: the first, by element and
/// position, that is in sync, whose disk is the element's stand-in and has a seat. None exactly where there is none. Why a position
/// can't go back is told by refusal 38.
#[tactic(auto, unfolding(crate::specs::Choose::chosen))]
pub fn choose(config: &Config, array: &Guid, seats: &[Seat]) -> Option<Target>
    requires { (found : arrays.Array) → lookup (same_guid array.now) config.now.arrays ≡ Some found → length found.elements ≤ 2 ^ 8 }
    ensures { result ≡ chosen config.now array.now seats.now }
{
    match config.arrays.get(array) {
        Some(found) => array_back(seats, found),
        None => None,
    }
}
