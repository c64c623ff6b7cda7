//! The position that a rebuild is of: whether an array has it, and what the rebuild makes of it. docs/GROUPS.md#changes
ghost use Rattle.std.specs.Prelude.{◌≡◌, ◌≤◌, length, map, IfOk};
ghost use Rattle.std.specs.List.{enumerate_from};
ghost use Rattle.ddf_config.specs.Refusals.{first_refusal};
ghost use Rattle.ddf_plan.specs.Rebuild.{begun, progressed, finished, returned, element_at, part_has, has_position, part_reference, reference_at, lost_holder, position_causes, held_causes};
ghost use Rattle.ddf_plan.specs.Arrays.{position_after, element_after, part_after, rebuilding};

use crate::Change;
use crate::refuse::{no_array, not_current};
use crate::standing::stand_in_after;
use arrayvec::ArrayVec;
use ddf_bytes::{Guid, NoMemory, Seq};
use ddf_config::{Array, Config, ElementPlan, Position, Refusal, Seat, refuse_if};
use std::alloc::Global;

fn part_has(part: &Option<ElementPlan>, position: u16) -> bool
    ensures { result ≡ part_has position part.now }
{
    match part {
        Some(plan) => usize::from(position) < plan.positions.len(),
        None => false,
    }
}

/// Whether an array has a position of an element that is known.
fn array_has(array: &Array, element: u8, position: u16) -> bool
    ensures { result ≡ part_has position (element_at array.now element) }
{
    match array.elements.items().get(usize::from(element)) {
        Some(part) => part_has(part, position),
        None => false,
    }
}

fn has_position(config: &Config, guid: Guid, element: u8, position: u16) -> bool
    ensures { result ≡ has_position config.now guid element position }
{
    match config.arrays.get(&guid) {
        Some(array) => array_has(array, element, position),
        None => false,
    }
}

/// Why there is no such position.
pub(crate) fn no_position(
    config: &Config,
    guid: Guid,
    element: u8,
    position: u16,
) -> Option<Refusal>
    ensures { result ≡ first_refusal (position_causes config.now guid element position) }
{
    if let Some(refusal) = no_array(config, guid) {
        return Some(refusal);
    }
    refuse_if(
        !has_position(config, guid, element, position),
        Refusal::Shape,
    )
}

fn part_reference(part: &Option<ElementPlan>, position: u16) -> Option<u32>
    ensures { result ≡ part_reference position part.now }
{
    match part {
        Some(plan) => match plan.positions.get(usize::from(position)) {
            Some(held) => Some(held.reference),
            None => None,
        },
        None => None,
    }
}

fn array_reference(array: &Array, element: u8, position: u16) -> Option<u32>
    ensures { result ≡ part_reference position (element_at array.now element) }
{
    match array.elements.items().get(usize::from(element)) {
        Some(part) => part_reference(part, position),
        None => None,
    }
}

/// The reference of the disk that a position is on.
pub(crate) fn reference_at(config: &Config, guid: Guid, element: u8, position: u16) -> Option<u32>
    ensures { result ≡ reference_at config.now guid element position }
{
    match config.arrays.get(&guid) {
        Some(array) => array_reference(array, element, position),
        None => None,
    }
}

fn lost_holder(config: &Config, seats: &[Seat], reference: Option<u32>) -> Option<Refusal>
    ensures { result ≡ lost_holder config.now seats.now reference }
{
    match reference {
        Some(reference) => not_current(config, seats, &[reference]),
        None => None,
    }
}

/// Why there is no such position, or its disk is no current member.
pub(crate) fn no_holder(
    config: &Config,
    seats: &[Seat],
    guid: Guid,
    element: u8,
    position: u16,
) -> Option<Refusal>
    ensures { result ≡ first_refusal (held_causes config.now seats.now guid element position) }
{
    if let Some(refusal) = no_position(config, guid, element, position) {
        return Some(refusal);
    }
    lost_holder(config, seats, reference_at(config, guid, element, position))
}

fn begun(position: u16, reference: u32, start: u64, number: usize, old: Position) -> Position
    ensures { result ≡ begun position reference start number old }
{
    if usize::from(position) == number {
        Position {
            reference,
            start,
            synced: false,
            row: 0,
        }
    } else {
        old
    }
}

fn progressed(position: u16, row: u64, number: usize, old: Position) -> Position
    ensures { result ≡ progressed position row number old }
{
    let row = if usize::from(position) == number {
        row
    } else {
        0
    };
    Position { row, ..old }
}

fn finished(position: u16, number: usize, old: Position) -> Position
    ensures { result ≡ finished position number old }
{
    if usize::from(position) == number {
        Position {
            synced: true,
            row: 0,
            ..old
        }
    } else {
        old
    }
}

fn returned(position: u16, reference: u32, start: u64, number: usize, old: Position) -> Position
    ensures { result ≡ returned position reference start number old }
{
    let taken = begun(position, reference, start, number, old);
    finished(position, number, taken)
}

/// What a change of one position makes of each, by its number.
fn position_after(change: &Change, number: usize, old: Position) -> Position
    ensures { result ≡ position_after change.now number old }
{
    match change {
        Change::Begin {
            position,
            reference,
            start,
            ..
        } => begun(*position, *reference, *start, number, old),
        Change::Progress { position, row, .. } => progressed(*position, *row, number, old),
        Change::Finish { position, .. } => finished(*position, number, old),
        Change::Return {
            position,
            reference,
            start,
            ..
        } => returned(*position, *reference, *start, number, old),
        Change::Lose(_)
        | Change::Create(_, _)
        | Change::Delete(_)
        | Change::Spare(_, _)
        | Change::Fail(_)
        | Change::Mark(_)
        | Change::Unmark(_, _)
        | Change::Rewind(_) => old,
    }
}

fn positions_after(change: &Change, positions: &[Position]) -> ArrayVec<Position, 64>
    requires { length positions.now ≤ 64 }
    ensures { result.items ≡ map (λ pair. position_after change.now pair.0 pair.1) (enumerate_from 0 positions.now) }
{
    let mut after = ArrayVec::new();
    for (number, position) in positions.iter().enumerate() {
        after.push(position_after(change, number, *position));
    }
    after
}

fn element_after(revertible: bool, change: &Change, element: &ElementPlan) -> ElementPlan
    ensures { result ≡ element_after revertible change.now element.now }
{
    let positions = positions_after(change, element.positions.as_slice());
    element.with_disks(stand_in_after(revertible, change, element), positions)
}

fn part_after(
    alloc: Global,
    revertible: bool,
    change: &Change,
    named: u8,
    number: usize,
    part: &Option<ElementPlan>,
) -> Result<Option<ElementPlan>, NoMemory>
    ensures { IfOk result (λ after. after ≡ part_after revertible change.now named (number, part.now)) }
{
    match part {
        Some(element) => {
            if usize::from(named) == number {
                Ok(Some(element_after(revertible, change, element)))
            } else {
                let same = element.duplicate(alloc)?;
                Ok(Some(same))
            }
        }
        None => Ok(None),
    }
}

fn parts_after(
    alloc: Global,
    revertible: bool,
    change: &Change,
    named: u8,
    parts: &[Option<ElementPlan>],
) -> Result<Vec<Option<ElementPlan>>, NoMemory>
    ensures { IfOk result (λ after. after.items ≡ map (part_after revertible change.now named) (enumerate_from 0 parts.now)) }
{
    let mut after = Vec::with_capacity(alloc, parts.len())?;
    for (number, part) in parts.iter().enumerate() {
        let next = part_after(alloc, revertible, change, named, number, part)?;
        after.push(next)?;
    }
    Ok(after)
}

/// The array after a change of a position of this element. The flag tells that a rebuild begins on a revertible spare.
pub(crate) fn rebuilding(
    alloc: Global,
    revertible: bool,
    change: &Change,
    named: u8,
    array: &Array,
) -> Result<Array, NoMemory>
    ensures { IfOk result (λ next. next ≡ rebuilding revertible change.now named array.now) }
{
    let parts = parts_after(alloc, revertible, change, named, array.elements.items())?;
    Ok(Array {
        name: array.name,
        number: array.number,
        secondary: array.secondary,
        elements: Seq::new(parts),
        state: array.state,
        init: array.init,
    })
}
