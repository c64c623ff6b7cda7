//! What the loss of disks makes of arrays: their positions are out of sync, with no row rebuilt, since what is written from now on isn't there.
//! docs/GROUPS.md#changes
ghost use Rattle.std.specs.Prelude.{◌≡◌, ◌≤◌, length, map, option_map, IfOk};
ghost use Rattle.ddf_plan.specs.Lose.{is_among, out_of_sync, lost_position, lost_stand_in, lost_element, lost_parts, wholly_out, out_beyond, mirrored_parts, lost_array};

use arrayvec::ArrayVec;
use ddf_bytes::{NoMemory, Seq};
use ddf_config::{Array, ElementPlan, Member, Position, has_part_within, is_part_within};
use indexmap::IndexMap;
use std::alloc::Global;

/// Whether a reference is one of these.
pub fn is_among(references: &[u32], reference: u32) -> bool
    ensures { result ≡ is_among references.now reference }
{
    references.iter().any(|other| reference == *other)
}

fn out_of_sync(position: Position) -> Position
    ensures { result ≡ out_of_sync position }
{
    Position {
        synced: false,
        row: 0,
        ..position
    }
}

fn lost_position(references: &[u32], position: Position) -> Position
    ensures { result ≡ lost_position references.now position }
{
    if is_among(references, position.reference) {
        out_of_sync(position)
    } else {
        position
    }
}

fn lost_positions(references: &[u32], positions: &[Position]) -> ArrayVec<Position, 64>
    requires { length positions.now ≤ 64 }
    ensures { result.items ≡ map (lost_position references.now) positions.now }
{
    let mut lost = ArrayVec::new();
    for position in positions {
        lost.push(lost_position(references, *position));
    }
    lost
}

fn positions_out(positions: &[Position]) -> ArrayVec<Position, 64>
    requires { length positions.now ≤ 64 }
    ensures { result.items ≡ map out_of_sync positions.now }
{
    let mut out = ArrayVec::new();
    for position in positions {
        out.push(out_of_sync(*position));
    }
    out
}

/// The disk that stands in where these are lost, 0 for none.
fn lost_stand_in(references: &[u32], element: &ElementPlan) -> u32
    ensures { result ≡ lost_stand_in references.now element.now }
{
    if is_among(references, element.stand_in) {
        0
    } else {
        element.stand_in
    }
}

fn lost_element(references: &[u32], element: &ElementPlan) -> ElementPlan
    ensures { result ≡ lost_element references.now element.now }
{
    let positions = lost_positions(references, element.positions.as_slice());
    element.with_disks(lost_stand_in(references, element), positions)
}

fn lost_part(references: &[u32], part: &Option<ElementPlan>) -> Option<ElementPlan>
    ensures { result ≡ option_map (lost_element references.now) part.now }
{
    match part {
        Some(element) => Some(lost_element(references, element)),
        None => None,
    }
}

fn lost_parts(
    alloc: Global,
    references: &[u32],
    array: &Array,
) -> Result<Vec<Option<ElementPlan>>, NoMemory>
    ensures { IfOk result (λ parts. parts.items ≡ lost_parts references.now array.now) }
{
    let parts = array.elements.items();
    let mut lost = Vec::with_capacity(alloc, parts.len())?;
    for part in parts {
        lost.push(lost_part(references, part))?;
    }
    Ok(lost)
}

fn wholly_out(element: &ElementPlan) -> ElementPlan
    ensures { result ≡ wholly_out element.now }
{
    element.with_positions(positions_out(element.positions.as_slice()))
}

fn out_beyond(
    alloc: Global,
    members: &IndexMap<u32, Member>,
    part: &Option<ElementPlan>,
) -> Result<Option<ElementPlan>, NoMemory>
    ensures { IfOk result (λ out. out ≡ out_beyond members.now.entries part.now) }
{
    match part {
        Some(element) => {
            if is_part_within(members, part) {
                let same = element.duplicate(alloc)?;
                Ok(Some(same))
            } else {
                Ok(Some(wholly_out(element)))
            }
        }
        None => Ok(None),
    }
}

fn all_out_beyond(
    alloc: Global,
    members: &IndexMap<u32, Member>,
    parts: &[Option<ElementPlan>],
) -> Result<Vec<Option<ElementPlan>>, NoMemory>
    ensures { IfOk result (λ all. all.items ≡ map (out_beyond members.now.entries) parts.now) }
{
    let mut all = Vec::with_capacity(alloc, parts.len())?;
    for part in parts {
        let next = out_beyond(alloc, members, part)?;
        all.push(next)?;
    }
    Ok(all)
}

/// In a mirrored array with an element within its level, puts the elements beyond theirs out of sync.
fn mirrored_parts(
    alloc: Global,
    members: &IndexMap<u32, Member>,
    array: &Array,
    parts: Vec<Option<ElementPlan>>,
) -> Result<Vec<Option<ElementPlan>>, NoMemory>
    ensures { IfOk result (λ all. all.items ≡ mirrored_parts members.now.entries array.now parts.items) }
{
    if array.is_mirrored() && has_part_within(members, parts.as_slice()) {
        all_out_beyond(alloc, members, parts.as_slice())
    } else {
        Ok(parts)
    }
}

/// The array after the loss of these disks. The members are those after the loss.
pub(crate) fn lost_array(
    alloc: Global,
    members: &IndexMap<u32, Member>,
    references: &[u32],
    array: &Array,
) -> Result<Array, NoMemory>
    ensures { IfOk result (λ lost. lost ≡ lost_array members.now.entries references.now array.now) }
{
    let lost = lost_parts(alloc, references, array)?;
    let parts = mirrored_parts(alloc, members, array, lost)?;
    Ok(Array {
        name: array.name,
        number: array.number,
        secondary: array.secondary,
        elements: Seq::new(parts),
        state: array.state,
        init: array.init,
    })
}
