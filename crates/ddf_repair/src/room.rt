//! The room for a position of an array on another disk, and the change by which the position goes there. docs/GROUPS.md#changes
ghost use Rattle.std.specs.Prelude.{◌≡◌, IfOk};
ghost use Rattle.ddf_config.specs.Extents.{extents};
ghost use Rattle.ddf_plan.specs.declared.change.Change.TheVariants.{Return};
ghost use Rattle.ddf_repair.specs.Choose.{array_room, part_room, room_for};

use crate::first::Target;
use crate::spares::extent_on;
use ddf_bytes::{Guid, NoMemory};
use ddf_config::{Array, Config, ElementPlan, Extent, Member, Seat, extents};
use ddf_plan::{Change, element_strip};
use indexmap::IndexMap;
use std::alloc::Global;

/// The least extent on a disk for a position of this element.
fn part_room(
    alloc: Global,
    members: &IndexMap<u32, Member>,
    all: &[Extent],
    seats: &[Seat],
    elements: usize,
    part: &Option<ElementPlan>,
    reference: u32,
) -> Result<Option<Extent>, NoMemory>
    ensures { IfOk result (λ found. found ≡ part_room members.now.entries all.now seats.now elements part.now reference) }
{
    match part {
        Some(plan) => {
            let strip = element_strip(elements, plan);
            extent_on(alloc, members, all, seats, strip, plan.blocks, reference)
        }
        None => Ok(None),
    }
}

fn room_in(
    alloc: Global,
    members: &IndexMap<u32, Member>,
    arrays: &IndexMap<Guid, Array>,
    seats: &[Seat],
    array: &Array,
    element: u8,
    reference: u32,
) -> Result<Option<Extent>, NoMemory>
    ensures { IfOk result (λ found. found ≡ array_room members.now.entries (extents arrays.now.entries) seats.now array.now element reference) }
{
    let all = extents(alloc, arrays)?;
    let parts = array.elements.items();
    match parts.get(usize::from(element)) {
        Some(part) => part_room(
            alloc,
            members,
            all.as_slice(),
            seats,
            parts.len(),
            part,
            reference,
        ),
        None => Ok(None),
    }
}

/// The least extent on a disk for a position of this element of an array.
fn array_room(
    alloc: Global,
    config: &Config,
    seats: &[Seat],
    array: &Array,
    element: u8,
    reference: u32,
) -> Result<Option<Extent>, NoMemory>
    ensures { IfOk result (λ found. found ≡ array_room config.now.members (extents config.now.arrays) seats.now array.now element reference) }
{
    room_in(
        alloc,
        &config.members,
        &config.arrays,
        seats,
        array,
        element,
        reference,
    )
}

/// The extent on a disk to which a position of an array can move: the least, within the disk's configured size and at or below its
/// seat's floor, that has no sector of another. None where the disk has no such room, is no member or has no seat, or where no disk
/// tells of the position's element.
///
/// # Errors
/// Memory ran out.
#[tactic(auto, unfolding(crate::specs::Choose::room_for))]
pub fn room_for(
    alloc: Global,
    config: &Config,
    array: &Guid,
    seats: &[Seat],
    target: &Target,
    reference: u32,
) -> Result<Option<Extent>, NoMemory>
    ensures { IfOk result (λ found. found ≡ room_for config.now array.now seats.now target.now reference) }
{
    match config.arrays.get(array) {
        Some(found) => array_room(alloc, config, seats, found, target.element, reference),
        None => Ok(None),
    }
}

/// The change by which a position moves to this extent, which holds what the position holds.
pub fn go_back(array: &Guid, target: &Target, found: Extent) -> Change
    ensures { result ≡ Return array.now target.now.element target.now.position found.reference found.start }
{
    Change::Return {
        array: *array,
        element: target.element,
        position: target.position,
        reference: found.reference,
        start: found.start,
    }
}
