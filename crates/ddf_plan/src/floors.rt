//! Whether the extents of a new array have room.
ghost use Rattle.std.specs.Prelude.{◌≡◌, ◌≤◌, find, length, IfOk};
ghost use Rattle.ddf_config.specs.Extents.{extents};
ghost use Rattle.ddf_config.specs.Refusals.{part_refusal};
ghost use Rattle.ddf_plan.specs.Floors.{lacks_extent, extent_refusal, extents_refusal};

use crate::create::element_strip;
use crate::create_refusal::no_extent;
use crate::{Array, Change, Config, ElementPlan, Position, Refusal, Seat};
use ddf_bytes::NoMemory;
use ddf_config::{Extent, extents, passes_floor, start_on};
use std::alloc::Global;

/// Whether a position has no start, or its extent would end past the floor of its seat.
fn lacks_extent(
    alloc: Global,
    config: &Config,
    all: &[Extent],
    floors: &[Seat],
    strip: u64,
    blocks: u64,
    position: &Position,
) -> Result<bool, NoMemory>
    requires some { 1 ≤ strip }
    requires all { all.now ≡ extents config.now.arrays }
    ensures { IfOk result (λ lacks. lacks ≡ lacks_extent config.now floors.now strip blocks position.now) }
{
    let reference = position.reference;
    match start_on(alloc, &config.members, all, strip, blocks, reference)? {
        Some(start) => {
            let extent = Extent {
                reference,
                start,
                blocks,
            };
            Ok(passes_floor(floors, &extent))
        }
        None => Ok(true),
    }
}

fn first_without_extent(
    alloc: Global,
    config: &Config,
    all: &[Extent],
    floors: &[Seat],
    strip: u64,
    blocks: u64,
    positions: &[Position],
) -> Result<Option<Position>, NoMemory>
    requires some { 1 ≤ strip }
    requires all { all.now ≡ extents config.now.arrays }
    ensures { IfOk result (λ first. first ≡ find (lacks_extent config.now floors.now strip blocks) positions.now) }
{
    for position in positions {
        let lacks = lacks_extent(alloc, config, all, floors, strip, blocks, position)?;
        if lacks {
            return Ok(Some(*position));
        }
    }
    Ok(None)
}

fn extent_refusal(
    alloc: Global,
    config: &Config,
    all: &[Extent],
    floors: &[Seat],
    seats: &[Seat],
    elements: usize,
    part: &Option<ElementPlan>,
) -> Result<Option<Refusal>, NoMemory>
    requires { all.now ≡ extents config.now.arrays }
    ensures { IfOk result (λ refusal. refusal ≡ extent_refusal config.now floors.now seats.now elements part.now) }
{
    match part {
        Some(element) => {
            let strip = element_strip(elements, element);
            let positions = element.positions.as_slice();
            let first = first_without_extent(
                alloc,
                config,
                all,
                floors,
                strip,
                element.blocks,
                positions,
            )?;
            Ok(no_extent(seats, first))
        }
        None => Ok(None),
    }
}

fn parts_refusal(
    alloc: Global,
    config: &Config,
    all: &[Extent],
    floors: &[Seat],
    seats: &[Seat],
    parts: &[Option<ElementPlan>],
) -> Result<Option<Refusal>, NoMemory>
    requires { all.now ≡ extents config.now.arrays }
    ensures { IfOk result (λ refusal. refusal ≡ part_refusal (extent_refusal config.now floors.now seats.now (length parts.now)) parts.now) }
{
    for part in parts {
        if let Some(refusal) = extent_refusal(
            alloc,
            config,
            all,
            floors,
            seats,
            parts.len(),
            part,
        )? {
            return Ok(Some(refusal));
        }
    }
    Ok(None)
}

fn array_refusal(
    alloc: Global,
    config: &Config,
    floors: &[Seat],
    seats: &[Seat],
    array: &Array,
) -> Result<Option<Refusal>, NoMemory>
    ensures { IfOk result (λ refusal. refusal ≡ part_refusal (extent_refusal config.now floors.now seats.now (length array.now.elements)) array.now.elements) }
{
    let all = extents(alloc, &config.arrays)?;
    parts_refusal(
        alloc,
        config,
        all.as_slice(),
        floors,
        seats,
        array.elements.items(),
    )
}

/// Why the extents of a change's new array have no room: `NoExtent` with the slot of the first position, by element and
/// position, whose disk has no free start for it within its configured size, or whose extent would end past the floor of its
/// disk's seat among `floors`. None where each has room, and for every other change. A member without a seat among `floors` has
/// no floor. `seats` name the slot: 64 for a member without one.
///
/// # Errors
/// Memory ran out.
#[tactic(auto, unfolding(crate::specs::Floors::extents_refusal))]
pub fn extents_refusal(
    alloc: Global,
    config: &Config,
    change: &Change,
    floors: &[Seat],
    seats: &[Seat],
) -> Result<Option<Refusal>, NoMemory>
    ensures { IfOk result (λ refusal. refusal ≡ extents_refusal config.now change.now floors.now seats.now) }
{
    match change {
        Change::Create(_, array) => array_refusal(alloc, config, floors, seats, array),
        Change::Lose(_)
        | Change::Delete(_)
        | Change::Spare(_, _)
        | Change::Fail(_)
        | Change::Mark(_)
        | Change::Unmark(_, _)
        | Change::Rewind(_)
        | Change::Begin { .. }
        | Change::Progress { .. }
        | Change::Finish { .. }
        | Change::Return { .. } => Ok(None),
    }
}
