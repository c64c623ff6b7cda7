//! A new array: where its extents lie, and its state. One that keeps its data twice begins marked: nobody has made its copies agree.
//! docs/GROUPS.md#changes
ghost use Rattle.std.specs.Prelude.{◌≡◌, ◌≤◌, length, map, option_map, IfOk};
ghost use Rattle.ddf_plan.specs.Create.{element_strip, laid_position, laid_element, laid_parts, created_state, created};

use crate::mark::MARK;
use arrayvec::ArrayVec;
use ddf_bytes::{NoMemory, Seq};
use ddf_config::{Array, ElementPlan, Extent, Member, Position, start_on, strip_sectors};
use indexmap::IndexMap;
use std::alloc::Global;

/// The sectors of a strip of an element of an array with so many elements.
pub fn element_strip(elements: usize, element: &ElementPlan) -> u64
    ensures value { result ≡ element_strip elements element.now }
    ensures some { 1 ≤ result }
{
    match strip_sectors(elements, element) {
        Some(strip) => strip,
        None => 1,
    }
}

fn laid_position(
    alloc: Global,
    members: &IndexMap<u32, Member>,
    all: &[Extent],
    strip: u64,
    blocks: u64,
    position: Position,
) -> Result<Position, NoMemory>
    requires { 1 ≤ strip }
    ensures { IfOk result (λ placed. placed ≡ laid_position members.now.entries all.now strip blocks position) }
{
    let start = start_on(alloc, members, all, strip, blocks, position.reference)?;
    Ok(Position {
        start: start.unwrap_or(position.start),
        ..position
    })
}

fn laid_positions(
    alloc: Global,
    members: &IndexMap<u32, Member>,
    all: &[Extent],
    strip: u64,
    blocks: u64,
    positions: &[Position],
) -> Result<ArrayVec<Position, 64>, NoMemory>
    requires strip { 1 ≤ strip }
    requires few { length positions.now ≤ 64 }
    ensures { IfOk result (λ placed. placed.items ≡ map (laid_position members.now.entries all.now strip blocks) positions.now) }
{
    let mut placed = ArrayVec::new();
    for position in positions {
        placed.push(laid_position(alloc, members, all, strip, blocks, *position)?);
    }
    Ok(placed)
}

fn laid_part(
    alloc: Global,
    members: &IndexMap<u32, Member>,
    all: &[Extent],
    elements: usize,
    part: &Option<ElementPlan>,
) -> Result<Option<ElementPlan>, NoMemory>
    ensures { IfOk result (λ placed. placed ≡ option_map (laid_element members.now.entries all.now elements) part.now) }
{
    match part {
        Some(element) => {
            let strip = element_strip(elements, element);
            let positions = laid_positions(
                alloc,
                members,
                all,
                strip,
                element.blocks,
                element.positions.as_slice(),
            )?;
            Ok(Some(element.with_positions(positions)))
        }
        None => Ok(None),
    }
}

fn laid_parts(
    alloc: Global,
    members: &IndexMap<u32, Member>,
    all: &[Extent],
    array: &Array,
) -> Result<Vec<Option<ElementPlan>>, NoMemory>
    ensures { IfOk result (λ placed. placed.items ≡ laid_parts members.now.entries all.now array.now) }
{
    let parts = array.elements.items();
    let mut placed = Vec::with_capacity(alloc, parts.len())?;
    for part in parts {
        let next = laid_part(alloc, members, all, parts.len(), part)?;
        placed.push(next)?;
    }
    Ok(placed)
}

fn created_state(array: &Array) -> u8
    ensures { result ≡ created_state array.now }
{
    if array.is_redundant() { MARK } else { 0 }
}

/// A new array, with its extents at their starts, and marked where it is redundant.
pub(crate) fn created(
    alloc: Global,
    members: &IndexMap<u32, Member>,
    all: &[Extent],
    array: &Array,
) -> Result<Array, NoMemory>
    ensures { IfOk result (λ new. new ≡ created members.now.entries all.now array.now) }
{
    let parts = laid_parts(alloc, members, all, array)?;
    Ok(Array {
        name: array.name,
        number: array.number,
        secondary: array.secondary,
        elements: Seq::new(parts),
        state: created_state(array),
        init: array.init,
    })
}
