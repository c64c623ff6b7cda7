//! The low states of arrays, by the configuration alone. docs/GROUPS.md#state
ghost use Rattle.std.specs.Prelude.{◌≡◌, ◌<◌, IfOk};
ghost use Rattle.std.specs.List.{list_any};
ghost use Rattle.ddf_config.specs.States.{is_out, has_position_out, low_state, takes_low_state, state_with_low, all_with_low, with_low_states};

use crate::served::is_served;
use crate::table::put_last;
use crate::within::is_within;
use crate::{Array, ElementPlan, ExtentsByDisk, Member, Position};
use ddf_bytes::{Guid, NoMemory};
use indexmap::IndexMap;
use std::alloc::Global;

/// The low state of an array that isn't within its level: failed.
const FAILED: u8 = 4;
/// The low state of an array with a position out of sync: degraded.
const DEGRADED: u8 = 1;
/// The low state of every other array: optimal.
const OPTIMAL: u8 = 0;

fn is_out(position: &Position) -> bool
    ensures { result ≡ is_out position.now }
{
    !position.synced
}

fn has_out(positions: &[Position]) -> bool
    ensures { result ≡ list_any is_out positions.now }
{
    positions.iter().any(is_out)
}

fn has_position_out(part: &Option<ElementPlan>) -> bool
    ensures { result ≡ has_position_out part.now }
{
    match part {
        Some(element) => has_out(element.positions.as_slice()),
        None => false,
    }
}

fn has_part_out(parts: &[Option<ElementPlan>]) -> bool
    ensures { result ≡ list_any has_position_out parts.now }
{
    parts.iter().any(has_position_out)
}

/// The low state that an array has by the configuration alone: 4 (failed) where it isn't within its level,
/// else 1 (degraded) where a position is out of sync, else 0 (optimal).
pub fn low_state(members: &IndexMap<u32, Member>, array: &Array) -> u8
    ensures value { result ≡ low_state members.now.entries array.now }
    ensures low { result < 8 }
{
    if !is_within(members, array) {
        FAILED
    } else if has_part_out(array.elements.items()) {
        DEGRADED
    } else {
        OPTIMAL
    }
}

fn takes_low_state(
    alloc: Global,
    members: &IndexMap<u32, Member>,
    all: &ExtentsByDisk,
    array: &Array,
) -> Result<bool, NoMemory>
    ensures { IfOk result (λ takes. takes ≡ takes_low_state members.now.entries all.now array.now) }
{
    let served = is_served(alloc, members, all, array)?;
    Ok(array.is_complete() && !array.is_deleted() && served)
}

fn state_with_low(
    alloc: Global,
    members: &IndexMap<u32, Member>,
    all: &ExtentsByDisk,
    array: &Array,
) -> Result<u8, NoMemory>
    ensures { IfOk result (λ state. state ≡ state_with_low members.now.entries all.now array.now) }
{
    let takes = takes_low_state(alloc, members, all, array)?;
    if takes {
        Ok(array.state / 8 * 8 + low_state(members, array))
    } else {
        Ok(array.state)
    }
}

/// The arrays with their low states among the extents of all arrays.
fn all_with_low(
    alloc: Global,
    members: &IndexMap<u32, Member>,
    all: &ExtentsByDisk,
    arrays: IndexMap<Guid, Array>,
) -> Result<IndexMap<Guid, Array>, NoMemory>
    ensures { IfOk result (λ after. after.entries ≡ all_with_low members.now.entries all.now arrays.entries) }
{
    let mut after = IndexMap::new(alloc);
    for (guid, array) in arrays {
        let state = state_with_low(alloc, members, all, &array)?;
        put_last(&mut after, guid, Array { state, ..array })?;
    }
    Ok(after)
}

/// The arrays with their low states: each that is complete, served and not deleted gets its low state by the
/// configuration alone. Every other array, and every other bit of a state, stays.
///
/// # Errors
/// Memory ran out.
pub fn with_low_states(
    alloc: Global,
    members: &IndexMap<u32, Member>,
    arrays: IndexMap<Guid, Array>,
) -> Result<IndexMap<Guid, Array>, NoMemory>
    ensures { IfOk result (λ all. all.entries ≡ with_low_states members.now.entries arrays.entries) }
{
    let all = ExtentsByDisk::new(alloc, &arrays)?;
    all_with_low(alloc, members, &all, arrays)
}
