//! The use of a disk as a spare, and what refuses it: an array that lies on it. docs/GROUPS.md#changes
ghost use Rattle.std.specs.Prelude.{◌≡◌, IfOk, filter, is_some};
ghost use Rattle.std.specs.List.{list_any, list_all};
ghost use Rattle.std.specs.Map.{keys_of};
ghost use Rattle.ddf_config.specs.Members.{same_guid};
ghost use Rattle.ddf_plan.specs.Spare.{use_in_order, can_have_spare, lacks_array, position_refers, part_refers, array_refers, holds_extent, spare_causes};
ghost use Rattle.ddf_config.specs.Refusals.{first_refusal};

use crate::refuse::not_current;
use ddf_bytes::{Guid, NoMemory, Seq};
use ddf_config::{Array, Config, ElementPlan, Position, Refusal, Seat, SpareUse, slot_of};
use indexmap::IndexMap;
use std::alloc::Global;

fn has_guid(guids: &[Guid], guid: Guid) -> bool
    ensures { result ≡ list_any (same_guid guid) guids.now }
{
    guids.iter().any(|other| guid == *other)
}

/// The use with its arrays in table order.
pub(crate) fn use_in_order(
    alloc: Global,
    arrays: &IndexMap<Guid, Array>,
    use_as: &SpareUse,
) -> Result<SpareUse, NoMemory>
    ensures { IfOk result (λ ordered. ordered ≡ use_in_order arrays.now.entries use_as.now) }
{
    match use_as {
        SpareUse::No => Ok(SpareUse::No),
        SpareUse::Global => Ok(SpareUse::Global),
        SpareUse::Revertible => Ok(SpareUse::Revertible),
        SpareUse::Dedicated(guids) => {
            let ordered = guids_in_order(alloc, arrays, guids.items())?;
            Ok(SpareUse::Dedicated(Seq::new(ordered)))
        }
    }
}

fn guids_in_order(
    alloc: Global,
    arrays: &IndexMap<Guid, Array>,
    guids: &[Guid],
) -> Result<Vec<Guid>, NoMemory>
    ensures { IfOk result (λ ordered. ordered.items ≡ filter (λ guid. list_any (same_guid guid) guids.now) (keys_of arrays.now.entries)) }
{
    let mut ordered = Vec::with_capacity(alloc, guids.len())?;
    for guid in arrays.keys() {
        if has_guid(guids, *guid) {
            ordered.push(*guid)?;
        }
    }
    Ok(ordered)
}

fn has_known_part(parts: &[Option<ElementPlan>]) -> bool
    ensures { result ≡ list_any (λ part. is_some part) parts.now }
{
    parts.iter().any(|part| part.is_some())
}

/// Whether some disk tells of an element of the array.
fn can_have_spare(config: &Config, guid: Guid) -> bool
    ensures { result ≡ can_have_spare config.now guid }
{
    match config.arrays.get(&guid) {
        Some(array) => has_known_part(array.elements.items()),
        None => false,
    }
}

fn all_can_have_spare(config: &Config, guids: &[Guid]) -> bool
    ensures { result ≡ list_all (can_have_spare config.now) guids.now }
{
    guids.iter().all(|guid| can_have_spare(config, *guid))
}

fn lacks_array(config: &Config, use_as: &SpareUse) -> bool
    ensures { result ≡ lacks_array config.now use_as.now }
{
    match use_as {
        SpareUse::No | SpareUse::Global | SpareUse::Revertible => false,
        SpareUse::Dedicated(guids) => !all_can_have_spare(config, guids.items()),
    }
}

pub(crate) fn positions_refer(positions: &[Position], reference: u32) -> bool
    ensures { result ≡ list_any (position_refers reference) positions.now }
{
    positions
        .iter()
        .any(|position| position.reference == reference)
}

fn part_refers(part: &Option<ElementPlan>, reference: u32) -> bool
    ensures { result ≡ part_refers reference part.now }
{
    match part {
        Some(element) => positions_refer(element.positions.as_slice(), reference),
        None => false,
    }
}

pub(crate) fn array_refers(array: &Array, reference: u32) -> bool
    ensures { result ≡ array_refers reference array.now }
{
    array
        .elements
        .items()
        .iter()
        .any(|part| part_refers(part, reference))
}

/// Whether a position of some array is on the disk.
pub fn holds_extent(config: &Config, reference: u32) -> bool
    ensures { result ≡ holds_extent config.now reference }
{
    config
        .arrays
        .iter()
        .any(|(_, array)| array_refers(array, reference))
}

/// Why a disk can't get this use as a spare, the sequence number aside.
pub(crate) fn spare_cause(
    config: &Config,
    seats: &[Seat],
    reference: u32,
    use_as: &SpareUse,
) -> Option<Refusal>
    ensures { result ≡ first_refusal (spare_causes config.now seats.now reference use_as.now) }
{
    if let Some(refusal) = not_current(config, seats, &[reference]) {
        return Some(refusal);
    }
    if lacks_array(config, use_as) {
        return Some(Refusal::NoArray);
    }
    if holds_extent(config, reference) {
        return Some(Refusal::InUse(slot_of(seats, reference)));
    }
    None
}
