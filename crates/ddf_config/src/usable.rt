//! Why an array can't be used: read by numbers that make none it would give other blocks. docs/REFUSALS.md#19-shape
ghost use Rattle.std.specs.Prelude.{◌≡◌, IfOk};
ghost use Rattle.std.specs.List.{list_any};
ghost use Rattle.ddf_config.specs.Unusable.{passes_floor, is_served_on, unusable};

use crate::extent::array_extents;
use crate::level::unserved_level;
use crate::refusal::{first_refusal, refuse_if};
use crate::seat::floor_of;
use crate::served::is_served;
use crate::{Array, Extent, ExtentsByDisk, Member, Refusal, Seat};
use ddf_bytes::{Guid, NoMemory};
use indexmap::IndexMap;
use std::alloc::Global;

/// Whether an extent ends past the floor of its member's seat, where it meets the disk's headers or its workspace. A member
/// without a seat has no floor.
pub fn passes_floor(seats: &[Seat], one: &Extent) -> bool
    ensures { result ≡ passes_floor seats.now one.now }
{
    match floor_of(seats, one.reference) {
        Some(floor) => u128::from(floor) < u128::from(one.start) + u128::from(one.blocks),
        None => false,
    }
}

fn some_passes_floor(seats: &[Seat], own: &[Extent]) -> bool
    ensures { result ≡ list_any (passes_floor seats.now) own.now }
{
    own.iter().any(|one| passes_floor(seats, one))
}

/// Whether an array is served, and its extents end at or below the floors of its members' seats.
fn is_served_on(
    alloc: Global,
    members: &IndexMap<u32, Member>,
    seats: &[Seat],
    all: &ExtentsByDisk,
    array: &Array,
) -> Result<bool, NoMemory>
    ensures { IfOk result (λ served. served ≡ is_served_on members.now.entries seats.now all.now array.now) }
{
    let served = is_served(alloc, members, all, array)?;
    let own = array_extents(alloc, array)?;
    Ok(served && !some_passes_floor(seats, own.as_slice()))
}

/// Why an array can't be used, by the first cause that holds: `Level`, a primary level isn't served; `Shape`, the
/// numbers make no array, or an extent ends past its disk's size or the floor of its seat or meets another;
/// `Lost`, an element is unknown. `all` are the extents of the configuration, and the GUID is the array's. A
/// member without a seat has no floor. None where the array can be used.
///
/// # Errors
/// Memory ran out.
pub fn unusable(
    alloc: Global,
    members: &IndexMap<u32, Member>,
    seats: &[Seat],
    all: &ExtentsByDisk,
    guid: &Guid,
    array: &Array,
) -> Result<Option<Refusal>, NoMemory>
    ensures { IfOk result (λ refusal. refusal ≡ unusable members.now.entries seats.now all.now guid.now array.now) }
{
    let served = is_served_on(alloc, members, seats, all, array)?;
    Ok(first_refusal(&[
        unserved_level(guid, array),
        refuse_if(!served, Refusal::Shape),
        refuse_if(!array.is_complete(), Refusal::Lost),
    ]))
}
