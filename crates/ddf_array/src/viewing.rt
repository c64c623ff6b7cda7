//! The view of an array over seats, or why there is none: what its records say is judged before a block of it is placed. docs/PLACING.md#numbers
ghost use Rattle.std.specs.Prelude.{◌≡◌, ◌++◌, ◌+◌, ◌<◌, ◌^◌, option_to_list, map, filter_map, length, All, OnOk, IfOk, IfSome, Some};
ghost use Rattle.ddf_config.specs.Extents.{extents};
ghost use Rattle.ddf_config.specs.Unusable.{unusable};
ghost use Rattle.ddf_array.specs.Places.{Ends};
ghost use Rattle.ddf_array.specs.Volume.{IsPart};
ghost use Rattle.ddf_array.specs.Viewing.{seat_slot, place_of, part_of, known_part, parts_of, view_by, view_of, IsViewAnswer};

use crate::{Part, Place, View, ViewFault};
use ddf_bytes::{Guid, NoMemory, Seq};
use ddf_config::{
    Array, Config, ElementPlan, Extent, ExtentsByDisk, Position, Refusal, Seat, array_tiers,
    element_shape, floor_of, slot_of, unusable,
};
use std::alloc::Global;

/// The slot of an extent's disk, where that has a seat and the extent ends at or below its floor.
fn seat_slot(seats: &[Seat], one: &Extent) -> Option<usize>
    ensures value { result ≡ seat_slot seats.now one.now }
    ensures ends { IfSome result (λ slot. one.now.start + one.now.blocks < 2 ^ 64) }
{
    let floor = floor_of(seats, one.reference)?;
    if u128::from(one.start) + u128::from(one.blocks) <= u128::from(floor) {
        Some(slot_of(seats, one.reference))
    } else {
        None
    }
}

fn place_of(seats: &[Seat], blocks: u64, position: &Position) -> Place
    ensures value { result ≡ place_of seats.now blocks position.now }
    ensures ends { Ends result blocks }
{
    let extent = Extent {
        reference: position.reference,
        start: position.start,
        blocks,
    };
    Place {
        slot: seat_slot(seats, &extent),
        start: position.start,
        synced: position.synced,
        row: position.row,
    }
}

fn places_of(
    alloc: Global,
    seats: &[Seat],
    blocks: u64,
    positions: &[Position],
) -> Result<Vec<Place>, NoMemory>
    ensures value { IfOk result (λ all. all.items ≡ map (place_of seats.now blocks) positions.now) }
    ensures ends { IfOk result (λ all. All (λ place. Ends place blocks) all.items) }
{
    let mut all = Vec::with_capacity(alloc, positions.len())?;
    for position in positions {
        all.push(place_of(seats, blocks, position))?;
    }
    Ok(all)
}

/// An element over the seats. None where its numbers make no shape.
fn part_of(
    alloc: Global,
    seats: &[Seat],
    elements: usize,
    element: &ElementPlan,
) -> Result<Option<Part>, NoMemory>
    ensures value { IfOk result (λ part. part ≡ part_of seats.now elements element.now) }
    ensures sound { IfOk result (λ part. IfSome part IsPart) }
{
    let Some(shape) = element_shape(elements, element) else {
        return Ok(None);
    };
    let places = places_of(alloc, seats, element.blocks, element.positions.as_slice())?;
    Ok(Some(Part {
        shape,
        places: Seq::new(places),
    }))
}

fn known_part(
    alloc: Global,
    seats: &[Seat],
    elements: usize,
    part: &Option<ElementPlan>,
) -> Result<Option<Part>, NoMemory>
    ensures value { IfOk result (λ known. known ≡ known_part seats.now elements part.now) }
    ensures sound { IfOk result (λ known. IfSome known IsPart) }
{
    match part {
        Some(element) => part_of(alloc, seats, elements, element),
        None => Ok(None),
    }
}

fn push_part(
    all: &mut Vec<Part>,
    alloc: Global,
    seats: &[Seat],
    elements: usize,
    part: &Option<ElementPlan>,
) -> Result<(), NoMemory>
    ensures value { OnOk result (all.new.items ≡ all.old.items ++ option_to_list (known_part seats.now elements part.now)) }
    ensures sound { OnOk result (All IsPart all.old.items → All IsPart all.new.items) }
{
    if let Some(known) = known_part(alloc, seats, elements, part)? {
        all.push(known)?;
    }
    Ok(())
}

fn parts_of(
    alloc: Global,
    seats: &[Seat],
    parts: &[Option<ElementPlan>],
) -> Result<Vec<Part>, NoMemory>
    ensures value { IfOk result (λ all. all.items ≡ parts_of seats.now parts.now) }
    ensures sound { IfOk result (λ all. All IsPart all.items) }
{
    let mut all = Vec::with_capacity(alloc, parts.len())?;
    for part in parts {
        push_part(&mut all, alloc, seats, parts.len(), part)?;
    }
    Ok(all)
}

/// Why an array can't be used over these seats: the first of a level that isn't served, numbers that make no array or extents that
/// don't lie well, and an element that is unknown. The GUID is the array's.
///
/// # Errors
/// Memory ran out.
pub fn use_refusal(
    alloc: Global,
    config: &Config,
    seats: &[Seat],
    guid: &Guid,
    array: &Array,
) -> Result<Option<Refusal>, NoMemory>
    ensures { IfOk result (λ refusal. refusal ≡ unusable config.now.members seats.now (extents config.now.arrays) guid.now array.now) }
{
    let all = ExtentsByDisk::new(alloc, &config.arrays)?;
    let refusal = unusable(alloc, &config.members, seats, &all, guid, array)?;
    Ok(refusal)
}

fn view_array(
    alloc: Global,
    config: &Config,
    seats: &[Seat],
    guid: &Guid,
    array: &Array,
) -> Result<View, ViewFault>
    ensures { IsViewAnswer (view_by config.now guid.now seats.now (Some array.now)) result }
{
    if let Some(refusal) = use_refusal(alloc, config, seats, guid, array)? {
        return Err(ViewFault::Refused(refusal));
    }
    let Some(tiers) = array_tiers(alloc, array)? else {
        return Err(ViewFault::Refused(Refusal::Shape));
    };
    let parts = parts_of(alloc, seats, array.elements.items())?;
    prove!(tiers.elements().len() <= 16);
    Ok(View::of(array.is_marked(), tiers, Seq::new(parts)))
}

impl View {
    /// The view of an array over the seats of its group.
    ///
    /// # Errors
    /// `Refused` with the first that applies: `NoArray`, the array isn't there; `Level`, a primary level isn't
    /// served; `Shape`, the numbers make no array, or an extent ends past its disk's size or the floor of its seat
    /// or meets another; `Lost`, an element is unknown. `Memory` where memory runs out.
    pub fn new(
        alloc: Global,
        config: &Config,
        guid: &Guid,
        seats: &[Seat],
    ) -> Result<View, ViewFault>
        ensures { IsViewAnswer (view_of config.now guid.now seats.now) result }
    {
        match config.arrays.get(guid) {
            Some(array) => view_array(alloc, config, seats, guid, array),
            None => Err(ViewFault::Refused(Refusal::NoArray)),
        }
    }
}
