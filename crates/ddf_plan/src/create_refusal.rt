//! Why a new array is refused, in the order of `create`. docs/GROUPS.md#orders-of-refusal
ghost use Rattle.std.specs.Prelude.{◌≡◌, ◌||◌, find, map, nat_eq, is_some, IfOk};
ghost use Rattle.std.specs.Map.{lookup};
ghost use Rattle.std.specs.List.{list_any};
ghost use Rattle.ddf_config.specs.declared.extent.Extent.{Extent};
ghost use Rattle.ddf_config.specs.declared.refusal.Refusal.TheVariants.{InUse};
ghost use Rattle.ddf_config.specs.Members.{same_guid};
ghost use Rattle.ddf_config.specs.Refusals.{first_refusal};
ghost use Rattle.ddf_plan.specs.Refusals.{refuse_first};
ghost use Rattle.ddf_plan.specs.CreateRefusal.{references, has_named, is_taken, names_twice, is_no_shape, is_spare_disk, no_extent, has_more, passes_most, create_causes};

use crate::lose::is_among;
use crate::refuse::not_current;
use ddf_bytes::{Guid, NoMemory};
use ddf_config::{
    Array, Config, ElementPlan, Extent, Position, Refusal, Seat, array_extents, first_refusal,
    has_shapes, has_tiers, refuse_if, slot_of, unserved_level,
};
use ddf_name::{print_alike, prints_as_place};
use std::alloc::Global;

/// The references of an array's positions, by element and position.
///
/// # Errors
/// Memory ran out.
pub fn references(alloc: Global, array: &Array) -> Result<Vec<u32>, NoMemory>
    ensures { IfOk result (λ all. all.items ≡ references array.now) }
{
    let own = array_extents(alloc, array)?;
    extent_references(alloc, own.as_slice())
}

fn extent_references(alloc: Global, own: &[Extent]) -> Result<Vec<u32>, NoMemory>
    ensures { IfOk result (λ all. all.items ≡ map (λ (one : Extent). one.reference) own.now) }
{
    let mut all = Vec::with_capacity(alloc, own.len())?;
    for one in own {
        all.push(one.reference)?;
    }
    Ok(all)
}

/// Whether the name of an array of the configuration prints as this one does.
pub fn has_named(config: &Config, name: &[u8; 16]) -> bool
    ensures { result ≡ has_named config.now name.now }
{
    config
        .arrays
        .iter()
        .any(|(_, array)| print_alike(&array.name, name))
}

/// Whether a new array can't be called so: its name prints as one of the configuration does, or as a place in the table.
fn is_taken(config: &Config, name: &[u8; 16]) -> bool
    ensures { result ≡ is_taken config.now name.now }
{
    prints_as_place(name) || has_named(config, name)
}

/// Whether a disk is named twice.
fn names_twice(references: &[u32]) -> bool
    ensures { result ≡ names_twice references.now }
{
    let mut rest = references;
    while let Some((first, others)) = rest.split_first() {
        if is_among(others, *first) {
            return true;
        }
        rest = others;
    }
    false
}

fn is_no_shape(alloc: Global, array: &Array, named: &[u32]) -> Result<bool, NoMemory>
    requires { named.now ≡ references array.now }
    ensures { IfOk result (λ is. is ≡ is_no_shape array.now) }
{
    let tiers = has_tiers(alloc, array)?;
    Ok(!has_shapes(array) || !tiers || names_twice(named))
}

fn is_spare_disk(config: &Config, reference: u32) -> bool
    ensures { result ≡ is_spare_disk config.now reference }
{
    match config.members.get(&reference) {
        Some(member) => member.spare.is_spare(),
        None => false,
    }
}

fn first_spare(config: &Config, references: &[u32]) -> Option<u32>
    ensures { result ≡ find (is_spare_disk config.now) references.now }
{
    references
        .iter()
        .copied()
        .find(|reference| is_spare_disk(config, *reference))
}

/// The refusal of the first position without room.
pub(crate) fn no_extent(seats: &[Seat], first: Option<Position>) -> Option<Refusal>
    ensures { result ≡ no_extent seats.now first }
{
    match first {
        Some(position) => Some(Refusal::NoExtent(slot_of(seats, position.reference))),
        None => None,
    }
}

fn spare_in_use(config: &Config, seats: &[Seat], references: &[u32]) -> Option<Refusal>
    ensures { result ≡ refuse_first seats.now (is_spare_disk config.now) InUse references.now }
{
    match first_spare(config, references) {
        Some(reference) => Some(Refusal::InUse(slot_of(seats, reference))),
        None => None,
    }
}

fn has_array(config: &Config, guid: Guid) -> bool
    ensures { result ≡ is_some (lookup (same_guid guid) config.now.arrays) }
{
    config.arrays.contains_key(&guid)
}

/// Whether an element has more members than a bound.
fn has_more(most: u16, part: &Option<ElementPlan>) -> bool
    ensures { result ≡ has_more most part.now }
{
    match part {
        Some(element) => usize::from(most) < element.positions.len(),
        None => false,
    }
}

fn some_has_more(most: u16, parts: &[Option<ElementPlan>]) -> bool
    ensures { result ≡ list_any (has_more most) parts.now }
{
    parts.iter().any(|part| has_more(most, part))
}

/// Whether an element has more members than the bound, where there is one.
fn passes_most(most: Option<u16>, array: &Array) -> bool
    ensures { result ≡ passes_most most array.now }
{
    match most {
        Some(most) => some_has_more(most, array.elements.items()),
        None => false,
    }
}

/// The first cause, where it is known whether the shape refuses.
fn first_of_create(
    config: &Config,
    seats: &[Seat],
    guid: Guid,
    array: &Array,
    named: &[u32],
    no_shape: bool,
    most: Option<u16>,
) -> Option<Refusal>
    requires named { named.now ≡ references array.now }
    requires shape { no_shape ≡ (passes_most most array.now || is_no_shape array.now) }
    ensures { result ≡ first_refusal (create_causes most config.now seats.now guid array.now) }
{
    first_refusal(&[
        not_current(config, seats, named),
        refuse_if(is_taken(config, &array.name), Refusal::NameTaken),
        unserved_level(&guid, array),
        refuse_if(no_shape, Refusal::Shape),
        refuse_if(has_array(config, guid), Refusal::Clash(guid)),
        spare_in_use(config, seats, named),
    ])
}

/// Why an array can't be created, the room for its extents and the sequence number aside. `most` bounds the members of an
/// element, where a bound is known.
pub(crate) fn create_cause(
    alloc: Global,
    config: &Config,
    seats: &[Seat],
    guid: Guid,
    array: &Array,
    most: Option<u16>,
) -> Result<Option<Refusal>, NoMemory>
    ensures { IfOk result (λ refusal. refusal ≡ first_refusal (create_causes most config.now seats.now guid array.now)) }
{
    let named = references(alloc, array)?;
    let no_shape = is_no_shape(alloc, array, named.as_slice())?;
    let no_shape = passes_most(most, array) || no_shape;
    Ok(first_of_create(config, seats, guid, array, named.as_slice(), no_shape, most))
}
