//! The associated spares of an array.
ghost use Rattle.std.specs.Prelude.{◌≡◌, ◌==◌, List, ℕ, filter, map, nat_eq, is_some, position, IfOk};
ghost use Rattle.std.specs.Map.{lookup};
ghost use Rattle.std.specs.List.{list_all, list_any};
ghost use Rattle.std.specs.Str.{bytes_eq};
ghost use Rattle.ddf_rewrite.specs.Elements.{add_spare, contains, has_places, is_spare_for, kept_spare, no_reference, spares_after, spares_of, with_spare};

use ddf_bytes::{Guid, NoMemory};
use ddf_config::{Config, Member, SpareUse};
use indexmap::IndexMap;
use std::alloc::Global;

/// The reference that stands in a free place.
pub(crate) const NO_REFERENCE: u32 = 0xFFFF_FFFF;

/// Whether a reference is among others.
fn contains(references: &[u32], reference: u32) -> bool
    ensures { result ≡ contains references.now reference }
{
    references.iter().any(|other| *other == reference)
}

/// Whether each reference has a place.
fn contains_all(places: &[u32], references: &[u32]) -> bool
    ensures { result ≡ list_all (contains places.now) references.now }
{
    references
        .iter()
        .all(|reference| contains(places, *reference))
}

/// Whether an array is among others.
fn is_among(arrays: &[Guid], array: &Guid) -> bool
    ensures { result ≡ list_any (bytes_eq array.now) arrays.now }
{
    arrays.iter().any(|other| *array == *other)
}

/// Whether a disk of this use is a spare for an array, alone or among others.
fn is_spare_for(array: &Guid, use_as: &SpareUse) -> bool
    ensures { result ≡ is_spare_for array.now use_as.now }
{
    match use_as {
        SpareUse::No | SpareUse::Global | SpareUse::Revertible => false,
        SpareUse::Dedicated(arrays) => is_among(arrays.items(), array),
    }
}

/// The members that are dedicated spares of an array, in their order.
fn spares_among(
    alloc: Global,
    members: &IndexMap<u32, Member>,
    array: &Guid,
) -> Result<Vec<u32>, NoMemory>
    ensures { IfOk result (λ spares. spares.items ≡ map (λ entry. entry.0) (filter (λ entry. is_spare_for array.now entry.1.spare) members.now.entries)) }
{
    let mut spares = Vec::new(alloc);
    for (reference, member) in members {
        if is_spare_for(array, &member.spare) {
            spares.push(*reference)?;
        }
    }
    Ok(spares)
}

/// The dedicated spares of an array, in the order of the members.
pub(crate) fn spares_of(alloc: Global, config: &Config, array: &Guid) -> Result<Vec<u32>, NoMemory>
    ensures { IfOk result (λ spares. spares.items ≡ spares_of config.now array.now) }
{
    spares_among(alloc, &config.members, array)
}

/// Whether the group has a member with this reference.
fn is_member(members: &IndexMap<u32, Member>, reference: u32) -> bool
    ensures { result ≡ is_some (lookup (nat_eq reference) members.now.entries) }
{
    members.get(&reference).is_some()
}

/// What is kept of a place: it is set free where it names a member that isn't a dedicated spare of the array.
fn kept_spare(config: &Config, dedicated: &[u32], reference: u32) -> u32
    ensures { result ≡ kept_spare config.now dedicated.now reference }
{
    if is_member(&config.members, reference) && !contains(dedicated, reference) {
        NO_REFERENCE
    } else {
        reference
    }
}

/// What is kept of all places.
fn kept_spares(config: &Config, dedicated: &[u32], spares: &[u32; 8]) -> [u32; 8]
    ensures { result ≡ map (kept_spare config.now dedicated.now) spares.now }
{
    let mut kept = *spares;
    for place in &mut kept {
        *place = kept_spare(config, dedicated, *place);
    }
    kept
}

/// Puts a reference in the first free place, unless it is there.
fn add_spare(places: &mut [u32], reference: u32)
    ensures { places.new ≡ add_spare places.old reference }
{
    if contains(places, reference) {
        return;
    }
    put_spare(places, reference);
}

/// Puts a reference in the first free place, if there is one.
fn put_spare(places: &mut [u32], reference: u32)
    ensures { places.new ≡ with_spare places.old reference }
{
    if let Some(place) = first_free(places) {
        places[place] = reference;
    }
}

/// The first free place.
fn first_free(places: &[u32]) -> Option<usize>
    ensures { result ≡ position (λ place. place == no_reference) places.now }
{
    places.iter().position(|place| *place == NO_REFERENCE)
}

/// The associated spares of an array, where it has these dedicated spares.
#[tactic(auto, unfolding(crate::specs::Elements::spares_after))]
pub(crate) fn spares_after(config: &Config, dedicated: &[u32], spares: &[u32; 8]) -> [u32; 8]
    ensures { (array : List ℕ) → dedicated.now ≡ spares_of config.now array → result ≡ spares_after config.now array spares.now }
{
    let mut after = kept_spares(config, dedicated, spares);
    for reference in dedicated {
        add_spare(&mut after, *reference);
    }
    after
}

/// Whether each dedicated spare of an array has a place.
pub(crate) fn has_places(config: &Config, dedicated: &[u32], spares: &[u32; 8]) -> bool
    ensures { (array : List ℕ) → dedicated.now ≡ spares_of config.now array → result ≡ has_places config.now array spares.now }
{
    contains_all(&spares_after(config, dedicated, spares), dedicated)
}
