//! Whether two configurations have the same members and arrays: a change that alters only the sequence number isn't made.
//! docs/DECISIONS.md#configurations-and-their-changes
ghost use Rattle.std.specs.Prelude.{◌≡◌, ◌==◌, ◌&&◌};
ghost use Rattle.std.specs.Cmp.Lexicographic.{pointwise};
ghost use Rattle.std.specs.List.{list_all, zip};
ghost use Rattle.std.specs.Option.{option_eq};
ghost use Rattle.ddf_plan.specs.Same.{
  same_array,
  same_element,
  same_member,
  same_position,
  same_tables,
  same_use,
};

use crate::{Array, Config, ElementPlan, Member, Position, SpareUse};
use ddf_bytes::Guid;
use indexmap::IndexMap;

fn same_use(one: &SpareUse, other: &SpareUse) -> bool
    ensures { result ≡ same_use one.now other.now }
{
    match one {
        SpareUse::No => matches!(other, SpareUse::No),
        SpareUse::Global => matches!(other, SpareUse::Global),
        SpareUse::Revertible => matches!(other, SpareUse::Revertible),
        SpareUse::Dedicated(guids) => match other {
            SpareUse::No | SpareUse::Global | SpareUse::Revertible => false,
            SpareUse::Dedicated(others) => guids.items() == others.items(),
        },
    }
}

fn same_member(reference: u32, one: &Member, other_reference: u32, other: &Member) -> bool
    ensures { result ≡ same_member (reference, one.now) (other_reference, other.now) }
{
    reference == other_reference
        && one.guid == other.guid
        && one.size == other.size
        && one.missing == other.missing
        && same_use(&one.spare, &other.spare)
}

fn each_same_member(one: &IndexMap<u32, Member>, other: &IndexMap<u32, Member>) -> bool
    ensures { result ≡ list_all (λ pair. same_member pair.0 pair.1) (zip one.now.entries other.now.entries) }
{
    one.iter().zip(other.iter()).all(|(first, second)| same_member(
        *first.0, first.1, *second.0, second.1,
    ))
}

fn same_members(one: &IndexMap<u32, Member>, other: &IndexMap<u32, Member>) -> bool
    ensures { result ≡ pointwise same_member one.now.entries other.now.entries }
{
    one.len() == other.len() && each_same_member(one, other)
}

fn same_position(one: &Position, other: &Position) -> bool
    ensures { result ≡ same_position one.now other.now }
{
    one.reference == other.reference
        && one.start == other.start
        && one.synced == other.synced
        && one.row == other.row
}

fn each_same_position(one: &[Position], other: &[Position]) -> bool
    ensures { result ≡ list_all (λ pair. same_position pair.0 pair.1) (zip one.now other.now) }
{
    one.iter()
        .zip(other)
        .all(|(first, second)| same_position(first, second))
}

fn same_positions(one: &[Position], other: &[Position]) -> bool
    ensures { result ≡ pointwise same_position one.now other.now }
{
    one.len() == other.len() && each_same_position(one, other)
}

fn same_element(one: &ElementPlan, other: &ElementPlan) -> bool
    ensures { result ≡ same_element one.now other.now }
{
    one.level == other.level
        && one.qualifier == other.qualifier
        && one.strip == other.strip
        && one.blocks == other.blocks
        && one.stand_in == other.stand_in
        && same_positions(one.positions.as_slice(), other.positions.as_slice())
}

fn same_part(one: &Option<ElementPlan>, other: &Option<ElementPlan>) -> bool
    ensures { result ≡ option_eq same_element one.now other.now }
{
    match one {
        Some(first) => match other {
            Some(second) => same_element(first, second),
            None => false,
        },
        None => other.is_none(),
    }
}

fn each_same_part(one: &[Option<ElementPlan>], other: &[Option<ElementPlan>]) -> bool
    ensures { result ≡ list_all (λ pair. option_eq same_element pair.0 pair.1) (zip one.now other.now) }
{
    one.iter()
        .zip(other)
        .all(|(first, second)| same_part(first, second))
}

fn same_parts(one: &[Option<ElementPlan>], other: &[Option<ElementPlan>]) -> bool
    ensures { result ≡ pointwise (option_eq same_element) one.now other.now }
{
    one.len() == other.len() && each_same_part(one, other)
}

fn same_array(guid: &Guid, one: &Array, other_guid: &Guid, other: &Array) -> bool
    ensures { result ≡ same_array (guid.now, one.now) (other_guid.now, other.now) }
{
    *guid == *other_guid
        && one.name == other.name
        && one.number == other.number
        && one.secondary == other.secondary
        && one.state == other.state
        && one.init == other.init
        && same_parts(one.elements.items(), other.elements.items())
}

fn each_same_array(one: &IndexMap<Guid, Array>, other: &IndexMap<Guid, Array>) -> bool
    ensures { result ≡ list_all (λ pair. same_array pair.0 pair.1) (zip one.now.entries other.now.entries) }
{
    one.iter().zip(other.iter()).all(|(first, second)| same_array(
        first.0, first.1, second.0, second.1,
    ))
}

fn same_arrays(one: &IndexMap<Guid, Array>, other: &IndexMap<Guid, Array>) -> bool
    ensures { result ≡ pointwise same_array one.now.entries other.now.entries }
{
    one.len() == other.len() && each_same_array(one, other)
}

/// Whether two configurations have the same members and the same arrays, each in the same order. Their groups and sequence
/// numbers don't count.
#[tactic(auto, unfolding(crate::specs::Same::same_tables))]
pub fn same_tables(one: &Config, other: &Config) -> bool
    ensures { result ≡ same_tables one.now other.now }
{
    same_members(&one.members, &other.members) && same_arrays(&one.arrays, &other.arrays)
}
