//! The spare record after a change.
ghost use Rattle.std.specs.Prelude.{◌≡◌, ◌≤◌, length, nat_eq, Some, None, IfOk};
ghost use Rattle.std.specs.Map.{lookup};
ghost use Rattle.ddf_config.specs.declared.member.SpareUse.TheVariants as uses;
ghost use Rattle.std.specs.Option.{ForSome, option_copied};
ghost use Rattle.ddf_header.specs.Geometry.{IsSound};
ghost use Rattle.ddf_config_records.specs.Elements.{record_size};
ghost use Rattle.ddf_config_records.specs.Building.{spare_entries};
ghost use Rattle.ddf_rewrite.specs.Spares.{arrays_of_spare, kind_of_spare, same_spare_record, spare_after, spare_at_time, spare_use, with_time_of};

use ddf_bytes::{Guid, NoMemory, Seq};
use ddf_config::{Config, Member, SpareUse};
use ddf_config_records::SpareRecord;
use ddf_header::Geometry;
use indexmap::IndexMap;
use std::alloc::Global;

/// What the member with this reference is a spare for.
fn use_of(
    alloc: Global,
    members: &IndexMap<u32, Member>,
    reference: u32,
) -> Result<SpareUse, NoMemory>
    ensures { IfOk result (λ use_as. use_as ≡ elim (lookup (nat_eq reference) members.now.entries) [ None ↦ uses.No | Some member ↦ member.spare ]) }
{
    match members.get(&reference) {
        Some(member) => member.spare.duplicate(alloc),
        None => Ok(SpareUse::No),
    }
}

/// What a disk is a spare for.
pub(crate) fn spare_use(
    alloc: Global,
    config: &Config,
    reference: u32,
) -> Result<SpareUse, NoMemory>
    ensures { IfOk result (λ use_as. use_as ≡ spare_use config.now reference) }
{
    use_of(alloc, &config.members, reference)
}

/// The type of a spare record of this use: bit 0 is set for a spare of some arrays, bit 1 for one that gives its place back.
fn kind_of_spare(use_as: &SpareUse) -> u8
    ensures { result ≡ kind_of_spare use_as.now }
{
    match use_as {
        SpareUse::No | SpareUse::Global => 0,
        SpareUse::Revertible => 2,
        SpareUse::Dedicated(_) => 1,
    }
}

/// The arrays that a spare record of this use names.
fn arrays_of_spare(use_as: &SpareUse) -> &[Guid]
    ensures { result.now ≡ arrays_of_spare use_as.now }
{
    match use_as {
        SpareUse::No | SpareUse::Global | SpareUse::Revertible => &[],
        SpareUse::Dedicated(arrays) => arrays.items(),
    }
}

/// A record of this use and time, over the bytes of an old one or of a new one.
fn spare_at_time(
    alloc: Global,
    geometry: &Geometry,
    old: Option<&SpareRecord>,
    timestamp: u32,
    use_as: &SpareUse,
) -> Result<SpareRecord, NoMemory>
    requires sound { IsSound geometry.now }
    requires room { length (arrays_of_spare use_as.now) ≤ spare_entries geometry.now }
    requires size { ForSome (option_copied old) (λ own. length own.rest ≡ record_size geometry.now) }
    requires room_before { ForSome (option_copied old) (λ own. length own.arrays ≤ spare_entries geometry.now) }
    ensures { IfOk result (λ spare. spare ≡ spare_at_time geometry.now (option_copied old.entry) timestamp use_as.now) }
{
    let arrays: Vec<Guid> = Vec::from_slice(alloc, arrays_of_spare(use_as))?;
    let spare = SpareRecord {
        timestamp,
        kind: kind_of_spare(use_as),
        arrays: Seq::new(arrays),
        rest: Seq::new(Vec::new(alloc)),
    };
    spare.over(alloc, geometry, old)
}

/// Whether two records are the same, their timestamps aside.
fn same_spare_record(one: &SpareRecord, other: &SpareRecord) -> bool
    ensures { result ≡ same_spare_record one.now other.now }
{
    one.kind == other.kind
        && one.arrays.items() == other.arrays.items()
        && one.rest.items() == other.rest.items()
}

/// The record with its own time where it says the same as the disk's own one.
fn with_time_of(own: &SpareRecord, new: SpareRecord) -> SpareRecord
    ensures { result ≡ with_time_of own.now new }
{
    if same_spare_record(&new, own) {
        SpareRecord {
            timestamp: own.timestamp,
            ..new
        }
    } else {
        new
    }
}

/// The spare record of a disk, by its own one, where it has one.
#[tactic(auto, unfolding(crate::specs::Spares::spare_after))]
pub(crate) fn spare_after(
    alloc: Global,
    geometry: &Geometry,
    timestamp: u32,
    use_as: &SpareUse,
    own: Option<&SpareRecord>,
) -> Result<SpareRecord, NoMemory>
    requires sound { IsSound geometry.now }
    requires room { length (arrays_of_spare use_as.now) ≤ spare_entries geometry.now }
    requires size { ForSome (option_copied own) (λ old. length old.rest ≡ record_size geometry.now) }
    requires room_before { ForSome (option_copied own) (λ old. length old.arrays ≤ spare_entries geometry.now) }
    ensures { IfOk result (λ spare. spare ≡ spare_after geometry.now timestamp use_as.now (option_copied own.entry)) }
{
    let new = spare_at_time(alloc, geometry, own, timestamp, use_as)?;
    match own {
        Some(old) => Ok(with_time_of(old, new)),
        None => Ok(new),
    }
}
