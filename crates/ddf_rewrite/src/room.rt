//! Whether a disk has room for what a change or a recovery gives it.
ghost use Rattle.std.specs.Prelude.{◌≡◌, ◌||◌, Bool, List, length, IfOk};
ghost use Rattle.ddf_copy.specs.Written.{CanBeCopy};
ghost use Rattle.ddf_rewrite.specs.Before.{before};
ghost use Rattle.ddf_rewrite.specs.Wanted.{all_wanted};
ghost use Rattle.ddf_rewrite.specs.Elements.{has_places};
ghost use Rattle.ddf_rewrite.specs.Hold.{AreHeld, IsHoldable};
ghost use Rattle.ddf_rewrite.specs.Notes.{Holding};
ghost use Rattle.ddf_rewrite.specs.Spares.{arrays_of_spare};
ghost use Rattle.ddf_rewrite.specs.Room as room;
ghost use Rattle.ddf_rewrite.specs.Room.{full_after_change, full_after_recovery, full_with, lacks_entries, lacks_notes, lacks_places, lacks_slots, spares_before};

use crate::associated::{NO_REFERENCE, has_places, spares_of};
use crate::copies::changed_holdings;
use crate::holding::Holding;
use crate::issue::Issue;
use crate::leading::leading_record;
use crate::recovery::{are_noted, recovered_holdings};
use crate::slots::{items_of, slotted_on};
use crate::spares::spare_use;
use crate::wanted::{Wanted, all_wanted};
use ddf_bytes::NoMemory;
use ddf_config::{Config, FullTable, SpareUse};
use ddf_config_records::{notes_fit, spare_entries};
use ddf_copy::DiskCopy;
use ddf_view::View;
use std::alloc::Global;

/// How many entries a spare record of this use needs.
fn entries_needed(use_as: &SpareUse) -> usize
    ensures { result ≡ length (arrays_of_spare use_as.now) }
{
    match use_as {
        SpareUse::No | SpareUse::Global | SpareUse::Revertible => 0,
        SpareUse::Dedicated(arrays) => arrays.items().len(),
    }
}

/// Whether a record has no room: some item has no slot, or the disk is a spare for more arrays than its record has entries.
fn lacks_records(
    alloc: Global,
    old: &DiskCopy,
    noted: bool,
    config: &Config,
    holdings: &[Holding],
) -> Result<bool, NoMemory>
    ensures { IfOk result (λ lacks. lacks ≡ (lacks_slots old.now noted config.now holdings.now || lacks_entries old.now config.now)) }
{
    let use_as = spare_use(alloc, config, old.disk_data.reference)?;
    let items = items_of(alloc, noted, &use_as, holdings)?;
    let placed = slotted_on(alloc, old, noted, config, holdings)?;
    let entries = spare_entries(&old.header.geometry);
    Ok(placed.len() < items.len() || entries < entries_needed(&use_as))
}

/// Whether the notes don't fit their record.
fn lacks_notes(old: &DiskCopy, noted: bool) -> bool
    ensures { result ≡ lacks_notes old.now noted }
{
    noted && !notes_fit(&old.header.geometry, old.slots.items().len())
}

/// The associated spares of an element, as the leaders record them.
fn spares_before(leaders: &[View], wanted: &Wanted) -> [u32; 8]
    ensures { result ≡ spares_before (before leaders.now) wanted.now }
{
    match leading_record(leaders, &wanted.guid, wanted.index) {
        Some(held) => {
            let element = held.element;
            element.spares
        }
        None => [NO_REFERENCE; 8],
    }
}

/// Whether each dedicated spare has a place among the associated spares of an element.
fn has_places_for(
    alloc: Global,
    leaders: &[View],
    config: &Config,
    wanted: &Wanted,
) -> Result<bool, NoMemory>
    ensures { IfOk result (λ has. has ≡ has_places config.now wanted.now.guid (spares_before (before leaders.now) wanted.now)) }
{
    let dedicated = spares_of(alloc, config, &wanted.guid)?;
    Ok(has_places(config, &dedicated, &spares_before(leaders, wanted)))
}

/// Whether some dedicated spare has no place among the associated spares of an element.
fn lacks_places(
    alloc: Global,
    leaders: &[View],
    config: &Config,
    all: &[Wanted],
) -> Result<bool, NoMemory>
    requires { all.now ≡ all_wanted config.now }
    ensures { IfOk result (λ lacks. lacks ≡ lacks_places (before leaders.now) config.now) }
{
    for wanted in all {
        if !has_places_for(alloc, leaders, config, wanted)? {
            return Ok(true);
        }
    }
    Ok(false)
}

/// The first table without room.
fn full_with(
    old: &DiskCopy,
    config: &Config,
    lacks_records: bool,
    lacks_notes: bool,
    lacks_places: bool,
) -> Option<FullTable>
    ensures { (noted : Bool) (holdings : List Holding) → lacks_records ≡ (lacks_slots old.now noted config.now holdings || lacks_entries old.now config.now)
        → lacks_notes ≡ room.lacks_notes old.now noted → result ≡ full_with old.now noted config.now holdings lacks_places }
{
    let geometry = &old.header.geometry;
    if usize::from(geometry.max_disks) < config.members.len() {
        return Some(FullTable::Disks);
    }
    if usize::from(geometry.max_arrays) < config.arrays.len() {
        return Some(FullTable::Arrays);
    }
    if lacks_records {
        return Some(FullTable::Records);
    }
    if lacks_notes {
        return Some(FullTable::Notes);
    }
    if lacks_places {
        return Some(FullTable::Spares);
    }
    None
}

/// The first table of a disk that has no room for what a change gives it, by the copy that it has and those of the group's leaders;
/// None where all have (profile).
///
/// # Errors
/// Memory ran out.
#[tactic(auto, unfolding(crate::specs::Room::full_after_change))]
pub fn full_after_change(
    alloc: Global,
    old: &DiskCopy,
    leaders: &[View],
    config: &Config,
    timestamp: u32,
) -> Result<Option<FullTable>, NoMemory>
    requires old { CanBeCopy old.now }
    requires leaders { AreHeld old.now.header.geometry (before leaders.now) }
    requires holdable { IsHoldable old.now.header.geometry.max_members config.now }
    ensures { IfOk result (λ full. full ≡ full_after_change old.now (before leaders.now) config.now timestamp) }
{
    let all = all_wanted(alloc, config)?;
    let issue = Issue { config, timestamp };
    let holdings = changed_holdings(alloc, old, leaders, &issue, &all)?;
    let records = lacks_records(alloc, old, true, config, &holdings)?;
    let places = lacks_places(alloc, leaders, config, &all)?;
    Ok(full_with(old, config, records, lacks_notes(old, true), places))
}

/// The first table of a disk that was behind that has no room for what a recovery in which nothing is lost gives it, by the copy that
/// it has, those of the group's leaders, and the configuration that they give; None where all have (profile).
///
/// # Errors
/// Memory ran out.
#[tactic(auto, unfolding(crate::specs::Room::full_after_recovery))]
pub fn full_after_recovery(
    alloc: Global,
    old: &DiskCopy,
    leaders: &[View],
    config: &Config,
) -> Result<Option<FullTable>, NoMemory>
    requires old { CanBeCopy old.now }
    requires leaders { AreHeld old.now.header.geometry (before leaders.now) }
    ensures { IfOk result (λ full. full ≡ full_after_recovery old.now (before leaders.now) config.now) }
{
    let noted = are_noted(leaders);
    let all = all_wanted(alloc, config)?;
    let holdings = recovered_holdings(alloc, old, leaders, &all)?;
    let records = lacks_records(alloc, old, noted, config, &holdings)?;
    Ok(full_with(old, config, records, lacks_notes(old, noted), false))
}
