//! The copy of a disk after a change or a recovery.
ghost use Rattle.std.specs.Prelude.{◌≡◌, ◌≤◌, ◌<◌, ◌^◌, ℕ, Some, None, filter_map, length, slice_get, IfOk};
ghost use Rattle.ddf_tables.specs.Disks.{is_used_disk};
ghost use Rattle.ddf_tables.specs.Arrays.{is_used_array};
ghost use Rattle.ddf_tables.specs.Tables.{replaced_table};
ghost use Rattle.ddf_copy.specs.Written.{CanBeCopy};
ghost use Rattle.ddf_config.specs.Shapes.{array_capacity};
ghost use Rattle.ddf_view.specs.View.{array_of};
ghost use Rattle.ddf_rewrite.specs.Before.{before, leading_record};
ghost use Rattle.ddf_rewrite.specs.Wanted.{Wanted, all_wanted};
ghost use Rattle.ddf_rewrite.specs.Disks.{disk_rows_after};
ghost use Rattle.ddf_rewrite.specs.Arrays.{array_rows_after, arrays_after};
ghost use Rattle.ddf_rewrite.specs.Copies.{changed_copy, changed_holding, changed_holdings, copy_after, recovered_copy};
ghost use Rattle.ddf_rewrite.specs.Hold.{AreDisks, AreHeld, CanBeRecovered, CanWrite, FitsPlan, IsHoldable};
ghost use Rattle.ddf_rewrite.specs.Changing.{CanChange};
ghost use Rattle.ddf_rewrite.specs.Room.{CanHoldSpare, full_after_change, full_after_recovery};

use crate::arrays::arrays_after;
use crate::disks::{Sources, changed_disks, disks_for, recovered_disks};
use crate::elements::changed_record;
use crate::holding::{Holding, holding_on};
use crate::issue::Issue;
use crate::leading::leading_record;
use crate::recovery::{are_noted, recovered_holdings};
use crate::rows::{array_rows_after, disk_rows_after};
use crate::slots::slots_after;
use crate::wanted::{Wanted, all_wanted};
use ddf_bytes::{NoMemory, Seq};
use ddf_config::Config;
use ddf_copy::DiskCopy;
use ddf_header::Header;
use ddf_tables::{ArrayTable, BadBlockLog, DiskEntry, DiskTable};
use ddf_view::{View, disk_rows};
use std::alloc::Global;

/// What a disk is to hold of an element after a change.
fn changed_holding<'a>(
    alloc: Global,
    old: &DiskCopy,
    leaders: &[View],
    issue: &Issue,
    wanted: &Wanted<'a>,
) -> Result<Holding<'a>, NoMemory>
    requires old { CanBeCopy old.now }
    requires leaders { AreHeld old.now.header.geometry (before leaders.now) }
    requires fits { FitsPlan old.now.header.geometry.max_members wanted.now }
    requires elements { length wanted.now.array.elements ≤ 16 }
    requires index { wanted.now.index < 2 ^ 8 }
    ensures exact { IfOk result (λ holding. holding ≡ changed_holding old.now (before leaders.now) issue.now.config.now issue.now.timestamp wanted.now) }
    ensures size { IfOk result (λ holding. leading_record (before leaders.now) wanted.now.guid wanted.now.index ≡ None → array_capacity wanted.now.array < 2 ^ 64) }
{
    let own = View::new(old).find_held(&wanted.guid, wanted.index);
    let leader = leading_record(leaders, &wanted.guid, wanted.index);
    let element = changed_record(
        alloc,
        issue,
        wanted,
        &old.header,
        own.as_ref(),
        leader.as_ref(),
    )?;
    Ok(holding_on(old, wanted, element))
}

/// What a disk is to hold of all elements after a change.
#[tactic(auto, unfolding(crate::specs::Copies::changed_holdings))]
pub(crate) fn changed_holdings<'a>(
    alloc: Global,
    old: &DiskCopy,
    leaders: &[View],
    issue: &Issue,
    all: &[Wanted<'a>],
) -> Result<Vec<Holding<'a>>, NoMemory>
    requires old { CanBeCopy old.now }
    requires leaders { AreHeld old.now.header.geometry (before leaders.now) }
    requires all { all.now ≡ all_wanted issue.now.config.now }
    requires holdable { IsHoldable old.now.header.geometry.max_members issue.now.config.now }
    ensures exact { IfOk result (λ holdings. holdings.items ≡ changed_holdings old.now (before leaders.now) issue.now.config.now issue.now.timestamp) }
    ensures sizes { IfOk result (λ holdings. (n : ℕ) (one : Wanted) → slice_get (all_wanted issue.now.config.now) n ≡ Some one
        → leading_record (before leaders.now) one.guid one.index ≡ None → array_capacity one.array < 2 ^ 64) }
{
    let mut holdings = Vec::new(alloc);
    for wanted in all {
        holdings.push(changed_holding(alloc, old, leaders, issue, wanted)?)?;
    }
    Ok(holdings)
}

/// The disk table with these entries.
fn disk_table_after(
    alloc: Global,
    old: &DiskTable,
    entries: Vec<DiskEntry>,
) -> Result<DiskTable, NoMemory>
    ensures { IfOk result (λ table. table ≡ replaced_table is_used_disk old.now (disk_rows_after old.now.rows entries.items)) }
{
    let rows = disk_rows_after(alloc, old.rows(), entries)?;
    let table = old.duplicate(alloc)?;
    Ok(table.replaced(rows))
}

/// The array table with the entries of the configuration's arrays.
fn array_table_after(
    alloc: Global,
    old: &ArrayTable,
    config: &Config,
) -> Result<ArrayTable, NoMemory>
    ensures { IfOk result (λ table. table ≡ replaced_table is_used_array old.now (array_rows_after old.now.rows
        (arrays_after config.now (filter_map array_of old.now.rows)))) }
{
    let entries = arrays_after(alloc, config, old.rows())?;
    let rows = array_rows_after(alloc, old.rows(), entries)?;
    let table = old.duplicate(alloc)?;
    Ok(table.replaced(rows))
}

/// The header of a copy of this configuration.
fn header_after(old: &Header, config: &Config) -> Header
    ensures { result ≡ record old.now { guid = config.now.group; sequence = config.now.sequence } }
{
    Header {
        guid: config.group,
        sequence: config.sequence,
        ..*old
    }
}

/// An equal log, where there is one.
fn second_log(alloc: Global, bad: &Option<BadBlockLog>) -> Result<Option<BadBlockLog>, NoMemory>
    ensures { IfOk result (λ second. second ≡ bad.now) }
{
    match bad {
        Some(log) => Ok(Some(log.duplicate(alloc)?)),
        None => Ok(None),
    }
}

/// The copy with these entries of disks and these elements, over the bytes of the one that the disk has.
fn copy_after(
    alloc: Global,
    old: &DiskCopy,
    noted: bool,
    issue: &Issue,
    entries: Vec<DiskEntry>,
    holdings: &[Holding],
    all: &[Wanted],
) -> Result<DiskCopy, NoMemory>
    requires spare { CanHoldSpare old.now issue.now.config.now }
    requires all { all.now ≡ all_wanted issue.now.config.now }
    ensures { IfOk result (λ copy. copy ≡ copy_after old.now noted issue.now.config.now issue.now.timestamp entries.items holdings.now) }
{
    let config = issue.config;
    let told = disks_for(alloc, config, all, old.header.revision, noted, &entries)?;
    let disks = disk_table_after(alloc, &old.disks, told)?;
    let arrays = array_table_after(alloc, &old.arrays, config)?;
    let slots = slots_after(alloc, old, noted, issue, holdings)?;
    let bad = second_log(alloc, &old.bad)?;
    Ok(DiskCopy {
        header: header_after(&old.header, config),
        controller: old.controller,
        disks,
        arrays,
        slots: Seq::new(slots),
        disk_data: old.disk_data,
        bad,
    })
}

/// The changed copy, over the bytes of the one that the disk has.
fn changed_copy_over(
    alloc: Global,
    old: &DiskCopy,
    leaders: &[View],
    config: &Config,
    timestamp: u32,
) -> Result<DiskCopy, NoMemory>
    requires old { CanBeCopy old.now }
    requires leaders { AreHeld old.now.header.geometry (before leaders.now) }
    requires holdable { IsHoldable old.now.header.geometry.max_members config.now }
    requires room { full_after_change old.now (before leaders.now) config.now timestamp ≡ None }
    ensures exact { IfOk result (λ copy. copy ≡ changed_copy old.now (before leaders.now) config.now timestamp) }
    ensures numbers { IfOk result (λ copy. CanWrite old.now (before leaders.now) config.now timestamp) }
    ensures writable { IfOk result CanBeCopy }
{
    let issue = Issue { config, timestamp };
    let all = all_wanted(alloc, config)?;
    let holdings = changed_holdings(alloc, old, leaders, &issue, &all)?;
    let sources = Sources {
        all: &all,
        leading: disk_rows(leaders),
        own: old.disks.rows(),
        revision: old.header.revision,
    };
    let entries = changed_disks(alloc, config, &sources)?;
    copy_after(alloc, old, true, &issue, entries, &holdings, &all)
}

/// The copy of a disk after a change of its group (SNIA DDF 2.0; what is kept is profile), by the copy that it has and those of the
/// group's leaders, the lowest first. Every byte that no field names stays as it is on this disk, and new records take the lowest
/// unused slots. An array that the lowest leader doesn't list is new: all named fields of its records are those of new ones, also over a
/// record that stands under its GUID.
///
/// # Errors
/// Memory ran out.
pub fn changed_copy(
    alloc: Global,
    old: &DiskCopy,
    leaders: &[View],
    config: &Config,
    timestamp: u32,
) -> Result<DiskCopy, NoMemory>
    requires old { CanBeCopy old.now }
    requires leaders { AreHeld old.now.header.geometry (before leaders.now) }
    requires holdable { IsHoldable old.now.header.geometry.max_members config.now }
    requires room { full_after_change old.now (before leaders.now) config.now timestamp ≡ None }
    ensures exact { IfOk result (λ copy. copy ≡ changed_copy old.now (before leaders.now) config.now timestamp) }

    // What the laws of changed copies ask.
    ensures fits { CanChange old.now (before leaders.now) config.now timestamp }
    ensures numbers { IfOk result (λ copy. CanWrite old.now (before leaders.now) config.now timestamp) }
    ensures writable { IfOk result CanBeCopy }
{
    changed_copy_over(alloc, old, leaders, config, timestamp)
}

/// The recovered copy, over the bytes of the one that the disk has.
fn recovered_copy_over(
    alloc: Global,
    old: &DiskCopy,
    leaders: &[View],
    config: &Config,
    timestamp: u32,
) -> Result<DiskCopy, NoMemory>
    requires old { CanBeCopy old.now }
    requires fits { CanBeRecovered old.now (before leaders.now) config.now timestamp }
    ensures { IfOk result (λ copy. copy ≡ recovered_copy old.now (before leaders.now) config.now timestamp) }
{
    let issue = Issue { config, timestamp };
    let all = all_wanted(alloc, config)?;
    let holdings = recovered_holdings(alloc, old, leaders, &all)?;
    let entries = recovered_disks(alloc, disk_rows(leaders), old.disks.rows())?;
    copy_after(
        alloc,
        old,
        are_noted(leaders),
        &issue,
        entries,
        &holdings,
        &all,
    )
}

/// The copy of a disk that was behind, after a recovery of its group in which nothing is lost (SNIA DDF 2.0; what is kept is profile),
/// by the copy that it has, those of the group's leaders, the lowest first, and the configuration that the leaders give. Each named
/// field is the lowest leader's that holds it, every byte that no field names stays as it is on this disk, and new records take the
/// lowest unused slots. Where no leader has valid notes the disk gets no copies of records and no notes. A spare record that is
/// altered has the given time.
///
/// # Errors
/// Memory ran out.
pub fn recovered_copy(
    alloc: Global,
    old: &DiskCopy,
    leaders: &[View],
    config: &Config,
    timestamp: u32,
) -> Result<DiskCopy, NoMemory>
    requires old { CanBeCopy old.now }
    requires leaders { AreHeld old.now.header.geometry (before leaders.now) }
    requires disks { AreDisks (before leaders.now).disks }
    requires members { length (before leaders.now).disks ≤ length config.now.members }
    requires holdable { IsHoldable old.now.header.geometry.max_members config.now }
    requires room { full_after_recovery old.now (before leaders.now) config.now ≡ None }
    ensures exact { IfOk result (λ copy. copy ≡ recovered_copy old.now (before leaders.now) config.now timestamp) }

    // What the laws of recovered copies ask.
    ensures fits { CanBeRecovered old.now (before leaders.now) config.now timestamp }
    ensures writable { IfOk result CanBeCopy }
{
    recovered_copy_over(alloc, old, leaders, config, timestamp)
}
