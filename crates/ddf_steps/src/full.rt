//! Which table of a group's disks has no room for what a change gives them.
ghost use Rattle.std.specs.Prelude.{◌≡◌, ◌==◌, IfOk};
ghost use Rattle.std.specs.List.{AllByRecursion, list_all};
ghost use Rattle.ddf_rewrite.specs.Before.{before};
ghost use Rattle.ddf_steps.specs.Full.{full_of, full_on, full_where_written, least_full, lengths_differ, lesser, rank};
ghost use Rattle.ddf_seats.specs.Changing.{record_length, AreCopies, CanBeHeldOn, CanBeLed};
ghost use Rattle.ddf_steps.specs.Trying.{CanTry};

use ddf_bytes::NoMemory;
use ddf_config::{Config, FullTable, is_current};
use ddf_rewrite::full_after_change;
use ddf_seats::Disk;
use ddf_view::View;
use std::alloc::Global;

/// The place of a table in the order in which they are told.
fn rank(table: FullTable) -> u8
    ensures { result ≡ rank table }
{
    match table {
        FullTable::Disks => 0,
        FullTable::Arrays => 1,
        FullTable::Records => 2,
        FullTable::Notes => 3,
        FullTable::Spares => 4,
    }
}

/// The lesser of two tables that are full, as far as there are any.
pub fn lesser(one: Option<FullTable>, other: Option<FullTable>) -> Option<FullTable>
    ensures { result ≡ lesser one other }
{
    match (one, other) {
        (Some(first), Some(second)) => {
            if rank(first) <= rank(second) {
                Some(first)
            } else {
                Some(second)
            }
        }
        (Some(first), None) => Some(first),
        (None, other) => other,
    }
}

fn record_length(disk: &Disk) -> u16
    ensures { result ≡ record_length disk.now }
{
    disk.copy.header.geometry.record_length
}

fn all_have_length(disks: &[Disk], length: u16) -> bool
    ensures { result ≡ list_all (λ other. record_length other == length) disks.now }
{
    disks.iter().all(|other| record_length(other) == length)
}

/// Whether the records of two disks have different lengths.
pub fn lengths_differ(disks: &[Disk]) -> bool
    ensures { result ≡ lengths_differ disks.now }
{
    match disks.split_first() {
        Some((first, others)) => !all_have_length(others, record_length(first)),
        None => false,
    }
}

fn full_on(
    alloc: Global,
    disk: &Disk,
    leaders: &[View],
    config: &Config,
    timestamp: u32,
) -> Result<Option<FullTable>, NoMemory>
    requires { CanTry (before leaders.now) config.now disk.now }
    ensures { IfOk result (λ full. full ≡ full_on (before leaders.now) config.now timestamp disk.now) }
{
    full_after_change(alloc, disk.copy, leaders, config, timestamp)
}

/// The first table that is full on a disk, if the change writes it.
fn full_where_written(
    alloc: Global,
    disk: &Disk,
    leaders: &[View],
    config: &Config,
    timestamp: u32,
) -> Result<Option<FullTable>, NoMemory>
    requires { CanTry (before leaders.now) config.now disk.now }
    ensures { IfOk result (λ full. full ≡ full_where_written (before leaders.now) config.now timestamp disk.now) }
{
    if is_current(&config.members, disk.seat.reference) {
        return full_on(alloc, disk, leaders, config, timestamp);
    }
    Ok(None)
}

/// The least table that is full on some disk that is written.
fn least_full(
    alloc: Global,
    disks: &[Disk],
    leaders: &[View],
    config: &Config,
    timestamp: u32,
) -> Result<Option<FullTable>, NoMemory>
    requires { AllByRecursion (CanTry (before leaders.now) config.now) disks.now }
    ensures { IfOk result (λ least. least ≡ least_full (before leaders.now) config.now timestamp disks.now) }
{
    let mut least = None;
    for disk in disks {
        least = lesser(
            least,
            full_where_written(alloc, disk, leaders, config, timestamp)?,
        );
    }
    Ok(least)
}

/// The first table that has no room for what a change to this configuration gives the disks: the records, where those of two disks
/// have different lengths, and else the least one that is full on some disk that is written.
///
/// # Errors
/// Memory ran out.
#[tactic(auto, unfolding(crate::specs::Full::full_of))]
pub fn full_of(
    alloc: Global,
    disks: &[Disk],
    leaders: &[View],
    config: &Config,
    timestamp: u32,
) -> Result<Option<FullTable>, NoMemory>
    requires leaders { CanBeLed (before leaders.now) disks.now }
    requires copies { AreCopies disks.now }
    requires held { CanBeHeldOn config.now disks.now }
    ensures { IfOk result (λ full. full ≡ full_of timestamp (before leaders.now) config.now disks.now) }
{
    if lengths_differ(disks) {
        return Ok(Some(FullTable::Records));
    }
    least_full(alloc, disks, leaders, config, timestamp)
}
