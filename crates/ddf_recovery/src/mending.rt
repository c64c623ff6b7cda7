//! What recovery gives the disks of a group that lag, where no member is absent: the newest configuration, with its sequence number as it is.
//! docs/STOPS.md#what-the-next-command-does-first
ghost use Rattle.std.specs.Prelude.{◌≡◌, true, filter, fold, map, None, IfOk};
ghost use Rattle.std.specs.List.{AllByRecursion};
ghost use Rattle.ddf_copy.specs.Written.{CanBeCopy};
ghost use Rattle.ddf_rewrite.specs.Before.{before};
ghost use Rattle.ddf_rewrite.specs.Hold.{AreHeld};
ghost use Rattle.ddf_steps.specs.Full.{lesser};
ghost use Rattle.ddf_recovery.specs.Mending.{CanMend};
ghost use Rattle.ddf_recovery.specs.Recovery.{full_mended, mended, mended_copy};
ghost use Rattle.ddf_seats.specs.Leading.{lags};

use ddf_assembly::Group;
use ddf_bytes::NoMemory;
use ddf_config::{Config, FullTable};
use ddf_copy::{DiskCopy, Which};
use ddf_rewrite::{full_after_recovery, recovered_copy};
use ddf_seats::{Disk, Seated};
use ddf_steps::{lesser, mode_of};
use ddf_view::{View, shows};
use std::alloc::Global;

/// Whether a disk is on a slot of a group that lags.
pub(crate) fn lags(group: &Group, disk: &Disk) -> bool
    ensures { result ≡ lags group.now disk.now }
{
    group.lagging().iter().any(|slot| *slot == disk.seat.slot)
}

/// The copy that a disk gets: its own where that shows the configuration, and else the one that the leaders give it.
fn mended_copy(
    alloc: Global,
    disk: &Disk,
    leaders: &[View],
    config: &Config,
    timestamp: u32,
) -> Result<DiskCopy, NoMemory>
    requires can { CanMend (before leaders.now) config.now disk.now }
    requires room { full_mended (before leaders.now) config.now disk.now ≡ None }
    ensures { IfOk result (λ copy. copy ≡ mended_copy (before leaders.now) config.now timestamp disk.now.copy) }
{
    if shows(&View::new(disk.copy), config) {
        return disk.copy.duplicate(alloc);
    }
    recovered_copy(alloc, disk.copy, leaders, config, timestamp)
}

/// A disk with the copy that it gets.
fn mended(
    alloc: Global,
    disk: &Disk,
    leaders: &[View],
    config: &Config,
    timestamp: u32,
) -> Result<Seated, NoMemory>
    requires can { CanMend (before leaders.now) config.now disk.now }
    requires room { full_mended (before leaders.now) config.now disk.now ≡ None }
    ensures { IfOk result (λ next. next ≡ mended (before leaders.now) config.now timestamp disk.now) }
{
    let mut copy = mended_copy(alloc, disk, leaders, config, timestamp)?;
    copy.header = copy.closed_header(Which::Primary);
    Ok(Seated {
        seat: disk.seat,
        copy,
        last: disk.last,
        mode: mode_of(config, disk),
    })
}

/// The disks that lag, with the copies that they get.
pub(crate) fn mended_disks(
    alloc: Global,
    group: &Group,
    config: &Config,
    disks: &[Disk],
    leaders: &[View],
    timestamp: u32,
) -> Result<Vec<Seated>, NoMemory>
    requires can { AllByRecursion (CanMend (before leaders.now) config.now) disks.now }
    requires room { AllByRecursion (λ disk. lags group.now disk ≡ true → full_mended (before leaders.now) config.now disk ≡ None) disks.now }
    ensures { IfOk result (λ after. after.items ≡ map (mended (before leaders.now) config.now timestamp) (filter (lags group.now) disks.now)) }
{
    let mut after = Vec::new(alloc);
    for disk in disks {
        if lags(group, disk) {
            after.push(mended(alloc, disk, leaders, config, timestamp)?)?;
        }
    }
    Ok(after)
}

/// The first table of a disk that has no room for what it gets.
fn full_mended(
    alloc: Global,
    disk: &Disk,
    leaders: &[View],
    config: &Config,
) -> Result<Option<FullTable>, NoMemory>
    requires copy { CanBeCopy disk.now.copy }
    requires held { AreHeld disk.now.copy.header.geometry (before leaders.now) }
    ensures { IfOk result (λ full. full ≡ full_mended (before leaders.now) config.now disk.now) }
{
    if shows(&View::new(disk.copy), config) {
        return Ok(None);
    }
    full_after_recovery(alloc, disk.copy, leaders, config)
}

/// The least table that is full on some disk that lags.
pub(crate) fn least_mended(
    alloc: Global,
    group: &Group,
    disks: &[Disk],
    leaders: &[View],
    config: &Config,
) -> Result<Option<FullTable>, NoMemory>
    requires { AllByRecursion (CanMend (before leaders.now) config.now) disks.now }
    ensures { IfOk result (λ least. least ≡ fold (λ one disk. lesser one (full_mended (before leaders.now) config.now disk)) None (filter (lags group.now) disks.now)) }
{
    let mut least = None;
    for disk in disks {
        if lags(group, disk) {
            least = lesser(least, full_mended(alloc, disk, leaders, config)?);
        }
    }
    Ok(least)
}
