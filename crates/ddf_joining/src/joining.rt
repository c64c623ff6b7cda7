//! The join of another group's disks: the configuration and the disks of both groups, and why they can't join. docs/DECISIONS.md#groups-that-join
ghost use Rattle.std.specs.Prelude.{◌≡◌, ◌+◌, ◌<◌, ◌^◌, ◌++◌, None, filter, length, IfOk, OnOk};
ghost use Rattle.std.specs.List.{list_all};
ghost use Rattle.ddf_plan.specs.Same.{same_flag};
ghost use Rattle.ddf_import.specs.Clash.{join_cause};
ghost use Rattle.ddf_joining.specs.Joining.{bad_refusal, both_disks, config_joined, full_of_entries, is_behind, numbers_differ, placed, same_numbers};
ghost use Rattle.ddf_recovery.specs.Recovery.{config_recovered};
ghost use Rattle.ddf_joining.specs.Telling.{IsOffered};

use ddf_assembly::Group;
use ddf_bytes::NoMemory;
use ddf_config::{Config, FullTable, Refusal, Seat};
use ddf_import::{join, offer};
use ddf_plan::PlanFault;
use ddf_recovery::loss;
use ddf_seats::{Disk, GroupFault, all_again};
use ddf_steps::raised;
use std::alloc::Global;

// ---- the configuration

/// The configuration of a group behind its recovery.
#[tactic(auto, unfolding(ddf_recovery::specs::Recovery::loss_of, ddf_recovery::specs::Recovery::config_recovered))]
pub(crate) fn config_recovered(alloc: Global, group: &Group) -> Result<Config, NoMemory>
    ensures { IfOk result (λ config. config ≡ config_recovered group.now) }
{
    let loss = loss(alloc, group)?;
    match loss {
        Some(config) => Ok(config),
        None => group.config().duplicate(alloc),
    }
}

/// What joins a configuration: another group's, in which its absent members are lost.
///
/// # Errors
/// `Refused` where a disk or an array of it is there already, or an array's name is taken. `Memory` where memory ran out.
pub(crate) fn config_joining(
    alloc: Global,
    config: &Config,
    other: &Group,
) -> Result<Config, GroupFault>
    ensures { IsOffered config.now other.now result }
{
    match offer(alloc, config, other.config(), other.absent()) {
        Ok(joining) => Ok(joining),
        Err(PlanFault::Refused(refusal)) => Err(GroupFault::Refused(refusal)),
        Err(PlanFault::Memory) => Err(GroupFault::Memory),
    }
}

/// The same configuration at the least sequence number, which has a step left.
fn at_start(alloc: Global, config: &Config) -> Result<Config, NoMemory>
    ensures { IfOk result (λ start. start ≡ record config.now { sequence = 0 }) }
{
    let second = config.duplicate(alloc)?;
    Ok(Config {
        group: second.group,
        sequence: 0,
        members: second.members,
        arrays: second.arrays,
    })
}

/// The configuration of both groups, one step on, also where that passes the greatest sequence number.
pub(crate) fn config_joined(
    alloc: Global,
    config: &Config,
    joining: &Config,
) -> Result<Config, NoMemory>
    requires few { length config.now.arrays + length joining.now.arrays < 2 ^ 16 }
    requires cause { join_cause config.now joining.now ≡ None }
    ensures { IfOk result (λ next. next ≡ config_joined config.now joining.now) }
{
    let start = at_start(alloc, config)?;
    match join(alloc, &start, joining) {
        Ok(next) => Ok(Config {
            group: next.group,
            sequence: raised(config.sequence, 1),
            members: next.members,
            arrays: next.arrays,
        }),
        Err(_) => Err(NoMemory),
    }
}

// ---- the disks

/// Whether a disk is on a slot behind another.
fn is_behind(disk: &Disk, other: &Disk) -> bool
    ensures { result ≡ is_behind disk.now other.now }
{
    disk.seat.slot < other.seat.slot
}

/// Puts those of these disks that are behind one, or those that aren't, behind others.
fn put_side<'a>(
    disks: &[Disk<'a>],
    disk: &Disk<'a>,
    behind: bool,
    into: &mut Vec<Disk<'a>>,
) -> Result<(), NoMemory>
    ensures { OnOk result (into.new.items ≡ into.old.items ++ filter (λ other. same_flag behind (is_behind disk.now other)) disks.now) }
{
    for other in disks {
        if behind == is_behind(disk, other) {
            into.push(other.again())?;
        }
    }
    Ok(())
}

/// Disks in rising slots with one more among them.
fn placed<'a>(alloc: Global, disks: &[Disk<'a>], disk: &Disk<'a>) -> Result<Vec<Disk<'a>>, NoMemory>
    ensures { IfOk result (λ all. all.items ≡ placed disks.now disk.now) }
{
    let mut all = Vec::new(alloc);
    put_side(disks, disk, false, &mut all)?;
    all.push(disk.again())?;
    put_side(disks, disk, true, &mut all)?;
    Ok(all)
}

/// The disks of both groups, in rising slots.
pub(crate) fn both_disks<'a>(
    alloc: Global,
    native: &[Disk<'a>],
    joining: &[Disk<'a>],
) -> Result<Vec<Disk<'a>>, NoMemory>
    ensures { IfOk result (λ all. all.items ≡ both_disks native.now joining.now) }
{
    let mut all = all_again(alloc, native)?;
    for disk in joining {
        all = placed(alloc, &all, disk)?;
    }
    Ok(all)
}

// ---- why they can't join

fn same_numbers(disk: &Disk, other: &Disk) -> bool
    ensures { result ≡ same_numbers disk.now other.now }
{
    let own = &disk.copy.header.geometry;
    let its = &other.copy.header.geometry;
    own.max_disks == its.max_disks
        && own.max_arrays == its.max_arrays
        && own.max_members == its.max_members
        && own.record_length == its.record_length
        && disk.copy.slots.items().len() == other.copy.slots.items().len()
}

fn all_have_numbers(disk: &Disk, disks: &[Disk]) -> bool
    ensures { result ≡ list_all (same_numbers disk.now) disks.now }
{
    disks.iter().all(|other| same_numbers(disk, other))
}

fn any_differ(disks: &[Disk]) -> bool
    ensures { result ≡ numbers_differ disks.now }
{
    match disks.split_first() {
        Some((first, others)) => !all_have_numbers(first, others),
        None => false,
    }
}

/// Whether the tables of two disks of either group have different sizes.
pub(crate) fn numbers_differ<'a>(
    alloc: Global,
    native: &[Disk<'a>],
    joining: &[Disk<'a>],
) -> Result<bool, NoMemory>
    ensures { IfOk result (λ differ. differ ≡ numbers_differ (native.now ++ joining.now)) }
{
    let mut all = all_again(alloc, native)?;
    for disk in joining {
        all.push(disk.again())?;
    }
    Ok(any_differ(&all))
}

/// The table that has no room for so many entries, whatever its geometry.
pub(crate) fn full_of_entries(disks: usize, arrays: usize) -> Option<FullTable>
    ensures { result ≡ full_of_entries disks arrays }
{
    if disks > 65535 {
        return Some(FullTable::Disks);
    }
    if arrays > 65535 {
        return Some(FullTable::Arrays);
    }
    None
}

/// The first of these seats whose disk lists a bad block.
pub(crate) fn bad_refusal(seats: &[Seat]) -> Option<Refusal>
    ensures { result ≡ bad_refusal seats.now }
{
    match seats.iter().find(|seat| seat.bad > 0) {
        Some(seat) => Some(Refusal::BadBlocks(seat.slot)),
        None => None,
    }
}
