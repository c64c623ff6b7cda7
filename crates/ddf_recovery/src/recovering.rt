//! The recovery of a group: the loss of the members that are absent, or else the configuration for the seats that lag.
//! docs/STOPS.md#what-the-next-command-does-first
ghost use Rattle.std.specs.Prelude.{◌≡◌, ◌==◌, ℕ, None, Some, Err, filter, find, map, option_map, IfOk, IfSome};
ghost use Rattle.ddf_plan.specs.Causes.{causes};
ghost use Rattle.ddf_rewrite.specs.Before.{before};
ghost use Rattle.ddf_assembly.specs.Assembled.{IsAssembledGroup};
ghost use Rattle.ddf_steps.specs.Full.{full_of};
ghost use Rattle.ddf_recovery.specs.Recovery.{config_lost, config_recovered, disks_recovered, full_of_mending, full_of_recovery, loss_of, lost_step, mending_step, recovery_of};
ghost use Rattle.ddf_seats.specs.Leading.{leading_views, some};
ghost use Rattle.ddf_steps.specs.Ready.{steps_from};
ghost use Rattle.ddf_steps.specs.Refusing.{most_members};
ghost use Rattle.ddf_seats.specs.Seated.{seated, seats_in};
ghost use Rattle.ddf_steps.specs.Steps.{stays_in};
ghost use Rattle.ddf_recovery.specs.Behind.{IsRecovered, behind_written, config_behind, disks_behind};
ghost use Rattle.ddf_steps.specs.Trying.{Follows};

use crate::mending::{least_mended, mended_disks};
use ddf_assembly::Group;
use ddf_bytes::{NoMemory, Seq};
use ddf_config::{Config, FullTable, Refusal, is_current};
use ddf_plan::{Change, cause};
use ddf_seats::{Disk, GroupFault, Seated, all_again, all_levelled, levelled, seats_in};
use ddf_steps::{
    Step, config_after, full_of, leading_views, lengths_differ, make_step, most_members, step_with,
};
use ddf_view::View;
use std::alloc::Global;

/// The configuration in which the absent members are lost.
pub(crate) fn config_lost(alloc: Global, group: &Group) -> Result<Config, NoMemory>
    ensures { IfOk result (λ config. config ≡ config_lost group.now) }
{
    let references = Vec::from_slice(alloc, group.absent())?;
    let loss = Change::Lose(Seq::new(references));
    config_after(alloc, group.config(), &loss)
}

/// The configuration in which the absent members are lost, where some are: a recovery gives it, and changes are decided over it.
#[tactic(auto, unfolding(crate::specs::Recovery::loss_of))]
pub fn loss(alloc: Global, group: &Group) -> Result<Option<Config>, NoMemory>
    ensures { IfOk result (λ loss. loss ≡ loss_of group.now) }
{
    if group.absent().is_empty() {
        return Ok(None);
    }
    let config = config_lost(alloc, group)?;
    Ok(Some(config))
}

/// The table that has no room for the loss of the absent members.
fn full_of_loss(
    alloc: Global,
    group: &Group,
    disks: &[Disk],
    leaders: &[View],
    timestamp: u32,
) -> Result<Option<FullTable>, NoMemory>
    requires assembled { IsAssembledGroup group.now }
    requires disks { disks.now ≡ seated group.now }
    requires leaders { leaders.now ≡ leading_views group.now }
    ensures { IfOk result (λ full. full ≡ full_of timestamp (before leaders.now) (config_lost group.now) disks.now) }
{
    let next = config_lost(alloc, group)?;
    full_of(alloc, disks, leaders, &next, timestamp)
}

/// The table that has no room for what the seats that lag get.
fn full_of_mending(
    alloc: Global,
    group: &Group,
    disks: &[Disk],
    leaders: &[View],
) -> Result<Option<FullTable>, NoMemory>
    requires assembled { IsAssembledGroup group.now }
    requires disks { disks.now ≡ seated group.now }
    requires leaders { leaders.now ≡ leading_views group.now }
    ensures { IfOk result (λ full. full ≡ full_of_mending group.now) }
{
    if lengths_differ(disks) {
        return Ok(Some(FullTable::Records));
    }
    least_mended(alloc, group, disks, leaders, group.config())
}

/// The table that has no room for a recovery of a group, by its disks and what those of them say that lead.
///
/// # Errors
/// Memory ran out.
#[tactic(auto, unfolding(crate::specs::Recovery::full_of_recovery))]
pub(crate) fn full_of_recovery(
    alloc: Global,
    group: &Group,
    disks: &[Disk],
    leaders: &[View],
    timestamp: u32,
) -> Result<Option<FullTable>, NoMemory>
    requires assembled { IsAssembledGroup group.now }
    requires disks { disks.now ≡ seated group.now }
    requires leaders { leaders.now ≡ leading_views group.now }
    ensures { IfOk result (λ full. full ≡ full_of_recovery timestamp group.now) }
{
    if !group.absent().is_empty() {
        return full_of_loss(alloc, group, disks, leaders, timestamp);
    }
    if !group.lagging().is_empty() {
        return full_of_mending(alloc, group, disks, leaders);
    }
    Ok(None)
}

/// The step in which the absent members are lost.
fn lost_step(
    alloc: Global,
    group: &Group,
    disks: &[Disk],
    leaders: &[View],
    timestamp: u32,
) -> Result<Step, NoMemory>
    requires assembled { IsAssembledGroup group.now }
    requires disks { disks.now ≡ seated group.now }
    requires leaders { leaders.now ≡ leading_views group.now }
    requires room { full_of timestamp (before leaders.now) (config_lost group.now) disks.now ≡ None }
    ensures step { IfOk result (λ made. made.step ≡ lost_step timestamp group.now) }
    ensures follows { IfOk result (Follows (seated group.now)) }
{
    let next = config_lost(alloc, group)?;
    let step = make_step(alloc, next, disks, leaders, timestamp)?;
    Ok(step)
}

/// The step that gives the configuration to the seats that lag.
fn mending_step(
    alloc: Global,
    group: &Group,
    disks: &[Disk],
    leaders: &[View],
    timestamp: u32,
) -> Result<Step, NoMemory>
    requires assembled { IsAssembledGroup group.now }
    requires disks { disks.now ≡ seated group.now }
    requires leaders { leaders.now ≡ leading_views group.now }
    requires room { full_of_mending group.now ≡ None }
    ensures step { IfOk result (λ made. made.step ≡ mending_step timestamp group.now) }
    ensures follows { IfOk result (Follows (seated group.now)) }
{
    let config = group.config().duplicate(alloc)?;
    let after = mended_disks(alloc, group, &config, disks, leaders, timestamp)?;
    let step = step_with(alloc, config, after)?;
    Ok(step)
}

/// The recovery of a group, by its disks and what those of them say that lead: none where nothing is absent and nothing lags.
///
/// # Errors
/// Memory ran out.
#[tactic(auto, unfolding(crate::specs::Recovery::recovery_of, crate::specs::Recovery::full_of_recovery))]
pub(crate) fn recovery(
    alloc: Global,
    group: &Group,
    disks: &[Disk],
    leaders: &[View],
    timestamp: u32,
) -> Result<Option<Step>, NoMemory>
    requires assembled { IsAssembledGroup group.now }
    requires disks { disks.now ≡ seated group.now }
    requires leaders { leaders.now ≡ leading_views group.now }
    requires room { full_of_recovery timestamp group.now ≡ None }
    ensures step { IfOk result (λ next. option_map (λ one. one.step) next ≡ recovery_of timestamp group.now) }
    ensures follows { IfOk result (λ next. IfSome next (Follows (seated group.now))) }
{
    if !group.absent().is_empty() {
        let step = lost_step(alloc, group, disks, leaders, timestamp)?;
        return Ok(Some(step));
    }
    if !group.lagging().is_empty() {
        let step = mending_step(alloc, group, disks, leaders, timestamp)?;
        return Ok(Some(step));
    }
    Ok(None)
}

/// Whether a member is absent.
pub(crate) fn any_absent(group: &Group) -> bool
    ensures { result ≡ some group.now.absent }
{
    !group.absent().is_empty()
}

/// The disks of current members.
fn staying<'a>(
    alloc: Global,
    config: &Config,
    disks: &[Disk<'a>],
) -> Result<Vec<Disk<'a>>, NoMemory>
    ensures { IfOk result (λ kept. kept.items ≡ filter (stays_in config.now) disks.now) }
{
    let mut kept = Vec::new(alloc);
    for disk in disks {
        if is_current(&config.members, disk.seat.reference) {
            kept.push(disk.again())?;
        }
    }
    Ok(kept)
}

/// Why changes are refused of a configuration on disks for which a table is full before them: for the causes of the first one, and else
/// for the table.
fn full_refusal(
    alloc: Global,
    config: &Config,
    disks: &[Disk],
    changes: &[Change],
    table: FullTable,
) -> Result<Refusal, NoMemory>
    ensures { IfOk result (λ refusal. (timestamp : ℕ) → steps_from timestamp (Some table) changes.now config.now disks.now ≡ Err refusal) }
{
    match changes.split_first() {
        Some((change, _)) => {
            let refusal = first_cause(alloc, config, disks, change)?;
            Ok(refusal.unwrap_or(Refusal::Full(table)))
        }
        None => Ok(Refusal::Full(table)),
    }
}

/// The first cause for which a change is refused on disks.
fn first_cause(
    alloc: Global,
    config: &Config,
    disks: &[Disk],
    change: &Change,
) -> Result<Option<Refusal>, NoMemory>
    ensures { IfOk result (λ refusal. refusal ≡ causes (Some (most_members disks.now)) config.now change.now (seats_in disks.now)) }
{
    let seats = seats_in(alloc, disks)?;
    cause(alloc, config, change, &seats, Some(most_members(disks)))
}

/// Why changes are refused behind a recovery for which a table is full.
fn refusal_behind(
    alloc: Global,
    group: &Group,
    disks: &[Disk],
    changes: &[Change],
    table: FullTable,
) -> Result<Refusal, NoMemory>
    requires { disks.now ≡ seated group.now }
    ensures { IfOk result (λ refusal. (timestamp : ℕ) → steps_from timestamp (Some table) changes.now (config_recovered group.now) (disks_recovered timestamp group.now) ≡ Err refusal) }
{
    if any_absent(group) {
        let config = config_lost(alloc, group)?;
        let kept = staying(alloc, &config, disks)?;
        let refusal = full_refusal(alloc, &config, &kept, changes, table)?;
        return Ok(refusal);
    }
    let refusal = full_refusal(alloc, group.config(), disks, changes, table)?;
    Ok(refusal)
}

/// The recovery of a group, where its disks have room for it.
///
/// # Errors
/// Where they have none, what refuses changes behind it. Or memory ran out.
pub fn first_step(
    alloc: Global,
    group: &Group,
    disks: &[Disk],
    changes: &[Change],
    timestamp: u32,
) -> Result<Option<Step>, GroupFault>
    requires assembled { IsAssembledGroup group.now }
    requires disks { disks.now ≡ seated group.now }
    ensures recovered { IsRecovered timestamp group.now changes.now result }
    ensures follows { IfOk result (λ next. IfSome next (Follows (seated group.now))) }
{
    let leaders = leading_views(alloc, group.config(), disks)?;
    let full = full_of_recovery(alloc, group, disks, &leaders, timestamp)?;
    if let Some(table) = full {
        let refusal = refusal_behind(alloc, group, disks, changes, table)?;
        return Err(GroupFault::Refused(refusal));
    }
    let next = recovery(alloc, group, disks, &leaders, timestamp)?;
    Ok(next)
}

/// The first of these disks on a slot.
fn find_written(written: &[Seated], slot: usize) -> Option<&Seated>
    ensures { option_map (λ disk. disk.now) result ≡ find (λ other. other.seat.slot == slot) written.now }
{
    for disk in written {
        if disk.seat.slot == slot {
            return Some(disk);
        }
    }
    None
}

/// A disk behind a step: as the step writes it, where it does.
fn behind_written<'a>(written: &'a [Seated], disk: &Disk<'a>) -> Disk<'a>
    ensures { result ≡ behind_written written.now disk.now }
{
    match find_written(written, disk.seat.slot) {
        Some(other) => levelled(other),
        None => disk.again(),
    }
}

/// The disks of a group behind its recovery.
pub fn disks_behind<'a>(
    alloc: Global,
    group: &Group,
    disks: &[Disk<'a>],
    next: &'a Option<Step>,
) -> Result<Vec<Disk<'a>>, NoMemory>
    ensures { IfOk result (λ behind. behind.items ≡ disks_behind group.now next.now disks.now) }
{
    match next {
        Some(step) => disks_behind_step(alloc, group, disks, step),
        None => all_again(alloc, disks),
    }
}

fn disks_behind_step<'a>(
    alloc: Global,
    group: &Group,
    disks: &[Disk<'a>],
    step: &'a Step,
) -> Result<Vec<Disk<'a>>, NoMemory>
    ensures { IfOk result (λ behind. behind.items ≡ disks_behind group.now (Some step.now) disks.now) }
{
    if any_absent(group) {
        return all_levelled(alloc, step.disks());
    }
    all_behind(alloc, step.disks(), disks)
}

/// Each disk, as a step writes it, where it does.
fn all_behind<'a>(
    alloc: Global,
    written: &'a [Seated],
    disks: &[Disk<'a>],
) -> Result<Vec<Disk<'a>>, NoMemory>
    ensures { IfOk result (λ behind. behind.items ≡ map (behind_written written.now) disks.now) }
{
    let mut behind = Vec::with_capacity(alloc, disks.len())?;
    for disk in disks {
        behind.push(behind_written(written, disk))?;
    }
    Ok(behind)
}

/// The configuration of a group behind its recovery.
pub(crate) fn config_behind<'a>(group: &'a Group, next: &'a Option<Step>) -> &'a Config
    ensures { result.now ≡ config_behind group.now next.now }
{
    match next {
        Some(step) => step.config(),
        None => group.config(),
    }
}
