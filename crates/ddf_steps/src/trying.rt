//! Whether a change of a group is a step, or why it is refused: asked of the copies of each disk before anything is written.
//! docs/DECISIONS.md#recovery-and-the-steps-of-a-change
ghost use Rattle.std.specs.Prelude.{◌≡◌, IfOk, IfSome};
ghost use Rattle.ddf_seats.specs.Seated.{views_in};
ghost use Rattle.ddf_steps.specs.Steps.{config_after};
ghost use Rattle.ddf_steps.specs.Refusing.{most_members, room_refusal};
ghost use Rattle.ddf_steps.specs.Asked.{CanBeAsked};
ghost use Rattle.ddf_seats.specs.Changing.{AreCopies, CanBeChanged, CanBeHeldOn};
ghost use Rattle.ddf_steps.specs.Trying.{Follows};
ghost use Rattle.ddf_steps.specs.Tried.{HasRoomOrNot, IsTried};

use crate::full::full_of;
use crate::steps::{Step, config_after, make_step};
use ddf_bytes::NoMemory;
use ddf_config::{Config, Refusal};
use ddf_plan::{Change, cause, extents_refusal, same_tables};
use ddf_seats::{Disk, GroupFault, seats_in, views_in};
use ddf_view::View;
use std::alloc::Global;

/// The greatest number of members that a record of some disk has room for.
pub fn most_members(disks: &[Disk]) -> u16
    ensures { result ≡ most_members disks.now }
{
    let mut most = 0;
    for disk in disks {
        most = disk.copy.header.geometry.max_members.max(most);
    }
    most
}

/// Why a change that alters the configuration has no room on the disks. `next` is the configuration after it, and the leaders are what
/// the copies of the disks say.
fn room_refusal(
    alloc: Global,
    config: &Config,
    next: &Config,
    disks: &[Disk],
    leaders: &[View],
    change: &Change,
    timestamp: u32,
) -> Result<Option<Refusal>, NoMemory>
    requires next { next.now ≡ config_after config.now change.now }
    requires leaders { leaders.now ≡ views_in disks.now }
    requires copies { AreCopies disks.now }
    requires held { CanBeHeldOn next.now disks.now }
    ensures { IfOk result (λ refusal. refusal ≡ room_refusal timestamp config.now disks.now change.now) }
{
    let full = full_of(alloc, disks, leaders, next, timestamp)?;
    if let Some(table) = full {
        return Ok(Some(Refusal::Full(table)));
    }
    let seats = seats_in(alloc, disks)?;
    extents_refusal(alloc, config, change, &seats, &seats)
}

/// The step that a change is, unless it has no room on the disks.
fn step_with_room(
    alloc: Global,
    config: &Config,
    next: Config,
    disks: &[Disk],
    change: &Change,
    timestamp: u32,
) -> Result<Step, GroupFault>
    requires next { next ≡ config_after config.now change.now }
    requires changed { CanBeChanged config.now disks.now }
    requires held { CanBeHeldOn next disks.now }
    ensures tried { HasRoomOrNot timestamp config.now disks.now change.now result }
    ensures follows { IfOk result (Follows disks.now) }
{
    let leaders = views_in(alloc, disks)?;
    let refusal = room_refusal(alloc, config, &next, disks, &leaders, change, timestamp)?;
    if let Some(refusal) = refusal {
        return Err(GroupFault::Refused(refusal));
    }
    let step = make_step(alloc, next, disks, &leaders, timestamp)?;
    Ok(step)
}

/// The step that a change is of this configuration on these disks. None where it alters no more than the sequence number.
///
/// # Errors
/// The change is refused, its sequence number aside, or memory ran out.
pub(crate) fn next_step(
    alloc: Global,
    config: &Config,
    disks: &[Disk],
    change: &Change,
    timestamp: u32,
) -> Result<Option<Step>, GroupFault>
    requires changed { CanBeChanged config.now disks.now }
    requires asked { CanBeAsked change.now }
    ensures tried { IsTried timestamp config.now disks.now change.now result }
    ensures follows { IfOk result (λ next. IfSome next (Follows disks.now)) }
{
    let seats = seats_in(alloc, disks)?;
    let refusal = cause(alloc, config, change, &seats, Some(most_members(disks)))?;
    if let Some(refusal) = refusal {
        return Err(GroupFault::Refused(refusal));
    }
    let next = config_after(alloc, config, change)?;
    if same_tables(config, &next) {
        return Ok(None);
    }
    let step = step_with_room(alloc, config, next, disks, change, timestamp)?;
    Ok(Some(step))
}
