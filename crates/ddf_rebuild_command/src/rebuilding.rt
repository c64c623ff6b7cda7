//! `rebuild`: a position of an array is filled, and is in sync again. docs/COMMANDS.md#rebuild
ghost use Rattle.std.specs.Prelude.{◌≡◌, Some, OnOk};
ghost use Rattle.ddf_bytes.specs.Stamps.{timestamp_of};
ghost use Rattle.ddf_bay.specs.Moments.{GoesOn};
ghost use Rattle.ddf_answer.specs.Call.{answer_of, work_of};
ghost use Rattle.ddf_answer.specs.Status.{code_of};
ghost use Rattle.ddf_answer.specs.Ends.{Ends};
ghost use Rattle.ddf_words.specs.declared.command.Command.{Command};
ghost use Rattle.ddf_words.specs.Traits.{traits_of};
ghost use Rattle.ddf_rebuild_command.specs.declared.planning.Filling.{Filling};
ghost use Rattle.ddf_rebuild_command.specs.Opened.{CanOpen};
ghost use Rattle.ddf_rebuild_command.specs.Rebuilt.{HasRebuiltArray, IsRebuildDone};
ghost use Rattle.ddf_rebuild_command.specs.Run.{AsksInRun, CanFillBehind, IsRun};

use crate::filling::fill;
use crate::planning::{Filling, Plan, plan_rebuild};
use crate::stepping::{open_position, ready_steps, recover_group};
use ddf_answer::{Failure, Status, tell, tell_failure};
use ddf_assembly::Group;
use ddf_bay::Bay;
use ddf_bytes::{Guid, Sink, Stamp};
use ddf_group_commands::read_group;
use ddf_recovery::Ready;
use ddf_text::sequence_line;
use std::alloc::Global;

/// Recovers the group that the disks are, fills the first position of the array that the word names which is out of sync, onto a spare where the position's disk is no
/// current member, and prints the group's sequence number behind it. Rows that an earlier rebuild of the position set are kept.
pub fn rebuild<B: Bay, K: Sink>(
    alloc: Global,
    named: Option<Guid>,
    name: &[u8],
    bay: &mut B,
    sink: &mut K,
    stamp: &Stamp,
) -> Status
    // promise:chosen
    ensures done { IsRebuildDone (work_of B.tells (B.disks bay.old) (B.disks bay.new)) named (timestamp_of stamp.now) name.now (answer_of K.tells (K.output sink.old) (K.output sink.new) (code_of result)) }
    ensures ends { Ends (traits_of (Command.Rebuild name.now)) (work_of B.tells (B.disks bay.old) (B.disks bay.new)) (answer_of K.tells (K.output sink.old) (K.output sink.new) (code_of result)) }
{
    match rebuilt(alloc, named, name, bay, stamp) {
        Ok(sequence) => tell(sink, sequence_line(sequence).as_bytes(), Status::Ok),
        Err(failure) => tell_failure(alloc, failure, sink),
    }
}

/// The same, without the answer: the sequence number of the group behind it.
fn rebuilt<B: Bay>(
    alloc: Global,
    named: Option<Guid>,
    name: &[u8],
    bay: &mut B,
    stamp: &Stamp,
) -> Result<u32, Failure>
    ensures rebuilt { HasRebuiltArray (work_of B.tells (B.disks bay.old) (B.disks bay.new)) named (timestamp_of stamp.now) name.now result }
    ensures goes_on { GoesOn (B.disks bay.old) (B.disks bay.new) }
    ensures same_sizes { (B.disks bay.new).sizes ≡ (B.disks bay.old).sizes }
{
    let mut group = read_group(alloc, named, bay)?;
    let plan = plan_rebuild(alloc, &group, name)?;
    let timestamp = stamp.timestamp();
    let mut ready = ready_steps(alloc, &group, plan.changes.items(), timestamp)?;
    rebuild_array(&mut group, &mut ready, &plan, bay)
}

/// Recovers a group, and fills what is planned of it, by the steps of it that are ready. It answers the group's sequence number behind them, and takes no memory.
fn rebuild_array<B: Bay>(
    group: &mut Group,
    ready: &mut Ready,
    plan: &Plan,
    bay: &mut B,
) -> Result<u32, Failure>
    requires open { CanOpen B.tells (B.disks bay.old) group.old ready.old }
    requires fills { (filling : Filling) → plan.now.filling ≡ Some filling → CanFillBehind (B.disks bay.old).sizes group.old filling ready.old }
    ensures run { IsRun B.disks B.tells (B.disks bay.old) (B.disks bay.new) group.old ready.old plan.now.filling result }
    ensures unfailed { OnOk result ((B.disks bay.new).failed_writes ≡ (B.disks bay.old).failed_writes) }
    ensures asks { AsksInRun (B.disks bay.old) (B.disks bay.new) ready.old plan.now.filling }
{
    match &plan.filling {
        Some(filling) => fill_position(group, ready, filling, bay),
        None => {
            recover_group(group, ready, bay)?;
            Ok(group.config().sequence)
        }
    }
}

/// Recovers a group, gives a position of it a spare where it needs one, and fills the position's rows.
fn fill_position<B: Bay>(
    group: &mut Group,
    ready: &mut Ready,
    filling: &Filling,
    bay: &mut B,
) -> Result<u32, Failure>
    requires open { CanOpen B.tells (B.disks bay.old) group.old ready.old }
    requires fills { CanFillBehind (B.disks bay.old).sizes group.old filling.now ready.old }
    ensures run { IsRun B.disks B.tells (B.disks bay.old) (B.disks bay.new) group.old ready.old (Some filling.now) result }
    ensures unfailed { OnOk result ((B.disks bay.new).failed_writes ≡ (B.disks bay.old).failed_writes) }
    ensures asks { AsksInRun (B.disks bay.old) (B.disks bay.new) ready.old (Some filling.now) }
{
    open_position(group, ready, filling.begins, bay)?;
    fill(
        group,
        ready,
        filling,
        filling.from,
        filling.rows.items(),
        bay,
    )?;
    Ok(group.config().sequence)
}
