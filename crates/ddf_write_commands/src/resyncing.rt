//! `resync`: the copies and the parity of an array are made to agree. One that isn't marked is read before its mark: marked and stopped by a bad
//! sector it would have lost what parity alone gives. docs/FAULTS.md#a-resync-over-an-unreadable-sector
ghost use Rattle.std.specs.Prelude.{◌≡◌, ◌⊎◌, ◌+◌, ◌≤◌, ℕ, List, None, false, true, OnOk, IfErr};
ghost use Rattle.ddf_bytes.specs.Stamps.{timestamp_of};
ghost use Rattle.ddf_bay.specs.Moments.{GoesOn, IsSettled, StopsLeave};
ghost use Rattle.ddf_array.specs.Apart.{IsApart};
ghost use Rattle.ddf_array.specs.Sources.{trusts_parity};
ghost use Rattle.ddf_array.specs.Volume.{Fits, IsVolume};
ghost use Rattle.ddf_array.specs.Within.{is_redundant};
ghost use Rattle.ddf_read.specs.Reading.{Failed, OnlyReads};
ghost use Rattle.ddf_cells.specs.Touching.{GoesBetween};
ghost use Rattle.ddf_resync.specs.Compared.{HasDiffered};
ghost use Rattle.ddf_resync.specs.Resyncing.{AddsResynced, HasResynced, IsAmongResynced, IsLeftByResync, IsResyncFault, IsSetOn, IsUntouched, resync_refusal};
ghost use Rattle.ddf_resync.specs.Several.{resync_sectors};
ghost use Rattle.ddf_recovery.specs.Committed.{WasReadied};
ghost use Rattle.ddf_recovery.specs.Recovery.{config_recovered};
ghost use Rattle.ddf_seats.specs.Seated.{seated};
ghost use Rattle.ddf_history_steps.specs.BlockFloors.{AreFloored};
ghost use Rattle.ddf_answer.specs.Call.{answer_of, work_of};
ghost use Rattle.ddf_answer.specs.Ends.{Ends};
ghost use Rattle.ddf_words.specs.declared.command.Command.{Command};
ghost use Rattle.ddf_words.specs.Traits.{traits_of};
ghost use Rattle.ddf_answer.specs.Status.{code_of};
ghost use Rattle.ddf_group_commands.specs.GroupRead.{IsReadFrom};
ghost use Rattle.ddf_write_commands.specs.Opened.{AreMembers};
ghost use Rattle.ddf_write_commands.specs.Plans.{IsPlanOf};
ghost use Rattle.ddf_write_commands.specs.Resync.{HasResyncedArray, HasResyncedBlocks, IsResyncDone, IsUnreadAt, resync_behind, resync_refusals};

use crate::around::{close_blocks, open_blocks, ready_blocks};
use crate::planning::{Plan, plan_resync};
use ddf_answer::{Failure, Status, tell, tell_failure};
use ddf_assembly::Group;
use ddf_bay::Bay;
use ddf_bytes::{Guid, Sink, Stamp};
use ddf_group_commands::read_group;
use ddf_read::VolumeFault;
use ddf_read_commands::failure_of;
use ddf_recovery::Ready;
use ddf_resync::{needs_of_resync, resync, resync_differing};
use ddf_text::sequence_line;
use std::alloc::Global;

/// Recovers the group that the disks are, makes the copies and the parity of the array agree that the word names, and prints the group's sequence
/// number behind it.
pub fn resync_disks<B: Bay, K: Sink>(
    alloc: Global,
    named: Option<Guid>,
    name: &[u8],
    bay: &mut B,
    sink: &mut K,
    stamp: &Stamp,
) -> Status
    // promise:copied
    ensures done { IsResyncDone (work_of B.tells (B.disks bay.old) (B.disks bay.new)) named (timestamp_of stamp.now) name.now (answer_of K.tells (K.output sink.old) (K.output sink.new) (code_of result)) }
    ensures ends { Ends (traits_of (Command.Resync name.now)) (work_of B.tells (B.disks bay.old) (B.disks bay.new)) (answer_of K.tells (K.output sink.old) (K.output sink.new) (code_of result)) }
{
    match resynced(alloc, named, name, bay, stamp) {
        Ok(sequence) => tell(sink, sequence_line(sequence).as_bytes(), Status::Ok),
        Err(failure) => tell_failure(alloc, failure, sink),
    }
}

/// The same, without the answer: the sequence number of the group behind it.
fn resynced<B: Bay>(
    alloc: Global,
    named: Option<Guid>,
    name: &[u8],
    bay: &mut B,
    stamp: &Stamp,
) -> Result<u32, Failure>
    ensures resynced { HasResyncedArray (work_of B.tells (B.disks bay.old) (B.disks bay.new)) named (timestamp_of stamp.now) name.now result }
    ensures goes_on { GoesOn (B.disks bay.old) (B.disks bay.new) }
    ensures same_sizes { (B.disks bay.new).sizes ≡ (B.disks bay.old).sizes }
{
    let mut group = read_group(alloc, named, bay)?;
    let plan = plan_resync(alloc, &group, name)?;
    let timestamp = stamp.timestamp();
    let mut ready = ready_blocks(alloc, &group, &plan, timestamp)?;
    resync_array(&mut group, &mut ready, &plan, timestamp, bay)
}

/// Resyncs an array between the steps of its group that are ready, where what that needs can be read. It takes no memory.
// argued: that an array that isn't marked is read before it is marked, for the body looks first: `done` allows a read to end it behind the mark too.
fn resync_array<B: Bay>(
    group: &mut Group,
    ready: &mut Ready,
    plan: &Plan,
    timestamp: u32,
    bay: &mut B,
) -> Result<u32, Failure>
    requires from { IsReadFrom B.tells (B.disks bay.old) group.old }
    requires was { WasReadied group.old plan.now.changes timestamp ready.old }
    requires planned { (word : List ℕ) × IsPlanOf resync_refusals resync_behind (config_recovered group.old) group.old.seats word plan.now }
    requires members { AreMembers (config_recovered group.old) group.old.seats }
    requires floored { AreFloored (seated group.old) }
    ensures done { HasResyncedBlocks B.tells (B.disks bay.old) (B.disks bay.new) group.old plan.now timestamp result }
    ensures unfailed { OnOk result ((B.disks bay.new).failed_writes ≡ (B.disks bay.old).failed_writes) }
    ensures goes { GoesBetween (B.disks bay.old) (B.disks bay.new) }
{
    look(plan, bay)?;
    resync_between(group, ready, plan, timestamp, bay)
}

/// Reads what the resync of an array needs, before it is marked for this: where a sector can't be read nothing is written. One that has its mark is resynced as it is.
fn look<B: Bay>(plan: &Plan, bay: &mut B) -> Result<(), Failure>
    requires known { IsVolume plan.now.view }
    requires fits { Fits (B.disks bay.old).sizes plan.now.view }
    requires accepted { resync_refusal plan.now.view ≡ None }
    ensures failed { IfErr result (IsUnreadAt (B.disks bay.old) (B.disks bay.new) plan.now.view) }
    ensures reads { OnlyReads (B.disks bay.old) (B.disks bay.new) }
{
    if !plan.marks {
        return Ok(());
    }
    match needs_of_resync(bay, &plan.view) {
        Ok(()) => Ok(()),
        Err(fault) => Err(failure_of(fault)),
    }
}

/// Resyncs an array between the steps of its group that are ready.
fn resync_between<B: Bay>(
    group: &mut Group,
    ready: &mut Ready,
    plan: &Plan,
    timestamp: u32,
    bay: &mut B,
) -> Result<u32, Failure>
    requires from { IsReadFrom B.tells (B.disks bay.old) group.old }
    requires was { WasReadied group.old plan.now.changes timestamp ready.old }
    requires planned { (word : List ℕ) × IsPlanOf resync_refusals resync_behind (config_recovered group.old) group.old.seats word plan.now }
    requires members { AreMembers (config_recovered group.old) group.old.seats }
    requires floored { AreFloored (seated group.old) }
    ensures done { HasResyncedBlocks B.tells (B.disks bay.old) (B.disks bay.new) group.old plan.now timestamp result }
    ensures unfailed { OnOk result ((B.disks bay.new).failed_writes ≡ (B.disks bay.old).failed_writes) }
    ensures goes { GoesBetween (B.disks bay.old) (B.disks bay.new) }
{
    open_blocks(group, ready, plan, timestamp, bay)?;
    match resync_blocks(plan, bay) {
        Ok(()) => close_blocks(group, ready, bay),
        Err(fault) => Err(failure_of(fault)),
    }
}

/// Resyncs the blocks of an array. One that was marked for this alone is resynced where it differs: else nothing of it is written.
fn resync_blocks<B: Bay>(plan: &Plan, bay: &mut B) -> Result<(), VolumeFault>
    requires apart { IsApart plan.now.view }
    requires fits { Fits (B.disks bay.old).sizes plan.now.view }
    requires marked { is_redundant plan.now.view ≡ true → trusts_parity plan.now.view ≡ false }
    ensures any_moment { StopsLeave (B.disks bay.old) (B.disks bay.new) (IsAmongResynced plan.now.view B.tells (B.disks bay.old).held (B.disks bay.old).may_hold) }
    ensures left { AddsResynced plan.now.view B.tells (B.disks bay.old).held (B.disks bay.old).may_hold (B.disks bay.new).may_hold }
    ensures held { B.tells → IsLeftByResync plan.now.view B.tells (B.disks bay.old).held (B.disks bay.new).held }
    ensures resynced { B.tells → OnOk result (HasResynced (Failed (B.disks bay.old) (B.disks bay.new)) plan.now.view (B.disks bay.old).held (B.disks bay.new).held) }
    ensures settled { B.tells → OnOk result ((slot : ℕ) → IsSettled (B.disks bay.old).may_hold (B.disks bay.old).held slot → IsSettled (B.disks bay.new).may_hold (B.disks bay.new).held slot) }
    ensures unfailed { OnOk result ((B.disks bay.new).failed_writes ≡ (B.disks bay.old).failed_writes) }
    ensures fault { IfErr result (IsResyncFault (B.disks bay.old) (B.disks bay.new) plan.now.view) }
    ensures goes { GoesBetween (B.disks bay.old) (B.disks bay.new) }
    ensures asked { (B.disks bay.new).sectors_asked ≤ (B.disks bay.old).sectors_asked + resync_sectors plan.now.view }
    ensures sectors { (B.disks bay.new).sectors_written ≤ (B.disks bay.old).sectors_written + resync_sectors plan.now.view }
    ensures idle { is_redundant plan.now.view ≡ false → IsUntouched (B.disks bay.old) (B.disks bay.new) }
    ensures agreed { B.tells → plan.now.marks ≡ true → OnlyReads (B.disks bay.old) (B.disks bay.new) ⊎ HasDiffered plan.now.view (B.disks bay.old).held (B.disks bay.old) (B.disks bay.new) }
    // An array that is marked may read well from what a sync that failed has lost, so it is written whatever it reads.
    ensures durable { B.tells → plan.now.marks ≡ false → OnOk result ((slot : ℕ) → IsSetOn plan.now.view slot → IsSettled (B.disks bay.new).may_hold (B.disks bay.new).held slot) }
{
    if plan.marks {
        return resync_differing(bay, &plan.view);
    }
    resync(bay, &plan.view)
}
