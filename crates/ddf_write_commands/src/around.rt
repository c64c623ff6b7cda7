//! What is written around the blocks of an array: a group's recovery and the array's mark before them, and the last step behind them. A stop
//! within blocks of an array that isn't marked would leave parity that fits no row, and nothing would tell.
//! docs/STOPS.md#the-blocks-of-arrays
ghost use Rattle.std.specs.Prelude.{◌≡◌, ◌+◌, ◌*◌, ◌≤◌, ℕ, List, Bool, false, Option, None, Ok, Err, length, IfErr, IfOk, OnOk};
ghost use Rattle.std.specs.List.{AllByRecursion, list_any};
ghost use Rattle.ddf_bay.specs.Moments.{GoesOn, StopsLeave};
ghost use Rattle.ddf_plan.specs.Same.{is_step};
ghost use Rattle.ddf_steps.specs.Asked.{CanBeAsked};
ghost use Rattle.ddf_assembly.specs.Assembled.{IsAssembledGroup};
ghost use Rattle.ddf_update.specs.Prepared.{all_sectors};
ghost use Rattle.ddf_recovery.specs.Committed.{WasReadied, next_updates};
ghost use Rattle.ddf_steps.specs.Committed.{slots_of};
ghost use Rattle.ddf_recovery.specs.Ready.{readied};
ghost use Rattle.ddf_recovery.specs.Recovery.{config_recovered};
ghost use Rattle.ddf_steps.specs.Steps.{Step};
ghost use Rattle.ddf_history_steps.specs.Steps.{IsCommit};
ghost use Rattle.ddf_answer.specs.Call.{work_of};
ghost use Rattle.ddf_answer.specs.Costs.{WritesAtMost};
ghost use Rattle.ddf_group_commands.specs.Change.{IsChanged, KeepsHistories, is_done, steps_or};
ghost use Rattle.ddf_group_commands.specs.GroupRead.{IsFoundBy, IsReadFrom};
ghost use Rattle.ddf_group_commands.specs.Others.{LeavesOthers};
ghost use Rattle.ddf_group_commands.specs.Writing.{IsLeftWriting};
ghost use Rattle.ddf_write_commands.specs.Around.{IsMark, front, rest};
ghost use Rattle.ddf_write_commands.specs.Closed.{IsClosed};
ghost use Rattle.ddf_write_commands.specs.Costs.{sectors_before};
ghost use Rattle.ddf_write_commands.specs.Opened.{AreMembers, CanGoOn, IsOpened, steps_left};
ghost use Rattle.ddf_write_commands.specs.Plans.{IsNotReadied};

use crate::planning::Plan;
use ddf_answer::Failure;
use ddf_assembly::Group;
use ddf_bay::Bay;
use ddf_group_commands::failure_of;
use ddf_recovery::{Ready, commit, make_ready, recover};
use std::alloc::Global;

/// All that the changes around the blocks of an array take: it is made before anything is written.
///
/// # Errors
/// `Refused` where the group can't be recovered or changed so; `Memory` where memory ran out.
pub(crate) fn ready_blocks(
    alloc: Global,
    group: &Group,
    plan: &Plan,
    timestamp: u32,
) -> Result<Ready, Failure>
    requires assembled { IsAssembledGroup group.now }
    requires asked { AllByRecursion CanBeAsked plan.now.changes }
    ensures was { IfOk result (WasReadied group.now plan.now.changes timestamp) }
    ensures refused { IfErr result (IsNotReadied (readied group.now plan.now.changes timestamp)) }
{
    match make_ready(alloc, group, plan.changes.items(), timestamp) {
        Ok(ready) => Ok(ready),
        Err(fault) => Err(failure_of(fault)),
    }
}

/// Recovers a group, and marks the array whose blocks are to be written, by what was readied of it before. Where the array is redundant the first
/// of the changes is its mark, and it is written where it is a step; the other change, if there is one, comes behind the blocks.
pub(crate) fn open_blocks<B: Bay>(
    group: &mut Group,
    ready: &mut Ready,
    plan: &Plan,
    timestamp: u32,
    bay: &mut B,
) -> Result<(), Failure>
    requires from { IsReadFrom B.tells (B.disks bay.old) group.old }
    requires was { WasReadied group.old plan.now.changes timestamp ready.old }
    requires asked { AllByRecursion CanBeAsked plan.now.changes }
    requires mark { AllByRecursion IsMark (front plan.now.redundant plan.now.changes) }
    requires few { length (rest plan.now.redundant plan.now.changes) ≤ 1 }
    requires steps { plan.now.marks ≡ list_any (is_step (config_recovered group.old)) (front plan.now.redundant plan.now.changes) }
    requires members { AreMembers (config_recovered group.old) group.old.seats }
    ensures opened { OnOk result (IsOpened B.tells (B.disks bay.old) (B.disks bay.new) group.old (front plan.now.redundant plan.now.changes) plan.now.changes timestamp group.new ready.new) }
    ensures left { OnOk result (ready.new ≡ record { recovery = None; steps = rest plan.now.marks ready.old.steps }) }
    ensures costs { WritesAtMost (work_of B.tells (B.disks bay.old) (B.disks bay.new)) (sectors_before plan.now.marks ready.old) }
    ensures calls { (B.disks bay.new).calls ≤ (B.disks bay.old).calls + 51 * length (B.disks bay.old).sizes }
    ensures failed { IfErr result (λ failure. IsChanged (work_of B.tells (B.disks bay.old) (B.disks bay.new)) group.old (steps_or (readied group.old plan.now.changes timestamp)) (Err failure)) }

    // From entry to exit slots that are no seats' are left as before, each history that admits the call is kept by the first steps, and of the seats'
    // slots nothing is another than before but the copies that are written.
    ensures beside { B.tells → LeavesOthers (B.disks bay.old) (B.disks bay.new) (slots_of group.old.seats) }
    ensures keeps { B.tells → (left : List Bool) (named : Option (List ℕ)) → IsFoundBy (B.disks bay.old) left named group.old → (steps : List Step) → readied group.old (front plan.now.redundant plan.now.changes) timestamp ≡ Ok steps
        → IfErr result (λ failure. KeepsHistories (B.disks bay.old) (B.disks bay.new) left group.old steps false) }
    ensures leaves { B.tells → (steps : List Step) → readied group.old (front plan.now.redundant plan.now.changes) timestamp ≡ Ok steps → StopsLeave (B.disks bay.old) (B.disks bay.new) (IsLeftWriting (B.disks bay.old) steps) }
    ensures goes_on { GoesOn (B.disks bay.old) (B.disks bay.new) }
    ensures same_sizes { (B.disks bay.new).sizes ≡ (B.disks bay.old).sizes }
    ensures unfailed { OnOk result ((B.disks bay.new).failed_writes ≡ (B.disks bay.old).failed_writes) }
    ensures reads { (B.disks bay.new).failed_reads ≡ (B.disks bay.old).failed_reads }
    ensures writes_rise { (slot : ℕ) → (B.disks bay.old).failed_writes slot ≤ (B.disks bay.new).failed_writes slot }
{
    recover(group, bay, ready)?;
    if plan.marks {
        commit(group, bay, ready)?;
    }
    Ok(())
}

/// Writes the step that is left behind the blocks, and answers the group's sequence number behind it.
pub(crate) fn close_blocks<B: Bay>(
    group: &mut Group,
    ready: &mut Ready,
    bay: &mut B,
) -> Result<u32, Failure>
    requires { CanGoOn B.tells (B.disks bay.old) group.old ready.old }
    ensures closed { IsClosed B.tells (B.disks bay.old) (B.disks bay.new) group.old ready.old result }
    ensures costs { WritesAtMost (work_of B.tells (B.disks bay.old) (B.disks bay.new)) (all_sectors (next_updates ready.old)) }
    ensures calls { (B.disks bay.new).calls ≤ (B.disks bay.old).calls + 25 * length (B.disks bay.old).sizes }
    ensures beside { B.tells → LeavesOthers (B.disks bay.old) (B.disks bay.new) (slots_of group.old.seats) }
    ensures leaves { B.tells → StopsLeave (B.disks bay.old) (B.disks bay.new) (IsLeftWriting (B.disks bay.old) (steps_left ready.old)) }

    ensures commits { B.tells → IsCommit (B.disks bay.old) (B.disks bay.new) ready.old (is_done result) }
    ensures goes_on { GoesOn (B.disks bay.old) (B.disks bay.new) }
    ensures same_sizes { (B.disks bay.new).sizes ≡ (B.disks bay.old).sizes }
    ensures unfailed { OnOk result ((B.disks bay.new).failed_writes ≡ (B.disks bay.old).failed_writes) }
    ensures reads { (B.disks bay.new).failed_reads ≡ (B.disks bay.old).failed_reads }
    ensures writes_rise { (slot : ℕ) → (B.disks bay.old).failed_writes slot ≤ (B.disks bay.new).failed_writes slot }
{
    commit(group, bay, ready)?;
    Ok(group.config().sequence)
}
