//! How a group is read, recovered and changed.
ghost use Rattle.std.specs.Prelude.{◌≡◌, ◌+◌, ◌*◌, ◌≤◌, ℕ, Bool, List, length, Option, Ok, IfOk, OnOk};
ghost use Rattle.std.specs.List.{AllByRecursion};
ghost use Rattle.ddf_bay.specs.Moments.{GoesOn, StopsLeave};
ghost use Rattle.ddf_bay.specs.ReadsOnly.{ReadsOnly};
ghost use Rattle.ddf_steps.specs.Asked.{CanBeAsked};
ghost use Rattle.ddf_steps.specs.Committed.{slots_of};
ghost use Rattle.ddf_recovery.specs.Ready.{readied};
ghost use Rattle.ddf_recovery.specs.Recovery.{config_recovered, loss_of};
ghost use Rattle.ddf_assembly.specs.Slots.{LeaveNone};
ghost use Rattle.ddf_steps.specs.Steps.{Step};
ghost use Rattle.ddf_answer.specs.Call.{work_of};
ghost use Rattle.ddf_group_commands.specs.Change.{IsChanged, KeepsHistories, failure_of_group, is_done, steps_or};
ghost use Rattle.ddf_group_commands.specs.Costs.{CostsOfAsked};
ghost use Rattle.ddf_group_commands.specs.GroupRead.{IsFoundBy, IsGroupRead, IsReadFrom, IsReadLeavingOut};
ghost use Rattle.ddf_group_commands.specs.Others.{LeavesOthers};
ghost use Rattle.ddf_group_commands.specs.Writing.{IsLeftWriting};

use ddf_answer::Failure;
use ddf_assembly::{AssembledGroup, Group, assemble_with_left_out};
use ddf_bay::Bay;
use ddf_bytes::Guid;
use ddf_config::{Config, Refusal};
use ddf_plan::Change;
use ddf_recovery::{commit, make_ready, recover};
use ddf_seats::GroupFault;
use std::alloc::Global;

/// The group that the disks are.
///
/// # Errors
/// `Refused` where there is none, or no name and several; `Conflict` or `Split` where its records contradict each other; `Memory` where memory
/// ran out.
pub fn read_group<B: Bay>(alloc: Global, named: Option<Guid>, bay: &mut B) -> Result<Group, Failure>
    ensures read { IsGroupRead (work_of B.tells (B.disks bay.old) (B.disks bay.new)) named result }
    ensures from { IfOk result (IsReadFrom B.tells (B.disks bay.old)) }
    ensures reads { ReadsOnly (B.disks bay.old) (B.disks bay.new) }
    ensures reads_rise { (slot : ℕ) → (B.disks bay.old).failed_reads slot ≤ (B.disks bay.new).failed_reads slot }
    ensures writes_rise { (slot : ℕ) → (B.disks bay.old).failed_writes slot ≤ (B.disks bay.new).failed_writes slot }
{
    let read = read_with_left_out(alloc, named, bay)?;
    Ok(read.group)
}

/// The group that the disks are, and which slots were left out where it was read.
///
/// # Errors
/// Those of `read_group`.
pub fn read_with_left_out<B: Bay>(
    alloc: Global,
    named: Option<Guid>,
    bay: &mut B,
) -> Result<AssembledGroup, Failure>
    ensures read { IsReadLeavingOut (work_of B.tells (B.disks bay.old) (B.disks bay.new)) named result }
    ensures none { IfOk result (λ read. LeaveNone read.left_out read.group.newest) }
    ensures from { IfOk result (λ read. IsReadFrom B.tells (B.disks bay.old) read.group) }
    ensures reads { ReadsOnly (B.disks bay.old) (B.disks bay.new) }
    ensures reads_rise { (slot : ℕ) → (B.disks bay.old).failed_reads slot ≤ (B.disks bay.new).failed_reads slot }
    ensures writes_rise { (slot : ℕ) → (B.disks bay.old).failed_writes slot ≤ (B.disks bay.new).failed_writes slot }
{
    let read = assemble_with_left_out(alloc, bay, named)?;
    Ok(read)
}

/// The configuration of a group once it is recovered: the one in which its absent members are lost, where some are.
pub fn recovered<'a>(group: &'a Group, loss: &'a Option<Config>) -> &'a Config
    requires { loss.now ≡ loss_of group.now }
    ensures { result.now ≡ config_recovered group.now }
{
    match loss {
        Some(config) => config,
        None => group.config(),
    }
}

/// Why changes of a group aren't made, as the program tells it.
pub fn failure_of(fault: GroupFault) -> Failure
    ensures { result ≡ failure_of_group fault }
{
    match fault {
        GroupFault::Refused(refusal) => Failure::Refused(refusal),
        GroupFault::SequenceSpent => Failure::Refused(Refusal::SequenceSpent),
        GroupFault::Memory => Failure::Memory,
    }
}

/// Recovers a group and writes changes of it, one at the most, and answers the group's sequence number behind them.
pub(crate) fn write_changes<B: Bay>(
    alloc: Global,
    group: &mut Group,
    changes: &[Change],
    timestamp: u32,
    bay: &mut B,
) -> Result<u32, Failure>
    requires from { IsReadFrom B.tells (B.disks bay.old) group.old }
    requires asked { AllByRecursion CanBeAsked changes.now }
    requires one { length changes.now ≤ 1 }
    ensures changed { IsChanged (work_of B.tells (B.disks bay.old) (B.disks bay.new)) group.old (steps_or (readied group.old changes.now timestamp)) result }

    // From entry to exit slots that are no seats' are left as before, each history that admits the call is kept, and of the seats' slots nothing
    // is another than before but the copies that are written.
    ensures beside { B.tells → LeavesOthers (B.disks bay.old) (B.disks bay.new) (slots_of group.old.seats) }
    ensures keeps { B.tells → (left : List Bool) (named : Option (List ℕ)) → IsFoundBy (B.disks bay.old) left named group.old → (steps : List Step) → readied group.old changes.now timestamp ≡ Ok steps
        → KeepsHistories (B.disks bay.old) (B.disks bay.new) left group.old steps (is_done result) }
    ensures leaves { B.tells → (steps : List Step) → readied group.old changes.now timestamp ≡ Ok steps → StopsLeave (B.disks bay.old) (B.disks bay.new) (IsLeftWriting (B.disks bay.old) steps) }
    ensures goes_on { GoesOn (B.disks bay.old) (B.disks bay.new) }
    ensures same_sizes { (B.disks bay.new).sizes ≡ (B.disks bay.old).sizes }
    ensures unfailed { OnOk result ((B.disks bay.new).failed_writes ≡ (B.disks bay.old).failed_writes) }
    ensures reads { (B.disks bay.new).failed_reads ≡ (B.disks bay.old).failed_reads }
    ensures writes_rise { (slot : ℕ) → (B.disks bay.old).failed_writes slot ≤ (B.disks bay.new).failed_writes slot }
    ensures calls { (B.disks bay.new).calls ≤ (B.disks bay.old).calls + 51 * length (B.disks bay.old).sizes }
    ensures costs { CostsOfAsked (work_of B.tells (B.disks bay.old) (B.disks bay.new)) (steps_or (readied group.old changes.now timestamp)) }
{
    let mut ready = match make_ready(alloc, group, changes, timestamp) {
        Ok(ready) => ready,
        Err(fault) => return Err(failure_of(fault)),
    };
    recover(group, bay, &mut ready)?;
    commit(group, bay, &mut ready)?;
    Ok(group.config().sequence)
}
