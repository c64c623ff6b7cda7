//! `copyback`: a position of an array goes back from a revertible spare to another disk. docs/COMMANDS.md#copyback
ghost use Rattle.std.specs.Prelude.{◌≡◌, Some, slice_get, IfErr, OnOk};
ghost use Rattle.ddf_bytes.specs.Stamps.{timestamp_of};
ghost use Rattle.ddf_bay.specs.Moments.{GoesOn};
ghost use Rattle.ddf_array.specs.declared.part.Part.{Part};
ghost use Rattle.ddf_cells.specs.Writing.{AsksFor};
ghost use Rattle.ddf_primary.specs.Cells.{depth_of};
ghost use Rattle.ddf_answer.specs.Call.{answer_of, work_of};
ghost use Rattle.ddf_answer.specs.Ends.{Ends};
ghost use Rattle.ddf_answer.specs.Status.{code_of};
ghost use Rattle.ddf_words.specs.declared.command.Command.{Command};
ghost use Rattle.ddf_words.specs.Traits.{traits_of};
ghost use Rattle.ddf_rebuild_command.specs.BackPlans.{CanCopy};
ghost use Rattle.ddf_rebuild_command.specs.BackRun.{AsksGoingBack, GoesCopying, IsBackRun, IsCopyFault, IsRoomFilled};
ghost use Rattle.ddf_rebuild_command.specs.CopiedBack.{HasCopiedBack, IsCopybackDone};
ghost use Rattle.ddf_rebuild_command.specs.Opened.{CanOpen};
ghost use Rattle.ddf_rebuild_command.specs.Standing.{Stands};

use crate::going_back::{GoingBack, plan_copyback};
use crate::stepping::{ready_steps, recover_group, write_step};
use ddf_answer::{Failure, Status, tell, tell_failure};
use ddf_assembly::Group;
use ddf_bay::Bay;
use ddf_bytes::{Guid, Sink, Stamp};
use ddf_group_commands::read_group;
use ddf_read_commands::failure_of;
use ddf_recovery::Ready;
use ddf_text::sequence_line;
use std::alloc::Global;
use std::slice;

/// Recovers the group that the disks are, copies the first position of the array that the word names which a revertible spare holds in place of another disk to the
/// disk of a slot, and prints the group's sequence number behind the change by which the position is there. The spare is one again then.
pub fn copyback<B: Bay, K: Sink>(
    alloc: Global,
    named: Option<Guid>,
    name: &[u8],
    slot: u8,
    bay: &mut B,
    sink: &mut K,
    stamp: &Stamp,
) -> Status
    // promise:returned
    ensures done { IsCopybackDone (work_of B.tells (B.disks bay.old) (B.disks bay.new)) named (timestamp_of stamp.now) name.now slot (answer_of K.tells (K.output sink.old) (K.output sink.new) (code_of result)) }
    ensures ends { Ends (traits_of (Command.Copyback name.now slot)) (work_of B.tells (B.disks bay.old) (B.disks bay.new)) (answer_of K.tells (K.output sink.old) (K.output sink.new) (code_of result)) }
{
    match copied(alloc, named, name, slot, bay, stamp) {
        Ok(sequence) => tell(sink, sequence_line(sequence).as_bytes(), Status::Ok),
        Err(failure) => tell_failure(alloc, failure, sink),
    }
}

/// The same, without the answer: the sequence number of the group behind it.
fn copied<B: Bay>(
    alloc: Global,
    named: Option<Guid>,
    name: &[u8],
    slot: u8,
    bay: &mut B,
    stamp: &Stamp,
) -> Result<u32, Failure>
    ensures copied { HasCopiedBack (work_of B.tells (B.disks bay.old) (B.disks bay.new)) named (timestamp_of stamp.now) name.now slot result }
    ensures goes_on { GoesOn (B.disks bay.old) (B.disks bay.new) }
    ensures same_sizes { (B.disks bay.new).sizes ≡ (B.disks bay.old).sizes }
{
    let mut group = read_group(alloc, named, bay)?;
    let plan = plan_copyback(alloc, &group, bay.slots(), name, slot)?;
    let changes = slice::from_ref(&plan.change);
    let mut ready = ready_steps(alloc, &group, changes, stamp.timestamp())?;
    copy_position(&mut group, &mut ready, &plan, bay)
}

/// Recovers a group, fills the room for a position, and then says that the position is there, by the step of the group that is ready. It answers the group's
/// sequence number behind that, and takes no memory.
fn copy_position<B: Bay>(
    group: &mut Group,
    ready: &mut Ready,
    plan: &GoingBack,
    bay: &mut B,
) -> Result<u32, Failure>
    requires open { CanOpen B.tells (B.disks bay.old) group.old ready.old }
    requires fills { CanCopy (B.disks bay.old).sizes group.old.seats plan.now.view plan.now.target plan.now.slot plan.now.start ready.old }
    ensures run { IsBackRun B.disks B.tells (B.disks bay.old) (B.disks bay.new) plan.now group.old ready.old result }
    ensures unfailed { OnOk result ((B.disks bay.new).failed_writes ≡ (B.disks bay.old).failed_writes) }
    ensures asks { AsksGoingBack (B.disks bay.old) (B.disks bay.new) ready.old plan.now }
{
    recover_group(group, ready, bay)?;
    fill_room(group, ready, plan, bay)?;
    write_step(group, ready, bay)?;
    Ok(group.config().sequence)
}

/// Fills the room for a position of a group that stands on its disks with what the position should hold, and makes it sure.
///
/// # Errors
/// `Disk` where a write or the sync of the room's slot failed, or a read of a seat's, and no source is left of what the position should hold.
fn fill_room<B: Bay>(
    group: &Group,
    ready: &Ready,
    plan: &GoingBack,
    bay: &mut B,
) -> Result<(), Failure>
    requires stands { Stands B.tells (B.disks bay.old) group.now ready.now }
    requires fills { CanCopy (B.disks bay.old).sizes group.now.seats plan.now.view plan.now.target plan.now.slot plan.now.start ready.now }
    ensures copying { GoesCopying B.tells (B.disks bay.old) (B.disks bay.new) plan.now.view plan.now.target plan.now.slot plan.now.start group.now ready.now }
    ensures filled { OnOk result (IsRoomFilled B.tells (B.disks bay.old) (B.disks bay.new) plan.now.view plan.now.target plan.now.slot plan.now.start group.now ready.now) }
    ensures failed { IfErr result (IsCopyFault B.tells (B.disks bay.old) (B.disks bay.new) plan.now.view plan.now.target plan.now.slot plan.now.start group.now ready.now) }
    ensures unfailed { OnOk result ((B.disks bay.new).failed_writes ≡ (B.disks bay.old).failed_writes) }
    ensures asks { (part : Part) → slice_get plan.now.view.parts plan.now.target.element ≡ Some part → AsksFor (B.disks bay.old) (B.disks bay.new) (depth_of part.shape) }
{
    match ddf_rebuild::copyback(bay, &plan.view, &plan.target, plan.slot, plan.start) {
        Ok(()) => Ok(()),
        Err(fault) => Err(failure_of(fault)),
    }
}
