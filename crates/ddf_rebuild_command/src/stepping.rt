//! The steps of a group that is rebuilt: made ready before the first write, and written one after another.
ghost use Rattle.std.specs.Prelude.{◌≡◌, None, IfErr, IfOk, OnOk, is_ok};
ghost use Rattle.std.specs.List.{AllByRecursion};
ghost use Rattle.ddf_cells.specs.Writing.{AsksFor};
ghost use Rattle.ddf_update.specs.Prepared.{all_sectors};
ghost use Rattle.ddf_steps.specs.Asked.{CanBeAsked};
ghost use Rattle.ddf_assembly.specs.Assembled.{IsAssembledGroup};
ghost use Rattle.ddf_recovery.specs.Committed.{WasReadied, next_updates, recovery_updates};
ghost use Rattle.ddf_steps.specs.Committed.{slots_of};
ghost use Rattle.ddf_recovery.specs.Ready.{readied};
ghost use Rattle.ddf_write_commands.specs.Around.{rest};
ghost use Rattle.ddf_write_commands.specs.Costs.{sectors_before};
ghost use Rattle.ddf_write_commands.specs.Plans.{IsNotReadied};
ghost use Rattle.ddf_rebuild_command.specs.Opened.{CanOpen, GoesOpening, IsOpened, steps_before};
ghost use Rattle.ddf_rebuild_command.specs.Standing.{GoesNext, IsNextWritten, IsSlotFault, Stands, recovery_in};

use ddf_answer::Failure;
use ddf_assembly::Group;
use ddf_bay::Bay;
use ddf_group_commands::failure_of;
use ddf_plan::Change;
use ddf_recovery::{Ready, commit, make_ready, recover};
use std::alloc::Global;

/// All that the steps of a rebuild or a copyback take: it is made before anything is written.
///
/// # Errors
/// `Refused` where the group can't be recovered or changed so; `Memory` where memory ran out.
pub(crate) fn ready_steps(
    alloc: Global,
    group: &Group,
    changes: &[Change],
    timestamp: u32,
) -> Result<Ready, Failure>
    requires assembled { IsAssembledGroup group.now }
    requires asked { AllByRecursion CanBeAsked changes.now }
    ensures was { IfOk result (WasReadied group.now changes.now timestamp) }
    ensures refused { IfErr result (IsNotReadied (readied group.now changes.now timestamp)) }
{
    match make_ready(alloc, group, changes, timestamp) {
        Ok(ready) => Ok(ready),
        Err(fault) => Err(failure_of(fault)),
    }
}

/// Recovers a group by what was readied of it.
///
/// # Errors
/// `Disk` where a write or a sync of a seat's slot failed.
pub(crate) fn recover_group<B: Bay>(
    group: &mut Group,
    ready: &mut Ready,
    bay: &mut B,
) -> Result<(), Failure>
    requires { CanOpen B.tells (B.disks bay.old) group.old ready.old }
    ensures goes { GoesOpening B.tells (B.disks bay.old) (B.disks bay.new) group.old (recovery_in ready.old.recovery) }
    ensures opened { OnOk result (IsOpened B.tells (B.disks bay.old) (B.disks bay.new) group.old (recovery_in ready.old.recovery) group.new ready.new) }
    ensures failed { IfErr result (IsSlotFault (B.disks bay.old) (B.disks bay.new) (slots_of group.old.seats)) }
    ensures left { ready.new ≡ record ready.old { recovery = None } }
    ensures unfailed { OnOk result ((B.disks bay.new).failed_writes ≡ (B.disks bay.old).failed_writes) }
    ensures asks { AsksFor (B.disks bay.old) (B.disks bay.new) (all_sectors (recovery_updates ready.old)) }
{
    recover(group, bay, ready)?;
    Ok(())
}

/// Writes the next step of a group that stands on its disks.
///
/// # Errors
/// `Disk` where a write or a sync of a seat's slot failed.
pub(crate) fn write_step<B: Bay>(
    group: &mut Group,
    ready: &mut Ready,
    bay: &mut B,
) -> Result<(), Failure>
    requires { Stands B.tells (B.disks bay.old) group.old ready.old }
    ensures goes { GoesNext B.tells (B.disks bay.old) (B.disks bay.new) group.old ready.old (is_ok result) }
    ensures written { OnOk result (IsNextWritten B.tells (B.disks bay.old) (B.disks bay.new) group.old ready.old group.new ready.new) }
    ensures failed { IfErr result (IsSlotFault (B.disks bay.old) (B.disks bay.new) (slots_of group.old.seats)) }
    ensures unfailed { OnOk result ((B.disks bay.new).failed_writes ≡ (B.disks bay.old).failed_writes) }
    ensures asks { AsksFor (B.disks bay.old) (B.disks bay.new) (all_sectors (next_updates ready.old)) }
{
    commit(group, bay, ready)?;
    Ok(())
}

/// Recovers a group, and gives the position that is to be filled a spare, where it gets one: that is the first of the steps.
///
/// # Errors
/// `Disk` where a write or a sync of a seat's slot failed.
pub(crate) fn open_position<B: Bay>(
    group: &mut Group,
    ready: &mut Ready,
    begins: bool,
    bay: &mut B,
) -> Result<(), Failure>
    requires { CanOpen B.tells (B.disks bay.old) group.old ready.old }
    ensures goes { GoesOpening B.tells (B.disks bay.old) (B.disks bay.new) group.old (steps_before begins ready.old) }
    ensures opened { OnOk result (IsOpened B.tells (B.disks bay.old) (B.disks bay.new) group.old (steps_before begins ready.old) group.new ready.new) }
    ensures failed { IfErr result (IsSlotFault (B.disks bay.old) (B.disks bay.new) (slots_of group.old.seats)) }
    ensures left { OnOk result (ready.new ≡ record { recovery = None; steps = rest begins ready.old.steps }) }
    ensures unfailed { OnOk result ((B.disks bay.new).failed_writes ≡ (B.disks bay.old).failed_writes) }
    ensures asks { AsksFor (B.disks bay.old) (B.disks bay.new) (sectors_before begins ready.old) }
{
    recover_group(group, ready, bay)?;
    if begins {
        write_step(group, ready, bay)
    } else {
        Ok(())
    }
}
