//! The steps of a group, written to its disks one after another, each behind its gate. The seats are synced before: what an earlier call left
//! pending could come to light later. docs/UPDATES.md#several-disks
ghost use Rattle.std.specs.Prelude.{◌≡◌, ◌⊎◌, ◌+◌, ◌<◌, ℕ, [], ◌∷◌, length, Some, None, MatchOption, OnErr, OnOk, IfErr};
ghost use Rattle.ddf_bytes.specs.Counts.{Rose};
ghost use Rattle.ddf_bay.specs.Sectors.{IsLeft};
ghost use Rattle.ddf_bay.specs.Moments.{SpendsOver, StopsLeave};
ghost use Rattle.ddf_update.specs.Changes.{AreChanged, IsLeftChangingAll, MayChangeAll, SlotChange};
ghost use Rattle.ddf_update.specs.Group.{IsOneOf, LieOnSlots};
ghost use Rattle.ddf_update.specs.Prepared.{all_calls, all_sectors};
ghost use Rattle.ddf_steps.specs.Ready.{group_after};
ghost use Rattle.ddf_steps.specs.Committed.{AreSettled, HaveSlots, IsNotWritten, LeavesSynced, slots_of, synced};
ghost use Rattle.ddf_recovery.specs.Committed.{group_next, group_recovered, left_behind, next_slots, next_updates, recovery_slots, recovery_updates, slots_written, updates_written};

use crate::ready::Ready;
use ddf_assembly::Group;
use ddf_bay::{Bay, DiskFault};
use ddf_steps::{Step, sync_seats, write_step};

/// Syncs the disk of each seat, so that nothing that an earlier call wrote is pending there, and then writes the recovery, where there
/// is one, disk by disk in the order of their slots, those that showed another group last. It makes the group what it is then. The recovery is then no longer ready, also
/// after an error. It takes no memory.
///
/// # Errors
/// A write or a sync of the disk of a seat failed: the group stays as it was.
pub fn recover<B: Bay>(group: &mut Group, bay: &mut B, ready: &mut Ready) -> Result<(), DiskFault>
    requires slots { HaveSlots (B.disks bay.old).sizes group.old.seats }
    requires lies { LieOnSlots (B.disks bay.old).sizes (recovery_slots ready.old) (recovery_updates ready.old) }
    ensures group { OnOk result (group.new ≡ group_recovered group.old ready.old.recovery) }
    ensures kept { OnErr result (group.new ≡ group.old) }
    ensures left { ready.new ≡ record ready.old { recovery = None } }

    // From entry to exit a stop leaves what it might have left before, or, once the seats' slots were synced, each slot with its old
    // or its new copy, and one of them at most partly written. At Ok no other slot was written, and a stop leaves of the seats'
    // slots what they hold.
    // promise:whole
    ensures any_moment { B.tells → (seat : ℕ → SlotChange) → MayChangeAll (synced (B.disks bay.old) (slots_of group.old.seats)) (recovery_slots ready.old) seat (recovery_updates ready.old)
        → StopsLeave (B.disks bay.old) (B.disks bay.new) (λ image. IsLeft (B.disks bay.old).may_hold image
        ⊎ IsLeftChangingAll (synced (B.disks bay.old) (slots_of group.old.seats)) (recovery_slots ready.old) seat (recovery_updates ready.old) image) }
    ensures changed { B.tells → (seat : ℕ → SlotChange) → MayChangeAll (synced (B.disks bay.old) (slots_of group.old.seats)) (recovery_slots ready.old) seat (recovery_updates ready.old)
        → OnOk result (AreChanged (synced (B.disks bay.old) (slots_of group.old.seats)) (B.disks bay.new) (recovery_slots ready.old) seat (recovery_updates ready.old) (length (recovery_slots ready.old))) }
    ensures settled { B.tells → (seat : ℕ → SlotChange) → MayChangeAll (synced (B.disks bay.old) (slots_of group.old.seats)) (recovery_slots ready.old) seat (recovery_updates ready.old)
        → OnOk result (AreSettled (B.disks bay.new) group.old.seats (length group.old.seats)) }

    // After an error all that a stop may leave is as before, or all is as behind the syncs.
    ensures ends { B.tells → (seat : ℕ → SlotChange) → MayChangeAll (synced (B.disks bay.old) (slots_of group.old.seats)) (recovery_slots ready.old) seat (recovery_updates ready.old)
        → OnErr result (LeavesSynced (B.disks bay.old) (B.disks bay.new) (slots_of group.old.seats) (recovery_slots ready.old) seat (recovery_updates ready.old)) }

    // Without a recovery nothing is written.
    ensures unwritten { ready.old.recovery ≡ None → IsNotWritten (B.disks bay.old) (B.disks bay.new) }
    ensures reads { (B.disks bay.new).failed_reads ≡ (B.disks bay.old).failed_reads }
    ensures spends { SpendsOver (B.disks bay.old) (B.disks bay.new) (all_sectors (recovery_updates ready.old)) (length group.old.seats + all_calls (recovery_updates ready.old)) }
    ensures ok { OnOk result ((B.disks bay.new).failed_writes ≡ (B.disks bay.old).failed_writes) }
    ensures failed { IfErr result (λ e. (IsOneOf (slots_of group.old.seats) e.0 ⊎ IsOneOf (recovery_slots ready.old) e.0) × Rose ((B.disks bay.old).failed_writes e.0) ((B.disks bay.new).failed_writes e.0)) }
{
    let next = ready.take_recovery();
    sync_seats(bay, group.seats())?;
    write_recovery(bay, &next)?;
    settle(group, next);
    Ok(())
}

/// Writes the next step, disk by disk in the order of their slots, and makes the group what it is then. The step is then no
/// longer ready, also after an error. Where no step is left nothing is written. It takes no memory.
///
/// # Errors
/// A write or a sync of a disk of the step failed: the group stays as it was.
pub fn commit<B: Bay>(group: &mut Group, bay: &mut B, ready: &mut Ready) -> Result<(), DiskFault>
    requires { LieOnSlots (B.disks bay.old).sizes (next_slots ready.old) (next_updates ready.old) }
    ensures group { OnOk result (group.new ≡ group_next group.old ready.old) }
    ensures kept { OnErr result (group.new ≡ group.old) }
    ensures left { ready.new ≡ left_behind ready.old }

    // From entry to exit a stop leaves each slot with its old or its new copy, and one of them at most partly written.
    // promise:whole
    ensures any_moment { B.tells → (seat : ℕ → SlotChange) → MayChangeAll (B.disks bay.old) (next_slots ready.old) seat (next_updates ready.old)
        → StopsLeave (B.disks bay.old) (B.disks bay.new) (IsLeftChangingAll (B.disks bay.old) (next_slots ready.old) seat (next_updates ready.old)) }
    ensures changed { B.tells → (seat : ℕ → SlotChange) → MayChangeAll (B.disks bay.old) (next_slots ready.old) seat (next_updates ready.old)
        → OnOk result (AreChanged (B.disks bay.old) (B.disks bay.new) (next_slots ready.old) seat (next_updates ready.old) (length (next_slots ready.old))) }
    ensures reads { (B.disks bay.new).failed_reads ≡ (B.disks bay.old).failed_reads }
    ensures spends { SpendsOver (B.disks bay.old) (B.disks bay.new) (all_sectors (next_updates ready.old)) (all_calls (next_updates ready.old)) }
    ensures ok { OnOk result ((B.disks bay.new).failed_writes ≡ (B.disks bay.old).failed_writes) }
    ensures failed { IfErr result (λ e. IsOneOf (next_slots ready.old) e.0 × Rose ((B.disks bay.old).failed_writes e.0) ((B.disks bay.new).failed_writes e.0)) }
{
    match ready.take_next() {
        Some(step) => {
            write_step(bay, &step)?;
            advance(group, step);
            Ok(())
        }
        None => Ok(()),
    }
}

/// Makes a group what it is once it was recovered.
fn settle(group: &mut Group, next: Option<Step>)
    ensures { group.new ≡ group_recovered group.old next }
{
    if let Some(step) = next {
        group.settle(step.written());
    }
}

/// Makes a group what it is once a step was written.
pub fn advance(group: &mut Group, step: Step)
    ensures { group.new ≡ group_after group.old step.step }
{
    group.advance(step.written());
}

impl Ready {
    /// Takes the recovery.
    fn take_recovery(&mut self) -> Option<Step>
        ensures left { self.new ≡ record self.old { recovery = None } }
        ensures next { result ≡ self.old.recovery }
    {
        self.recovery.take()
    }

    /// Takes the next step.
    fn take_next(&mut self) -> Option<Step>
        ensures left { self.new ≡ left_behind self.old }
        ensures next { MatchOption result (self.old.steps ≡ []) (λ step. self.old.steps ≡ step ∷ self.new.steps) }
    {
        self.steps.pop()
    }
}

/// Writes the disks of a recovery, where there is one.
fn write_recovery<B: Bay>(bay: &mut B, next: &Option<Step>) -> Result<(), DiskFault>
    requires { LieOnSlots (B.disks bay.old).sizes (slots_written next.now) (updates_written next.now) }
    ensures unwritten { next.now ≡ None → IsNotWritten (B.disks bay.old) (B.disks bay.new) }
    ensures any_moment { B.tells → (seat : ℕ → SlotChange) → MayChangeAll (B.disks bay.old) (slots_written next.now) seat (updates_written next.now)
        → StopsLeave (B.disks bay.old) (B.disks bay.new) (IsLeftChangingAll (B.disks bay.old) (slots_written next.now) seat (updates_written next.now)) }
    ensures changed { B.tells → (seat : ℕ → SlotChange) → MayChangeAll (B.disks bay.old) (slots_written next.now) seat (updates_written next.now)
        → OnOk result (AreChanged (B.disks bay.old) (B.disks bay.new) (slots_written next.now) seat (updates_written next.now) (length (slots_written next.now))) }
    ensures reads { (B.disks bay.new).failed_reads ≡ (B.disks bay.old).failed_reads }
    ensures spends { SpendsOver (B.disks bay.old) (B.disks bay.new) (all_sectors (updates_written next.now)) (all_calls (updates_written next.now)) }
    ensures ok { OnOk result ((B.disks bay.new).failed_writes ≡ (B.disks bay.old).failed_writes) }
    ensures failed { IfErr result (λ e. IsOneOf (slots_written next.now) e.0 × Rose ((B.disks bay.old).failed_writes e.0) ((B.disks bay.new).failed_writes e.0)) }
{
    match next {
        Some(step) => write_step(bay, step),
        None => Ok(()),
    }
}
