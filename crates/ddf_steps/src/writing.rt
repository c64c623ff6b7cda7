//! A step, written to its disks one after another; disks that are taken over come last. docs/UPDATES.md#several-disks
ghost use Rattle.std.specs.Prelude.{◌≡◌, ◌<◌, ℕ, [], length, OnOk, IfErr};
ghost use Rattle.ddf_bytes.specs.Counts.{Rose};
ghost use Rattle.ddf_bay.specs.Sectors.{IsLeft};
ghost use Rattle.ddf_bay.specs.Moments.{IsSettled, Keeps, SpendsOver, SpendsWrites, StopsLeave};
ghost use Rattle.ddf_update.specs.Changes.{AreChanged, IsLeftChangingAll, MayChangeAll, SlotChange};
ghost use Rattle.ddf_update.specs.Group.{IsOneOf, LieOnSlots};
ghost use Rattle.ddf_update.specs.Prepared.{all_calls, all_sectors};
ghost use Rattle.ddf_seats.specs.Seated.{slots_in};
ghost use Rattle.ddf_steps.specs.Steps.{in_order};
ghost use Rattle.ddf_steps.specs.Committed.{AreSettled, HaveSlots, slots_of};

use crate::steps::Step;
use ddf_bay::{Bay, DiskFault};
use ddf_config::Seat;
use ddf_update::write_disks;

/// Writes the disks of a step.
pub fn write_step<B: Bay>(bay: &mut B, step: &Step) -> Result<(), DiskFault>
    requires { LieOnSlots (B.disks bay.old).sizes (slots_in (in_order step.now.step.disks)) step.now.updates }
    ensures any_moment { B.tells → (seat : ℕ → SlotChange) → MayChangeAll (B.disks bay.old) (slots_in (in_order step.now.step.disks)) seat step.now.updates
        → StopsLeave (B.disks bay.old) (B.disks bay.new) (IsLeftChangingAll (B.disks bay.old) (slots_in (in_order step.now.step.disks)) seat step.now.updates) }
    ensures changed { B.tells → (seat : ℕ → SlotChange) → MayChangeAll (B.disks bay.old) (slots_in (in_order step.now.step.disks)) seat step.now.updates
        → OnOk result (AreChanged (B.disks bay.old) (B.disks bay.new) (slots_in (in_order step.now.step.disks)) seat step.now.updates (length (slots_in (in_order step.now.step.disks)))) }
    ensures reads { (B.disks bay.new).failed_reads ≡ (B.disks bay.old).failed_reads }
    ensures spends { SpendsOver (B.disks bay.old) (B.disks bay.new) (all_sectors step.now.updates) (all_calls step.now.updates) }
    ensures ok { OnOk result ((B.disks bay.new).failed_writes ≡ (B.disks bay.old).failed_writes) }
    ensures failed { IfErr result (λ e. IsOneOf (slots_in (in_order step.now.step.disks)) e.0 × Rose ((B.disks bay.old).failed_writes e.0) ((B.disks bay.new).failed_writes e.0)) }
{
    write_disks(bay, &step.slots, &step.updates)
}

/// Syncs a slot.
fn sync_slot<B: Bay>(bay: &mut B, slot: usize) -> Result<(), DiskFault>
    requires { slot < length (B.disks bay.old).sizes }
    ensures durable { OnOk result (IsSettled (B.disks bay.new).may_hold (B.disks bay.new).held slot) }
    ensures held { (B.disks bay.new).held ≡ (B.disks bay.old).held }
    ensures left { Keeps (B.disks bay.old).may_hold (B.disks bay.new).may_hold }
    ensures any_moment { StopsLeave (B.disks bay.old) (B.disks bay.new) (IsLeft (B.disks bay.old).may_hold) }
    ensures spends { SpendsWrites (B.disks bay.old) (B.disks bay.new) slot 0 1 }
    ensures ok { OnOk result ((B.disks bay.new).failed_writes ≡ (B.disks bay.old).failed_writes) }
    ensures failed { IfErr result (λ e. (e.0 ≡ slot) × Rose ((B.disks bay.old).failed_writes slot) ((B.disks bay.new).failed_writes slot)) }
{
    bay.sync(slot).map_err(|_| DiskFault(slot))
}

/// Syncs the slots of these seats, one after another.
pub fn sync_seats<B: Bay>(bay: &mut B, seats: &[Seat]) -> Result<(), DiskFault>
    requires { HaveSlots (B.disks bay.old).sizes seats.now }
    ensures settled { OnOk result (AreSettled (B.disks bay.new) seats.now (length seats.now)) }
    ensures held { (B.disks bay.new).held ≡ (B.disks bay.old).held }
    ensures left { Keeps (B.disks bay.old).may_hold (B.disks bay.new).may_hold }
    ensures any_moment { StopsLeave (B.disks bay.old) (B.disks bay.new) (IsLeft (B.disks bay.old).may_hold) }
    ensures reads { (B.disks bay.new).failed_reads ≡ (B.disks bay.old).failed_reads }
    ensures spends { SpendsOver (B.disks bay.old) (B.disks bay.new) 0 (length seats.now) }
    ensures ok { OnOk result ((B.disks bay.new).failed_writes ≡ (B.disks bay.old).failed_writes) }
    ensures failed { IfErr result (λ e. IsOneOf (slots_of seats.now) e.0 × Rose ((B.disks bay.old).failed_writes e.0) ((B.disks bay.new).failed_writes e.0)) }
{
    for seat in seats {
        sync_slot(bay, seat.slot)?;
    }
    Ok(())
}
