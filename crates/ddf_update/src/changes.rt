//! The change of several slots, one after another: each is done before the next is begun. docs/UPDATES.md#several-disks
ghost use Rattle.std.specs.Prelude.{◌≡◌, ℕ, length, OnOk, IfErr};
ghost use Rattle.ddf_bytes.specs.Counts.{Rose};
ghost use Rattle.ddf_bay.specs.Moments.{SpendsOver, StopsLeave};
ghost use Rattle.ddf_update.specs.Changes.{AreChanged, IsLeftChangingAll, MayChangeAll, SlotChange};
ghost use Rattle.ddf_update.specs.Group.{IsOneOf, LieOnSlots};
ghost use Rattle.ddf_update.specs.Prepared.{all_calls, all_sectors};

use crate::disk::write_disk;
use crate::prepared::Prepared;
use ddf_bay::{Bay, DiskFault};

/// Writes the new copies of several slots, one slot after another in this order. It takes no memory.
pub fn write_disks<B: Bay>(
    bay: &mut B,
    slots: &[usize],
    updates: &[Prepared],
) -> Result<(), DiskFault>
    requires { LieOnSlots (B.disks bay.old).sizes slots.now updates.now }

    // From entry to exit a stop leaves each slot with its old or its new copy, and one of them at most partly written.
    ensures any_moment { B.tells → (seat : ℕ → SlotChange) → MayChangeAll (B.disks bay.old) slots.now seat updates.now
        → StopsLeave (B.disks bay.old) (B.disks bay.new) (IsLeftChangingAll (B.disks bay.old) slots.now seat updates.now) }
    ensures changed { B.tells → (seat : ℕ → SlotChange) → MayChangeAll (B.disks bay.old) slots.now seat updates.now
        → OnOk result (AreChanged (B.disks bay.old) (B.disks bay.new) slots.now seat updates.now (length slots.now)) }
    ensures reads { (B.disks bay.new).failed_reads ≡ (B.disks bay.old).failed_reads }
    ensures spends { SpendsOver (B.disks bay.old) (B.disks bay.new) (all_sectors updates.now) (all_calls updates.now) }
    ensures ok { OnOk result ((B.disks bay.new).failed_writes ≡ (B.disks bay.old).failed_writes) }
    ensures failed { IfErr result (λ e. IsOneOf slots.now e.0 × Rose ((B.disks bay.old).failed_writes e.0) ((B.disks bay.new).failed_writes e.0)) }
{
    for (place, update) in updates.iter().enumerate() {
        write_disk(bay, slots[place], update)?;
    }
    Ok(())
}
