//! Laws of desks and records: functions that do nothing, whose contracts are the laws.
ghost use Rattle.std.specs.Prelude.{◌≡◌, ◌⊎◌, ◌+◌, ◌<◌, ◌≤◌, ℕ, List, Some, length, slice_get};
ghost use Rattle.ddf_bay.specs.Sectors.{Image};
ghost use Rattle.ddf_bay.specs.State.{size_of};
ghost use Rattle.ddf_copy.specs.declared.copy.DiskCopy.{DiskCopy};
ghost use Rattle.ddf_copy.specs.declared.which.Which.{Which};
ghost use Rattle.ddf_copy.specs.Written.{CanBeCopy};
ghost use Rattle.ddf_update.specs.declared.prepared.Mode.{Mode};
ghost use Rattle.ddf_update.specs.declared.prepared.Prepared.{Prepared};
ghost use Rattle.ddf_update.specs.Changes.{IsLeftChangingAll, MayChangeAll, SlotChange};
ghost use Rattle.ddf_update.specs.Prepared.{IsPrepared};
ghost use Rattle.ddf_update.specs.Update.{IsWritten};
ghost use Rattle.ddf_stage_records.specs.Desk.{gate_of};

use ddf_bay::Bay;

/// What an update writes of a copy is no sector of the disk's desk, also where a disk is founded or taken over.
pub fn records_lie_aside_of_the_desk()
    ensures { (copy : DiskCopy) (last : Which) (mode : Mode) (update : Prepared) (size lba l : ℕ) → CanBeCopy copy → IsPrepared copy last mode update → gate_of size copy ≡ Some lba
        → IsWritten size update l → (l < lba) ⊎ (lba + 18 ≤ l) }
{}

/// Whatever a stop leaves while slots get new copies, the desk that a slot has by its new copy is as the bay holds it.
pub fn new_copies_leave_the_desks<B: Bay>(bay: &B)
    ensures { (slots : List ℕ) (seat : ℕ → SlotChange) (updates : List Prepared) (image : Image) → MayChangeAll (B.disks bay.now) slots seat updates → length updates ≡ length slots
        → IsLeftChangingAll (B.disks bay.now) slots seat updates image → (place slot lba l : ℕ) → slice_get slots place ≡ Some slot
        → gate_of (size_of (B.disks bay.now) slot) (seat place).new ≡ Some lba → lba ≤ l → l < lba + 18 → image slot l ≡ (B.disks bay.now).held slot l }
{}
