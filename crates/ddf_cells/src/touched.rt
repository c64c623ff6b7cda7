//! The slots that calls wrote to, and their syncs: each is made sure once, at the end, and no other is. docs/DECISIONS-COMMANDS.md#blocks-written
ghost use Rattle.std.specs.Prelude.{◌≡◌, ◌<◌, ℕ, true, length, slice_set, OnOk, IfErr};
ghost use Rattle.ddf_bytes.specs.Counts.{Rose};
ghost use Rattle.ddf_bay.specs.Moments.{Keeps, IsSettled, SpendsOver, StopsLeave};
ghost use Rattle.ddf_bay.specs.Sectors.{IsLeft};
ghost use Rattle.ddf_cells.specs.Touching.{IsTouchedSlot};

use ddf_bay::Bay;

/// Notes that a slot is written to.
pub fn touch(touched: &mut [bool; 64], slot: usize)
    requires { slot < 64 }
    ensures { touched.new ≡ slice_set touched.old slot true }
{
    touched[slot] = true;
}

/// Makes sure of the slots that were written to, in rising order. After a failure, the one of these that failed.
pub fn sync_touched<B: Bay>(bay: &mut B, touched: &[bool; 64]) -> Result<(), usize>
    ensures settled { OnOk result ((slot : ℕ) → slot < length (B.disks bay.old).sizes → IsTouchedSlot touched.now slot → IsSettled (B.disks bay.new).may_hold (B.disks bay.new).held slot) }
    ensures held { (B.disks bay.new).held ≡ (B.disks bay.old).held }
    ensures left { Keeps (B.disks bay.old).may_hold (B.disks bay.new).may_hold }
    ensures any_moment { StopsLeave (B.disks bay.old) (B.disks bay.new) (IsLeft (B.disks bay.old).may_hold) }
    ensures unfailed { OnOk result ((B.disks bay.new).failed_writes ≡ (B.disks bay.old).failed_writes) }
    ensures failed { IfErr result (λ slot. Rose ((B.disks bay.old).failed_writes slot) ((B.disks bay.new).failed_writes slot)) }
    ensures touched { IfErr result (IsTouchedSlot touched.now) }
    ensures there { IfErr result (λ slot. slot < length (B.disks bay.old).sizes) }
    ensures reads { (B.disks bay.new).failed_reads ≡ (B.disks bay.old).failed_reads }
    ensures spends { SpendsOver (B.disks bay.old) (B.disks bay.new) 0 (length (B.disks bay.old).sizes) }
{
    for slot in 0..bay.slots() {
        if touched[slot] {
            match bay.sync(slot) {
                Ok(()) => {}
                Err(_) => return Err(slot),
            }
        }
    }
    Ok(())
}
