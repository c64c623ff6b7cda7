//! Both copies of a disk, the one that isn't the newest first: a stop within it leaves the newest alone. docs/UPDATES.md#behind-a-gate
ghost use Rattle.std.specs.Prelude.{◌≡◌, ◌≢◌, ◌⊎◌, ◌<◌, ◌≤◌, ◌+◌, ◌*◌, length, OnOk, IfErr, slice_index};
ghost use Rattle.ddf_bytes.specs.Counts.{Rose};
ghost use Rattle.ddf_bay.specs.Moments.{StopsLeave, SpendsWrites, IsSettled};
ghost use Rattle.ddf_copy.specs.Runs.{AreApart, AreOn, IsInCopy, sector_count};
ghost use Rattle.ddf_update.specs.Gate.{KeepsOutside, StaysOutside, AreBothApart, IsLeftUpdating, AreBothWritten};

use crate::Gate;
use crate::copy::write_copy;
use ddf_bay::{Bay, DiskFault};
use ddf_copy::Run;

/// Writes the first copy and then the second, both with the same sections. A stop at any moment leaves the second copy
/// as it was, or the first is whole.
pub(crate) fn write_both<B: Bay>(
    bay: &mut B,
    slot: usize,
    first: &Gate,
    second: &Gate,
    runs: &[Run],
) -> Result<(), DiskFault>
    requires slot { slot < length (B.disks bay.old).sizes }
    requires first_header { first.now.lba < slice_index (B.disks bay.old).sizes slot }
    requires first_room { AreOn (slice_index (B.disks bay.old).sizes slot) first.now.lba runs.now }
    requires second_header { second.now.lba < slice_index (B.disks bay.old).sizes slot }
    requires second_room { AreOn (slice_index (B.disks bay.old).sizes slot) second.now.lba runs.now }
    ensures copied { B.tells → AreApart runs.now → AreBothApart first.now second.now runs.now
        → OnOk result (AreBothWritten (B.disks bay.old) (B.disks bay.new) slot first.now second.now runs.now) }
    ensures held { B.tells → StaysOutside (B.disks bay.old).held (B.disks bay.new).held slot (λ l. IsInCopy first.now.lba runs.now l ⊎ IsInCopy second.now.lba runs.now l) }
    ensures left { KeepsOutside (B.disks bay.old).may_hold (B.disks bay.new).may_hold slot (λ l. IsInCopy first.now.lba runs.now l ⊎ IsInCopy second.now.lba runs.now l) }
    ensures any_moment { B.tells → IsSettled (B.disks bay.old).may_hold (B.disks bay.old).held slot → AreApart runs.now → AreBothApart first.now second.now runs.now
        → StopsLeave (B.disks bay.old) (B.disks bay.new) (IsLeftUpdating (B.disks bay.old).may_hold (B.disks bay.old).held slot first.now second.now runs.now) }
    ensures ok { OnOk result ((B.disks bay.new).failed_writes ≡ (B.disks bay.old).failed_writes) }
    ensures failed { IfErr result (λ e. (e.0 ≡ slot) × Rose ((B.disks bay.old).failed_writes slot) ((B.disks bay.new).failed_writes slot)) }
    ensures spends { SpendsWrites (B.disks bay.old) (B.disks bay.new) slot (2 * (sector_count runs.now + 2)) (2 * (length runs.now + 5)) }
{
    write_copy(bay, slot, first, runs)?;
    write_copy(bay, slot, second, runs)?;
    Ok(())
}
