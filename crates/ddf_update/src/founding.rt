//! Copies of a disk at places where it has none, and its anchor, the first ones or those that it moves to. The anchor is written last: without it
//! a disk shows nothing. docs/UPDATES.md#the-first-copies-of-a-disk
ghost use Rattle.std.specs.Prelude.{◌≡◌, ◌≢◌, ◌⊎◌, ◌<◌, ◌≤◌, ◌+◌, ◌-◌, ◌*◌, length, OnOk, IfErr, slice_index};
ghost use Rattle.ddf_bytes.specs.Counts.{Rose};
ghost use Rattle.ddf_bay.specs.Sectors.{IsLeft};
ghost use Rattle.ddf_bay.specs.Moments.{StopsLeave, SpendsWrites};
ghost use Rattle.ddf_copy.specs.Runs.{AreApart, AreOn, IsInCopy, sector_count};
ghost use Rattle.ddf_update.specs.Gate.{KeepsOutside, StaysOutside, AreBothApart, IsLeftFounding, StopsLeaveSince, IsFoundingWritten};

use crate::Gate;
use crate::both::write_both;
use crate::stage::stage;
use ddf_bay::{Bay, DiskFault};
use ddf_bytes::Sector;
use ddf_copy::Run;
use std::slice;

/// Makes the slot sure, writes both copies, and then the anchor into the last sector. A stop at any moment leaves the
/// last sector as it was, or both copies are whole.
pub(crate) fn write_founding<B: Bay>(
    bay: &mut B,
    slot: usize,
    first: &Gate,
    second: &Gate,
    runs: &[Run],
    anchor: &Sector,
) -> Result<(), DiskFault>
    requires slot { slot < length (B.disks bay.old).sizes }
    requires first_header { first.now.lba < slice_index (B.disks bay.old).sizes slot }
    requires first_room { AreOn (slice_index (B.disks bay.old).sizes slot) first.now.lba runs.now }
    requires second_header { second.now.lba < slice_index (B.disks bay.old).sizes slot }
    requires second_room { AreOn (slice_index (B.disks bay.old).sizes slot) second.now.lba runs.now }
    ensures founded { let last = slice_index (B.disks bay.old).sizes slot - 1 in
        B.tells → AreApart runs.now → AreBothApart first.now second.now runs.now
        → (IsInCopy first.now.lba runs.now last → ⊥) → (IsInCopy second.now.lba runs.now last → ⊥)
        → OnOk result (IsFoundingWritten (B.disks bay.old) (B.disks bay.new) slot first.now second.now runs.now last anchor.now) }
    ensures held { let last = slice_index (B.disks bay.old).sizes slot - 1 in
        B.tells → StaysOutside (B.disks bay.old).held (B.disks bay.new).held slot (λ l. IsInCopy first.now.lba runs.now l ⊎ IsInCopy second.now.lba runs.now l ⊎ (l ≡ last)) }
    ensures left { let last = slice_index (B.disks bay.old).sizes slot - 1 in
        KeepsOutside (B.disks bay.old).may_hold (B.disks bay.new).may_hold slot (λ l. IsInCopy first.now.lba runs.now l ⊎ IsInCopy second.now.lba runs.now l ⊎ (l ≡ last)) }
    ensures any_moment { let last = slice_index (B.disks bay.old).sizes slot - 1 in
        B.tells → AreApart runs.now → AreBothApart first.now second.now runs.now
        → (IsInCopy first.now.lba runs.now last → ⊥) → (IsInCopy second.now.lba runs.now last → ⊥)
        → StopsLeave (B.disks bay.old) (B.disks bay.new) (IsLeft (B.disks bay.old).may_hold)
        ⊎ StopsLeaveSince (B.disks bay.old) (B.disks bay.new) (IsLeftFounding (B.disks bay.old).may_hold (B.disks bay.old).held slot first.now second.now runs.now last anchor.now) }
    ensures ok { OnOk result ((B.disks bay.new).failed_writes ≡ (B.disks bay.old).failed_writes) }
    ensures failed { IfErr result (λ e. (e.0 ≡ slot) × Rose ((B.disks bay.old).failed_writes slot) ((B.disks bay.new).failed_writes slot)) }
    ensures spends { SpendsWrites (B.disks bay.old) (B.disks bay.new) slot (2 * (sector_count runs.now + 2) + 1) (2 * (length runs.now + 5) + 3) }
{
    let last = bay.size(slot) - 1;
    bay.sync(slot).map_err(|_| DiskFault(slot))?;
    write_both(bay, slot, first, second, runs)?;
    stage(bay, slot, last, slice::from_ref(anchor))?;
    Ok(())
}
