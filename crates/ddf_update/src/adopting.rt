//! The copies of a disk that a group takes over from another one: the anchor comes between them, so that a stop leaves one group's alone.
//! docs/UPDATES.md#a-disk-that-is-taken-over
ghost use Rattle.std.specs.Prelude.{◌≡◌, ◌≢◌, ◌⊎◌, ◌<◌, ◌≤◌, ◌+◌, ◌-◌, ◌*◌, length, OnOk, IfErr, slice_index};
ghost use Rattle.ddf_bytes.specs.Counts.{Rose};
ghost use Rattle.ddf_bay.specs.Sectors.{IsLeft};
ghost use Rattle.ddf_bay.specs.Moments.{IsSettled, StopsLeave, SpendsWrites};
ghost use Rattle.ddf_copy.specs.Runs.{AreApart, AreOn, IsInCopy, sector_count};
ghost use Rattle.ddf_update.specs.Gate.{KeepsOutside, StaysOutside, AreBothApart, StopsLeaveSince};
ghost use Rattle.ddf_update.specs.Adopting.{IsAdoptionMade, IsAdoptionWritten, IsLeftTakingOver};

use crate::Gate;
use crate::copy::write_copy;
use crate::stage::stage;
use ddf_bay::{Bay, DiskFault};
use ddf_bytes::Sector;
use ddf_copy::Run;
use std::slice;

/// Writes the first copy, then the anchor into the sector `last`, and then the second copy. A stop at any moment leaves the anchor
/// and the second copy as they were, or the first copy is whole and the anchor is the new one.
fn write_between<B: Bay>(
    bay: &mut B,
    slot: usize,
    first: &Gate,
    second: &Gate,
    runs: &[Run],
    last: u64,
    anchor: &Sector,
) -> Result<(), DiskFault>
    requires slot { slot < length (B.disks bay.old).sizes }
    requires first_header { first.now.lba < slice_index (B.disks bay.old).sizes slot }
    requires first_room { AreOn (slice_index (B.disks bay.old).sizes slot) first.now.lba runs.now }
    requires second_header { second.now.lba < slice_index (B.disks bay.old).sizes slot }
    requires second_room { AreOn (slice_index (B.disks bay.old).sizes slot) second.now.lba runs.now }
    requires last { last < slice_index (B.disks bay.old).sizes slot }
    ensures made { B.tells → AreApart runs.now → AreBothApart first.now second.now runs.now
        → (IsInCopy first.now.lba runs.now last → ⊥) → (IsInCopy second.now.lba runs.now last → ⊥)
        → OnOk result (IsAdoptionMade (B.disks bay.old) (B.disks bay.new) slot first.now second.now runs.now last anchor.now) }
    ensures held { B.tells → StaysOutside (B.disks bay.old).held (B.disks bay.new).held slot (λ l. IsInCopy first.now.lba runs.now l ⊎ IsInCopy second.now.lba runs.now l ⊎ (l ≡ last)) }
    ensures left { KeepsOutside (B.disks bay.old).may_hold (B.disks bay.new).may_hold slot (λ l. IsInCopy first.now.lba runs.now l ⊎ IsInCopy second.now.lba runs.now l ⊎ (l ≡ last)) }
    ensures any_moment { B.tells → IsSettled (B.disks bay.old).may_hold (B.disks bay.old).held slot → AreApart runs.now → AreBothApart first.now second.now runs.now
        → (IsInCopy first.now.lba runs.now last → ⊥) → (IsInCopy second.now.lba runs.now last → ⊥)
        → StopsLeave (B.disks bay.old) (B.disks bay.new) (IsLeftTakingOver (B.disks bay.old).may_hold (B.disks bay.old).held slot first.now second.now runs.now last anchor.now) }
    ensures ok { OnOk result ((B.disks bay.new).failed_writes ≡ (B.disks bay.old).failed_writes) }
    ensures failed { IfErr result (λ e. (e.0 ≡ slot) × Rose ((B.disks bay.old).failed_writes slot) ((B.disks bay.new).failed_writes slot)) }
    ensures spends { SpendsWrites (B.disks bay.old) (B.disks bay.new) slot (2 * (sector_count runs.now + 2) + 1) (2 * (length runs.now + 5) + 2) }
{
    write_copy(bay, slot, first, runs)?;
    stage(bay, slot, last, slice::from_ref(anchor))?;
    write_copy(bay, slot, second, runs)?;
    Ok(())
}

/// Makes the slot sure, writes the first copy, then the anchor into the last sector, and then the second copy. A stop at any
/// moment leaves the anchor and the second copy as they were, or the first copy is whole and the anchor is the new one.
pub(crate) fn write_adoption<B: Bay>(
    bay: &mut B,
    slot: usize,
    first: &Gate,
    second: &Gate,
    runs: &[Run],
    anchor: &Sector,
) -> Result<(), DiskFault>
    requires slot { slot < length (B.disks bay.old).sizes }
    requires first_header { first.now.lba < slice_index (B.disks bay.old).sizes slot }
    requires first_room { AreOn (slice_index (B.disks bay.old).sizes slot) first.now.lba runs.now }
    requires second_header { second.now.lba < slice_index (B.disks bay.old).sizes slot }
    requires second_room { AreOn (slice_index (B.disks bay.old).sizes slot) second.now.lba runs.now }
    ensures adopted { let last = slice_index (B.disks bay.old).sizes slot - 1 in
        B.tells → AreApart runs.now → AreBothApart first.now second.now runs.now
        → (IsInCopy first.now.lba runs.now last → ⊥) → (IsInCopy second.now.lba runs.now last → ⊥)
        → OnOk result (IsAdoptionWritten (B.disks bay.old) (B.disks bay.new) slot first.now second.now runs.now last anchor.now) }
    ensures held { let last = slice_index (B.disks bay.old).sizes slot - 1 in
        B.tells → StaysOutside (B.disks bay.old).held (B.disks bay.new).held slot (λ l. IsInCopy first.now.lba runs.now l ⊎ IsInCopy second.now.lba runs.now l ⊎ (l ≡ last)) }
    ensures left { let last = slice_index (B.disks bay.old).sizes slot - 1 in
        KeepsOutside (B.disks bay.old).may_hold (B.disks bay.new).may_hold slot (λ l. IsInCopy first.now.lba runs.now l ⊎ IsInCopy second.now.lba runs.now l ⊎ (l ≡ last)) }
    ensures any_moment { let last = slice_index (B.disks bay.old).sizes slot - 1 in
        B.tells → AreApart runs.now → AreBothApart first.now second.now runs.now
        → (IsInCopy first.now.lba runs.now last → ⊥) → (IsInCopy second.now.lba runs.now last → ⊥)
        → StopsLeave (B.disks bay.old) (B.disks bay.new) (IsLeft (B.disks bay.old).may_hold)
        ⊎ StopsLeaveSince (B.disks bay.old) (B.disks bay.new) (IsLeftTakingOver (B.disks bay.old).may_hold (B.disks bay.old).held slot first.now second.now runs.now last anchor.now) }
    ensures ok { OnOk result ((B.disks bay.new).failed_writes ≡ (B.disks bay.old).failed_writes) }
    ensures failed { IfErr result (λ e. (e.0 ≡ slot) × Rose ((B.disks bay.old).failed_writes slot) ((B.disks bay.new).failed_writes slot)) }
    ensures spends { SpendsWrites (B.disks bay.old) (B.disks bay.new) slot (2 * (sector_count runs.now + 2) + 1) (2 * (length runs.now + 5) + 3) }
{
    let last = bay.size(slot) - 1;
    bay.sync(slot).map_err(|_| DiskFault(slot))?;
    write_between(bay, slot, first, second, runs, last, anchor)?;
    Ok(())
}
