//! The update of one disk: which of its copies is written when, and where its anchor comes. docs/UPDATES.md#behind-a-gate
ghost use Rattle.std.specs.Prelude.{◌≡◌, ◌⊎◌, ◌<◌, ◌≤◌, ◌+◌, ◌-◌, ◌*◌, length, OnOk, IfErr, slice_index};
ghost use Rattle.ddf_bytes.specs.Counts.{Rose};
ghost use Rattle.ddf_bay.specs.Sectors.{IsLeft};
ghost use Rattle.ddf_bay.specs.Moments.{StopsLeave, SpendsWrites};
ghost use Rattle.ddf_header.specs.declared.reading.Header.{Header};
ghost use Rattle.ddf_copy.specs.declared.copy.DiskCopy.{DiskCopy};
ghost use Rattle.ddf_copy.specs.declared.which.Which.{Which};
ghost use Rattle.ddf_copy.specs.Runs.{sector_count};
ghost use Rattle.ddf_update.specs.declared.prepared.Mode.{Mode};
ghost use Rattle.ddf_update.specs.Gate.{KeepsOutside, StaysOutside, StopsLeaveSince};
ghost use Rattle.ddf_update.specs.Prepared.{IsPrepared, LiesOn};
ghost use Rattle.ddf_update.specs.Update.{IsAdopted, IsBlankOrNew, IsChanged, IsFormerOrNew, IsInEither, IsMoved, IsMovedOrNot, HasFirstCopy, IsOldOrNew, IsWritten, MayAdopt, MayChange, MayFound, MayMove};

use crate::adopting::write_adoption;
use crate::both::write_both;
use crate::founding::write_founding;
use crate::prepared::{Mode, Prepared};
use ddf_bay::{Bay, DiskFault};

/// Writes an update of a disk: each copy with its header open, then its sections, then its header closed, each made sure
/// before the next. A founding is made sure of the slot first, and writes the anchor last. So is a move, and an adoption, which writes the
/// anchor between the copies. It takes no memory.
pub fn write_disk<B: Bay>(bay: &mut B, slot: usize, prepared: &Prepared) -> Result<(), DiskFault>
    requires slot { slot < length (B.disks bay.old).sizes }
    requires on_slot { LiesOn (slice_index (B.disks bay.old).sizes slot) prepared.now }

    // From entry to exit a stop leaves the copy that the slot showed, or the new one.
    // promise:whole
    ensures change { B.tells → (anchor : Header) (last : Which) (old copy : DiskCopy) → IsPrepared copy last Mode.Change prepared.now
        → MayChange (B.disks bay.old) slot anchor last old copy
        → StopsLeave (B.disks bay.old) (B.disks bay.new) (IsOldOrNew (B.disks bay.old) slot prepared.now anchor last old copy) }
    ensures changed { B.tells → (anchor : Header) (last : Which) (old copy : DiskCopy) → IsPrepared copy last Mode.Change prepared.now
        → MayChange (B.disks bay.old) slot anchor last old copy
        → OnOk result (IsChanged (B.disks bay.old) (B.disks bay.new) slot anchor prepared.now copy) }

    // Until the first good sync of a founding nothing changes. From then on a stop leaves a blank slot or the new copy.
    ensures found { B.tells → (last : Which) (copy : DiskCopy) → IsPrepared copy last Mode.Found prepared.now
        → MayFound (B.disks bay.old) slot copy
        → StopsLeave (B.disks bay.old) (B.disks bay.new) (IsLeft (B.disks bay.old).may_hold)
        ⊎ StopsLeaveSince (B.disks bay.old) (B.disks bay.new) (IsBlankOrNew (B.disks bay.old) slot prepared.now copy) }
    ensures founded { B.tells → (last : Which) (copy : DiskCopy) → IsPrepared copy last Mode.Found prepared.now
        → MayFound (B.disks bay.old) slot copy
        → OnOk result (HasFirstCopy (B.disks bay.old) (B.disks bay.new) slot prepared.now copy) }

    // Until the first good sync of an adoption nothing changes. From then on a stop leaves the former group's copy or the new one.
    ensures adopt { B.tells → (anchor : Header) (last : Which) (old copy : DiskCopy) → IsPrepared copy last Mode.Adopt prepared.now
        → MayAdopt (B.disks bay.old) slot anchor last old copy
        → StopsLeave (B.disks bay.old) (B.disks bay.new) (IsLeft (B.disks bay.old).may_hold)
        ⊎ StopsLeaveSince (B.disks bay.old) (B.disks bay.new) (IsFormerOrNew (B.disks bay.old) slot prepared.now last old copy) }
    ensures adopted { B.tells → (anchor : Header) (last : Which) (old copy : DiskCopy) → IsPrepared copy last Mode.Adopt prepared.now
        → MayAdopt (B.disks bay.old) slot anchor last old copy
        → OnOk result (IsAdopted (B.disks bay.old) (B.disks bay.new) slot prepared.now last old copy) }

    // Until the first good sync of a move nothing changes. From then on a stop leaves the former group's copies, or the new one in both places.
    ensures relocate { B.tells → (anchor : Header) (last : Which) (old copy : DiskCopy) → IsPrepared copy last Mode.Move prepared.now
        → MayMove (B.disks bay.old) slot anchor last old copy
        → StopsLeave (B.disks bay.old) (B.disks bay.new) (IsLeft (B.disks bay.old).may_hold)
        ⊎ StopsLeaveSince (B.disks bay.old) (B.disks bay.new) (IsMovedOrNot (B.disks bay.old) slot prepared.now copy) }
    ensures relocated { B.tells → (anchor : Header) (last : Which) (old copy : DiskCopy) → IsPrepared copy last Mode.Move prepared.now
        → MayMove (B.disks bay.old) slot anchor last old copy
        → OnOk result (IsMoved (B.disks bay.old) (B.disks bay.new) slot prepared.now copy) }

    // All else stays, and a stop leaves of it what it might have left.
    ensures held { B.tells → StaysOutside (B.disks bay.old).held (B.disks bay.new).held slot (IsWritten (slice_index (B.disks bay.old).sizes slot) prepared.now) }
    ensures left { KeepsOutside (B.disks bay.old).may_hold (B.disks bay.new).may_hold slot (IsWritten (slice_index (B.disks bay.old).sizes slot) prepared.now) }

    // Each copy is written once, and its header twice.
    ensures spends { SpendsWrites (B.disks bay.old) (B.disks bay.new) slot (2 * (sector_count prepared.now.runs + 2) + 1) (2 * (length prepared.now.runs + 5) + 3) }
    ensures calls { (copy : DiskCopy) (last : Which) (mode : Mode) → IsPrepared copy last mode prepared.now → (B.disks bay.new).calls ≤ (B.disks bay.old).calls + 25 }
    ensures ok { OnOk result ((B.disks bay.new).failed_writes ≡ (B.disks bay.old).failed_writes) }
    ensures failed { IfErr result (λ e. (e.0 ≡ slot) × Rose ((B.disks bay.old).failed_writes slot) ((B.disks bay.new).failed_writes slot)) }
{
    match prepared.mode {
        Mode::Change => change(bay, slot, prepared),
        Mode::Found => found(bay, slot, prepared),
        Mode::Adopt => adopt(bay, slot, prepared),
        Mode::Move => relocate(bay, slot, prepared),
    }
}

/// Writes both copies of a disk that shows one.
fn change<B: Bay>(bay: &mut B, slot: usize, prepared: &Prepared) -> Result<(), DiskFault>
    requires slot { slot < length (B.disks bay.old).sizes }
    requires on_slot { LiesOn (slice_index (B.disks bay.old).sizes slot) prepared.now }
    ensures change { B.tells → (anchor : Header) (last : Which) (old copy : DiskCopy) → IsPrepared copy last Mode.Change prepared.now
        → MayChange (B.disks bay.old) slot anchor last old copy
        → StopsLeave (B.disks bay.old) (B.disks bay.new) (IsOldOrNew (B.disks bay.old) slot prepared.now anchor last old copy) }
    ensures changed { B.tells → (anchor : Header) (last : Which) (old copy : DiskCopy) → IsPrepared copy last Mode.Change prepared.now
        → MayChange (B.disks bay.old) slot anchor last old copy
        → OnOk result (IsChanged (B.disks bay.old) (B.disks bay.new) slot anchor prepared.now copy) }
    ensures held { B.tells → StaysOutside (B.disks bay.old).held (B.disks bay.new).held slot (IsInEither prepared.now) }
    ensures left { KeepsOutside (B.disks bay.old).may_hold (B.disks bay.new).may_hold slot (IsInEither prepared.now) }
    ensures spends { SpendsWrites (B.disks bay.old) (B.disks bay.new) slot (2 * (sector_count prepared.now.runs + 2)) (2 * (length prepared.now.runs + 5)) }
    ensures ok { OnOk result ((B.disks bay.new).failed_writes ≡ (B.disks bay.old).failed_writes) }
    ensures failed { IfErr result (λ e. (e.0 ≡ slot) × Rose ((B.disks bay.old).failed_writes slot) ((B.disks bay.new).failed_writes slot)) }
{
    let runs = prepared.runs.items();
    write_both(bay, slot, &prepared.first, &prepared.second, runs)
}

/// Writes both copies of a blank disk, and then its anchor.
fn found<B: Bay>(bay: &mut B, slot: usize, prepared: &Prepared) -> Result<(), DiskFault>
    requires slot { slot < length (B.disks bay.old).sizes }
    requires on_slot { LiesOn (slice_index (B.disks bay.old).sizes slot) prepared.now }
    ensures found { B.tells → (last : Which) (copy : DiskCopy) → IsPrepared copy last Mode.Found prepared.now
        → MayFound (B.disks bay.old) slot copy
        → StopsLeave (B.disks bay.old) (B.disks bay.new) (IsLeft (B.disks bay.old).may_hold)
        ⊎ StopsLeaveSince (B.disks bay.old) (B.disks bay.new) (IsBlankOrNew (B.disks bay.old) slot prepared.now copy) }
    ensures founded { B.tells → (last : Which) (copy : DiskCopy) → IsPrepared copy last Mode.Found prepared.now
        → MayFound (B.disks bay.old) slot copy
        → OnOk result (HasFirstCopy (B.disks bay.old) (B.disks bay.new) slot prepared.now copy) }
    ensures held { B.tells → StaysOutside (B.disks bay.old).held (B.disks bay.new).held slot (λ l. IsInEither prepared.now l ⊎ (l ≡ slice_index (B.disks bay.old).sizes slot - 1)) }
    ensures left { KeepsOutside (B.disks bay.old).may_hold (B.disks bay.new).may_hold slot (λ l. IsInEither prepared.now l ⊎ (l ≡ slice_index (B.disks bay.old).sizes slot - 1)) }
    ensures spends { SpendsWrites (B.disks bay.old) (B.disks bay.new) slot (2 * (sector_count prepared.now.runs + 2) + 1) (2 * (length prepared.now.runs + 5) + 3) }
    ensures ok { OnOk result ((B.disks bay.new).failed_writes ≡ (B.disks bay.old).failed_writes) }
    ensures failed { IfErr result (λ e. (e.0 ≡ slot) × Rose ((B.disks bay.old).failed_writes slot) ((B.disks bay.new).failed_writes slot)) }
{
    let runs = prepared.runs.items();
    write_founding(
        bay,
        slot,
        &prepared.first,
        &prepared.second,
        runs,
        &prepared.anchor,
    )
}

/// Writes both copies of a disk that shows another group, and its anchor between them.
fn adopt<B: Bay>(bay: &mut B, slot: usize, prepared: &Prepared) -> Result<(), DiskFault>
    requires slot { slot < length (B.disks bay.old).sizes }
    requires on_slot { LiesOn (slice_index (B.disks bay.old).sizes slot) prepared.now }
    ensures adopt { B.tells → (anchor : Header) (last : Which) (old copy : DiskCopy) → IsPrepared copy last Mode.Adopt prepared.now
        → MayAdopt (B.disks bay.old) slot anchor last old copy
        → StopsLeave (B.disks bay.old) (B.disks bay.new) (IsLeft (B.disks bay.old).may_hold)
        ⊎ StopsLeaveSince (B.disks bay.old) (B.disks bay.new) (IsFormerOrNew (B.disks bay.old) slot prepared.now last old copy) }
    ensures adopted { B.tells → (anchor : Header) (last : Which) (old copy : DiskCopy) → IsPrepared copy last Mode.Adopt prepared.now
        → MayAdopt (B.disks bay.old) slot anchor last old copy
        → OnOk result (IsAdopted (B.disks bay.old) (B.disks bay.new) slot prepared.now last old copy) }
    ensures held { B.tells → StaysOutside (B.disks bay.old).held (B.disks bay.new).held slot (λ l. IsInEither prepared.now l ⊎ (l ≡ slice_index (B.disks bay.old).sizes slot - 1)) }
    ensures left { KeepsOutside (B.disks bay.old).may_hold (B.disks bay.new).may_hold slot (λ l. IsInEither prepared.now l ⊎ (l ≡ slice_index (B.disks bay.old).sizes slot - 1)) }
    ensures spends { SpendsWrites (B.disks bay.old) (B.disks bay.new) slot (2 * (sector_count prepared.now.runs + 2) + 1) (2 * (length prepared.now.runs + 5) + 3) }
    ensures ok { OnOk result ((B.disks bay.new).failed_writes ≡ (B.disks bay.old).failed_writes) }
    ensures failed { IfErr result (λ e. (e.0 ≡ slot) × Rose ((B.disks bay.old).failed_writes slot) ((B.disks bay.new).failed_writes slot)) }
{
    let runs = prepared.runs.items();
    write_adoption(
        bay,
        slot,
        &prepared.first,
        &prepared.second,
        runs,
        &prepared.anchor,
    )
}

/// Writes both copies of a disk that shows another group at other places, and then its anchor.
fn relocate<B: Bay>(bay: &mut B, slot: usize, prepared: &Prepared) -> Result<(), DiskFault>
    requires slot { slot < length (B.disks bay.old).sizes }
    requires on_slot { LiesOn (slice_index (B.disks bay.old).sizes slot) prepared.now }
    ensures relocate { B.tells → (anchor : Header) (last : Which) (old copy : DiskCopy) → IsPrepared copy last Mode.Move prepared.now
        → MayMove (B.disks bay.old) slot anchor last old copy
        → StopsLeave (B.disks bay.old) (B.disks bay.new) (IsLeft (B.disks bay.old).may_hold)
        ⊎ StopsLeaveSince (B.disks bay.old) (B.disks bay.new) (IsMovedOrNot (B.disks bay.old) slot prepared.now copy) }
    ensures relocated { B.tells → (anchor : Header) (last : Which) (old copy : DiskCopy) → IsPrepared copy last Mode.Move prepared.now
        → MayMove (B.disks bay.old) slot anchor last old copy
        → OnOk result (IsMoved (B.disks bay.old) (B.disks bay.new) slot prepared.now copy) }
    ensures held { B.tells → StaysOutside (B.disks bay.old).held (B.disks bay.new).held slot (λ l. IsInEither prepared.now l ⊎ (l ≡ slice_index (B.disks bay.old).sizes slot - 1)) }
    ensures left { KeepsOutside (B.disks bay.old).may_hold (B.disks bay.new).may_hold slot (λ l. IsInEither prepared.now l ⊎ (l ≡ slice_index (B.disks bay.old).sizes slot - 1)) }
    ensures spends { SpendsWrites (B.disks bay.old) (B.disks bay.new) slot (2 * (sector_count prepared.now.runs + 2) + 1) (2 * (length prepared.now.runs + 5) + 3) }
    ensures ok { OnOk result ((B.disks bay.new).failed_writes ≡ (B.disks bay.old).failed_writes) }
    ensures failed { IfErr result (λ e. (e.0 ≡ slot) × Rose ((B.disks bay.old).failed_writes slot) ((B.disks bay.new).failed_writes slot)) }
{
    let runs = prepared.runs.items();
    write_founding(
        bay,
        slot,
        &prepared.first,
        &prepared.second,
        runs,
        &prepared.anchor,
    )
}
