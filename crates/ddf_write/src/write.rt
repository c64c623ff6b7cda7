//! Writes of blocks of an array: every available copy, then the parity of the touched rows, then one sync of each disk. What refuses them is asked
//! first, since nothing is undone. docs/DECISIONS-COMMANDS.md#blocks-written
ghost use Rattle.std.specs.Prelude.{◌≡◌, ◌+◌, ◌<◌, ◌≤◌, ◌^◌, ℕ, ◌⊎◌, None, true, false, length, replicate, slice_index_or, slice_set, if◌then◌else◌, IfOk, OnOk, IfErr};
ghost use Rattle.std.specs.List.{list_all, list_any};
ghost use Rattle.ddf_bay.specs.Moments.{IsSettled, StopsLeave};
ghost use Rattle.ddf_bytes.specs.Counts.{Rose};
ghost use Rattle.ddf_array.specs.Places.{is_available};
ghost use Rattle.ddf_array.specs.Sources.{trusts_parity};
ghost use Rattle.ddf_array.specs.Volume.{Fits, IsVolume, capacity};
ghost use Rattle.ddf_cells.specs.CellsOn.{copy_cells, write_stretches};
ghost use Rattle.ddf_write.specs.Keeping.{AllAreKept, AreTheirValues};
ghost use Rattle.ddf_write.specs.RowWrites.{keeps_parity_anywhere, row_cells};
ghost use Rattle.ddf_cells.specs.Touching.{GoesBetween, IsTouchedSlot, Writes};
ghost use Rattle.ddf_cells.specs.Degraded.{is_degraded, lacks_place};
ghost use Rattle.ddf_write.specs.WriteRefused.{write_refusal, IsStopped, IsWriteFault};
ghost use Rattle.ddf_array.specs.Apart.{IsApart};
ghost use Rattle.ddf_write.specs.Writing.{AddsWrites, HasWritten, IsAmongWrites, IsLeftByWrite, IsWritten, MayGive, NotesWrites};

use crate::kept::Kept;
use crate::rows::set_rows;
use ddf_array::View;
use ddf_bay::Bay;
use ddf_bytes::Sector;
use ddf_cells::{is_degraded, sync_touched, touch, write_cells};
use ddf_read::VolumeFault;

/// Why `write_blocks` writes none of so many blocks from one on: `Range` where they pass the capacity, `Lost` where the array
/// isn't within its level, `Degraded` where an element that keeps parity lacks a position, the first of these that holds.
pub fn write_refusal(view: &View, start: u64, count: usize) -> Option<VolumeFault>
    ensures value { result ≡ write_refusal view.now start count }
    ensures small { result ≡ None → start + count < 2 ^ 64 }
    ensures sound { IsVolume view.now }
{
    let capacity = view.capacity();
    if start > capacity || count as u64 > capacity - start {
        return Some(VolumeFault::Range(capacity));
    }
    if !view.within() {
        return Some(VolumeFault::Lost);
    }
    if is_degraded(view) {
        return Some(VolumeFault::Degraded);
    }
    None
}

/// Writes the cells of these blocks, then the parity of the rows that they touch, and syncs nothing. Answers which slots it wrote
/// to; after a failure, the slot that failed, of those that it writes to.
fn put_all<B: Bay>(
    bay: &mut B,
    view: &View,
    kept: &Kept,
    start: u64,
    from: &[Sector],
) -> Result<[bool; 64], usize>
    requires known { IsVolume view.now }
    requires apart { IsApart view.now }
    requires fits { Fits (B.disks bay.old).sizes view.now }
    requires whole { is_degraded view.now ≡ false }
    requires small { start + length from.now < 2 ^ 64 }
    requires blocks { start + length from.now ≤ capacity view.now }
    requires all_kept { AllAreKept view.now start (length from.now) kept.now }
    ensures any_moment { StopsLeave (B.disks bay.old) (B.disks bay.new) (IsAmongWrites view.now start from.now (B.disks bay.old).may_hold) }
    ensures held { B.tells → IsLeftByWrite view.now start from.now (B.disks bay.old).held (B.disks bay.new).held }
    ensures left { AddsWrites view.now start from.now (B.disks bay.old).may_hold (B.disks bay.new).may_hold }
    ensures writes { IfOk result (λ touched. Writes (MayGive view.now start from.now) B.tells (B.disks bay.old) (B.disks bay.new) (replicate 64 false) touched) }
    ensures written { B.tells → OnOk result (HasWritten view.now start from.now (AreTheirValues view.now (B.disks bay.old).held kept.now) (B.disks bay.new).held) }
    ensures noted { B.tells → IfOk result (λ touched. (slot : ℕ) → IsWritten view.now start (length from.now) slot → IsTouchedSlot touched slot) }
    ensures unfailed { OnOk result ((B.disks bay.new).failed_writes ≡ (B.disks bay.old).failed_writes) }
    ensures cause { IfErr result (IsStopped (B.disks bay.old) (B.disks bay.new) view.now start (length from.now)) }
    ensures goes { GoesBetween (B.disks bay.old) (B.disks bay.new) }
    ensures reads { (B.disks bay.new).failed_reads ≡ (B.disks bay.old).failed_reads }
    ensures asked { (B.disks bay.new).sectors_asked ≤ (B.disks bay.old).sectors_asked + (copy_cells view.now start (length from.now) + row_cells view.now (length from.now)) }
    ensures sectors { (B.disks bay.new).sectors_written ≤ (B.disks bay.old).sectors_written + (copy_cells view.now start (length from.now) + row_cells view.now (length from.now)) }
    ensures calls { keeps_parity_anywhere view.now ≡ false → (B.disks bay.new).calls ≤ (B.disks bay.old).calls + write_stretches view.now start (length from.now) }
{
    let mut touched = [false; 64];
    write_cells(bay, view, start, from, &mut touched)?;
    set_rows(bay, view, kept, start, from, &mut touched)?;
    Ok(touched)
}

/// Writes the cells of these blocks, then the parity of the rows that they touch, and makes both sure. After a failure, the
/// slot that failed, of those that it writes to.
fn write_all<B: Bay>(
    bay: &mut B,
    view: &View,
    kept: &Kept,
    start: u64,
    from: &[Sector],
) -> Result<(), usize>
    requires known { IsVolume view.now }
    requires apart { IsApart view.now }
    requires fits { Fits (B.disks bay.old).sizes view.now }
    requires whole { is_degraded view.now ≡ false }
    requires small { start + length from.now < 2 ^ 64 }
    requires blocks { start + length from.now ≤ capacity view.now }
    requires all_kept { AllAreKept view.now start (length from.now) kept.now }
    ensures any_moment { StopsLeave (B.disks bay.old) (B.disks bay.new) (IsAmongWrites view.now start from.now (B.disks bay.old).may_hold) }
    ensures held { B.tells → IsLeftByWrite view.now start from.now (B.disks bay.old).held (B.disks bay.new).held }
    ensures left { AddsWrites view.now start from.now (B.disks bay.old).may_hold (B.disks bay.new).may_hold }
    ensures written { B.tells → OnOk result (HasWritten view.now start from.now (AreTheirValues view.now (B.disks bay.old).held kept.now) (B.disks bay.new).held) }
    ensures durable { B.tells → OnOk result ((slot : ℕ) → IsWritten view.now start (length from.now) slot → IsSettled (B.disks bay.new).may_hold (B.disks bay.new).held slot) }
    ensures settled { B.tells → OnOk result ((slot : ℕ) → IsSettled (B.disks bay.old).may_hold (B.disks bay.old).held slot → IsSettled (B.disks bay.new).may_hold (B.disks bay.new).held slot) }
    ensures unfailed { OnOk result ((B.disks bay.new).failed_writes ≡ (B.disks bay.old).failed_writes) }
    ensures cause { IfErr result (IsStopped (B.disks bay.old) (B.disks bay.new) view.now start (length from.now)) }
    ensures goes { GoesBetween (B.disks bay.old) (B.disks bay.new) }
    ensures reads { (B.disks bay.new).failed_reads ≡ (B.disks bay.old).failed_reads }
    ensures asked { (B.disks bay.new).sectors_asked ≤ (B.disks bay.old).sectors_asked + (copy_cells view.now start (length from.now) + row_cells view.now (length from.now)) }
    ensures sectors { (B.disks bay.new).sectors_written ≤ (B.disks bay.old).sectors_written + (copy_cells view.now start (length from.now) + row_cells view.now (length from.now)) }
    ensures calls { keeps_parity_anywhere view.now ≡ false → (B.disks bay.new).calls ≤ (B.disks bay.old).calls + (write_stretches view.now start (length from.now) + length (B.disks bay.old).sizes) }
{
    let touched = put_all(bay, view, kept, start, from)?;
    sync_touched(bay, &touched)
}

/// Writes the blocks of a range, as many as there are sectors. Every available cell of a block gets its bytes; then each
/// parity cell of a row that holds one of these blocks becomes the exclusive-or of what the row's data cells have after the
/// call. Data cells beside the blocks aren't read: their values were kept before. Then each slot that was written to is synced.
/// Neighbouring blocks are written in one call where their cells on a position follow one another. No read fails, since none
/// is made.
///
/// The parity is right where what is kept are the values of the cells. An array that keeps parity has to be marked, so that
/// whoever meets a write that was interrupted makes it redundant again.
///
/// # Errors
/// `Range` where the range passes the capacity, `Lost` where the array isn't within its level, `Degraded` where an element that
/// keeps parity lacks a position; then no call is made. `Disk` where a write or sync failed of the slot, which has an
/// available cell of these blocks or a parity cell of a row that they touch.
pub fn write_blocks<B: Bay>(
    bay: &mut B,
    view: &View,
    kept: &Kept,
    start: u64,
    from: &[Sector],
) -> Result<(), VolumeFault>
    requires apart { IsApart view.now }
    requires fits { Fits (B.disks bay.old).sizes view.now }
    requires marked { keeps_parity_anywhere view.now ≡ true → trusts_parity view.now ≡ false }
    requires all_kept { AllAreKept view.now start (length from.now) kept.now }
    ensures any_moment { StopsLeave (B.disks bay.old) (B.disks bay.new) (IsAmongWrites view.now start from.now (B.disks bay.old).may_hold) }
    ensures held { B.tells → IsLeftByWrite view.now start from.now (B.disks bay.old).held (B.disks bay.new).held }
    ensures left { AddsWrites view.now start from.now (B.disks bay.old).may_hold (B.disks bay.new).may_hold }
    ensures written { B.tells → OnOk result (HasWritten view.now start from.now (AreTheirValues view.now (B.disks bay.old).held kept.now) (B.disks bay.new).held) }
    ensures durable { B.tells → OnOk result ((slot : ℕ) → IsWritten view.now start (length from.now) slot → IsSettled (B.disks bay.new).may_hold (B.disks bay.new).held slot) }
    ensures settled { B.tells → OnOk result ((slot : ℕ) → IsSettled (B.disks bay.old).may_hold (B.disks bay.old).held slot → IsSettled (B.disks bay.new).may_hold (B.disks bay.new).held slot) }
    ensures ok { OnOk result (write_refusal view.now start (length from.now) ≡ None) }
    ensures unfailed { OnOk result ((B.disks bay.new).failed_writes ≡ (B.disks bay.old).failed_writes) }
    ensures fault { IfErr result (IsWriteFault (B.disks bay.old) (B.disks bay.new) view.now start (length from.now)) }
    ensures goes { GoesBetween (B.disks bay.old) (B.disks bay.new) }
    ensures reads { (B.disks bay.new).failed_reads ≡ (B.disks bay.old).failed_reads }
    ensures asked { (B.disks bay.new).sectors_asked ≤ (B.disks bay.old).sectors_asked + (copy_cells view.now start (length from.now) + row_cells view.now (length from.now)) }
    ensures sectors { (B.disks bay.new).sectors_written ≤ (B.disks bay.old).sectors_written + (copy_cells view.now start (length from.now) + row_cells view.now (length from.now)) }
    ensures calls { keeps_parity_anywhere view.now ≡ false → (B.disks bay.new).calls ≤ (B.disks bay.old).calls + (write_stretches view.now start (length from.now) + length (B.disks bay.old).sizes) }
{
    if let Some(fault) = write_refusal(view, start, from.len()) {
        return Err(fault);
    }
    match write_all(bay, view, kept, start, from) {
        Ok(()) => Ok(()),
        Err(slot) => Err(VolumeFault::Disk(slot)),
    }
}

/// Notes a slot where it is one of these.
fn note(touched: &mut [bool; 64], these: &[bool; 64], slot: usize)
    requires { slot < 64 }
    ensures { touched.new ≡ (if slice_index_or these.now slot false then slice_set touched.old slot true else touched.old) }
{
    if these[slot] {
        touch(touched, slot);
    }
}

/// Notes these slots, beside those that are noted.
fn note_all(touched: &mut [bool; 64], these: &[bool; 64])
    ensures stays { (slot : ℕ) → IsTouchedSlot touched.old slot → IsTouchedSlot touched.new slot }
    ensures noted { (slot : ℕ) → IsTouchedSlot these.now slot → IsTouchedSlot touched.new slot }
    ensures only { (slot : ℕ) → IsTouchedSlot touched.new slot → IsTouchedSlot touched.old slot ⊎ IsTouchedSlot these.now slot }
{
    for slot in 0..64 {
        note(touched, these, slot);
    }
}

/// Writes the blocks of a range as `write_blocks` does, but for the syncs: the slots that it wrote to are noted, beside those that are noted
/// before, and a later sync of them makes the blocks sure. Until then a stop leaves each of them with its old bytes or the new ones.
///
/// # Errors
/// As for `write_blocks`. After `Disk` no slot is noted of those that it wrote to.
pub fn write_unsynced<B: Bay>(
    bay: &mut B,
    view: &View,
    kept: &Kept,
    start: u64,
    from: &[Sector],
    touched: &mut [bool; 64],
) -> Result<(), VolumeFault>
    requires apart { IsApart view.now }
    requires fits { Fits (B.disks bay.old).sizes view.now }
    requires marked { keeps_parity_anywhere view.now ≡ true → trusts_parity view.now ≡ false }
    requires all_kept { AllAreKept view.now start (length from.now) kept.now }
    ensures any_moment { StopsLeave (B.disks bay.old) (B.disks bay.new) (IsAmongWrites view.now start from.now (B.disks bay.old).may_hold) }
    ensures held { B.tells → IsLeftByWrite view.now start from.now (B.disks bay.old).held (B.disks bay.new).held }
    ensures left { AddsWrites view.now start from.now (B.disks bay.old).may_hold (B.disks bay.new).may_hold }
    ensures written { B.tells → OnOk result (HasWritten view.now start from.now (AreTheirValues view.now (B.disks bay.old).held kept.now) (B.disks bay.new).held) }
    ensures noted { B.tells → OnOk result ((slot : ℕ) → IsWritten view.now start (length from.now) slot → IsTouchedSlot touched.new slot) }
    ensures notes { OnOk result (NotesWrites view.now start (length from.now) touched.old touched.new) }
    ensures ok { OnOk result (write_refusal view.now start (length from.now) ≡ None) }
    ensures unfailed { OnOk result ((B.disks bay.new).failed_writes ≡ (B.disks bay.old).failed_writes) }
    ensures fault { IfErr result (IsWriteFault (B.disks bay.old) (B.disks bay.new) view.now start (length from.now)) }
    ensures goes { GoesBetween (B.disks bay.old) (B.disks bay.new) }
    ensures reads { (B.disks bay.new).failed_reads ≡ (B.disks bay.old).failed_reads }
    ensures asked { (B.disks bay.new).sectors_asked ≤ (B.disks bay.old).sectors_asked + (copy_cells view.now start (length from.now) + row_cells view.now (length from.now)) }
    ensures sectors { (B.disks bay.new).sectors_written ≤ (B.disks bay.old).sectors_written + (copy_cells view.now start (length from.now) + row_cells view.now (length from.now)) }
    ensures calls { keeps_parity_anywhere view.now ≡ false → (B.disks bay.new).calls ≤ (B.disks bay.old).calls + write_stretches view.now start (length from.now) }
{
    if let Some(fault) = write_refusal(view, start, from.len()) {
        return Err(fault);
    }
    match put_all(bay, view, kept, start, from) {
        Ok(these) => {
            note_all(touched, &these);
            Ok(())
        }
        Err(slot) => Err(VolumeFault::Disk(slot)),
    }
}
