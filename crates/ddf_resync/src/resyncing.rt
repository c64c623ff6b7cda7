//! The resync of an array: each copy gets the bytes of the first one, and each row its parity. docs/COMMANDS.md#resync
ghost use Rattle.std.specs.Prelude.{◌≡◌, ◌⊎◌, ◌+◌, ◌≤◌, ℕ, None, true, false, OnOk, IfErr};
ghost use Rattle.ddf_bay.specs.Moments.{IsSettled, StopsLeave};
ghost use Rattle.ddf_array.specs.Apart.{IsApart};
ghost use Rattle.ddf_array.specs.Sources.{trusts_parity};
ghost use Rattle.ddf_array.specs.Volume.{Fits, IsVolume};
ghost use Rattle.ddf_array.specs.Within.{is_redundant, is_within};
ghost use Rattle.ddf_read.specs.Reading.{Failed, OnlyReads};
ghost use Rattle.ddf_cells.specs.CellSources.{IsReadable};
ghost use Rattle.ddf_cells.specs.Degraded.{is_degraded};
ghost use Rattle.ddf_cells.specs.Touching.{GoesBetween};
ghost use Rattle.ddf_resync.specs.Compared.{HasDiffered};
ghost use Rattle.ddf_resync.specs.Resyncing.{AddsResynced, HasResynced, IsAmongResynced, IsLeftByResync, IsResyncFault, IsSetOn, IsStopped, IsUntouched, resync_refusal};
ghost use Rattle.ddf_resync.specs.Scrubbing.{AgreesEverywhere};
ghost use Rattle.ddf_resync.specs.Several.{resync_sectors};

use crate::copying::copy_all;
use crate::outcome::Scrub;
use crate::setting::set_all;
use crate::walk::scrub;
use ddf_array::View;
use ddf_bay::Bay;
use ddf_cells::{is_degraded, sync_touched};
use ddf_read::VolumeFault;

/// Why an array isn't resynced: `Lost` where it isn't within its level, `Unsure` where an element that keeps parity lacks a
/// position, the first of these that holds.
pub fn resync_refusal(view: &View) -> Option<VolumeFault>
    ensures value { result ≡ resync_refusal view.now }
    ensures sound { IsVolume view.now }
{
    let _parts = view.parts();
    if !view.within() {
        return Some(VolumeFault::Lost);
    }
    if is_degraded(view) {
        return Some(VolumeFault::Unsure);
    }
    None
}

/// Makes the copies of an array's blocks equal, then its parity right, and makes both sure. After a failure, the slot that
/// failed, of those that it writes to, or at which no source is left.
fn resync_all<B: Bay>(bay: &mut B, view: &View) -> Result<(), usize>
    requires known { IsVolume view.now }
    requires apart { IsApart view.now }
    requires fits { Fits (B.disks bay.old).sizes view.now }
    requires readable { IsReadable view.now }
    requires marked { view.now.marked ≡ true }
    requires whole { is_degraded view.now ≡ false }
    ensures any_moment { StopsLeave (B.disks bay.old) (B.disks bay.new) (IsAmongResynced view.now B.tells (B.disks bay.old).held (B.disks bay.old).may_hold) }
    ensures left { AddsResynced view.now B.tells (B.disks bay.old).held (B.disks bay.old).may_hold (B.disks bay.new).may_hold }
    ensures held { B.tells → IsLeftByResync view.now B.tells (B.disks bay.old).held (B.disks bay.new).held }
    ensures resynced { B.tells → OnOk result (HasResynced (Failed (B.disks bay.old) (B.disks bay.new)) view.now (B.disks bay.old).held (B.disks bay.new).held) }
    ensures durable { B.tells → OnOk result ((slot : ℕ) → IsSetOn view.now slot → IsSettled (B.disks bay.new).may_hold (B.disks bay.new).held slot) }
    ensures settled { B.tells → OnOk result ((slot : ℕ) → IsSettled (B.disks bay.old).may_hold (B.disks bay.old).held slot → IsSettled (B.disks bay.new).may_hold (B.disks bay.new).held slot) }
    ensures unfailed { OnOk result ((B.disks bay.new).failed_writes ≡ (B.disks bay.old).failed_writes) }
    ensures cause { IfErr result (IsStopped (B.disks bay.old) (B.disks bay.new) view.now) }
    ensures goes { GoesBetween (B.disks bay.old) (B.disks bay.new) }
    ensures asked { (B.disks bay.new).sectors_asked ≤ (B.disks bay.old).sectors_asked + resync_sectors view.now }
    ensures sectors { (B.disks bay.new).sectors_written ≤ (B.disks bay.old).sectors_written + resync_sectors view.now }
{
    let mut touched = [false; 64];
    copy_all(bay, view, &mut touched)?;
    set_all(bay, view, &mut touched)?;
    sync_touched(bay, &touched)
}

/// Makes an array redundant. Each block that has several available cells is read once, by the first of these that can be
/// read, and these bytes are written to all of them, one of which a read failed too. Then the parity of every row of every
/// element that keeps any becomes the exclusive-or of the row's data cells, that of rows without blocks too. Then each slot
/// that was written to is synced. An array that isn't redundant by its level is left alone, and no call is made; one that is has
/// to be marked, so that no block is read from parity meanwhile.
///
/// # Errors
/// `Lost` where the array isn't within its level, `Unsure` where an element that keeps parity lacks a position; then no call
/// is made. `Disk` where a write or sync failed of the slot, which has an available cell of a block with several of them or
/// a parity cell, or where each source of such a block, or of a data cell of a row whose parity is set, has a slot of which
/// a read failed: it names such a slot of the first source.
pub fn resync<B: Bay>(bay: &mut B, view: &View) -> Result<(), VolumeFault>
    requires apart { IsApart view.now }
    requires fits { Fits (B.disks bay.old).sizes view.now }
    requires marked { is_redundant view.now ≡ true → trusts_parity view.now ≡ false }
    ensures any_moment { StopsLeave (B.disks bay.old) (B.disks bay.new) (IsAmongResynced view.now B.tells (B.disks bay.old).held (B.disks bay.old).may_hold) }
    ensures left { AddsResynced view.now B.tells (B.disks bay.old).held (B.disks bay.old).may_hold (B.disks bay.new).may_hold }
    ensures held { B.tells → IsLeftByResync view.now B.tells (B.disks bay.old).held (B.disks bay.new).held }
    ensures resynced { B.tells → OnOk result (HasResynced (Failed (B.disks bay.old) (B.disks bay.new)) view.now (B.disks bay.old).held (B.disks bay.new).held) }
    ensures durable { B.tells → OnOk result ((slot : ℕ) → IsSetOn view.now slot → IsSettled (B.disks bay.new).may_hold (B.disks bay.new).held slot) }
    ensures settled { B.tells → OnOk result ((slot : ℕ) → IsSettled (B.disks bay.old).may_hold (B.disks bay.old).held slot → IsSettled (B.disks bay.new).may_hold (B.disks bay.new).held slot) }
    ensures ok { OnOk result (resync_refusal view.now ≡ None) }
    ensures unfailed { OnOk result ((B.disks bay.new).failed_writes ≡ (B.disks bay.old).failed_writes) }
    ensures fault { IfErr result (IsResyncFault (B.disks bay.old) (B.disks bay.new) view.now) }
    ensures goes { GoesBetween (B.disks bay.old) (B.disks bay.new) }
    ensures asked { (B.disks bay.new).sectors_asked ≤ (B.disks bay.old).sectors_asked + resync_sectors view.now }
    ensures sectors { (B.disks bay.new).sectors_written ≤ (B.disks bay.old).sectors_written + resync_sectors view.now }
    ensures idle { is_redundant view.now ≡ false → IsUntouched (B.disks bay.old) (B.disks bay.new) }
{
    if let Some(fault) = resync_refusal(view) {
        return Err(fault);
    }
    if !view.redundant() {
        return Ok(());
    }
    match resync_all(bay, view) {
        Ok(()) => Ok(()),
        Err(slot) => Err(VolumeFault::Disk(slot)),
    }
}

/// Whether a scrub of an array that is within its level finds nothing that differs. Where a read fails it isn't said to.
fn is_clean<B: Bay>(bay: &mut B, view: &View) -> bool
    requires fits { Fits (B.disks bay.old).sizes view.now }
    requires within { is_within view.now ≡ true }
    ensures yes { B.tells → result ≡ true → AgreesEverywhere view.now (B.disks bay.old).held }
    ensures no { B.tells → result ≡ false → HasDiffered view.now (B.disks bay.old).held (B.disks bay.old) (B.disks bay.new) }
    ensures reads { OnlyReads (B.disks bay.old) (B.disks bay.new) }
{
    match scrub(bay, view) {
        Ok(Scrub::Clean) => true,
        Ok(Scrub::Differs { .. }) => false,
        Err(_) => false,
    }
}

/// Makes an array redundant that may be so already, as one that was marked for its resync alone: it is scrubbed, and where that
/// finds nothing that differs, nothing is written or synced. Else it is resynced, also where a read of the scrub failed.
///
/// # Errors
/// Those of a resync, for the same causes.
pub fn resync_differing<B: Bay>(bay: &mut B, view: &View) -> Result<(), VolumeFault>
    requires apart { IsApart view.now }
    requires fits { Fits (B.disks bay.old).sizes view.now }
    requires marked { is_redundant view.now ≡ true → trusts_parity view.now ≡ false }
    ensures any_moment { StopsLeave (B.disks bay.old) (B.disks bay.new) (IsAmongResynced view.now B.tells (B.disks bay.old).held (B.disks bay.old).may_hold) }
    ensures left { AddsResynced view.now B.tells (B.disks bay.old).held (B.disks bay.old).may_hold (B.disks bay.new).may_hold }
    ensures held { B.tells → IsLeftByResync view.now B.tells (B.disks bay.old).held (B.disks bay.new).held }
    ensures resynced { B.tells → OnOk result (HasResynced (Failed (B.disks bay.old) (B.disks bay.new)) view.now (B.disks bay.old).held (B.disks bay.new).held) }
    ensures settled { B.tells → OnOk result ((slot : ℕ) → IsSettled (B.disks bay.old).may_hold (B.disks bay.old).held slot → IsSettled (B.disks bay.new).may_hold (B.disks bay.new).held slot) }
    ensures ok { OnOk result (resync_refusal view.now ≡ None) }
    ensures unfailed { OnOk result ((B.disks bay.new).failed_writes ≡ (B.disks bay.old).failed_writes) }
    ensures fault { IfErr result (IsResyncFault (B.disks bay.old) (B.disks bay.new) view.now) }
    ensures goes { GoesBetween (B.disks bay.old) (B.disks bay.new) }
    ensures asked { (B.disks bay.new).sectors_asked ≤ (B.disks bay.old).sectors_asked + resync_sectors view.now }
    ensures sectors { (B.disks bay.new).sectors_written ≤ (B.disks bay.old).sectors_written + resync_sectors view.now }
    ensures idle { is_redundant view.now ≡ false → IsUntouched (B.disks bay.old) (B.disks bay.new) }

    // Only reads are made, unless the array isn't redundant, or a read failed on a slot that has a sector of those that a scrub compares.
    ensures agreed { B.tells → OnlyReads (B.disks bay.old) (B.disks bay.new) ⊎ HasDiffered view.now (B.disks bay.old).held (B.disks bay.old) (B.disks bay.new) }
{
    if let Some(fault) = resync_refusal(view) {
        return Err(fault);
    }
    if !view.redundant() {
        return Ok(());
    }
    if is_clean(bay, view) {
        return Ok(());
    }
    resync(bay, view)
}
