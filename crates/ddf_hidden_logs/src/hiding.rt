//! A bay whose disks' bad block logs show what counts against the disk, by one look at each.
ghost use Rattle.std.specs.Prelude.{◌≡◌, ◌+◌, ◌*◌, ◌<◌, ◌≤◌, ℕ, true, false, length, IfErr, IfOk, slice_index};
ghost use Rattle.ddf_bay.specs.ReadsOnly.{LookFailed, ReadsOnly, SlotSame};
ghost use Rattle.ddf_hidden_logs.specs.Looks.{below, disks_of, is_fenced, mask_of};
ghost use Rattle.ddf_hidden_logs.specs.Shown.{mask_or};

use crate::hidden::Hidden;
use crate::look::look_at_all;
use ddf_bay::Bay;
use ddf_bytes::NoMemory;
use ddf_fenced::Fenced;
use std::alloc::Global;

/// Looks at the copies of each slot once, and shows of its bad block log from then on what counts against the disk (`ddf_logs::log_of`). A slot
/// whose copies could not be read fails each call: what counts against it isn't known.
///
/// # Errors
/// The bay itself, where memory ran out.
pub fn hide_logs<B: Bay + Drop>(alloc: Global, inner: B) -> Result<Hidden<Fenced<B>>, B>
    // Nothing is written, and at most 15 calls are made a slot. So it is where memory ran out, too.
    ensures reads { IfOk result (λ bay. ReadsOnly (B.disks inner) (B.disks (below bay))) }
    ensures calls { IfOk result (λ bay. (B.disks (below bay)).calls ≤ (B.disks inner).calls + 15 * length (B.disks inner).sizes) }
    ensures reads_failed { IfErr result (λ back. ReadsOnly (B.disks inner) (B.disks back)) }
    ensures calls_failed { IfErr result (λ back. (B.disks back).calls ≤ (B.disks inner).calls + 15 * length (B.disks inner).sizes) }

    // A slot is fenced exactly where a call of this look failed on it.
    ensures failed { IfOk result (λ bay. (s : ℕ) → s < length (B.disks inner).sizes → is_fenced bay s ≡ true → LookFailed (B.disks inner) (B.disks (below bay)) s) }
    ensures read { IfOk result (λ bay. (s : ℕ) → s < length (B.disks inner).sizes → is_fenced bay s ≡ false → SlotSame (B.disks inner) (B.disks (below bay)) s) }
    // A slot that has a sector isn't synced.
    ensures unsynced { IfOk result (λ bay. (s : ℕ) → s < length (B.disks inner).sizes → 0 < slice_index (B.disks inner).sizes s → (B.disks (below bay)).failed_writes s ≡ (B.disks inner).failed_writes s) }

    // Each other slot is seen through the mask of its own copies.
    ensures masked { B.tells → IfOk result (λ bay. (s : ℕ) → s < length (B.disks inner).sizes → mask_of bay s ≡ mask_or (B.disks inner) s (is_fenced bay s)) }

    // Its own counts begin at 0.
    ensures made { IfOk result (λ bay. (disks_of B.disks bay).calls ≡ 0) }
    ensures faults { IfOk result (λ bay. (s : ℕ) → is_fenced bay s ≡ true → ((disks_of B.disks bay).failed_reads s ≡ 0) × ((disks_of B.disks bay).failed_writes s ≡ 0)) }
{
    let mut inner = inner;
    let looks = match look_at_all(alloc, &mut inner) {
        Ok(looks) => looks,
        Err(NoMemory) => return Err(inner),
    };
    Ok(Hidden::new(Fenced::new(inner, looks.failed), looks.masks))
}
