//! A bay whose disks are read and written as their bad block logs say.
ghost use Rattle.std.specs.Prelude.{◌≡◌, ◌+◌, ◌*◌, ◌<◌, ◌≤◌, ℕ, true, false, length, IfErr, IfOk, slice_index};
ghost use Rattle.ddf_bay.specs.ReadsOnly.{LookFailed, ReadsOnly, SlotSame};
ghost use Rattle.ddf_badblocks.specs.Ranges.{are_exchangeable};
ghost use Rattle.ddf_logs.specs.Looks.{below, disks_of, exchange_or, is_fenced, ranges_of};

use crate::look::look_at_all;
use ddf_badblocks::Remapped;
use ddf_bay::Bay;
use ddf_bytes::NoMemory;
use ddf_fenced::Fenced;
use std::alloc::Global;

/// Looks at the copies of each slot once, and sees its bad sectors and their spare ones exchanged from then on, where its log is honoured
/// (`log_of`). A slot whose copies could not be read fails each call: where its blocks lie isn't known.
///
/// # Errors
/// The bay itself, where memory ran out.
pub fn seen_through<B: Bay + Drop>(alloc: Global, inner: B) -> Result<Remapped<Fenced<B>>, B>
    // Nothing is written, and at most 15 calls are made a slot. So it is where memory ran out, too.
    ensures reads { IfOk result (λ bay. ReadsOnly (B.disks inner) (B.disks (below bay))) }
    ensures calls { IfOk result (λ bay. (B.disks (below bay)).calls ≤ (B.disks inner).calls + 15 * length (B.disks inner).sizes) }
    ensures reads_failed { IfErr result (λ back. ReadsOnly (B.disks inner) (B.disks back)) }
    ensures calls_failed { IfErr result (λ back. (B.disks back).calls ≤ (B.disks inner).calls + 15 * length (B.disks inner).sizes) }

    // A slot is fenced exactly where a call of this look failed on it.
    ensures failed { IfOk result (λ bay. (s : ℕ) → s < length (B.disks inner).sizes → is_fenced bay s ≡ true → LookFailed (B.disks inner) (B.disks (below bay)) s) }
    ensures read { IfOk result (λ bay. (s : ℕ) → s < length (B.disks inner).sizes → is_fenced bay s ≡ false → SlotSame (B.disks inner) (B.disks (below bay)) s) }
    // A slot that has a sector isn't synced.
    ensures unsynced { IfOk result (λ bay. (s : ℕ) → s < length (B.disks inner).sizes → 0 < slice_index (B.disks inner).sizes s → (B.disks (below bay)).failed_writes s ≡ (B.disks inner).failed_writes s) }

    // Each other slot is exchanged by its own logs, and can be.
    ensures exchanged { B.tells → IfOk result (λ bay. (s : ℕ) → s < length (B.disks inner).sizes → ranges_of bay s ≡ exchange_or (B.disks inner) s (is_fenced bay s)) }
    ensures can { IfOk result (λ bay. (s : ℕ) → s < length (B.disks inner).sizes → are_exchangeable (slice_index (B.disks inner).sizes s) (ranges_of bay s) ≡ true) }

    // Its own counts begin at 0.
    ensures made { IfOk result (λ bay. (disks_of B.disks bay).calls ≡ 0) }
    ensures faults { IfOk result (λ bay. (s : ℕ) → is_fenced bay s ≡ true → ((disks_of B.disks bay).failed_reads s ≡ 0) × ((disks_of B.disks bay).failed_writes s ≡ 0)) }
{
    let mut inner = inner;
    let looks = match look_at_all(alloc, &mut inner) {
        Ok(looks) => looks,
        Err(NoMemory) => return Err(inner),
    };
    match Remapped::new(Fenced::new(inner, looks.failed), looks.exchanges) {
        Ok(bay) => Ok(bay),
        Err(_) => unreachable!(),
    }
}
