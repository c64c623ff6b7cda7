//! Runs that are read and written in pieces, each of which is a run of the bay below.
ghost use Rattle.std.specs.Prelude.{◌≡◌, ◌<◌, ◌≤◌, ◌+◌, [], true, List, ℕ, length, take, slice_index, slice_index_or, OnOk, OnErr, IfOk};
ghost use Rattle.ddf_bytes.specs.Counts.{Rose};
ghost use Rattle.ddf_bay.specs.Sectors.{IsLeft, put_run};
ghost use Rattle.ddf_bay.specs.Moments.{StopsLeave, Remembers, SpendsReads, SpendsWrites, Keeps, Adds, Mixes, IsAmong};
ghost use Rattle.ddf_badblocks.specs.declared.range.Range.{Range};
ghost use Rattle.ddf_badblocks.specs.Pieces.{begins_at, pieces_below};
ghost use Rattle.ddf_badblocks.specs.State.{place, seen_state};

use crate::exchange::Exchange;
use crate::place::{follow_at, swap_at};
use ddf_bay::{Bay, BayFailed};
use ddf_bytes::Sector;

/// Reads sectors at the front of a run, one at least, and answers how many.
fn read_front<B: Bay>(
    logs: &[Exchange],
    bay: &mut B,
    slot: usize,
    lba: u64,
    into: &mut [Sector],
) -> Result<usize, BayFailed>
    requires slot { slot < length (B.disks bay.old).sizes }
    requires some { 0 < length into.old }
    requires sectors { lba + length into.old ≤ slice_index (B.disks bay.old).sizes slot }
    ensures some { IfOk result (λ n. 0 < n) }
    ensures most { IfOk result (λ n. n ≤ length into.old) }
    ensures next { IfOk result (λ n. n < length into.old → begins_at (slice_index (B.disks bay.old).sizes slot) (slice_index_or logs.now slot []) lba n ≡ true) }
    ensures bytes { B.tells → IfOk result (λ n. (k : ℕ) → k < n → slice_index_or into.new k [] ≡ (B.disks bay.old).held slot (place (B.disks bay.old).sizes logs.now slot (lba + k))) }
    ensures held { (B.disks bay.new).held ≡ (B.disks bay.old).held }
    ensures left { Keeps (B.disks bay.old).may_hold (B.disks bay.new).may_hold }
    ensures any_moment { StopsLeave (B.disks bay.old) (B.disks bay.new) (IsLeft (B.disks bay.old).may_hold) }
    ensures remembers { Remembers (B.disks bay.old) (B.disks bay.new) }
    ensures ok { OnOk result ((B.disks bay.new).failed_reads ≡ (B.disks bay.old).failed_reads) }
    ensures failed { OnErr result (Rose ((B.disks bay.old).failed_reads slot) ((B.disks bay.new).failed_reads slot)) }
    ensures gone { OnOk result ((B.disks bay.old).gone slot → ⊥) }
    ensures spends { SpendsReads (B.disks bay.old) (B.disks bay.new) slot 1 }
{
    let size = bay.size(slot);
    let count = follow_at(logs, slot, size, lba, into.len());
    let at = swap_at(logs, slot, size, lba);
    let front = &mut into[..count];
    bay.read_run(slot, at, front)?;
    Ok(count)
}

/// Reads a run, each sector where it is seen.
pub(crate) fn read_pieces<B: Bay>(
    logs: &[Exchange],
    bay: &mut B,
    slot: usize,
    lba: u64,
    into: &mut [Sector],
) -> Result<(), BayFailed>
    requires slot { slot < length (B.disks bay.old).sizes }
    requires some { 0 < length into.old }
    requires sectors { lba + length into.old ≤ slice_index (B.disks bay.old).sizes slot }
    ensures bytes { B.tells → OnOk result ((k : ℕ) → k < length into.new → slice_index_or into.new k [] ≡ (B.disks bay.old).held slot (place (B.disks bay.old).sizes logs.now slot (lba + k))) }
    ensures held { (B.disks bay.new).held ≡ (B.disks bay.old).held }
    ensures left { Keeps (B.disks bay.old).may_hold (B.disks bay.new).may_hold }
    ensures any_moment { StopsLeave (B.disks bay.old) (B.disks bay.new) (IsLeft (B.disks bay.old).may_hold) }
    ensures remembers { Remembers (B.disks bay.old) (B.disks bay.new) }
    ensures ok { OnOk result ((B.disks bay.new).failed_reads ≡ (B.disks bay.old).failed_reads) }
    ensures failed { OnErr result (Rose ((B.disks bay.old).failed_reads slot) ((B.disks bay.new).failed_reads slot)) }
    ensures gone { OnOk result ((B.disks bay.old).gone slot → ⊥) }
    ensures spends { SpendsReads (B.disks bay.old) (B.disks bay.new) slot (pieces_below (slice_index (B.disks bay.old).sizes slot) (slice_index_or logs.now slot []) lba (length into.old)) }
{
    let mut done = 0;
    while done < into.len() {
        done += read_front(logs, bay, slot, lba + done as u64, &mut into[done..])?;
    }
    Ok(())
}

/// Writes sectors from the front of a run, one at least, and answers how many.
fn write_front<B: Bay>(
    logs: &[Exchange],
    bay: &mut B,
    slot: usize,
    lba: u64,
    from: &[Sector],
) -> Result<usize, BayFailed>
    requires slot { slot < length (B.disks bay.old).sizes }
    requires some { 0 < length from.now }
    requires sectors { lba + length from.now ≤ slice_index (B.disks bay.old).sizes slot }
    ensures some { IfOk result (λ n. 0 < n) }
    ensures most { IfOk result (λ n. n ≤ length from.now) }
    ensures next { IfOk result (λ n. n < length from.now → begins_at (slice_index (B.disks bay.old).sizes slot) (slice_index_or logs.now slot []) lba n ≡ true) }
    ensures held { let at = place (B.disks bay.old).sizes logs.now in
        B.tells → IfOk result (λ n. (seen_state at (B.disks bay.new)).held ≡ put_run (seen_state at (B.disks bay.old)).held slot lba (take n from.now)) }
    ensures held_failed { let at = place (B.disks bay.old).sizes logs.now in
        B.tells → OnErr result (Mixes (seen_state at (B.disks bay.old)).held (seen_state at (B.disks bay.new)).held slot lba from.now) }
    ensures left { let at = place (B.disks bay.old).sizes logs.now in
        Adds (seen_state at (B.disks bay.old)).may_hold (seen_state at (B.disks bay.new)).may_hold slot lba from.now }
    ensures any_moment { let at = place (B.disks bay.old).sizes logs.now in
        StopsLeave (seen_state at (B.disks bay.old)) (seen_state at (B.disks bay.new)) (IsAmong (seen_state at (B.disks bay.old)).may_hold slot lba from.now) }
    ensures remembers { Remembers (B.disks bay.old) (B.disks bay.new) }
    ensures ok { OnOk result ((B.disks bay.new).failed_writes ≡ (B.disks bay.old).failed_writes) }
    ensures failed { OnErr result (Rose ((B.disks bay.old).failed_writes slot) ((B.disks bay.new).failed_writes slot)) }
    ensures gone { OnOk result ((B.disks bay.old).gone slot → ⊥) }
    ensures spends { IfOk result (λ n. SpendsWrites (B.disks bay.old) (B.disks bay.new) slot n 1) }
    ensures spends_failed { OnErr result (SpendsWrites (B.disks bay.old) (B.disks bay.new) slot (length from.now) 1) }
{
    let size = bay.size(slot);
    let count = follow_at(logs, slot, size, lba, from.len());
    let at = swap_at(logs, slot, size, lba);
    bay.write_run(slot, at, &from[..count])?;
    Ok(count)
}

/// Writes a run, each sector where it is seen.
pub(crate) fn write_pieces<B: Bay>(
    logs: &[Exchange],
    bay: &mut B,
    slot: usize,
    lba: u64,
    from: &[Sector],
) -> Result<(), BayFailed>
    requires slot { slot < length (B.disks bay.old).sizes }
    requires some { 0 < length from.now }
    requires sectors { lba + length from.now ≤ slice_index (B.disks bay.old).sizes slot }
    ensures held { let at = place (B.disks bay.old).sizes logs.now in
        B.tells → OnOk result ((seen_state at (B.disks bay.new)).held ≡ put_run (seen_state at (B.disks bay.old)).held slot lba from.now) }
    ensures held_failed { let at = place (B.disks bay.old).sizes logs.now in
        B.tells → OnErr result (Mixes (seen_state at (B.disks bay.old)).held (seen_state at (B.disks bay.new)).held slot lba from.now) }
    ensures left { let at = place (B.disks bay.old).sizes logs.now in
        Adds (seen_state at (B.disks bay.old)).may_hold (seen_state at (B.disks bay.new)).may_hold slot lba from.now }
    ensures any_moment { let at = place (B.disks bay.old).sizes logs.now in
        StopsLeave (seen_state at (B.disks bay.old)) (seen_state at (B.disks bay.new)) (IsAmong (seen_state at (B.disks bay.old)).may_hold slot lba from.now) }
    ensures remembers { Remembers (B.disks bay.old) (B.disks bay.new) }
    ensures ok { OnOk result ((B.disks bay.new).failed_writes ≡ (B.disks bay.old).failed_writes) }
    ensures failed { OnErr result (Rose ((B.disks bay.old).failed_writes slot) ((B.disks bay.new).failed_writes slot)) }
    ensures gone { OnOk result ((B.disks bay.old).gone slot → ⊥) }
    ensures spends { SpendsWrites (B.disks bay.old) (B.disks bay.new) slot (length from.now) (pieces_below (slice_index (B.disks bay.old).sizes slot) (slice_index_or logs.now slot []) lba (length from.now)) }
{
    let mut done = 0;
    while done < from.len() {
        done += write_front(logs, bay, slot, lba + done as u64, &from[done..])?;
    }
    Ok(())
}
