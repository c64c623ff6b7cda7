//! A run that is written in pieces: those of sectors that are seen as they are together, and each turned one by itself.
ghost use Rattle.std.specs.Prelude.{◌≡◌, ◌<◌, ◌≤◌, ◌+◌, ◌^◌, [], ◌∷◌, true, false, List, ℕ, length, take, drop, slice_index, slice_index_or, OnOk, OnErr, IfOk};
ghost use Rattle.ddf_bytes.specs.Counts.{Rose};
ghost use Rattle.ddf_bay.specs.Sectors.{put_run};
ghost use Rattle.ddf_bay.specs.Moments.{StopsLeave, Remembers, SpendsWrites, Adds, Mixes, IsAmong};
ghost use Rattle.ddf_hidden_logs.specs.Masks.{mask_of, turn};
ghost use Rattle.ddf_hidden_logs.specs.Pieces.{begins_at, pieces_below, turns_at};
ghost use Rattle.ddf_hidden_logs.specs.State.{shown_state};

use crate::mask::Mask;
use crate::masks::{plain_length_at, turn_at};
use ddf_bay::{Bay, BayFailed};
use ddf_bytes::Sector;

/// Writes a sector, turned where it is one of those that are.
fn write_one<B: Bay>(
    masks: &[Option<Mask>],
    bay: &mut B,
    slot: usize,
    lba: u64,
    from: &Sector,
) -> Result<(), BayFailed>
    requires slot { slot < length (B.disks bay.old).sizes }
    requires sector { lba < slice_index (B.disks bay.old).sizes slot }
    ensures held { B.tells → OnOk result ((shown_state masks.now (B.disks bay.new)).held ≡ put_run (shown_state masks.now (B.disks bay.old)).held slot lba (from.now ∷ [])) }
    ensures held_failed { B.tells → OnErr result (Mixes (shown_state masks.now (B.disks bay.old)).held (shown_state masks.now (B.disks bay.new)).held slot lba (from.now ∷ [])) }
    ensures left { Adds (shown_state masks.now (B.disks bay.old)).may_hold (shown_state masks.now (B.disks bay.new)).may_hold slot lba (from.now ∷ []) }
    ensures any_moment { StopsLeave (shown_state masks.now (B.disks bay.old)) (shown_state masks.now (B.disks bay.new)) (IsAmong (shown_state masks.now (B.disks bay.old)).may_hold slot lba (from.now ∷ [])) }
    ensures remembers { Remembers (shown_state masks.now (B.disks bay.old)) (shown_state masks.now (B.disks bay.new)) }
    ensures ok { OnOk result ((B.disks bay.new).failed_writes ≡ (B.disks bay.old).failed_writes) }
    ensures failed { OnErr result (Rose ((B.disks bay.old).failed_writes slot) ((B.disks bay.new).failed_writes slot)) }
    ensures gone { OnOk result ((B.disks bay.old).gone slot → ⊥) }
    ensures spends { SpendsWrites (B.disks bay.old) (B.disks bay.new) slot 1 1 }
{
    let mut sector = *from;
    turn_at(masks, slot, lba, &mut sector);
    bay.write(slot, lba, &sector)
}

/// Writes a run none of whose sectors is turned.
fn write_plain<B: Bay>(
    masks: &[Option<Mask>],
    bay: &mut B,
    slot: usize,
    lba: u64,
    from: &[Sector],
) -> Result<(), BayFailed>
    requires slot { slot < length (B.disks bay.old).sizes }
    requires some { 0 < length from.now }
    requires sectors { lba + length from.now ≤ slice_index (B.disks bay.old).sizes slot }
    requires plain { (k : ℕ) → k < length from.now → turns_at (mask_of masks.now slot) lba from.now k ≡ false }
    ensures held { B.tells → OnOk result ((shown_state masks.now (B.disks bay.new)).held ≡ put_run (shown_state masks.now (B.disks bay.old)).held slot lba from.now) }
    ensures held_failed { B.tells → OnErr result (Mixes (shown_state masks.now (B.disks bay.old)).held (shown_state masks.now (B.disks bay.new)).held slot lba from.now) }
    ensures left { Adds (shown_state masks.now (B.disks bay.old)).may_hold (shown_state masks.now (B.disks bay.new)).may_hold slot lba from.now }
    ensures any_moment { StopsLeave (shown_state masks.now (B.disks bay.old)) (shown_state masks.now (B.disks bay.new)) (IsAmong (shown_state masks.now (B.disks bay.old)).may_hold slot lba from.now) }
    ensures remembers { Remembers (shown_state masks.now (B.disks bay.old)) (shown_state masks.now (B.disks bay.new)) }
    ensures ok { OnOk result ((B.disks bay.new).failed_writes ≡ (B.disks bay.old).failed_writes) }
    ensures failed { OnErr result (Rose ((B.disks bay.old).failed_writes slot) ((B.disks bay.new).failed_writes slot)) }
    ensures gone { OnOk result ((B.disks bay.old).gone slot → ⊥) }
    ensures spends { SpendsWrites (B.disks bay.old) (B.disks bay.new) slot (length from.now) 1 }
{
    bay.write_run(slot, lba, from)
}

/// Writes sectors from the front of a run, one at least, and answers how many.
fn write_front<B: Bay>(
    masks: &[Option<Mask>],
    bay: &mut B,
    slot: usize,
    lba: u64,
    from: &[Sector],
) -> Result<usize, BayFailed>
    requires slot { slot < length (B.disks bay.old).sizes }
    requires some { 0 < length from.now }
    requires sectors { lba + length from.now ≤ slice_index (B.disks bay.old).sizes slot }
    ensures some { IfOk result (λ n. 0 < n) }
    ensures most { IfOk result (λ n. n ≤ length from.now) }
    ensures held { B.tells → IfOk result (λ n. (shown_state masks.now (B.disks bay.new)).held ≡ put_run (shown_state masks.now (B.disks bay.old)).held slot lba (take n from.now)) }
    ensures held_failed { B.tells → OnErr result (Mixes (shown_state masks.now (B.disks bay.old)).held (shown_state masks.now (B.disks bay.new)).held slot lba from.now) }
    ensures left { Adds (shown_state masks.now (B.disks bay.old)).may_hold (shown_state masks.now (B.disks bay.new)).may_hold slot lba from.now }
    ensures any_moment { StopsLeave (shown_state masks.now (B.disks bay.old)) (shown_state masks.now (B.disks bay.new)) (IsAmong (shown_state masks.now (B.disks bay.old)).may_hold slot lba from.now) }
    ensures remembers { Remembers (shown_state masks.now (B.disks bay.old)) (shown_state masks.now (B.disks bay.new)) }
    ensures ok { OnOk result ((B.disks bay.new).failed_writes ≡ (B.disks bay.old).failed_writes) }
    ensures failed { OnErr result (Rose ((B.disks bay.old).failed_writes slot) ((B.disks bay.new).failed_writes slot)) }
    ensures gone { OnOk result ((B.disks bay.old).gone slot → ⊥) }
    ensures next { IfOk result (λ n. n < length from.now → begins_at (mask_of masks.now slot) lba from.now n ≡ true) }
    ensures spends { IfOk result (λ n. SpendsWrites (B.disks bay.old) (B.disks bay.new) slot n 1) }
    ensures spends_failed { OnErr result (SpendsWrites (B.disks bay.old) (B.disks bay.new) slot (length from.now) 1) }
{
    let plain = plain_length_at(masks, slot, lba, from);
    if plain == 0 {
        write_one(masks, bay, slot, lba, &from[0])?;
        return Ok(1);
    }
    write_plain(masks, bay, slot, lba, &from[..plain])?;
    Ok(plain)
}

/// Writes a run, turned.
pub(crate) fn write_pieces<B: Bay>(
    masks: &[Option<Mask>],
    bay: &mut B,
    slot: usize,
    lba: u64,
    from: &[Sector],
) -> Result<(), BayFailed>
    requires slot { slot < length (B.disks bay.old).sizes }
    requires some { 0 < length from.now }
    requires sectors { lba + length from.now ≤ slice_index (B.disks bay.old).sizes slot }
    ensures held { B.tells → OnOk result ((shown_state masks.now (B.disks bay.new)).held ≡ put_run (shown_state masks.now (B.disks bay.old)).held slot lba from.now) }
    ensures held_failed { B.tells → OnErr result (Mixes (shown_state masks.now (B.disks bay.old)).held (shown_state masks.now (B.disks bay.new)).held slot lba from.now) }
    ensures left { Adds (shown_state masks.now (B.disks bay.old)).may_hold (shown_state masks.now (B.disks bay.new)).may_hold slot lba from.now }
    ensures any_moment { StopsLeave (shown_state masks.now (B.disks bay.old)) (shown_state masks.now (B.disks bay.new)) (IsAmong (shown_state masks.now (B.disks bay.old)).may_hold slot lba from.now) }
    ensures remembers { Remembers (shown_state masks.now (B.disks bay.old)) (shown_state masks.now (B.disks bay.new)) }
    ensures ok { OnOk result ((B.disks bay.new).failed_writes ≡ (B.disks bay.old).failed_writes) }
    ensures failed { OnErr result (Rose ((B.disks bay.old).failed_writes slot) ((B.disks bay.new).failed_writes slot)) }
    ensures gone { OnOk result ((B.disks bay.old).gone slot → ⊥) }
    ensures spends { SpendsWrites (B.disks bay.old) (B.disks bay.new) slot (length from.now) (pieces_below (mask_of masks.now slot) lba from.now (length from.now)) }
{
    let mut done = 0;
    while done < from.len() {
        done += write_front(masks, bay, slot, lba + done as u64, &from[done..])?;
    }
    Ok(())
}
