//! The masks of the slots of a bay, and what is seen through them.
ghost use Rattle.std.specs.Prelude.{◌≡◌, ◌<◌, ◌≤◌, ◌+◌, ◌^◌, ℕ, [], true, false, length, option_map, slice_index_or};
ghost use Rattle.ddf_hidden_logs.specs.Masks.{hidden, mask_of, turn, turned_by, turns_by};
ghost use Rattle.ddf_hidden_logs.specs.Pieces.{turns_at};

use crate::mask::Mask;
use ddf_bytes::Sector;

/// The mask of a slot: one past the list has none.
fn mask_of(masks: &[Option<Mask>], slot: usize) -> Option<&Mask>
    ensures { option_map (λ mask. mask.now) result ≡ mask_of masks.now slot }
{
    match masks.get(slot) {
        Some(mask) => mask.as_ref(),
        None => None,
    }
}

/// How many entries the log of a slot has, where it shows none.
pub(crate) fn hidden_at(masks: &[Option<Mask>], slot: usize) -> u16
    ensures { result ≡ hidden (mask_of masks.now slot) }
{
    match mask_of(masks, slot) {
        Some(mask) => mask.hidden(),
        None => 0,
    }
}

/// Turns a sector of a slot in its place into the one that it is seen as.
pub(crate) fn turn_at(masks: &[Option<Mask>], slot: usize, lba: u64, sector: &mut Sector)
    ensures { sector.new ≡ turn (mask_of masks.now slot) lba sector.old }
{
    if let Some(mask) = mask_of(masks, slot) {
        mask.turn(lba, sector);
    }
}

/// Turns the sectors of a run on a slot.
pub(crate) fn turn_run_at(masks: &[Option<Mask>], slot: usize, lba: u64, sectors: &mut [Sector])
    requires { lba + length sectors.old < 2 ^ 64 }
    ensures length { length sectors.new ≡ length sectors.old }
    ensures each { (k : ℕ) → k < length sectors.old
        → slice_index_or sectors.new k [] ≡ turn (mask_of masks.now slot) (lba + k) (slice_index_or sectors.old k []) }
{
    if let Some(mask) = mask_of(masks, slot) {
        turn_run(mask, lba, sectors);
    }
}

fn turn_run(mask: &Mask, lba: u64, sectors: &mut [Sector])
    requires { lba + length sectors.old < 2 ^ 64 }
    ensures length { length sectors.new ≡ length sectors.old }
    ensures each { (k : ℕ) → k < length sectors.old
        → slice_index_or sectors.new k [] ≡ turned_by mask.now (lba + k) (slice_index_or sectors.old k []) }
{
    let mut at = lba;
    for sector in sectors.iter_mut() {
        mask.turn(at, sector);
        at += 1;
    }
}

/// How many of the first sectors of a run on a slot are seen as they are.
pub(crate) fn plain_length_at(
    masks: &[Option<Mask>],
    slot: usize,
    lba: u64,
    sectors: &[Sector],
) -> usize
    requires { lba + length sectors.now < 2 ^ 64 }
    ensures most { result ≤ length sectors.now }
    ensures plain { (k : ℕ) → k < result → turns_at (mask_of masks.now slot) lba sectors.now k ≡ false }
    ensures next { result < length sectors.now → turns_at (mask_of masks.now slot) lba sectors.now result ≡ true }
{
    match mask_of(masks, slot) {
        Some(mask) => plain_length(mask, lba, sectors),
        None => sectors.len(),
    }
}

fn plain_length(mask: &Mask, lba: u64, sectors: &[Sector]) -> usize
    requires { lba + length sectors.now < 2 ^ 64 }
    ensures most { result ≤ length sectors.now }
    ensures plain { (k : ℕ) → k < result → turns_by mask.now (lba + k) (slice_index_or sectors.now k []) ≡ false }
    ensures next { result < length sectors.now → turns_by mask.now (lba + result) (slice_index_or sectors.now result []) ≡ true }
{
    for (index, sector) in sectors.iter().enumerate() {
        if mask.turns(lba + index as u64, sector) {
            return index;
        }
    }
    sectors.len()
}
