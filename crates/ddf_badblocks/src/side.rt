//! The sides of ranges: the bad sectors of each, and its spare ones. In rising order a sector is found among them by halving.
ghost use Rattle.std.specs.Prelude.{◌≡◌, ◌<◌, ◌≤◌, ◌+◌, ◌&&◌, ℕ, true, find, length, slice_index_or, IfOk};
ghost use Rattle.std.specs.List.{list_all};
ghost use Rattle.ddf_badblocks.specs.Sides.{has_some, holds, in_row, is_on, sides_of};

use crate::range::Range;
use ddf_bytes::NoMemory;
use std::alloc::Global;

/// Sectors that follow one another, and those that stand for them.
#[derive(Clone, Copy, PartialEq, Eq)]
pub struct Side {
    /// The LBA of the first.
    pub first: u64,
    /// How many there are.
    pub count: u64,
    /// The LBA of the sector that stands for the first.
    pub other: u64,
}

/// Both sides of each range.
pub(crate) fn sides_of(alloc: Global, ranges: &[Range]) -> Result<Vec<Side>, NoMemory>
    ensures { IfOk result (λ sides. sides.items ≡ sides_of ranges.now) }
{
    let mut sides = Vec::new(alloc);
    for range in ranges {
        sides.push(Side {
            first: range.start,
            count: range.count,
            other: range.spare,
        })?;
        sides.push(Side {
            first: range.spare,
            count: range.count,
            other: range.start,
        })?;
    }
    Ok(sides)
}

/// Whether none of these sides is empty, and each begins where the one before it has ended, or later.
pub(crate) fn are_apart(sides: &[Side]) -> bool
    ensures { result ≡ (list_all has_some sides.now && in_row 0 sides.now) }
{
    all_have_some(sides) && are_in_row(sides)
}

/// Whether none of these sides is empty.
fn all_have_some(sides: &[Side]) -> bool
    ensures { result ≡ list_all has_some sides.now }
{
    sides.iter().all(|side| side.count > 0)
}

/// Whether all of these sides lie on a slot of so many sectors.
pub(crate) fn all_lie_on(size: u64, sides: &[Side]) -> bool
    ensures { result ≡ list_all (is_on size) sides.now }
{
    sides.iter().all(|side| u128::from(side.first) + u128::from(side.count) <= u128::from(size))
}

/// Whether each side begins where the one before it has ended, or later.
fn are_in_row(sides: &[Side]) -> bool
    ensures { result ≡ in_row 0 sides.now }
{
    let mut from = 0u128;
    for side in sides {
        if u128::from(side.first) < from {
            return false;
        }
        from = u128::from(side.first) + u128::from(side.count);
    }
    true
}

/// Where a sector was looked for: the side that has it, if one does, and for how many sectors from it on the answer is the same.
#[derive(Clone, Copy)]
pub(crate) struct Found {
    pub(crate) side: Option<Side>,
    pub(crate) reach: u64,
}

/// How many sides in rising order begin at a sector or before it.
fn begun_by(sides: &[Side], lba: u64) -> usize
    requires row { in_row 0 sides.now ≡ true }
    ensures within { result ≤ length sides.now }
    ensures before { (k : ℕ) (d : Side) → k < result → (slice_index_or sides.now k d).first ≤ lba }
    ensures behind { (k : ℕ) (d : Side) → result ≤ k → k < length sides.now → lba < (slice_index_or sides.now k d).first }
{
    sides.partition_point(|side| side.first <= lba)
}

/// Looks for a sector among sides in rising order.
pub(crate) fn find_side(sides: &[Side], lba: u64) -> Found
    requires row { in_row 0 sides.now ≡ true }
    ensures found { result.side ≡ find (holds lba) sides.now }
    ensures some { 0 < result.reach }
    ensures alike { (k : ℕ) → k < result.reach → find (holds (lba + k)) sides.now ≡ find (holds lba) sides.now }
{
    let at = begun_by(sides, lba);
    if at > 0 {
        let side = sides[at - 1];
        if lba - side.first < side.count {
            return Found {
                side: Some(side),
                reach: side.count - (lba - side.first),
            };
        }
    }
    let reach = if at < sides.len() {
        sides[at].first - lba
    } else {
        u64::MAX
    };
    Found { side: None, reach }
}
