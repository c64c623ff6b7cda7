//! The exchange of a slot's bad sectors with their spare ones.
ghost use Rattle.std.specs.Prelude.{◌≡◌, ◌<◌, ◌≤◌, ◌+◌, ℕ, true, false, [], IfOk, MatchOption};
ghost use Rattle.ddf_badblocks.specs.Ranges.{are_exchangeable, swap};
ghost use Rattle.ddf_badblocks.specs.Sides.{stands};

use crate::range::{Range, at_offset};
use crate::side::{Found, Side, all_lie_on, are_apart, find_side, sides_of};
use ddf_bytes::NoMemory;
use std::alloc::Global;
use std::marker::Model;

/// The ranges of bad sectors of a slot: no two of them meet, and none is empty. A sector is found among as many as there may be by halving.
#[derive(Drop)]
pub struct Exchange {
    ranges: Vec<Range>,
    sides: Vec<Side>,
}

impl Model for Exchange {
    ghost use Rattle.std.specs.Prelude.{List};
    ghost use Rattle.ddf_badblocks.specs.Sides.{AreSorted};
    ghost use Rattle.ddf_badblocks.specs.declared.range.Range.{Range};

    ghost Value = { List Range };

    ghost view = { λ e. e.ranges.items };

    ghost invariant = { λ e. AreSorted e.ranges.items e.sides.items };
}

impl Exchange {
    /// That of no sectors.
    pub fn none(alloc: Global) -> Exchange
        ensures { result ≡ [] }
    {
        Exchange {
            ranges: Vec::new(alloc),
            sides: Vec::new(alloc),
        }
    }

    /// That of these ranges, or none where one is empty or two of them meet.
    pub fn new(alloc: Global, ranges: Vec<Range>) -> Result<Option<Exchange>, NoMemory>
        ensures { IfOk result (λ found. MatchOption found ((size : ℕ) → are_exchangeable size ranges.items ≡ false) (λ exchange. exchange ≡ ranges.items)) }
    {
        let mut sides = sides_of(alloc, ranges.as_slice())?;
        sides.sort_unstable_by_key(|side| side.first);
        if are_apart(sides.as_slice()) {
            Ok(Some(Exchange { ranges, sides }))
        } else {
            Ok(None)
        }
    }

    /// Whether all of its sectors lie on a slot of so many, so that they can be exchanged there.
    pub fn is_on(&self, size: u64) -> bool
        ensures { result ≡ are_exchangeable size self.now }
    {
        all_lie_on(size, self.sides.as_slice())
    }

    /// Whether it exchanges nothing.
    pub fn is_empty(&self) -> bool
        ensures { result ≡ true → self.now ≡ [] }
    {
        self.ranges.is_empty()
    }

    /// The sector of a slot of so many that stands where another one is seen.
    pub(crate) fn swap(&self, size: u64, lba: u64) -> u64
        ensures exact { result ≡ swap size self.now lba }
        ensures small { lba < size → result < size }
    {
        let other = stand(find_side(self.sides.as_slice(), lba), size, lba);
        let back = stand(find_side(self.sides.as_slice(), other), size, other);
        if lba < size && back == lba {
            other
        } else {
            lba
        }
    }

    /// How many sectors from one on, at most so many, surely stand one behind another.
    pub(crate) fn straight(&self, size: u64, lba: u64, most: usize) -> usize
        requires some { 0 < most }
        requires on_slot { lba + most ≤ size }
        ensures some { 0 < result }
        ensures most { result ≤ most }
        ensures straight { (k : ℕ) → k < result → swap size self.now (lba + k) ≡ swap size self.now lba + k }
    {
        let here = find_side(self.sides.as_slice(), lba);
        let other = stand(here, size, lba);
        let there = find_side(self.sides.as_slice(), other);
        let back = stand(there, size, other);
        let reach = here
            .reach
            .min(there.reach)
            .min(size - other)
            .min(size - back);
        reach.min(most as u64) as usize
    }
}

/// The sector that stands for one that was looked for, on a slot of so many.
fn stand(found: Found, size: u64, lba: u64) -> u64
    ensures { result ≡ stands size found.side lba }
{
    match found.side {
        Some(side) => at_offset(size, lba, side.other, lba.saturating_sub(side.first)),
        None => lba,
    }
}
