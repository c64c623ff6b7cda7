//! Whether a bad block log can be honoured.
ghost use Rattle.std.specs.Prelude.{◌≡◌, ◌+◌, ◌<◌, ◌^◌, ◌&&◌, ℕ, Some, true, false, slice_get, IfOk, MatchOption};
ghost use Rattle.std.specs.List.{list_all};
ghost use Rattle.ddf_tables.specs.declared.bad_blocks.BadBlock.{BadBlock};
ghost use Rattle.ddf_badblocks.specs.Ranges.{are_exchangeable};
ghost use Rattle.ddf_badblocks.specs.Fits.{area_fits, entry_fits, fits, has_spare, meets_any, range_of, ranges_of};

use crate::exchange::Exchange;
use crate::range::{Range, share};
use ddf_bytes::NoMemory;
use ddf_tables::{BadBlock, BadBlockLog};
use std::alloc::Global;

/// Sectors that follow one another.
#[derive(Clone, Copy, PartialEq, Eq)]
pub struct Stretch {
    /// The LBA of the first.
    pub start: u64,
    /// How many there are.
    pub length: u64,
}

/// What marks bad sectors without spare ones (profile).
const NO_SPARE: u32 = u32::MAX;

/// Whether a disk's log can be honoured, by the sectors that the disk gives to arrays, those that are kept for its records, and its last
/// sector. One without entries can. Otherwise each entry has a spare range, its bad sectors lie among those of arrays, and the spare area
/// lies behind these and before the last sector. None of them is kept for records, and no two bad ranges and no two spare ones meet.
pub fn fits(
    alloc: Global,
    log: &BadBlockLog,
    size: u64,
    kept: &[Stretch],
    last: u64,
) -> Result<bool, NoMemory>
    ensures { IfOk result (λ is. is ≡ fits log.now size kept.now last) }
{
    let found = exchange_of(alloc, log, size, kept, last)?;
    Ok(found.is_some())
}

/// The exchange of a log that can be honoured, and none of one that can't.
pub fn exchange_of(
    alloc: Global,
    log: &BadBlockLog,
    size: u64,
    kept: &[Stretch],
    last: u64,
) -> Result<Option<Exchange>, NoMemory>
    ensures { IfOk result (λ found. MatchOption found (fits log.now size kept.now last ≡ false) (λ exchange. (exchange ≡ ranges_of log.now) × (fits log.now size kept.now last ≡ true))) }
{
    if log.entries().is_empty() {
        return Ok(Some(Exchange::none(alloc)));
    }
    if !all_fit(log, size, kept, last) {
        return Ok(None);
    }
    let ranges = ranges_of(alloc, log)?;
    exchange_on(alloc, ranges, last)
}

/// The exchange of ranges where they can be exchanged on a slot of so many sectors, and else none.
pub(crate) fn exchange_on(
    alloc: Global,
    ranges: Vec<Range>,
    size: u64,
) -> Result<Option<Exchange>, NoMemory>
    ensures { IfOk result (λ found. MatchOption found (are_exchangeable size ranges.items ≡ false) (λ exchange. (exchange ≡ ranges.items) × (are_exchangeable size ranges.items ≡ true))) }
{
    match Exchange::new(alloc, ranges)? {
        Some(exchange) if exchange.is_on(size) => Ok(Some(exchange)),
        _ => Ok(None),
    }
}

/// The ranges of the entries.
pub(crate) fn ranges_of(alloc: Global, log: &BadBlockLog) -> Result<Vec<Range>, NoMemory>
    requires { (k : ℕ) (block : BadBlock) → slice_get log.now.entries k ≡ Some block → log.now.first_spare + block.spare < 2 ^ 64 }
    ensures { IfOk result (λ ranges. ranges.items ≡ ranges_of log.now) }
{
    let mut ranges = Vec::new(alloc);
    for block in log.entries() {
        ranges.push(range_of(log.first_spare(), block))?;
    }
    Ok(ranges)
}

/// Whether the spare area lies where it may.
pub(crate) fn area_fits(log: &BadBlockLog, size: u64, kept: &[Stretch], last: u64) -> bool
    ensures { result ≡ area_fits log.now size kept.now last }
{
    let first = log.first_spare();
    let many = u64::from(log.spare_count());
    size <= first
        && u128::from(first) + u128::from(many) <= u128::from(last)
        && !meets_any(kept, first, many)
}

/// Whether the spare area lies where it may, and the sectors of each entry do.
fn all_fit(log: &BadBlockLog, size: u64, kept: &[Stretch], last: u64) -> bool
    ensures { result ≡ (area_fits log.now size kept.now last && list_all (entry_fits size log.now.spare_count kept.now) log.now.entries) }
{
    area_fits(log, size, kept, last) && entries_fit(log, size, kept)
}

fn entries_fit(log: &BadBlockLog, size: u64, kept: &[Stretch]) -> bool
    ensures { result ≡ list_all (entry_fits size log.now.spare_count kept.now) log.now.entries }
{
    log.entries()
        .iter()
        .all(|block| entry_fits(size, log.spare_count(), kept, block))
}

/// Whether an entry's bad sectors and its spare ones lie where they may.
fn entry_fits(size: u64, spares: u32, kept: &[Stretch], block: &BadBlock) -> bool
    ensures { result ≡ entry_fits size spares kept.now block.now }
{
    let many = u64::from(block.count);
    has_spare(block)
        && u128::from(block.start) + u128::from(many) <= u128::from(size)
        && !meets_any(kept, block.start, many)
        && u64::from(block.spare) + many <= u64::from(spares)
}

pub(crate) fn has_spare(block: &BadBlock) -> bool
    ensures { result ≡ has_spare block.now }
{
    block.spare != NO_SPARE && block.count > 0
}

/// Whether sectors are among those that are kept.
pub(crate) fn meets_any(kept: &[Stretch], first: u64, many: u64) -> bool
    ensures { result ≡ meets_any kept.now first many }
{
    kept.iter().any(|stretch| share(first, many, stretch.start, stretch.length))
}

/// The range of an entry, by the LBA of the first spare block.
fn range_of(first: u64, block: &BadBlock) -> Range
    requires { first + block.now.spare < 2 ^ 64 }
    ensures { result ≡ range_of first block.now }
{
    Range {
        start: block.start,
        spare: first + u64::from(block.spare),
        count: u64::from(block.count),
    }
}
