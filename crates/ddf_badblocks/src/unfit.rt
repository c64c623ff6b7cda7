//! Why a bad block log can't be honoured.
ghost use Rattle.std.specs.Prelude.{◌≡◌, IfOk};
ghost use Rattle.ddf_badblocks.specs.Ranges.{are_exchangeable};
ghost use Rattle.ddf_badblocks.specs.Unfit.{TellsShared, TellsUnfit, fault_of, first_wrong};

use crate::fitting::{Stretch, area_fits, exchange_on, has_spare, meets_any, ranges_of};
use crate::range::Range;
use ddf_bytes::NoMemory;
use ddf_tables::{BadBlock, BadBlockLog};
use std::alloc::Global;

/// What is wrong with an entry of a log by itself.
#[derive(Clone, Copy)]
pub enum EntryFault {
    /// It names no spare sectors, or has no sector.
    NoSpare,
    /// It has bad sectors behind those that the disk gives to arrays.
    BehindArrays,
    /// It has bad sectors among those that are kept for records.
    OnRecords,
    /// It has spare sectors behind the spare area.
    PastSpares,
}

/// Why a log can't be honoured. Entries count from 0.
#[derive(Clone, Copy)]
pub enum Unfit {
    /// The spare area lies among the sectors of arrays, among those that are kept for records, or past the last one before the anchor.
    SpareArea,
    /// The entry at this place doesn't fit by itself, and each one before it does.
    Entry(usize, EntryFault),
    /// Each entry fits by itself. The one at this place has a bad sector or a spare one in common with one before it, and those before it have none.
    Shared(usize),
}

/// Why a disk's log can't be honoured (`fits`), and nothing where it can be.
pub fn unfit_of(
    alloc: Global,
    log: &BadBlockLog,
    size: u64,
    kept: &[Stretch],
    last: u64,
) -> Result<Option<Unfit>, NoMemory>
    ensures { IfOk result (TellsUnfit log.now size kept.now last) }
{
    if log.entries().is_empty() {
        return Ok(None);
    }
    if !area_fits(log, size, kept, last) {
        return Ok(Some(Unfit::SpareArea));
    }
    let found = first_wrong(log, size, kept);
    if found.is_some() {
        return Ok(found);
    }
    let ranges = ranges_of(alloc, log)?;
    first_shared(alloc, ranges.as_slice(), last)
}

/// The first entry that doesn't fit by itself.
fn first_wrong(log: &BadBlockLog, size: u64, kept: &[Stretch]) -> Option<Unfit>
    ensures { result ≡ first_wrong size log.now.spare_count kept.now 0 log.now.entries }
{
    for (place, block) in log.entries().iter().enumerate() {
        if let Some(fault) = fault_of(size, log.spare_count(), kept, block) {
            return Some(Unfit::Entry(place, fault));
        }
    }
    None
}

/// What is wrong with an entry by itself.
fn fault_of(size: u64, spares: u32, kept: &[Stretch], block: &BadBlock) -> Option<EntryFault>
    ensures { result ≡ fault_of size spares kept.now block.now }
{
    let many = u64::from(block.count);
    if !has_spare(block) {
        Some(EntryFault::NoSpare)
    } else if u128::from(block.start) + u128::from(many) > u128::from(size) {
        Some(EntryFault::BehindArrays)
    } else if meets_any(kept, block.start, many) {
        Some(EntryFault::OnRecords)
    } else if u64::from(block.spare) + many > u64::from(spares) {
        Some(EntryFault::PastSpares)
    } else {
        None
    }
}

/// The first range that can't be exchanged beside those before it, on a slot of so many sectors. It is found by halving.
fn first_shared(alloc: Global, ranges: &[Range], size: u64) -> Result<Option<Unfit>, NoMemory>
    ensures { IfOk result (TellsShared size ranges.now) }
{
    if can_all(alloc, ranges, size)? {
        return Ok(None);
    }
    let mut can = 0;
    let mut cannot = ranges.len();
    while cannot - can > 1 {
        let middle = can + (cannot - can) / 2;
        if can_all(alloc, &ranges[..middle], size)? {
            can = middle;
        } else {
            cannot = middle;
        }
    }
    Ok(Some(Unfit::Shared(can)))
}

/// Whether ranges can be exchanged on a slot of so many sectors.
fn can_all(alloc: Global, ranges: &[Range], size: u64) -> Result<bool, NoMemory>
    ensures { IfOk result (λ can. can ≡ are_exchangeable size ranges.now) }
{
    let ranges = Vec::from_slice(alloc, ranges)?;
    let found = exchange_on(alloc, ranges, size)?;
    Ok(found.is_some())
}
