//! What the bad block logs of a disk's copies give: which sectors are exchanged, and how many entries count against the disk.
ghost use Rattle.std.specs.Prelude.{◌≡◌, ◌+◌, ◌<◌, ◌^◌, [], true, if◌then◌else◌, is_some, max, unwrap_or, IfOk, option_map};
ghost use Rattle.ddf_copy.specs.Whole.{AreUnder};
ghost use Rattle.ddf_badblocks.specs.Fits.{ranges_of};
ghost use Rattle.ddf_badblocks.specs.Ranges.{are_exchangeable};
ghost use Rattle.ddf_logs.specs.Logs.{bad_in, entries_of, exchange_in, fitting, honoured};

use crate::copies::{carry_one, configured_size, entries_of, standing};
use crate::kept::kept_under;
use ddf_badblocks::{Exchange, exchange_of};
use ddf_bytes::NoMemory;
use ddf_copy::{Copies, DiskCopy};
use ddf_header::Header;
use std::alloc::Global;

/// What the bad block logs of a disk's copies mean to its sectors.
#[derive(Drop)]
pub struct DiskLog {
    /// The bad sectors that are exchanged with spare ones.
    pub exchange: Exchange,
    /// How many entries count against the disk: none where its log is honoured, and else those of the copy that has more.
    pub bad: u16,
}

/// What the bad block logs of a disk's copies give, which were read under its anchor. `last` is the disk's last sector. The log of the newest
/// copy is honoured where each whole copy carries the same one, the disk lists itself, and the log fits (`ddf_badblocks::fits`): by the sectors
/// that the disk gives to arrays, and beside both copies and the first 18 sectors of the workspace.
///
/// # Errors
/// Memory ran out.
pub fn log_of(
    alloc: Global,
    anchor: &Header,
    copies: &Copies,
    last: u64,
) -> Result<DiskLog, NoMemory>
    requires small { last < 2 ^ 55 }
    requires under { AreUnder (last + 1) anchor.now copies.now }
    ensures exchange { IfOk result (λ log. log.exchange ≡ exchange_in last anchor.now copies.now) }
    ensures bad { IfOk result (λ log. log.bad ≡ bad_in last anchor.now copies.now) }
    // It can be exchanged on the disk.
    ensures can { IfOk result (λ log. are_exchangeable (last + 1) log.exchange ≡ true) }
{
    let found = honoured(alloc, anchor, copies, last)?;
    Ok(disk_log(alloc, copies, found))
}

/// What the exchange that was found means, if one was.
fn disk_log(alloc: Global, copies: &Copies, found: Option<Exchange>) -> DiskLog
    ensures exchange { result.exchange ≡ unwrap_or found [] }
    ensures bad { result.bad ≡ (if is_some found then 0 else max (entries_of copies.now.primary) (entries_of copies.now.secondary)) }
{
    match found {
        Some(exchange) => DiskLog { exchange, bad: 0 },
        None => DiskLog {
            exchange: Exchange::none(alloc),
            bad: entries_of(&copies.primary).max(entries_of(&copies.secondary)),
        },
    }
}

/// The exchange of the log that is honoured, where one is.
#[tactic(auto, unfolding(crate::specs::Logs::honoured))]
fn honoured(
    alloc: Global,
    anchor: &Header,
    copies: &Copies,
    last: u64,
) -> Result<Option<Exchange>, NoMemory>
    requires small { last < 2 ^ 55 }
    requires under { AreUnder (last + 1) anchor.now copies.now }
    ensures { IfOk result (λ found. found ≡ option_map ranges_of (honoured last anchor.now copies.now)) }
{
    if !carry_one(copies) {
        return Ok(None);
    }
    match standing(copies) {
        Some(copy) => fitting(alloc, anchor, copy, last),
        None => Ok(None),
    }
}

/// The exchange of a copy's log, where it can be honoured.
fn fitting(
    alloc: Global,
    anchor: &Header,
    copy: &DiskCopy,
    last: u64,
) -> Result<Option<Exchange>, NoMemory>
    requires primary { anchor.now.primary_lba < 2 ^ 55 }
    requires secondary { anchor.now.secondary_lba < 2 ^ 55 }
    ensures { IfOk result (λ found. found ≡ option_map ranges_of (fitting last anchor.now copy.now)) }
{
    match (&copy.bad, configured_size(copy)) {
        (Some(log), Some(size)) => {
            let kept = kept_under(alloc, anchor, &copy.header.geometry)?;
            exchange_of(alloc, log, size, kept.as_slice(), last)
        }
        _ => Ok(None),
    }
}
