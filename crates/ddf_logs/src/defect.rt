//! Why the bad block log of a disk isn't honoured.
ghost use Rattle.std.specs.Prelude.{◌≡◌, ◌+◌, ◌-◌, ◌<◌, ◌≤◌, ◌^◌, IfOk, length, slice_index};
ghost use Rattle.ddf_bay.specs.ReadsOnly.{LooksAt, ReadsOnly};
ghost use Rattle.ddf_bay.specs.State.{on_slot, size_of};
ghost use Rattle.ddf_copy.specs.Copies.{copies_of};
ghost use Rattle.ddf_copy.specs.Faults.{show_failed};
ghost use Rattle.ddf_copy.specs.Headers.{IsAnchor};
ghost use Rattle.ddf_copy.specs.Whole.{AreUnder};
ghost use Rattle.ddf_logs.specs.Defects.{TellsDefect, TellsOf, TellsSlot, defect_by};

use crate::copies::{carry_one, configured_size, standing};
use crate::kept::kept_under;
use ddf_badblocks::{Unfit, unfit_of};
use ddf_bay::Bay;
use ddf_bytes::NoMemory;
use ddf_copy::{AnchorFault, Copies, DiskCopy, ShowFault, anchor_of, copies_of};
use ddf_header::Header;
use std::alloc::Global;

/// Why the bad block log of a disk isn't honoured.
#[derive(Clone, Copy)]
pub enum LogDefect {
    /// Its two copies carry different ones.
    Differ,
    /// The disk doesn't list itself: how many sectors it gives to arrays isn't known.
    Unlisted,
    /// It doesn't fit.
    Unfit(Unfit),
}

/// Why the log of a disk isn't honoured, by its copies, which were read under its anchor: nothing where it is, or where no copy stands for the disk
/// or that one has no log. `last` is the disk's last sector. Copies that differ come first.
///
/// # Errors
/// Memory ran out.
pub fn defect_of(
    alloc: Global,
    anchor: &Header,
    copies: &Copies,
    last: u64,
) -> Result<Option<LogDefect>, NoMemory>
    requires small { last < 2 ^ 55 }
    requires under { AreUnder (last + 1) anchor.now copies.now }
    ensures defect { IfOk result (TellsDefect last anchor.now copies.now) }
{
    if !carry_one(copies) {
        return Ok(Some(LogDefect::Differ));
    }
    match standing(copies) {
        Some(copy) => defect_in(alloc, anchor, copy, last),
        None => Ok(None),
    }
}

/// Why the log of a copy isn't honoured, where all whole copies of its disk carry it.
fn defect_in(
    alloc: Global,
    anchor: &Header,
    copy: &DiskCopy,
    last: u64,
) -> Result<Option<LogDefect>, NoMemory>
    requires primary { anchor.now.primary_lba < 2 ^ 55 }
    requires secondary { anchor.now.secondary_lba < 2 ^ 55 }
    ensures { IfOk result (TellsOf last anchor.now copy.now) }
{
    match (&copy.bad, configured_size(copy)) {
        (Some(log), Some(size)) => {
            let kept = kept_under(alloc, anchor, &copy.header.geometry)?;
            let found = unfit_of(alloc, log, size, kept.as_slice(), last)?;
            Ok(defect_by(found))
        }
        (Some(_), None) => Ok(Some(LogDefect::Unlisted)),
        (None, _) => Ok(None),
    }
}

fn defect_by(found: Option<Unfit>) -> Option<LogDefect>
    ensures { result ≡ defect_by found }
{
    match found {
        Some(unfit) => Some(LogDefect::Unfit(unfit)),
        None => None,
    }
}

/// Why the log of a slot's disk isn't honoured (`defect_of`), by one look at its copies. A slot without an anchor has no log.
///
/// # Errors
/// `Disk` where a call on the slot failed, and want of memory.
pub fn defect_at<B: Bay>(
    alloc: Global,
    bay: &mut B,
    slot: usize,
) -> Result<Option<LogDefect>, ShowFault>
    requires { slot < length (B.disks bay.old).sizes }
    ensures defect { B.tells → IfOk result (TellsSlot (size_of (B.disks bay.old) slot) ((B.disks bay.old).held slot)) }
    ensures reads { ReadsOnly (B.disks bay.old) (B.disks bay.new) }
    ensures look { LooksAt (B.disks bay.old) (B.disks bay.new) slot (show_failed result) }
    ensures calls { (B.disks bay.new).calls ≤ (B.disks bay.old).calls + 15 }
{
    if bay.size(slot) == 0 {
        return Ok(None);
    }
    match anchor_of(bay, slot) {
        Ok(anchor) => defect_under(alloc, bay, slot, &anchor),
        Err(AnchorFault::Blank | AnchorFault::Damaged(_)) => Ok(None),
        Err(AnchorFault::Disk(slot)) => Err(ShowFault::Disk(slot)),
    }
}

/// So under its anchor.
fn defect_under<B: Bay>(
    alloc: Global,
    bay: &mut B,
    slot: usize,
    anchor: &Header,
) -> Result<Option<LogDefect>, ShowFault>
    requires slot { slot < length (B.disks bay.old).sizes }
    requires some { 0 < slice_index (B.disks bay.old).sizes slot }
    requires anchor { IsAnchor anchor.now }
    ensures defect { B.tells → IfOk result (TellsDefect (slice_index (B.disks bay.old).sizes slot - 1) anchor.now (on_slot copies_of (B.disks bay.old) slot anchor.now)) }
    ensures reads { ReadsOnly (B.disks bay.old) (B.disks bay.new) }
    ensures look { LooksAt (B.disks bay.old) (B.disks bay.new) slot (show_failed result) }
    ensures calls { (B.disks bay.new).calls ≤ (B.disks bay.old).calls + 14 }
{
    let last = bay.size(slot) - 1;
    match copies_of(alloc, bay, slot, anchor) {
        Ok(copies) => match defect_of(alloc, anchor, &copies, last) {
            Ok(found) => Ok(found),
            Err(NoMemory) => Err(ShowFault::Memory),
        },
        Err(fault) => Err(fault),
    }
}
