//! Both copies of a disk, and which of them is the newest. docs/FORMAT.md#the-newest-copy
ghost use Rattle.std.specs.Prelude.{◌≡◌, ◌⊎◌, ◌+◌, ◌<◌, ◌≤◌, ℕ, IfErr, IfOk, Err, Bool, false, length, slice_index};
ghost use Rattle.ddf_bay.specs.State.{on_slot};
ghost use Rattle.ddf_bay.specs.ReadsOnly.{ReadsOnly, LooksAt};
ghost use Rattle.ddf_header.specs.declared.reading.Header.{Header};
ghost use Rattle.ddf_copy.specs.Copies.{are_level, copies_of, copy_of, newest_in, newest_of, newest_of_copies};
ghost use Rattle.ddf_copy.specs.Faults.{IsShowFaultOf, show_failed};
ghost use Rattle.ddf_copy.specs.Headers.{IsAnchor, IsUnder};
ghost use Rattle.ddf_copy.specs.Whole.{AreCopies, AreUnder, AreWhole, IsNewestCopy, IsNewestUnder, IsWhole, IsWholeUnder, copy_read};
ghost use Rattle.ddf_copy.specs.Written.{CanBeCopy};
ghost use Rattle.ddf_copy.specs.declared.fault.CopyFault.{CopyFault};

use crate::copy::DiskCopy;
use crate::fault::{CopyFault, ShowFault};
use crate::level::is_level;
use crate::newest_copy::{Newest, newest_of_both};
use crate::reading::{Whole, read_whole};
use crate::which::Which;
use ddf_bay::Bay;
use ddf_header::Header;
use std::alloc::Global;

/// Both copies of a disk, each whole or not.
#[derive(Drop)]
pub struct Copies {
    /// The primary copy, or why it isn't whole.
    pub primary: Result<DiskCopy, CopyFault>,
    /// The secondary copy, or why it isn't whole.
    pub secondary: Result<DiskCopy, CopyFault>,
    /// Both are whole and level: they have one sequence, and the same controller data, tables, disk data, bad block log and
    /// slots, where all unused slots count as equal.
    pub level: bool,
}

impl Copies {
    /// The newest of the copies that are whole.
    pub fn newest(self) -> Newest
        ensures value { result ≡ newest_of_copies self }
        ensures writable { AreCopies self → IsNewestCopy result }
        ensures under { (size : ℕ) (anchor : Header) → AreUnder size anchor self → IsNewestUnder size anchor result }
    {
        match (self.primary, self.secondary) {
            (Ok(primary), Ok(secondary)) => newest_of_both(self.level, primary, secondary),
            (Ok(primary), Err(_)) => Newest::One(Which::Primary, primary),
            (Err(_), Ok(secondary)) => Newest::One(Which::Secondary, secondary),
            (Err(first), Err(second)) => Newest::Neither(first, second),
        }
    }
}

/// Reads both copies of a slot, under its anchor, and answers the newest. A read that fails is answered as such, so a copy
/// that can't be read is never passed over.
#[tactic(auto, unfolding(crate::specs::Copies::newest_of))]
pub fn newest<B: Bay>(
    alloc: Global,
    bay: &mut B,
    slot: usize,
    anchor: &Header,
) -> Result<Newest, ShowFault>
    requires { slot < length (B.disks bay.old).sizes }
    ensures writable { IfOk result IsNewestCopy }
    ensures under { IsAnchor anchor.now → IfOk result (IsNewestUnder (slice_index (B.disks bay.old).sizes slot) anchor.now) }
    // promise:newest
    ensures newest { B.tells → IfOk result (λ newest. newest ≡ on_slot newest_of (B.disks bay.old) slot anchor.now) }
    ensures reads { ReadsOnly (B.disks bay.old) (B.disks bay.new) }
    ensures look { LooksAt (B.disks bay.old) (B.disks bay.new) slot (show_failed result) }
    ensures named { IfErr result (IsShowFaultOf slot) }
    ensures calls { (B.disks bay.new).calls ≤ (B.disks bay.old).calls + 14 }
{
    let copies = copies_of(alloc, bay, slot, anchor)?;
    Ok(copies.newest())
}

/// Reads both copies of a slot, under its anchor, the primary first. A copy whose header is none of its kind, is open, isn't
/// the anchor's or has no room is read no further.
pub fn copies_of<B: Bay>(
    alloc: Global,
    bay: &mut B,
    slot: usize,
    anchor: &Header,
) -> Result<Copies, ShowFault>
    requires { slot < length (B.disks bay.old).sizes }
    ensures writable { IfOk result AreCopies }
    ensures under { IsAnchor anchor.now → IfOk result (AreUnder (slice_index (B.disks bay.old).sizes slot) anchor.now) }
    ensures copies { B.tells → IfOk result (λ copies. copies ≡ on_slot copies_of (B.disks bay.old) slot anchor.now) }
    ensures reads { ReadsOnly (B.disks bay.old) (B.disks bay.new) }
    ensures look { LooksAt (B.disks bay.old) (B.disks bay.new) slot (show_failed result) }
    ensures named { IfErr result (IsShowFaultOf slot) }
    ensures calls { (B.disks bay.new).calls ≤ (B.disks bay.old).calls + 14 }
{
    let primary = look(alloc, bay, slot, anchor, Which::Primary)?;
    let secondary = look(alloc, bay, slot, anchor, Which::Secondary)?;
    let level = are_level(&primary, &secondary);
    Ok(Copies {
        primary: copy_read(primary),
        secondary: copy_read(secondary),
        level,
    })
}

/// Reads one copy, whole or not.
fn look<B: Bay>(
    alloc: Global,
    bay: &mut B,
    slot: usize,
    anchor: &Header,
    which: Which,
) -> Result<Result<Whole, CopyFault>, ShowFault>
    requires { slot < length (B.disks bay.old).sizes }
    ensures copy { B.tells → IfOk result (λ found. copy_read found ≡ on_slot copy_of (B.disks bay.old) slot anchor.now which) }
    ensures whole { IfOk result AreWhole }
    ensures under { IsAnchor anchor.now → IfOk result (IsWholeUnder (slice_index (B.disks bay.old).sizes slot) anchor.now) }
    ensures reads { ReadsOnly (B.disks bay.old) (B.disks bay.new) }
    ensures look { LooksAt (B.disks bay.old) (B.disks bay.new) slot (show_failed result) }
    ensures named { IfErr result (IsShowFaultOf slot) }
    ensures calls { (B.disks bay.new).calls ≤ (B.disks bay.old).calls + 7 }
{
    match read_whole(alloc, bay, slot, anchor, which) {
        Ok(whole) => Ok(Ok(whole)),
        Err(CopyFault::Disk(slot)) => Err(ShowFault::Disk(slot)),
        Err(CopyFault::Memory) => Err(ShowFault::Memory),
        Err(fault) => Ok(Err(fault)),
    }
}

/// Whether two copies are whole and level.
fn are_level(primary: &Result<Whole, CopyFault>, secondary: &Result<Whole, CopyFault>) -> bool
    requires primary { AreWhole primary.now }
    requires secondary { AreWhole secondary.now }
    ensures { result ≡ are_level (copy_read primary.now) (copy_read secondary.now) }
{
    match (primary, secondary) {
        (Ok(primary), Ok(secondary)) => is_level(primary, secondary),
        _ => false,
    }
}

fn copy_read(found: Result<Whole, CopyFault>) -> Result<DiskCopy, CopyFault>
    ensures value { result ≡ copy_read found }
    ensures writable { AreWhole found → IfOk result CanBeCopy }
    ensures under { (size : ℕ) (anchor : Header) → IsWholeUnder size anchor found → IfOk result (IsUnder size anchor) }
{
    match found {
        Ok(whole) => Ok(whole.copy),
        Err(fault) => Err(fault),
    }
}
