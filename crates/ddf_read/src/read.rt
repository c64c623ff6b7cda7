//! Reads of blocks of an array, each from its first source that can be read, and why they aren't read. docs/COMMANDS.md#read
ghost use Rattle.std.specs.Prelude.{◌≡◌, ◌+◌, ◌-◌, ◌<◌, ◌≤◌, ◌^◌, None, length, OnOk, IfOk, IfErr};
ghost use Rattle.std.specs.List.{list_any, range_with_len};
ghost use Rattle.ddf_array.specs.Volume.{Fits, IsVolume, capacity};
ghost use Rattle.ddf_read.specs.Given.{AreGiven, HaveSources, NoneLeftIn};
ghost use Rattle.ddf_read.specs.Reading.{OnlyReads, Failed, NoneFailed};
ghost use Rattle.ddf_read.specs.Refused.{lacks_copy, read_refusal, IsReadFault};
ghost use Rattle.ddf_read.specs.Stretches.{HaveCopies, copy_stretches};

use crate::VolumeFault;
use crate::by_rows::read_by_rows;
use crate::run::read_stretch;
use crate::stretch::stretch_at;
use crate::strip::left_in_strip;
use ddf_array::View;
use ddf_bay::Bay;
use ddf_bytes::Sector;

/// Whether a block has no available cell.
fn lacks_copy(view: &View, block: u64) -> bool
    requires { block < capacity view.now }
    ensures { result ≡ lacks_copy view.now block }
{
    view.first_copy(block).is_none()
}

/// Whether a block of the range has none. The blocks of one strip are alike.
fn lacks_copies(view: &View, start: u64, count: usize) -> bool
    requires small { start + count < 2 ^ 64 }
    requires blocks { start + count ≤ capacity view.now }
    ensures { result ≡ list_any (lacks_copy view.now) (range_with_len start count) }
{
    let mut at = 0;
    while at < count {
        let block = start + at as u64;
        if lacks_copy(view, block) {
            return true;
        }
        at += left_in_strip(view, block, count - at);
    }
    false
}

/// Why `read_blocks` reads none of so many blocks from one on: `Range` where they pass the capacity, `Lost` where the array
/// isn't within its level, `Unsure` where it is marked and a block has no available cell, the first of these that holds. None
/// where only reads that fail can keep it from them.
pub fn read_refusal(view: &View, start: u64, count: usize) -> Option<VolumeFault>
    ensures value { result ≡ read_refusal view.now start count }
    ensures small { result ≡ None → start + count < 2 ^ 64 }
    ensures sound { IsVolume view.now }
{
    let capacity = view.capacity();
    if start > capacity || count as u64 > capacity - start {
        return Some(VolumeFault::Range(capacity));
    }
    if !view.within() {
        return Some(VolumeFault::Lost);
    }
    if view.is_marked() && lacks_copies(view, start, count) {
        return Some(VolumeFault::Unsure);
    }
    None
}

/// Reads the first stretch of a range of blocks, or its first blocks by their rows where the first has no copy. Answers
/// how many these are. After a failure, the slot at which no source is left.
fn read_first<B: Bay>(
    bay: &mut B,
    view: &View,
    start: u64,
    out: &mut [Sector],
) -> Result<usize, usize>
    requires known { IsVolume view.now }
    requires fits { Fits (B.disks bay.old).sizes view.now }
    requires some { 0 < length out.old }
    requires small { start + length out.old < 2 ^ 64 }
    requires blocks { start + length out.old ≤ capacity view.now }
    requires sources { HaveSources view.now start (length out.old) }
    ensures some { IfOk result (λ count. 0 < count) }
    ensures within { IfOk result (λ count. count ≤ length out.old) }
    ensures given { B.tells → IfOk result (λ count. AreGiven (Failed (B.disks bay.old) (B.disks bay.new)) (B.disks bay.old).held view.now start count out.new) }
    ensures left { IfErr result (NoneLeftIn (Failed (B.disks bay.old) (B.disks bay.new)) view.now start (length out.old)) }
    ensures reads { OnlyReads (B.disks bay.old) (B.disks bay.new) }
    ensures calls { HaveCopies view.now start (length out.old) → NoneFailed view.now (B.disks bay.old) (B.disks bay.new)
        → IfOk result (λ count. (B.disks bay.new).calls + copy_stretches view.now (start + count) (length out.old - count) ≤ (B.disks bay.old).calls + copy_stretches view.now start (length out.old)) }
{
    let Some(first) = view.first_copy(start) else {
        return read_by_rows(bay, view, start, out);
    };
    let count = stretch_at(view, first, start, out.len());
    read_stretch(bay, view, first, start, &mut out[..count])?;
    Ok(count)
}

/// Reads blocks stretch by stretch. After a failure, the slot at which no source is left.
fn read_all<B: Bay>(bay: &mut B, view: &View, start: u64, out: &mut [Sector]) -> Result<(), usize>
    requires known { IsVolume view.now }
    requires fits { Fits (B.disks bay.old).sizes view.now }
    requires small { start + length out.old < 2 ^ 64 }
    requires blocks { start + length out.old ≤ capacity view.now }
    requires sources { HaveSources view.now start (length out.old) }
    ensures given { B.tells → OnOk result (AreGiven (Failed (B.disks bay.old) (B.disks bay.new)) (B.disks bay.old).held view.now start (length out.old) out.new) }
    ensures left { IfErr result (NoneLeftIn (Failed (B.disks bay.old) (B.disks bay.new)) view.now start (length out.old)) }
    ensures reads { OnlyReads (B.disks bay.old) (B.disks bay.new) }
    ensures calls { HaveCopies view.now start (length out.old) → NoneFailed view.now (B.disks bay.old) (B.disks bay.new)
        → (B.disks bay.new).calls ≤ (B.disks bay.old).calls + copy_stretches view.now start (length out.old) }
{
    let mut at = 0;
    while at < out.len() {
        at += read_first(bay, view, start + at as u64, &mut out[at..])?;
    }
    Ok(())
}

/// Reads the blocks of a range, as many as there are sectors to read into. The sources of a block are, in order, its
/// available cells by element and position, and, unless the array is marked, the exclusive-or of the row's other cells in
/// each parity element where all of these are available (profile). Each block has the bytes of one of its sources, and
/// each source before that one has a slot of which a read failed in this call. So where none failed on a slot of the
/// array's available places, each has its value. Neighbouring blocks are read in one call where their first available
/// cells follow one another on one slot.
///
/// # Errors
/// `Range` where the range passes the capacity, `Lost` where the array isn't within its level, `Unsure` where it is
/// marked and a block has no available cell, `Disk` where each source of a block has a slot of which a read failed in this
/// call: it names such a slot of the block's first source.
pub fn read_blocks<B: Bay>(
    bay: &mut B,
    view: &View,
    start: u64,
    out: &mut [Sector],
) -> Result<(), VolumeFault>
    requires { Fits (B.disks bay.old).sizes view.now }
    ensures given { B.tells → OnOk result (AreGiven (Failed (B.disks bay.old) (B.disks bay.new)) (B.disks bay.old).held view.now start (length out.old) out.new) }
    ensures ok { OnOk result (read_refusal view.now start (length out.old) ≡ None) }
    ensures fault { IfErr result (IsReadFault (Failed (B.disks bay.old) (B.disks bay.new)) view.now start (length out.old)) }
    ensures reads { OnlyReads (B.disks bay.old) (B.disks bay.new) }
    ensures calls { HaveCopies view.now start (length out.old) → NoneFailed view.now (B.disks bay.old) (B.disks bay.new)
        → (B.disks bay.new).calls ≤ (B.disks bay.old).calls + copy_stretches view.now start (length out.old) }
{
    if let Some(fault) = read_refusal(view, start, out.len()) {
        return Err(fault);
    }
    match read_all(bay, view, start, out) {
        Ok(()) => Ok(()),
        Err(slot) => Err(VolumeFault::Disk(slot)),
    }
}
