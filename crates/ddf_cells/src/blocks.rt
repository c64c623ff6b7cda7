//! Reads of neighbouring cells that hold blocks.
ghost use Rattle.std.specs.Prelude.{◌≡◌, ◌+◌, ◌<◌, ◌≤◌, ◌^◌, ℕ, Some, length, OnOk, IfOk, IfErr};
ghost use Rattle.ddf_array.specs.declared.part.Part.{Part};
ghost use Rattle.ddf_array.specs.Rows.{block_at};
ghost use Rattle.ddf_array.specs.Volume.{Fits, capacity};
ghost use Rattle.ddf_read.specs.declared.fault.VolumeFault.TheVariants.{Disk};
ghost use Rattle.ddf_read.specs.Along.{LieAlong};
ghost use Rattle.ddf_read.specs.Given.{AreGiven, NoneLeftIn};
ghost use Rattle.ddf_read.specs.Reading.{OnlyReads, Failed};
ghost use Rattle.ddf_cells.specs.CellSources.{AreCellsAt, IsReadable, IsSure, NoneLeftAmong};
ghost use Rattle.ddf_cells.specs.GivenCells.{AreCellsGiven};

use ddf_array::View;
use ddf_bay::Bay;
use ddf_bytes::Sector;
use ddf_read::{VolumeFault, left_in_strip, read_blocks};

/// How many blocks from one on, at most so many, lie along a strip: a position that holds the first at a sector holds each
/// of the others so many sectors further.
pub fn blocks_along(view: &View, block: u64, most: usize) -> usize
    requires some { 0 < most }
    requires block { block < capacity view.now }
    ensures some { 0 < result }
    ensures within { result ≤ most }
    ensures inside { block + result ≤ capacity view.now }
    ensures along { LieAlong view.now block result }
    ensures follow { (element position sector k : ℕ) → block_at view.now element position sector ≡ Some block → k < result → block_at view.now element position (sector + k) ≡ Some (block + k) }
{
    let left = view.capacity() - block;
    if left < most as u64 {
        return left_in_strip(view, block, left as usize);
    }
    left_in_strip(view, block, most)
}

/// The slot that a fault of a disk names.
fn slot_of(fault: VolumeFault) -> usize
    requires { (slot : ℕ) × (fault ≡ Disk slot) }
    ensures { fault ≡ Disk result }
{
    match fault {
        VolumeFault::Disk(slot) => slot,
        _ => unreachable!(),
    }
}

/// Reads blocks of an array that can be read.
///
/// # Errors
/// The slot at which no source of a block is left.
pub fn read_run<B: Bay>(
    bay: &mut B,
    view: &View,
    block: u64,
    out: &mut [Sector],
) -> Result<(), usize>
    requires fits { Fits (B.disks bay.old).sizes view.now }
    requires readable { IsReadable view.now }
    requires blocks { block + length out.old ≤ capacity view.now }
    ensures given { B.tells → OnOk result (AreGiven (Failed (B.disks bay.old) (B.disks bay.new)) (B.disks bay.old).held view.now block (length out.old) out.new) }
    ensures left { IfErr result (NoneLeftIn (Failed (B.disks bay.old) (B.disks bay.new)) view.now block (length out.old)) }
    ensures reads { OnlyReads (B.disks bay.old) (B.disks bay.new) }
{
    match read_blocks(bay, view, block, out) {
        Ok(()) => Ok(()),
        Err(fault) => Err(slot_of(fault)),
    }
}

/// Reads the first of the blocks that lie along a strip from one on. Answers how many these are. After a failure, the slot
/// at which no source of one is left.
pub(crate) fn read_held<B: Bay>(
    bay: &mut B,
    view: &View,
    block: u64,
    out: &mut [Sector],
) -> Result<usize, usize>
    requires fits { Fits (B.disks bay.old).sizes view.now }
    requires readable { IsReadable view.now }
    requires some { 0 < length out.old }
    requires block { block < capacity view.now }
    ensures some { IfOk result (λ count. 0 < count) }
    ensures within { IfOk result (λ count. count ≤ length out.old) }
    ensures cells { B.tells → IfOk result (λ count. IsSure view.now (B.disks bay.old) (B.disks bay.new)
        → (element position sector : ℕ) → block_at view.now element position sector ≡ Some block → AreCellsAt view.now (B.disks bay.old).held element sector position out.new count) }
    ensures given { B.tells → IfOk result (λ count. (element position sector : ℕ) → block_at view.now element position sector ≡ Some block
        → AreCellsGiven (Failed (B.disks bay.old) (B.disks bay.new)) view.now (B.disks bay.old).held element sector position out.new count) }
    ensures left { IfErr result (λ slot. (element position sector : ℕ) (part : Part) → block_at view.now element position sector ≡ Some block
        → NoneLeftAmong (Failed (B.disks bay.old) (B.disks bay.new)) view.now element part sector (length out.old) position slot) }
    ensures reads { OnlyReads (B.disks bay.old) (B.disks bay.new) }
{
    let count = blocks_along(view, block, out.len());
    read_run(bay, view, block, &mut out[..count])?;
    Ok(count)
}
