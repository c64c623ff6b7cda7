//! A look at what a resync needs, which writes nothing: an array that it couldn't end with stays as it is.
//! docs/FAULTS.md#a-resync-over-an-unreadable-sector
ghost use Rattle.std.specs.Prelude.{◌≡◌, ◌+◌, ◌<◌, ◌≤◌, Some, None, true, false, slice_get, OnOk, IfOk, IfErr};
ghost use Rattle.ddf_primary.specs.Cells.{depth_of};
ghost use Rattle.ddf_array.specs.Levels.{keeps_parity};
ghost use Rattle.ddf_array.specs.Volume.{Fits, IsVolume, capacity};
ghost use Rattle.ddf_array.specs.Within.{is_redundant};
ghost use Rattle.ddf_read.specs.Reading.{Failed, OnlyReads};
ghost use Rattle.ddf_cells.specs.CellSources.{IsInOneRow, IsReadable};
ghost use Rattle.ddf_resync.specs.Resyncing.{IsNeedsFault, IsUnread, IsUntouched, NoneLeftOfBlock, NoneLeftOfRow, resync_refusal};

use crate::resyncing::resync_refusal;
use crate::several::has_other;
use ddf_array::{Part, View};
use ddf_bay::Bay;
use ddf_cells::{SECTORS, blocks_along, depth_of, piece_at, read_run, read_sums};
use ddf_read::{VolumeFault, keeps_parity, strip_of};

/// Reads the first blocks from one on, as far as these lie along a strip, where they have several available cells. Answers how
/// many blocks these are. After a failure, the slot at which no source of a block is left.
fn look_first<B: Bay>(bay: &mut B, view: &View, block: u64) -> Result<usize, usize>
    requires known { IsVolume view.now }
    requires fits { Fits (B.disks bay.old).sizes view.now }
    requires readable { IsReadable view.now }
    requires block { block < capacity view.now }
    ensures some { IfOk result (λ count. 0 < count) }
    ensures within { IfOk result (λ count. block + count ≤ capacity view.now) }
    ensures left { IfErr result (NoneLeftOfBlock (Failed (B.disks bay.old) (B.disks bay.new)) view.now) }
    ensures reads { OnlyReads (B.disks bay.old) (B.disks bay.new) }
{
    let count = blocks_along(view, block, SECTORS);
    if !has_other(view, block) {
        return Ok(count);
    }
    let mut blocks = [[0; 512]; SECTORS];
    let out = &mut blocks[..count];
    read_run(bay, view, block, out)?;
    Ok(count)
}

/// Reads each block that has several available cells. After a failure, the slot at which no source of a block is left.
fn look_blocks<B: Bay>(bay: &mut B, view: &View) -> Result<(), usize>
    requires known { IsVolume view.now }
    requires fits { Fits (B.disks bay.old).sizes view.now }
    requires readable { IsReadable view.now }
    ensures left { IfErr result (NoneLeftOfBlock (Failed (B.disks bay.old) (B.disks bay.new)) view.now) }
    ensures reads { OnlyReads (B.disks bay.old) (B.disks bay.new) }
{
    let capacity = view.capacity();
    let mut block = 0;
    while block < capacity {
        block += look_first(bay, view, block)? as u64;
    }
    Ok(())
}

/// Reads the data cells of neighbouring rows of one row of strips. After a failure, the slot at which no source of a data cell
/// is left.
fn look_piece<B: Bay>(
    bay: &mut B,
    view: &View,
    part: &Part,
    element: usize,
    sector: u64,
    count: usize,
) -> Result<(), usize>
    requires known { IsVolume view.now }
    requires fits { Fits (B.disks bay.old).sizes view.now }
    requires readable { IsReadable view.now }
    requires is_part { slice_get view.now.parts element ≡ Some part.now }
    requires keeps { keeps_parity part.now.shape.layout ≡ true }
    requires some { 0 < count }
    requires few { count ≤ 32 }
    requires sectors { sector + count ≤ depth_of part.now.shape }
    requires row { IsInOneRow part.now sector count }
    ensures left { IfErr result (NoneLeftOfRow (Failed (B.disks bay.old) (B.disks bay.new)) view.now) }
    ensures reads { OnlyReads (B.disks bay.old) (B.disks bay.new) }
{
    let Some(parity) = part.shape.parity_of(sector / strip_of(part)) else {
        unreachable!()
    };
    let parity = usize::from(parity);
    let mut work = [[0; 512]; SECTORS];
    let mut sums = [[0; 512]; SECTORS];
    let work = &mut work[..count];
    let out = &mut sums[..count];
    read_sums(bay, view, element, parity, sector, work, out)?;
    Ok(())
}

/// Reads the data cells of each row of an element, where it keeps parity. After a failure, the slot at which no source of a
/// data cell is left.
fn look_element<B: Bay>(bay: &mut B, view: &View, part: &Part, element: usize) -> Result<(), usize>
    requires known { IsVolume view.now }
    requires fits { Fits (B.disks bay.old).sizes view.now }
    requires readable { IsReadable view.now }
    requires is_part { slice_get view.now.parts element ≡ Some part.now }
    ensures left { IfErr result (NoneLeftOfRow (Failed (B.disks bay.old) (B.disks bay.new)) view.now) }
    ensures reads { OnlyReads (B.disks bay.old) (B.disks bay.new) }
{
    if !keeps_parity(part.shape.layout()) {
        return Ok(());
    }
    let depth = depth_of(part);
    let mut sector = 0;
    while sector < depth {
        let count = piece_at(part, sector, depth - sector);
        look_piece(bay, view, part, element, sector, count)?;
        sector += count as u64;
    }
    Ok(())
}

/// Reads the blocks that have several available cells, and then the data cells of each row whose element keeps parity. After
/// a failure, the slot at which no source of one is left.
fn look_all<B: Bay>(bay: &mut B, view: &View) -> Result<(), usize>
    requires known { IsVolume view.now }
    requires fits { Fits (B.disks bay.old).sizes view.now }
    requires readable { IsReadable view.now }
    ensures left { IfErr result (IsUnread (Failed (B.disks bay.old) (B.disks bay.new)) view.now) }
    ensures reads { OnlyReads (B.disks bay.old) (B.disks bay.new) }
{
    look_blocks(bay, view)?;
    for element in 0..view.parts().len() {
        let part = &view.parts()[element];
        look_element(bay, view, part, element)?;
    }
    Ok(())
}

/// Reads once what a resync of an array reads, and writes nothing: each block that has several available cells, by the first
/// of its sources that can be read, and each data cell of the rows of the elements that keep parity. So an array that has a
/// sector which can't be read is left alone, and not marked first. Of an array that isn't redundant by its level no call is made.
///
/// # Errors
/// `Lost` where the array isn't within its level, `Unsure` where an element that keeps parity lacks a position; then no call
/// is made. `Disk` where each source of such a block, or of such a data cell, has a slot of which a read failed: it names such
/// a slot of the first source.
pub fn needs_of_resync<B: Bay>(bay: &mut B, view: &View) -> Result<(), VolumeFault>
    requires { Fits (B.disks bay.old).sizes view.now }
    ensures ok { OnOk result (resync_refusal view.now ≡ None) }
    ensures fault { IfErr result (IsNeedsFault (B.disks bay.old) (B.disks bay.new) view.now) }
    ensures reads { OnlyReads (B.disks bay.old) (B.disks bay.new) }
    ensures idle { is_redundant view.now ≡ false → IsUntouched (B.disks bay.old) (B.disks bay.new) }
{
    if let Some(fault) = resync_refusal(view) {
        return Err(fault);
    }
    if !view.redundant() {
        return Ok(());
    }
    match look_all(bay, view) {
        Ok(()) => Ok(()),
        Err(slot) => Err(VolumeFault::Disk(slot)),
    }
}
