//! The copies of blocks, made equal.
ghost use Rattle.std.specs.Prelude.{◌≡◌, ◌⊎◌, ◌+◌, ◌<◌, ◌≤◌, ◌^◌, ℕ, List, false, OnOk, IfOk, IfErr};
ghost use Rattle.ddf_bytes.specs.Counts.{Rose};
ghost use Rattle.ddf_array.specs.Apart.{IsApart};
ghost use Rattle.ddf_array.specs.Sources.{trusts_parity};
ghost use Rattle.ddf_array.specs.Volume.{Fits, IsVolume, capacity};
ghost use Rattle.ddf_read.specs.Reading.{Failed};
ghost use Rattle.ddf_cells.specs.CellSources.{IsReadable};
ghost use Rattle.ddf_cells.specs.Touching.{IsTouchedSlot, Writes};
ghost use Rattle.ddf_resync.specs.Copying.{AreAsBefore, AreCopied, AreNoted, Asks};
ghost use Rattle.ddf_resync.specs.Resyncing.{MayResync, NoneLeftOfBlock};
ghost use Rattle.ddf_resync.specs.Several.{copied_cells};

use crate::several::has_other;
use ddf_array::View;
use ddf_bay::Bay;
use ddf_cells::{SECTORS, blocks_along, read_run, write_cells};

/// Makes the copies of the first blocks from one on equal, as far as these lie along a strip: where they have several, each
/// block is read once, and these bytes are written to all of its cells. Answers how many blocks these are. After a failure,
/// the slot that failed, or at which no source of a block is left.
fn copy_first<B: Bay>(
    bay: &mut B,
    view: &View,
    block: u64,
    touched: &mut [bool; 64],
) -> Result<usize, usize>
    requires known { IsVolume view.now }
    requires apart { IsApart view.now }
    requires fits { Fits (B.disks bay.old).sizes view.now }
    requires readable { IsReadable view.now }
    requires marked { trusts_parity view.now ≡ false }
    requires block { block < capacity view.now }
    requires small { capacity view.now < 2 ^ 64 }
    ensures some { IfOk result (λ count. 0 < count) }
    ensures within { IfOk result (λ count. block + count ≤ capacity view.now) }
    ensures writes { (before : ℕ → ℕ → List ℕ) → (B.tells → AreAsBefore view.now before (B.disks bay.old).held block)
        → Writes (MayResync view.now B.tells before) B.tells (B.disks bay.old) (B.disks bay.new) touched.old touched.new }
    ensures copied { B.tells → IfOk result (λ count. AreCopied (Failed (B.disks bay.old) (B.disks bay.new)) view.now (B.disks bay.old).held (B.disks bay.new).held block (block + count)) }
    ensures noted { B.tells → IfOk result (λ count. AreNoted view.now touched.new block (block + count)) }
    ensures asks { IfOk result (λ count. Asks (B.disks bay.old) (B.disks bay.new) (copied_cells view.now block) (copied_cells view.now (block + count))) }
    ensures most { Asks (B.disks bay.old) (B.disks bay.new) (copied_cells view.now block) (copied_cells view.now (capacity view.now)) }
    ensures unfailed { OnOk result ((B.disks bay.new).failed_writes ≡ (B.disks bay.old).failed_writes) }
    ensures cause { IfErr result (λ slot. (IsTouchedSlot touched.new slot × Rose ((B.disks bay.old).failed_writes slot) ((B.disks bay.new).failed_writes slot))
        ⊎ NoneLeftOfBlock (Failed (B.disks bay.old) (B.disks bay.new)) view.now slot) }
{
    let count = blocks_along(view, block, SECTORS);
    if !has_other(view, block) {
        return Ok(count);
    }
    let mut blocks = [[0; 512]; SECTORS];
    let out = &mut blocks[..count];
    read_run(bay, view, block, out)?;
    write_cells(bay, view, block, out, touched)?;
    Ok(count)
}

/// Makes the copies of each block equal. After a failure, the slot that failed, or at which no source of a block is left.
pub(crate) fn copy_all<B: Bay>(
    bay: &mut B,
    view: &View,
    touched: &mut [bool; 64],
) -> Result<(), usize>
    requires known { IsVolume view.now }
    requires apart { IsApart view.now }
    requires fits { Fits (B.disks bay.old).sizes view.now }
    requires readable { IsReadable view.now }
    requires marked { trusts_parity view.now ≡ false }
    ensures writes { Writes (MayResync view.now B.tells (B.disks bay.old).held) B.tells (B.disks bay.old) (B.disks bay.new) touched.old touched.new }
    ensures copied { B.tells → OnOk result (AreCopied (Failed (B.disks bay.old) (B.disks bay.new)) view.now (B.disks bay.old).held (B.disks bay.new).held 0 (capacity view.now)) }
    ensures noted { B.tells → OnOk result (AreNoted view.now touched.new 0 (capacity view.now)) }
    ensures asks { Asks (B.disks bay.old) (B.disks bay.new) 0 (copied_cells view.now (capacity view.now)) }
    ensures unfailed { OnOk result ((B.disks bay.new).failed_writes ≡ (B.disks bay.old).failed_writes) }
    ensures cause { IfErr result (λ slot. (IsTouchedSlot touched.new slot × Rose ((B.disks bay.old).failed_writes slot) ((B.disks bay.new).failed_writes slot))
        ⊎ NoneLeftOfBlock (Failed (B.disks bay.old) (B.disks bay.new)) view.now slot) }
{
    let capacity = view.capacity();
    let mut block = 0;
    while block < capacity {
        block += copy_first(bay, view, block, touched)? as u64;
    }
    Ok(())
}
