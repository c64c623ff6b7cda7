//! The parity of rows, set to their sums.
ghost use Rattle.std.specs.Prelude.{◌≡◌, ◌⊎◌, ◌+◌, ◌<◌, ◌≤◌, ◌^◌, ℕ, Some, true, false, length, slice_get, OnOk, IfErr};
ghost use Rattle.ddf_bytes.specs.Counts.{Rose};
ghost use Rattle.ddf_primary.specs.Cells.{depth_of};
ghost use Rattle.ddf_array.specs.Apart.{IsApart};
ghost use Rattle.ddf_array.specs.Levels.{keeps_parity};
ghost use Rattle.ddf_array.specs.Volume.{Fits, IsVolume};
ghost use Rattle.ddf_read.specs.Reading.{Failed};
ghost use Rattle.ddf_cells.specs.CellSources.{HaveEqualCopies, IsInOneRow, IsReadable};
ghost use Rattle.ddf_cells.specs.Degraded.{is_degraded};
ghost use Rattle.ddf_cells.specs.Touching.{IsTouchedSlot, Writes};
ghost use Rattle.ddf_resync.specs.Resyncing.{NoneLeftOfRow};
ghost use Rattle.ddf_resync.specs.Setting.{AreNotedIn, AreNotedTo, AreRightIn, AreRightTo, IsNotedAt, IsRightAt, KeepsRight, SetsParity};
ghost use Rattle.ddf_resync.specs.Copying.{Asks};
ghost use Rattle.ddf_resync.specs.Several.{parity_cells, parity_of};

use ddf_array::{Part, View};
use ddf_bay::Bay;
use ddf_cells::{SECTORS, depth_of, piece_at, read_sums, touch};
use ddf_read::{keeps_parity, strip_of};

/// Sets the parity of neighbouring rows of one row of strips to their sums. After a failure, the slot that failed, or at
/// which no source of a data cell is left.
fn set_piece<B: Bay>(
    bay: &mut B,
    view: &View,
    part: &Part,
    element: usize,
    sector: u64,
    count: usize,
    touched: &mut [bool; 64],
) -> Result<(), usize>
    requires known { IsVolume view.now }
    requires apart { IsApart view.now }
    requires fits { Fits (B.disks bay.old).sizes view.now }
    requires readable { IsReadable view.now }
    requires marked { view.now.marked ≡ true }
    requires whole { is_degraded view.now ≡ false }
    requires is_part { slice_get view.now.parts element ≡ Some part.now }
    requires keeps { keeps_parity part.now.shape.layout ≡ true }
    requires some { 0 < count }
    requires few { count ≤ 32 }
    requires sectors { sector + count ≤ depth_of part.now.shape }
    requires row { IsInOneRow part.now sector count }
    ensures writes { Writes (SetsParity view.now) B.tells (B.disks bay.old) (B.disks bay.new) touched.old touched.new }
    ensures set { B.tells → HaveEqualCopies view.now (B.disks bay.old).held → OnOk result ((j : ℕ) → j < count → IsRightAt view.now (B.disks bay.new).held element part.now (sector + j)) }
    ensures kept { B.tells → HaveEqualCopies view.now (B.disks bay.old).held → OnOk result (KeepsRight view.now (B.disks bay.old).held (B.disks bay.new).held) }
    ensures noted { OnOk result ((j : ℕ) → j < count → IsNotedAt touched.new part.now (sector + j)) }
    ensures asks { Asks (B.disks bay.old) (B.disks bay.new) 0 count }
    ensures unfailed { OnOk result ((B.disks bay.new).failed_writes ≡ (B.disks bay.old).failed_writes) }
    ensures cause { IfErr result (λ slot. (IsTouchedSlot touched.new slot × Rose ((B.disks bay.old).failed_writes slot) ((B.disks bay.new).failed_writes slot))
        ⊎ NoneLeftOfRow (Failed (B.disks bay.old) (B.disks bay.new)) view.now slot) }
{
    let Some(parity) = part.shape.parity_of(sector / strip_of(part)) else {
        unreachable!()
    };
    let parity = usize::from(parity);
    let mut work = [[0; 512]; SECTORS];
    let mut sums = [[0; 512]; SECTORS];
    let work = &mut work[..count];
    let out = &mut sums[..count];
    read_sums(bay, view, element, parity, sector, work, out)?;
    let Some(first) = part.site_at(parity, sector) else {
        unreachable!()
    };
    touch(touched, first.slot);
    match bay.write_run(first.slot, first.lba, out) {
        Ok(()) => Ok(()),
        Err(_) => Err(first.slot),
    }
}

/// Sets the parity of each row of an element, where it keeps any. After a failure, the slot that failed, or at which no
/// source of a data cell is left.
fn set_element<B: Bay>(
    bay: &mut B,
    view: &View,
    part: &Part,
    element: usize,
    touched: &mut [bool; 64],
) -> Result<(), usize>
    requires known { IsVolume view.now }
    requires apart { IsApart view.now }
    requires fits { Fits (B.disks bay.old).sizes view.now }
    requires readable { IsReadable view.now }
    requires marked { view.now.marked ≡ true }
    requires whole { is_degraded view.now ≡ false }
    requires is_part { slice_get view.now.parts element ≡ Some part.now }
    ensures writes { Writes (SetsParity view.now) B.tells (B.disks bay.old) (B.disks bay.new) touched.old touched.new }
    ensures set { B.tells → HaveEqualCopies view.now (B.disks bay.old).held → OnOk result (AreRightTo view.now (B.disks bay.new).held element (depth_of part.now.shape)) }
    ensures kept { B.tells → HaveEqualCopies view.now (B.disks bay.old).held → OnOk result (KeepsRight view.now (B.disks bay.old).held (B.disks bay.new).held) }
    ensures noted { OnOk result (AreNotedTo touched.new part.now (depth_of part.now.shape)) }
    ensures asks { Asks (B.disks bay.old) (B.disks bay.new) 0 (parity_of (Some part.now)) }
    ensures unfailed { OnOk result ((B.disks bay.new).failed_writes ≡ (B.disks bay.old).failed_writes) }
    ensures cause { IfErr result (λ slot. (IsTouchedSlot touched.new slot × Rose ((B.disks bay.old).failed_writes slot) ((B.disks bay.new).failed_writes slot))
        ⊎ NoneLeftOfRow (Failed (B.disks bay.old) (B.disks bay.new)) view.now slot) }
{
    if !keeps_parity(part.shape.layout()) {
        return Ok(());
    }
    let depth = depth_of(part);
    let mut sector = 0;
    while sector < depth {
        let count = piece_at(part, sector, depth - sector);
        set_piece(bay, view, part, element, sector, count, touched)?;
        sector += count as u64;
    }
    Ok(())
}

/// Sets the parity of each row of the array. After a failure, the slot that failed, or at which no source of a data cell is
/// left.
pub(crate) fn set_all<B: Bay>(
    bay: &mut B,
    view: &View,
    touched: &mut [bool; 64],
) -> Result<(), usize>
    requires known { IsVolume view.now }
    requires apart { IsApart view.now }
    requires fits { Fits (B.disks bay.old).sizes view.now }
    requires readable { IsReadable view.now }
    requires marked { view.now.marked ≡ true }
    requires whole { is_degraded view.now ≡ false }
    ensures writes { Writes (SetsParity view.now) B.tells (B.disks bay.old) (B.disks bay.new) touched.old touched.new }
    ensures set { B.tells → HaveEqualCopies view.now (B.disks bay.old).held → OnOk result (AreRightIn view.now (B.disks bay.new).held (length view.now.parts)) }
    ensures noted { OnOk result (AreNotedIn view.now touched.new (length view.now.parts)) }
    ensures asks { Asks (B.disks bay.old) (B.disks bay.new) 0 (parity_cells view.now (length view.now.parts)) }
    ensures unfailed { OnOk result ((B.disks bay.new).failed_writes ≡ (B.disks bay.old).failed_writes) }
    ensures cause { IfErr result (λ slot. (IsTouchedSlot touched.new slot × Rose ((B.disks bay.old).failed_writes slot) ((B.disks bay.new).failed_writes slot))
        ⊎ NoneLeftOfRow (Failed (B.disks bay.old) (B.disks bay.new)) view.now slot) }
{
    for element in 0..view.parts().len() {
        let part = &view.parts()[element];
        set_element(bay, view, part, element, touched)?;
    }
    Ok(())
}
