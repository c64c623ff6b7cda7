//! Neighbouring sectors of what is filled, in one call.
ghost use Rattle.std.specs.Prelude.{◌≡◌, ◌⊎◌, ◌+◌, ◌<◌, ◌≤◌, ℕ, Some, slice_get, OnOk, IfErr};
ghost use Rattle.ddf_bytes.specs.Counts.{Rose};
ghost use Rattle.ddf_bay.specs.Sectors.{IsLeft};
ghost use Rattle.ddf_bay.specs.Moments.{StopsLeave};
ghost use Rattle.ddf_primary.specs.Cells.{depth_of};
ghost use Rattle.ddf_array.specs.declared.part.Part.{Part};
ghost use Rattle.ddf_array.specs.Sound.{AreSectors};
ghost use Rattle.ddf_array.specs.Volume.{Fits, IsPart, IsVolume};
ghost use Rattle.ddf_read.specs.Reading.{Failed};
ghost use Rattle.ddf_cells.specs.CellSources.{IsInOneRow, IsReadable, IsSure, NoneLeftFor, wanted};
ghost use Rattle.ddf_cells.specs.GivenCells.{IsWantedGiven};
ghost use Rattle.ddf_cells.specs.Writing.{AddsBut, AsksFor, IsAmongSectors, IsLeftBut, StaysBut};
ghost use Rattle.ddf_rebuild.specs.Target.{IsAside};

use crate::aim::Aim;
use ddf_array::View;
use ddf_bay::Bay;
use ddf_cells::{SECTORS, read_wanted, write_from};

/// Reads what the aim should hold at neighbouring sectors, and writes it there. After a failure, the aim's slot, if
/// the write failed, or one at which no source is left.
pub(crate) fn rebuild_piece<B: Bay>(
    bay: &mut B,
    view: &View,
    aim: Aim,
    sector: u64,
    count: usize,
) -> Result<(), usize>
    requires known { IsVolume view.now }
    requires fits { Fits (B.disks bay.old).sizes view.now }
    requires readable { IsReadable view.now }
    requires some { 0 < count }
    requires few { count ≤ 32 }
    requires aside { IsAside (B.disks bay.old).sizes view.now aim.element aim.slot aim.start }
    requires sectors { (part : Part) → slice_get view.now.parts aim.element ≡ Some part → sector + count ≤ depth_of part.shape }
    requires row { (part : Part) → slice_get view.now.parts aim.element ≡ Some part → IsInOneRow part sector count }
    ensures written { B.tells → OnOk result (IsSure view.now (B.disks bay.old) (B.disks bay.new) → (part : Part) → slice_get view.now.parts aim.element ≡ Some part → (k : ℕ) → k < count
        → (B.disks bay.new).held aim.slot (aim.start + (sector + k)) ≡ wanted view.now (B.disks bay.old).held aim.element part (sector + k) aim.position) }
    ensures given { B.tells → OnOk result ((part : Part) → slice_get view.now.parts aim.element ≡ Some part → (k : ℕ) → k < count
        → IsWantedGiven (Failed (B.disks bay.old) (B.disks bay.new)) view.now (B.disks bay.old).held aim.element part (sector + k) aim.position ((B.disks bay.new).held aim.slot (aim.start + (sector + k)))) }
    ensures whole { B.tells → OnOk result (AreSectors (B.disks bay.old).held → AreSectors (B.disks bay.new).held) }
    ensures held { B.tells → StaysBut (IsAmongSectors aim.slot (aim.start + sector) count) (B.disks bay.old).held (B.disks bay.new).held }
    ensures left { AddsBut (IsAmongSectors aim.slot (aim.start + sector) count) (B.disks bay.old).may_hold (B.disks bay.new).may_hold }
    ensures any_moment { StopsLeave (B.disks bay.old) (B.disks bay.new) (IsLeftBut (IsAmongSectors aim.slot (aim.start + sector) count) (B.disks bay.old).may_hold) }
    ensures unfailed { OnOk result ((B.disks bay.new).failed_writes ≡ (B.disks bay.old).failed_writes) }
    ensures failed { IfErr result (λ slot. ((slot ≡ aim.slot) × Rose ((B.disks bay.old).failed_writes slot) ((B.disks bay.new).failed_writes slot))
        ⊎ ((part : Part) → slice_get view.now.parts aim.element ≡ Some part → NoneLeftFor (Failed (B.disks bay.old) (B.disks bay.new)) view.now aim.element part sector count aim.position slot)) }
    ensures asks { AsksFor (B.disks bay.old) (B.disks bay.new) count }
{
    let mut work = [[0; 512]; SECTORS];
    let mut sectors = [[0; 512]; SECTORS];
    let work = &mut work[..count];
    let out = &mut sectors[..count];
    read_wanted(bay, view, aim.element, aim.position, sector, work, out)?;
    write_from(bay, aim.slot, aim.start + sector, out)?;
    Ok(())
}
