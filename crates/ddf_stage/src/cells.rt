//! The cells of a block, written from the stage.
ghost use Rattle.std.specs.Prelude.{◌≡◌, ◌==◌, ◌<◌, ℕ, true, length, OnOk, IfErr};
ghost use Rattle.std.specs.List.{list_any};
ghost use Rattle.ddf_bytes.specs.Counts.{Rose};
ghost use Rattle.ddf_bay.specs.Moments.{IsSettled, Keeps, SpendsOver, StopsLeave};
ghost use Rattle.ddf_bay.specs.Sectors.{IsLeft};
ghost use Rattle.ddf_stage.specs.Staging.{Adds, AreOwnCells, CellsAreOn, HasCell, IsAmong, IsCell, IsThere, Mixes};

use crate::desk::{StageCell, Staged, sector_for};
use ddf_bay::{Bay, DiskFault};

/// Writes each cell as it is staged.
pub(crate) fn write_cells<B: Bay>(
    bay: &mut B,
    cells: &[StageCell],
    staged: &Staged,
) -> Result<(), DiskFault>
    requires on { CellsAreOn (B.disks bay.old).sizes cells.now }
    requires own { AreOwnCells cells.now }
    ensures there { B.tells → OnOk result (IsThere (IsCell cells.now staged.now) (B.disks bay.new).held) }
    ensures held { B.tells → Mixes (IsCell cells.now staged.now) (B.disks bay.old).held (B.disks bay.new).held }
    ensures left { Adds (IsCell cells.now staged.now) (B.disks bay.old).may_hold (B.disks bay.new).may_hold }
    ensures any_moment { StopsLeave (B.disks bay.old) (B.disks bay.new) (IsAmong (IsCell cells.now staged.now) (B.disks bay.old).may_hold) }
    ensures ok { OnOk result ((B.disks bay.new).failed_writes ≡ (B.disks bay.old).failed_writes) }
    ensures failed { IfErr result (λ e. HasCell cells.now e.0 × Rose ((B.disks bay.old).failed_writes e.0) ((B.disks bay.new).failed_writes e.0)) }
    ensures reads { (B.disks bay.new).failed_reads ≡ (B.disks bay.old).failed_reads }
    ensures spends { SpendsOver (B.disks bay.old) (B.disks bay.new) (length cells.now) (length cells.now) }
{
    for cell in cells {
        bay.write(cell.slot, cell.lba, sector_for(staged, cell))
            .map_err(|_| DiskFault(cell.slot))?;
    }
    Ok(())
}

/// Whether a slot has one of the cells.
fn has_cell(cells: &[StageCell], slot: usize) -> bool
    ensures { result ≡ list_any (λ cell. cell.slot == slot) cells.now }
{
    cells.iter().any(|cell| cell.slot == slot)
}

/// Syncs each slot that has a cell, in rising order.
pub(crate) fn sync_cells<B: Bay>(bay: &mut B, cells: &[StageCell]) -> Result<(), DiskFault>
    requires { CellsAreOn (B.disks bay.old).sizes cells.now }
    ensures settled { OnOk result ((slot : ℕ) → HasCell cells.now slot → IsSettled (B.disks bay.new).may_hold (B.disks bay.new).held slot) }
    ensures held { (B.disks bay.new).held ≡ (B.disks bay.old).held }
    ensures left { Keeps (B.disks bay.old).may_hold (B.disks bay.new).may_hold }
    ensures any_moment { StopsLeave (B.disks bay.old) (B.disks bay.new) (IsLeft (B.disks bay.old).may_hold) }
    ensures ok { OnOk result ((B.disks bay.new).failed_writes ≡ (B.disks bay.old).failed_writes) }
    ensures failed { IfErr result (λ e. HasCell cells.now e.0 × Rose ((B.disks bay.old).failed_writes e.0) ((B.disks bay.new).failed_writes e.0)) }
    ensures reads { (B.disks bay.new).failed_reads ≡ (B.disks bay.old).failed_reads }
    ensures spends { SpendsOver (B.disks bay.old) (B.disks bay.new) 0 (length (B.disks bay.old).sizes) }
{
    for slot in 0..bay.slots() {
        if has_cell(cells, slot) {
            match bay.sync(slot) {
                Ok(()) => {}
                Err(_) => return Err(DiskFault(slot)),
            }
        }
    }
    Ok(())
}
