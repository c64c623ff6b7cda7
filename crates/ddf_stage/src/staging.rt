//! One block, staged, and written from the stage.
ghost use Rattle.std.specs.Prelude.{◌≡◌, ◌⊎◌, ◌+◌, ◌*◌, ◌≤◌, ℕ, [], ◌∷◌, true, false, length, OnOk, IfErr};
ghost use Rattle.ddf_bytes.specs.Counts.{Rose};
ghost use Rattle.ddf_bay.specs.Moments.{IsSettled, SpendsOver, StopsLeave};
ghost use Rattle.ddf_stage.specs.Gate.{gate_bytes};
ghost use Rattle.ddf_stage.specs.Desks.{AreOn, HasDesk, HaveOwnSlots, IsPayload};
ghost use Rattle.ddf_stage.specs.Staging.{Adds, AreOffDesks, AreOwnCells, CellsAreOn, ClosedGates, Either, HasCell, IsBetween, IsCell, IsThere, Mixes, OpenGates};

use crate::cells::{sync_cells, write_cells};
use crate::desk::{Desk, StageCell, Staged};
use crate::each::{sync_each, write_each};
use crate::gate::gate_sector;
use ddf_bay::{Bay, DiskFault};

/// Writes what is staged behind the gate of each desk and makes it sure, then opens the gates and makes that sure. A stop leaves no gate
/// open before all that is staged is there.
///
/// # Errors
/// A write or a sync of the slot of a desk failed.
pub fn stage<B: Bay>(bay: &mut B, desks: &[Desk], staged: &Staged) -> Result<(), DiskFault>
    requires on { AreOn (B.disks bay.old).sizes desks.now }
    requires own { HaveOwnSlots desks.now }
    ensures any_moment { B.tells → StopsLeave (B.disks bay.old) (B.disks bay.new) (IsBetween (IsPayload desks.now staged.now) (OpenGates desks.now staged.now) (B.disks bay.old).may_hold) }
    ensures payload { B.tells → OnOk result (IsThere (IsPayload desks.now staged.now) (B.disks bay.new).held) }
    ensures gates { B.tells → OnOk result (IsThere (OpenGates desks.now staged.now) (B.disks bay.new).held) }
    ensures held { B.tells → Mixes (Either (IsPayload desks.now staged.now) (OpenGates desks.now staged.now)) (B.disks bay.old).held (B.disks bay.new).held }
    ensures left { Adds (Either (IsPayload desks.now staged.now) (OpenGates desks.now staged.now)) (B.disks bay.old).may_hold (B.disks bay.new).may_hold }
    ensures settled { OnOk result ((slot : ℕ) → HasDesk desks.now slot → IsSettled (B.disks bay.new).may_hold (B.disks bay.new).held slot) }
    ensures ok { OnOk result ((B.disks bay.new).failed_writes ≡ (B.disks bay.old).failed_writes) }
    ensures failed { IfErr result (λ e. HasDesk desks.now e.0 × Rose ((B.disks bay.old).failed_writes e.0) ((B.disks bay.new).failed_writes e.0)) }
    ensures reads { (B.disks bay.new).failed_reads ≡ (B.disks bay.old).failed_reads }
    ensures spends { SpendsOver (B.disks bay.old) (B.disks bay.new) (18 * length desks.now) (4 * length desks.now) }
{
    write_each(bay, desks, 1, &staged.sectors)?;
    sync_each(bay, desks)?;
    let gate = gate_sector(&staged.gate, true);
    write_each(bay, desks, 0, &[gate])?;
    sync_each(bay, desks)?;
    Ok(())
}

/// Writes each cell as it is staged and makes it sure, then closes the gate of each desk and makes that sure. A stop leaves no gate closed
/// before each cell is as it is staged.
///
/// # Errors
/// A write or a sync of the slot of a cell or a desk failed.
pub fn replay<B: Bay>(
    bay: &mut B,
    desks: &[Desk],
    cells: &[StageCell],
    staged: &Staged,
) -> Result<(), DiskFault>
    requires on { AreOn (B.disks bay.old).sizes desks.now }
    requires own { HaveOwnSlots desks.now }
    requires cells_on { CellsAreOn (B.disks bay.old).sizes cells.now }
    requires own_cells { AreOwnCells cells.now }
    requires off { AreOffDesks desks.now cells.now }
    ensures any_moment { B.tells → StopsLeave (B.disks bay.old) (B.disks bay.new) (IsBetween (IsCell cells.now staged.now) (ClosedGates desks.now staged.now) (B.disks bay.old).may_hold) }
    ensures cells { B.tells → OnOk result (IsThere (IsCell cells.now staged.now) (B.disks bay.new).held) }
    ensures gates { B.tells → OnOk result (IsThere (ClosedGates desks.now staged.now) (B.disks bay.new).held) }
    ensures held { B.tells → Mixes (Either (IsCell cells.now staged.now) (ClosedGates desks.now staged.now)) (B.disks bay.old).held (B.disks bay.new).held }
    ensures left { Adds (Either (IsCell cells.now staged.now) (ClosedGates desks.now staged.now)) (B.disks bay.old).may_hold (B.disks bay.new).may_hold }
    ensures settled { B.tells → OnOk result ((slot : ℕ) → HasDesk desks.now slot ⊎ HasCell cells.now slot → IsSettled (B.disks bay.new).may_hold (B.disks bay.new).held slot) }
    ensures ok { OnOk result ((B.disks bay.new).failed_writes ≡ (B.disks bay.old).failed_writes) }
    ensures failed { IfErr result (λ e. (HasDesk desks.now e.0 ⊎ HasCell cells.now e.0) × Rose ((B.disks bay.old).failed_writes e.0) ((B.disks bay.new).failed_writes e.0)) }
    ensures reads { (B.disks bay.new).failed_reads ≡ (B.disks bay.old).failed_reads }
    ensures spends { SpendsOver (B.disks bay.old) (B.disks bay.new) (length cells.now + length desks.now) (length cells.now + length (B.disks bay.old).sizes + 2 * length desks.now) }
{
    write_cells(bay, cells, staged)?;
    sync_cells(bay, cells)?;
    let gate = gate_sector(&staged.gate, false);
    write_each(bay, desks, 0, &[gate])?;
    sync_each(bay, desks)?;
    Ok(())
}
