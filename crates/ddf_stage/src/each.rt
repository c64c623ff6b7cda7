//! The same sectors, written to each desk.
ghost use Rattle.std.specs.Prelude.{◌≡◌, ◌+◌, ◌*◌, ◌<◌, ◌≤◌, ℕ, length, OnOk, IfErr};
ghost use Rattle.ddf_bytes.specs.Counts.{Rose};
ghost use Rattle.ddf_bay.specs.Moments.{IsSettled, Keeps, SpendsOver, StopsLeave};
ghost use Rattle.ddf_bay.specs.Sectors.{IsLeft};
ghost use Rattle.ddf_stage.specs.Desks.{AreOn, HasDesk, HaveOwnSlots, IsOnDesks};
ghost use Rattle.ddf_stage.specs.Staging.{Adds, IsAmong, IsThere, Mixes};

use crate::desk::Desk;
use ddf_bay::{Bay, DiskFault};
use ddf_bytes::Sector;

/// Writes sectors to each desk, so many sectors behind its gate.
pub(crate) fn write_each<B: Bay>(
    bay: &mut B,
    desks: &[Desk],
    offset: u64,
    sectors: &[Sector],
) -> Result<(), DiskFault>
    requires on { AreOn (B.disks bay.old).sizes desks.now }
    requires own { HaveOwnSlots desks.now }
    requires some { 0 < length sectors.now }
    requires few { offset + length sectors.now ≤ 18 }
    ensures there { B.tells → OnOk result (IsThere (IsOnDesks desks.now offset sectors.now) (B.disks bay.new).held) }
    ensures held { B.tells → Mixes (IsOnDesks desks.now offset sectors.now) (B.disks bay.old).held (B.disks bay.new).held }
    ensures left { Adds (IsOnDesks desks.now offset sectors.now) (B.disks bay.old).may_hold (B.disks bay.new).may_hold }
    ensures any_moment { StopsLeave (B.disks bay.old) (B.disks bay.new) (IsAmong (IsOnDesks desks.now offset sectors.now) (B.disks bay.old).may_hold) }
    ensures ok { OnOk result ((B.disks bay.new).failed_writes ≡ (B.disks bay.old).failed_writes) }
    ensures failed { IfErr result (λ e. HasDesk desks.now e.0 × Rose ((B.disks bay.old).failed_writes e.0) ((B.disks bay.new).failed_writes e.0)) }
    ensures reads { (B.disks bay.new).failed_reads ≡ (B.disks bay.old).failed_reads }
    ensures spends { SpendsOver (B.disks bay.old) (B.disks bay.new) (length desks.now * length sectors.now) (length desks.now) }
{
    for desk in desks {
        bay.write_run(desk.slot, desk.lba + offset, sectors)
            .map_err(|_| DiskFault(desk.slot))?;
    }
    Ok(())
}

/// Syncs the slot of each desk.
pub(crate) fn sync_each<B: Bay>(bay: &mut B, desks: &[Desk]) -> Result<(), DiskFault>
    requires { AreOn (B.disks bay.old).sizes desks.now }
    ensures settled { OnOk result ((slot : ℕ) → HasDesk desks.now slot → IsSettled (B.disks bay.new).may_hold (B.disks bay.new).held slot) }
    ensures held { (B.disks bay.new).held ≡ (B.disks bay.old).held }
    ensures left { Keeps (B.disks bay.old).may_hold (B.disks bay.new).may_hold }
    ensures any_moment { StopsLeave (B.disks bay.old) (B.disks bay.new) (IsLeft (B.disks bay.old).may_hold) }
    ensures ok { OnOk result ((B.disks bay.new).failed_writes ≡ (B.disks bay.old).failed_writes) }
    ensures failed { IfErr result (λ e. HasDesk desks.now e.0 × Rose ((B.disks bay.old).failed_writes e.0) ((B.disks bay.new).failed_writes e.0)) }
    ensures reads { (B.disks bay.new).failed_reads ≡ (B.disks bay.old).failed_reads }
    ensures spends { SpendsOver (B.disks bay.old) (B.disks bay.new) 0 (length desks.now) }
{
    for desk in desks {
        bay.sync(desk.slot).map_err(|_| DiskFault(desk.slot))?;
    }
    Ok(())
}
