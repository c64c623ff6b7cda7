//! One run of sectors, made sure at once.
ghost use Rattle.std.specs.Prelude.{◌≡◌, ◌≢◌, ◌<◌, ◌≤◌, ◌+◌, length, OnOk, IfErr, slice_index};
ghost use Rattle.ddf_bytes.specs.Counts.{Rose};
ghost use Rattle.ddf_bay.specs.Moments.{StopsLeave, SpendsWrites, Adds, Mixes, IsAmong};
ghost use Rattle.ddf_update.specs.Stage.{IsStaged};

use ddf_bay::{Bay, DiskFault};
use ddf_bytes::Sector;

/// Writes sectors from an LBA on, and makes them sure.
pub(crate) fn stage<B: Bay>(
    bay: &mut B,
    slot: usize,
    lba: u64,
    sectors: &[Sector],
) -> Result<(), DiskFault>
    requires slot { slot < length (B.disks bay.old).sizes }
    requires some { 0 < length sectors.now }
    requires room { lba + length sectors.now ≤ slice_index (B.disks bay.old).sizes slot }
    ensures staged { B.tells → OnOk result (IsStaged (B.disks bay.old) (B.disks bay.new) slot lba sectors.now) }
    ensures held { B.tells → Mixes (B.disks bay.old).held (B.disks bay.new).held slot lba sectors.now }
    ensures left { Adds (B.disks bay.old).may_hold (B.disks bay.new).may_hold slot lba sectors.now }
    ensures any_moment { StopsLeave (B.disks bay.old) (B.disks bay.new) (IsAmong (B.disks bay.old).may_hold slot lba sectors.now) }
    ensures ok { OnOk result ((B.disks bay.new).failed_writes ≡ (B.disks bay.old).failed_writes) }
    ensures failed { IfErr result (λ e. (e.0 ≡ slot) × Rose ((B.disks bay.old).failed_writes slot) ((B.disks bay.new).failed_writes slot)) }
    ensures spends { SpendsWrites (B.disks bay.old) (B.disks bay.new) slot (length sectors.now) 2 }
{
    bay.write_run(slot, lba, sectors)
        .map_err(|_| DiskFault(slot))?;
    bay.sync(slot).map_err(|_| DiskFault(slot))?;
    Ok(())
}
