//! The runs of a copy, one after another.
ghost use Rattle.std.specs.Prelude.{◌≡◌, ◌≢◌, ◌<◌, ◌≤◌, ◌+◌, length, OnOk, IfErr, slice_index};
ghost use Rattle.ddf_bytes.specs.Counts.{Rose};
ghost use Rattle.ddf_bay.specs.Moments.{StopsLeave, SpendsWrites};
ghost use Rattle.ddf_copy.specs.Runs.{put_runs, sector_count, AreOn};
ghost use Rattle.ddf_update.specs.Stage.{AddsRuns, MixesRuns, IsAmongRuns, AreStaged};

use ddf_bay::{Bay, DiskFault};
use ddf_copy::Run;

/// Writes runs behind an LBA, each in one call. They aren't sure before the next good sync.
pub(crate) fn write_runs<B: Bay>(
    bay: &mut B,
    slot: usize,
    lba: u64,
    runs: &[Run],
) -> Result<(), DiskFault>
    requires slot { slot < length (B.disks bay.old).sizes }
    requires room { AreOn (slice_index (B.disks bay.old).sizes slot) lba runs.now }
    ensures written { B.tells → OnOk result ((B.disks bay.new).held ≡ put_runs (B.disks bay.old).held slot lba runs.now) }
    ensures held { B.tells → MixesRuns (B.disks bay.old).held (B.disks bay.new).held slot lba runs.now }
    ensures left { AddsRuns (B.disks bay.old).may_hold (B.disks bay.new).may_hold slot lba runs.now }
    ensures any_moment { StopsLeave (B.disks bay.old) (B.disks bay.new) (IsAmongRuns (B.disks bay.old).may_hold slot lba runs.now) }
    ensures ok { OnOk result ((B.disks bay.new).failed_writes ≡ (B.disks bay.old).failed_writes) }
    ensures failed { IfErr result (λ e. (e.0 ≡ slot) × Rose ((B.disks bay.old).failed_writes slot) ((B.disks bay.new).failed_writes slot)) }
    ensures spends { SpendsWrites (B.disks bay.old) (B.disks bay.new) slot (sector_count runs.now) (length runs.now) }
{
    for run in runs {
        let at = lba + u64::from(run.offset);
        bay.write_run(slot, at, run.sectors.items())
            .map_err(|_| DiskFault(slot))?;
    }
    Ok(())
}

/// Writes runs behind an LBA, and makes them sure.
pub(crate) fn stage_runs<B: Bay>(
    bay: &mut B,
    slot: usize,
    lba: u64,
    runs: &[Run],
) -> Result<(), DiskFault>
    requires slot { slot < length (B.disks bay.old).sizes }
    requires room { AreOn (slice_index (B.disks bay.old).sizes slot) lba runs.now }
    ensures staged { B.tells → OnOk result (AreStaged (B.disks bay.old) (B.disks bay.new) slot lba runs.now) }
    ensures held { B.tells → MixesRuns (B.disks bay.old).held (B.disks bay.new).held slot lba runs.now }
    ensures left { AddsRuns (B.disks bay.old).may_hold (B.disks bay.new).may_hold slot lba runs.now }
    ensures any_moment { StopsLeave (B.disks bay.old) (B.disks bay.new) (IsAmongRuns (B.disks bay.old).may_hold slot lba runs.now) }
    ensures ok { OnOk result ((B.disks bay.new).failed_writes ≡ (B.disks bay.old).failed_writes) }
    ensures failed { IfErr result (λ e. (e.0 ≡ slot) × Rose ((B.disks bay.old).failed_writes slot) ((B.disks bay.new).failed_writes slot)) }
    ensures spends { SpendsWrites (B.disks bay.old) (B.disks bay.new) slot (sector_count runs.now) (length runs.now + 1) }
{
    write_runs(bay, slot, lba, runs)?;
    bay.sync(slot).map_err(|_| DiskFault(slot))?;
    Ok(())
}
