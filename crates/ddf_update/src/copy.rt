//! One copy behind its gate: its header open, its sections, its header closed, each made sure before the next. A sync left out, and a stop could
//! leave a closed header over half-written sections. docs/UPDATES.md#behind-a-gate
ghost use Rattle.std.specs.Prelude.{◌≡◌, ◌≢◌, ◌<◌, ◌≤◌, ◌+◌, length, OnOk, IfErr, slice_index};
ghost use Rattle.ddf_bytes.specs.Counts.{Rose};
ghost use Rattle.ddf_bay.specs.Moments.{StopsLeave, SpendsWrites};
ghost use Rattle.ddf_copy.specs.Runs.{AreApart, AreOn, IsInCopy, sector_count};
ghost use Rattle.ddf_update.specs.Gate.{KeepsOutside, StaysOutside, IsGated, IsCopyWritten};

use crate::Gate;
use crate::runs::stage_runs;
use crate::stage::stage;
use ddf_bay::{Bay, DiskFault};
use ddf_copy::Run;
use std::slice;

/// Writes a copy: its open header, its sections, and its closed header, each made sure before the next. A stop at any
/// moment leaves the slot as it might be left before, or the copy's header is open, or the copy stands.
pub(crate) fn write_copy<B: Bay>(
    bay: &mut B,
    slot: usize,
    gate: &Gate,
    runs: &[Run],
) -> Result<(), DiskFault>
    requires slot { slot < length (B.disks bay.old).sizes }
    requires header { gate.now.lba < slice_index (B.disks bay.old).sizes slot }
    requires room { AreOn (slice_index (B.disks bay.old).sizes slot) gate.now.lba runs.now }
    ensures copied { B.tells → AreApart runs.now → OnOk result (IsCopyWritten (B.disks bay.old) (B.disks bay.new) slot gate.now runs.now) }
    ensures held { B.tells → StaysOutside (B.disks bay.old).held (B.disks bay.new).held slot (IsInCopy gate.now.lba runs.now) }
    ensures left { KeepsOutside (B.disks bay.old).may_hold (B.disks bay.new).may_hold slot (IsInCopy gate.now.lba runs.now) }
    ensures any_moment { B.tells → AreApart runs.now → StopsLeave (B.disks bay.old) (B.disks bay.new) (IsGated (B.disks bay.old).may_hold slot gate.now runs.now) }
    ensures ok { OnOk result ((B.disks bay.new).failed_writes ≡ (B.disks bay.old).failed_writes) }
    ensures failed { IfErr result (λ e. (e.0 ≡ slot) × Rose ((B.disks bay.old).failed_writes slot) ((B.disks bay.new).failed_writes slot)) }
    ensures spends { SpendsWrites (B.disks bay.old) (B.disks bay.new) slot (sector_count runs.now + 2) (length runs.now + 5) }
{
    stage(bay, slot, gate.lba, slice::from_ref(&gate.opened))?;
    stage_runs(bay, slot, gate.lba, runs)?;
    stage(bay, slot, gate.lba, slice::from_ref(&gate.closed))?;
    Ok(())
}
