//! A bay in health: where room is enough, a call that knows only the trait doesn't fail.
ghost use Rattle.std.specs.Prelude.{◌≡◌, ◌<◌, ◌≤◌, ◌+◌, ◌-◌, ◌^◌, ℕ, Ok};
ghost use Rattle.ddf_bay.specs.Memory.{IsHealthy, disks_of, state_of};
ghost use Rattle.ddf_update.specs.Group.{LieOnSlots};
ghost use Rattle.ddf_update.specs.Prepared.{all_sectors};

use ddf_bay::{DiskFault, MemoryBay};
use ddf_update::{Prepared, write_disks};

/// Updates of several disks, over a bay in memory without failing calls that has room for their sectors beside those that it
/// was asked for before. It can't fail, and the bay stays in health.
pub fn write_in_health(
    bay: &mut MemoryBay,
    slots: &[usize],
    updates: &[Prepared],
) -> Result<(), DiskFault>
    requires lie { LieOnSlots (disks_of bay.old).sizes slots.now updates.now }
    requires healthy { IsHealthy (state_of bay.old) }
    requires below { (s : ℕ) → (disks_of bay.old).failed_writes s < 2 ^ 64 - 1 }
    requires room { (state_of bay.old).asked + all_sectors updates.now ≤ (state_of bay.old).room + (state_of bay.old).written }
    ensures good { result ≡ Ok tt }
    ensures still { IsHealthy (state_of bay.new) }
{
    write_disks(bay, slots, updates)
}
