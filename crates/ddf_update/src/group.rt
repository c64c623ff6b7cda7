//! The founding of a group.
ghost use Rattle.std.specs.Prelude.{◌≡◌, ◌<◌, ◌≤◌, ℕ, length, slice_index, OnOk, IfOk, IfErr};
ghost use Rattle.ddf_bytes.specs.Counts.{Rose};
ghost use Rattle.ddf_bay.specs.Moments.{SpendsOver, StopsLeave};
ghost use Rattle.ddf_copy.specs.declared.copy.DiskCopy.{DiskCopy};
ghost use Rattle.ddf_copy.specs.Headers.{IsUnder, anchor_header};
ghost use Rattle.ddf_copy.specs.declared.which.Which.TheVariants.{Secondary};
ghost use Rattle.ddf_update.specs.declared.prepared.Mode.TheVariants.{Found};
ghost use Rattle.ddf_update.specs.Prepared.{IsPrepared, all_calls, all_sectors};
ghost use Rattle.ddf_update.specs.Group.{AreFirst, HaveFirstCopies, IsLeftFoundingAll, IsOneOf, LieOnSlots, MayFoundAll};
ghost use Rattle.ddf_update.specs.NewLayouts.{least_sectors, rows_of};
ghost use Rattle.ddf_update.specs.NewCopies.{new_copy, sizes_of};

use crate::disk::write_disk;
use crate::new_copy::new_copy;
use crate::new_layout::NewLayout;
use crate::prepared::{Mode, Prepared, prepare};
use ddf_bay::{Bay, DiskFault};
use ddf_bytes::{NoMemory, Stamp};
use ddf_copy::Which;
use ddf_header::Revision;
use std::alloc::Global;

/// Makes the first copies of a new group's disks, each a slot and its size in sectors, of a layout and with headers of a revision (profile).
pub fn found(
    alloc: Global,
    disks: &[(usize, u64)],
    layout: NewLayout,
    revision: Revision,
    stamp: &Stamp,
) -> Result<Vec<Prepared>, NoMemory>
    requires few { length disks.now ≤ rows_of layout }
    requires large { (i : ℕ) → i < length disks.now → least_sectors layout ≤ slice_index (sizes_of disks.now) i }
    ensures counted { IfOk result (λ updates. length updates.items ≡ length disks.now) }
    ensures first { IfOk result (λ updates. AreFirst (sizes_of disks.now) (new_copy layout revision stamp.now (sizes_of disks.now)) updates.items) }
{
    let sizes = sizes_of(alloc, disks)?;
    let mut updates = Vec::with_capacity(alloc, sizes.len())?;
    for place in 0..sizes.len() {
        updates.push(first_update(alloc, layout, revision, stamp, &sizes, place)?)?;
    }
    Ok(updates)
}

/// Makes the first copies of the disk at a place.
fn first_update(
    alloc: Global,
    layout: NewLayout,
    revision: Revision,
    stamp: &Stamp,
    sizes: &[u64],
    place: usize,
) -> Result<Prepared, NoMemory>
    requires few { length sizes.now ≤ rows_of layout }
    requires within { place < length sizes.now }
    requires large { (i : ℕ) → i < length sizes.now → least_sectors layout ≤ slice_index sizes.now i }
    ensures prepared { IfOk result (IsPrepared (new_copy layout revision stamp.now sizes.now place) Secondary Found) }
    ensures under { OnOk result (IsUnder (slice_index sizes.now place) (anchor_header (new_copy layout revision stamp.now sizes.now place)) (new_copy layout revision stamp.now sizes.now place)) }
{
    let copy = new_copy(alloc, layout, revision, stamp, sizes, place)?;
    prepare(alloc, &copy, Which::Secondary, Mode::Found)
}

fn sizes_of(alloc: Global, disks: &[(usize, u64)]) -> Result<Vec<u64>, NoMemory>
    ensures { IfOk result (λ sizes. sizes.items ≡ sizes_of disks.now) }
{
    let mut sizes = Vec::with_capacity(alloc, disks.len())?;
    for (_, size) in disks {
        sizes.push(*size)?;
    }
    Ok(sizes)
}

/// Writes the first copies of the disks of a new group, one slot after another. It takes no memory.
pub fn found_disks<B: Bay>(
    bay: &mut B,
    slots: &[usize],
    updates: &[Prepared],
) -> Result<(), DiskFault>
    requires { LieOnSlots (B.disks bay.old).sizes slots.now updates.now }
    ensures any_moment { B.tells → (copy : ℕ → DiskCopy) → MayFoundAll (B.disks bay.old) slots.now copy updates.now
        → StopsLeave (B.disks bay.old) (B.disks bay.new) (IsLeftFoundingAll (B.disks bay.old) slots.now copy) }
    ensures founded { B.tells → (copy : ℕ → DiskCopy) → MayFoundAll (B.disks bay.old) slots.now copy updates.now
        → OnOk result (HaveFirstCopies (B.disks bay.old) (B.disks bay.new) slots.now copy (length slots.now)) }
    ensures reads { (B.disks bay.new).failed_reads ≡ (B.disks bay.old).failed_reads }
    ensures spends { SpendsOver (B.disks bay.old) (B.disks bay.new) (all_sectors updates.now) (all_calls updates.now) }
    ensures ok { OnOk result ((B.disks bay.new).failed_writes ≡ (B.disks bay.old).failed_writes) }
    ensures failed { IfErr result (λ e. IsOneOf slots.now e.0 × Rose ((B.disks bay.old).failed_writes e.0) ((B.disks bay.new).failed_writes e.0)) }
{
    for (place, update) in updates.iter().enumerate() {
        write_disk(bay, slots[place], update)?;
    }
    Ok(())
}
