//! The rounds of a rebuild: rows of a position are filled, and then a step of its group is written that tells of them. Told of before they are sure,
//! rows would be read that nobody filled. docs/STOPS.md#the-blocks-of-arrays
ghost use Rattle.std.specs.Prelude.{◌≡◌, ◌≤◌, ◌+◌, ℕ, ◌∷◌, [], length, slice_get, Some, IfErr, OnOk, is_ok};
ghost use Rattle.ddf_cells.specs.Writing.{AsksFor};
ghost use Rattle.ddf_array.specs.declared.part.Part.{Part};
ghost use Rattle.ddf_update.specs.Prepared.{all_sectors};
ghost use Rattle.ddf_rebuild.specs.Rebuilding.{sectors_of};
ghost use Rattle.ddf_recovery.specs.Committed.{left_behind, next_updates};
ghost use Rattle.ddf_group_commands.specs.Costs.{ready_sectors};
ghost use Rattle.ddf_rebuild_command.specs.Costs.{sectors_from};
ghost use Rattle.ddf_rebuild_command.specs.Filled.{AreFilled, CanFill, GoesFilling, IsFillFault, rounds_in};
ghost use Rattle.ddf_rebuild_command.specs.Standing.{Stands};

use crate::planning::Filling;
use crate::stepping::write_step;
use ddf_answer::Failure;
use ddf_assembly::Group;
use ddf_bay::Bay;
use ddf_read_commands::failure_of;
use ddf_rebuild::rebuild_rows;
use ddf_recovery::Ready;

/// Fills the rows of a position from one on up to another, and writes the step that tells of them.
///
/// # Errors
/// `Disk` where a write or a sync of a seat's slot failed, or a read of it, and no source is left of what a row needs.
fn fill_round<B: Bay>(
    group: &mut Group,
    ready: &mut Ready,
    filling: &Filling,
    from: u64,
    row: u64,
    bay: &mut B,
) -> Result<(), Failure>
    requires stands { Stands B.tells (B.disks bay.old) group.old ready.old }
    requires fills { (end : ℕ) × CanFill (B.disks bay.old).sizes group.old.seats filling.now.view filling.now.target end from (row ∷ []) }
    requires many { 1 ≤ length ready.old.steps }
    ensures goes { GoesFilling B.tells (B.disks bay.old) (B.disks bay.new) filling.now.view filling.now.target from (rounds_in (row ∷ []) ready.old.steps) group.old ready.old (is_ok result) }
    ensures filled { OnOk result (AreFilled B.tells (B.disks bay.old) (B.disks bay.new) filling.now.view filling.now.target from (rounds_in (row ∷ []) ready.old.steps) group.old ready.old group.new ready.new) }
    ensures failed { IfErr result (IsFillFault B.tells (B.disks bay.old) (B.disks bay.new) filling.now.view filling.now.target from (rounds_in (row ∷ []) ready.old.steps) group.old ready.old row) }
    ensures left { OnOk result (ready.new ≡ left_behind ready.old) }
    ensures unfailed { OnOk result ((B.disks bay.new).failed_writes ≡ (B.disks bay.old).failed_writes) }
    ensures asks { (part : Part) → slice_get filling.now.view.parts filling.now.target.element ≡ Some part
        → AsksFor (B.disks bay.old) (B.disks bay.new) (sectors_of part.shape from row + all_sectors (next_updates ready.old)) }
{
    match rebuild_rows(bay, &filling.view, &filling.target, from, row) {
        Ok(()) => write_step(group, ready, bay),
        Err(fault) => Err(failure_of(fault)),
    }
}

/// Fills the rows of a position from one on up to each of these, one after another, and writes behind each the step that tells of it.
///
/// # Errors
/// `Disk` where a write or a sync of a seat's slot failed, or a read of it, and no source is left of what a row needs.
pub(crate) fn fill<B: Bay>(
    group: &mut Group,
    ready: &mut Ready,
    filling: &Filling,
    from: u64,
    rows: &[u64],
    bay: &mut B,
) -> Result<(), Failure>
    requires stands { Stands B.tells (B.disks bay.old) group.old ready.old }
    requires fills { (end : ℕ) × CanFill (B.disks bay.old).sizes group.old.seats filling.now.view filling.now.target end from rows.now }
    requires many { length ready.old.steps ≡ length rows.now }
    ensures goes { GoesFilling B.tells (B.disks bay.old) (B.disks bay.new) filling.now.view filling.now.target from (rounds_in rows.now ready.old.steps) group.old ready.old (is_ok result) }
    ensures filled { OnOk result (AreFilled B.tells (B.disks bay.old) (B.disks bay.new) filling.now.view filling.now.target from (rounds_in rows.now ready.old.steps) group.old ready.old group.new ready.new) }
    ensures failed { IfErr result (λ failure. (end : ℕ) → CanFill (B.disks bay.old).sizes group.old.seats filling.now.view filling.now.target end from rows.now
        → IsFillFault B.tells (B.disks bay.old) (B.disks bay.new) filling.now.view filling.now.target from (rounds_in rows.now ready.old.steps) group.old ready.old end failure) }
    ensures unfailed { OnOk result ((B.disks bay.new).failed_writes ≡ (B.disks bay.old).failed_writes) }
    ensures asks { (part : Part) → slice_get filling.now.view.parts filling.now.target.element ≡ Some part
        → AsksFor (B.disks bay.old) (B.disks bay.new) (ready_sectors ready.old.steps + sectors_from part.shape from) }
{
    let Some((row, later)) = rows.split_first() else {
        return Ok(());
    };
    fill_round(group, ready, filling, from, *row, bay)?;
    fill(group, ready, filling, *row, later, bay)
}
