//! A position of an array is copied into free room of another disk, where it can go on.
ghost use Rattle.std.specs.Prelude.{◌≡◌, ℕ, true, false, Some, slice_get, OnOk, IfErr};
ghost use Rattle.ddf_bay.specs.Sectors.{Image, IsLeft};
ghost use Rattle.ddf_bay.specs.Moments.{IsSettled, StopsLeave};
ghost use Rattle.ddf_primary.specs.Cells.{depth_of};
ghost use Rattle.ddf_array.specs.declared.part.Part.{Part};
ghost use Rattle.ddf_array.specs.Volume.{Fits};
ghost use Rattle.ddf_array.specs.Within.{is_within};
ghost use Rattle.ddf_read.specs.Reading.{Failed};
ghost use Rattle.ddf_cells.specs.CellSources.{IsSure};
ghost use Rattle.ddf_cells.specs.Writing.{AddsBut, AsksFor, IsLeftBut, StaysBut};
ghost use Rattle.ddf_rebuild.specs.Filling.{HoldsGiven, HoldsWanted, IsFillFault, IsFilled};
ghost use Rattle.ddf_rebuild.specs.Target.{IsAside};

use crate::aim::Aim;
use crate::rows::rebuild_surely;
use ddf_array::View;
use ddf_bay::Bay;
use ddf_cells::depth_of;
use ddf_read::VolumeFault;
use ddf_repair::Target;

/// Writes what a position should hold into an extent from a start on, on the disk at a slot, and makes it sure: as far as
/// the positions of its element hold blocks or parity, the values of blocks, and the exclusive-or of the values of a row's
/// data cells where the position holds parity. A cell that holds no block gets what the position itself holds where that is
/// available, else what the others of its row give where the element keeps parity and these are available, else zeros
/// (profile). Where reads fail, a cell is taken from the first of its sources that can be read: each source before that one
/// has a slot of which a read failed in this call. The extent is none of the array's: it is as long as those of the
/// position's element, lies within the disk, and no available position has a sector of it. Nothing else is written, and the
/// position stays where it is: what the extent holds counts only once the configuration says so.
///
/// # Errors
/// `Lost` where the array isn't within its level, and then nothing is read or written. `Disk` where a write or the sync of
/// the extent's slot failed in this call, or each source of a block that is needed has a slot of which a read failed in
/// this call: it names such a slot of the first.
pub fn copyback<B: Bay>(
    bay: &mut B,
    view: &View,
    target: &Target,
    slot: usize,
    start: u64,
) -> Result<(), VolumeFault>
    requires fits { Fits (B.disks bay.old).sizes view.now }
    requires unmarked { view.now.marked ≡ false }
    requires aside { IsAside (B.disks bay.old).sizes view.now target.now.element slot start }

    // At each moment a stop leaves all but the sectors that are filled as it might leave them before.
    ensures any_moment { StopsLeave (B.disks bay.old) (B.disks bay.new) (IsLeftBut (IsFilled view.now target.now.element slot start) (B.disks bay.old).may_hold) }
    ensures left { AddsBut (IsFilled view.now target.now.element slot start) (B.disks bay.old).may_hold (B.disks bay.new).may_hold }
    ensures held { B.tells → StaysBut (IsFilled view.now target.now.element slot start) (B.disks bay.old).held (B.disks bay.new).held }

    // At the end the disks have there what the position should hold, and so has each image that a stop leaves.
    ensures now { B.tells → OnOk result (IsSure view.now (B.disks bay.old) (B.disks bay.new)
        → HoldsWanted view.now target.now.element target.now.position slot start (B.disks bay.old).held (B.disks bay.new).held) }
    ensures filled { B.tells → OnOk result (IsSure view.now (B.disks bay.old) (B.disks bay.new) → (image : Image) → IsLeft (B.disks bay.new).may_hold image
        → HoldsWanted view.now target.now.element target.now.position slot start (B.disks bay.old).held image) }
    ensures given { B.tells → OnOk result (HoldsGiven (Failed (B.disks bay.old) (B.disks bay.new)) view.now target.now.element target.now.position slot start (B.disks bay.old).held (B.disks bay.new).held) }
    ensures durable { OnOk result (IsSettled (B.disks bay.new).may_hold (B.disks bay.new).held slot) }
    ensures settled { B.tells → OnOk result ((other : ℕ) → IsSettled (B.disks bay.old).may_hold (B.disks bay.old).held other → IsSettled (B.disks bay.new).may_hold (B.disks bay.new).held other) }
    ensures ok { OnOk result (is_within view.now ≡ true) }
    ensures unfailed { OnOk result ((B.disks bay.new).failed_writes ≡ (B.disks bay.old).failed_writes) }
    ensures fault { IfErr result (IsFillFault (B.disks bay.old) (B.disks bay.new) view.now target.now.element target.now.position slot) }
    ensures asks { (part : Part) → slice_get view.now.parts target.now.element ≡ Some part → AsksFor (B.disks bay.old) (B.disks bay.new) (depth_of part.shape) }
{
    if !view.within() {
        return Err(VolumeFault::Lost);
    }
    let element = usize::from(target.element);
    let position = usize::from(target.position);
    let aim = Aim {
        element,
        position,
        slot,
        start,
    };
    let depth = depth_of(&view.parts()[element]);
    match rebuild_surely(bay, view, aim, 0, depth) {
        Ok(()) => Ok(()),
        Err(slot) => Err(VolumeFault::Disk(slot)),
    }
}
