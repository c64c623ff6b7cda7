//! The rebuild of rows: each gets what the others of its array give. docs/COMMANDS.md#rebuild
ghost use Rattle.std.specs.Prelude.{◌≡◌, ◌⊎◌, ◌≢◌, ◌+◌, ◌-◌, ◌*◌, ◌<◌, ◌≤◌, ◌^◌, ℕ, true, false, min, Some, slice_get, OnOk, IfErr};
ghost use Rattle.ddf_bytes.specs.Counts.{Rose};
ghost use Rattle.ddf_bay.specs.Sectors.{Image, IsLeft};
ghost use Rattle.ddf_bay.specs.Moments.{IsSettled, StopsLeave};
ghost use Rattle.ddf_primary.specs.Cells.{depth_of, height_of};
ghost use Rattle.ddf_array.specs.declared.part.Part.{Part};
ghost use Rattle.ddf_array.specs.declared.place.Place.{Place};
ghost use Rattle.ddf_array.specs.Apart.{IsApart};
ghost use Rattle.ddf_array.specs.Sound.{AreSectors};
ghost use Rattle.ddf_array.specs.Volume.{Fits, IsPart, IsVolume};
ghost use Rattle.ddf_array.specs.Within.{is_within};
ghost use Rattle.ddf_read.specs.Reading.{Failed};
ghost use Rattle.ddf_cells.specs.CellSources.{IsReadable, IsSure, wanted};
ghost use Rattle.ddf_cells.specs.Writing.{AddsBut, AsksFor, IsAmongSectors, IsLeftBut, StaysBut};
ghost use Rattle.ddf_rebuild.specs.Rebuilding.{HasGiven, HasRebuilt, IsRebuildFault, sectors_of};
ghost use Rattle.ddf_rebuild.specs.Sectors.{AreGiven, AreRebuilt, NoneLeftIn};
ghost use Rattle.ddf_rebuild.specs.Target.{IsAim, IsAside, IsOut, IsTarget, IsTargetCell, row_count};

use crate::aim::Aim;
use crate::piece::rebuild_piece;
use ddf_array::{Part, View};
use ddf_bay::Bay;
use ddf_cells::{depth_of, piece_at};
use ddf_read::VolumeFault;
use ddf_repair::Target;

/// Fills the aim's sectors from one on, up to an end. After a failure, the aim's slot, if a write failed, or one at which no
/// source is left.
fn rebuild_sectors<B: Bay>(
    bay: &mut B,
    view: &View,
    aim: Aim,
    from: u64,
    end: u64,
) -> Result<(), usize>
    requires known { IsVolume view.now }
    requires fits { Fits (B.disks bay.old).sizes view.now }
    requires readable { IsReadable view.now }
    requires aside { IsAside (B.disks bay.old).sizes view.now aim.element aim.slot aim.start }
    requires order { from ≤ end }
    requires sectors { (part : Part) → slice_get view.now.parts aim.element ≡ Some part → end ≤ depth_of part.shape }
    ensures rebuilt { B.tells → OnOk result (IsSure view.now (B.disks bay.old) (B.disks bay.new)
        → AreRebuilt view.now aim from end (B.disks bay.old).held (B.disks bay.new).held) }
    ensures given { B.tells → OnOk result (AreGiven (Failed (B.disks bay.old) (B.disks bay.new)) view.now aim from end (B.disks bay.old).held (B.disks bay.new).held) }
    ensures held { B.tells → StaysBut (IsAmongSectors aim.slot (aim.start + from) (end - from)) (B.disks bay.old).held (B.disks bay.new).held }
    ensures left { AddsBut (IsAmongSectors aim.slot (aim.start + from) (end - from)) (B.disks bay.old).may_hold (B.disks bay.new).may_hold }
    ensures any_moment { StopsLeave (B.disks bay.old) (B.disks bay.new) (IsLeftBut (IsAmongSectors aim.slot (aim.start + from) (end - from)) (B.disks bay.old).may_hold) }
    ensures unfailed { OnOk result ((B.disks bay.new).failed_writes ≡ (B.disks bay.old).failed_writes) }
    ensures failed { IfErr result (λ slot. ((slot ≡ aim.slot) × Rose ((B.disks bay.old).failed_writes slot) ((B.disks bay.new).failed_writes slot))
        ⊎ NoneLeftIn (Failed (B.disks bay.old) (B.disks bay.new)) view.now aim from end slot) }
    ensures asks { AsksFor (B.disks bay.old) (B.disks bay.new) (end - from) }
{
    let part = &view.parts()[aim.element];
    let mut sector = from;
    while sector < end {
        let count = piece_at(part, sector, end - sector);
        rebuild_piece(bay, view, aim, sector, count)?;
        sector += count as u64;
    }
    Ok(())
}

/// Fills the aim's sectors from one on, up to an end, and makes them sure. After a failure, the aim's slot, if a write or the
/// sync failed, or one at which no source is left.
pub(crate) fn rebuild_surely<B: Bay>(
    bay: &mut B,
    view: &View,
    aim: Aim,
    from: u64,
    end: u64,
) -> Result<(), usize>
    requires known { IsVolume view.now }
    requires fits { Fits (B.disks bay.old).sizes view.now }
    requires readable { IsReadable view.now }
    requires aside { IsAside (B.disks bay.old).sizes view.now aim.element aim.slot aim.start }
    requires order { from ≤ end }
    requires sectors { (part : Part) → slice_get view.now.parts aim.element ≡ Some part → end ≤ depth_of part.shape }
    ensures rebuilt { B.tells → OnOk result (IsSure view.now (B.disks bay.old) (B.disks bay.new)
        → AreRebuilt view.now aim from end (B.disks bay.old).held (B.disks bay.new).held) }
    ensures given { B.tells → OnOk result (AreGiven (Failed (B.disks bay.old) (B.disks bay.new)) view.now aim from end (B.disks bay.old).held (B.disks bay.new).held) }
    ensures durable { OnOk result (IsSettled (B.disks bay.new).may_hold (B.disks bay.new).held aim.slot) }
    ensures held { B.tells → StaysBut (IsAmongSectors aim.slot (aim.start + from) (end - from)) (B.disks bay.old).held (B.disks bay.new).held }
    ensures left { AddsBut (IsAmongSectors aim.slot (aim.start + from) (end - from)) (B.disks bay.old).may_hold (B.disks bay.new).may_hold }
    ensures any_moment { StopsLeave (B.disks bay.old) (B.disks bay.new) (IsLeftBut (IsAmongSectors aim.slot (aim.start + from) (end - from)) (B.disks bay.old).may_hold) }
    ensures unfailed { OnOk result ((B.disks bay.new).failed_writes ≡ (B.disks bay.old).failed_writes) }
    ensures failed { IfErr result (λ slot. ((slot ≡ aim.slot) × Rose ((B.disks bay.old).failed_writes slot) ((B.disks bay.new).failed_writes slot))
        ⊎ NoneLeftIn (Failed (B.disks bay.old) (B.disks bay.new)) view.now aim from end slot) }
    ensures asks { AsksFor (B.disks bay.old) (B.disks bay.new) (end - from) }
{
    rebuild_sectors(bay, view, aim, from, end)?;
    match bay.sync(aim.slot) {
        Ok(()) => Ok(()),
        Err(_) => Err(aim.slot),
    }
}

/// Where the target lies.
fn aim_at(view: &View, target: &Target) -> Aim
    requires { IsOut view.now target.now.element target.now.position }
    ensures aim { IsAim view.now result }
    ensures element { result.element ≡ target.now.element }
    ensures position { result.position ≡ target.now.position }
    ensures known { IsVolume view.now }
{
    let element = usize::from(target.element);
    let position = usize::from(target.position);
    let place = view.parts()[element].places.items()[position];
    let Some(slot) = place.slot else {
        unreachable!()
    };
    Aim {
        element,
        position,
        slot,
        start: place.start,
    }
}

/// How many rows an element has, a last part of one among them (a row of RAID 1E has two strips): what a rebuild of a
/// position counts to.
pub fn row_count(part: &Part) -> u64
    requires { IsPart part.now }
    ensures { result ≡ row_count part.now.shape }
{
    let height = part.shape.height();
    (depth_of(part) + height - 1) / height
}

/// The first sector of these rows, and the end of the last.
fn sectors_between(part: &Part, from: u64, to: u64) -> (u64, u64)
    requires part { IsPart part.now }
    requires order { from ≤ to }
    requires rows { to ≤ row_count part.now.shape }
    ensures end { result.1 ≡ min (to * height_of part.now.shape) (depth_of part.now.shape) }
    ensures first { result.0 ≡ min (from * height_of part.now.shape) result.1 }
{
    let height = part.shape.height();
    let depth = depth_of(part);
    let end = (to * height).min(depth);
    let first = (from * height).min(end);
    (first, end)
}

/// Writes what a position that is out of sync should hold, in the rows from one on up to another, and makes it sure: the
/// values of blocks, and the exclusive-or of the values of a row's data cells where the position holds parity. A cell that
/// holds no block gets what the others of its row give where the element keeps parity and these are available, else zeros
/// (profile). Where reads fail, a cell is taken from the first of its sources that can be read: each source before that one
/// has a slot of which a read failed in this call. A row is one of strips of the element, in RAID 1E one of two strips,
/// and a last part of one is a row of its own. Nothing else is written, and the position stays out of sync: what it holds
/// counts only once the configuration says so.
///
/// # Errors
/// `Lost` where the array isn't within its level, and then nothing is read or written. `Disk` where a write or the sync of
/// the target's slot failed in this call, or each source of a block that is needed has a slot of which a read failed in
/// this call: it names such a slot of the first.
pub fn rebuild_rows<B: Bay>(
    bay: &mut B,
    view: &View,
    target: &Target,
    from: u64,
    to: u64,
) -> Result<(), VolumeFault>
    requires fits { Fits (B.disks bay.old).sizes view.now }
    requires apart { IsApart view.now }
    requires unmarked { view.now.marked ≡ false }
    requires target { IsOut view.now target.now.element target.now.position }
    requires order { from ≤ to }
    requires rows { (part : Part) → slice_get view.now.parts target.now.element ≡ Some part → to ≤ row_count part.shape }

    // At each moment a stop leaves all but the target's sectors at these rows as it might leave them before.
    ensures any_moment { StopsLeave (B.disks bay.old) (B.disks bay.new) (IsLeftBut (IsTargetCell view.now target.now.element target.now.position from to) (B.disks bay.old).may_hold) }
    ensures left { AddsBut (IsTargetCell view.now target.now.element target.now.position from to) (B.disks bay.old).may_hold (B.disks bay.new).may_hold }
    ensures held { B.tells → StaysBut (IsTargetCell view.now target.now.element target.now.position from to) (B.disks bay.old).held (B.disks bay.new).held }

    // At the end the disks have there what the target should hold, and so has each image that a stop leaves.
    ensures now { B.tells → OnOk result (IsSure view.now (B.disks bay.old) (B.disks bay.new)
        → HasRebuilt view.now target.now.element target.now.position from to (B.disks bay.old).held (B.disks bay.new).held) }
    ensures rebuilt { B.tells → OnOk result (IsSure view.now (B.disks bay.old) (B.disks bay.new) → (image : Image) → IsLeft (B.disks bay.new).may_hold image
        → HasRebuilt view.now target.now.element target.now.position from to (B.disks bay.old).held image) }
    ensures given { B.tells → OnOk result (HasGiven (Failed (B.disks bay.old) (B.disks bay.new)) view.now target.now.element target.now.position from to (B.disks bay.old).held (B.disks bay.new).held) }
    ensures durable { OnOk result ((part : Part) (place : Place) (slot : ℕ) → IsTarget view.now target.now.element target.now.position part place slot
        → IsSettled (B.disks bay.new).may_hold (B.disks bay.new).held slot) }
    ensures settled { B.tells → OnOk result ((slot : ℕ) → IsSettled (B.disks bay.old).may_hold (B.disks bay.old).held slot → IsSettled (B.disks bay.new).may_hold (B.disks bay.new).held slot) }
    ensures ok { OnOk result (is_within view.now ≡ true) }
    ensures unfailed { OnOk result ((B.disks bay.new).failed_writes ≡ (B.disks bay.old).failed_writes) }
    ensures fault { IfErr result (IsRebuildFault (B.disks bay.old) (B.disks bay.new) view.now target.now.element target.now.position from to) }
    ensures asks { (part : Part) → slice_get view.now.parts target.now.element ≡ Some part → AsksFor (B.disks bay.old) (B.disks bay.new) (sectors_of part.shape from to) }
{
    if !view.within() {
        return Err(VolumeFault::Lost);
    }
    let aim = aim_at(view, target);
    let (first, end) = sectors_between(&view.parts()[aim.element], from, to);
    match rebuild_surely(bay, view, aim, first, end) {
        Ok(()) => Ok(()),
        Err(slot) => Err(VolumeFault::Disk(slot)),
    }
}
