//! Laws of what a scrub compares and of what a resync leaves: functions that do nothing, whose contracts are the laws.
ghost use Rattle.std.specs.Prelude.{◌≡◌, ◌⊎◌, ◌<◌, ◌≤◌, ℕ, Some, length, slice_get};
ghost use Rattle.ddf_bay.specs.Moments.{IsSettled};
ghost use Rattle.ddf_bay.specs.Sectors.{Image, IsLeft};
ghost use Rattle.ddf_primary.specs.Cells.{depth_of};
ghost use Rattle.ddf_array.specs.declared.part.Part.{Part};
ghost use Rattle.ddf_array.specs.declared.site.Site.{Site};
ghost use Rattle.ddf_array.specs.Apart.{IsApart};
ghost use Rattle.ddf_array.specs.Redundant.{IsRedundant};
ghost use Rattle.ddf_array.specs.Sound.{AreSectors};
ghost use Rattle.ddf_array.specs.Sources.{copies, first_copy};
ghost use Rattle.ddf_array.specs.Values.{bytes_at};
ghost use Rattle.ddf_array.specs.Volume.{Fits, IsVolume, Volume};
ghost use Rattle.ddf_read.specs.Reading.{Failed, IsOn};
ghost use Rattle.ddf_resync.specs.Agreeing.{Agrees};
ghost use Rattle.ddf_resync.specs.Resyncing.{HasResynced, IsAmongResynced, IsHeld, IsLeftByResync, IsStopped, MayResync};
ghost use Rattle.ddf_resync.specs.Several.{extent_sectors, resync_sectors};

use ddf_bay::Bay;

/// An array is redundant where it agrees at every sector of its elements, and only there.
pub fn agreeing_is_redundant()
    ensures redundant { (volume : Volume) (image : Image) → IsVolume volume → AreSectors image
        → ((element sector : ℕ) (part : Part) → slice_get volume.parts element ≡ Some part → sector < depth_of part.shape → Agrees volume image element part sector)
        → IsRedundant volume image }
    ensures agrees { (volume : Volume) (image : Image) → IsVolume volume → IsRedundant volume image
        → (element sector : ℕ) (part : Part) → slice_get volume.parts element ≡ Some part → sector < depth_of part.shape → Agrees volume image element part sector }
{}

/// On the way, each available cell of a block has bytes that one of the block's available cells held before. Where the
/// array was redundant these are its own, so that only cells of parity change.
pub fn a_resync_leaves_bytes_of_copies()
    ensures taken { (volume : Volume) (block i : ℕ) (before after : Image) (one : Site) → IsVolume volume → IsApart volume
        → IsLeftByResync volume (Unit {0}) before after → slice_get (copies volume block) i ≡ Some one → IsHeld volume before block (bytes_at after one) }
    ensures same { (volume : Volume) (block i : ℕ) (before after : Image) (one : Site) → IsVolume volume → IsApart volume
        → IsLeftByResync volume (Unit {0}) before after → IsRedundant volume before → slice_get (copies volume block) i ≡ Some one → bytes_at after one ≡ bytes_at before one }
{}

/// An image that a stop leaves while an array is resynced comes from one that it might leave before, in which at most
/// cells of blocks and of parity are others.
pub fn a_stop_in_a_resync_has_an_image_before<B: Bay>(bay: &B)
    ensures { (volume : Volume) (first image : Image) → (B.disks bay.now).tells_left
        → IsAmongResynced volume B.tells first (B.disks bay.now).may_hold image
        → (before : Image) × IsLeft (B.disks bay.now).may_hold before × ((s l : ℕ) → (image s l ≡ before s l) ⊎ MayResync volume B.tells first s l (image s l)) }
{}

/// At its end each available cell of a block has bytes that one of the block's available cells held before; those of the
/// first, where no read failed on the slot of that one.
// promise:copied
pub fn a_resync_takes_the_first_copy<B: Bay>(old: &B, new: &B)
    ensures held { (volume : Volume) (block i : ℕ) (before after : Image) (one : Site) → HasResynced (Failed (B.disks old.now) (B.disks new.now)) volume before after
        → slice_get (copies volume block) i ≡ Some one → IsHeld volume before block (bytes_at after one) }
    ensures first { (volume : Volume) (block i : ℕ) (before after : Image) (one first : Site) → HasResynced (Failed (B.disks old.now) (B.disks new.now)) volume before after
        → slice_get (copies volume block) i ≡ Some one → first_copy volume block ≡ Some first → (Failed (B.disks old.now) (B.disks new.now) first.slot → ⊥) → bytes_at after one ≡ bytes_at before first }
{}

/// A disk that a fault of a resync names is one of the array's available places, and of the bay.
pub fn a_fault_of_a_resync_names_a_disk_of_the_array<B: Bay>(old: &B, new: &B)
    ensures on { (volume : Volume) (slot : ℕ) → IsVolume volume → IsStopped (B.disks old.now) (B.disks new.now) volume slot → IsOn volume slot }
    ensures there { (volume : Volume) (slot : ℕ) → IsVolume volume → Fits (B.disks old.now).sizes volume
        → IsStopped (B.disks old.now) (B.disks new.now) volume slot → slot < length (B.disks old.now).sizes }
{}

/// Where nothing is pending on the slots of an array, it is resynced in every image that a stop may leave.
pub fn a_settled_resync_is_in_every_image<B: Bay>(old: &B, new: &B)
    ensures { (volume : Volume) (before image : Image) → IsVolume volume → (B.disks new.now).tells_left
        → ((slot : ℕ) → IsOn volume slot → IsSettled (B.disks new.now).may_hold (B.disks new.now).held slot) → IsLeft (B.disks new.now).may_hold image
        → HasResynced (Failed (B.disks old.now) (B.disks new.now)) volume before (B.disks new.now).held → HasResynced (Failed (B.disks old.now) (B.disks new.now)) volume before image }
{}

/// The sectors that a resync sets are sectors of the array's extents, each of them once.
pub fn a_resync_sets_sectors_of_extents()
    ensures { (volume : Volume) → IsVolume volume → resync_sectors volume ≤ extent_sectors volume }
{}
