//! Laws of what writes leave: functions that do nothing, whose contracts are the laws.
ghost use Rattle.std.specs.Prelude.{◌≡◌, ◌≢◌, ◌⊎◌, ◌+◌, ◌<◌, ℕ, Bool, List, [], Some, false, length, slice_get, slice_index_or, true};
ghost use Rattle.ddf_bay.specs.Sectors.{Image, IsLeft};
ghost use Rattle.ddf_bay.specs.Moments.{IsSettled};
ghost use Rattle.ddf_array.specs.declared.site.Site.{Site};
ghost use Rattle.ddf_array.specs.Redundant.{IsRedundant};
ghost use Rattle.ddf_array.specs.Sound.{AreSectors, IsSound};
ghost use Rattle.ddf_array.specs.Sources.{copies};
ghost use Rattle.ddf_array.specs.Values.{bytes_at, value};
ghost use Rattle.ddf_array.specs.Volume.{Fits, Volume, IsVolume, volume, capacity};
ghost use Rattle.ddf_cells.specs.CellsOn.{copy_cells, write_cells};
ghost use Rattle.ddf_array.specs.Within.{is_within};
ghost use Rattle.ddf_read.specs.Reading.{Failed, IsOn};
ghost use Rattle.ddf_cells.specs.Degraded.{is_degraded};
ghost use Rattle.ddf_array.specs.Apart.{IsApart};
ghost use Rattle.ddf_write.specs.Beside.{AreOnOwnDisks, NoneLeftBeside};
ghost use Rattle.ddf_write.specs.WriteRefused.{IsStopped};
ghost use Rattle.ddf_write.specs.Writing.{HasWritten, IsAmongWrites, IsLeftByWrite};

use ddf_bay::Bay;

/// A write that sets its blocks and the parity of the rows that they touch leaves a redundant array redundant.
pub fn a_write_keeps_an_array_redundant()
    ensures { (volume : Volume) (start : ℕ) (sectors : List (List ℕ)) (before after : Image) → IsVolume volume → IsApart volume
        → is_degraded volume ≡ false → AreSectors after → IsRedundant volume before → IsLeftByWrite volume start sectors before after
        → HasWritten volume start sectors Unit after → IsRedundant volume after }
{}

/// The sectors that a write sets at its blocks' cells are the available cells of its blocks.
pub fn a_write_sets_the_cells_of_its_blocks()
    ensures { (volume : Volume) (start count : ℕ) → IsVolume volume
        → write_cells volume start count ≡ copy_cells volume start count }
{}

/// Whether an array is redundant doesn't depend on its mark.
pub fn the_mark_is_no_part_of_redundancy()
    ensures { (array : Volume) (image : Image) (marked : Bool) → IsRedundant array image → IsRedundant (volume marked array.tiers array.parts) image }
{}

/// Where nothing is pending on the slots of an array, what is written stands in every image that a stop may leave.
pub fn a_settled_write_is_in_every_image<B: Bay>(bay: &B)
    ensures cells { (volume : Volume) (start : ℕ) (sectors : List (List ℕ)) (image : Image) → IsVolume volume → IsApart volume
        → is_degraded volume ≡ false → ((slot : ℕ) → IsOn volume slot → IsSettled (B.disks bay.now).may_hold (B.disks bay.now).held slot) → IsLeft (B.disks bay.now).may_hold image
        → HasWritten volume start sectors ⊥ (B.disks bay.now).held → HasWritten volume start sectors ⊥ image }
    ensures parity { (volume : Volume) (start : ℕ) (sectors : List (List ℕ)) (image : Image) → IsVolume volume → IsApart volume
        → is_degraded volume ≡ false → ((slot : ℕ) → IsOn volume slot → IsSettled (B.disks bay.now).may_hold (B.disks bay.now).held slot) → IsLeft (B.disks bay.now).may_hold image
        → HasWritten volume start sectors Unit (B.disks bay.now).held → HasWritten volume start sectors Unit image }
{}

/// An image that a stop leaves while blocks are written comes from one that it might leave before, in which at most the
/// blocks' cells and parity cells of the rows that they touch are others.
pub fn a_stop_in_a_write_has_an_image_before<B: Bay>(bay: &B)
    ensures { (volume : Volume) (start : ℕ) (sectors : List (List ℕ)) (image : Image) → (B.disks bay.now).tells_left
        → IsAmongWrites volume start sectors (B.disks bay.now).may_hold image
        → (before : Image) × IsLeft (B.disks bay.now).may_hold before × IsLeftByWrite volume start sectors before image }
{}

/// On the way each available cell of a block that is written has its old or its new bytes, and that of another block its old
/// ones.
// promise:cells
pub fn a_write_leaves_old_or_new()
    ensures written { (volume : Volume) (start k i : ℕ) (sectors : List (List ℕ)) (before after : Image) (one : Site) → IsVolume volume → IsApart volume
        → IsLeftByWrite volume start sectors before after → slice_get (copies volume (start + k)) i ≡ Some one
        → (bytes_at after one ≡ bytes_at before one) ⊎ (bytes_at after one ≡ slice_index_or sectors k []) }
    ensures others { (volume : Volume) (start block i : ℕ) (sectors : List (List ℕ)) (before after : Image) (one : Site) → IsVolume volume → IsApart volume
        → IsLeftByWrite volume start sectors before after → ((k : ℕ) → k < length sectors → block ≢ start + k) → slice_get (copies volume block) i ≡ Some one
        → bytes_at after one ≡ bytes_at before one }
{}

/// Each block of an array that can be written has an available cell.
pub fn a_block_that_can_be_written_has_a_cell()
    ensures { (volume : Volume) (block : ℕ) → IsVolume volume → is_degraded volume ≡ false → is_within volume ≡ true → block < capacity volume
        → (i : ℕ) × ((one : Site) × (slice_get (copies volume block) i ≡ Some one)) }
{}

/// A block that is written, and has an available cell, has its bytes as value; another one keeps its value on the way and afterwards.
pub fn a_write_gives_values()
    ensures written { (volume : Volume) (start k i : ℕ) (sectors : List (List ℕ)) (image : Image) (one : Site) → HasWritten volume start sectors ⊥ image
        → k < length sectors → slice_get (copies volume (start + k)) i ≡ Some one → value volume image (start + k) ≡ Some (slice_index_or sectors k []) }
    ensures others { (volume : Volume) (start block i : ℕ) (sectors : List (List ℕ)) (before after : Image) (one : Site) → IsVolume volume → IsApart volume
        → IsLeftByWrite volume start sectors before after → ((k : ℕ) → k < length sectors → block ≢ start + k) → slice_get (copies volume block) i ≡ Some one
        → value volume after block ≡ value volume before block }
{}

/// A disk that a fault of a write names is one of the array's available places, and of the bay.
pub fn a_fault_of_a_write_names_a_disk_of_the_array<B: Bay>(old: &B, new: &B)
    ensures on { (volume : Volume) (start count slot : ℕ) → IsVolume volume → IsStopped (B.disks old.now) (B.disks new.now) volume start count slot → IsOn volume slot }
    ensures there { (volume : Volume) (start count slot : ℕ) → IsVolume volume → Fits (B.disks old.now).sizes volume
        → IsStopped (B.disks old.now) (B.disks new.now) volume start count slot → slot < length (B.disks old.now).sizes }
{}

/// A look at what lies beside blocks finds no source left of a cell only where reads of two disks failed: that which it names, and another. So no single
/// disk ends a look, however many of its sectors can't be read. The array lacks no position of an element that keeps parity, and has no
/// two of them on one disk.
pub fn a_look_ends_only_where_two_disks_failed<B: Bay>(old: &B, new: &B)
    ensures { (volume : Volume) (start count slot : ℕ) → IsVolume volume → is_degraded volume ≡ false → AreOnOwnDisks volume
        → NoneLeftBeside (Failed (B.disks old.now) (B.disks new.now)) volume start count slot
        → Failed (B.disks old.now) (B.disks new.now) slot × ((other : ℕ) × (Failed (B.disks old.now) (B.disks new.now) other × (other ≢ slot))) }
{}

/// A redundant array of which no element that keeps parity lacks a position is sound, whatever its mark.
pub fn a_whole_array_is_sound()
    ensures { (is_absent : ℕ → ℕ → Bool) (array : Volume) (marked : Bool) (image : Image) → is_degraded array ≡ false → AreSectors image → IsRedundant array image
        → IsSound is_absent (volume marked array.tiers array.parts) image }
{}
