//! Laws of what arrays keep: functions that do nothing, whose contracts are the laws.
ghost use Rattle.std.specs.Prelude.{◌≡◌, ◌⊎◌, ◌+◌, ◌<◌, ℕ, Bool, true, false, List, ◌∷◌, Some, slice_get};
ghost use Rattle.ddf_bytes.specs.Counts.{Rose};
ghost use Rattle.ddf_bay.specs.Sectors.{Image};
ghost use Rattle.ddf_primary.specs.Cells.{depth_of};
ghost use Rattle.ddf_array.specs.declared.part.Part.{Part};
ghost use Rattle.ddf_array.specs.declared.place.Place.{Place};
ghost use Rattle.ddf_array.specs.Apart.{IsApart};
ghost use Rattle.ddf_array.specs.Redundant.{IsRedundant};
ghost use Rattle.ddf_array.specs.Sound.{AreSectors, IsSound};
ghost use Rattle.ddf_array.specs.Sources.{sources};
ghost use Rattle.ddf_array.specs.Volume.{Volume, IsVolume};
ghost use Rattle.ddf_array.specs.Within.{is_redundant, is_within};
ghost use Rattle.ddf_read.specs.Reading.{IsGivenBy};
ghost use Rattle.ddf_cells.specs.CellSources.{wanted};
ghost use Rattle.ddf_cells.specs.Degraded.{is_degraded};
ghost use Rattle.ddf_cells.specs.Writing.{StaysBut};
ghost use Rattle.ddf_write.specs.Writing.{HasWritten, IsLeftByWrite};
ghost use Rattle.ddf_resync.specs.Resyncing.{MayResync};
ghost use Rattle.ddf_rebuild.specs.Filling.{HoldsWanted};
ghost use Rattle.ddf_rebuild.specs.Rebuilding.{HasRebuilt};
ghost use Rattle.ddf_rebuild.specs.Target.{IsOut, IsTargetCell};
ghost use Rattle.ddf_data_array.specs.Allowed.{Allowed, May, any_bytes, while_written, once_written, once_consistent};
ghost use Rattle.ddf_data_array.specs.Changing.{HaveCells, IsConsistentNow, IsRebuilt, IsWritable, ValuesMay, in_sync, noted, with_mark};
ghost use Rattle.ddf_data_array.specs.Fewer.{IsFewer, LeavesParity, LeavesRows};
ghost use Rattle.ddf_data_array.specs.History.{Moment, Keeps, IsHistory};
ghost use Rattle.ddf_data_array.specs.Kept.{IsKeptData};
ghost use Rattle.ddf_data_array.specs.Moved.{HoldsTheSame, IsIdleParity, moved};
ghost use Rattle.ddf_data_array.specs.Rows.{AreAlikeThroughout, AreRowsKept, GoesOnBehind, HasNoRows, IsFirstOut, NoneAbsent};

/// What other sectors hold, as those of records, changes nothing of what an array keeps.
pub fn other_sectors_change_nothing()
    ensures { (is_absent : ℕ → ℕ → Bool) (volume : Volume) (before image : Image) (allowed : Allowed) → IsVolume volume → AreSectors image
        → AreAlikeThroughout volume before image → IsKeptData is_absent volume before allowed → IsKeptData is_absent volume image allowed }
{}

/// An array keeps what it keeps where it has less to read from: where disks are lost, or counted as lost or failed, where a spare takes the
/// place of one, and where the array is marked.
pub fn fewer_places_change_nothing()
    ensures { (absent_before absent_after : ℕ → ℕ → Bool) (before after : Volume) (image : Image) (allowed : Allowed) → IsVolume after
        → IsFewer before after → LeavesParity absent_before absent_after before after → LeavesRows before after
        → IsKeptData absent_before before image allowed → IsKeptData absent_after after image allowed }
{}

/// A position that lies elsewhere, where the same bytes stand, changes nothing of what an array keeps. Parity that tells nothing may differ.
pub fn a_place_that_moves_changes_nothing()
    ensures { (is_absent : ℕ → ℕ → Bool) (volume : Volume) (image : Image) (allowed : Allowed) (element position slot start : ℕ) → IsVolume volume
        → HoldsTheSame volume image element position slot start → IsKeptData is_absent volume image allowed
        → IsKeptData is_absent (moved element position slot start volume) image allowed }
{}

/// An available position of an array that is sound, unmarked and within its level holds what it should, but for parity that tells nothing, where no disk
/// of this element is lacking that a current member has. So an extent that was filled with what the position should hold holds what it holds.
pub fn an_available_position_holds_what_it_should()
    ensures holds { (is_absent : ℕ → ℕ → Bool) (volume : Volume) (image : Image) (element position sector slot : ℕ) (part : Part) (place : Place) → IsVolume volume
        → volume.marked ≡ false → is_within volume ≡ true → NoneAbsent is_absent element → IsSound is_absent volume image
        → slice_get volume.parts element ≡ Some part → slice_get part.places position ≡ Some place → place.synced ≡ true → place.slot ≡ Some slot
        → sector < depth_of part.shape → (image slot (place.start + sector) ≡ wanted volume image element part sector position) ⊎ IsIdleParity volume element part position sector }
    ensures filled { (is_absent : ℕ → ℕ → Bool) (volume : Volume) (image : Image) (element position slot start old : ℕ) (part : Part) (place : Place) → IsVolume volume
        → volume.marked ≡ false → is_within volume ≡ true → NoneAbsent is_absent element → IsSound is_absent volume image
        → slice_get volume.parts element ≡ Some part → slice_get part.places position ≡ Some place → place.synced ≡ true → place.slot ≡ Some old
        → HoldsWanted volume element position slot start image image → HoldsTheSame volume image element position slot start }
{}

/// The mark of an array may be cleared once it is consistent, each block's value is one that the block may have, and the rows that count as rebuilt
/// hold what they should.
pub fn a_consistent_array_needs_no_mark()
    ensures { (is_absent : ℕ → ℕ → Bool) (volume : Volume) (image : Image) (allowed : Allowed) → AreSectors image
        → IsConsistentNow is_absent volume image → AreRowsKept is_absent (with_mark false volume) image → ValuesMay volume image allowed
        → IsKeptData is_absent (with_mark false volume) image allowed }
{}

/// Once an array is consistent, each block is acknowledged with the bytes that it has. Where each block has an available cell they are bytes that
/// it might have before.
pub fn a_consistent_array_counts()
    ensures kept { (is_absent : ℕ → ℕ → Bool) (marked : Bool) (volume : Volume) (image : Image) → AreSectors image
        → IsConsistentNow is_absent volume image → AreRowsKept is_absent (with_mark marked volume) image
        → IsKeptData is_absent (with_mark marked volume) image (once_consistent volume image) }
    ensures counted { (volume : Volume) (image : Image) → ValuesMay volume image (once_consistent volume image) }
    ensures may { (is_absent : ℕ → ℕ → Bool) (volume : Volume) (image : Image) (allowed : Allowed) → IsKeptData is_absent volume image allowed
        → IsRedundant volume image → HaveCells volume → ValuesMay volume image allowed }
{}

/// An array that keeps each block in one place alone is always consistent.
pub fn a_plain_array_is_consistent()
    ensures { (is_absent : ℕ → ℕ → Bool) (volume : Volume) (image : Image) → is_redundant volume ≡ false → IsConsistentNow is_absent volume image }
{}

/// While blocks are written, and after a write that was interrupted, each of them has its old bytes or its new ones, and the others have
/// what they may have. Once they are written they have the new ones.
pub fn a_write_keeps_what_the_array_keeps()
    ensures interrupted { (is_absent : ℕ → ℕ → Bool) (volume : Volume) (start : ℕ) (sectors : List (List ℕ)) (before image : Image) (allowed : Allowed)
        → IsVolume volume → IsApart volume → IsWritable volume → IsKeptData is_absent volume before allowed
        → IsLeftByWrite volume start sectors before image → AreSectors image
        → IsKeptData is_absent volume image (while_written allowed start sectors) }
    ensures done { (is_absent : ℕ → ℕ → Bool) (volume : Volume) (start : ℕ) (sectors : List (List ℕ)) (before image : Image) (allowed : Allowed)
        → IsVolume volume → IsApart volume → IsWritable volume → IsKeptData is_absent volume before allowed
        → IsLeftByWrite volume start sectors before image → AreSectors image → HasWritten volume start sectors ⊥ image
        → IsKeptData is_absent volume image (once_written allowed start sectors) }
{}

/// While an array is resynced, each block has bytes that it may have: what an image becomes is kept, where this image is and the one that was held as
/// the resync began.
pub fn a_resync_keeps_what_the_array_keeps()
    ensures { (is_absent : ℕ → ℕ → Bool) (volume : Volume) (first before image : Image) (allowed : Allowed)
        → IsVolume volume → IsApart volume → IsWritable volume → IsKeptData is_absent volume first allowed → IsKeptData is_absent volume before allowed
        → ((s l : ℕ) → (image s l ≡ before s l) ⊎ MayResync volume (Unit {0}) first s l (image s l)) → AreSectors image
        → IsKeptData is_absent volume image allowed }
{}

/// A rebuild under way changes nothing of what an array keeps, where it goes on behind the rows that count as rebuilt.
pub fn a_rebuild_keeps_what_the_array_keeps()
    ensures { (is_absent : ℕ → ℕ → Bool) (volume : Volume) (element position from to : ℕ) (before image : Image) (allowed : Allowed)
        → IsVolume volume → IsApart volume → AreSectors image → GoesOnBehind volume element position from
        → StaysBut (IsTargetCell volume element position from to) before image → IsKeptData is_absent volume before allowed
        → IsKeptData is_absent volume image allowed }
{}

/// Rows of a position that are set may count as rebuilt, and no others of its element do then: of the first position of the element that is out of sync,
/// where the element keeps parity.
pub fn rows_that_are_set_may_count()
    ensures { (is_absent : ℕ → ℕ → Bool) (volume : Volume) (image : Image) (allowed : Allowed) (element position row : ℕ) → IsVolume volume
        → IsFirstOut volume element position → HasRebuilt volume element position 0 row image image → IsKeptData is_absent volume image allowed
        → IsKeptData is_absent (noted element position row volume) image allowed }
{}

/// Where a rebuild sets rows behind those that are set, all of them are.
pub fn rows_behind_others_are_set()
    ensures { (volume : Volume) (element position from to : ℕ) (before image : Image) → IsVolume volume → IsApart volume
        → StaysBut (IsTargetCell volume element position from to) before image → HasRebuilt volume element position 0 from before before
        → HasRebuilt volume element position from to before image → HasRebuilt volume element position 0 to image image }
{}

/// Where no rows count as rebuilt, those that count hold what they should.
pub fn an_array_without_rows_keeps_them()
    ensures { (is_absent : ℕ → ℕ → Bool) (volume : Volume) (image : Image) → HasNoRows volume → AreRowsKept is_absent volume image }
{}

/// A position may be in sync again once all its rows hold what they should, where the array is unmarked and within its level, and lacks no disk of this
/// element that a current member has. Where the element keeps parity, it is the first that is out of sync.
pub fn a_rebuilt_position_may_be_in_sync()
    ensures { (is_absent : ℕ → ℕ → Bool) (volume : Volume) (image : Image) (allowed : Allowed) (element position : ℕ) → IsVolume volume
        → volume.marked ≡ false → is_within volume ≡ true → IsOut volume element position → NoneAbsent is_absent element
        → IsFirstOut volume element position → IsRebuilt volume element position image → IsKeptData is_absent volume image allowed
        → IsKeptData is_absent (in_sync element position volume) image allowed }
{}

/// Where an array is within its level, and no element that keeps parity lacks a position, each block has an available cell; and to be consistent the
/// array has but to be redundant, as a resync and a scrub tell.
pub fn a_whole_array_is_consistent_once_redundant()
    ensures cells { (volume : Volume) → IsVolume volume → is_within volume ≡ true → is_degraded volume ≡ false → HaveCells volume }
    ensures consistent { (is_absent : ℕ → ℕ → Bool) (volume : Volume) (image : Image) → is_degraded volume ≡ false → IsRedundant volume image
        → IsConsistentNow is_absent volume image }
{}

/// What a read gives of a block is something that the block may have, whichever reads fail on the way.
pub fn a_read_gives_what_a_block_may_have()
    ensures { (old new : ℕ → ℕ) (is_absent : ℕ → ℕ → Bool) (volume : Volume) (image : Image) (allowed : Allowed) (block : ℕ) (bytes : List ℕ)
        → IsKeptData is_absent volume image allowed → IsGivenBy (λ slot. Rose (old slot) (new slot)) image (sources volume block) bytes → May (allowed block) bytes }
{}

/// Whatever happens to an array, it keeps what it keeps, at every moment: a read gives of each block the bytes of its last acknowledged write,
/// and of one whose write was interrupted the old or the new ones.
pub fn an_array_keeps_its_data_at_every_moment()
    ensures keeps { (start : Moment) (rest : List Moment) → IsHistory start rest → Keeps start → (k : ℕ) (moment : Moment)
        → slice_get (start ∷ rest) k ≡ Some moment → Keeps moment }
    ensures reads { (start : Moment) (rest : List Moment) → IsHistory start rest → Keeps start → (k : ℕ) (moment : Moment)
        → slice_get (start ∷ rest) k ≡ Some moment → (old new : ℕ → ℕ) (block : ℕ) (bytes : List ℕ)
        → IsGivenBy (λ slot. Rose (old slot) (new slot)) moment.image (sources moment.volume block) bytes → May (moment.allowed block) bytes }
{}

/// Where an array is marked, or keeps each block in one place alone, its blocks may have whatever its disks hold.
pub fn whatever_a_new_array_holds_is_any_bytes()
    ensures { (is_absent : ℕ → ℕ → Bool) (volume : Volume) (image : Image) → AreSectors image → IsWritable volume
        → IsKeptData is_absent volume image any_bytes }
{}
