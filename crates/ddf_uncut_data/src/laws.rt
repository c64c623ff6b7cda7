//! Laws of what the blocks of an array have: functions that do nothing, whose contracts are the laws.
ghost use Rattle.std.specs.Prelude.{◌≡◌, ◌≢◌, ◌<◌, ◌≤◌, ℕ, Bool, true, false, List, [], ◌∷◌, Some, map, length, slice_get};
ghost use Rattle.std.specs.List.{range_with_len};
ghost use Rattle.ddf_bytes.specs.Counts.{Rose};
ghost use Rattle.ddf_bay.specs.Sectors.{Image};
ghost use Rattle.ddf_parity.specs.Xor.{zeros};
ghost use Rattle.ddf_array.specs.declared.part.Part.{Part};
ghost use Rattle.ddf_array.specs.declared.place.Place.{Place};
ghost use Rattle.ddf_array.specs.Apart.{IsApart};
ghost use Rattle.ddf_array.specs.Levels.{keeps_parity};
ghost use Rattle.ddf_array.specs.Places.{is_available};
ghost use Rattle.ddf_array.specs.Redundant.{IsRedundant};
ghost use Rattle.ddf_array.specs.Sound.{AreSectors};
ghost use Rattle.ddf_array.specs.Values.{value};
ghost use Rattle.ddf_array.specs.Volume.{Volume, IsVolume, capacity};
ghost use Rattle.ddf_array.specs.Within.{is_mirrored, is_within};
ghost use Rattle.ddf_read.specs.Given.{AreGiven, AreValues};
ghost use Rattle.ddf_read.specs.Reading.{Failed, IsOn};
ghost use Rattle.ddf_cells.specs.Writing.{StaysBut};
ghost use Rattle.ddf_write.specs.RowWrites.{IsSure};
ghost use Rattle.ddf_write.specs.Writing.{HasWritten, IsLeftByWrite};
ghost use Rattle.ddf_resync.specs.declared.outcome.Scrub.{Scrub};
ghost use Rattle.ddf_resync.specs.declared.outcome.Scrub.TheVariants.{Clean};
ghost use Rattle.ddf_resync.specs.Resyncing.{HasResynced};
ghost use Rattle.ddf_resync.specs.Scrubbing.{IsScrubbed};
ghost use Rattle.ddf_repair.specs.declared.first.Target.{Target};
ghost use Rattle.ddf_rebuild.specs.Rebuilding.{HasRebuilt};
ghost use Rattle.ddf_rebuild.specs.Target.{IsOut, IsTargetCell, row_count};
ghost use Rattle.ddf_data_array.specs.Changing.{IsWritable, in_sync, noted, with_mark};
ghost use Rattle.ddf_data_array.specs.Fewer.{IsFewer, LeavesRows};
ghost use Rattle.ddf_data_array.specs.Rows.{AreAlikeThroughout, GoesOnBehind, HasNoRows, IsFirstOut};
ghost use Rattle.ddf_data_group.specs.Clear.{IsItsCell};
ghost use Rattle.ddf_seats.specs.Group.{GroupValue};
ghost use Rattle.ddf_steps.specs.Steps.{Step};
ghost use Rattle.ddf_answer.specs.Call.{work_of};
ghost use Rattle.ddf_group_commands.specs.Written.{AreWritten};
ghost use Rattle.ddf_write_commands.specs.Resync.{resyncing};
ghost use Rattle.ddf_write_commands.specs.Worked.{AreBlocksDone};
ghost use Rattle.ddf_write_commands.specs.Write.{writing};
ghost use Rattle.ddf_rebuild_command.specs.Planned.{IsPlanned, first_row};
ghost use Rattle.ddf_rebuild_command.specs.Rebuilt.{AreRoundsDone};
ghost use Rattle.ddf_rebuild_command.specs.Rounds.{AreRounds, Round, row_before};
ghost use Rattle.ddf_uncut_data.specs.Aside.{LieAside};
ghost use Rattle.ddf_uncut_data.specs.Beside.{IsBeside};
ghost use Rattle.ddf_uncut_data.specs.Blank.{IsBlank};
ghost use Rattle.ddf_uncut_data.specs.Blocks.{HoldsBlocks, held_blocks, with_sectors};
ghost use Rattle.ddf_uncut_data.specs.Going.{GoOn};
ghost use Rattle.ddf_uncut_data.specs.Replaced.{with_place};
ghost use Rattle.ddf_uncut_data.specs.Whole.{IsWhole, IsWholeBut};

use ddf_bay::Bay;

/// A read gives the bytes that the blocks have, whichever reads of disks fail on the way.
pub fn a_read_gives_the_blocks()
    ensures values { (volume : Volume) (image : Image) (blocks : ℕ → List ℕ) (start : ℕ) (sectors : List (List ℕ)) → HoldsBlocks volume image blocks
        → AreValues image volume start (length sectors) sectors → sectors ≡ map blocks (range_with_len start (length sectors)) }
    ensures given { (old new : ℕ → ℕ) (volume : Volume) (image : Image) (blocks : ℕ → List ℕ) (start : ℕ) (sectors : List (List ℕ)) → HoldsBlocks volume image blocks
        → AreGiven (λ slot. Rose (old slot) (new slot)) image volume start (length sectors) sectors → sectors ≡ map blocks (range_with_len start (length sectors)) }
{}

/// Each block has its bytes as value. What is said of blocks past the last one doesn't count.
pub fn blocks_are_values()
    ensures value { (volume : Volume) (image : Image) (blocks : ℕ → List ℕ) → HoldsBlocks volume image blocks → (block : ℕ) → block < capacity volume
        → value volume image block ≡ Some (blocks block) }
    ensures equal { (volume : Volume) (image : Image) (blocks other : ℕ → List ℕ) → ((block : ℕ) → block < capacity volume → other block ≡ blocks block)
        → HoldsBlocks volume image blocks → HoldsBlocks volume image other }
{}

/// The copies and the parity of an array whose blocks have their bytes agree, so that a scrub finds it clean.
pub fn a_scrub_of_agreeing_blocks_is_clean()
    ensures redundant { (volume : Volume) (image : Image) (blocks : ℕ → List ℕ) → HoldsBlocks volume image blocks → IsRedundant volume image }
    ensures clean { (volume : Volume) (image : Image) (blocks : ℕ → List ℕ) (found : Scrub) → HoldsBlocks volume image blocks → IsScrubbed volume image found → found ≡ Clean }
{}

/// What other sectors hold, as those of records, changes nothing of the blocks; nor does a slot that is none of the array's, as that of a disk which was lost.
pub fn other_sectors_leave_the_blocks()
    ensures sectors { (volume : Volume) (before image : Image) (blocks : ℕ → List ℕ) → AreSectors image → AreAlikeThroughout volume before image
        → HoldsBlocks volume before blocks → HoldsBlocks volume image blocks }
    ensures slot { (volume : Volume) (gone : ℕ) (before image : Image) (blocks : ℕ → List ℕ) → AreSectors image
        → IsBeside volume gone → ((slot lba : ℕ) → slot ≢ gone → image slot lba ≡ before slot lba) → HoldsBlocks volume before blocks → HoldsBlocks volume image blocks }
{}

/// Behind a write of blocks to an array that lacks no place these have the bytes that were written, and all others those that they had. The array is marked meanwhile,
/// unless it keeps each block in one place alone.
pub fn a_write_leaves_its_sectors()
    ensures { (old new : ℕ → ℕ) (marked : Bool) (volume : Volume) (start : ℕ) (sectors : List (List ℕ)) (before image : Image) (blocks : ℕ → List ℕ) → HoldsBlocks volume before blocks → IsWhole volume
        → IsWritable (with_mark marked volume) → AreSectors image → IsLeftByWrite (with_mark marked volume) start sectors before image
        → HasWritten (with_mark marked volume) start sectors (IsSure (λ slot. Rose (old slot) (new slot)) (with_mark marked volume) before) image
        → HoldsBlocks volume image (with_sectors start sectors blocks) }
{}

/// Behind a resync of an array that lacks no place the blocks have the values that it has, whatever it held before: those that it had, where no read failed.
/// Where its sectors were zeros these are zeros.
pub fn a_resync_leaves_the_blocks_that_were_there()
    ensures values { (old new : ℕ → ℕ) (volume : Volume) (before image : Image) → IsVolume volume → IsApart volume → is_within volume ≡ true → IsWhole volume → AreSectors image
        → HasResynced (λ slot. Rose (old slot) (new slot)) volume before image → HoldsBlocks (with_mark false volume) image (held_blocks volume image) }
    ensures same { (old new : ℕ → ℕ) (volume : Volume) (before image : Image) → IsVolume volume → IsApart volume → is_within volume ≡ true → IsWhole volume → AreSectors image
        → HasResynced (λ slot. Rose (old slot) (new slot)) volume before image → ((slot : ℕ) → IsOn volume slot → Rose (old slot) (new slot) → ⊥)
        → (block : ℕ) → block < capacity volume → value volume image block ≡ value volume before block }
    ensures zeros { (old new : ℕ → ℕ) (volume : Volume) (before image : Image) → IsVolume volume → IsApart volume → is_within volume ≡ true → IsWhole volume → AreSectors image
        → HasResynced (λ slot. Rose (old slot) (new slot)) volume before image → IsBlank volume before → HoldsBlocks (with_mark false volume) image (λ block. zeros) }
{}

/// The blocks of an array keep their bytes where it has less to read from, within its level: where a disk is lost, or is counted as lost or failed, and where a
/// spare takes the place of one.
pub fn fewer_places_leave_the_blocks()
    ensures { (before after : Volume) (image : Image) (blocks : ℕ → List ℕ) → IsVolume after → IsApart after → after.marked ≡ false → is_within after ≡ true
        → is_mirrored after ≡ false → IsFewer before after → LeavesRows before after → HoldsBlocks before image blocks → HoldsBlocks after image blocks }
{}

/// So where a disk whose sectors aren't set yet takes the place of another one. Every other place is available, where each was; so no earlier position is out of sync,
/// an array whose elements keep parity is within its level, and each place is available once this one is in sync.
pub fn another_disk_leaves_the_blocks()
    ensures blocks { (volume : Volume) (element position : ℕ) (new : Place) (image : Image) (blocks : ℕ → List ℕ) → is_available new ≡ false → new.row ≡ 0
        → IsVolume (with_place element position new volume) → IsApart (with_place element position new volume) → is_within (with_place element position new volume) ≡ true
        → is_mirrored volume ≡ false → HoldsBlocks volume image blocks → HoldsBlocks (with_place element position new volume) image blocks }
    ensures others { (volume : Volume) (element position : ℕ) (new : Place) → IsWhole volume → IsWholeBut element position (with_place element position new volume) }
    ensures first { (volume : Volume) (element position : ℕ) → IsWholeBut element position volume → IsFirstOut volume element position }
    ensures within { (volume : Volume) (element position : ℕ) → is_mirrored volume ≡ false
        → ((other : ℕ) (part : Part) → slice_get volume.parts other ≡ Some part → keeps_parity part.shape.layout ≡ true) → IsWholeBut element position volume → is_within volume ≡ true }
    ensures whole { (volume : Volume) (element position : ℕ) → IsOut volume element position → IsWholeBut element position volume → IsWhole (in_sync element position volume) }

    // Where no rows of the array count, none do behind it.
    ensures replaced { (volume : Volume) (element position : ℕ) (new : Place) → new.row ≡ 0 → HasNoRows volume → HasNoRows (with_place element position new volume) }
    ensures synced { (volume : Volume) (element position : ℕ) → HasNoRows volume → HasNoRows (in_sync element position volume) }
{}

/// The blocks keep their bytes while rows of a position that is out of sync are set behind those that count, and where rows that are set count; and where
/// the position is in sync again, once all its rows are set. No earlier position of the element is out of sync, where it keeps parity.
pub fn a_rebuild_leaves_the_blocks()
    ensures filled { (volume : Volume) (element position from to : ℕ) (before image : Image) (blocks : ℕ → List ℕ) → AreSectors image → GoesOnBehind volume element position from
        → StaysBut (IsTargetCell volume element position from to) before image → HoldsBlocks volume before blocks → HoldsBlocks volume image blocks }
    ensures noted { (volume : Volume) (image : Image) (blocks : ℕ → List ℕ) (element position row : ℕ) → IsFirstOut volume element position
        → HasRebuilt volume element position 0 row image image → HoldsBlocks volume image blocks → HoldsBlocks (noted element position row volume) image blocks }
    ensures finished { (volume : Volume) (image : Image) (blocks : ℕ → List ℕ) (element position row : ℕ) → IsOut volume element position → IsFirstOut volume element position
        → ((part : Part) → slice_get volume.parts element ≡ Some part → row_count part.shape ≤ row) → HasRebuilt volume element position 0 row image image
        → HoldsBlocks volume image blocks → HoldsBlocks (in_sync element position volume) image blocks }
{}

/// Steps of a group that write nothing below the floors of the slots lie aside of an array that lies below them. Where nothing but zeros lies there, it is blank.
pub fn an_array_below_the_floors_lies_aside()
    ensures aside { (floor : ℕ → ℕ) (volume : Volume) → ((slot lba : ℕ) → IsItsCell volume slot lba → lba < floor slot) → (sizes : List ℕ) (steps : List Step)
        → ((before after : Image) → AreWritten sizes before steps after → (slot lba : ℕ) → lba < floor slot → after slot lba ≡ before slot lba) → LieAside sizes volume steps }
    ensures blank { (floor : ℕ → ℕ) (volume : Volume) → ((slot lba : ℕ) → IsItsCell volume slot lba → lba < floor slot) → (image : Image)
        → ((slot lba : ℕ) → lba < floor slot → image slot lba ≡ zeros) → IsBlank volume image }
{}

/// Behind the work of a write, done between the steps of its group, its blocks have the bytes that were written, and all others those that they had.
pub fn a_done_write_leaves_its_sectors<B: Bay>()
    ensures { (old new : B) → (B.disks new).tells_left → (found : GroupValue) (first last : List Step) (marked : Bool) (volume : Volume) (start : ℕ) (sectors : List (List ℕ)) (blocks : ℕ → List ℕ)
        → LieAside (B.disks old).sizes volume first → LieAside (B.disks old).sizes volume last → IsWhole volume → IsWritable (with_mark marked volume)
        → AreBlocksDone (writing start sectors) (work_of B.tells (B.disks old) (B.disks new)) found first last (with_mark marked volume)
        → HoldsBlocks volume (B.disks old).held blocks → HoldsBlocks volume (B.disks new).held (with_sectors start sectors blocks) }
{}

/// Behind a resync, done between the steps of its group, the blocks have the values that the array then has: zeros, where it was blank.
pub fn a_done_resync_leaves_the_blocks_that_were_there<B: Bay>()
    ensures values { (old new : B) → (B.disks new).tells_left → (found : GroupValue) (first last : List Step) (volume : Volume)
        → LieAside (B.disks old).sizes volume first → LieAside (B.disks old).sizes volume last → IsWhole volume → IsVolume volume → IsApart volume → is_within volume ≡ true
        → AreBlocksDone resyncing (work_of B.tells (B.disks old) (B.disks new)) found first last volume
        → HoldsBlocks (with_mark false volume) (B.disks new).held (held_blocks volume (B.disks new).held) }
    ensures zeros { (old new : B) → (B.disks new).tells_left → (found : GroupValue) (first last : List Step) (volume : Volume)
        → LieAside (B.disks old).sizes volume first → LieAside (B.disks old).sizes volume last → IsWhole volume → IsVolume volume → IsApart volume → is_within volume ≡ true
        → AreBlocksDone resyncing (work_of B.tells (B.disks old) (B.disks new)) found first last volume
        → IsBlank volume (B.disks old).held → HoldsBlocks (with_mark false volume) (B.disks new).held (λ block. zeros) }
{}

/// Behind rounds that fill all rows of a position it is in sync, and the blocks have their bytes; so behind a rebuild that was done as it was planned.
pub fn a_done_rebuild_leaves_the_blocks<B: Bay>()
    ensures rounds { (old new : B) → (B.disks new).tells_left → (sizes : List ℕ) (volume : Volume) (target : Target) (from : ℕ) (rounds : List Round) (before after : Image) (blocks : ℕ → List ℕ)
        → ((number : ℕ) (round : Round) → slice_get rounds number ≡ Some round → LieAside sizes volume (round.step ∷ [])) → GoOn volume target from rounds
        → IsOut volume target.element target.position → IsFirstOut volume target.element target.position
        → ((part : Part) → slice_get volume.parts target.element ≡ Some part → row_count part.shape ≤ row_before from rounds (length rounds)) → AreSectors after
        → AreRounds (Failed (B.disks old) (B.disks new)) (B.disks new).tells_left sizes volume target from before rounds after
        → HoldsBlocks volume before blocks → HoldsBlocks (in_sync target.element target.position volume) after blocks }
    ensures planned { (old new : B) → (B.disks new).tells_left → (found : GroupValue) (timestamp : ℕ) (word : List ℕ) (plan : IsPlanned found timestamp word) (blocks : ℕ → List ℕ)
        → LieAside (B.disks old).sizes plan.volume plan.first
        → ((number : ℕ) (round : Round) → slice_get plan.rounds number ≡ Some round → LieAside (B.disks old).sizes plan.volume (round.step ∷ []))
        → GoOn plan.volume plan.target (first_row plan) plan.rounds → IsFirstOut plan.volume plan.target.element plan.target.position
        → AreRoundsDone (work_of B.tells (B.disks old) (B.disks new)) found plan
        → HoldsBlocks plan.volume (B.disks old).held blocks → HoldsBlocks (in_sync plan.target.element plan.target.position plan.volume) (B.disks new).held blocks }
{}

/// An array that lacked no place, and of which a disk was lost, is rebuilt on another one: the blocks keep their bytes, it lacks no place, and no rows of it count.
pub fn a_lost_disk_is_rebuilt<B: Bay>()
    ensures blocks { (old new : B) → (B.disks old).tells_left → (B.disks new).tells_left → (found : GroupValue) (timestamp : ℕ) (word : List ℕ) (plan : IsPlanned found timestamp word)
        → (volume : Volume) (place : Place) → plan.volume ≡ with_place plan.target.element plan.target.position place volume → IsWhole volume → HasNoRows volume → is_mirrored volume ≡ false
        → is_available place ≡ false → place.row ≡ 0 → plan.kept ≡ 0
        → (gone : ℕ) (before : Image) → IsBeside (with_place plan.target.element plan.target.position place volume) gone
        → ((slot lba : ℕ) → slot ≢ gone → (B.disks old).held slot lba ≡ before slot lba)
        → LieAside (B.disks old).sizes plan.volume plan.first
        → ((number : ℕ) (round : Round) → slice_get plan.rounds number ≡ Some round → LieAside (B.disks old).sizes plan.volume (round.step ∷ []))
        → AreRoundsDone (work_of B.tells (B.disks old) (B.disks new)) found plan
        → (blocks : ℕ → List ℕ) → HoldsBlocks volume before blocks
        → HoldsBlocks (in_sync plan.target.element plan.target.position (with_place plan.target.element plan.target.position place volume)) (B.disks new).held blocks }
    ensures whole { (found : GroupValue) (timestamp : ℕ) (word : List ℕ) (plan : IsPlanned found timestamp word) (volume : Volume) (place : Place)
        → plan.volume ≡ with_place plan.target.element plan.target.position place volume → IsWhole volume
        → IsWhole (in_sync plan.target.element plan.target.position (with_place plan.target.element plan.target.position place volume)) }
    ensures rows { (volume : Volume) (element position : ℕ) (place : Place) → place.row ≡ 0 → HasNoRows volume
        → HasNoRows (in_sync element position (with_place element position place volume)) }
{}
