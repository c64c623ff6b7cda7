//! Laws of what the arrays of groups keep: functions that do nothing, whose contracts are the laws.
ghost use Rattle.std.specs.Prelude.{◌≡◌, ◌≢◌, ◌⊎◌, ◌<◌, ℕ, Bool, true, false, List, None, Some, Ok, is_some, slice_get};
ghost use Rattle.std.specs.Map.{lookup};
ghost use Rattle.ddf_bay.specs.Sectors.{Image};
ghost use Rattle.ddf_config.specs.declared.member.Member.{Member};
ghost use Rattle.ddf_config.specs.declared.array.Array.{Array};
ghost use Rattle.ddf_config.specs.declared.extent.Extent.{Extent};
ghost use Rattle.ddf_config.specs.declared.seat.Seat.{Seat};
ghost use Rattle.ddf_config.specs.Configuration.{Configuration};
ghost use Rattle.ddf_config.specs.Extents.{extents};
ghost use Rattle.ddf_config.specs.Members.{is_current, same_guid};
ghost use Rattle.ddf_config.specs.Seats.{SeatsFit, floor_of, slot_of};
ghost use Rattle.ddf_config.specs.States.{is_marked};
ghost use Rattle.ddf_plan.specs.declared.change.Change.{Change};
ghost use Rattle.ddf_plan.specs.declared.change.Change.TheVariants.{Begin, Create, Mark, Progress};
ghost use Rattle.ddf_plan.specs.Changes.{changed_at};
ghost use Rattle.ddf_plan.specs.Create.{lies_clear};
ghost use Rattle.ddf_plan.specs.Lose.{lost_array};
ghost use Rattle.ddf_plan.specs.Members.{members_after};
ghost use Rattle.ddf_plan.specs.Same.{is_step};
ghost use Rattle.ddf_repair.specs.declared.beginning.Begun.TheVariants.{Again, Fresh};
ghost use Rattle.ddf_repair.specs.declared.first.Target.{Target};
ghost use Rattle.ddf_repair.specs.Begin.{begun};
ghost use Rattle.ddf_array.specs.declared.part.Part.{Part};
ghost use Rattle.ddf_array.specs.Apart.{AreSeats};
ghost use Rattle.ddf_array.specs.Losing.{AreFewer};
ghost use Rattle.ddf_array.specs.Redundant.{IsRedundant};
ghost use Rattle.ddf_array.specs.Viewing.{seat_slot, view_of};
ghost use Rattle.ddf_array.specs.Volume.{Volume, IsVolume};
ghost use Rattle.ddf_array.specs.Within.{is_within};
ghost use Rattle.ddf_cells.specs.Apart.{LiesAt};
ghost use Rattle.ddf_cells.specs.Degraded.{is_degraded};
ghost use Rattle.ddf_cells.specs.Writing.{IsAmongSectors, StaysBut};
ghost use Rattle.ddf_write.specs.Writing.{IsLeftByWrite};
ghost use Rattle.ddf_resync.specs.Resyncing.{MayResync};
ghost use Rattle.ddf_rebuild.specs.Filling.{IsFilled};
ghost use Rattle.ddf_rebuild.specs.Target.{IsAside, IsTargetCell};
ghost use Rattle.ddf_data_array.specs.Allowed.{Allowed};
ghost use Rattle.ddf_data_array.specs.Changing.{IsWritable, with_mark};
ghost use Rattle.ddf_data_array.specs.Fewer.{IsFewer, LeavesRows};
ghost use Rattle.ddf_data_array.specs.Kept.{IsKeptData};
ghost use Rattle.ddf_data_array.specs.Rows.{AreAlikeThroughout, AreRowsKept, GoesOnBehind, HasNoRows, IsFirstOut, NoneAbsent};
ghost use Rattle.ddf_data_group.specs.Agreeing.{AgreeOn};
ghost use Rattle.ddf_data_group.specs.Clear.{ChangesItsCells};
ghost use Rattle.ddf_data_group.specs.Clearing.{HasRowsUpTo, IsFirstOf, IsInSync, IsMovedArray, IsNotedArray, IsSameButMark, MayBeCleared, MayBeInSync, MayBeNoted, MayMove};
ghost use Rattle.ddf_data_group.specs.Grouped.{KeepsArrays, MayChange, Promises};
ghost use Rattle.ddf_data_group.specs.Kept.{KeepsArray};
ghost use Rattle.ddf_data_group.specs.Lessening.{AllStay, IsLessArray};
ghost use Rattle.ddf_data_group.specs.Over.{AreCurrentSeats, IsOver, absent_in};

/// What a change leaves of an array that leaves less of it, over these seats or fewer, is the array before with fewer places.
pub fn a_lessened_array_is_one_with_fewer_places()
    ensures { (members : List (ℕ × Member)) (seats fewer : List Seat) (before after : Array) (volume : Volume) → AreCurrentSeats members seats → AreFewer seats fewer
        → IsLessArray before after → IsOver fewer after volume
        → (old : Volume) × IsOver seats before old × IsFewer old volume × LeavesRows old volume }
{}

/// An array keeps its data through a loss of disks, marked or not, and however many.
// promise:values
pub fn a_loss_of_disks_keeps_the_data()
    ensures { (members : List (ℕ × Member)) (seats fewer : List Seat) (array : Array) (image : Image) (allowed : Allowed) → AreCurrentSeats members seats
        → AreFewer seats fewer → KeepsArray members seats array image allowed → KeepsArray members fewer array image allowed }
{}

/// An array keeps its data where members are counted as lost or failed.
pub fn counting_disks_as_lost_keeps_the_data()
    ensures { (members after_members : List (ℕ × Member)) (references : List ℕ) (seats fewer : List Seat) (array : Array) (image : Image) (allowed : Allowed)
        → AreCurrentSeats members seats → AreCurrentSeats after_members fewer → AreFewer seats fewer → KeepsArray members seats array image allowed
        → KeepsArray after_members fewer (lost_array after_members references array) image allowed }
{}

/// An array keeps its data where positions stay as they are, those aside that are out of sync: there a disk takes the place of one whose member is
/// missing.
pub fn a_disk_in_the_place_of_another_keeps_the_data()
    ensures { (members after_members : List (ℕ × Member)) (seats fewer : List Seat) (before after : Array) (image : Image) (allowed : Allowed)
        → ((reference : ℕ) → is_current after_members reference ≡ is_current members reference) → AreCurrentSeats members seats → AreFewer seats fewer
        → IsLessArray before after → AllStay (is_current members) before.elements after.elements
        → KeepsArray members seats before image allowed → KeepsArray after_members fewer after image allowed }
{}

/// An array keeps its data where it is marked.
pub fn a_mark_keeps_the_data()
    ensures { (members after_members : List (ℕ × Member)) (seats fewer : List Seat) (before after : Array) (image : Image) (allowed : Allowed)
        → AreCurrentSeats members seats → AreFewer seats fewer → IsLessArray before after → is_marked after ≡ true
        → KeepsArray members seats before image allowed → KeepsArray after_members fewer after image allowed }
{}

/// An array keeps its data where its mark is cleared once it is consistent, the value of each block is one that the block may have, and the rows that
/// count as rebuilt hold what they should.
pub fn a_cleared_mark_keeps_the_data()
    ensures { (members : List (ℕ × Member)) (seats : List Seat) (before after : Array) (image : Image) (allowed : Allowed) → IsSameButMark before after
        → is_marked after ≡ false
        → ((volume : Volume) → IsOver seats before volume → MayBeCleared (absent_in members seats before.elements) volume image allowed)
        → KeepsArray members seats before image allowed → KeepsArray members seats after image allowed }
{}

/// An array keeps its data where nothing of it changes but its low state.
pub fn a_low_state_changes_nothing()
    ensures { (members after_members : List (ℕ × Member)) (seats : List Seat) (before after : Array) (image : Image) (allowed : Allowed)
        → IsSameButMark before after → is_marked after ≡ is_marked before
        → ((reference : ℕ) → is_current after_members reference ≡ is_current members reference)
        → KeepsArray members seats before image allowed → KeepsArray after_members seats after image allowed }
{}

/// An array keeps its data where a position is in sync again that holds what it should.
pub fn a_position_in_sync_keeps_the_data()
    ensures { (members : List (ℕ × Member)) (seats : List Seat) (element position : ℕ) (before after : Array) (image : Image) (allowed : Allowed)
        → IsInSync element position before after
        → ((volume : Volume) → IsOver seats before volume → MayBeInSync (absent_in members seats before.elements) volume image element position)
        → KeepsArray members seats before image allowed → KeepsArray members seats after image allowed }
{}

/// An array keeps its data where rows of a position count as rebuilt that hold what they should.
pub fn rebuilt_rows_keep_the_data()
    ensures { (members : List (ℕ × Member)) (seats : List Seat) (element position row : ℕ) (before after : Array) (image : Image) (allowed : Allowed)
        → IsNotedArray element position row before after
        → ((volume : Volume) → IsOver seats before volume → MayBeNoted volume image element position row)
        → KeepsArray members seats before image allowed → KeepsArray members seats after image allowed }
{}

/// An array keeps its data where a position lies on another disk that holds what the position holds.
pub fn a_position_on_another_disk_keeps_the_data()
    ensures { (members : List (ℕ × Member)) (seats : List Seat) (element position reference start : ℕ) (before after : Array) (image : Image) (allowed : Allowed)
        → AreCurrentSeats members seats → IsMovedArray element position reference start before after
        → ((volume : Volume) → IsOver seats before volume → MayMove seats before volume image element position reference start)
        → KeepsArray members seats before image allowed → KeepsArray members seats after image allowed }
{}

/// The arrays of a group keep their data through each change of its configuration, where it has what it asks for: a position that moves to another disk holds
/// there what it holds.
pub fn a_change_keeps_the_data_of_a_group()
    ensures { (config : Configuration) (change : Change) (sequence : ℕ) (seats fewer : List Seat) (image : Image) (promises : Promises)
        → AreCurrentSeats config.members seats → AreCurrentSeats (members_after config change) fewer → AreFewer seats fewer → MayChange config seats image promises change
        → KeepsArrays config seats image promises → KeepsArrays (changed_at config change sequence) fewer image promises }
{}

/// The mark may be cleared of an array that is redundant and within its level, and of which no element that keeps parity lacks a position: as behind a
/// resync, a write, and a scrub that finds nothing. Where rows count as rebuilt they hold what they should: behind a mark none do.
pub fn a_redundant_array_may_be_unmarked()
    ensures { (is_absent : ℕ → ℕ → Bool) (volume : Volume) (image : Image) (allowed : Allowed) → IsVolume volume → is_within volume ≡ true
        → is_degraded volume ≡ false → IsRedundant volume image → AreRowsKept is_absent (with_mark false volume) image
        → IsKeptData is_absent volume image allowed → MayBeCleared is_absent volume image allowed }
{}

/// Of a marked array no rows count as rebuilt: once it is marked, or where marking it changes nothing.
pub fn a_mark_leaves_no_rows()
    ensures marked { (config : Configuration) (guid : List ℕ) (array : Array) (sequence : ℕ) (seats : List Seat) (volume : Volume)
        → lookup (same_guid guid) (changed_at config (Mark guid) sequence).arrays ≡ Some array → IsOver seats array volume → HasNoRows volume }
    ensures unchanged { (config : Configuration) (guid : List ℕ) (array : Array) (seats : List Seat) (volume : Volume)
        → lookup (same_guid guid) config.arrays ≡ Some array → is_step config (Mark guid) ≡ false → IsOver seats array volume → HasNoRows volume }
{}

/// Where each current member has a seat, an array that can be used lacks no disk that a current member has.
pub fn a_view_over_all_members_lacks_no_disk()
    ensures { (config : Configuration) (guid : List ℕ) (seats : List Seat) (volume : Volume) (array : Array) → view_of config guid seats ≡ Ok volume
        → lookup (same_guid guid) config.arrays ≡ Some array
        → ((reference : ℕ) → is_current config.members reference ≡ true → is_some (floor_of seats reference) ≡ true)
        → (element : ℕ) → NoneAbsent (absent_in config.members seats array.elements) element }
{}

/// The change by which a rebuild begins has what it asks for: its position is out of sync, on a disk that is no current member's.
pub fn a_rebuild_that_begins_has_what_it_asks_for()
    ensures { (config : Configuration) (guid : List ℕ) (seats : List Seat) (aside : List ℕ) (target : Target) (change : Change) (all : List Seat) (image : Image) (promises : Promises)
        → begun config guid seats aside ≡ Ok (Fresh target change) → MayChange config all image promises change }
{}

/// A rebuild takes the positions of an element in order: no earlier one is out of sync, neither as it begins nor as it goes on.
pub fn a_rebuild_takes_the_first_position()
    ensures fresh { (config : Configuration) (guid : List ℕ) (seats : List Seat) (aside : List ℕ) (target : Target) (change : Change) (array : Array)
        → lookup (same_guid guid) config.arrays ≡ Some array → begun config guid seats aside ≡ Ok (Fresh target change) → IsFirstOf array target.element target.position }
    ensures again { (config : Configuration) (guid : List ℕ) (seats : List Seat) (aside : List ℕ) (target : Target) (array : Array)
        → lookup (same_guid guid) config.arrays ≡ Some array → begun config guid seats aside ≡ Ok (Again target) → IsFirstOf array target.element target.position }
    ensures begins { (config : Configuration) (guid : List ℕ) (element position reference start sequence : ℕ) (before after : Array)
        → lookup (same_guid guid) config.arrays ≡ Some before
        → lookup (same_guid guid) (changed_at config (Begin guid element position reference start) sequence).arrays ≡ Some after
        → IsFirstOf before element position → IsFirstOf after element position }
    ensures goes_on { (config : Configuration) (guid : List ℕ) (element position row sequence : ℕ) (before after : Array)
        → lookup (same_guid guid) config.arrays ≡ Some before
        → lookup (same_guid guid) (changed_at config (Progress guid element position row) sequence).arrays ≡ Some after
        → IsFirstOf before element position → IsFirstOf after element position }
    ensures over { (seats : List Seat) (array : Array) (volume : Volume) (element position : ℕ) → IsOver seats array volume
        → IsFirstOf array element position → IsFirstOut volume element position }

    // Where it goes on from a row on, no rows behind this one count.
    ensures behind { (seats : List Seat) (array : Array) (volume : Volume) (element position row : ℕ) → IsOver seats array volume
        → HasRowsUpTo array element position row → GoesOnBehind volume element position row }
{}

/// What an array keeps rests on its own members and their seats alone, whichever others there are.
pub fn an_array_rests_on_its_own_members()
    ensures { (members after_members : List (ℕ × Member)) (seats other : List Seat) (array : Array) (image : Image) (allowed : Allowed)
        → AgreeOn array.elements members after_members seats other
        → KeepsArray members seats array image allowed → KeepsArray after_members other array image allowed }
{}

/// What changes only sectors of an array that can be used changes none of another one.
pub fn an_arrays_cells_are_no_other_arrays()
    ensures { (config : Configuration) (guid other : List ℕ) (seats : List Seat) (volume other_volume : Volume) (array : Array) (before image : Image)
        → AreCurrentSeats config.members seats → AreSeats config.members seats → view_of config guid seats ≡ Ok volume → IsVolume volume
        → ChangesItsCells volume before image → other ≢ guid → lookup (same_guid other) config.arrays ≡ Some array → IsOver seats array other_volume
        → AreAlikeThroughout other_volume before image }
{}

/// A write, a resync and a rebuild change only sectors of their array.
pub fn only_an_arrays_cells_change()
    ensures write { (volume : Volume) (start : ℕ) (sectors : List (List ℕ)) (before image : Image) → IsVolume volume
        → IsLeftByWrite volume start sectors before image → ChangesItsCells volume before image }
    ensures resync { (volume : Volume) (first before image : Image) → IsVolume volume
        → ((s l : ℕ) → (image s l ≡ before s l) ⊎ MayResync volume (Unit {0}) first s l (image s l)) → ChangesItsCells volume before image }
    ensures rebuild { (volume : Volume) (element position from to : ℕ) (before image : Image)
        → StaysBut (IsTargetCell volume element position from to) before image → ChangesItsCells volume before image }
{}

/// A free extent of a configuration is no array's: what is written to it changes no sector of any, so it lies aside of each. What is filled of an extent
/// lies in it.
pub fn a_free_extent_is_no_arrays()
    ensures alike { (config : Configuration) (guid : List ℕ) (seats : List Seat) (one : Extent) (slot : ℕ) (array : Array) (volume : Volume) (before image : Image)
        → AreCurrentSeats config.members seats → AreSeats config.members seats → seat_slot seats one ≡ Some slot → lies_clear config.members (extents config.arrays) one ≡ true
        → lookup (same_guid guid) config.arrays ≡ Some array → IsOver seats array volume
        → StaysBut (IsAmongSectors slot one.start one.blocks) before image → AreAlikeThroughout volume before image }
    ensures aside { (config : Configuration) (guid : List ℕ) (seats : List Seat) (one : Extent) (slot : ℕ) (array : Array) (volume : Volume) (sizes : List ℕ) (element : ℕ) (part : Part)
        → AreCurrentSeats config.members seats → AreSeats config.members seats → seat_slot seats one ≡ Some slot → lies_clear config.members (extents config.arrays) one ≡ true
        → lookup (same_guid guid) config.arrays ≡ Some array → IsOver seats array volume → SeatsFit sizes seats
        → slice_get volume.parts element ≡ Some part → part.shape.blocks ≡ one.blocks → IsAside sizes volume element slot one.start }
    ensures filled { (volume : Volume) (element slot start : ℕ) (part : Part) (before image : Image) → slice_get volume.parts element ≡ Some part
        → StaysBut (IsFilled volume element slot start) before image → StaysBut (IsAmongSectors slot start part.shape.blocks) before image }
{}

/// A created array is marked, or keeps each block in one place alone: whatever its disks hold, its blocks may have it.
pub fn a_created_array_is_writable()
    ensures { (config : Configuration) (guid : List ℕ) (array made : Array) (sequence : ℕ) (seats : List Seat) (volume : Volume)
        → lookup (same_guid guid) config.arrays ≡ None → lookup (same_guid guid) (changed_at config (Create guid array) sequence).arrays ≡ Some made
        → IsOver seats made volume → IsWritable volume }
{}

/// Each sector of an array is on the slot of a member's seat, below its floor.
pub fn a_cell_lies_below_a_floor()
    ensures { (seats : List Seat) (array : Array) (volume : Volume) (element position sector slot lba : ℕ) → IsOver seats array volume
        → LiesAt volume element position sector slot lba
        → (reference : ℕ) × (floor : ℕ) × (floor_of seats reference ≡ Some floor) × (slot_of seats reference ≡ slot) × (lba < floor) }
{}
