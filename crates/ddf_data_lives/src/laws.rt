//! Laws of long histories: functions that do nothing, whose contracts are the laws. docs/PROOF.md#proved
ghost use Rattle.std.specs.Prelude.{◌≡◌, ◌<◌, ℕ, Bool, true, false, List, [], Option, Some, None, Ok, Err, IsTrue, length, slice_index_or};
ghost use Rattle.ddf_bytes.specs.declared.stamp.Stamp.{Stamp};
ghost use Rattle.ddf_header.specs.declared.kind.Revision.{Revision};
ghost use Rattle.ddf_bay.specs.Memory.{disks_of};
ghost use Rattle.ddf_bay.specs.ReadsOnly.{LookFailed};
ghost use Rattle.ddf_bay.specs.Sectors.{Image, IsLeft};
ghost use Rattle.ddf_bay.specs.declared.memory.MemoryBay.{MemoryBay};
ghost use Rattle.ddf_copy.specs.declared.newest_copy.Newest.{Newest};
ghost use Rattle.ddf_update.specs.NewCopies.{group_of as name_of};
ghost use Rattle.ddf_data_array.specs.Allowed.{Allowed};
ghost use Rattle.ddf_history.specs.Groups.{Disk, groups, has_current};
ghost use Rattle.ddf_history.specs.Issued.{is_away};
ghost use Rattle.ddf_history.specs.Reading.{ShowsGroup};
ghost use Rattle.ddf_history.specs.Scenes.{scene_of};
ghost use Rattle.ddf_history_steps.specs.Going.{IsAdmitted};
ghost use Rattle.ddf_history_joins.specs.Joins.{AdmitsCall};
ghost use Rattle.ddf_seats.specs.Group.{GroupValue};
ghost use Rattle.ddf_assembly.specs.Group.{group_of};
ghost use Rattle.ddf_assembly.specs.Slots.{AreOut, newest_from};
ghost use Rattle.ddf_answer.specs.Call.{work_of};
ghost use Rattle.ddf_disk_commands.specs.Label.{IsTried};
ghost use Rattle.ddf_data_calls.specs.Reading.{MayBe, blocks_printed};
ghost use Rattle.ddf_history_life.specs.Life.{labelled_disk};
ghost use Rattle.ddf_history_memory.specs.Histories.{GoesWell};
ghost use Rattle.ddf_data_events.specs.Beginnings.{none_promised};
ghost use Rattle.ddf_data_events.specs.Moments.{KeepsAll, Moment};
ghost use Rattle.ddf_data_life.specs.Commands.{IsRead};
ghost use Rattle.ddf_data_life.specs.Histories.{CallOn, FindsOn, exit_on};
ghost use Rattle.ddf_data_lives.specs.Sparing.{FailsNot, LastsFor};
ghost use Rattle.ddf_data_lives.specs.Standing.{KeepsDisk, Stands, StandsOn};

/// A `label` of all disks leaves the disk of each slot standing, of which nothing is unplugged: nothing is promised of any array yet.
pub fn a_label_of_all_disks_leaves_each_standing()
    ensures { (large : Bool) (revision : Revision) (stamp : Stamp) (old new : MemoryBay) (kept : ℕ) → IsTried (work_of (Unit {0}) (disks_of old) (disks_of new)) large revision stamp [] (Ok tt)
        → (disks_of new).sizes ≡ (disks_of old).sizes → (disks_of old).tells_left → (disks_of new).tells_left → kept < length (disks_of old).sizes → ((disks_of new).gone kept → ⊥)
        → (moment : Moment (name_of stamp) MemoryBay) × Stands (name_of stamp) kept (labelled_disk large revision stamp (disks_of old).sizes kept) moment
        × (moment.bay ≡ new) × (moment.promises ≡ none_promised) }
{}

/// What a command finds that takes the group is what its history admits, where a disk stands, of whichever others are unplugged: nothing is asked but that it left
/// out the slots of which every call fails, as each contract says unless memory ran out, and that the bay still tells behind it.
pub fn a_command_is_admitted_where_a_disk_stands()
    ensures { (group : List ℕ) (kept : ℕ) (disk : Disk) (old : Moment group MemoryBay) (exit : MemoryBay) → Stands group kept disk old → GoesWell old.bay exit → (disks_of exit).tells_left
        → (left : List Bool) → length left ≡ length (disks_of old.bay).sizes
        → ((slot : ℕ) → slot < length left → IsTrue (slice_index_or left slot false) → LookFailed (disks_of old.bay) (disks_of exit) slot) → AreOut (disks_of old.bay) left
        → (newest : List (Option Newest)) → newest ≡ newest_from (disks_of old.bay) 0 left → (found : GroupValue) → group_of newest (Some group) ≡ Ok found → FindsOn group old left newest }
{}

/// However a history goes on from a moment at which a disk stands, by calls of each kind, their ends and stops within them, stops between them, slots that are
/// unplugged and disks that come back, and for however many turns, it stands at each moment, all is kept, and what was acknowledged stays.
pub fn a_disk_stands_however_its_history_goes_on()
    ensures { (group : List ℕ) (kept : ℕ) (disk : Disk) (start : Moment group MemoryBay) → Stands group kept disk start → (turns : ℕ) → StandsOn group kept disk turns start }
{}

/// Each call that doesn't fail a disk keeps it where it stands: each configuration that the call issues lists it as a current member, the recovery's too. `fail` alone asks for a
/// change that fails a disk, so that this holds of each `create`, `delete`, `spare`, `accept`, `resync`, `write`, `rebuild`, `import` and assembly.
pub fn a_call_keeps_a_disk_that_it_doesnt_fail()
    ensures { (group : List ℕ) (kept : ℕ) (disk : Disk) (old : Moment group MemoryBay) → Stands group kept disk old → (call : CallOn group old) → GoesWell old.bay (exit_on group old call)
        → (disks_of (exit_on group old call)).tells_left → FailsNot group disk old call → KeepsDisk group kept disk old call }
{}

/// So a disk that no call fails stands however its history goes on from a moment at which it does, and for however many calls of each kind, stops within them and between them,
/// slots that are unplugged and disks that come back: nothing else is asked of what the calls issue.
pub fn a_disk_that_no_call_fails_stands_however_its_history_goes_on()
    ensures { (group : List ℕ) (kept : ℕ) (disk : Disk) (start : Moment group MemoryBay) → Stands group kept disk start → (times : ℕ) → LastsFor group kept disk times start }
{}

/// A read at such a moment prints of each block bytes that it may have by what is promised then.
pub fn a_read_prints_what_is_promised_where_a_disk_stands()
    ensures { (group : List ℕ) (kept : ℕ) (disk : Disk) (old : Moment group MemoryBay) (exit : MemoryBay) (guid : List ℕ) → Stands group kept disk old → (read : IsRead group old.bay exit guid)
        → AreOut (disks_of old.bay) read.has.left → (disks_of exit).tells_left → (allowed : Allowed) → old.promises guid ≡ Some allowed → MayBe allowed read.start (blocks_printed read.outcome) }
{}

/// A history admits an import, as its laws ask, where the group that joins stands in a history of its own over the same disks, of which the look found it whole,
/// where both histories know the same disk in each slot, no disk has come back, and no disk that shows the first group has fallen out of it.
pub fn an_import_is_admitted_where_both_groups_stand()
    ensures { (group former : List ℕ) (old : Moment group MemoryBay) (theirs : Moment former MemoryBay) → KeepsAll disks_of theirs → theirs.bay ≡ old.bay
        → ((slot : ℕ) → theirs.past.disk slot ≡ old.past.disk slot) → ((slot : ℕ) → old.past.returned slot ≡ false)
        → (left : List Bool) → length left ≡ length (disks_of old.bay).sizes → (newest : List (Option Newest)) → newest ≡ newest_from (disks_of old.bay) 0 left
        → (native other : GroupValue) → group_of newest (Some former) ≡ Ok other → other.absent ≡ [] → IsAdmitted former theirs.past (disks_of old.bay) left other
        → ((image : Image) → IsLeft (disks_of old.bay).may_hold image → (slot : ℕ) → is_away old.past slot ≡ false → ShowsGroup (groups group) (scene_of (disks_of old.bay).sizes image slot)
        → has_current native.config (old.past.disk slot) ≡ true) → AdmitsCall group old.past (disks_of old.bay) native other }
{}
