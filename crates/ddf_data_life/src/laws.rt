//! Laws of the headline of data in use: functions that do nothing, whose contracts are the laws. docs/PROOF.md#proved
ghost use Rattle.std.specs.Prelude.{◌≡◌, ◌<◌, ℕ, Bool, false, List, [], Option, Some, Ok, IsTrue, length, slice_index_or, true, ◌==◌};
ghost use Rattle.ddf_bytes.specs.declared.stamp.Stamp.{Stamp};
ghost use Rattle.ddf_header.specs.declared.kind.Revision.{Revision};
ghost use Rattle.ddf_bay.specs.Memory.{disks_of, state_of, without};
ghost use Rattle.ddf_bay.specs.Moments.{IsSettled};
ghost use Rattle.ddf_bay.specs.ReadsOnly.{LookFailed};
ghost use Rattle.ddf_bay.specs.Sectors.{Image};
ghost use Rattle.ddf_bay.specs.declared.memory.MemoryBay.{MemoryBay};
ghost use Rattle.ddf_copy.specs.declared.newest_copy.Newest.{Newest};
ghost use Rattle.ddf_update.specs.NewCopies.{group_of as name_of};
ghost use Rattle.ddf_data_array.specs.Allowed.{Allowed};
ghost use Rattle.ddf_seats.specs.Group.{GroupValue};
ghost use Rattle.ddf_assembly.specs.Group.{group_of};
ghost use Rattle.ddf_assembly.specs.Slots.{newest_from};
ghost use Rattle.ddf_config.specs.Configuration.{Configuration};
ghost use Rattle.ddf_history.specs.Groups.{has_missing};
ghost use Rattle.ddf_history.specs.Issued.{IsSince, give_back, lose};
ghost use Rattle.ddf_answer.specs.Call.{work_of};
ghost use Rattle.ddf_disk_commands.specs.Label.{IsTried, label_copy};
ghost use Rattle.ddf_data_calls.specs.Reading.{MayBe, blocks_printed};
ghost use Rattle.ddf_history_memory.specs.Found.{BeginsFound, LeadsOn};
ghost use Rattle.ddf_history_memory.specs.Histories.{GoesWell, HasMemberOn, IsCutAt, IsStopped};
ghost use Rattle.ddf_data_events.specs.Moments.{Moment};
ghost use Rattle.ddf_data_life.specs.Commands.{IsRead};
ghost use Rattle.ddf_data_life.specs.Histories.{CallOn, CutOn, EndsOn, EndsOurs, FindsOn, IsDataBegun, IsDataHistoryOn, IsFoundData, IsYoungDataOn, LeavesLostOut, behind, exit_on};
ghost use Rattle.ddf_data_life.specs.Life.{IsLife, Outlives};

/// A `label` of all disks of a bay in memory begins a history of the new group and of its data, in which nothing is promised of any array yet.
pub fn a_label_of_all_disks_begins_a_history_of_data()
    ensures { (large : Bool) (revision : Revision) (stamp : Stamp) (old new : MemoryBay) → IsTried (work_of (Unit {0}) (disks_of old) (disks_of new)) large revision stamp [] (Ok tt)
        → (disks_of new).sizes ≡ (disks_of old).sizes → (disks_of old).tells_left → (disks_of new).tells_left
        → IsDataBegun (name_of stamp) (length (disks_of old).sizes) (label_copy large revision stamp (disks_of old).sizes []) new }
{}

/// What a command finds that takes the group of a history is what the history admits: of the group one current member can be read, and the command
/// left out each slot that counts as lost, if any does. It tells of the slots what each contract of a command does that takes a group: which it left
/// out, only where a call of it failed, and what the others hold.
pub fn a_command_finds_the_group_of_its_history()
    ensures { (group : List ℕ) (old : Moment group MemoryBay) (exit : MemoryBay) → IsDataHistoryOn group old → HasMemberOn group old.past old.bay → GoesWell old.bay exit → (disks_of exit).tells_left
        → (left : List Bool) → length left ≡ length (disks_of old.bay).sizes
        → ((slot : ℕ) → slot < length left → IsTrue (slice_index_or left slot false) → LookFailed (disks_of old.bay) (disks_of exit) slot) → LeavesLostOut group old.past left
        → (newest : List (Option Newest)) → newest ≡ newest_from (disks_of old.bay) 0 left → (found : GroupValue) → group_of newest (Some group) ≡ Ok found → FindsOn group old left newest }
{}

/// Each call goes on in its history of data: at its end, where the bay still tells what a stop may leave, and with whatever image a stop left since
/// its entry. All that was acknowledged stays.
pub fn a_call_goes_on_in_its_history_of_data()
    ensures ends { (group : List ℕ) (old : Moment group MemoryBay) (call : CallOn group old) → IsDataHistoryOn group old → GoesWell old.bay (exit_on group old call)
        → (disks_of (exit_on group old call)).tells_left → EndsOn group old call }
    ensures cut { (group : List ℕ) (old : Moment group MemoryBay) (call : CallOn group old) → IsDataHistoryOn group old → GoesWell old.bay (exit_on group old call)
        → (image : Image) (cut : MemoryBay) → (disks_of (exit_on group old call)).left_since (disks_of old.bay).moment image → IsCutAt old.bay image cut → (disks_of cut).tells_left
        → CutOn group old call cut }
{}

/// So does a stop between calls, where each disk that counts as lost is still away; a slot that is unplugged: its disk is lost, or may be counted as
/// not lost until a call goes on without it; and a disk that was lost and comes back at a stop, with what it held, while each configuration since the
/// last acknowledged one lists it as missing.
pub fn a_stop_a_loss_and_a_return_go_on_in_their_history_of_data()
    ensures stop { (group : List ℕ) (old : Moment group MemoryBay) (cut : MemoryBay) (back : ℕ → Bool) → IsDataHistoryOn group old → IsStopped old.bay cut back
        → ((slot : ℕ) → old.past.lost slot ≡ true → back slot ≡ false) → (disks_of cut).tells_left → IsDataHistoryOn group (behind old old.past cut old.promises) }
    ensures lost { (group : List ℕ) (old : Moment group MemoryBay) (new : MemoryBay) (slot : ℕ) → IsDataHistoryOn group old → state_of new ≡ without (state_of old.bay) slot → (disks_of new).gone slot
        → IsDataHistoryOn group (behind old (lose old.past slot) new old.promises) }
    ensures stays { (group : List ℕ) (old : Moment group MemoryBay) (new : MemoryBay) (slot : ℕ) → IsDataHistoryOn group old → state_of new ≡ without (state_of old.bay) slot
        → IsDataHistoryOn group (behind old old.past new old.promises) }
    ensures back { (group : List ℕ) (old : Moment group MemoryBay) (cut : MemoryBay) (slot : ℕ) → IsDataHistoryOn group old
        → ((number : ℕ) (config : Configuration) → IsSince old.past.changes number config → has_missing config (old.past.disk slot) ≡ true)
        → IsStopped old.bay cut (λ other. other == slot) → (disks_of cut).tells_left → IsDataHistoryOn group (behind old (give_back old.past slot) cut old.promises) }
{}

/// A read of an array of the group prints of each block bytes that the block may have by what its history promises, whichever reads fail on the way,
/// and where it stops behind the first blocks. One current member can be read, and the read left out each slot that counts as lost, if any does.
pub fn a_read_prints_what_its_history_promises()
    ensures { (group : List ℕ) (old : Moment group MemoryBay) (exit : MemoryBay) (guid : List ℕ) → IsDataHistoryOn group old → HasMemberOn group old.past old.bay → (read : IsRead group old.bay exit guid)
        → LeavesLostOut group old.past read.has.left → (disks_of exit).tells_left → (allowed : Allowed) → old.promises guid ≡ Some allowed → MayBe allowed read.start (blocks_printed read.outcome) }
{}

/// A history of the data of a group from elsewhere begins where it was found whole on disks in memory, of which nothing is pending and none is
/// unplugged: nothing is promised of its arrays yet. A command that then finds it with no member absent is what the history admits, and once a change
/// of this engine is acknowledged nothing has to be assumed of the group any more.
pub fn a_group_that_was_found_whole_goes_on_with_its_data()
    ensures begins { (group : List ℕ) (bay : MemoryBay) (found : GroupValue) (begins : BeginsFound group (disks_of bay) found) → (disks_of bay).tells_left
        → ((slot : ℕ) → IsSettled (disks_of bay).may_hold (disks_of bay).held slot) → ((slot : ℕ) → slot < length (disks_of bay).sizes → (disks_of bay).gone slot → ⊥) → IsFoundData group begins.past bay }
    ensures finds { (group : List ℕ) (old : Moment group MemoryBay) (exit : MemoryBay) → IsYoungDataOn group old → LeadsOn group old.past (disks_of old.bay) → GoesWell old.bay exit → (disks_of exit).tells_left
        → (left : List Bool) → length left ≡ length (disks_of old.bay).sizes
        → ((slot : ℕ) → slot < length left → IsTrue (slice_index_or left slot false) → LookFailed (disks_of old.bay) (disks_of exit) slot)
        → (newest : List (Option Newest)) → newest ≡ newest_from (disks_of old.bay) 0 left → (found : GroupValue) → group_of newest (Some group) ≡ Ok found → found.absent ≡ [] → FindsOn group old left newest }
    ensures ends { (group : List ℕ) (old : Moment group MemoryBay) (call : CallOn group old) → IsYoungDataOn group old → GoesWell old.bay (exit_on group old call)
        → (disks_of (exit_on group old call)).tells_left → EndsOurs group old call }
{}

/// From the label on, through an array that is created and resynced, a write of blocks that is acknowledged, another one that a stop cuts anywhere,
/// and a disk that is lost: a read prints, of each block that it prints, the bytes of its last acknowledged write, of one that was given to the
/// interrupted write those or its new ones, and of one that was never written those that it had once the array was resynced.
// promise:written
pub fn what_was_written_outlives_a_stop_and_a_lost_disk()
    ensures { (large : Bool) (revision : Revision) (stamp : Stamp) (guid : List ℕ) (kept lost : ℕ) (life : IsLife large revision stamp guid kept lost) → Outlives life }
{}
