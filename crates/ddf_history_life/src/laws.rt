//! Laws of the headline in use: functions that do nothing, whose contracts are the laws. docs/PROOF.md#proved
ghost use Rattle.std.specs.Prelude.{◌≡◌, ◌<◌, ◌+◌, ◌-◌, ◌^◌, ℕ, Bool, List, [], Ok, Err, length};
ghost use Rattle.ddf_bytes.specs.declared.stamp.Stamp.{Stamp};
ghost use Rattle.ddf_header.specs.declared.kind.Revision.{Revision};
ghost use Rattle.ddf_bay.specs.Memory.{disks_of};
ghost use Rattle.ddf_bay.specs.Sectors.{Image};
ghost use Rattle.ddf_bay.specs.declared.memory.MemoryBay.{MemoryBay};
ghost use Rattle.ddf_update.specs.NewCopies.{group_of as name_of};
ghost use Rattle.ddf_history.specs.Groups.{groups};
ghost use Rattle.ddf_history.specs.Issued.{Past};
ghost use Rattle.ddf_history_steps.specs.Going.{changes_in};
ghost use Rattle.ddf_answer.specs.declared.failure.Failure.TheVariants.{Memory};
ghost use Rattle.ddf_answer.specs.Call.{work_of};
ghost use Rattle.ddf_disk_commands.specs.Label.{IsTried, label_copy};
ghost use Rattle.ddf_group_commands.specs.Change.{is_done, most_calls};
ghost use Rattle.ddf_history_memory.specs.Histories.{HasMemberOn, IsCutAt, IsHistoryOn, LeavesCut, LeavesHistory};
ghost use Rattle.ddf_history_life.specs.Commands.{GoesOnTo, IsAsked, IsBegun, IsCommand, IsToldAsPromised};
ghost use Rattle.ddf_history_life.specs.Life.{IsLife, Outlives};

/// A `label` of all disks of a bay in memory begins a history of the new group: there is one, and the names are new, since no slot is left over.
pub fn a_label_of_all_disks_begins_a_history()
    ensures { (large : Bool) (revision : Revision) (stamp : Stamp) (old new : MemoryBay) → IsTried (work_of (Unit {0}) (disks_of old) (disks_of new)) large revision stamp [] (Ok tt)
        → (disks_of new).sizes ≡ (disks_of old).sizes → (disks_of old).tells_left
        → IsBegun (name_of stamp) (length (disks_of old).sizes) (label_copy large revision stamp (disks_of old).sizes []) new }
{}

/// Each command on the group, of which one current member can be read, goes on in its history, whatever it comes to: at its end, where the bay
/// still tells what a stop may leave, and with whatever image a stop left since its entry. All that was acknowledged stays.
pub fn a_command_goes_on_in_its_history()
    ensures ends { (group : List ℕ) (past : Past (groups group)) (old exit : MemoryBay) → IsHistoryOn group past old → HasMemberOn group past old → (command : IsCommand group old exit)
        → (disks_of exit).tells_left → GoesOnTo group past exit }
    ensures cut { (group : List ℕ) (past : Past (groups group)) (old exit cut : MemoryBay) (image : Image) → IsHistoryOn group past old → HasMemberOn group past old → (command : IsCommand group old exit)
        → (disks_of exit).left_since (disks_of old).moment image → IsCutAt old image cut → GoesOnTo group past cut }

    // By what it found and asked for it is told how far it came: where it was done, all its changes are acknowledged.
    ensures asked { (group : List ℕ) (past : Past (groups group)) (old exit : MemoryBay) → IsHistoryOn group past old → HasMemberOn group past old → (command : IsCommand group old exit)
        → (asked : IsAsked group old exit command) → (command.outcome ≡ Err Memory → ⊥) → (disks_of exit).tells_left
        → LeavesHistory group past exit command.has.taken.left asked.found (changes_in asked.found asked.steps) (is_done command.outcome) }
    ensures asked_cut { (group : List ℕ) (past : Past (groups group)) (old exit cut : MemoryBay) (image : Image) → IsHistoryOn group past old → HasMemberOn group past old → (command : IsCommand group old exit)
        → (asked : IsAsked group old exit command) → (disks_of exit).left_since (disks_of old).moment image → IsCutAt old image cut
        → LeavesCut group past cut command.has.taken.left asked.found (changes_in asked.found asked.steps) }
{}

/// Behind a command a bay in memory still tells what a stop may leave, where its clock and its count of calls are so far below the last value, 2^64 - 1,
/// as the most calls that the command makes of its slots.
pub fn a_command_leaves_a_bay_that_still_tells()
    ensures { (group : List ℕ) (old exit : MemoryBay) (command : IsCommand group old exit) → (disks_of old).calls + most_calls (length (disks_of old).sizes) < 2 ^ 64 - 1
        → (disks_of old).moment + most_calls (length (disks_of old).sizes) < 2 ^ 64 - 1 → (disks_of exit).tells_left }
{}

/// What a command finds of the group is promised, whatever was lost before, where one current member can be read and memory is ample: a
/// configuration since the last acknowledged one, or, where a disk that has come back is read, maybe two records that contradict each other.
pub fn a_command_tells_what_is_promised()
    ensures { (group : List ℕ) (past : Past (groups group)) (old exit : MemoryBay) → IsHistoryOn group past old → HasMemberOn group past old → (command : IsCommand group old exit)
        → (command.outcome ≡ Err Memory → ⊥) → (disks_of exit).tells_left → IsToldAsPromised group past old exit command }
{}

/// From the label on, through a command that a stop cuts anywhere, a disk that is lost, commands that are done without it, and its return: all that was
/// acknowledged is there, and what is assembled in the end is the configuration behind the last acknowledged change, or names two records that
/// contradict each other.
// promise:acknowledged
pub fn what_was_acknowledged_outlives_stops_and_a_lost_disk()
    ensures { (large : Bool) (revision : Revision) (stamp : Stamp) (kept lost : ℕ) (life : IsLife large revision stamp kept lost) → Outlives large revision stamp kept lost life }
{}
