//! Laws of histories of a group on disks in memory: functions that do nothing, whose contracts are the laws.
ghost use Rattle.std.specs.Prelude.{◌≡◌, ◌<◌, ◌≤◌, ◌+◌, ◌-◌, ◌^◌, ℕ, Bool, true, false, ◌==◌, [], List, map, Option, None, Some, Ok, length};
ghost use Rattle.ddf_bay.specs.Memory.{disks_of, state_of, without};
ghost use Rattle.ddf_bay.specs.Moments.{IsSettled};
ghost use Rattle.ddf_bay.specs.ReadsOnly.{ReadsOnly};
ghost use Rattle.ddf_bay.specs.Sectors.{Image};
ghost use Rattle.ddf_bay.specs.declared.memory.MemoryBay.{MemoryBay};
ghost use Rattle.ddf_config.specs.Configuration.{Configuration};
ghost use Rattle.ddf_copy.specs.declared.newest_copy.Newest.{Newest};
ghost use Rattle.ddf_plan.specs.declared.change.Change.{Change};
ghost use Rattle.ddf_group.specs.Choice.{is_absorbed};
ghost use Rattle.ddf_group.specs.Shown.{shown_of};
ghost use Rattle.ddf_group.specs.Slots.{group_shown, shows_group, slot_at};
ghost use Rattle.ddf_history.specs.Groups.{groups, has_current, has_missing};
ghost use Rattle.ddf_history.specs.Issued.{IsSince, Past, give_back, lose};
ghost use Rattle.ddf_seats.specs.Group.{GroupValue};
ghost use Rattle.ddf_assembly.specs.Group.{group_of};
ghost use Rattle.ddf_recovery.specs.Ready.{readied};
ghost use Rattle.ddf_assembly.specs.Slots.{AreOut};
ghost use Rattle.ddf_steps.specs.Steps.{Step};
ghost use Rattle.ddf_history_steps.specs.Going.{Ends, IsOver, changes_in};
ghost use Rattle.ddf_history_steps.specs.Kept.{is_read};
ghost use Rattle.ddf_history_memory.specs.Found.{BeginsFound, IsFoundWhole, IsYoungOn, LeadsOn, LeavesFound, LeavesOurs, StandsFound};
ghost use Rattle.ddf_history_memory.specs.Histories.{AreRead, GoesWell, HasMemberOn, IsAnswered, IsCutAt, IsHistoryOn, IsStopped, IsTaken, LeavesCut, LeavesHistory, StaysMember};

use ddf_bay::Bay;

/// A call on the group, of which one current member can be read, leaves a history of it that goes on: at its end, where the bay still tells what a
/// stop may leave, and with whatever image a stop left since its entry.
pub fn a_call_goes_on_in_its_history()
    ensures ends { (group : List ℕ) (past : Past (groups group)) (old exit : MemoryBay) (readable : List Bool) (found : GroupValue) (changes : List Configuration) (done : Bool)
        → IsHistoryOn group past old → HasMemberOn group past old → GoesWell old exit → IsTaken group old exit readable found changes done
        → (disks_of exit).tells_left → LeavesHistory group past exit readable found changes done }
    ensures cut { (group : List ℕ) (past : Past (groups group)) (old exit cut : MemoryBay) (readable : List Bool) (found : GroupValue) (changes : List Configuration) (done : Bool) (image : Image)
        → IsHistoryOn group past old → HasMemberOn group past old → GoesWell old exit → IsTaken group old exit readable found changes done
        → (disks_of exit).left_since (disks_of old).moment image → IsCutAt old image cut → LeavesCut group past cut readable found changes }
{}

/// A call that only reads leaves the history as it is, at its end and with whatever image a stop left since its entry.
pub fn a_call_that_only_reads_leaves_its_history()
    ensures ends { (group : List ℕ) (past : Past (groups group)) (old exit : MemoryBay) → IsHistoryOn group past old → GoesWell old exit
        → ReadsOnly (disks_of old) (disks_of exit) → IsHistoryOn group past exit }
    ensures cut { (group : List ℕ) (past : Past (groups group)) (old exit cut : MemoryBay) (image : Image) → IsHistoryOn group past old → GoesWell old exit
        → ReadsOnly (disks_of old) (disks_of exit) → (disks_of exit).left_since (disks_of old).moment image → IsCutAt old image cut → IsHistoryOn group past cut }
{}

/// A stop between calls goes on in the history, where each disk that is lost is still away. A slot that was unplugged, and whose disk doesn't count as lost, may be
/// there again.
pub fn a_stop_goes_on_in_its_history()
    ensures { (group : List ℕ) (past : Past (groups group)) (old cut : MemoryBay) (back : ℕ → Bool) → IsHistoryOn group past old → IsStopped old cut back
        → ((slot : ℕ) → past.lost slot ≡ true → back slot ≡ false) → IsHistoryOn group past cut }
{}

/// Where a slot is unplugged its disk is lost. Until a call goes on without it, it may be counted as not lost too.
pub fn an_unplugged_disk_is_lost()
    ensures lost { (group : List ℕ) (past : Past (groups group)) (old new : MemoryBay) (slot : ℕ) → IsHistoryOn group past old → state_of new ≡ without (state_of old) slot
        → (disks_of new).gone slot → IsHistoryOn group (lose past slot) new }
    ensures stays { (group : List ℕ) (past : Past (groups group)) (old new : MemoryBay) (slot : ℕ) → IsHistoryOn group past old → state_of new ≡ without (state_of old) slot
        → IsHistoryOn group past new }
{}

/// A disk that was lost comes back at a stop, with what it held, while each configuration since the last acknowledged one lists it as missing: the
/// history goes on with a disk that has returned.
pub fn a_disk_that_comes_back_goes_on_in_its_history()
    ensures { (group : List ℕ) (past : Past (groups group)) (old cut : MemoryBay) (slot : ℕ) → IsHistoryOn group past old
        → ((number : ℕ) (config : Configuration) → IsSince past.changes number config → has_missing config (past.disk slot) ≡ true)
        → IsStopped old cut (λ other. other == slot) → IsHistoryOn group (give_back past slot) cut }
{}

/// Behind a call that was done each current member of the configuration that it found, whose slot is unplugged, is missing: so it may come back.
pub fn a_disk_that_was_left_out_is_missing()
    ensures { (group : List ℕ) (past now : Past (groups group)) (old exit : MemoryBay) (readable : List Bool) (found : GroupValue) (asked : List Change) (timestamp : ℕ) (steps : List Step)
        → IsHistoryOn group past old → HasMemberOn group past old → GoesWell old exit → IsTaken group old exit readable found (changes_in found steps) true
        → (disks_of exit).tells_left → readied found asked timestamp ≡ Ok steps → IsOver group past (is_read readable) found (changes_in found steps) now
        → (slot : ℕ) → slot < length (disks_of old).sizes → (disks_of old).gone slot → has_current found.config (past.disk slot) ≡ true
        → (number : ℕ) (config : Configuration) → IsSince now.changes number config → has_missing config (now.disk slot) ≡ true }
{}

/// A disk that each configuration since the last acknowledged one lists as a current member, and each step of a call too, is one behind the call,
/// however far that came: where its slot isn't unplugged it can be read. One that was missing is so.
pub fn a_kept_member_is_a_member_behind_a_call()
    ensures member { (group : List ℕ) (past now : Past (groups group)) (new : MemoryBay) (readable : ℕ → Bool) (found : GroupValue) (asked : List Change) (timestamp : ℕ) (steps : List Step) (done : Bool)
        → readied found asked timestamp ≡ Ok steps → Ends group past readable found (changes_in found steps) done now → IsHistoryOn group now new → (disks_of new).tells_left
        → (slot : ℕ) → slot < length (disks_of new).sizes → ((disks_of new).gone slot → ⊥) → StaysMember group past slot steps → HasMemberOn group now new }
    ensures current { (group : List ℕ) (past now : Past (groups group)) (readable : ℕ → Bool) (found : GroupValue) (asked : List Change) (timestamp : ℕ) (steps : List Step) (done : Bool)
        → readied found asked timestamp ≡ Ok steps → Ends group past readable found (changes_in found steps) done now → (slot : ℕ) → StaysMember group past slot steps
        → (number : ℕ) (config : Configuration) → IsSince now.changes number config → has_current config (now.disk slot) ≡ true }
    ensures missing { (group : List ℕ) (past now : Past (groups group)) (readable : ℕ → Bool) (found : GroupValue) (asked : List Change) (timestamp : ℕ) (steps : List Step) (done : Bool)
        → readied found asked timestamp ≡ Ok steps → Ends group past readable found (changes_in found steps) done now
        → (slot : ℕ) → ((number : ℕ) (config : Configuration) → IsSince past.changes number config → has_missing config (past.disk slot) ≡ true)
        → (number : ℕ) (config : Configuration) → IsSince now.changes number config → has_missing config (now.disk slot) ≡ true }
{}

/// What is assembled of the disks is promised, whatever was lost before, where one current member can be read: a configuration since the last
/// acknowledged one, or, where a disk that has come back is read, maybe two records that contradict each other.
pub fn disks_are_assembled_as_promised()
    ensures { (group : List ℕ) (past : Past (groups group)) (bay : MemoryBay) (left : List Bool) → IsHistoryOn group past bay → HasMemberOn group past bay → (disks_of bay).tells_left
        → length left ≡ length (disks_of bay).sizes → AreOut (disks_of bay) left → AreRead bay left → IsAnswered group past bay left }
{}

/// A bay in memory still tells what a stop may leave behind calls that are counted, while its clock and their count stay below the last value.
pub fn a_bay_still_tells_behind_counted_calls()
    ensures { (old exit : MemoryBay) (most : ℕ) → GoesWell old exit → (disks_of exit).calls ≤ (disks_of old).calls + most → (disks_of old).calls + most < 2 ^ 64 - 1
        → (disks_of old).moment + most < 2 ^ 64 - 1 → (disks_of exit).tells_left }
{}

/// A call over a bay in memory leaves out no slot but those that are unplugged.
pub fn no_plugged_slot_is_left_out()
    ensures { (group : List ℕ) (old exit : MemoryBay) (readable : List Bool) (found : GroupValue) (changes : List Configuration) (done : Bool)
        → GoesWell old exit → IsTaken group old exit readable found changes done → (disks_of exit).tells_left → AreRead old readable }
{}

/// A group that `assemble` found over all slots of a bay, with nothing absent and nothing behind, begins a history, as one from elsewhere.
pub fn a_group_that_was_found_whole_begins_a_history<B: Bay>()
    ensures { (group : List ℕ) (bay : B) (left : List Bool) (found : GroupValue) → IsFoundWhole group (B.disks bay) left found → BeginsFound group (B.disks bay) found }
{}

/// A group that was found so on disks in memory, of which nothing is pending and none is unplugged, goes on: the first call that is done and makes a
/// change leaves a history in which it is acknowledged, and nothing has to be assumed of the group any more. Until then no member is absent.
pub fn a_group_that_was_found_whole_goes_on()
    ensures begins { (group : List ℕ) (bay : MemoryBay) (found : GroupValue) (begins : BeginsFound group (disks_of bay) found)
        → ((slot : ℕ) → IsSettled (disks_of bay).may_hold (disks_of bay).held slot) → ((slot : ℕ) → slot < length (disks_of bay).sizes → (disks_of bay).gone slot → ⊥)
        → IsYoungOn group begins.past bay }
    ensures goes_on { (group : List ℕ) (past : Past (groups group)) (old exit : MemoryBay) (readable : List Bool) (found : GroupValue) (changes : List Configuration) (done : Bool)
        → IsYoungOn group past old → LeadsOn group past (disks_of old) → GoesWell old exit → IsTaken group old exit readable found changes done → found.absent ≡ []
        → (disks_of exit).tells_left → LeavesOurs group past exit readable found changes done }

    // A call that leaves the sectors as they were, as one that has nothing to write, leaves it so that the next call may be the first to change it; so does one that only reads.
    ensures stays { (group : List ℕ) (past : Past (groups group)) (old exit : MemoryBay) (readable : List Bool) (found : GroupValue) (changes : List Configuration) (done : Bool)
        → IsYoungOn group past old → LeadsOn group past (disks_of old) → GoesWell old exit → IsTaken group old exit readable found changes done → found.absent ≡ []
        → (disks_of exit).tells_left → ((slot lba : ℕ) → (disks_of exit).held slot lba ≡ (disks_of old).held slot lba) → LeavesFound group past exit readable found changes done }
    ensures reads { (group : List ℕ) (past : Past (groups group)) (old exit : MemoryBay) → IsYoungOn group past old → LeadsOn group past (disks_of old) → GoesWell old exit
        → ReadsOnly (disks_of old) (disks_of exit) → StandsFound group past exit }
{}

/// A group that is shown isn't absorbed where no other one is shown, and is the one that is meant where none is named.
pub fn a_group_that_is_shown_alone_isnt_absorbed()
    ensures free { (newest : List (Option Newest)) (group : List ℕ) (slot : ℕ) → shows_group group (slot_at (map shown_of newest) slot) ≡ true
        → ((other : ℕ) (found : List ℕ) → group_shown (slot_at (map shown_of newest) other) ≡ Some found → found ≡ group) → is_absorbed (map shown_of newest) group ≡ false }
    ensures meant { (newest : List (Option Newest)) (group : List ℕ)
        → ((slot : ℕ) (other : List ℕ) → group_shown (slot_at (map shown_of newest) slot) ≡ Some other → other ≡ group) → group_of newest None ≡ group_of newest (Some group) }
{}
