//! Laws of older images: functions that do nothing, whose contracts are the laws.
ghost use Rattle.std.specs.Prelude.{◌≡◌, ◌≤◌, ℕ, [], ◌∷◌, ◌++◌, Bool, false, true, List, Option, Ok, length};
ghost use Rattle.std.specs.List.{AllByRecursion};
ghost use Rattle.ddf_bytes.specs.declared.stamp.Stamp.{Stamp};
ghost use Rattle.ddf_bay.specs.Moments.{StopsLeave};
ghost use Rattle.ddf_bay.specs.Sectors.{IsLeft};
ghost use Rattle.ddf_config.specs.Configuration.{Configuration};
ghost use Rattle.ddf_plan.specs.declared.change.Change.{Change};
ghost use Rattle.ddf_history.specs.Groups.{groups};
ghost use Rattle.ddf_history.specs.History.{AllKept, IsHistory, Moment};
ghost use Rattle.ddf_history.specs.Issued.{Past, give_back, lose};
ghost use Rattle.ddf_history.specs.Promise.{IsKept};
ghost use Rattle.ddf_history.specs.Reading.{Each};
ghost use Rattle.ddf_history.specs.Scenes.{scene_of};
ghost use Rattle.ddf_seats.specs.Group.{GroupValue};
ghost use Rattle.ddf_seats.specs.Seated.{seated};
ghost use Rattle.ddf_assembly.specs.Group.{group_of};
ghost use Rattle.ddf_assembly.specs.Slots.{newest_from};
ghost use Rattle.ddf_recovery.specs.Committed.{group_next, group_recovered, left_behind};
ghost use Rattle.ddf_recovery.specs.Ready.{ReadyValue, readied};
ghost use Rattle.ddf_steps.specs.Steps.{Step};
ghost use Rattle.ddf_joining.specs.Importing.{IsOfAnother};
ghost use Rattle.ddf_joining.specs.Joining.{Joining, join_config, joining};
ghost use Rattle.ddf_joining.specs.JoinValue.{JoinValue};
ghost use Rattle.ddf_history_steps.specs.BlockFloors.{AreFloored, StaySettled, WritesBelow, floor_in};
ghost use Rattle.ddf_history_steps.specs.Course.{changes_ready};
ghost use Rattle.ddf_history_steps.specs.Going.{Ends, Goes, IsAdmitted, KeepsHistory, changes_in};
ghost use Rattle.ddf_history_steps.specs.Kept.{AreAllKept, is_read};
ghost use Rattle.ddf_history_steps.specs.Steps.{IsCommit, IsRecovery, WasTaken, behind_recovery, recovery_changes};
ghost use Rattle.ddf_history_joins.specs.Joins.{AdmitsCall, IsImport, StandsToJoin, WereBothTaken, import_changes};
ghost use Rattle.ddf_history_behind.specs.Behind.{AbsentAreCurrent, AreNear, IsNearWay, KeepsNear, KeepsNearJoin, LosesSome, NoneLags, NoneStale};
ghost use Rattle.ddf_words.specs.declared.command.Wish.{Wish};
ghost use Rattle.ddf_group_commands.specs.Assemble.{no_change};
ghost use Rattle.ddf_group_commands.specs.Requests.{request_for};
ghost use Rattle.ddf_write_commands.specs.Resync.{resync_request};
ghost use Rattle.ddf_write_commands.specs.Write.{write_request};
ghost use Rattle.ddf_rebuild_command.specs.Asked.{rebuild_request};
ghost use Rattle.ddf_rebuild_command.specs.GoingBack.{copyback_request};
ghost use Rattle.ddf_command.specs.History.{Leaves};
ghost use Rattle.ddf_history_behind.specs.Commands.{IsCommandCall, LosesNone, NoneStaleAt};

use ddf_bay::Bay;
use ddf_command::a_group_is_assembled_at_every_moment_of_its_history;

/// Where each slot shows what it should by a history whose changes are near one another, no seat of what is assembled is taken for an older image: not that
/// of a disk that stops left behind, nor that of one that has come back from a loss.
pub fn no_disk_of_a_history_is_taken_for_an_older_image<B: Bay>()
    ensures { (group : List ℕ) (bay : B) (past : Past (groups group)) → past.slots ≡ length (B.disks bay).sizes
        → IsKept past (scene_of (B.disks bay).sizes (B.disks bay).held) → AreNear group past.changes
        → NoneLags group past (scene_of (B.disks bay).sizes (B.disks bay).held) → NoneStale group past (B.disks bay) }
{}

/// Where a call keeps a history of a group of this engine so, no stop leaves such a disk: not at any moment since the call's entry, and not at its end.
pub fn no_stop_leaves_a_disk_that_is_taken_for_an_older_image<B: Bay>()
    ensures at_any_moment { (group : List ℕ) (past : Past (groups group)) (old new : B) (left : List Bool) (found : GroupValue) (changes : List Configuration) (done : Bool)
        → past.slots ≡ length (B.disks old).sizes → past.changes.own_from ≤ past.changes.acked → KeepsNear group (B.disks old) (B.disks new) past left found changes done
        → StopsLeave (B.disks old) (B.disks new) (λ image. (now : Past (groups group)) × Goes group past (is_read left) found changes now
        × ((cut : B) → (B.disks cut).sizes ≡ (B.disks old).sizes → (B.disks cut).held ≡ image → NoneStale group now (B.disks cut))) }
    ensures at_its_end { (group : List ℕ) (past : Past (groups group)) (old new : B) (left : List Bool) (found : GroupValue) (changes : List Configuration) (done : Bool)
        → past.slots ≡ length (B.disks old).sizes → past.changes.own_from ≤ past.changes.acked → KeepsNear group (B.disks old) (B.disks new) past left found changes done
        → (B.disks new).sizes ≡ (B.disks old).sizes → (B.disks new).tells_left
        → (now : Past (groups group)) × Ends group past (is_read left) found changes done now
        × ((cut : B) → (B.disks cut).sizes ≡ (B.disks new).sizes → IsLeft (B.disks new).may_hold (B.disks cut).held → NoneStale group now (B.disks cut)) }
{}

/// In a history of a group whose calls are those of commands, with stops within them and between them, and losses and returns of disks: at every moment, whatever a
/// stop leaves, no seat of what is assembled of it is taken for an older image. A change of this engine is acknowledged at its start.
pub fn no_moment_of_a_history_has_a_disk_that_is_taken_for_an_older_image<B: Bay>()
    ensures { (told : B.tells) (group : List ℕ) (start : Moment (groups group) B) (history : List (Moment (groups group) B))
        → AllKept (Leaves told B.disks group) start → AreNear group start.past.changes → start.past.changes.own_from ≤ start.past.changes.acked
        → IsHistory (Leaves told B.disks group) (IsCommandCall told B.disks group) start history → Each (NoneStaleAt told B.disks group) (start ∷ history) }
{
    a_group_is_assembled_at_every_moment_of_its_history::<B>();
}

/// What the words of a command ask of a group is no loss of no member.
pub fn no_command_loses_nothing()
    ensures changes { (slots : ℕ) (stamp : Stamp) (wish : Wish) (linux : List ℕ) → LosesNone (request_for slots stamp wish linux) }
    ensures assembles { LosesNone no_change }
    ensures resyncs { (word : List ℕ) → LosesNone (resync_request word) }
    ensures writes { (word : List ℕ) (start count : ℕ) → LosesNone (write_request word start count) }
    ensures rebuilds { (word : List ℕ) (linux : List ℕ) → LosesNone (rebuild_request word linux) }
    ensures goes_back { (count : ℕ) (word : List ℕ) (slot : ℕ) (linux : List ℕ) → LosesNone (copyback_request count word slot linux) }
{}

/// A history begins so, with one configuration, and stays so where a slot is lost, or comes back.
pub fn a_history_begins_with_no_disk_behind()
    ensures begins { (group : List ℕ) (past : Past (groups group)) (config : Configuration) → past.changes.issued ≡ config ∷ [] → AreNear group past.changes }
    ensures lost { (group : List ℕ) (past : Past (groups group)) (slot : ℕ) → AreNear group past.changes → AreNear group (lose past slot).changes }
    ensures back { (group : List ℕ) (past : Past (groups group)) (slot : ℕ) → AreNear group past.changes → AreNear group (give_back past slot).changes }
{}

/// A call that recovers a group, and then writes steps of it one after another and blocks between them, keeps each history that admits it so, at any
/// moment since its entry and at its end: by what `recover`, `commit` and calls on blocks promise, each in turn. No loss of no member is asked of it.
pub fn a_call_leaves_no_disk_far_behind<B: Bay>()
    ensures recovers { (group : List ℕ) (past : Past (groups group)) (old new : B) (left : List Bool) (named : Option (List ℕ)) (found : GroupValue) (asked : List Change)
        (timestamp : ℕ) (ready : ReadyValue) → WasTaken (B.disks old) left named found asked timestamp ready → found.config.group ≡ group → AreAllKept group past (B.disks old)
        → IsAdmitted group past (B.disks old) left found → AreNear group past.changes → AllByRecursion LosesSome asked → IsRecovery (B.disks old) (B.disks new) found ready true
        → IsNearWay group (B.disks old) (B.disks new) past left found (changes_ready found ready) (group_recovered found ready.recovery) (behind_recovery ready) }
    ensures recovery_fails { (group : List ℕ) (past : Past (groups group)) (old new : B) (left : List Bool) (named : Option (List ℕ)) (found : GroupValue) (asked : List Change)
        (timestamp : ℕ) (ready : ReadyValue) → WasTaken (B.disks old) left named found asked timestamp ready → found.config.group ≡ group → AreAllKept group past (B.disks old)
        → IsAdmitted group past (B.disks old) left found → AreNear group past.changes → IsRecovery (B.disks old) (B.disks new) found ready false
        → KeepsNear group (B.disks old) (B.disks new) past left found (changes_ready found ready) false }
    ensures commits { (group : List ℕ) (past : Past (groups group)) (old middle new : B) (left : List Bool) (found : GroupValue) (changes : List Configuration)
        (now_found : GroupValue) (ready : ReadyValue) → IsNearWay group (B.disks old) (B.disks middle) past left found changes now_found ready
        → (B.disks middle).moment ≤ (B.disks new).moment → IsCommit (B.disks middle) (B.disks new) ready true
        → IsNearWay group (B.disks old) (B.disks new) past left found changes (group_next now_found ready) (left_behind ready) }
    ensures commit_fails { (group : List ℕ) (past : Past (groups group)) (old middle new : B) (left : List Bool) (found : GroupValue) (changes : List Configuration)
        (now_found : GroupValue) (ready : ReadyValue) → IsNearWay group (B.disks old) (B.disks middle) past left found changes now_found ready
        → (B.disks middle).moment ≤ (B.disks new).moment → IsCommit (B.disks middle) (B.disks new) ready false → KeepsNear group (B.disks old) (B.disks new) past left found changes false }
    ensures writes { (group : List ℕ) (past : Past (groups group)) (old middle new : B) (left : List Bool) (found : GroupValue) (changes : List Configuration)
        (now_found : GroupValue) (ready : ReadyValue) → IsNearWay group (B.disks old) (B.disks middle) past left found changes now_found ready → AreFloored (seated now_found)
        → WritesBelow (floor_in now_found.seats) (B.disks middle) (B.disks new) → StaySettled (B.disks middle) (B.disks new)
        → IsNearWay group (B.disks old) (B.disks new) past left found changes now_found ready }
    ensures write_fails { (group : List ℕ) (past : Past (groups group)) (old middle new : B) (left : List Bool) (found : GroupValue) (changes : List Configuration)
        (now_found : GroupValue) (ready : ReadyValue) → IsNearWay group (B.disks old) (B.disks middle) past left found changes now_found ready → AreFloored (seated now_found)
        → WritesBelow (floor_in now_found.seats) (B.disks middle) (B.disks new) → KeepsNear group (B.disks old) (B.disks new) past left found changes false }
    ensures ends { (group : List ℕ) (past : Past (groups group)) (old new : B) (left : List Bool) (found : GroupValue) (changes : List Configuration)
        (now_found : GroupValue) (ready : ReadyValue) → IsNearWay group (B.disks old) (B.disks new) past left found changes now_found ready → ready.steps ≡ []
        → KeepsNear group (B.disks old) (B.disks new) past left found changes true }
{}

/// What is absent of a group that is assembled from disks are current members of it, whichever slots are left out, and whether a group is named or not.
pub fn what_is_absent_is_a_current_member<B: Bay>()
    ensures { (bay : B) (left : List Bool) (named : Option (List ℕ)) (found : GroupValue) → group_of (newest_from (B.disks bay) 0 left) named ≡ Ok found → AbsentAreCurrent found }
{}

/// A command that asks for changes of a group keeps each history that admits it so, however it ends and wherever a stop cuts it, by what its contract says of the
/// history: for it issues its changes in turn, and acknowledges each before the next. So does one by which another group's disks join.
pub fn a_command_leaves_no_disk_far_behind<B: Bay>()
    ensures changes { (group : List ℕ) (past : Past (groups group)) (old new : B) (left : List Bool) (found : GroupValue) (asked : List Change) (timestamp : ℕ)
        (steps : List Step) (done : Bool) → readied found asked timestamp ≡ Ok steps → AllByRecursion LosesSome asked → AbsentAreCurrent found
        → IsAdmitted group past (B.disks old) left found → AreNear group past.changes
        → KeepsHistory group (B.disks old) (B.disks new) past left found (changes_in found steps) done
        → KeepsNear group (B.disks old) (B.disks new) past left found (changes_in found steps) done }
    ensures joins { (group : List ℕ) (past : Past (groups group)) (old new : B) (left : List Bool) (native other : GroupValue) (timestamp : ℕ) (made : Joining) (done : Bool)
        → joining timestamp native other ≡ Ok made → AbsentAreCurrent native → IsAdmitted group past (B.disks old) left native → AreNear group past.changes
        → KeepsHistory group (B.disks old) (B.disks new) past left native (recovery_changes timestamp native ++ made.step.config ∷ []) done
        → KeepsNear group (B.disks old) (B.disks new) past left native (recovery_changes timestamp native ++ made.step.config ∷ []) done }
{}

/// The join of another group's disks keeps a history so, behind a recovery, and so does a call that recovers the group first.
pub fn an_import_leaves_no_disk_far_behind<B: Bay>()
    ensures joins { (group : List ℕ) (past : Past (groups group)) (old new : B) (timestamp : ℕ) (native other : GroupValue) (recovery : ReadyValue)
        (join : JoinValue) (done : Bool) → StandsToJoin group past (B.disks old) timestamp native other recovery join
        → IsImport (B.disks old) (B.disks new) join done → KeepsNearJoin group (B.disks old) (B.disks new) past join done }
    ensures imports { (group : List ℕ) (past : Past (groups group)) (old middle new : B) (left also_left : List Bool) (named also_named : Option (List ℕ))
        (native other : GroupValue) (timestamp : ℕ) (recovery : ReadyValue) (join : JoinValue) (done : Bool)
        → WereBothTaken (B.disks old) left also_left named also_named native other timestamp recovery join
        → native.config.group ≡ group → AreAllKept group past (B.disks old) → IsAdmitted group past (B.disks old) left native
        → IsOfAnother (join_config native other) (seated other) → AdmitsCall group past (B.disks old) native other → AreNear group past.changes
        → IsRecovery (B.disks old) (B.disks middle) native recovery true → IsImport (B.disks middle) (B.disks new) join done
        → KeepsNear group (B.disks old) (B.disks new) past left native (import_changes group timestamp native join) done }
{}
