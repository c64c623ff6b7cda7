//! Laws of calls on blocks in a history: functions that do nothing, whose contracts are the laws.
ghost use Rattle.std.specs.Prelude.{◌≡◌, ◌≤◌, ℕ, [], List, Bool, false, true, Option, Ok};
ghost use Rattle.ddf_bay.specs.Moments.{StopsLeave};
ghost use Rattle.ddf_config.specs.Configuration.{Configuration};
ghost use Rattle.ddf_copy.specs.declared.newest_copy.Newest.{Newest};
ghost use Rattle.ddf_plan.specs.declared.change.Change.{Change};
ghost use Rattle.ddf_recovery.specs.Committed.{IsReadyFor, WasReadied, group_next, group_recovered, left_behind};
ghost use Rattle.ddf_seats.specs.Group.{GroupValue};
ghost use Rattle.ddf_assembly.specs.Group.{group_of};
ghost use Rattle.ddf_recovery.specs.Ready.{ReadyValue};
ghost use Rattle.ddf_history.specs.Groups.{groups};
ghost use Rattle.ddf_history.specs.Issued.{Past};
ghost use Rattle.ddf_history.specs.Promise.{IsKept};
ghost use Rattle.ddf_history.specs.Scenes.{scene_of};
ghost use Rattle.ddf_history_steps.specs.AtEnd.{IsAtEnd};
ghost use Rattle.ddf_history_steps.specs.Going.{IsAdmitted, KeepsHistory};
ghost use Rattle.ddf_history_steps.specs.Kept.{AreAllKept};
ghost use Rattle.ddf_history_steps.specs.Steps.{IsCommit, IsRecovery, WasTaken, behind_recovery};
ghost use Rattle.ddf_history_steps.specs.Course.{IsUnderWay, changes_ready};
ghost use Rattle.ddf_history_steps.specs.BlockFloors.{AreFloored, HaveFloors, StaySettled, WritesBelow, floor_in};
ghost use Rattle.ddf_seats.specs.Seated.{seated};

use ddf_bay::Bay;

/// Calls that write below the floors alone keep a history at whose end the group stands: whatever a stop leaves, at any moment since their
/// entry and at their end, shows what it showed, and where the slots are settled then the group still stands at the end.
pub fn blocks_keep_a_history<B: Bay>()
    ensures any_moment { (group : List ℕ) (past : Past (groups group)) (old new : B) (found : GroupValue) (floor : ℕ → ℕ) → IsAtEnd group past (B.disks old) found
        → HaveFloors (B.disks old) floor → WritesBelow floor (B.disks old) (B.disks new)
        → StopsLeave (B.disks old) (B.disks new) (λ image. IsKept past (scene_of (B.disks old).sizes image)) }
    ensures ends { (group : List ℕ) (past : Past (groups group)) (old new : B) (found : GroupValue) (floor : ℕ → ℕ) → IsAtEnd group past (B.disks old) found
        → HaveFloors (B.disks old) floor → WritesBelow floor (B.disks old) (B.disks new) → AreAllKept group past (B.disks new) }
    ensures stands { (group : List ℕ) (past : Past (groups group)) (old new : B) (found : GroupValue) (floor : ℕ → ℕ) → IsAtEnd group past (B.disks old) found
        → HaveFloors (B.disks old) floor → WritesBelow floor (B.disks old) (B.disks new) → StaySettled (B.disks old) (B.disks new) → (B.disks new).tells_left
        → IsAtEnd group past (B.disks new) found }
    ensures floors { (old new : B) (floor : ℕ → ℕ) → HaveFloors (B.disks old) floor → WritesBelow floor (B.disks old) (B.disks new) → StaySettled (B.disks old) (B.disks new)
        → HaveFloors (B.disks new) floor }
{}

/// The floor of each seat of a group lies before all records of its disk: of a group that was found, once it was recovered, and behind each of
/// its steps.
pub fn floors_lie_before_records<B: Bay>()
    ensures found { (newest : List (Option Newest)) (named : Option (List ℕ)) (found : GroupValue) → group_of newest named ≡ Ok found → AreFloored (seated found) }
    ensures recovered { (found : GroupValue) (asked : List Change) (timestamp : ℕ) (ready : ReadyValue) → WasReadied found asked timestamp ready → AreFloored (seated found)
        → AreFloored (seated (group_recovered found ready.recovery)) }
    ensures next { (found : GroupValue) (ready : ReadyValue) → IsReadyFor found ready → AreFloored (seated found) → AreFloored (seated (group_next found ready)) }
    ensures floors { (group : List ℕ) (past : Past (groups group)) (bay : B) (found : GroupValue) → IsAtEnd group past (B.disks bay) found → AreFloored (seated found)
        → HaveFloors (B.disks bay) (floor_in found.seats) }
{}

/// A call that recovers a group, and then writes its steps one after another and blocks between them, keeps each history that admits it: by what
/// `recover`, `commit` and calls on blocks promise, each in turn.
pub fn a_call_of_several_steps_keeps_its_history<B: Bay>()
    ensures recovers { (group : List ℕ) (past : Past (groups group)) (old new : B) (left : List Bool) (named : Option (List ℕ)) (found : GroupValue) (asked : List Change)
        (timestamp : ℕ) (ready : ReadyValue) → WasTaken (B.disks old) left named found asked timestamp ready → found.config.group ≡ group → AreAllKept group past (B.disks old)
        → IsAdmitted group past (B.disks old) left found → IsRecovery (B.disks old) (B.disks new) found ready true
        → IsUnderWay group (B.disks old) (B.disks new) past left found (changes_ready found ready) (group_recovered found ready.recovery) (behind_recovery ready) }
    ensures recovery_fails { (group : List ℕ) (past : Past (groups group)) (old new : B) (left : List Bool) (named : Option (List ℕ)) (found : GroupValue) (asked : List Change)
        (timestamp : ℕ) (ready : ReadyValue) → WasTaken (B.disks old) left named found asked timestamp ready → found.config.group ≡ group → AreAllKept group past (B.disks old)
        → IsAdmitted group past (B.disks old) left found → IsRecovery (B.disks old) (B.disks new) found ready false
        → KeepsHistory group (B.disks old) (B.disks new) past left found (changes_ready found ready) false }
    ensures commits { (group : List ℕ) (past : Past (groups group)) (old middle new : B) (left : List Bool) (found : GroupValue) (changes : List Configuration)
        (now_found : GroupValue) (ready : ReadyValue) → IsUnderWay group (B.disks old) (B.disks middle) past left found changes now_found ready
        → (B.disks middle).moment ≤ (B.disks new).moment → IsCommit (B.disks middle) (B.disks new) ready true
        → IsUnderWay group (B.disks old) (B.disks new) past left found changes (group_next now_found ready) (left_behind ready) }
    ensures commit_fails { (group : List ℕ) (past : Past (groups group)) (old middle new : B) (left : List Bool) (found : GroupValue) (changes : List Configuration)
        (now_found : GroupValue) (ready : ReadyValue) → IsUnderWay group (B.disks old) (B.disks middle) past left found changes now_found ready
        → (B.disks middle).moment ≤ (B.disks new).moment → IsCommit (B.disks middle) (B.disks new) ready false → KeepsHistory group (B.disks old) (B.disks new) past left found changes false }
    ensures writes { (group : List ℕ) (past : Past (groups group)) (old middle new : B) (left : List Bool) (found : GroupValue) (changes : List Configuration)
        (now_found : GroupValue) (ready : ReadyValue) → IsUnderWay group (B.disks old) (B.disks middle) past left found changes now_found ready → AreFloored (seated now_found)
        → WritesBelow (floor_in now_found.seats) (B.disks middle) (B.disks new) → StaySettled (B.disks middle) (B.disks new)
        → IsUnderWay group (B.disks old) (B.disks new) past left found changes now_found ready }
    ensures write_fails { (group : List ℕ) (past : Past (groups group)) (old middle new : B) (left : List Bool) (found : GroupValue) (changes : List Configuration)
        (now_found : GroupValue) (ready : ReadyValue) → IsUnderWay group (B.disks old) (B.disks middle) past left found changes now_found ready → AreFloored (seated now_found)
        → WritesBelow (floor_in now_found.seats) (B.disks middle) (B.disks new) → KeepsHistory group (B.disks old) (B.disks new) past left found changes false }
    ensures ends { (group : List ℕ) (past : Past (groups group)) (old new : B) (left : List Bool) (found : GroupValue) (changes : List Configuration)
        (now_found : GroupValue) (ready : ReadyValue) → IsUnderWay group (B.disks old) (B.disks new) past left found changes now_found ready → ready.steps ≡ []
        → KeepsHistory group (B.disks old) (B.disks new) past left found changes true }
{}
