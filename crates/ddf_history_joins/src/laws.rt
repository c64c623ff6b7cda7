//! Laws of joins in a history: functions that do nothing, whose contracts are the laws.
ghost use Rattle.std.specs.Prelude.{◌≡◌, ℕ, [], Bool, false, true, List, Option};
ghost use Rattle.std.specs.Str.{bytes_eq};
ghost use Rattle.ddf_bay.specs.Moments.{StopsLeave};
ghost use Rattle.ddf_recovery.specs.Committed.{group_recovered};
ghost use Rattle.ddf_steps.specs.Committed.{slots_of};
ghost use Rattle.ddf_seats.specs.Group.{GroupValue};
ghost use Rattle.ddf_joining.specs.Importing.{IsOfAnother, group_joined};
ghost use Rattle.ddf_joining.specs.Joining.{join_config};
ghost use Rattle.ddf_joining.specs.JoinValue.{JoinValue};
ghost use Rattle.ddf_recovery.specs.Ready.{ReadyValue};
ghost use Rattle.ddf_seats.specs.Seated.{seated};
ghost use Rattle.ddf_history.specs.Groups.{groups};
ghost use Rattle.ddf_history.specs.Issued.{Past, is_away};
ghost use Rattle.ddf_history.specs.Scenes.{scene_of};
ghost use Rattle.ddf_history_steps.specs.AtEnd.{IsAtEnd};
ghost use Rattle.ddf_history_steps.specs.Going.{IsAdmitted, KeepsHistory};
ghost use Rattle.ddf_history_joins.specs.Joins.{AdmitsCall, AdmitsImport, HasLeft, IsImport, KeepsJoin, StandsToJoin, WereBothTaken, behind_join, import_changes};
ghost use Rattle.ddf_history_steps.specs.Kept.{AreAllKept, is_slot};
ghost use Rattle.ddf_history_steps.specs.Steps.{IsRecovery, WasTaken};

use ddf_bay::Bay;

/// Two groups that were assembled from the disks of one bay, of which the first keeps the newest copies of the second's slots, stand to become
/// one once the first is recovered: what was readied before is ready then. The recovery is that of no change at all.
pub fn a_group_stands_to_be_joined<B: Bay>()
    ensures recovers { (old : B) (left also_left : List Bool) (named also_named : Option (List ℕ)) (native other : GroupValue) (timestamp : ℕ) (recovery : ReadyValue)
        (join : JoinValue) → WereBothTaken (B.disks old) left also_left named also_named native other timestamp recovery join
        → WasTaken (B.disks old) left named native [] timestamp recovery }
    ensures stands { (group : List ℕ) (past : Past (groups group)) (old new : B) (left also_left : List Bool) (named also_named : Option (List ℕ))
        (native other : GroupValue) (timestamp : ℕ) (recovery : ReadyValue) (join : JoinValue)
        → WereBothTaken (B.disks old) left also_left named also_named native other timestamp recovery join
        → IsAtEnd group past (B.disks new) (group_recovered native recovery.recovery) → IsOfAnother (join_config native other) (seated other)
        → AdmitsImport group past (B.disks new) native other → StandsToJoin group past (B.disks new) timestamp native other recovery join }
{}

/// A call of `write_join` on a group that stands at the end of a history keeps it: whatever a stop leaves, at any moment since the call's
/// entry, shows what it should, as the join is issued by then or isn't. Each slot that joins shows its former group or the new
/// configuration. At Ok the join is acknowledged, and the group that both have become stands at the end of the history.
pub fn an_import_keeps_its_history<B: Bay>()
    ensures keeps { (group : List ℕ) (past : Past (groups group)) (old new : B) (timestamp : ℕ) (native other : GroupValue) (recovery : ReadyValue)
        (join : JoinValue) (done : Bool) → StandsToJoin group past (B.disks old) timestamp native other recovery join
        → IsImport (B.disks old) (B.disks new) join done → KeepsJoin group (B.disks old) (B.disks new) past join done }
    ensures stands { (group : List ℕ) (past : Past (groups group)) (old new : B) (timestamp : ℕ) (native other : GroupValue) (recovery : ReadyValue)
        (join : JoinValue) → StandsToJoin group past (B.disks old) timestamp native other recovery join
        → IsImport (B.disks old) (B.disks new) join true → (B.disks new).tells_left
        → IsAtEnd group (behind_join group past join) (B.disks new) (group_joined (group_recovered native recovery.recovery) join) }
{}

/// A call that recovers a group and then writes the join of another group's disks, which don't show it, keeps each history of the group that admits
/// it: whatever a stop leaves, at any moment since the call's entry and at its end, shows what it should, for the loss of absent members and the
/// join as far as they are issued then; and where the call is done both are acknowledged.
pub fn an_import_is_a_call_of_its_history<B: Bay>()
    ensures keeps { (group : List ℕ) (past : Past (groups group)) (old middle new : B) (left also_left : List Bool) (named also_named : Option (List ℕ))
        (native other : GroupValue) (timestamp : ℕ) (recovery : ReadyValue) (join : JoinValue) (done : Bool)
        → WereBothTaken (B.disks old) left also_left named also_named native other timestamp recovery join
        → native.config.group ≡ group → AreAllKept group past (B.disks old) → IsAdmitted group past (B.disks old) left native
        → IsOfAnother (join_config native other) (seated other) → AdmitsCall group past (B.disks old) native other
        → IsRecovery (B.disks old) (B.disks middle) native recovery true → IsImport (B.disks middle) (B.disks new) join done
        → KeepsHistory group (B.disks old) (B.disks new) past left native (import_changes group timestamp native join) done }

    // So it does where its recovery fails.
    ensures fails { (group : List ℕ) (past : Past (groups group)) (old new : B) (left also_left : List Bool) (named also_named : Option (List ℕ))
        (native other : GroupValue) (timestamp : ℕ) (recovery : ReadyValue) (join : JoinValue)
        → WereBothTaken (B.disks old) left also_left named also_named native other timestamp recovery join
        → native.config.group ≡ group → AreAllKept group past (B.disks old) → IsAdmitted group past (B.disks old) left native
        → IsRecovery (B.disks old) (B.disks new) native recovery false
        → KeepsHistory group (B.disks old) (B.disks new) past left native (import_changes group timestamp native join) false }
{}

/// What a call of `write_join` leaves of the disks that join, as a history of their former group tells of it: whatever a stop leaves, at any
/// moment since the call's entry, each that isn't away shows what it should by that history, or is none of its disks any more. The history ends there:
/// no later call takes that group.
pub fn a_disk_that_joins_shows_its_former_group_or_has_left_it<B: Bay>()
    ensures { (group former : List ℕ) (past : Past (groups group)) (former_past : Past (groups former)) (old new : B) (timestamp : ℕ) (native other : GroupValue)
        (recovery : ReadyValue) (join : JoinValue) (done : Bool) → StandsToJoin group past (B.disks old) timestamp native other recovery join
        → IsImport (B.disks old) (B.disks new) join done → bytes_eq former group ≡ false → AreAllKept former former_past (B.disks old)
        → StopsLeave (B.disks old) (B.disks new) (λ image. (slot : ℕ) → is_slot (slots_of join.joining) slot ≡ true → is_away former_past slot ≡ false
        → HasLeft former former_past (scene_of (B.disks old).sizes image slot) slot) }
{}
