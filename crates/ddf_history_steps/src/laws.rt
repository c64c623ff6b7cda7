//! Laws of calls in a history: functions that do nothing, whose contracts are the laws.
ghost use Rattle.std.specs.Prelude.{◌≡◌, ◌⊎◌, ◌+◌, ◌∷◌, ℕ, Bool, false, true, List, map, Option, None, Some, Err, Ok, length, slice_get};
ghost use Rattle.std.specs.Str.{bytes_eq};
ghost use Rattle.ddf_config.specs.Configuration.{Configuration};
ghost use Rattle.ddf_copy.specs.declared.newest_copy.Newest.{Newest};
ghost use Rattle.ddf_plan.specs.declared.change.Change.{Change};
ghost use Rattle.ddf_group.specs.Choice.{is_absorbed};
ghost use Rattle.ddf_group.specs.Shown.{shown_of};
ghost use Rattle.ddf_group.specs.declared.answer.Assembly.TheVariants.{SeveralGroups};
ghost use Rattle.ddf_recovery.specs.Committed.{group_next, group_recovered, left_behind};
ghost use Rattle.ddf_seats.specs.Group.{GroupValue};
ghost use Rattle.ddf_assembly.specs.Group.{group_of};
ghost use Rattle.ddf_recovery.specs.Ready.{ReadyValue};
ghost use Rattle.ddf_assembly.specs.Slots.{newest_from};
ghost use Rattle.ddf_history.specs.Answer.{HasMember, IsPromised, IsReadable};
ghost use Rattle.ddf_history.specs.Groups.{groups};
ghost use Rattle.ddf_history.specs.Issued.{Past};
ghost use Rattle.ddf_history.specs.Promise.{IsKept};
ghost use Rattle.ddf_history.specs.Scenes.{scene_of};
ghost use Rattle.ddf_history_steps.specs.Going.{Ends, IsAdmitted, IsOver, KeepsHistory, KeepsSlots};
ghost use Rattle.ddf_history_steps.specs.Kept.{AreAllKept, is_read, told_answer};
ghost use Rattle.ddf_history_steps.specs.Steps.{IsCommit, IsRecovery, KeepsStep, StandsReady, WasTaken, behind_next, behind_recovery, recovery_changes};

use ddf_bay::Bay;

/// What the newest copies give of the slots that a call reads, a current member among them, is a configuration since the last acknowledged
/// one. It is a contradiction only where a disk is read that has come back from a loss, and it is never that there is no group.
pub fn a_call_is_answered_as_its_history_promises<B: Bay>()
    ensures named { (group : List ℕ) (bay : B) (left : List Bool) (past : Past (groups group)) → length left ≡ length (B.disks bay).sizes
        → past.slots ≡ length (B.disks bay).sizes → IsKept past (scene_of (B.disks bay).sizes (B.disks bay).held)
        → IsReadable past (scene_of (B.disks bay).sizes (B.disks bay).held) (is_read left)
        → HasMember past (scene_of (B.disks bay).sizes (B.disks bay).held) (is_read left)
        → (name : List ℕ) → bytes_eq name group ≡ true
        → IsPromised past (is_read left) (told_answer (group_of (newest_from (B.disks bay) 0 left) (Some name))) }

    // Without a name it is so too, unless the slots show several groups. A group that another absorbs isn't meant then.
    ensures alone { (group : List ℕ) (bay : B) (left : List Bool) (past : Past (groups group)) → length left ≡ length (B.disks bay).sizes
        → past.slots ≡ length (B.disks bay).sizes → IsKept past (scene_of (B.disks bay).sizes (B.disks bay).held)
        → IsReadable past (scene_of (B.disks bay).sizes (B.disks bay).held) (is_read left)
        → HasMember past (scene_of (B.disks bay).sizes (B.disks bay).held) (is_read left)
        → is_absorbed (map shown_of (newest_from (B.disks bay) 0 left)) group ≡ false
        → IsPromised past (is_read left) (told_answer (group_of (newest_from (B.disks bay) 0 left) None))
        ⊎ ((first : ℕ) × (second : ℕ) × (group_of (newest_from (B.disks bay) 0 left) None ≡ Err (SeveralGroups first second))) }

    // The group that is found then is this one.
    ensures found { (group : List ℕ) (bay : B) (left : List Bool) (past : Past (groups group)) → length left ≡ length (B.disks bay).sizes
        → past.slots ≡ length (B.disks bay).sizes → IsKept past (scene_of (B.disks bay).sizes (B.disks bay).held)
        → IsReadable past (scene_of (B.disks bay).sizes (B.disks bay).held) (is_read left)
        → HasMember past (scene_of (B.disks bay).sizes (B.disks bay).held) (is_read left)
        → is_absorbed (map shown_of (newest_from (B.disks bay) 0 left)) group ≡ false
        → (found : GroupValue) → group_of (newest_from (B.disks bay) 0 left) None ≡ Ok found → found.config.group ≡ group }
{}

/// A call of `recover` keeps each history that admits it: whatever a stop leaves, at any moment since the call's entry, shows what it
/// should, as the change that the recovery issues is issued by then or isn't; at Ok it is acknowledged. Behind it the group stands at the
/// end of the history, and its steps are ready.
pub fn a_recovery_keeps_its_history<B: Bay>()
    ensures keeps { (group : List ℕ) (past : Past (groups group)) (old new : B) (left : List Bool) (named : Option (List ℕ)) (found : GroupValue)
        (asked : List Change) (timestamp : ℕ) (ready : ReadyValue) (done : Bool) → WasTaken (B.disks old) left named found asked timestamp ready
        → found.config.group ≡ group → AreAllKept group past (B.disks old) → IsAdmitted group past (B.disks old) left found
        → IsRecovery (B.disks old) (B.disks new) found ready done
        → KeepsHistory group (B.disks old) (B.disks new) past left found (recovery_changes timestamp found) done }
    ensures stands { (group : List ℕ) (past : Past (groups group)) (old new : B) (left : List Bool) (named : Option (List ℕ)) (found : GroupValue)
        (asked : List Change) (timestamp : ℕ) (ready : ReadyValue) → WasTaken (B.disks old) left named found asked timestamp ready
        → found.config.group ≡ group → AreAllKept group past (B.disks old) → IsAdmitted group past (B.disks old) left found
        → IsRecovery (B.disks old) (B.disks new) found ready true → (B.disks new).tells_left
        → (now : Past (groups group)) × IsOver group past (is_read left) found (recovery_changes timestamp found) now
        × StandsReady group now (B.disks new) (group_recovered found ready.recovery) (behind_recovery ready) }
{}

/// A call of `commit` on a group that stands at the end of a history keeps it: whatever a stop leaves, at any moment since the call's
/// entry, shows what it should with the step's change issued; at Ok it is acknowledged, and the group stands at the end again.
pub fn a_commit_keeps_its_history<B: Bay>()
    ensures keeps { (group : List ℕ) (past : Past (groups group)) (old new : B) (found : GroupValue) (ready : ReadyValue) (done : Bool)
        → StandsReady group past (B.disks old) found ready → IsCommit (B.disks old) (B.disks new) ready done
        → KeepsStep group (B.disks old) (B.disks new) past ready done }
    ensures stands { (group : List ℕ) (past : Past (groups group)) (old new : B) (found : GroupValue) (ready : ReadyValue)
        → StandsReady group past (B.disks old) found ready → IsCommit (B.disks old) (B.disks new) ready true → (B.disks new).tells_left
        → StandsReady group (behind_next group past ready) (B.disks new) (group_next found ready) (left_behind ready) }
{}

/// However far a call on a group came, the slots of its history stay as they were. None is lost that it read, and of the others a current
/// member's alone.
pub fn a_call_keeps_the_slots()
    ensures { (group : List ℕ) (past now : Past (groups group)) (readable : ℕ → Bool) (found : GroupValue) (changes : List Configuration) (done : Bool)
        → Ends group past readable found changes done now → KeepsSlots group past now readable found }
{}

/// Behind a call on a group that was done the last of the changes that it issued is the last acknowledged one, or where there is none what it
/// found, and none is issued behind it.
pub fn a_call_that_was_done_ends_with_its_last_change()
    ensures last { (group : List ℕ) (past now : Past (groups group)) (readable : ℕ → Bool) (found : GroupValue) (changes : List Configuration)
        → IsOver group past readable found changes now → slice_get now.changes.issued now.changes.acked ≡ slice_get (found.config ∷ changes) (length changes) }
    ensures none_behind { (group : List ℕ) (past now : Past (groups group)) (readable : ℕ → Bool) (found : GroupValue) (changes : List Configuration)
        → IsOver group past readable found changes now → length now.changes.issued ≡ now.changes.acked + 1 }
{}

/// A group that is found by a name has it.
pub fn a_named_group_is_the_one_that_is_found()
    ensures { (newest : List (Option Newest)) (name : List ℕ) (found : GroupValue) → group_of newest (Some name) ≡ Ok found → found.config.group ≡ name }
{}
