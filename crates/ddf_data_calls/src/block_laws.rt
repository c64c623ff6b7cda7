//! Laws of calls on the blocks of arrays and of the data of groups: functions that do nothing, whose contracts are the laws.
ghost use Rattle.std.specs.Prelude.{◌≡◌, ◌<◌, ◌^◌, ◌++◌, ◌∷◌, [], ℕ, List, length, Option, Result, Ok, Some, true};
ghost use Rattle.ddf_bay.specs.ReadsOnly.{ReadsOnly};
ghost use Rattle.ddf_bay.specs.Sectors.{Image, IsLeft};
ghost use Rattle.ddf_plan.specs.declared.change.Change.TheVariants.{Unmark};
ghost use Rattle.ddf_array.specs.Sound.{AreSectors};
ghost use Rattle.ddf_data_group.specs.Grouped.{Promises};
ghost use Rattle.ddf_history.specs.Groups.{groups};
ghost use Rattle.ddf_history.specs.Issued.{Past};
ghost use Rattle.ddf_seats.specs.Group.{GroupValue};
ghost use Rattle.ddf_assembly.specs.Group.{group_of};
ghost use Rattle.ddf_recovery.specs.Recovery.{config_recovered};
ghost use Rattle.ddf_steps.specs.Steps.{Step};
ghost use Rattle.ddf_history_steps.specs.Going.{Ends, Goes, changes_in};
ghost use Rattle.ddf_history_steps.specs.Kept.{AreAllKept, is_read};
ghost use Rattle.ddf_data_history.specs.Carried.{CarriesData, IsAllData, Stays};
ghost use Rattle.ddf_answer.specs.declared.failure.Failure.{Failure};
ghost use Rattle.ddf_answer.specs.Call.{input_of, work_of};
ghost use Rattle.ddf_group_commands.specs.Change.{HasChanged, Request, is_done, steps_of as steps_asked};
ghost use Rattle.ddf_write_commands.specs.Planned.{IsPlanned};
ghost use Rattle.ddf_write_commands.specs.Resync.{HasResyncedArray, resync_request};
ghost use Rattle.ddf_write_commands.specs.Write.{HasWrittenArray, Outcome, is_written, write_request};
ghost use Rattle.ddf_group_commands.specs.Requests.{linux_members};
ghost use Rattle.ddf_rebuild_command.specs.Asked.{rebuild_request};
ghost use Rattle.ddf_rebuild_command.specs.BackPlanned.{IsBackPlanned};
ghost use Rattle.ddf_rebuild_command.specs.CopiedBack.{HasCopiedBack};
ghost use Rattle.ddf_rebuild_command.specs.GoingBack.{copyback_request};
ghost use Rattle.ddf_rebuild_command.specs.Planned.{IsPlanned as IsRebuildPlanned};
ghost use Rattle.ddf_rebuild_command.specs.Rebuilt.{HasRebuiltArray};
ghost use Rattle.ddf_rebuild_command.specs.Rounds.{steps_of};
ghost use Rattle.ddf_data_calls.specs.Calls.{AdmitsCall, AreBoth, KeepsBoth, MayAsk};
ghost use Rattle.ddf_data_calls.specs.Agreed.{DoDisksAgree};
ghost use Rattle.ddf_data_calls.specs.Promised.{HasGiven, IsWrittenOf, MayBeWritten, counted};

use ddf_bay::Bay;
use ddf_bytes::Source;

/// A call of `resync` that a history of its group and of the group's data admits keeps both at once: whatever a stop leaves, at any moment since the call's
/// entry and at its end, shows what it should and keeps the data of the group, by the same promises. That the mark of its array may be set, and cleared
/// behind the blocks, follows from what the call promises.
// promise:resynced
pub fn a_resync_keeps_its_history_and_its_data<B: Bay>()
    ensures both { (told : B.tells) (group : List ℕ) (past : Past (groups group)) (floor : ℕ → ℕ) → ((slot : ℕ) → floor slot < 2 ^ 64) → (promises : Promises)
        → (old new : B) → (B.disks old).tells_left → (named : Option (List ℕ)) (timestamp : ℕ) (word : List ℕ) (outcome : Result ℕ Failure)
        → (called : HasResyncedArray (work_of B.tells (B.disks old) (B.disks new)) named timestamp word outcome)
        → (found : GroupValue) → group_of called.taken.newest named ≡ Ok found → found.config.group ≡ group → AdmitsCall group past floor promises (B.disks old) called.taken.left found
        → (plan : IsPlanned found timestamp word (resync_request word))
        → KeepsBoth group (B.disks old) (B.disks new) floor (Goes group past (is_read called.taken.left) found (changes_in found (plan.first ++ plan.last)))
        (Ends group past (is_read called.taken.left) found (changes_in found (plan.first ++ plan.last)) (is_done outcome)) (Stays promises) (Stays promises) }

    // So it carries the data of the group, where all that a stop left on the way has sectors of 512 bytes.
    ensures carries { (told : B.tells) (group : List ℕ) (past : Past (groups group)) (floor : ℕ → ℕ) → ((slot : ℕ) → floor slot < 2 ^ 64) → (promises : Promises)
        → (old new : B) → (B.disks old).tells_left → (named : Option (List ℕ)) (timestamp : ℕ) (word : List ℕ) (outcome : Result ℕ Failure)
        → (called : HasResyncedArray (work_of B.tells (B.disks old) (B.disks new)) named timestamp word outcome)
        → (found : GroupValue) → group_of called.taken.newest named ≡ Ok found → found.config.group ≡ group → AdmitsCall group past floor promises (B.disks old) called.taken.left found
        → (plan : IsPlanned found timestamp word (resync_request word))
        → ((t : ℕ) (image : Image) → (B.disks new).left_since t image → AreSectors image)
        → CarriesData group (B.disks old) (B.disks new) floor promises (Goes group past (is_read called.taken.left) found (changes_in found (plan.first ++ plan.last)))
        (Ends group past (is_read called.taken.left) found (changes_in found (plan.first ++ plan.last)) (is_done outcome)) Stays Stays }
{}

/// Once a call of `resync` was done, with status 0, the array may be promised the bytes that its blocks then have, whatever was promised of it before, and where
/// nothing was.
pub fn a_resynced_array_counts_with_what_it_holds<B: Bay>()
    ensures { (told : B.tells) (group : List ℕ) (past : Past (groups group)) (floor : ℕ → ℕ) → ((slot : ℕ) → floor slot < 2 ^ 64) → (promises : Promises)
        → (old new : B) → (B.disks old).tells_left → (named : Option (List ℕ)) (timestamp : ℕ) (word : List ℕ) (sequence : ℕ)
        → (called : HasResyncedArray (work_of B.tells (B.disks old) (B.disks new)) named timestamp word (Ok sequence))
        → (found : GroupValue) → group_of called.taken.newest named ≡ Ok found → found.config.group ≡ group → AdmitsCall group past floor promises (B.disks old) called.taken.left found
        → (plan : IsPlanned found timestamp word (resync_request word))
        → (B.disks new).tells_left
        → AreBoth group floor (B.disks new) (Ends group past (is_read called.taken.left) found (changes_in found (plan.first ++ plan.last)) true)
        (λ promised. promised ≡ counted plan.entry.0 plan.volume (B.disks new).held promises) }
{}

/// Once a call of `accept` was done, with status 0, of an array of which the bytes agree in what the disks hold at its entry, the array may be promised the bytes that its
/// blocks have, whatever was promised of it before, and where nothing was. Of one of which something is promised it is asked too that its mark may be cleared:
/// to have it count anew, nothing is promised of it before.
pub fn an_accepted_array_counts_with_what_it_holds<B: Bay>()
    ensures { (told : B.tells) (group : List ℕ) (past : Past (groups group)) (floor : ℕ → ℕ) → ((slot : ℕ) → floor slot < 2 ^ 64) → (promises : Promises)
        → (old new : B) → (B.disks old).tells_left → (named : Option (List ℕ)) (timestamp : ℕ) (request : Request) (sequence : ℕ)
        → (changed : HasChanged (work_of B.tells (B.disks old) (B.disks new)) named timestamp request (Ok sequence))
        → (found : GroupValue) → group_of changed.taken.newest named ≡ Ok found → found.config.group ≡ group → (steps : List Step) → steps_asked found timestamp request ≡ Ok steps
        → AdmitsCall group past floor promises (B.disks old) changed.taken.left found
        → (guid : List ℕ) (init : ℕ) → request (config_recovered found) found.seats ≡ Ok (Unmark guid init ∷ [])
        → ((image : Image) → IsLeft (B.disks old).may_hold image → MayAsk (config_recovered found) found.seats image promises (Some (Unmark guid init)))
        → (agree : DoDisksAgree found guid (B.disks old).held)
        → (B.disks new).tells_left
        → AreBoth group floor (B.disks new) (Ends group past (is_read changed.taken.left) found (changes_in found steps) true)
        (λ promised. promised ≡ counted guid agree.volume (B.disks new).held promises) }
{}

/// A call of `write` that took bytes, and that a history of its group and of the group's data admits, keeps both at once: whatever a stop leaves, at any moment
/// since the call's entry, shows what it should and keeps the data of the group, where each block whose bytes it took may have its old bytes or the new ones; so at its end,
/// unless it was done, or cut: then each of these blocks is promised the new bytes. Every other block, and every other array, keeps its promise. That the mark may be
/// set and cleared follows: the array was found unmarked, so that it was redundant, and the write keeps it so, whichever reads failed.
pub fn a_write_keeps_its_history_and_its_data<B: Bay, S: Source>()
    ensures both { (told : B.tells) (group : List ℕ) (past : Past (groups group)) (floor : ℕ → ℕ) → ((slot : ℕ) → floor slot < 2 ^ 64) → (promises : Promises)
        → (old new : B) → (B.disks old).tells_left → (source_old source_new : S) (named : Option (List ℕ)) (timestamp : ℕ) (word : List ℕ) (start count : ℕ) (sectors : List (List ℕ)) (outcome : Outcome) → HasGiven outcome sectors
        → (called : HasWrittenArray (work_of B.tells (B.disks old) (B.disks new)) (input_of S.tells (S.input source_old) (S.input source_new)) named timestamp word start count outcome)
        → (found : GroupValue) → group_of called.taken.newest named ≡ Ok found → found.config.group ≡ group → AdmitsCall group past floor promises (B.disks old) called.taken.left found
        → (plan : IsPlanned found timestamp word (write_request word start count))
        → KeepsBoth group (B.disks old) (B.disks new) floor (Goes group past (is_read called.taken.left) found (changes_in found (plan.first ++ plan.last)))
        (Ends group past (is_read called.taken.left) found (changes_in found (plan.first ++ plan.last)) (is_written outcome))
        (MayBeWritten plan.entry.0 start sectors promises) (IsWrittenOf (is_written outcome) plan.entry.0 start sectors promises) }

    // So it carries the data of the group, where all that a stop left on the way has sectors of 512 bytes.
    ensures carries { (told : B.tells) (group : List ℕ) (past : Past (groups group)) (floor : ℕ → ℕ) → ((slot : ℕ) → floor slot < 2 ^ 64) → (promises : Promises)
        → (old new : B) → (B.disks old).tells_left → (source_old source_new : S) (named : Option (List ℕ)) (timestamp : ℕ) (word : List ℕ) (start count : ℕ) (sectors : List (List ℕ)) (outcome : Outcome) → HasGiven outcome sectors
        → (called : HasWrittenArray (work_of B.tells (B.disks old) (B.disks new)) (input_of S.tells (S.input source_old) (S.input source_new)) named timestamp word start count outcome)
        → (found : GroupValue) → group_of called.taken.newest named ≡ Ok found → found.config.group ≡ group → AdmitsCall group past floor promises (B.disks old) called.taken.left found
        → (plan : IsPlanned found timestamp word (write_request word start count))
        → ((t : ℕ) (image : Image) → (B.disks new).left_since t image → AreSectors image)
        → CarriesData group (B.disks old) (B.disks new) floor promises (Goes group past (is_read called.taken.left) found (changes_in found (plan.first ++ plan.last)))
        (Ends group past (is_read called.taken.left) found (changes_in found (plan.first ++ plan.last)) (is_written outcome))
        (MayBeWritten plan.entry.0 start sectors) (IsWrittenOf (is_written outcome) plan.entry.0 start sectors) }
{}

/// A call of `rebuild` that a history of its group and of the group's data admits keeps both at once: whatever a stop leaves, at any moment since the call's entry and
/// at its end, shows what it should and keeps the data of the group, by the same promises. That the position may get its spare, that its rows count as they are
/// noted, and that it may be in sync once all are set, follows from what the call promises: the array is unmarked, and so redundant, so that what was read for the
/// rows is sure whichever reads failed.
// promise:rebuilt
pub fn a_rebuild_keeps_its_history_and_its_data<B: Bay>()
    ensures both { (told : B.tells) (group : List ℕ) (past : Past (groups group)) (floor : ℕ → ℕ) → ((slot : ℕ) → floor slot < 2 ^ 64) → (promises : Promises)
        → (old new : B) → (B.disks old).tells_left → (named : Option (List ℕ)) (timestamp : ℕ) (word : List ℕ) (outcome : Result ℕ Failure)
        → (called : HasRebuiltArray (work_of B.tells (B.disks old) (B.disks new)) named timestamp word outcome)
        → (found : GroupValue) → group_of called.taken.newest named ≡ Ok found → found.config.group ≡ group → AdmitsCall group past floor promises (B.disks old) called.taken.left found
        → (plan : IsRebuildPlanned found timestamp word)
        → KeepsBoth group (B.disks old) (B.disks new) floor (Goes group past (is_read called.taken.left) found (changes_in found (plan.first ++ steps_of plan.rounds)))
        (Ends group past (is_read called.taken.left) found (changes_in found (plan.first ++ steps_of plan.rounds)) (is_done outcome)) (Stays promises) (Stays promises) }

    // So it carries the data of the group, where all that a stop left on the way has sectors of 512 bytes.
    ensures carries { (told : B.tells) (group : List ℕ) (past : Past (groups group)) (floor : ℕ → ℕ) → ((slot : ℕ) → floor slot < 2 ^ 64) → (promises : Promises)
        → (old new : B) → (B.disks old).tells_left → (named : Option (List ℕ)) (timestamp : ℕ) (word : List ℕ) (outcome : Result ℕ Failure)
        → (called : HasRebuiltArray (work_of B.tells (B.disks old) (B.disks new)) named timestamp word outcome)
        → (found : GroupValue) → group_of called.taken.newest named ≡ Ok found → found.config.group ≡ group → AdmitsCall group past floor promises (B.disks old) called.taken.left found
        → (plan : IsRebuildPlanned found timestamp word)
        → ((t : ℕ) (image : Image) → (B.disks new).left_since t image → AreSectors image)
        → CarriesData group (B.disks old) (B.disks new) floor promises (Goes group past (is_read called.taken.left) found (changes_in found (plan.first ++ steps_of plan.rounds)))
        (Ends group past (is_read called.taken.left) found (changes_in found (plan.first ++ steps_of plan.rounds)) (is_done outcome)) Stays Stays }

    // It does so by the steps that its group is asked for: also where every position of the array is in sync, so that the group is recovered, no more.
    ensures asked { (told : B.tells) (group : List ℕ) (past : Past (groups group)) (floor : ℕ → ℕ) → ((slot : ℕ) → floor slot < 2 ^ 64) → (promises : Promises)
        → (old new : B) → (B.disks old).tells_left → (named : Option (List ℕ)) (timestamp : ℕ) (word : List ℕ) (outcome : Result ℕ Failure)
        → (called : HasRebuiltArray (work_of B.tells (B.disks old) (B.disks new)) named timestamp word outcome)
        → (found : GroupValue) → group_of called.taken.newest named ≡ Ok found → found.config.group ≡ group → AdmitsCall group past floor promises (B.disks old) called.taken.left found
        → (steps : List Step) → steps_asked found timestamp (rebuild_request word (linux_members found)) ≡ Ok steps
        → KeepsBoth group (B.disks old) (B.disks new) floor (Goes group past (is_read called.taken.left) found (changes_in found steps))
        (Ends group past (is_read called.taken.left) found (changes_in found steps) (is_done outcome)) (Stays promises) (Stays promises) }
{}

/// A call of `copyback` that a history of its group and of the group's data admits keeps both at once: whatever a stop leaves, at any moment since the call's entry and
/// at its end, shows what it should and keeps the data of the group, by the same promises. That the room may be filled, since no array has it, and that the position may be
/// there then, since the same bytes stand there, follows from what the call promises: the array is unmarked, and so redundant, so that what was read for the position is
/// sure whichever reads failed.
// promise:returned
pub fn a_copyback_keeps_its_history_and_its_data<B: Bay>()
    ensures both { (told : B.tells) (group : List ℕ) (past : Past (groups group)) (floor : ℕ → ℕ) → ((slot : ℕ) → floor slot < 2 ^ 64) → (promises : Promises)
        → (old new : B) → (B.disks old).tells_left → (named : Option (List ℕ)) (timestamp : ℕ) (word : List ℕ) (slot : ℕ) (outcome : Result ℕ Failure)
        → (called : HasCopiedBack (work_of B.tells (B.disks old) (B.disks new)) named timestamp word slot outcome)
        → (found : GroupValue) → group_of called.taken.newest named ≡ Ok found → found.config.group ≡ group → AdmitsCall group past floor promises (B.disks old) called.taken.left found
        → (plan : IsBackPlanned (B.disks old).sizes found timestamp word slot)
        → KeepsBoth group (B.disks old) (B.disks new) floor (Goes group past (is_read called.taken.left) found (changes_in found (plan.first ++ plan.last ∷ [])))
        (Ends group past (is_read called.taken.left) found (changes_in found (plan.first ++ plan.last ∷ [])) (is_done outcome)) (Stays promises) (Stays promises) }

    // So it carries the data of the group, where all that a stop left on the way has sectors of 512 bytes.
    ensures carries { (told : B.tells) (group : List ℕ) (past : Past (groups group)) (floor : ℕ → ℕ) → ((slot : ℕ) → floor slot < 2 ^ 64) → (promises : Promises)
        → (old new : B) → (B.disks old).tells_left → (named : Option (List ℕ)) (timestamp : ℕ) (word : List ℕ) (slot : ℕ) (outcome : Result ℕ Failure)
        → (called : HasCopiedBack (work_of B.tells (B.disks old) (B.disks new)) named timestamp word slot outcome)
        → (found : GroupValue) → group_of called.taken.newest named ≡ Ok found → found.config.group ≡ group → AdmitsCall group past floor promises (B.disks old) called.taken.left found
        → (plan : IsBackPlanned (B.disks old).sizes found timestamp word slot)
        → ((t : ℕ) (image : Image) → (B.disks new).left_since t image → AreSectors image)
        → CarriesData group (B.disks old) (B.disks new) floor promises (Goes group past (is_read called.taken.left) found (changes_in found (plan.first ++ plan.last ∷ [])))
        (Ends group past (is_read called.taken.left) found (changes_in found (plan.first ++ plan.last ∷ [])) (is_done outcome)) Stays Stays }

    // It does so by the steps that its group is asked for.
    ensures asked { (told : B.tells) (group : List ℕ) (past : Past (groups group)) (floor : ℕ → ℕ) → ((slot : ℕ) → floor slot < 2 ^ 64) → (promises : Promises)
        → (old new : B) → (B.disks old).tells_left → (named : Option (List ℕ)) (timestamp : ℕ) (word : List ℕ) (slot : ℕ) (outcome : Result ℕ Failure)
        → (called : HasCopiedBack (work_of B.tells (B.disks old) (B.disks new)) named timestamp word slot outcome)
        → (found : GroupValue) → group_of called.taken.newest named ≡ Ok found → found.config.group ≡ group → AdmitsCall group past floor promises (B.disks old) called.taken.left found
        → (steps : List Step) → steps_asked found timestamp (copyback_request (length (B.disks old).sizes) word slot (linux_members found)) ≡ Ok steps
        → KeepsBoth group (B.disks old) (B.disks new) floor (Goes group past (is_read called.taken.left) found (changes_in found steps))
        (Ends group past (is_read called.taken.left) found (changes_in found steps) (is_done outcome)) (Stays promises) (Stays promises) }
{}

/// A call of `write` that took no bytes, since its input ended within the first piece or a read of it failed there, or since it was refused before, only reads.
pub fn a_write_without_its_bytes_only_reads<B: Bay, S: Source>()
    ensures { (old new : B) (source_old source_new : S) (named : Option (List ℕ)) (timestamp : ℕ) (word : List ℕ) (start count : ℕ) (outcome : Outcome)
        → HasWrittenArray (work_of B.tells (B.disks old) (B.disks new)) (input_of S.tells (S.input source_old) (S.input source_new)) named timestamp word start count outcome
        → ((sectors : List (List ℕ)) → HasGiven outcome sectors → ⊥) → ReadsOnly (B.disks old) (B.disks new) }
{}

/// A call that only reads keeps each history of a group and of its data as they are.
pub fn a_call_that_only_reads_keeps_its_history_and_its_data<B: Bay>()
    ensures { (group : List ℕ) (past : Past (groups group)) (floor : ℕ → ℕ) (promises : Promises) (old new : B) → ReadsOnly (B.disks old) (B.disks new)
        → AreAllKept group past (B.disks old) → IsAllData group past floor (B.disks old) promises
        → KeepsBoth group (B.disks old) (B.disks new) floor (λ now. now ≡ past) (λ now. now ≡ past) (Stays promises) (Stays promises) }
{}
