//! Laws of histories: functions that do nothing, whose contracts are the laws. docs/PROOF.md#proved
ghost use Rattle.std.specs.Prelude.{◌≡◌, ◌⊎◌, ◌<◌, ◌≤◌, ◌+◌, ◌-◌, ◌^◌, ℕ, Bool, true, false, ◌∷◌, [], List, length, Option, Some, Result, Ok, slice_get};
ghost use Rattle.std.specs.Str.{bytes_eq};
ghost use Rattle.ddf_bytes.specs.declared.stamp.Stamp.{Stamp};
ghost use Rattle.ddf_header.specs.declared.kind.Revision.{Revision};
ghost use Rattle.ddf_bay.specs.Moments.{GoesOn, StopsLeave};
ghost use Rattle.ddf_bay.specs.Sectors.{Image, IsLeft};
ghost use Rattle.ddf_config.specs.Configuration.{Configuration};
ghost use Rattle.ddf_plan.specs.declared.change.Change.{Change};
ghost use Rattle.ddf_update.specs.Group.{IsLeftFoundingAll};
ghost use Rattle.ddf_update.specs.NewCopies.{group_of};
ghost use Rattle.ddf_view.specs.View.{View, view_of};
ghost use Rattle.ddf_history.specs.Answer.{HasMember, IsAnswer, IsReadable};
ghost use Rattle.ddf_history.specs.Calls.{IsAside};
ghost use Rattle.ddf_history.specs.Leaders.{seen};
ghost use Rattle.ddf_history.specs.Answer.Answer.{Is};
ghost use Rattle.ddf_history.specs.Groups.{disk_of, groups, has_current, has_missing};
ghost use Rattle.ddf_history.specs.History.{AllKept, Answers, IsHistory, KeepsAcked, Moment};
ghost use Rattle.ddf_history.specs.Issued.{IsSince, Past};
ghost use Rattle.ddf_history.specs.Reading.{Each, Scene};
ghost use Rattle.ddf_history.specs.Scenes.{scene_of};
ghost use Rattle.ddf_steps.specs.Committed.{slots_of};
ghost use Rattle.ddf_seats.specs.Group.{GroupValue};
ghost use Rattle.ddf_assembly.specs.Group.{group_of as group_in};
ghost use Rattle.ddf_recovery.specs.Ready.{readied};
ghost use Rattle.ddf_seats.specs.Seated.{seated};
ghost use Rattle.ddf_steps.specs.Steps.{Step};
ghost use Rattle.ddf_seats.specs.declared.seated.Seated.{Seated};
ghost use Rattle.ddf_history_steps.specs.Founding.{AreNamesNew, IsNewGroup, founding_config};
ghost use Rattle.ddf_history_steps.specs.Going.{Ends, IsAdmitted, changes_in};
ghost use Rattle.ddf_history_steps.specs.Kept.{AreAllKept, is_read, is_slot};
ghost use Rattle.ddf_answer.specs.Call.{work_of};
ghost use Rattle.ddf_group_commands.specs.Change.{HasChanged, Request, is_done};
ghost use Rattle.ddf_command.specs.Cut.{AreLabelled, Gives, IsLeftByLabel, IsNewLabel};
ghost use Rattle.ddf_command.specs.History.{GroupCall, IsCall, IsCut, IsEnd, IsJoinCut, IsJoinEnd, JoinCall, Leaves, OtherCall, joins_of};
ghost use Rattle.ddf_disk_commands.specs.Label.{IsTried, label_copy, label_slots};
ghost use Rattle.ddf_history_steps.specs.Members.{KeepsMembers};
ghost use Rattle.ddf_group_commands.specs.Others.{LeavesOthers};
ghost use Rattle.ddf_group_commands.specs.Writing.{IsWrittenOn};
ghost use Rattle.ddf_answer.specs.declared.failure.Failure.{Failure};

use ddf_bay::Bay;

/// In a history of a group whose calls are those that `run` makes, with stops within them and between them, recovery included, and losses
/// and returns of disks: at every moment, whatever a stop leaves, assembly of the readable disks, one current member among them, gives the
/// configuration after a prefix of the issued changes that holds every acknowledged one, or names two records that contradict each other
/// where a disk that came back is read. What was acknowledged stays in the list.
// promise:acknowledged
pub fn a_group_is_assembled_at_every_moment_of_its_history<B: Bay>()
    ensures answers { (told : B.tells) (group : List ℕ) (start : Moment (groups group) B) (history : List (Moment (groups group) B))
        → AllKept (Leaves told B.disks group) start → IsHistory (Leaves told B.disks group) (IsCall told B.disks group) start history
        → Each (Answers (Leaves told B.disks group)) (start ∷ history) }
    ensures acknowledged { (told : B.tells) (group : List ℕ) (start : Moment (groups group) B) (history : List (Moment (groups group) B))
        → AllKept (Leaves told B.disks group) start → IsHistory (Leaves told B.disks group) (IsCall told B.disks group) start history
        → Each (λ moment. KeepsAcked start.past moment.past) history }

    // So each moment may be the start of what follows it.
    ensures kept { (told : B.tells) (group : List ℕ) (start : Moment (groups group) B) (history : List (Moment (groups group) B))
        → AllKept (Leaves told B.disks group) start → IsHistory (Leaves told B.disks group) (IsCall told B.disks group) start history
        → Each (AllKept (Leaves told B.disks group)) history }
{}

/// Each call on a group that its history admits is an event of it: at its end, where the bay still tells what a stop may leave, and with
/// whatever image a stop left since its entry.
pub fn a_call_is_an_event_of_its_history<B: Bay>()
    ensures ends { (told : B.tells) (group : List ℕ) (old : Moment (groups group) B) (call : GroupCall told B.disks group old) → AreAllKept group old.past (B.disks old.bay)
        → (B.disks call.exit).tells_left → (new : Moment (groups group) B) × (new.bay ≡ call.exit) × IsEnd told B.disks group old new }
    ensures cut { (told : B.tells) (group : List ℕ) (old : Moment (groups group) B) (call : GroupCall told B.disks group old) → AreAllKept group old.past (B.disks old.bay)
        → (cut : B) (image : Image) → (B.disks call.exit).left_since (B.disks old.bay).moment image
        → ((scene : Scene View) → Leaves told B.disks group cut scene → scene ≡ scene_of (B.disks old.bay).sizes image)
        → (new : Moment (groups group) B) × (new.bay ≡ cut) × IsCut told B.disks group old new }
{}

/// So is each call by which another group joins it, where its history admits the call and the join, and no disk that joins showed the group.
// promise:joined
pub fn an_import_is_an_event_of_its_history<B: Bay>()
    ensures ends { (told : B.tells) (group : List ℕ) (old : Moment (groups group) B) (call : JoinCall told B.disks group old) → AreAllKept group old.past (B.disks old.bay)
        → (B.disks call.exit).tells_left → (new : Moment (groups group) B) × (new.bay ≡ call.exit) × IsJoinEnd told B.disks group old new }
    ensures cut { (told : B.tells) (group : List ℕ) (old : Moment (groups group) B) (call : JoinCall told B.disks group old) → AreAllKept group old.past (B.disks old.bay)
        → (cut : B) (image : Image) → (B.disks call.exit).left_since (B.disks old.bay).moment image
        → ((scene : Scene View) → Leaves told B.disks group cut scene → scene ≡ scene_of (B.disks old.bay).sizes image)
        → (new : Moment (groups group) B) × (new.bay ≡ cut) × IsJoinCut told B.disks group old new }
{}

/// A history of a new group begins where a `label` was done: whatever a stop may leave then shows the group on each of its disks. The names
/// of the group and of its disks are new, so that no other slot shows them.
pub fn a_label_begins_a_history<B: Bay>()
    ensures { (told : B.tells) (large : Bool) (revision : Revision) (stamp : Stamp) (named : List ℕ) (old new : B) → IsTried (work_of B.tells (B.disks old) (B.disks new)) large revision stamp named (Ok tt)
        → (B.disks new).sizes ≡ (B.disks old).sizes → IsLeft (B.disks old).may_hold (B.disks old).held
        → ((image : Image) → IsLeft (B.disks old).may_hold image
        → AreNamesNew (group_of stamp) (is_slot (label_slots (B.disks old).sizes named)) (label_copy large revision stamp (B.disks old).sizes named) (scene_of (B.disks old).sizes image))
        → (past : Past (groups (group_of stamp)))
        → IsNewGroup (group_of stamp) past (B.disks old).sizes (label_slots (B.disks old).sizes named) (label_copy large revision stamp (B.disks old).sizes named) (is_slot (label_slots (B.disks old).sizes named))
        → AreAllKept (group_of stamp) past (B.disks new) }
{}

/// A `label` that was cut short begins a history too, of the disks that had their copies by then: the members whose disks had none are absent.
/// The names of the group and of its disks are new, so that no slot showed them before.
// promise:labelled
pub fn a_label_cut_short_begins_a_history<B: Bay>()
    ensures begins { (large : Bool) (revision : Revision) (stamp : Stamp) (named : List ℕ) (old new cut : B) (founded : ℕ → Bool) → IsNewLabel (B.disks old) (B.disks new) large revision stamp named
        → IsLeftByLabel (B.disks old) (B.disks new) (B.disks cut) large revision stamp named founded
        → (past : Past (groups (group_of stamp)))
        → IsNewGroup (group_of stamp) past (B.disks old).sizes (label_slots (B.disks old).sizes named) (label_copy large revision stamp (B.disks old).sizes named) founded
        → AreAllKept (group_of stamp) past (B.disks cut) }

    // Whatever a stop left, it is told which slots are founded in it, if any.
    ensures founded { (large : Bool) (revision : Revision) (stamp : Stamp) (named : List ℕ) (old new : B) (image : Image) → IsNewLabel (B.disks old) (B.disks new) large revision stamp named
        → (B.disks new).left_since (B.disks old).moment image → (founded : ℕ → Bool) × AreLabelled (B.disks old) large revision stamp named image founded }

    // No other slot shows the group, or names a member of it: where none is founded, none does.
    ensures others { (large : Bool) (revision : Revision) (stamp : Stamp) (named : List ℕ) (old new : B) (image : Image) (founded : ℕ → Bool) → IsNewLabel (B.disks old) (B.disks new) large revision stamp named
        → (B.disks new).left_since (B.disks old).moment image → AreLabelled (B.disks old) large revision stamp named image founded
        → AreNamesNew (group_of stamp) founded (label_copy large revision stamp (B.disks old).sizes named) (scene_of (B.disks old).sizes image) }

    // Assembly of slots of which a founded one is read gives the founding configuration.
    ensures assembles { (large : Bool) (revision : Revision) (stamp : Stamp) (named : List ℕ) (old new cut : B) (founded : ℕ → Bool) → IsNewLabel (B.disks old) (B.disks new) large revision stamp named
        → IsLeftByLabel (B.disks old) (B.disks new) (B.disks cut) large revision stamp named founded → IsLeft (B.disks cut).may_hold (B.disks cut).held
        → (left : List Bool) → length left ≡ length (B.disks cut).sizes → (slot : ℕ) → founded slot ≡ true → is_read left slot ≡ true
        → Gives (B.disks cut) left (group_of stamp) (founding_config (label_copy large revision stamp (B.disks old).sizes named)) }
{}

/// A slot that a `label` founded is a current member at the beginning of the history, as it is asked that one is read, since its disk is a
/// current member of the founding configuration. Where the label was done all of its slots are founded.
pub fn a_founded_slot_is_a_current_member<B: Bay>()
    ensures member { (large : Bool) (revision : Revision) (stamp : Stamp) (named : List ℕ) (old bay : B) (founded : ℕ → Bool) → AreLabelled (B.disks old) large revision stamp named (B.disks bay).held founded
        → (past : Past (groups (group_of stamp)))
        → IsNewGroup (group_of stamp) past (B.disks old).sizes (label_slots (B.disks old).sizes named) (label_copy large revision stamp (B.disks old).sizes named) founded
        → (readable : ℕ → Bool) (slot : ℕ) → founded slot ≡ true → readable slot ≡ true
        → HasMember past (scene_of (B.disks old).sizes (B.disks bay).held) readable }
    ensures done { (told : B.tells) (large : Bool) (revision : Revision) (stamp : Stamp) (named : List ℕ) (old new : B) → IsTried (work_of B.tells (B.disks old) (B.disks new)) large revision stamp named (Ok tt)
        → AreLabelled (B.disks old) large revision stamp named (B.disks new).held (is_slot (label_slots (B.disks old).sizes named)) }
    ensures listed { (large : Bool) (revision : Revision) (stamp : Stamp) (named : List ℕ) (old bay : B) (founded : ℕ → Bool) → AreLabelled (B.disks old) large revision stamp named (B.disks bay).held founded
        → (past : Past (groups (group_of stamp)))
        → IsNewGroup (group_of stamp) past (B.disks old).sizes (label_slots (B.disks old).sizes named) (label_copy large revision stamp (B.disks old).sizes named) founded
        → (slot : ℕ) → founded slot ≡ true → has_current (founding_config (label_copy large revision stamp (B.disks old).sizes named)) (past.disk slot) ≡ true }
{}

/// Each seat of the group that a call found was read, and its disk is a current member of the configuration that it found. So was each slot
/// that a step is written to, and its disk is a current member of that step's configuration.
pub fn a_calls_disks_are_current_members<B: Bay>()
    ensures seats { (told : B.tells) (group : List ℕ) (old : Moment (groups group) B) (call : GroupCall told B.disks group old)
        → (place : ℕ) (disk : Seated) → slice_get (seated call.group) place ≡ Some disk
        → (is_read call.taken.left disk.seat.slot ≡ true) × (has_current call.group.config (old.past.disk disk.seat.slot) ≡ true) }
    ensures steps { (told : B.tells) (group : List ℕ) (old : Moment (groups group) B) (call : GroupCall told B.disks group old)
        → (slot : ℕ) (on : IsWrittenOn call.steps slot) → (is_read call.taken.left slot ≡ true) × (has_current on.step.config (old.past.disk slot) ≡ true) }
{}

/// Behind a call that was done each disk that its last step was written to is a current member, as a history asks that one is read: in a group
/// from elsewhere once a change of this engine is acknowledged. Where it issued no change each of its seats is one.
pub fn a_call_that_was_done_leaves_current_members<B: Bay>()
    ensures written { (told : B.tells) (group : List ℕ) (old new : Moment (groups group) B) (end : IsEnd told B.disks group old new) → end.call.done ≡ true
        → new.past.changes.own_from ≤ new.past.changes.acked → (scene : Scene View) → Leaves told B.disks group new.bay scene → (readable : ℕ → Bool)
        → (slot : ℕ) (on : IsWrittenOn end.call.steps slot) → on.number + 1 ≡ length end.call.steps → readable slot ≡ true → HasMember new.past scene readable }
    ensures seated { (told : B.tells) (group : List ℕ) (old new : Moment (groups group) B) (end : IsEnd told B.disks group old new) → end.call.done ≡ true
        → new.past.changes.own_from ≤ new.past.changes.acked → (scene : Scene View) → Leaves told B.disks group new.bay scene → (readable : ℕ → Bool)
        → (place : ℕ) (disk : Seated) → slice_get (seated end.call.group) place ≡ Some disk → changes_in end.call.group end.call.steps ≡ [] → readable disk.seat.slot ≡ true
        → HasMember new.past scene readable }
{}

/// Behind an import that was done each slot that it read, whose disk is a current member of its configuration, is one, as a history asks that one
/// is read: in a group from elsewhere once a change of this engine is acknowledged.
pub fn an_import_that_was_done_leaves_current_members<B: Bay>()
    ensures { (told : B.tells) (group : List ℕ) (old new : Moment (groups group) B) (end : IsJoinEnd told B.disks group old new) → is_done end.call.outcome ≡ true
        → new.past.changes.own_from ≤ new.past.changes.acked → (scene : Scene View) → Leaves told B.disks group new.bay scene → (readable : ℕ → Bool)
        → (slot : ℕ) → is_read end.call.imported.first.left slot ≡ true → has_current end.call.made.step.config (old.past.disk slot) ≡ true → readable slot ≡ true
        → HasMember new.past scene readable }
{}

/// Behind a call that was done each current member whose disk it didn't read is missing.
// promise:lost
pub fn a_member_that_was_left_out_is_missing<B: Bay>()
    ensures { (told : B.tells) (group : List ℕ) (old new : Moment (groups group) B) (end : IsEnd told B.disks group old new) → end.call.done ≡ true
        → (slot : ℕ) → is_read end.call.taken.left slot ≡ false → has_current end.call.group.config (old.past.disk slot) ≡ true
        → (number : ℕ) (config : Configuration) → IsSince new.past.changes number config → has_missing config (new.past.disk slot) ≡ true }
{}

/// However far a call on a group came, it makes no disk a current member that was none since the last acknowledged configuration, keeps one
/// that each of its steps has as one, and keeps missing what was missing.
// promise:raised
pub fn a_calls_changes_keep_members()
    ensures { (group : List ℕ) (past now : Past (groups group)) (readable : ℕ → Bool) (own : GroupValue) (changes : List Change) (timestamp : ℕ) (steps : List Step)
        → readied own changes timestamp ≡ Ok steps → (done : Bool) → Ends group past readable own (changes_in own steps) done now
        → KeepsMembers group past now steps }
{}

/// A `label` doesn't take the group of another history, whether it was done, refused or cut short: where its own group is another one, the
/// disks as they read are one of the images that a stop might have left, its slots were aside in each of these, and the names of its disks are
/// none that the history counts as current members, its slots stay aside.
pub fn a_label_is_aside_of_other_histories<B: Bay>()
    ensures { (told : B.tells) (group : List ℕ) (old : Moment (groups group) B) (exit : B) (large : Bool) (revision : Revision) (stamp : Stamp) (named : List ℕ)
        → StopsLeave (B.disks old.bay) (B.disks exit) (IsLeftFoundingAll (B.disks old.bay) (label_slots (B.disks old.bay).sizes named) (label_copy large revision stamp (B.disks old.bay).sizes named))
        → IsLeft (B.disks old.bay).may_hold (B.disks old.bay).held → bytes_eq group (group_of stamp) ≡ false
        → ((image : Image) → IsLeft (B.disks old.bay).may_hold image → (slot : ℕ) → is_slot (label_slots (B.disks old.bay).sizes named) slot ≡ true
        → IsAside old.past slot (scene_of (B.disks old.bay).sizes image slot))
        → ((place slot number : ℕ) (config : Configuration) → slice_get (label_slots (B.disks old.bay).sizes named) place ≡ Some slot → IsSince old.past.changes number config
        → has_current config (disk_of (view_of (label_copy large revision stamp (B.disks old.bay).sizes named place))) ≡ true → ⊥)
        → (call : OtherCall told B.disks group old) × (call.exit ≡ exit) × (call.written ≡ label_slots (B.disks old.bay).sizes named) }
{}

/// A call that asked for no write leaves of every slot what a stop might have left before. A count at its last value tells nothing of that.
pub fn a_call_without_a_write_leaves_all_as_it_was<B: Bay>()
    ensures { (old new : B) → GoesOn (B.disks old) (B.disks new) → (B.disks new).sectors_asked ≡ (B.disks old).sectors_asked → (B.disks new).sectors_asked < 2 ^ 64 - 1
        → LeavesOthers (B.disks old) (B.disks new) [] }
{}

/// Each copy that the steps of a group write is of the group, and names the disk that the copy of its seat named before.
pub fn a_steps_copies_name_their_group_and_disks()
    ensures group { (group : GroupValue) (changes : List Change) (timestamp : ℕ) (steps : List Step) → readied group changes timestamp ≡ Ok steps
        → (slot : ℕ) (on : IsWrittenOn steps slot) → (view_of on.disk.copy).group ≡ group.config.group }
    ensures disk { (group : GroupValue) (changes : List Change) (timestamp : ℕ) (steps : List Step) → readied group changes timestamp ≡ Ok steps
        → (slot : ℕ) (on : IsWrittenOn steps slot) → (place : ℕ) × (before : Seated) × (slice_get (seated group) place ≡ Some before)
        × (before.seat.slot ≡ slot) × (disk_of (view_of on.disk.copy) ≡ disk_of (view_of before.copy)) }
{}

/// A call of a command that changes another group, as the program's call promises it, doesn't take the group of a history, whether it was
/// done, refused or cut short: where the slots of the other group's seats were aside before, whatever a stop might have left, they stay so.
pub fn a_change_of_another_group_is_aside<B: Bay>()
    ensures { (told : B.tells) (group : List ℕ) (old : Moment (groups group) B) (exit : B) (named : Option (List ℕ)) (timestamp : ℕ) (request : Request) (outcome : Result ℕ Failure)
        → (changed : HasChanged (work_of B.tells (B.disks old.bay) (B.disks exit)) named timestamp request outcome)
        → (other : GroupValue) → group_in changed.taken.newest named ≡ Ok other → bytes_eq group other.config.group ≡ false
        → IsLeft (B.disks old.bay).may_hold (B.disks old.bay).held
        → ((image : Image) → IsLeft (B.disks old.bay).may_hold image → (slot : ℕ) → is_slot (slots_of other.seats) slot ≡ true
        → IsAside old.past slot (scene_of (B.disks old.bay).sizes image slot))
        → (call : OtherCall told B.disks group old) × (call.exit ≡ exit) × (call.written ≡ slots_of other.seats) }
{}

/// Where a stop cut an import of a group behind whose last acknowledged configuration none was issued, what is assembled is that one, or one of the
/// changes of the import: the loss of absent members, or the join.
// promise:joined
pub fn an_import_that_was_cut_is_before_or_behind_a_change<B: Bay>()
    ensures { (told : B.tells) (group : List ℕ) (old new : Moment (groups group) B) (cut : IsJoinCut told B.disks group old new) → AllKept (Leaves told B.disks group) old
        → length old.past.changes.issued ≡ old.past.changes.acked + 1 → (scene : Scene View) → Leaves told B.disks group new.bay scene → (readable : ℕ → Bool)
        → IsReadable new.past scene readable → HasMember new.past scene readable → (config : Configuration)
        → IsAnswer (groups group) new.past.slots (seen readable scene) (Is config)
        → (slice_get old.past.changes.issued old.past.changes.acked ≡ Some config)
        ⊎ ((n : ℕ) × (slice_get (joins_of told B.disks group old cut.call) n ≡ Some config)) }
{}

/// Behind an import that was done a call is admitted that reads a slot that the import read, whose disk is a current member of its configuration, and none
/// that is lost.
pub fn a_call_behind_an_import_is_admitted<B: Bay>()
    ensures { (told : B.tells) (group : List ℕ) (old new : Moment (groups group) B) (end : IsJoinEnd told B.disks group old new) → is_done end.call.outcome ≡ true
        → new.past.changes.own_from ≤ new.past.changes.acked → (B.disks new.bay).sizes ≡ (B.disks old.bay).sizes → IsLeft (B.disks new.bay).may_hold (B.disks new.bay).held
        → (left : List Bool) → ((slot : ℕ) → is_read left slot ≡ true → slot < length (B.disks new.bay).sizes) → (found : GroupValue)
        → (slot : ℕ) → is_read end.call.imported.first.left slot ≡ true → has_current end.call.made.step.config (old.past.disk slot) ≡ true → is_read left slot ≡ true
        → ((s : ℕ) → is_read left s ≡ true → new.past.lost s ≡ false) → IsAdmitted group new.past (B.disks new.bay) left found }
{}
