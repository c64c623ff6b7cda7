//! Laws of two groups over the same disks: functions that do nothing, whose contracts are the laws.
ghost use Rattle.std.specs.Prelude.{◌≡◌, ℕ, Bool, List, false, length, Ok, Option, Some, None, slice_get};
ghost use Rattle.std.specs.Map.{lookup};
ghost use Rattle.ddf_bytes.specs.declared.stamp.Stamp.{Stamp};
ghost use Rattle.ddf_bay.specs.Sectors.{Image};
ghost use Rattle.ddf_header.specs.declared.kind.Revision.{Revision};
ghost use Rattle.ddf_copy.specs.declared.copy.DiskCopy.{DiskCopy};
ghost use Rattle.ddf_update.specs.NewCopies.{group_of as name_of};
ghost use Rattle.ddf_config.specs.declared.array.Array.{Array};
ghost use Rattle.ddf_config.specs.Configuration.{Configuration};
ghost use Rattle.ddf_config.specs.Members.{same_guid};
ghost use Rattle.ddf_data_array.specs.Allowed.{Allowed};
ghost use Rattle.ddf_group.specs.declared.shown.Shown.{Shown};
ghost use Rattle.ddf_history.specs.Answer.{HasMember, IsReadable};
ghost use Rattle.ddf_history.specs.Groups.{groups};
ghost use Rattle.ddf_history.specs.Issued.{IsSince, Past};
ghost use Rattle.ddf_history.specs.Promise.{IsKept};
ghost use Rattle.ddf_history.specs.Scenes.{scene_of};
ghost use Rattle.ddf_seats.specs.declared.seated.Seated.{Seated};
ghost use Rattle.ddf_seats.specs.Group.{GroupValue};
ghost use Rattle.ddf_seats.specs.Seated.{seated};
ghost use Rattle.ddf_assembly.specs.Group.{group_of};
ghost use Rattle.ddf_assembly.specs.Slots.{newest_from};
ghost use Rattle.ddf_recovery.specs.Stray.{is_ahead, is_of_another};
ghost use Rattle.ddf_history_steps.specs.Founding.{IsNewGroup};
ghost use Rattle.ddf_history_steps.specs.Kept.{is_read, is_slot};
ghost use Rattle.ddf_disk_commands.specs.Label.{label_copy, label_slots};
ghost use Rattle.ddf_group_commands.specs.Change.{is_done};
ghost use Rattle.ddf_data_events.specs.Beginnings.{none_promised};
ghost use Rattle.ddf_data_events.specs.Calls.{Call, EndsAt, HasComeTo, JoinCall, OtherCall, exit_of};
ghost use Rattle.ddf_data_events.specs.Calls.Call.{Joins};
ghost use Rattle.ddf_data_events.specs.Events.{KeepsAt, Resumes};
ghost use Rattle.ddf_data_events.specs.Joins.{JoinsWholly};
ghost use Rattle.ddf_data_events.specs.Moments.{KeepsAll, Moment};
ghost use Rattle.ddf_data_groups.specs.Beside.{AreBeside, Both, HasItsMembers, JoinsBeside, Known, known_of, our_moment, their_moment};
ghost use Rattle.ddf_data_groups.specs.Going.{StayBeside, TakesItsOwn};
ghost use Rattle.ddf_data_groups.specs.Labelled.{IsLabelBeside};

use ddf_bay::Bay;
use ddf_bytes::Source;
use ddf_command::{a_change_of_another_group_is_aside, a_label_is_aside_of_other_histories};

/// A call of a group that stands beside another one doesn't take that other one: a change, `accept`, `resync`, `write`, `rebuild` or `copyback`, and one that only reads.
/// It leaves each disk of a member of the other group as it might have been left before, and its own disks don't show the other group, nor name a member of it, at any
/// moment, so that it is a call of the other group's history which leaves that history what it was.
pub fn a_call_of_another_group_is_aside<B: Bay, S: Source>()
    ensures { (told : B.tells) (one other : List ℕ) (both : Both one other B) → AreBeside B.disks both → (B.disks both.bay).tells_left
        → (call : Call told B.disks S.tells S.input one (our_moment both)) → TakesItsOwn told B.disks S.tells S.input call
        → (B.disks (exit_of told B.disks S.tells S.input one call)).sizes ≡ (B.disks both.bay).sizes
        → (aside : OtherCall told B.disks S.tells S.input other (their_moment both)) × (aside.beside.exit ≡ exit_of told B.disks S.tells S.input one call) }
{
    a_change_of_another_group_is_aside::<B>();
}

/// An `import` by which one group joins another doesn't take a third group that stands beside both, however it ends: it is a call of the third group's history which
/// leaves that history what it was.
pub fn an_import_is_aside_of_a_third_group<B: Bay, S: Source>()
    ensures { (told : B.tells) (one other : List ℕ) (both : Both one other B) → AreBeside B.disks both → (B.disks both.bay).tells_left
        → (call : JoinCall told B.disks S.tells S.input one (our_moment both)) → (known : Known call.join.other)
        → JoinsBeside B.disks both call.join.other call.join.imported.second.left call.join.joining known → (B.disks call.join.exit).sizes ≡ (B.disks both.bay).sizes
        → (aside : OtherCall told B.disks S.tells S.input other (their_moment both)) × (aside.beside.exit ≡ call.join.exit) }
{}

/// However the histories of two groups over the same disks go on side by side, and for however many events of either, both hold all at every moment: what was
/// acknowledged of each stays, each group is assembled as its history promises, and each block has bytes that it may have by its own group's history. An event of the one
/// leaves the other's history what it was.
pub fn two_groups_keep_their_histories_and_their_data_side_by_side<B: Bay, S: Source>()
    ensures { (told : B.tells) (one other : List ℕ) (start : Both one other B) → AreBeside B.disks start → (events : ℕ) → StayBeside told B.disks S.tells S.input events one other start }
{
    a_change_of_another_group_is_aside::<B>();
}

/// What the history of a group promised of its arrays they keep also where an import by which the group joins another one wholly was cut by a stop, or failed: in the
/// history of the group that it joins, if the join comes to stand there. No configuration of that group since its last acknowledged one has the array. So it may be
/// promised there from the cut on, as an event of that history, and is kept by the command that goes on with the import, as by any other.
// promise:joined
pub fn arrays_of_an_import_that_was_cut_keep_what_was_promised_of_them<B: Bay, S: Source>()
    ensures cut { (told : B.tells) (group : List ℕ) (old : Moment group B) → KeepsAll B.disks old → (call : JoinCall told B.disks S.tells S.input group old) → (image : Image)
        → (B.disks call.join.exit).left_since (B.disks old.bay).moment image → (new : Moment group B) → Resumes (B.disks old.bay) (B.disks new.bay) (λ left. left ≡ image) → new.floor ≡ old.floor
        → HasComeTo told B.disks S.tells S.input group (Joins call) new.past
        → (theirs : Moment call.join.other B) → JoinsWholly B.disks old call.join.other call.join.imported.second.left call.join.joining theirs
        → (guid : List ℕ) → ((number : ℕ) (config : Configuration) → IsSince old.past.changes number config → lookup (same_guid guid) config.arrays ≡ None)
        → (array : Array) → lookup (same_guid guid) call.join.joining.config.arrays ≡ Some array → (allowed : Allowed) → theirs.promises guid ≡ Some allowed → KeepsAt B.disks new guid allowed }
    ensures failed { (told : B.tells) (group : List ℕ) (old : Moment group B) → KeepsAll B.disks old → (call : JoinCall told B.disks S.tells S.input group old) → is_done call.join.outcome ≡ false
        → (new : Moment group B) → new.bay ≡ call.join.exit → new.floor ≡ old.floor → EndsAt told B.disks S.tells S.input group (Joins call) new.past
        → (theirs : Moment call.join.other B) → JoinsWholly B.disks old call.join.other call.join.imported.second.left call.join.joining theirs
        → (guid : List ℕ) → ((number : ℕ) (config : Configuration) → IsSince old.past.changes number config → lookup (same_guid guid) config.arrays ≡ None)
        → (array : Array) → lookup (same_guid guid) call.join.joining.config.arrays ≡ Some array → (allowed : Allowed) → theirs.promises guid ≡ Some allowed → KeepsAt B.disks new guid allowed }
{}

/// A `label` of some slots beside a group, whose history holds all and of which they were aside, begins a history of the new group and of its data on the same disks, and
/// the two stand side by side: the other group's history is what it was, and nothing is promised of any array of the new one yet. A group that is labelled has its own
/// members.
// promise:labelled
pub fn a_group_is_labelled_beside_another<B: Bay, S: Source>()
    ensures stands { (told : B.tells) (one : List ℕ) (old : Moment one B) → KeepsAll B.disks old → HasItsMembers one old.past → (large : Bool) (revision : Revision) (stamp : Stamp) (named : List ℕ) (new : B)
        → IsLabelBeside B.tells (B.disks old.bay) (B.disks new) one old.past large revision stamp named → (past : Past (groups (name_of stamp)))
        → IsNewGroup (name_of stamp) past (B.disks old.bay).sizes (label_slots (B.disks old.bay).sizes named) (label_copy large revision stamp (B.disks old.bay).sizes named)
        (is_slot (label_slots (B.disks old.bay).sizes named))
        → (both : Both one (name_of stamp) B) × AreBeside B.disks both × (both.bay ≡ new) × (both.ours ≡ known_of old) × (both.theirs.past ≡ past) × (both.theirs.promises ≡ none_promised) }
    ensures begins { (group : List ℕ) (past : Past (groups group)) (sizes slots : List ℕ) (copy : ℕ → DiskCopy) (founded : ℕ → Bool) → IsNewGroup group past sizes slots copy founded → HasItsMembers group past }
{
    a_label_is_aside_of_other_histories::<B>();
}

/// Of what is assembled in a history of a group, a current member among the disks that are read, no seat is taken for one that is ahead of the group, or that shows
/// another one: where a change of this engine is acknowledged, and no disk joins by one that isn't yet. With what `ddf_history_behind` says of older images, three of the
/// four causes of a refusal 39 come of no history then; the fourth is a record of an element that no other disk tells of.
pub fn no_disk_of_a_history_is_ahead_of_its_group_or_of_another<B: Bay>()
    ensures { (group : List ℕ) (bay : B) (past : Past (groups group)) → past.slots ≡ length (B.disks bay).sizes → IsKept past (scene_of (B.disks bay).sizes (B.disks bay).held) → HasItsMembers group past
        → (left : List Bool) → length left ≡ length (B.disks bay).sizes → IsReadable past (scene_of (B.disks bay).sizes (B.disks bay).held) (is_read left)
        → HasMember past (scene_of (B.disks bay).sizes (B.disks bay).held) (is_read left) → (named : Option (List ℕ)) (found : GroupValue) → group_of (newest_from (B.disks bay) 0 left) named ≡ Ok found
        → found.config.group ≡ group → (place : ℕ) (disk : Seated) → slice_get (seated found) place ≡ Some disk
        → (is_ahead found.config disk ≡ false) × ((slots : List Shown) → is_of_another slots found.config disk ≡ false) }
{}
