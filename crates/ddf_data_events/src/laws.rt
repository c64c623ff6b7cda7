//! Laws of whole histories of groups and of their data: functions that do nothing, whose contracts are the laws.
ghost use Rattle.std.specs.Prelude.{◌≡◌, ℕ, Bool, false, true, List, [], length, Option, Some, Ok};
ghost use Rattle.std.specs.Map.{lookup};
ghost use Rattle.ddf_bytes.specs.declared.stamp.Stamp.{Stamp};
ghost use Rattle.ddf_bay.specs.Moments.{IsSettled};
ghost use Rattle.ddf_bay.specs.Sectors.{Image, IsLeft};
ghost use Rattle.ddf_header.specs.declared.kind.Revision.{Revision};
ghost use Rattle.ddf_update.specs.NewCopies.{group_of as name_of};
ghost use Rattle.ddf_config.specs.declared.array.Array.{Array};
ghost use Rattle.ddf_config.specs.Members.{same_guid};
ghost use Rattle.ddf_cells.specs.Degraded.{is_degraded};
ghost use Rattle.ddf_resync.specs.declared.outcome.Scrub.TheVariants.{Clean};
ghost use Rattle.ddf_data_array.specs.Allowed.{Allowed, once_consistent};
ghost use Rattle.ddf_data_array.specs.Rows.{HasNoRows};
ghost use Rattle.ddf_history.specs.Answer.{HasMember, IsReadable};
ghost use Rattle.ddf_history.specs.Groups.{groups};
ghost use Rattle.ddf_history.specs.Issued.{Past};
ghost use Rattle.ddf_history.specs.Scenes.{scene_of};
ghost use Rattle.ddf_seats.specs.Group.{GroupValue};
ghost use Rattle.ddf_assembly.specs.Group.{group_of};
ghost use Rattle.ddf_recovery.specs.Recovery.{trusted_seats};
ghost use Rattle.ddf_history_steps.specs.Founding.{AreNamesNew, IsNewGroup};
ghost use Rattle.ddf_history_steps.specs.Going.{IsAdmitted};
ghost use Rattle.ddf_history_steps.specs.Kept.{is_read, is_slot};
ghost use Rattle.ddf_data_history.specs.Promised.{IsAlone};
ghost use Rattle.ddf_history_memory.specs.Found.{BeginsFound};
ghost use Rattle.ddf_request.specs.Named.{named_array};
ghost use Rattle.ddf_answer.specs.Call.{work_of};
ghost use Rattle.ddf_read_commands.specs.Read.{HasRead, Outcome};
ghost use Rattle.ddf_read_commands.specs.Scrub.{HasScrubbed, IsArrayScrubbed};
ghost use Rattle.ddf_data_calls.specs.Reading.{MayBe, Means, blocks_printed};
ghost use Rattle.ddf_disk_commands.specs.Label.{IsTried, label_copy, label_slots};
ghost use Rattle.ddf_command.specs.Cut.{IsLeftByLabel, IsNewLabel};
ghost use Rattle.ddf_command.specs.History.{JoinCall as GroupsJoin};
ghost use Rattle.ddf_data_events.specs.Beginnings.{Begins};
ghost use Rattle.ddf_group_commands.specs.Change.{is_done};
ghost use Rattle.ddf_data_events.specs.Calls.{EndsAt, JoinCall};
ghost use Rattle.ddf_data_events.specs.Calls.Call.{Joins};
ghost use Rattle.ddf_data_events.specs.Events.{AgreesAt, KeepsAt, KeepsOn};
ghost use Rattle.ddf_data_events.specs.Joins.{HaveJoiningFloors, JoinsWholly};
ghost use Rattle.ddf_data_events.specs.Moments.{KeepsAll, Moment};

use ddf_bay::Bay;
use ddf_bytes::Source;

/// Where all is kept it stays so, however a history goes on, and for however many events: the calls of the program, at their ends or cut by stops, stops between
/// them, losses and returns of disks. What was acknowledged stays in the list. At every moment, whatever a stop leaves shows what it should, so that assembly
/// gives a configuration since the last acknowledged one, and keeps the data: each block has the bytes of its last acknowledged write, or of one that was
/// interrupted the old or the new ones.
// promise:read
pub fn a_group_keeps_its_history_and_its_data_at_every_moment<B: Bay, S: Source>()
    ensures { (told : B.tells) (group : List ℕ) (start : Moment group B) → KeepsAll B.disks start → (events : ℕ) → KeepsOn told B.disks S.tells S.input group events start }
{}

/// A history of a new group and of its data begins where a `label` was done: there is no array, so that nothing is promised of any, and the disk of
/// each member has the floor of its new copy. The names of the group and of its disks are new, so that no other slot shows them.
pub fn a_label_begins_a_history_of_data<B: Bay>()
    ensures { (told : B.tells) (large : Bool) (revision : Revision) (stamp : Stamp) (named : List ℕ) (old new : B) → IsTried (work_of B.tells (B.disks old) (B.disks new)) large revision stamp named (Ok tt)
        → (B.disks new).sizes ≡ (B.disks old).sizes → IsLeft (B.disks old).may_hold (B.disks old).held → (B.disks new).tells_left
        → ((image : Image) → IsLeft (B.disks old).may_hold image
        → AreNamesNew (name_of stamp) (is_slot (label_slots (B.disks old).sizes named)) (label_copy large revision stamp (B.disks old).sizes named) (scene_of (B.disks old).sizes image))
        → (past : Past (groups (name_of stamp)))
        → IsNewGroup (name_of stamp) past (B.disks old).sizes (label_slots (B.disks old).sizes named) (label_copy large revision stamp (B.disks old).sizes named) (is_slot (label_slots (B.disks old).sizes named))
        → Begins (name_of stamp) B.disks past new }
{}

/// A `label` that a stop cut short begins one too, of the disks that had their copies by then.
pub fn a_label_cut_short_begins_a_history_of_data<B: Bay>()
    ensures { (large : Bool) (revision : Revision) (stamp : Stamp) (named : List ℕ) (old new cut : B) (founded : ℕ → Bool) → IsNewLabel (B.disks old) (B.disks new) large revision stamp named
        → IsLeftByLabel (B.disks old) (B.disks new) (B.disks cut) large revision stamp named founded → (B.disks cut).tells_left → (past : Past (groups (name_of stamp)))
        → IsNewGroup (name_of stamp) past (B.disks old).sizes (label_slots (B.disks old).sizes named) (label_copy large revision stamp (B.disks old).sizes named) founded → Begins (name_of stamp) B.disks past cut }
{}

/// So does a group from elsewhere that was found whole on disks of which nothing is pending. Nothing is promised of its arrays: what they hold counts
/// once they are told to agree, as events of the history, or by an `accept` or a `resync`.
pub fn a_group_that_was_found_whole_begins_a_history_of_data<B: Bay>()
    ensures { (group : List ℕ) (bay : B) (found : GroupValue) (begins : BeginsFound group (B.disks bay) found) → (B.disks bay).tells_left
        → ((slot : ℕ) → IsSettled (B.disks bay).may_hold (B.disks bay).held slot) → Begins group B.disks begins.past bay }
{}

/// A `scrub` tells that an array agrees, as one from elsewhere of which nothing is promised: where its history admits the call, no member was absent,
/// and the group has one configuration since the last acknowledged one; where blocks may be read from each seat, nothing is pending on the disks, no
/// element of the array that keeps parity lacks a position, and no rows count as rebuilt. So what its blocks hold may count from then on.
pub fn an_array_that_a_scrub_found_clean_agrees<B: Bay>()
    ensures { (told : B.tells) (group : List ℕ) (moment : Moment group B) → KeepsAll B.disks moment → (B.disks moment.bay).tells_left → (new : B) (word : List ℕ)
        → (named : Option (List ℕ)) → (scrubbed : HasScrubbed (work_of B.tells (B.disks moment.bay) (B.disks new)) named word (Ok Clean)) → Means group scrubbed.newest named
        → (found : GroupValue) → group_of scrubbed.newest named ≡ Ok found
        → IsAdmitted group moment.past (B.disks moment.bay) scrubbed.left found → found.absent ≡ [] → trusted_seats found ≡ found.seats → IsAlone group moment.past found.config
        → ((slot : ℕ) → IsSettled (B.disks moment.bay).may_hold (B.disks moment.bay).held slot)
        → (scrub : IsArrayScrubbed (work_of B.tells (B.disks moment.bay) (B.disks new)) found.config (trusted_seats found) word Clean) → is_degraded scrub.used.1 ≡ false → HasNoRows scrub.used.1
        → AgreesAt B.disks moment scrub.used.0 (once_consistent scrub.used.1 (B.disks moment.bay).held) }
{}

/// The disks of a group that joins another one wholly have their floors, as its own history knows them: so that an import has what it asks for.
pub fn disks_that_join_wholly_have_their_floors<B: Bay>()
    ensures { (told : B.tells) (group : List ℕ) (old : Moment group B) → (B.disks old.bay).tells_left → (join : GroupsJoin told B.disks group (record { past = old.past; bay = old.bay }))
        → (theirs : Moment join.other B) → JoinsWholly B.disks old join.other join.imported.second.left join.joining theirs
        → HaveJoiningFloors group old.past (B.disks old.bay) old.floor join.joining }
{}

/// What the history of a group promised of its arrays they keep in the history of the group that it joined, once the import was done and the group
/// joined it wholly: so it may be promised there from then on, as an event of that history.
// promise:joined
pub fn arrays_that_joined_keep_what_was_promised_of_them<B: Bay, S: Source>()
    ensures { (told : B.tells) (group : List ℕ) (old : Moment group B) → KeepsAll B.disks old → (call : JoinCall told B.disks S.tells S.input group old) → is_done call.join.outcome ≡ true
        → (new : Moment group B) → new.bay ≡ call.join.exit → new.floor ≡ old.floor → EndsAt told B.disks S.tells S.input group (Joins call) new.past
        → (theirs : Moment call.join.other B) → JoinsWholly B.disks old call.join.other call.join.imported.second.left call.join.joining theirs
        → (guid : List ℕ) (array : Array) (allowed : Allowed) → lookup (same_guid guid) call.join.joining.config.arrays ≡ Some array → theirs.promises guid ≡ Some allowed → KeepsAt B.disks new guid allowed }
{}

/// A read at a moment at which all is kept, that is admitted then, prints of each block of the named array bytes that the block may have by what is promised at that
/// moment: whichever reads fail on the way, and where it stops behind the first blocks.
// promise:read
pub fn a_read_prints_what_its_moment_promises<B: Bay>()
    ensures { (told : B.tells) (group : List ℕ) (moment : Moment group B) → KeepsAll B.disks moment → (B.disks moment.bay).tells_left
        → (new : B) (named : Option (List ℕ)) (word : List ℕ) (start count : ℕ) (outcome : Outcome)
        → (read : HasRead (work_of B.tells (B.disks moment.bay) (B.disks new)) named word start count outcome) → Means group read.newest named
        → moment.past.slots ≡ length (B.disks moment.bay).sizes → IsReadable moment.past (scene_of (B.disks moment.bay).sizes (B.disks moment.bay).held) (is_read read.left)
        → HasMember moment.past (scene_of (B.disks moment.bay).sizes (B.disks moment.bay).held) (is_read read.left)
        → (found : GroupValue) → group_of read.newest named ≡ Ok found → (guid : List ℕ) (array : Array) (allowed : Allowed)
        → named_array found.config.arrays word ≡ Some (guid, array) → moment.promises guid ≡ Some allowed → MayBe allowed start (blocks_printed outcome) }
{}
