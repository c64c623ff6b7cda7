//! Laws of the configurations of an exercise: functions that do nothing, whose contracts are the laws.
ghost use Rattle.std.specs.Prelude.{◌≡◌, ◌+◌, ◌≤◌, ℕ, Bool, false, true, [], ◌∷◌, List, None, Some, Ok, replicate};
ghost use Rattle.ddf_bytes.specs.declared.stamp.Stamp.{Stamp};
ghost use Rattle.ddf_header.specs.declared.kind.Revision.{Revision};
ghost use Rattle.ddf_update.specs.declared.new_layout.NewLayout.TheVariants.{Small};
ghost use Rattle.ddf_update.specs.NewCopies.{group_of as name_of, new_copy};
ghost use Rattle.ddf_update.specs.NewLayouts.{members_of};
ghost use Rattle.ddf_config.specs.declared.member.SpareUse.TheVariants.{Global};
ghost use Rattle.ddf_config.specs.declared.element.Position.{Position};
ghost use Rattle.ddf_plan.specs.declared.change.Change.TheVariants.{Begin, Create, Finish, Lose, Mark, Spare, Unmark};
ghost use Rattle.ddf_plan.specs.Causes.{causes};
ghost use Rattle.ddf_plan.specs.Refusals.{greatest_sequence};
ghost use Rattle.ddf_plan.specs.Same.{is_step};
ghost use Rattle.ddf_repair.specs.declared.beginning.Begun.TheVariants.{Fresh};
ghost use Rattle.ddf_repair.specs.Begin.{begun as begins};
ghost use Rattle.ddf_array.specs.Apart.{IsApart};
ghost use Rattle.ddf_array.specs.Viewing.{view_of};
ghost use Rattle.ddf_array.specs.Volume.{IsVolume, capacity};
ghost use Rattle.ddf_array.specs.Within.{is_within};
ghost use Rattle.ddf_cells.specs.Degraded.{is_degraded};
ghost use Rattle.ddf_rebuild.specs.Target.{IsTarget};
ghost use Rattle.ddf_seats.specs.Group.{GroupValue};
ghost use Rattle.ddf_recovery.specs.Recovery.{config_recovered};
ghost use Rattle.ddf_steps.specs.Steps.{config_after};
ghost use Rattle.ddf_history_steps.specs.Founding.{founding_config};
ghost use Rattle.ddf_words.specs.declared.command.SpareWord.TheVariants as words;
ghost use Rattle.ddf_words.specs.declared.command.Wish.TheVariants as wishes;
ghost use Rattle.ddf_request.specs.Named.{named_array};
ghost use Rattle.ddf_request.specs.NewArray.{new_array_guid};
ghost use Rattle.ddf_group_commands.specs.Requests.{request_for};
ghost use Rattle.ddf_read_commands.specs.Read.{read_refusal};
ghost use Rattle.ddf_read_commands.specs.Scrub.{scrub_refusal};
ghost use Rattle.ddf_write_commands.specs.Resync.{resync_request};
ghost use Rattle.ddf_write_commands.specs.Write.{write_request};
ghost use Rattle.ddf_rebuild_command.specs.Notes.{notes};
ghost use Rattle.ddf_rebuild_command.specs.Asked.{rebuild_request, rows_in};
ghost use Rattle.ddf_rebuild_command.specs.PassedOver.{passed_over};
ghost use Rattle.ddf_exercise_config.specs.Disks.{AreApart, AreNamed, Disks};
ghost use Rattle.ddf_exercise_config.specs.Founded.{new_disks};
ghost use Rattle.ddf_exercise_config.specs.Makes.{Makes};
ghost use Rattle.ddf_exercise_config.specs.Stages.{array, begun, created, degraded, disks_at, founded, lost, lost_disk, lost_position, not_at_all, optimal, positions_at, positions_lost, resynced, seats_at, spare_disk, whole, wholly, with_spare, written_on};
ghost use Rattle.ddf_exercise_config.specs.Turns.{Loss, Turn, turn_before, turn_behind};
ghost use Rattle.ddf_exercise_config.specs.Turns.Turn.{Opening};
ghost use Rattle.ddf_exercise_config.specs.Views.{part, place, places_begun, spare_slot, view_at, view_begun};
ghost use Rattle.ddf_exercise_config.specs.Words.{creation, word};
ghost use Rattle.ddf_exercise_config.specs.Writable.{AreCurrent, IsWritable};

/// A label of all five disks founds the group, and names each of them in its own way.
pub fn a_label_founds_the_group()
    ensures founds { (revision : Revision) (stamp : Stamp) → founding_config (new_copy Small revision stamp (replicate 5 65536)) ≡ founded (name_of stamp) (new_disks stamp) 1 }
    ensures apart { (stamp : Stamp) → AreApart (new_disks stamp) }
    ensures named { (stamp : Stamp) → AreNamed (new_disks stamp) }
{}

/// A creation makes the array, marked.
pub fn a_creation_makes_the_array()
    ensures asks { (group : List ℕ) (disks : Disks) (sequence : ℕ) (stamp : Stamp) (linux : List ℕ) → request_for 5 stamp (wishes.Create creation) linux (founded group disks sequence) (seats_at disks Opening)
        ≡ Ok (Create (new_array_guid (founded group disks sequence) stamp) (array (positions_at disks Opening) optimal not_at_all) ∷ []) }
    ensures makes { (group : List ℕ) (disks : Disks) (guid : List ℕ) (sequence : ℕ) → AreApart disks → sequence + 1 ≤ greatest_sequence
        → Makes (seats_at disks Opening) (founded group disks sequence) (Create guid (array (positions_at disks Opening) optimal not_at_all)) (created group disks guid (sequence + 1)) }
{}

/// A resync doesn't mark the array, which is marked, and clears its mark.
pub fn a_resync_clears_the_mark()
    ensures asks { (group : List ℕ) (disks : Disks) (guid : List ℕ) (sequence : ℕ) → AreApart disks → resync_request word (created group disks guid sequence) (seats_at disks Opening) ≡ Ok (Mark guid ∷ Unmark guid wholly ∷ []) }
    ensures may_mark { (group : List ℕ) (disks : Disks) (guid : List ℕ) (sequence : ℕ) → causes (Some (members_of Small)) (created group disks guid sequence) (Mark guid) (seats_at disks Opening) ≡ None }
    ensures is_marked { (group : List ℕ) (disks : Disks) (guid : List ℕ) (sequence : ℕ) → AreApart disks → is_step (created group disks guid sequence) (Mark guid) ≡ false }
    ensures clears { (group : List ℕ) (disks : Disks) (guid : List ℕ) (sequence : ℕ) → AreApart disks → sequence + 1 ≤ greatest_sequence
        → Makes (seats_at disks Opening) (created group disks guid sequence) (Unmark guid wholly) (resynced group disks guid (sequence + 1)) }
    ensures seen { (group : List ℕ) (disks : Disks) (guid : List ℕ) (sequence : ℕ) → AreApart disks → view_of (created group disks guid sequence) guid (seats_at disks Opening) ≡ Ok (view_at Opening true) }
{}

/// Two disks become spares, one after the other.
pub fn two_disks_become_spares()
    ensures asks_first { (group : List ℕ) (disks : Disks) (guid : List ℕ) (sequence : ℕ) (stamp : Stamp) (linux : List ℕ)
        → request_for 5 stamp (wishes.Spare 3 words.Global) linux (resynced group disks guid sequence) (seats_at disks Opening) ≡ Ok (Spare disks.fourth.reference Global ∷ []) }
    ensures asks_second { (group : List ℕ) (disks : Disks) (guid : List ℕ) (sequence : ℕ) (stamp : Stamp) (linux : List ℕ)
        → request_for 5 stamp (wishes.Spare 4 words.Global) linux (with_spare group disks guid sequence) (seats_at disks Opening) ≡ Ok (Spare disks.fifth.reference Global ∷ []) }
    ensures first { (group : List ℕ) (disks : Disks) (guid : List ℕ) (sequence : ℕ) → AreApart disks → sequence + 1 ≤ greatest_sequence
        → Makes (seats_at disks Opening) (resynced group disks guid sequence) (Spare disks.fourth.reference Global) (with_spare group disks guid (sequence + 1)) }
    ensures second { (group : List ℕ) (disks : Disks) (guid : List ℕ) (sequence : ℕ) → AreApart disks → sequence + 1 ≤ greatest_sequence
        → Makes (seats_at disks Opening) (with_spare group disks guid sequence) (Spare disks.fifth.reference Global) (whole group disks guid Opening (sequence + 1)) }
{}

/// A write marks the array, and behind its blocks clears the mark.
pub fn a_write_sets_the_mark_and_clears_it()
    ensures asks { (group : List ℕ) (disks : Disks) (guid : List ℕ) (turn : Turn) (sequence : ℕ) (start count : ℕ) → AreApart disks → start + count ≤ 8192
        → write_request word start count (whole group disks guid turn sequence) (seats_at disks turn) ≡ Ok (Mark guid ∷ Unmark guid wholly ∷ []) }
    ensures marks { (group : List ℕ) (disks : Disks) (guid : List ℕ) (turn : Turn) (sequence : ℕ) → AreApart disks → sequence + 1 ≤ greatest_sequence
        → Makes (seats_at disks turn) (whole group disks guid turn sequence) (Mark guid) (written_on group disks guid turn (sequence + 1)) }
    ensures clears { (group : List ℕ) (disks : Disks) (guid : List ℕ) (turn : Turn) (sequence : ℕ) → AreApart disks → sequence + 1 ≤ greatest_sequence
        → Makes (seats_at disks turn) (written_on group disks guid turn sequence) (Unmark guid wholly) (whole group disks guid turn (sequence + 1)) }
    ensures seen { (group : List ℕ) (disks : Disks) (guid : List ℕ) (turn : Turn) (sequence : ℕ) → AreApart disks
        → view_of (written_on group disks guid turn sequence) guid (seats_at disks turn) ≡ Ok (view_at turn true) }
{}

/// The loss of a disk leaves the array without a position: so the group is recovered where the disk is absent. Where none is its configuration stays.
pub fn a_loss_leaves_the_array_degraded()
    ensures recovers { (group : List ℕ) (disks : Disks) (guid : List ℕ) (loss : Loss) (sequence : ℕ) (found : GroupValue) → AreApart disks → sequence + 2 ≤ greatest_sequence
        → found.config ≡ whole group disks guid (turn_before loss) sequence → found.absent ≡ lost_disk disks loss ∷ [] → config_recovered found ≡ lost group disks guid loss (sequence + 2) }
    ensures stays { (found : GroupValue) → found.absent ≡ [] → config_recovered found ≡ found.config }
    ensures loses { (group : List ℕ) (disks : Disks) (guid : List ℕ) (loss : Loss) (sequence : ℕ) → AreApart disks → sequence + 2 ≤ greatest_sequence
        → config_after (whole group disks guid (turn_before loss) sequence) (Lose (lost_disk disks loss ∷ [])) ≡ lost group disks guid loss (sequence + 2) }
{}

/// A rebuild puts the spare in the place of the lost disk, and at its end the array is whole.
pub fn a_rebuild_makes_the_array_whole()
    ensures asks { (linux : List ℕ) (group : List ℕ) (disks : Disks) (guid : List ℕ) (loss : Loss) (sequence : ℕ) → AreApart disks → rebuild_request word linux (lost group disks guid loss sequence) (seats_at disks (turn_behind loss))
        ≡ Ok (Begin guid 0 (lost_position loss) (spare_disk disks loss) 0 ∷ Finish guid 0 (lost_position loss) ∷ []) }
    ensures takes { (linux : List ℕ) (group : List ℕ) (disks : Disks) (guid : List ℕ) (loss : Loss) (sequence : ℕ) → AreApart disks
        → begins (lost group disks guid loss sequence) guid (seats_at disks (turn_behind loss)) (passed_over linux (array (positions_lost disks loss) degraded wholly)) ≡ Ok (Fresh (record { element = 0; position = lost_position loss }) (Begin guid 0 (lost_position loss) (spare_disk disks loss) 0)) }
    ensures rows { (disks : Disks) (loss : Loss) → rows_in (array (positions_lost disks loss) degraded wholly) 0 ≡ 512 }
    ensures no_notes { notes 0 512 ≡ [] }
    ensures begins { (group : List ℕ) (disks : Disks) (guid : List ℕ) (loss : Loss) (sequence : ℕ) → AreApart disks → sequence + 1 ≤ greatest_sequence
        → Makes (seats_at disks (turn_behind loss)) (lost group disks guid loss sequence) (Begin guid 0 (lost_position loss) (spare_disk disks loss) 0) (begun group disks guid loss (sequence + 1)) }
    ensures ends { (group : List ℕ) (disks : Disks) (guid : List ℕ) (loss : Loss) (sequence : ℕ) → AreApart disks → sequence + 1 ≤ greatest_sequence
        → Makes (seats_at disks (turn_behind loss)) (begun group disks guid loss sequence) (Finish guid 0 (lost_position loss)) (whole group disks guid (turn_behind loss) (sequence + 1)) }
    ensures seen { (group : List ℕ) (disks : Disks) (guid : List ℕ) (loss : Loss) (sequence : ℕ) → AreApart disks
        → view_of (begun group disks guid loss sequence) guid (seats_at disks (turn_behind loss)) ≡ Ok (view_begun loss) }
    ensures target { (loss : Loss) → IsTarget (view_begun loss) 0 (lost_position loss) (part (places_begun loss)) (place (spare_slot loss) false) (spare_slot loss) }
    ensures within { (loss : Loss) → is_within (view_begun loss) ≡ true }
{}

/// Whole and without its mark the array is seen so.
pub fn a_whole_array_is_seen()
    ensures seen { (group : List ℕ) (disks : Disks) (guid : List ℕ) (turn : Turn) (sequence : ℕ) → AreApart disks
        → view_of (whole group disks guid turn sequence) guid (seats_at disks turn) ≡ Ok (view_at turn false) }
    ensures lacks_none { (turn : Turn) (is_marked : Bool) → is_degraded (view_at turn is_marked) ≡ false }
    ensures holds { (turn : Turn) (is_marked : Bool) → capacity (view_at turn is_marked) ≡ 8192 }
    ensures apart { (turn : Turn) (is_marked : Bool) → IsApart (view_at turn is_marked) }
    ensures known { (turn : Turn) (is_marked : Bool) → IsVolume (view_at turn is_marked) }
    ensures holds_rebuilt { (loss : Loss) → capacity (view_begun loss) ≡ 8192 }
    ensures apart_rebuilt { (loss : Loss) → IsApart (view_begun loss) }
    ensures known_rebuilt { (loss : Loss) → IsVolume (view_begun loss) }
{}

/// Nothing refuses a scrub of the whole array, and no read of blocks that it has.
pub fn a_scrub_and_a_read_are_not_refused()
    ensures scrub { (group : List ℕ) (disks : Disks) (guid : List ℕ) (turn : Turn) (sequence : ℕ) → AreApart disks → scrub_refusal (whole group disks guid turn sequence) (seats_at disks turn) (named_array (whole group disks guid turn sequence).arrays word) ≡ None }
    ensures read { (group : List ℕ) (disks : Disks) (guid : List ℕ) (turn : Turn) (sequence : ℕ) (start count : ℕ) → AreApart disks → start + count ≤ 8192
        → read_refusal (whole group disks guid turn sequence) (seats_at disks turn) (named_array (whole group disks guid turn sequence).arrays word) start count ≡ None }
{}

/// Whatever its positions and its state are, the word names the array.
pub fn the_word_names_the_array()
    ensures { (guid : List ℕ) (positions : List Position) (state init : ℕ) → named_array ((guid, array positions state init) ∷ []) word ≡ Some (guid, array positions state init) }
{}

/// Each configuration of an exercise can be written to its disks.
pub fn each_stage_can_be_written()
    ensures founded { (group : List ℕ) (disks : Disks) (sequence : ℕ) → AreApart disks → AreNamed disks → IsWritable (founded group disks sequence) }
    ensures created { (group : List ℕ) (disks : Disks) (guid : List ℕ) (sequence : ℕ) → AreApart disks → AreNamed disks → IsWritable (created group disks guid sequence) }
    ensures resynced { (group : List ℕ) (disks : Disks) (guid : List ℕ) (sequence : ℕ) → AreApart disks → AreNamed disks → IsWritable (resynced group disks guid sequence) }
    ensures with_spare { (group : List ℕ) (disks : Disks) (guid : List ℕ) (sequence : ℕ) → AreApart disks → AreNamed disks → IsWritable (with_spare group disks guid sequence) }
    ensures whole { (group : List ℕ) (disks : Disks) (guid : List ℕ) (turn : Turn) (sequence : ℕ) → AreApart disks → AreNamed disks → IsWritable (whole group disks guid turn sequence) }
    ensures written_on { (group : List ℕ) (disks : Disks) (guid : List ℕ) (turn : Turn) (sequence : ℕ) → AreApart disks → AreNamed disks → IsWritable (written_on group disks guid turn sequence) }
    ensures lost { (group : List ℕ) (disks : Disks) (guid : List ℕ) (loss : Loss) (sequence : ℕ) → AreApart disks → AreNamed disks → IsWritable (lost group disks guid loss sequence) }
    ensures begun { (group : List ℕ) (disks : Disks) (guid : List ℕ) (loss : Loss) (sequence : ℕ) → AreApart disks → AreNamed disks → IsWritable (begun group disks guid loss sequence) }
{}

/// The disks that have seats are current members, behind a loss too.
pub fn disks_with_seats_are_current_members()
    ensures founded { (group : List ℕ) (disks : Disks) (sequence : ℕ) → AreApart disks → AreCurrent (founded group disks sequence) (disks_at disks Opening) (seats_at disks Opening) }
    ensures created { (group : List ℕ) (disks : Disks) (guid : List ℕ) (sequence : ℕ) → AreApart disks → AreCurrent (created group disks guid sequence) (disks_at disks Opening) (seats_at disks Opening) }
    ensures resynced { (group : List ℕ) (disks : Disks) (guid : List ℕ) (sequence : ℕ) → AreApart disks → AreCurrent (resynced group disks guid sequence) (disks_at disks Opening) (seats_at disks Opening) }
    ensures with_spare { (group : List ℕ) (disks : Disks) (guid : List ℕ) (sequence : ℕ) → AreApart disks → AreCurrent (with_spare group disks guid sequence) (disks_at disks Opening) (seats_at disks Opening) }
    ensures whole { (group : List ℕ) (disks : Disks) (guid : List ℕ) (turn : Turn) (sequence : ℕ) → AreApart disks → AreCurrent (whole group disks guid turn sequence) (disks_at disks turn) (seats_at disks turn) }
    ensures written_on { (group : List ℕ) (disks : Disks) (guid : List ℕ) (turn : Turn) (sequence : ℕ) → AreApart disks → AreCurrent (written_on group disks guid turn sequence) (disks_at disks turn) (seats_at disks turn) }
    ensures lost { (group : List ℕ) (disks : Disks) (guid : List ℕ) (loss : Loss) (sequence : ℕ) → AreApart disks
        → AreCurrent (lost group disks guid loss sequence) (disks_at disks (turn_behind loss)) (seats_at disks (turn_behind loss)) }
    ensures begun { (group : List ℕ) (disks : Disks) (guid : List ℕ) (loss : Loss) (sequence : ℕ) → AreApart disks
        → AreCurrent (begun group disks guid loss sequence) (disks_at disks (turn_behind loss)) (seats_at disks (turn_behind loss)) }
{}
