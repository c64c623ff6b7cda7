//! Laws of the first steps of an exercise, before its blocks are written: functions that do nothing, whose contracts are the laws.
ghost use Rattle.std.specs.Prelude.{◌≡◌, ◌+◌, ◌^◌, ◌<◌, ◌≤◌, ℕ, Bool, false, List, [], length, None, Some, replicate};
ghost use Rattle.ddf_bytes.specs.declared.stamp.Stamp.{Stamp};
ghost use Rattle.ddf_bytes.specs.Streams.{SinkState};
ghost use Rattle.ddf_bay.specs.Memory.{blank, disks_of, state_of};
ghost use Rattle.ddf_bay.specs.Moments.{GoesOn};
ghost use Rattle.ddf_bay.specs.declared.memory.MemoryBay.{MemoryBay};
ghost use Rattle.ddf_header.specs.declared.kind.Revision.TheVariants.{R200};
ghost use Rattle.ddf_update.specs.NewCopies.{group_of};
ghost use Rattle.ddf_plan.specs.Refusals.{greatest_sequence};
ghost use Rattle.ddf_words.specs.declared.command.SpareWord.TheVariants as spare_words;
ghost use Rattle.ddf_words.specs.declared.command.Wish.TheVariants as wishes;
ghost use Rattle.ddf_text.specs.Done.{sequence_line};
ghost use Rattle.ddf_request.specs.NewArray.{new_array_guid};
ghost use Rattle.ddf_answer.specs.Call.{answer_of, work_of};
ghost use Rattle.ddf_disk_commands.specs.Label.{IsLabelled};
ghost use Rattle.ddf_group_commands.specs.Requests.{IsWished, request_for};
ghost use Rattle.ddf_write_commands.specs.Resync.{IsResyncDone};
ghost use Rattle.ddf_exercise_config.specs.Disks.{AreApart, Disks};
ghost use Rattle.ddf_exercise_config.specs.Founded.{new_disks};
ghost use Rattle.ddf_exercise_config.specs.Stages.{created, founded, resynced, seats_at, whole, with_spare};
ghost use Rattle.ddf_exercise_config.specs.Turns.Turn.{Opening};
ghost use Rattle.ddf_exercise_config.specs.Views.{view_at};
ghost use Rattle.ddf_exercise_config.specs.Words.{creation, word};
ghost use Rattle.ddf_exercise_disks.specs.Ending.{EndsWell, unused};
ghost use Rattle.ddf_exercise_disks.specs.Standing.{StandsAt};
ghost use Rattle.ddf_exercise_disks.specs.Storing.{StoresAt};
ghost use Rattle.ddf_exercise_disks.specs.Well.{sizes_made};
ghost use Rattle.ddf_exercise_disks.specs.Zeros.{IsZero, none_out};

/// Five disks of zeros are labelled as a new group, and zeros stay below its records; or memory ran out, or the output failed.
pub fn a_label_founds_the_group_on_new_disks()
    ensures { (total : ℕ) (old new : MemoryBay) → state_of old ≡ blank sizes_made total [] None → (stamp : Stamp) → 415 ≤ total → GoesOn (disks_of old) (disks_of new) → (after : SinkState) (status : ℕ)
        → IsLabelled (work_of (Unit {0}) (disks_of old) (disks_of new)) false R200 stamp [] (answer_of (Unit {0}) unused after status)
        → EndsWell (answer_of (Unit {0}) unused after status) (sequence_line 1)
        (StandsAt (group_of stamp) total 415 none_out (founded (group_of stamp) (new_disks stamp) 1) (seats_at (new_disks stamp) Opening) new × IsZero new) }
{}

/// Then the array is created, and zeros stay.
pub fn a_new_array_is_created()
    ensures { (stamp : Stamp) (total asked : ℕ) (old new : MemoryBay)
        → StandsAt (group_of stamp) total asked none_out (founded (group_of stamp) (new_disks stamp) 1) (seats_at (new_disks stamp) Opening) old → IsZero old → GoesOn (disks_of old) (disks_of new)
        → (timestamp : ℕ) → timestamp < 2 ^ 32 → asked + 415 ≤ total → (after : SinkState) (status : ℕ)
        → IsWished (work_of (Unit {0}) (disks_of old) (disks_of new)) (Some (group_of stamp)) timestamp (request_for (length (disks_of old).sizes) stamp (wishes.Create creation)) (answer_of (Unit {0}) unused after status)
        → EndsWell (answer_of (Unit {0}) unused after status) (sequence_line 2)
        (StandsAt (group_of stamp) total (asked + 415) none_out
        (created (group_of stamp) (new_disks stamp) (new_array_guid (founded (group_of stamp) (new_disks stamp) 1) stamp) 2) (seats_at (new_disks stamp) Opening) new × IsZero new) }
{}

/// Behind a resync each block of the array is zeros.
pub fn a_resync_leaves_zeros()
    ensures { (name : List ℕ) (total asked : ℕ) (out : List Bool) (disks : Disks) → AreApart disks → (guid : List ℕ) (sequence : ℕ) → sequence + 1 ≤ greatest_sequence → (old new : MemoryBay)
        → StandsAt name total asked out (created name disks guid sequence) (seats_at disks Opening) old → IsZero old → GoesOn (disks_of old) (disks_of new)
        → (timestamp : ℕ) → timestamp < 2 ^ 32 → asked + 415 + 12288 ≤ total → (after : SinkState) (status : ℕ)
        → IsResyncDone (work_of (Unit {0}) (disks_of old) (disks_of new)) (Some name) timestamp word (answer_of (Unit {0}) unused after status)
        → EndsWell (answer_of (Unit {0}) unused after status) (sequence_line (sequence + 1))
        (StoresAt name total (asked + 415 + 12288) out (resynced name disks guid (sequence + 1)) (seats_at disks Opening) (view_at Opening false) (replicate 8192 0) new) }
{}

/// The blocks keep their bytes while two disks become spares, one after the other.
pub fn spares_leave_the_blocks()
    ensures first { (name : List ℕ) (total asked : ℕ) (out : List Bool) (disks : Disks) → AreApart disks → (guid : List ℕ) (sequence : ℕ) → sequence + 1 ≤ greatest_sequence → (bytes : List ℕ) (old new : MemoryBay)
        → GoesOn (disks_of old) (disks_of new) → (stamp : Stamp) (timestamp : ℕ) → timestamp < 2 ^ 32 → asked + 415 ≤ total → (after : SinkState) (status : ℕ)
        → StoresAt name total asked out (resynced name disks guid sequence) (seats_at disks Opening) (view_at Opening false) bytes old
        → IsWished (work_of (Unit {0}) (disks_of old) (disks_of new)) (Some name) timestamp (request_for (length (disks_of old).sizes) stamp (wishes.Spare 3 spare_words.Global)) (answer_of (Unit {0}) unused after status)
        → EndsWell (answer_of (Unit {0}) unused after status) (sequence_line (sequence + 1))
        (StoresAt name total (asked + 415) out (with_spare name disks guid (sequence + 1)) (seats_at disks Opening) (view_at Opening false) bytes new) }
    ensures second { (name : List ℕ) (total asked : ℕ) (out : List Bool) (disks : Disks) → AreApart disks → (guid : List ℕ) (sequence : ℕ) → sequence + 1 ≤ greatest_sequence → (bytes : List ℕ) (old new : MemoryBay)
        → GoesOn (disks_of old) (disks_of new) → (stamp : Stamp) (timestamp : ℕ) → timestamp < 2 ^ 32 → asked + 415 ≤ total → (after : SinkState) (status : ℕ)
        → StoresAt name total asked out (with_spare name disks guid sequence) (seats_at disks Opening) (view_at Opening false) bytes old
        → IsWished (work_of (Unit {0}) (disks_of old) (disks_of new)) (Some name) timestamp (request_for (length (disks_of old).sizes) stamp (wishes.Spare 4 spare_words.Global)) (answer_of (Unit {0}) unused after status)
        → EndsWell (answer_of (Unit {0}) unused after status) (sequence_line (sequence + 1))
        (StoresAt name total (asked + 415) out (whole name disks guid Opening (sequence + 1)) (seats_at disks Opening) (view_at Opening false) bytes new) }
{}
