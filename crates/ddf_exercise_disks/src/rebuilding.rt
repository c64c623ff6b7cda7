//! Laws of a rebuild of an exercise: a function that does nothing, whose contract is the laws.
ghost use Rattle.std.specs.Prelude.{◌≡◌, ◌+◌, ◌*◌, ◌^◌, ◌<◌, ◌≤◌, ℕ, Bool, true, false, List, Some, length, slice_set};
ghost use Rattle.ddf_bay.specs.Memory.{disks_of, state_of, without};
ghost use Rattle.ddf_bay.specs.Moments.{GoesOn};
ghost use Rattle.ddf_bay.specs.declared.memory.MemoryBay.{MemoryBay};
ghost use Rattle.ddf_bytes.specs.Streams.{SinkState};
ghost use Rattle.ddf_plan.specs.Refusals.{greatest_sequence};
ghost use Rattle.ddf_text.specs.Done.{sequence_line};
ghost use Rattle.ddf_answer.specs.Call.{answer_of, work_of};
ghost use Rattle.ddf_rebuild_command.specs.Rebuilt.{IsRebuildDone};
ghost use Rattle.ddf_exercise_config.specs.Disks.{AreApart, Disks};
ghost use Rattle.ddf_exercise_config.specs.Stages.{seats_at, spare_disk, whole};
ghost use Rattle.ddf_exercise_config.specs.Turns.{Loss, turn_before, turn_behind};
ghost use Rattle.ddf_exercise_config.specs.Views.{view_at};
ghost use Rattle.ddf_exercise_config.specs.Words.{word};
ghost use Rattle.ddf_exercise_disks.specs.Ending.{EndsWell, unused};
ghost use Rattle.ddf_exercise_disks.specs.Lost.{lost_slot};
ghost use Rattle.ddf_exercise_disks.specs.Standing.{StandsAt};
ghost use Rattle.ddf_exercise_disks.specs.Storing.{StoresAt};
ghost use Rattle.ddf_exercise_disks.specs.Well.{IsWell};

/// Once a slot was unplugged the disks are well without it. A rebuild is done then, and tells the sequence number behind it: the disks that are left are the group with
/// the spare in the place of the disk that is gone, and its blocks are what they were. Or memory ran out, or its output failed.
pub fn a_rebuild_is_done()
    ensures well { (total : ℕ) (out : List Bool) (slot : ℕ) → slot < 5 → (old between : MemoryBay) → state_of between ≡ without (state_of old) slot → (disks_of between).gone slot
        → IsWell total out old → IsWell total (slice_set out slot true) between }
    ensures stands { (name : List ℕ) (total asked : ℕ) (out : List Bool) (disks : Disks) (guid : List ℕ) (loss : Loss) (sequence timestamp : ℕ) (old between new : MemoryBay)
        → StandsAt name total asked out (whole name disks guid (turn_before loss) sequence) (seats_at disks (turn_before loss)) old → AreApart disks → spare_disk disks loss < 2 ^ 32
        → sequence + 4 ≤ greatest_sequence → timestamp < 2 ^ 32 → state_of between ≡ without (state_of old) (lost_slot loss) → (disks_of between).gone (lost_slot loss)
        → GoesOn (disks_of between) (disks_of new) → asked + 249 * length (seats_at disks (turn_behind loss)) + 4096 ≤ total → (after : SinkState) (status : ℕ)
        → IsRebuildDone (work_of (Unit {0}) (disks_of between) (disks_of new)) (Some name) timestamp word (answer_of (Unit {0}) unused after status)
        → EndsWell (answer_of (Unit {0}) unused after status) (sequence_line (sequence + 4))
        (StandsAt name total (asked + 249 * length (seats_at disks (turn_behind loss)) + 4096) (slice_set out (lost_slot loss) true)
        (whole name disks guid (turn_behind loss) (sequence + 4)) (seats_at disks (turn_behind loss)) new) }
    ensures stores { (name : List ℕ) (total asked : ℕ) (out : List Bool) (disks : Disks) (guid : List ℕ) (loss : Loss) (sequence timestamp : ℕ) (bytes : List ℕ) (old between new : MemoryBay)
        → StoresAt name total asked out (whole name disks guid (turn_before loss) sequence) (seats_at disks (turn_before loss)) (view_at (turn_before loss) false) bytes old → AreApart disks
        → spare_disk disks loss < 2 ^ 32 → sequence + 4 ≤ greatest_sequence → timestamp < 2 ^ 32 → state_of between ≡ without (state_of old) (lost_slot loss)
        → (disks_of between).gone (lost_slot loss) → GoesOn (disks_of between) (disks_of new) → asked + 249 * length (seats_at disks (turn_behind loss)) + 4096 ≤ total
        → (after : SinkState) (status : ℕ)
        → IsRebuildDone (work_of (Unit {0}) (disks_of between) (disks_of new)) (Some name) timestamp word (answer_of (Unit {0}) unused after status)
        → EndsWell (answer_of (Unit {0}) unused after status) (sequence_line (sequence + 4))
        (StoresAt name total (asked + 249 * length (seats_at disks (turn_behind loss)) + 4096) (slice_set out (lost_slot loss) true)
        (whole name disks guid (turn_behind loss) (sequence + 4)) (seats_at disks (turn_behind loss)) (view_at (turn_behind loss) false) bytes new) }
{}
