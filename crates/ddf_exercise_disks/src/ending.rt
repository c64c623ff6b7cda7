//! Laws of the last steps of an exercise, which read its blocks: functions that do nothing, whose contracts are the laws.
ghost use Rattle.std.specs.Prelude.{◌≡◌, ◌≤◌, ℕ, Bool, false, List, Some, codes, length, replicate};
ghost use Rattle.std.specs.List.{flat_map};
ghost use Rattle.ddf_bytes.specs.Streams.{SinkState};
ghost use Rattle.ddf_bay.specs.Memory.{disks_of};
ghost use Rattle.ddf_bay.specs.ReadsOnly.{ReadsOnly};
ghost use Rattle.ddf_bay.specs.declared.memory.MemoryBay.{MemoryBay};
ghost use Rattle.ddf_answer.specs.Call.{answer_of, work_of};
ghost use Rattle.ddf_read_commands.specs.Read.{IsReadDone};
ghost use Rattle.ddf_read_commands.specs.Scrub.{IsScrubDone};
ghost use Rattle.ddf_exercise_config.specs.Disks.{AreApart, Disks};
ghost use Rattle.ddf_exercise_config.specs.Stages.{seats_at, whole};
ghost use Rattle.ddf_exercise_config.specs.Turns.{Turn};
ghost use Rattle.ddf_exercise_config.specs.Views.{view_at};
ghost use Rattle.ddf_exercise_config.specs.Words.{word};
ghost use Rattle.ddf_exercise_disks.specs.Ending.{EndsWell, unused};
ghost use Rattle.ddf_exercise_disks.specs.Storing.{StoresAt};

/// Calls that only read leave the disks and the blocks as they are.
pub fn reads_leave_the_blocks()
    ensures { (name : List ℕ) (total asked : ℕ) (out : List Bool) (disks : Disks) (guid : List ℕ) (turn : Turn) (sequence : ℕ) (bytes : List ℕ) (old new : MemoryBay) → AreApart disks → asked ≤ total
        → StoresAt name total asked out (whole name disks guid turn sequence) (seats_at disks turn) (view_at turn false) bytes old → ReadsOnly (disks_of old) (disks_of new)
        → StoresAt name total asked out (whole name disks guid turn sequence) (seats_at disks turn) (view_at turn false) bytes new }
{}

/// A scrub finds the array clean, and leaves its blocks as they are. Or memory ran out, or its output failed.
pub fn a_scrub_is_clean()
    ensures { (name : List ℕ) (total asked : ℕ) (out : List Bool) (disks : Disks) (guid : List ℕ) (turn : Turn) (sequence : ℕ) (bytes : List ℕ) (old new : MemoryBay) → AreApart disks → asked ≤ total
        → StoresAt name total asked out (whole name disks guid turn sequence) (seats_at disks turn) (view_at turn false) bytes old → ReadsOnly (disks_of old) (disks_of new)
        → (after : SinkState) (status : ℕ) → IsScrubDone (work_of (Unit {0}) (disks_of old) (disks_of new)) (Some name) word (answer_of (Unit {0}) unused after status)
        → EndsWell (answer_of (Unit {0}) unused after status) (codes "clean\n")
        (StoresAt name total asked out (whole name disks guid turn sequence) (seats_at disks turn) (view_at turn false) bytes new) }
{}

/// A read of all blocks gives the bytes with which they are filled, and leaves them as they are. Or memory ran out, or its output failed.
pub fn a_read_gives_all_blocks()
    ensures { (name : List ℕ) (total asked : ℕ) (out : List Bool) (disks : Disks) (guid : List ℕ) (turn : Turn) (sequence : ℕ) (bytes : List ℕ) (old new : MemoryBay) → AreApart disks → asked ≤ total
        → StoresAt name total asked out (whole name disks guid turn sequence) (seats_at disks turn) (view_at turn false) bytes old → ReadsOnly (disks_of old) (disks_of new) → length bytes ≡ 8192
        → (after : SinkState) (status : ℕ) → IsReadDone (work_of (Unit {0}) (disks_of old) (disks_of new)) (Some name) word 0 8192 (answer_of (Unit {0}) unused after status)
        → EndsWell (answer_of (Unit {0}) unused after status) (flat_map (λ byte. replicate 512 byte) bytes)
        (StoresAt name total asked out (whole name disks guid turn sequence) (seats_at disks turn) (view_at turn false) bytes new) }
{}
