//! A law of the writes of an exercise: a function that does nothing, whose contract is the law.
ghost use Rattle.std.specs.Prelude.{◌≡◌, ◌+◌, ◌*◌, ◌^◌, ◌<◌, ◌≤◌, ◌++◌, ℕ, Bool, false, List, Some, drop, length, replicate, take};
ghost use Rattle.ddf_bytes.specs.Streams.{SinkState, SourceState};
ghost use Rattle.ddf_bay.specs.Memory.{disks_of};
ghost use Rattle.ddf_bay.specs.Moments.{GoesOn};
ghost use Rattle.ddf_bay.specs.declared.memory.MemoryBay.{MemoryBay};
ghost use Rattle.ddf_plan.specs.Refusals.{greatest_sequence};
ghost use Rattle.ddf_text.specs.Done.{sequence_line};
ghost use Rattle.ddf_answer.specs.Call.{answer_of, input_of, work_of};
ghost use Rattle.ddf_write_commands.specs.Write.{IsWriteDone};
ghost use Rattle.ddf_exercise_config.specs.Disks.{AreApart, Disks};
ghost use Rattle.ddf_exercise_config.specs.Stages.{seats_at, whole};
ghost use Rattle.ddf_exercise_config.specs.Turns.{Turn};
ghost use Rattle.ddf_exercise_config.specs.Views.{view_at};
ghost use Rattle.ddf_exercise_config.specs.Words.{word};
ghost use Rattle.ddf_exercise_disks.specs.Ending.{EndsWell, unused};
ghost use Rattle.ddf_exercise_disks.specs.Storing.{StoresAt};

/// A write of up to 16 blocks that lie within the array is done, with as many bytes as they have, and fills them with the byte of which all these are; all other blocks
/// stay as they were. Or memory ran out, or its output failed.
pub fn a_write_fills_its_blocks()
    ensures { (name : List ℕ) (total asked : ℕ) (out : List Bool) (disks : Disks) (guid : List ℕ) (turn : Turn) (sequence : ℕ) (bytes : List ℕ) (old new : MemoryBay) → AreApart disks
        → StoresAt name total asked out (whole name disks guid turn sequence) (seats_at disks turn) (view_at turn false) bytes old → GoesOn (disks_of old) (disks_of new)
        → sequence + 2 ≤ greatest_sequence → length bytes ≡ 8192 → (timestamp : ℕ) → timestamp < 2 ^ 32 → (start count byte : ℕ) → start + count ≤ 8192 → 1 ≤ count → count ≤ 16
        → asked + 166 * length (seats_at disks turn) + 32 ≤ total → (left : SourceState) (after : SinkState) (status : ℕ)
        → IsWriteDone (work_of (Unit {0}) (disks_of old) (disks_of new)) (input_of (Unit {0}) (record { left = replicate (512 * count) byte; faults = 0 }) left) (Some name) timestamp word start count
        (answer_of (Unit {0}) unused after status)
        → EndsWell (answer_of (Unit {0}) unused after status) (sequence_line (sequence + 2))
        (StoresAt name total (asked + 166 * length (seats_at disks turn) + 32) out (whole name disks guid turn (sequence + 2)) (seats_at disks turn) (view_at turn false)
        (take start bytes ++ replicate count byte ++ drop (start + count) bytes) new) }
{}
