//! Laws of the steps of an exercise: functions that do nothing, whose contracts are the laws.
ghost use Rattle.std.specs.Prelude.{◌≡◌, ◌+◌, ◌*◌, ◌^◌, ◌<◌, ◌≤◌, ℕ, Bool, List, Option, Some, Ok, length};
ghost use Rattle.ddf_bay.specs.Memory.{disks_of};
ghost use Rattle.ddf_bay.specs.Moments.{GoesOn};
ghost use Rattle.ddf_bay.specs.declared.memory.MemoryBay.{MemoryBay};
ghost use Rattle.ddf_bytes.specs.Streams.{SinkState};
ghost use Rattle.ddf_config.specs.declared.seat.Seat.{Seat};
ghost use Rattle.ddf_config.specs.Configuration.{Configuration};
ghost use Rattle.ddf_plan.specs.declared.change.Change.{Change};
ghost use Rattle.ddf_text.specs.Done.{sequence_line};
ghost use Rattle.ddf_answer.specs.Call.{answer_of, work_of};
ghost use Rattle.ddf_group_commands.specs.Change.{IsChangeDone, Request};
ghost use Rattle.ddf_uncut_group.specs.Asking.{AreNext};
ghost use Rattle.ddf_exercise_disks.specs.Ending.{EndsWell, unused};
ghost use Rattle.ddf_exercise_disks.specs.Standing.{StandsAt};

/// A change of the group that nothing of its configuration and its seats refuses is done, and tells the sequence number behind it; or memory ran out, or its output failed.
pub fn a_change_is_done()
    ensures { (name : List ℕ) (total asked : ℕ) (out : List Bool) (config : Configuration) (seats : List Seat) (old new : MemoryBay) → StandsAt name total asked out config seats old
        → GoesOn (disks_of old) (disks_of new) → (timestamp : ℕ) → timestamp < 2 ^ 32 → (request : Request) (changes : List Change) (next : Configuration) → request config seats ≡ Ok changes
        → AreNext seats config changes next → next.group ≡ name → asked + 83 * length seats * length changes ≤ total → (after : SinkState) (status : ℕ)
        → IsChangeDone (work_of (Unit {0}) (disks_of old) (disks_of new)) (Some name) timestamp request (answer_of (Unit {0}) unused after status)
        → EndsWell (answer_of (Unit {0}) unused after status) (sequence_line next.sequence) (StandsAt name total (asked + 83 * length seats * length changes) out next seats new) }
{}
