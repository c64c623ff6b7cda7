//! A law of exercises: a function that does nothing, whose contract is the law. docs/PROOF.md#proved
ghost use Rattle.std.specs.Prelude.{◌≡◌, ℕ};
ghost use Rattle.ddf_bytes.specs.declared.stamp.Stamp.{Stamp};
ghost use Rattle.ddf_bay.specs.Memory.{disks_of, state_of};
ghost use Rattle.ddf_bay.specs.declared.memory.MemoryBay.{MemoryBay};
ghost use Rattle.ddf_exercise.specs.Exercise.{new_disks};
ghost use Rattle.ddf_exercise.specs.Steps.{all_steps};
ghost use Rattle.ddf_exercise.specs.Taking.{AreTaken};
ghost use Rattle.ddf_exercise_life.specs.Lived.{IsLived, later_steps};

/// An exercise of which all steps were done is a life, where the bay still tells in the end what a stop may leave: from the label on each of its steps is a turn
/// of it that was done, a creation, a resync, spares, writes, losses of disks, rebuilds and a scrub, and the disk of the first slot stands at each moment.
pub fn an_exercise_that_was_done_is_a_life()
    ensures { (stamp : Stamp) (seed rounds : ℕ) (old new : MemoryBay) → state_of old ≡ new_disks rounds → AreTaken stamp 0 (all_steps seed rounds) old new 0 → (disks_of new).tells_left
        → IsLived stamp (later_steps seed rounds) old new }
{}
