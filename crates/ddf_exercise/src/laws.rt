//! Laws of exercises: functions that do nothing, whose contracts are the laws.
ghost use Rattle.std.specs.Prelude.{◌≡◌, ◌+◌, ◌*◌, ℕ};
ghost use Rattle.ddf_exercise.specs.Exercise.{exercise_line, line_saying};
ghost use Rattle.ddf_exercise.specs.Steps.{all_steps, sequence_behind};

/// The sequence number that an exercise tells is that behind all of its steps, which the last of them that tells one had to tell.
pub fn an_exercise_tells_the_sequence_behind_its_steps()
    ensures { (seed rounds : ℕ) → sequence_behind 0 (all_steps seed rounds) ≡ 13 + 6 * rounds }
{}

/// Two exercises that were counted by hand.
pub fn two_exercises_tell_these_lines()
    ensures no_round { exercise_line 1 0 ≡ line_saying 0 0 0 13 }
    ensures one_round { exercise_line 1 1 ≡ line_saying 3 39 3048960 19 }
{}
