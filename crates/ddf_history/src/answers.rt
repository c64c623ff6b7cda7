//! What assembly answers, as histories tell of it: a function that does nothing, whose contract is the law.
ghost use Rattle.std.specs.Prelude.{ℕ, List, length, Some};
ghost use Rattle.ddf_copy.specs.Copies.{newest_at};
ghost use Rattle.ddf_group.specs.declared.shown.Shown.{Shown};
ghost use Rattle.ddf_group.specs.Assembled.{assembled};
ghost use Rattle.ddf_group.specs.Shown.{shown_of};
ghost use Rattle.ddf_history.specs.Answer.{IsAnswer};
ghost use Rattle.ddf_history.specs.Answered.{AreOfOneGroup, IsOfOneGroup};
ghost use Rattle.ddf_history.specs.Groups.{groups};
ghost use Rattle.ddf_history.specs.Scenes.{answer_of, scene_in};

/// What assembly answers of a named group is what histories tell of, where two copies of a slot that differ are of one group,
/// as those are that are read from a disk.
pub fn assembly_answers_as_histories_tell()
    ensures told { (group : List ℕ) (slots : List Shown) → AreOfOneGroup slots
        → IsAnswer (groups group) (length slots) (scene_in slots) (answer_of (assembled slots (Some group))) }
    ensures one_group { (size : ℕ) (sector : ℕ → List ℕ) → IsOfOneGroup (shown_of (newest_at size sector)) }
{}
