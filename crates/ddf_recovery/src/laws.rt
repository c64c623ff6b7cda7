//! Laws of a group's changes: functions that do nothing, whose contracts are the laws.
ghost use Rattle.std.specs.Prelude.{◌≡◌, ◌<◌, ◌∷◌, ℕ, List, [], length, Option, Some, Ok};
ghost use Rattle.ddf_copy.specs.declared.newest_copy.Newest.{Newest};
ghost use Rattle.ddf_plan.specs.declared.change.Change.{Change};
ghost use Rattle.ddf_steps.specs.Asked.{CanBeAsked};
ghost use Rattle.ddf_seats.specs.Group.{GroupValue};
ghost use Rattle.ddf_assembly.specs.Group.{group_of};
ghost use Rattle.ddf_assembly.specs.Reading.{AreNewest};
ghost use Rattle.ddf_steps.specs.Ready.{group_after};
ghost use Rattle.ddf_recovery.specs.Ready.{readied};
ghost use Rattle.ddf_assembly.specs.Settled.{IsSettledGroup};
ghost use Rattle.ddf_steps.specs.Steps.{Step};

/// What a change left of a settled group is assembled to the group after it, by what the group was assembled by before, and by its GUID: its
/// configuration is the step's, its seats are the step's, nothing is absent, and nothing lags. The step has written some disk; one that loses
/// every disk writes none.
// promise:settled
pub fn what_a_change_left_is_assembled_to_the_group_after_it()
    ensures again { (newest : List (Option Newest)) (named : Option (List ℕ)) (group : GroupValue) (change : Change) (timestamp : ℕ) (step : Step)
        → AreNewest newest → group_of newest named ≡ Ok group → IsSettledGroup group → CanBeAsked change
        → readied group (change ∷ []) timestamp ≡ Ok (step ∷ []) → 0 < length step.disks
        → group_of (group_after group step).newest named ≡ Ok (group_after group step) }
    ensures by_guid { (newest : List (Option Newest)) (named : Option (List ℕ)) (group : GroupValue) (change : Change) (timestamp : ℕ) (step : Step)
        → AreNewest newest → group_of newest named ≡ Ok group → IsSettledGroup group → CanBeAsked change
        → readied group (change ∷ []) timestamp ≡ Ok (step ∷ []) → 0 < length step.disks
        → group_of (group_after group step).newest (Some group.config.group) ≡ Ok (group_after group step) }
{}
