//! Laws of settled groups that all of their disks tell: functions that do nothing, whose contracts are the laws.
ghost use Rattle.std.specs.Prelude.{◌≡◌, ◌⊎◌, ◌<◌, ◌^◌, ◌∷◌, ℕ, [], Bool, true, false, List, None, Some, Err, Ok, length, slice_get, slice_set};
ghost use Rattle.std.specs.List.{AllByRecursion};
ghost use Rattle.ddf_bay.specs.Sectors.{Image};
ghost use Rattle.ddf_config.specs.declared.refusal.Refusal.{Refusal};
ghost use Rattle.ddf_config.specs.declared.seat.Seat.{Seat};
ghost use Rattle.ddf_plan.specs.declared.change.Change.{Change};
ghost use Rattle.ddf_plan.specs.Same.{is_step};
ghost use Rattle.ddf_seats.specs.declared.fault.GroupFault.TheVariants.{Refused};
ghost use Rattle.ddf_steps.specs.Asked.{CanBeAsked};
ghost use Rattle.ddf_seats.specs.Group.{GroupValue};
ghost use Rattle.ddf_assembly.specs.Group.{group_of};
ghost use Rattle.ddf_steps.specs.Ready.{group_after, is_spent};
ghost use Rattle.ddf_recovery.specs.Ready.{readied, with_recovery};
ghost use Rattle.ddf_recovery.specs.Recovery.{config_lost, full_of_recovery, has_stray, loss_spent, lost_step};
ghost use Rattle.ddf_steps.specs.Refusing.{step_refusal};
ghost use Rattle.ddf_seats.specs.Seated.{seated};
ghost use Rattle.ddf_assembly.specs.Settled.{IsSettledGroup};
ghost use Rattle.ddf_steps.specs.Steps.{Step, step_of};
ghost use Rattle.ddf_assembly.specs.Slots.{newest_from};
ghost use Rattle.ddf_group_commands.specs.Change.{Request, steps_of};
ghost use Rattle.ddf_group_commands.specs.Written.{AreWritten, IsWritten};
ghost use Rattle.ddf_uncut_group.specs.Blocks.{LeavesRecords};
ghost use Rattle.ddf_uncut_group.specs.Settled.{AreMembers, AreSettledAs, IsToldByAll, group_behind, newest_held};
ghost use Rattle.ddf_uncut_group.specs.Without.{group_lost, without_seat};

use ddf_bay::Bay;

/// A settled group has no disk that recovery must not write over.
pub fn a_settled_group_isnt_stray()
    ensures { (group : GroupValue) → IsSettledGroup group → has_stray group ≡ false }
{}

/// What a change of a settled group is readied as: refused, nothing, or its step.
pub fn a_change_is_readied_as_its_step()
    ensures refused { (group : GroupValue) (change : Change) (timestamp : ℕ) (refusal : Refusal) → IsSettledGroup group
        → step_refusal timestamp None group.config (seated group) change ≡ Some refusal → readied group (change ∷ []) timestamp ≡ Err (Refused refusal) }
    ensures nothing { (group : GroupValue) (change : Change) (timestamp : ℕ) → IsSettledGroup group
        → step_refusal timestamp None group.config (seated group) change ≡ None → is_step group.config change ≡ false → readied group (change ∷ []) timestamp ≡ Ok [] }
    ensures step { (group : GroupValue) (change : Change) (timestamp : ℕ) → IsSettledGroup group
        → step_refusal timestamp None group.config (seated group) change ≡ None → is_step group.config change ≡ true
        → is_spent (step_of timestamp group.config (seated group) change) ≡ false
        → readied group (change ∷ []) timestamp ≡ Ok (step_of timestamp group.config (seated group) change ∷ []) }
{}

/// Changes of a settled group are readied one after another: what refuses the first refuses all, one that is no step counts for nothing, and behind a
/// step come those of the group that it leaves.
pub fn changes_are_readied_one_after_another()
    ensures refused { (group : GroupValue) (change : Change) (changes : List Change) (timestamp : ℕ) (refusal : Refusal) → IsSettledGroup group
        → readied group (change ∷ []) timestamp ≡ Err (Refused refusal) → readied group (change ∷ changes) timestamp ≡ Err (Refused refusal) }
    ensures nothing { (group : GroupValue) (change : Change) (changes : List Change) (timestamp : ℕ) → IsSettledGroup group
        → readied group (change ∷ []) timestamp ≡ Ok [] → readied group (change ∷ changes) timestamp ≡ readied group changes timestamp }
    ensures step { (group : GroupValue) (change : Change) (changes : List Change) (timestamp : ℕ) (step : Step) → IsToldByAll group → CanBeAsked change → timestamp < 2 ^ 32
        → readied group (change ∷ []) timestamp ≡ Ok (step ∷ []) → 0 < length step.disks
        → readied group (change ∷ changes) timestamp ≡ with_recovery false (Some step) (readied (group_after group step) changes timestamp) }
    ensures none { (group : GroupValue) (timestamp : ℕ) → IsSettledGroup group → readied group [] timestamp ≡ Ok [] }

    // Of what was readied the first change is no step, or the first step.
    ensures first { (group : GroupValue) (change : Change) (changes : List Change) (timestamp : ℕ) (steps : List Step) → IsSettledGroup group
        → readied group (change ∷ changes) timestamp ≡ Ok steps
        → (readied group (change ∷ []) timestamp ≡ Ok [])
        ⊎ ((step : Step) × (rest : List Step) × (steps ≡ step ∷ rest) × (readied group (change ∷ []) timestamp ≡ Ok (step ∷ []))) }
{}

/// Once a step was written that leaves all of its disks members, all of them tell the group behind it, on the same seats.
pub fn a_step_leaves_a_group_that_all_tell()
    ensures told { (group : GroupValue) (change : Change) (timestamp : ℕ) (step : Step) → IsToldByAll group → CanBeAsked change → timestamp < 2 ^ 32
        → readied group (change ∷ []) timestamp ≡ Ok (step ∷ []) → AreMembers step.config group.seats → IsToldByAll (group_after group step) }
    ensures seats { (group : GroupValue) (change : Change) (timestamp : ℕ) (step : Step) → IsToldByAll group → CanBeAsked change → timestamp < 2 ^ 32
        → readied group (change ∷ []) timestamp ≡ Ok (step ∷ []) → AreMembers step.config group.seats → (group_after group step).seats ≡ group.seats }
    ensures held { (sizes : List ℕ) (old new : Image) (left : List Bool) (group : GroupValue) (change : Change) (timestamp : ℕ) (step : Step)
        → AreSettledAs sizes old left group → CanBeAsked change → timestamp < 2 ^ 32 → readied group (change ∷ []) timestamp ≡ Ok (step ∷ [])
        → AreMembers step.config group.seats → IsWritten sizes old step new → AreSettledAs sizes new left (group_after group step) }
{}

/// So it is with the steps of several changes.
pub fn steps_leave_a_group_that_all_tell()
    ensures told { (group : GroupValue) (changes : List Change) (timestamp : ℕ) (steps : List Step) → IsToldByAll group → AllByRecursion CanBeAsked changes → timestamp < 2 ^ 32
        → readied group changes timestamp ≡ Ok steps → AllByRecursion (λ (step : Step). AreMembers step.config group.seats) steps → IsToldByAll (group_behind group steps) }
    ensures seats { (group : GroupValue) (changes : List Change) (timestamp : ℕ) (steps : List Step) → IsToldByAll group → AllByRecursion CanBeAsked changes → timestamp < 2 ^ 32
        → readied group changes timestamp ≡ Ok steps → AllByRecursion (λ (step : Step). AreMembers step.config group.seats) steps → (group_behind group steps).seats ≡ group.seats }
    ensures held { (sizes : List ℕ) (old new : Image) (left : List Bool) (group : GroupValue) (changes : List Change) (timestamp : ℕ) (steps : List Step)
        → AreSettledAs sizes old left group → AllByRecursion CanBeAsked changes → timestamp < 2 ^ 32 → readied group changes timestamp ≡ Ok steps
        → AllByRecursion (λ (step : Step). AreMembers step.config group.seats) steps → AreWritten sizes old steps new → AreSettledAs sizes new left (group_behind group steps) }
{}

/// What is written below the floors of its seats leaves a group as its disks tell it.
pub fn blocks_leave_a_group_as_it_is()
    ensures { (sizes : List ℕ) (old new : Image) (left : List Bool) (group : GroupValue) → AreSettledAs sizes old left group → LeavesRecords group.seats old new
        → AreSettledAs sizes new left group }
{}

/// Without one disk of two or more a settled group is found as the others tell it: that disk's member is absent, and nothing else changes. None of the
/// others is one that recovery must not write over.
pub fn a_group_is_found_without_a_disk()
    ensures held { (sizes : List ℕ) (image : Image) (left : List Bool) (group : GroupValue) (seat : Seat) → AreSettledAs sizes image left group
        → newest_held sizes image 0 (slice_set left seat.slot true) ≡ (without_seat group seat).newest }
    ensures found { (group : GroupValue) (place : ℕ) (seat : Seat) → IsToldByAll group → slice_get group.seats place ≡ Some seat → 1 < length group.seats
        → group_of (without_seat group seat).newest (Some group.config.group) ≡ Ok (without_seat group seat) }
    ensures not_stray { (group : GroupValue) (place : ℕ) (seat : Seat) → IsToldByAll group → slice_get group.seats place ≡ Some seat → 1 < length group.seats
        → has_stray (without_seat group seat) ≡ false }
{}

/// The loss of that member comes first, where there is room for it, and then what the changes are of the group behind it, which all disks tell that are
/// left.
pub fn the_loss_of_a_disk_comes_first()
    ensures readied { (group : GroupValue) (place : ℕ) (seat : Seat) (changes : List Change) (timestamp : ℕ) → IsToldByAll group → slice_get group.seats place ≡ Some seat → 1 < length group.seats
        → timestamp < 2 ^ 32 → full_of_recovery timestamp (without_seat group seat) ≡ None
        → readied (without_seat group seat) changes timestamp
        ≡ with_recovery (loss_spent (without_seat group seat)) (Some (lost_step timestamp (without_seat group seat))) (readied (group_lost timestamp (without_seat group seat)) changes timestamp) }
    ensures first { (group : GroupValue) (place : ℕ) (seat : Seat) (changes : List Change) (timestamp : ℕ) (steps : List Step) → IsToldByAll group → slice_get group.seats place ≡ Some seat → 1 < length group.seats
        → timestamp < 2 ^ 32 → readied (without_seat group seat) changes timestamp ≡ Ok steps
        → (rest : List Step) × (steps ≡ lost_step timestamp (without_seat group seat) ∷ rest) × (readied (group_lost timestamp (without_seat group seat)) changes timestamp ≡ Ok rest)
        × (full_of_recovery timestamp (without_seat group seat) ≡ None) }
    ensures told { (group : GroupValue) (place : ℕ) (seat : Seat) (timestamp : ℕ) → IsToldByAll group → slice_get group.seats place ≡ Some seat → 1 < length group.seats
        → timestamp < 2 ^ 32 → full_of_recovery timestamp (without_seat group seat) ≡ None → IsToldByAll (group_lost timestamp (without_seat group seat)) }
    ensures seats { (group : GroupValue) (place : ℕ) (seat : Seat) (timestamp : ℕ) → IsToldByAll group → slice_get group.seats place ≡ Some seat → 1 < length group.seats
        → (group_lost timestamp (without_seat group seat)).seats ≡ (without_seat group seat).seats }
    ensures held { (sizes : List ℕ) (old new : Image) (left : List Bool) (group : GroupValue) (place : ℕ) (seat : Seat) (timestamp : ℕ) → AreSettledAs sizes old left group
        → slice_get group.seats place ≡ Some seat → 1 < length group.seats → timestamp < 2 ^ 32 → full_of_recovery timestamp (without_seat group seat) ≡ None
        → IsWritten sizes old (lost_step timestamp (without_seat group seat)) new
        → AreSettledAs sizes new (slice_set left seat.slot true) (group_lost timestamp (without_seat group seat)) }
{}

/// What a command finds of such a group, over slots of which these are left out, and what it leaves where its steps were written.
pub fn a_command_finds_and_leaves_a_group_that_all_tell<B: Bay>()
    ensures newest { (bay : B) (left : List Bool) → newest_from (B.disks bay) 0 left ≡ newest_held (B.disks bay).sizes (B.disks bay).held 0 left }
    ensures found { (bay : B) (left : List Bool) (group : GroupValue) → AreSettledAs (B.disks bay).sizes (B.disks bay).held left group
        → group_of (newest_from (B.disks bay) 0 left) (Some group.config.group) ≡ Ok group }
    ensures without { (bay : B) (left : List Bool) (group : GroupValue) (place : ℕ) (seat : Seat) → AreSettledAs (B.disks bay).sizes (B.disks bay).held left group
        → slice_get group.seats place ≡ Some seat → 1 < length group.seats
        → group_of (newest_from (B.disks bay) 0 (slice_set left seat.slot true)) (Some group.config.group) ≡ Ok (without_seat group seat) }
    ensures done { (sizes : List ℕ) (old new : Image) (left : List Bool) (group : GroupValue) (timestamp : ℕ) (request : Request) (steps : List Step) → AreSettledAs sizes old left group
        → timestamp < 2 ^ 32 → steps_of group timestamp request ≡ Ok steps → ((changes : List Change) → request group.config group.seats ≡ Ok changes → AllByRecursion CanBeAsked changes)
        → AllByRecursion (λ (step : Step). AreMembers step.config group.seats) steps → AreWritten sizes old steps new → AreSettledAs sizes new left (group_behind group steps) }
    ensures lost { (sizes : List ℕ) (old new : Image) (left : List Bool) (group : GroupValue) (place : ℕ) (seat : Seat) (timestamp : ℕ) (request : Request) (steps : List Step) → AreSettledAs sizes old left group
        → slice_get group.seats place ≡ Some seat → 1 < length group.seats → timestamp < 2 ^ 32 → steps_of (without_seat group seat) timestamp request ≡ Ok steps
        → ((changes : List Change) → request (config_lost (without_seat group seat)) (without_seat group seat).seats ≡ Ok changes → AllByRecursion CanBeAsked changes)
        → AllByRecursion (λ (step : Step). AreMembers step.config (without_seat group seat).seats) steps → AreWritten sizes old steps new
        → (rest : List Step) × (steps ≡ lost_step timestamp (without_seat group seat) ∷ rest)
        × AreSettledAs sizes new (slice_set left seat.slot true) (group_behind (group_lost timestamp (without_seat group seat)) rest) }
{}
