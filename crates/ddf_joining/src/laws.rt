//! Laws of joins: functions that do nothing, whose contracts are the laws.
ghost use Rattle.std.specs.Prelude.{◌≡◌, ◌<◌, ◌^◌, ◌++◌, slice_get, IfSome, ℕ, Bool, List, [], length, Option, None, Ok};
ghost use Rattle.ddf_seats.specs.Group.{GroupValue};
ghost use Rattle.ddf_assembly.specs.Group.{group_of};
ghost use Rattle.ddf_assembly.specs.Assembled.{IsAssembledGroup};
ghost use Rattle.ddf_assembly.specs.Reading.{HaveAnchors};
ghost use Rattle.ddf_update.specs.Group.{LieOnSlots};
ghost use Rattle.std.specs.List.{AllByRecursion};
ghost use Rattle.ddf_recovery.specs.Ready.{ReadyValue};
ghost use Rattle.ddf_update.specs.Changes.{AreChanged};
ghost use Rattle.ddf_rewrite.specs.Before.{Before};
ghost use Rattle.ddf_recovery.specs.Committed.{HoldsGroup, WasReadied, group_recovered};
ghost use Rattle.ddf_steps.specs.Committed.{slots_of, synced};
ghost use Rattle.ddf_joining.specs.JoinValue.{JoinValue};
ghost use Rattle.ddf_joining.specs.Importing.{AreApart, IsJoinOf, IsOfAnother, IsOfGroupAll, KnowsDisks, MayJoinDisks, group_joined, join_slots, join_updates, was_readied};
ghost use Rattle.ddf_joining.specs.Joining.{both_disks, config_joining, join_config, join_disks, join_leaders, join_step, joining};
ghost use Rattle.ddf_recovery.specs.Recovery.{config_recovered, disks_recovered};
ghost use Rattle.ddf_assembly.specs.Slots.{first_left_out, newest_from};
ghost use Rattle.ddf_steps.specs.Trying.{Follows};
ghost use Rattle.ddf_seats.specs.Changing.{SlotsRise};
ghost use Rattle.ddf_import.specs.Clash.{join_cause};
ghost use Rattle.ddf_seats.specs.Seated.{seated, seats_in};
ghost use Rattle.ddf_assembly.specs.Settled.{IsSettledGroup};
ghost use Rattle.ddf_steps.specs.Steps.{disks_after, in_order};
ghost use Rattle.ddf_seats.specs.declared.seated.Seated.{Seated};

use ddf_bay::Bay;

/// The disks of a join are written in this order: those of the group that is joined, in rising slots, and then those that join it, in rising
/// slots. Each group's disks are in rising slots, no slot is in both, and those of the one show its group, and those of the other don't.
// promise:last
pub fn a_join_is_written_to_the_disks_that_join_last()
    ensures order { (timestamp : ℕ) (native other : GroupValue) → SlotsRise (seats_in (disks_recovered timestamp native)) → SlotsRise (seats_in (seated other))
        → AreApart (disks_recovered timestamp native) (seated other)
        → IsOfGroupAll (join_config native other) (disks_recovered timestamp native) → IsOfAnother (join_config native other) (seated other)
        → in_order (join_step timestamp native other).disks
        ≡ disks_after timestamp (join_leaders timestamp native other) (join_config native other) (disks_recovered timestamp native)
        ++ disks_after timestamp (join_leaders timestamp native other) (join_config native other) (seated other) }
    ensures rises { (native joining : List Seated) → SlotsRise (seats_in native) → SlotsRise (seats_in joining) → AreApart native joining
        → SlotsRise (seats_in (both_disks native joining)) }
{}

/// A join that was readied for a settled group and another one may be written to disks that hold the group, and the other's copies, once the
/// joining slots are synced. Then they hold the group that both have become, and this is settled, so that it can be changed.
pub fn a_join_may_be_written_and_makes_a_settled_group<B: Bay>()
    ensures may { (timestamp : ℕ) (leaders : Before) (group other : GroupValue) (join : JoinValue) (bay : B)
        → IsJoinOf timestamp leaders group other join → HoldsGroup (B.disks bay) group → MayJoinDisks (B.disks bay) join }
    ensures holds { (timestamp : ℕ) (leaders : Before) (group other : GroupValue) (join : JoinValue) (old new : B)
        → IsJoinOf timestamp leaders group other join → (B.disks new).sizes ≡ (B.disks old).sizes → HoldsGroup (B.disks old) group
        → (may : MayJoinDisks (B.disks old) join)
        → AreChanged (synced (B.disks old) (slots_of join.joining)) (B.disks new) (join_slots join) may.seat (join_updates join) (length (join_slots join))
        → HoldsGroup (B.disks new) (group_joined group join) }
    ensures settled { (timestamp : ℕ) (leaders : Before) (group other : GroupValue) (join : JoinValue)
        → IsJoinOf timestamp leaders group other join → IsSettledGroup (group_joined group join) }

    // Its updates lie on their slots, and each newest copy can be written again behind them.
    ensures lies { (timestamp : ℕ) (leaders : Before) (group other : GroupValue) (join : JoinValue) (sizes : List ℕ)
        → IsJoinOf timestamp leaders group other join → HaveAnchors sizes group.newest → LieOnSlots sizes (join_slots join) (join_updates join) }
    ensures anchored { (timestamp : ℕ) (leaders : Before) (group other : GroupValue) (join : JoinValue) (sizes : List ℕ)
        → IsJoinOf timestamp leaders group other join → HaveAnchors sizes group.newest → HaveAnchors sizes (group_joined group join).newest }
{}

/// What was readied for an import is the recovery of the group, as no change at all has it, and the join of the other group's disks to the group
/// behind it. The group knows the slots of these disks then as the other does, none is a slot of its own disks, and none shows it.
pub fn an_import_is_a_recovery_and_a_join()
    ensures recovery { (timestamp : ℕ) (native other : GroupValue) (recovery : ReadyValue) (join : JoinValue)
        → joining timestamp native other ≡ Ok (was_readied recovery join) → recovery.steps ≡ [] → timestamp < 2 ^ 32
        → IsAssembledGroup native → IsAssembledGroup other → IfSome recovery.recovery (Follows (seated native)) → Follows (join_disks timestamp native other) join.one
        → WasReadied native [] timestamp recovery }
    ensures join { (timestamp : ℕ) (native other : GroupValue) (recovery : ReadyValue) (join : JoinValue)
        → joining timestamp native other ≡ Ok (was_readied recovery join) → recovery.steps ≡ [] → timestamp < 2 ^ 32
        → IsAssembledGroup native → IsAssembledGroup other → IfSome recovery.recovery (Follows (seated native)) → Follows (join_disks timestamp native other) join.one
        → AllByRecursion (λ disk. slice_get (group_recovered native recovery.recovery).newest disk.seat.slot ≡ slice_get other.newest disk.seat.slot) (seated other)
        → AreApart (disks_recovered timestamp native) (seated other) → IsOfAnother (join_config native other) (seated other)
        → IsJoinOf timestamp (join_leaders timestamp native other) (group_recovered native recovery.recovery) other join }
{}

/// Two groups that were assembled from the same disks, where the looks may have left out different slots: where no disk, array or name of the
/// other is there already, and the first left none of the other's disks out, it knows each of them as the other does, and none is one of its own.
pub fn a_group_knows_the_disks_that_it_did_not_leave_out<B: Bay>()
    ensures { (bay : B) (left also : List Bool) (named called : Option (List ℕ)) (native other : GroupValue) → length left ≡ length also
        → group_of (newest_from (B.disks bay) 0 left) named ≡ Ok native → group_of (newest_from (B.disks bay) 0 also) called ≡ Ok other
        → join_cause (config_recovered native) (config_joining other) ≡ None → first_left_out left other.seats ≡ None → KnowsDisks native other }
{}
