//! Laws of all changes: functions that do nothing, whose contracts are the laws.
ghost use Rattle.std.specs.Prelude.{◌≡◌, ℕ, ◌<◌, ◌≤◌, List, Ok, Some, true, false};
ghost use Rattle.std.specs.List.{list_all};
ghost use Rattle.std.specs.Map.{keys_of, lookup};
ghost use Rattle.ddf_config.specs.Configuration.{Configuration};
ghost use Rattle.ddf_config.specs.Extents.{extents, array_extents};
ghost use Rattle.ddf_config.specs.Members.{is_current, same_guid};
ghost use Rattle.ddf_config.specs.declared.array.Array.{Array};
ghost use Rattle.ddf_config.specs.declared.seat.Seat.{Seat};
ghost use Rattle.ddf_plan.specs.Refusals.{greatest_sequence};
ghost use Rattle.ddf_plan.specs.Create.{lies_clear};
ghost use Rattle.ddf_plan.specs.CreateRefusal.{references, names_twice};
ghost use Rattle.ddf_plan.specs.Changes.{after};
ghost use Rattle.ddf_plan.specs.declared.change.Change.{Change};
ghost use Rattle.ddf_plan.specs.declared.change.Change.TheVariants.{Create};

/// A change raises the sequence number, and not past the greatest.
// promise:raised
pub fn a_change_raises_the_sequence()
    ensures raised { (config next : Configuration) (change : Change) (seats : List Seat)
        → after config change seats ≡ Ok next → config.sequence < next.sequence }
    ensures bounded { (config next : Configuration) (change : Change) (seats : List Seat)
        → after config change seats ≡ Ok next → next.sequence ≤ greatest_sequence }
{}

/// A change keeps the members in their order: none joins, and none leaves the table.
// promise:raised
pub fn a_change_keeps_the_members()
    ensures { (config next : Configuration) (change : Change) (seats : List Seat)
        → after config change seats ≡ Ok next → keys_of next.members ≡ keys_of config.members }
{}

/// No change makes a missing member current.
// promise:raised
pub fn no_change_makes_a_member_current()
    ensures { (config next : Configuration) (change : Change) (seats : List Seat) (reference : ℕ)
        → after config change seats ≡ Ok next → is_current next.members reference ≡ true
        → is_current config.members reference ≡ true }
{}

/// Every extent of a new array ends within its disk's configured size and has no sector of an extent that was
/// there; and the array has no other extent on its disk.
// promise:extents
pub fn a_new_extent_meets_no_other()
    ensures clear { (config next : Configuration) (guid : List ℕ) (array made : Array) (seats : List Seat)
        → after config (Create guid array) seats ≡ Ok next → lookup (same_guid guid) next.arrays ≡ Some made
        → list_all (lies_clear config.members (extents config.arrays)) (array_extents made) ≡ true }
    ensures alone { (config next : Configuration) (guid : List ℕ) (array made : Array) (seats : List Seat)
        → after config (Create guid array) seats ≡ Ok next → lookup (same_guid guid) next.arrays ≡ Some made
        → names_twice (references made) ≡ false }
{}
