//! Laws of rebuilds that begin: functions that do nothing, whose contracts are the laws.
ghost use Rattle.std.specs.Prelude.{◌≡◌, ℕ, true, false, List, None, Ok, Some};
ghost use Rattle.std.specs.Map.{keys_of, lookup};
ghost use Rattle.std.specs.List.{IsDistinct};
ghost use Rattle.ddf_config.specs.declared.array.Array.{Array};
ghost use Rattle.ddf_config.specs.declared.extent.Extent.{Extent};
ghost use Rattle.ddf_config.specs.declared.seat.Seat.{Seat};
ghost use Rattle.ddf_config.specs.Configuration.{Configuration};
ghost use Rattle.ddf_config.specs.ElementValue.{ElementValue};
ghost use Rattle.ddf_config.specs.Extents.{extent, extents};
ghost use Rattle.ddf_config.specs.Members.{same_guid};
ghost use Rattle.ddf_config.specs.States.{is_marked};
ghost use Rattle.ddf_config.specs.Unusable.{passes_floor, unusable};
ghost use Rattle.ddf_plan.specs.declared.change.Change.{Change};
ghost use Rattle.ddf_plan.specs.declared.change.Change.TheVariants.{Begin, Mark, Unmark};
ghost use Rattle.ddf_plan.specs.Causes.{causes};
ghost use Rattle.ddf_plan.specs.Changes.{changed_at};
ghost use Rattle.ddf_plan.specs.Create.{lies_clear};
ghost use Rattle.ddf_plan.specs.CreateRefusal.{references};
ghost use Rattle.ddf_plan.specs.Lose.{is_among};
ghost use Rattle.ddf_plan.specs.Rebuild.{element_at, new_position};
ghost use Rattle.ddf_repair.specs.declared.first.Target.{Target};
ghost use Rattle.ddf_repair.specs.declared.beginning.Begun.TheVariants.{Fresh};
ghost use Rattle.ddf_repair.specs.Begin.{begun};
ghost use Rattle.ddf_repair.specs.Choose.{room_for};
ghost use Rattle.ddf_repair.specs.Places.{keeps_places};

/// The change by which a rebuild begins is refused for nothing but its sequence number.
pub fn a_rebuild_that_begins_is_not_refused()
    ensures { (config : Configuration) (guid : List ℕ) (seats : List Seat) (aside : List ℕ) (target : Target) (change : Change)
        → begun config guid seats aside ≡ Ok (Fresh target change) → causes None config change seats ≡ None }
{}

/// The extent that a position gets has no sector of an extent that was there, and ends within its disk's configured size and at
/// or below the floor of its seat. The array has no other position on that disk, and it's none of those that are set aside.
pub fn the_extent_of_a_rebuild_is_free()
    ensures clear { (config : Configuration) (guid : List ℕ) (seats : List Seat) (aside : List ℕ) (target : Target) (element position reference start : ℕ) (array : Array) (plan : ElementValue)
        → begun config guid seats aside ≡ Ok (Fresh target (Begin guid element position reference start)) → lookup (same_guid guid) config.arrays ≡ Some array
        → element_at array element ≡ Some plan → lies_clear config.members (extents config.arrays) (extent plan.blocks (new_position reference start)) ≡ true }
    ensures below { (config : Configuration) (guid : List ℕ) (seats : List Seat) (aside : List ℕ) (target : Target) (element position reference start : ℕ) (array : Array) (plan : ElementValue)
        → begun config guid seats aside ≡ Ok (Fresh target (Begin guid element position reference start)) → lookup (same_guid guid) config.arrays ≡ Some array
        → element_at array element ≡ Some plan → passes_floor seats (extent plan.blocks (new_position reference start)) ≡ false }
    ensures elsewhere { (config : Configuration) (guid : List ℕ) (seats : List Seat) (aside : List ℕ) (target : Target) (element position reference start : ℕ) (array : Array)
        → begun config guid seats aside ≡ Ok (Fresh target (Begin guid element position reference start)) → lookup (same_guid guid) config.arrays ≡ Some array
        → is_among (references array) reference ≡ false }
    ensures passed_over { (config : Configuration) (guid : List ℕ) (seats : List Seat) (aside : List ℕ) (target : Target) (element position reference start : ℕ)
        → begun config guid seats aside ≡ Ok (Fresh target (Begin guid element position reference start)) → is_among aside reference ≡ false }
{}

/// The extent to which a position can move lies on that disk, has no sector of an extent that was there, and ends within the disk's
/// configured size and at or below the floor of its seat.
pub fn the_room_of_a_position_is_free()
    ensures on { (config : Configuration) (guid : List ℕ) (seats : List Seat) (target : Target) (reference : ℕ) (found : Extent)
        → room_for config guid seats target reference ≡ Some found → found.reference ≡ reference }
    ensures clear { (config : Configuration) (guid : List ℕ) (seats : List Seat) (target : Target) (reference : ℕ) (found : Extent)
        → room_for config guid seats target reference ≡ Some found → lies_clear config.members (extents config.arrays) found ≡ true }
    ensures below { (config : Configuration) (guid : List ℕ) (seats : List Seat) (target : Target) (reference : ℕ) (found : Extent)
        → room_for config guid seats target reference ≡ Some found → passes_floor seats found ≡ false }
{}

/// An array that can be used over some seats can be used over them after a change that leaves each position its disk and its
/// start: the mark that is set or cleared, and the progress and the end of a rebuild. So can every other array.
pub fn an_array_stays_usable()
    ensures { (config : Configuration) (change : Change) (sequence : ℕ) (seats : List Seat) (guid : List ℕ) (array : Array)
        → keeps_places change ≡ true → lookup (same_guid guid) config.arrays ≡ Some array
        → (next : Array) × (lookup (same_guid guid) (changed_at config change sequence).arrays ≡ Some next)
        × (unusable (changed_at config change sequence).members seats (extents (changed_at config change sequence).arrays) guid next
        ≡ unusable config.members seats (extents config.arrays) guid array) }
{}

/// Every array that can be used over some seats can be used over them once a rebuild has begun on a spare.
pub fn arrays_stay_usable_where_a_rebuild_begins()
    ensures { (config : Configuration) (guid : List ℕ) (seats : List Seat) (aside : List ℕ) (target : Target) (change : Change) (sequence : ℕ) (asked : List ℕ) (array : Array)
        → IsDistinct same_guid (keys_of config.arrays) → begun config guid seats aside ≡ Ok (Fresh target change)
        → lookup (same_guid asked) config.arrays ≡ Some array → unusable config.members seats (extents config.arrays) asked array ≡ None
        → (next : Array) × (lookup (same_guid asked) (changed_at config change sequence).arrays ≡ Some next)
        × (unusable (changed_at config change sequence).members seats (extents (changed_at config change sequence).arrays) asked next ≡ None) }
{}

/// An array is marked after the change that marks it, and isn't after the one that clears its mark.
pub fn a_mark_is_set_and_cleared()
    ensures set { (config : Configuration) (sequence : ℕ) (guid : List ℕ) (array : Array) → lookup (same_guid guid) config.arrays ≡ Some array
        → (next : Array) × (lookup (same_guid guid) (changed_at config (Mark guid) sequence).arrays ≡ Some next) × (is_marked next ≡ true) }
    ensures cleared { (config : Configuration) (sequence init : ℕ) (guid : List ℕ) (array : Array) → lookup (same_guid guid) config.arrays ≡ Some array
        → (next : Array) × (lookup (same_guid guid) (changed_at config (Unmark guid init) sequence).arrays ≡ Some next) × (is_marked next ≡ false) }
{}
