//! Laws of positions that go back from a revertible spare to another disk: what the spare is for afterwards, and that arrays stay usable. docs/PROOF.md#proved
ghost use Rattle.std.specs.Prelude.{◌≡◌, ◌==◌, ℕ, true, false, List, None, Some, nat_eq};
ghost use Rattle.std.specs.Map.{keys_of, lookup};
ghost use Rattle.std.specs.List.{IsDistinct, list_any};
ghost use Rattle.ddf_config.specs.declared.array.Array.{Array};
ghost use Rattle.ddf_config.specs.declared.extent.Extent.{Extent};
ghost use Rattle.ddf_config.specs.declared.member.Member.{Member};
ghost use Rattle.ddf_config.specs.declared.member.SpareUse.TheVariants.{No, Revertible};
ghost use Rattle.ddf_config.specs.declared.seat.Seat.{Seat};
ghost use Rattle.ddf_config.specs.Configuration.{Configuration};
ghost use Rattle.ddf_config.specs.Extents.{array_extents, extents};
ghost use Rattle.ddf_config.specs.Members.{is_spare, same_guid};
ghost use Rattle.ddf_config.specs.States.{low_state};
ghost use Rattle.ddf_config.specs.Unusable.{unusable};
ghost use Rattle.ddf_plan.specs.declared.change.Change.TheVariants.{Begin, Delete, Return};
ghost use Rattle.ddf_plan.specs.Causes.{causes};
ghost use Rattle.ddf_plan.specs.Changes.{changed_at};
ghost use Rattle.ddf_plan.specs.CreateRefusal.{names_twice, references};
ghost use Rattle.ddf_plan.specs.Spare.{holds_extent};
ghost use Rattle.ddf_repair.specs.declared.first.Target.{Target};
ghost use Rattle.ddf_repair.specs.Choose.{chosen, room_for};
ghost use Rattle.ddf_array.specs.Viewing.{is_array_within};
ghost use Rattle.ddf_availability.specs.GoneBack.{AllLeavePlace, AreSeatsOf, Between, IsAvailableOn, IsOnDisk, StandsInAt, as_revertible, as_spare_without, behind_all};

/// A disk that gives its place back is a revertible spare again: it isn't missing, is no spare, the position that goes to another disk was on it, and behind the change none of
/// any array is. Where one of these doesn't hold its member is as it was, and so is that of every other disk. That it isn't missing and holds the position follows from the
/// choice of the position, as its disk is here; that it is no spare from how its rebuild began. No two arrays of a table have the same GUID.
// promise:returned
pub fn a_disk_that_gives_its_place_back_is_a_spare_again()
    ensures again { (config : Configuration) (guid : List ℕ) (element position disk start sequence reference : ℕ) (member : Member) → IsDistinct same_guid (keys_of config.arrays)
        → lookup (nat_eq reference) config.members ≡ Some member → member.missing ≡ false → member.spare ≡ No → IsOnDisk config guid element position reference
        → holds_extent (changed_at config (Return guid element position disk start) sequence) reference ≡ false
        → lookup (nat_eq reference) (changed_at config (Return guid element position disk start) sequence).members ≡ Some (as_revertible member) }
    ensures missing { (config : Configuration) (guid : List ℕ) (element position disk start sequence reference : ℕ) (member : Member)
        → lookup (nat_eq reference) config.members ≡ Some member → member.missing ≡ true
        → lookup (nat_eq reference) (changed_at config (Return guid element position disk start) sequence).members ≡ Some member }
    ensures spare { (config : Configuration) (guid : List ℕ) (element position disk start sequence reference : ℕ) (member : Member)
        → lookup (nat_eq reference) config.members ≡ Some member → is_spare member.spare ≡ true
        → lookup (nat_eq reference) (changed_at config (Return guid element position disk start) sequence).members ≡ Some member }
    ensures elsewhere { (config : Configuration) (guid : List ℕ) (element position disk start sequence reference : ℕ) (member : Member)
        → lookup (nat_eq reference) config.members ≡ Some member → (IsOnDisk config guid element position reference → ⊥)
        → lookup (nat_eq reference) (changed_at config (Return guid element position disk start) sequence).members ≡ Some member }
    ensures more { (config : Configuration) (guid : List ℕ) (element position disk start sequence reference : ℕ) (member : Member) → IsDistinct same_guid (keys_of config.arrays)
        → lookup (nat_eq reference) config.members ≡ Some member → holds_extent (changed_at config (Return guid element position disk start) sequence) reference ≡ true
        → lookup (nat_eq reference) (changed_at config (Return guid element position disk start) sequence).members ≡ Some member }
{}

/// So is a disk that stood in at an element of an array that is deleted: it isn't missing, is no spare, and holds no position of any array behind the change. Where one of
/// these doesn't hold its member is as it was, no spare for that array aside, and so is that of every other disk.
// promise:returned
pub fn a_disk_that_stood_in_at_a_deleted_array_is_a_spare_again()
    ensures again { (config : Configuration) (guid : List ℕ) (sequence reference : ℕ) (member : Member)
        → lookup (nat_eq reference) config.members ≡ Some member → member.missing ≡ false → member.spare ≡ No → StandsInAt config guid reference
        → holds_extent (changed_at config (Delete guid) sequence) reference ≡ false
        → lookup (nat_eq reference) (changed_at config (Delete guid) sequence).members ≡ Some (as_revertible member) }
    ensures missing { (config : Configuration) (guid : List ℕ) (sequence reference : ℕ) (member : Member)
        → lookup (nat_eq reference) config.members ≡ Some member → member.missing ≡ true
        → lookup (nat_eq reference) (changed_at config (Delete guid) sequence).members ≡ Some (as_spare_without guid member) }
    ensures spare { (config : Configuration) (guid : List ℕ) (sequence reference : ℕ) (member : Member)
        → lookup (nat_eq reference) config.members ≡ Some member → is_spare member.spare ≡ true
        → lookup (nat_eq reference) (changed_at config (Delete guid) sequence).members ≡ Some (as_spare_without guid member) }
    ensures elsewhere { (config : Configuration) (guid : List ℕ) (sequence reference : ℕ) (member : Member)
        → lookup (nat_eq reference) config.members ≡ Some member → (StandsInAt config guid reference → ⊥)
        → lookup (nat_eq reference) (changed_at config (Delete guid) sequence).members ≡ Some (as_spare_without guid member) }
    ensures more { (config : Configuration) (guid : List ℕ) (sequence reference : ℕ) (member : Member)
        → lookup (nat_eq reference) config.members ≡ Some member → holds_extent (changed_at config (Delete guid) sequence) reference ≡ true
        → lookup (nat_eq reference) (changed_at config (Delete guid) sequence).members ≡ Some (as_spare_without guid member) }
{}

/// A revertible spare onto which the rebuild of a position begins is the spare that it was once the position has gone to another disk, where it holds no other position then,
/// with anything in between that leaves that position on it, and it a member: other changes of the group, as marks, the progress and the end of that rebuild, other positions'
/// rebuilds and returns, other disks' losses and uses as spares, and arrays that are created and deleted, and other groups that join. That a disk on which a position is gets no
/// use as a spare is what `spare` asks for; that a created array's GUID is new is asked of `create`. That the change by which the rebuild begins is refused for nothing but its
/// sequence number is a law of `begin`.
// promise:returned
pub fn a_spare_that_stood_in_is_as_it_was()
    ensures { (config : Configuration) (guid : List ℕ) (seats : List Seat) (element position reference start : ℕ) (steps : List Between) (disk back first second : ℕ) (member : Member)
        → IsDistinct same_guid (keys_of config.arrays) → causes None config (Begin guid element position reference start) seats ≡ None
        → AllLeavePlace guid element position reference (changed_at config (Begin guid element position reference start) first) steps
        → lookup (nat_eq reference) config.members ≡ Some member → member.spare ≡ Revertible
        → holds_extent (changed_at (behind_all (changed_at config (Begin guid element position reference start) first) steps) (Return guid element position disk back) second) reference ≡ false
        → lookup (nat_eq reference) (changed_at (behind_all (changed_at config (Begin guid element position reference start) first) steps) (Return guid element position disk back) second).members
        ≡ Some member }
{}

/// Every array that can be used over some seats can be used over them once a position has gone to the room that is found for it on another disk. The position is available
/// there then, every array is within its level over the seats where it was, and what is recorded of its state, optimal, degraded or failed, is the same. The position and the
/// room are those that `choose` and `room_for` give, by which `copyback` is refused with 38 and 20 where there are none; the seats are those of current members, as a group's
/// are. Where no disk held two positions of the array none does then, since `copyback` is refused with 33 for one that holds any.
// promise:returned
pub fn arrays_stay_usable_where_a_position_goes_back()
    ensures usable { (config : Configuration) (guid : List ℕ) (seats : List Seat) (target : Target) (disk : ℕ) (room : Extent) (sequence : ℕ) (asked : List ℕ) (array : Array)
        → IsDistinct same_guid (keys_of config.arrays) → chosen config guid seats ≡ Some target → room_for config guid seats target disk ≡ Some room
        → lookup (same_guid asked) config.arrays ≡ Some array → unusable config.members seats (extents config.arrays) asked array ≡ None
        → (next : Array) × (lookup (same_guid asked) (changed_at config (Return guid target.element target.position room.reference room.start) sequence).arrays ≡ Some next)
        × (unusable (changed_at config (Return guid target.element target.position room.reference room.start) sequence).members seats
        (extents (changed_at config (Return guid target.element target.position room.reference room.start) sequence).arrays) asked next ≡ None) }
    ensures available { (config : Configuration) (guid : List ℕ) (seats : List Seat) (target : Target) (disk : ℕ) (room : Extent) (sequence : ℕ)
        → chosen config guid seats ≡ Some target → room_for config guid seats target disk ≡ Some room
        → IsAvailableOn (changed_at config (Return guid target.element target.position room.reference room.start) sequence) seats guid target.element target.position disk room.start }
    ensures within { (config : Configuration) (guid : List ℕ) (seats : List Seat) (target : Target) (disk : ℕ) (room : Extent) (sequence : ℕ) (asked : List ℕ) (array : Array)
        → chosen config guid seats ≡ Some target → room_for config guid seats target disk ≡ Some room → lookup (same_guid asked) config.arrays ≡ Some array
        → (next : Array) × (lookup (same_guid asked) (changed_at config (Return guid target.element target.position room.reference room.start) sequence).arrays ≡ Some next)
        × (is_array_within seats next ≡ is_array_within seats array) }
    ensures state { (config : Configuration) (guid : List ℕ) (seats : List Seat) (target : Target) (disk : ℕ) (room : Extent) (sequence : ℕ) (asked : List ℕ) (array : Array)
        → AreSeatsOf config seats → chosen config guid seats ≡ Some target → room_for config guid seats target disk ≡ Some room → lookup (same_guid asked) config.arrays ≡ Some array
        → (next : Array) × (lookup (same_guid asked) (changed_at config (Return guid target.element target.position room.reference room.start) sequence).arrays ≡ Some next)
        × (low_state (changed_at config (Return guid target.element target.position room.reference room.start) sequence).members next ≡ low_state config.members array) }
    ensures apart { (config : Configuration) (guid : List ℕ) (seats : List Seat) (target : Target) (disk : ℕ) (room : Extent) (sequence : ℕ) (array : Array)
        → chosen config guid seats ≡ Some target → room_for config guid seats target disk ≡ Some room → lookup (same_guid guid) config.arrays ≡ Some array
        → names_twice (references array) ≡ false → list_any (λ (one : Extent). one.reference == disk) (array_extents array) ≡ false
        → (next : Array) × (lookup (same_guid guid) (changed_at config (Return guid target.element target.position room.reference room.start) sequence).arrays ≡ Some next)
        × (names_twice (references next) ≡ false) }
{}
