//! Laws of rewritten copies: functions that do nothing, whose contracts are the laws.
ghost use Rattle.std.specs.Prelude.{◌≡◌, ◌∷◌, ℕ, ◌<◌, ◌^◌, true, false, List, map, option_map, slice_get, Some, None};
ghost use Rattle.std.specs.List.{AllByRecursion};
ghost use Rattle.ddf_header.specs.declared.geometry.Geometry.{Geometry};
ghost use Rattle.ddf_header.specs.declared.reading.Header.{Header};
ghost use Rattle.ddf_header.specs.Geometry.{IsSound};
ghost use Rattle.ddf_config.specs.Configuration.{Configuration};
ghost use Rattle.ddf_config.specs.declared.member.Member.{Member};
ghost use Rattle.ddf_config.specs.Shapes.{array_capacity};
ghost use Rattle.ddf_copy.specs.declared.copy.DiskCopy.{DiskCopy};
ghost use Rattle.ddf_copy.specs.Written.{CanBeCopy};
ghost use Rattle.ddf_copy.specs.Headers.{IsUnder};
ghost use Rattle.ddf_view.specs.View.{View, has_bit, view_of};
ghost use Rattle.ddf_view.specs.Readable.{HasNotes};
ghost use Rattle.ddf_view.specs.Reading.{are_noted, read};
ghost use Rattle.ddf_view.specs.Shows.{shows, shows_fully};
ghost use Rattle.ddf_view.specs.Differ.{difference};
ghost use Rattle.ddf_rewrite.specs.Before.{Before, before, leading_record};
ghost use Rattle.ddf_rewrite.specs.Disks.{is_behind, is_global, is_linux};
ghost use Rattle.ddf_rewrite.specs.Wanted.{Wanted, all_wanted};
ghost use Rattle.ddf_rewrite.specs.Copies.{changed_copy, recovered_copy};
ghost use Rattle.ddf_rewrite.specs.Readable.{HasOwnNames, AreRebuilt};
ghost use Rattle.ddf_rewrite.specs.Room.{full_after_change, full_after_recovery};
ghost use Rattle.ddf_rewrite.specs.Hold.{AreHeld, CanBeRecovered, CanWrite, DoAgree, IsHoldable, IsLeader};
ghost use Rattle.ddf_rewrite.specs.Changing.{HasRoomFor, CanChange};

/// The copy that a change gives a disk shows the configuration fully.
pub fn a_changed_copy_shows_the_configuration_fully()
    ensures { (old : DiskCopy) (leaders : Before) (config : Configuration) (timestamp : ℕ) → CanChange old leaders config timestamp
        → shows_fully config (view_of (changed_copy old leaders config timestamp)) ≡ true }
{}

/// The copies that a change gives two disks agree.
pub fn changed_copies_agree()
    ensures { (old other : DiskCopy) (leaders : Before) (config : Configuration) (timestamp : ℕ) → HasOwnNames config → AreRebuilt config
        → HasRoomFor old leaders config timestamp → HasRoomFor other leaders config timestamp
        → difference (view_of (changed_copy old leaders config timestamp)) (view_of (changed_copy other leaders config timestamp)) ≡ None }
{}

/// The copy that a change gives a disk can be written.
pub fn a_changed_copy_can_be_written()
    ensures { (old : DiskCopy) (leaders : Before) (config : Configuration) (timestamp : ℕ)
        → CanBeCopy old → CanChange old leaders config timestamp → CanWrite old leaders config timestamp
        → CanBeCopy (changed_copy old leaders config timestamp) }
{}

/// A change of a configuration that can be held gives a disk that has room a copy that can be written: all that is asked of the change holds.
pub fn a_change_that_has_room_can_be_written()
    ensures written { (old : DiskCopy) (leaders : Before) (config : Configuration) (timestamp : ℕ)
        → CanBeCopy old → IsHoldable old.header.geometry.max_members config → AreHeld old.header.geometry leaders → timestamp < 2 ^ 32
        → ((n : ℕ) (wanted : Wanted) → slice_get (all_wanted config) n ≡ Some wanted
        → leading_record leaders wanted.guid wanted.index ≡ None → array_capacity wanted.array < 2 ^ 64)
        → full_after_change old leaders config timestamp ≡ None → CanBeCopy (changed_copy old leaders config timestamp) }
    ensures change { (old : DiskCopy) (leaders : Before) (config : Configuration) (timestamp : ℕ)
        → CanBeCopy old → IsHoldable old.header.geometry.max_members config → AreHeld old.header.geometry leaders → timestamp < 2 ^ 32
        → ((n : ℕ) (wanted : Wanted) → slice_get (all_wanted config) n ≡ Some wanted
        → leading_record leaders wanted.guid wanted.index ≡ None → array_capacity wanted.array < 2 ^ 64)
        → full_after_change old leaders config timestamp ≡ None → CanChange old leaders config timestamp }
    ensures fits { (old : DiskCopy) (leaders : Before) (config : Configuration) (timestamp : ℕ)
        → CanBeCopy old → IsHoldable old.header.geometry.max_members config → AreHeld old.header.geometry leaders → timestamp < 2 ^ 32
        → ((n : ℕ) (wanted : Wanted) → slice_get (all_wanted config) n ≡ Some wanted
        → leading_record leaders wanted.guid wanted.index ≡ None → array_capacity wanted.array < 2 ^ 64)
        → full_after_change old leaders config timestamp ≡ None → CanWrite old leaders config timestamp }
{}

/// The copy that a change gives a disk of the group can be written in both of its places, under the anchor of the disk.
pub fn a_changed_copy_can_be_written_in_both_places()
    ensures { (size : ℕ) (anchor : Header) (old : DiskCopy) (leaders : Before) (config : Configuration) (timestamp : ℕ)
        → IsUnder size anchor old → config.group ≡ old.header.guid
        → CanChange old leaders config timestamp → CanWrite old leaders config timestamp
        → IsUnder size anchor (changed_copy old leaders config timestamp) }
{}

/// A configuration that copies give together, where they can be written and their records have one length, can be held.
pub fn a_configuration_that_is_read_can_be_held()
    ensures { (geometry : Geometry) (copy : DiskCopy) (copies : List DiskCopy) → IsSound geometry
        → AllByRecursion (IsLeader geometry) (copy ∷ copies)
        → IsHoldable geometry.max_members (read copy.header.guid copy.header.sequence (map view_of (copy ∷ copies))) }
{}

/// Disks that all have the copies of a change give its configuration.
pub fn changed_copies_give_the_configuration()
    ensures { (old : DiskCopy) (leaders : Before) (config : Configuration) (timestamp : ℕ)
        → CanChange old leaders config timestamp → (others : List DiskCopy)
        → AllByRecursion (λ other. CanChange other leaders config timestamp) others
        → read config.group config.sequence
        (view_of (changed_copy old leaders config timestamp) ∷ map (λ other. view_of (changed_copy other leaders config timestamp)) others)
        ≡ config }
{}

/// The copy that a recovery gives a disk of the group can be written in both of its places, under the anchor of the disk.
pub fn a_recovered_copy_can_be_written()
    ensures { (size : ℕ) (anchor : Header) (old : DiskCopy) (leaders : Before) (config : Configuration) (timestamp : ℕ)
        → IsUnder size anchor old → config.group ≡ old.header.guid → CanBeRecovered old leaders config timestamp
        → IsUnder size anchor (recovered_copy old leaders config timestamp) }
{}

/// A recovery to what leaders give gives a disk that has room a copy that can be written: all that is asked of the recovery holds.
pub fn a_recovery_that_has_room_can_be_written()
    ensures written { (old copy : DiskCopy) (copies : List DiskCopy) (timestamp : ℕ)
        → CanBeCopy old → AllByRecursion (IsLeader old.header.geometry) (copy ∷ copies) → timestamp < 2 ^ 32
        → full_after_recovery old (before (map view_of (copy ∷ copies)))
        (read copy.header.guid copy.header.sequence (map view_of (copy ∷ copies))) ≡ None
        → CanBeCopy (recovered_copy old (before (map view_of (copy ∷ copies)))
        (read copy.header.guid copy.header.sequence (map view_of (copy ∷ copies))) timestamp) }
    ensures fits { (old copy : DiskCopy) (copies : List DiskCopy) (timestamp : ℕ)
        → CanBeCopy old → AllByRecursion (IsLeader old.header.geometry) (copy ∷ copies) → timestamp < 2 ^ 32
        → full_after_recovery old (before (map view_of (copy ∷ copies)))
        (read copy.header.guid copy.header.sequence (map view_of (copy ∷ copies))) ≡ None
        → CanBeRecovered old (before (map view_of (copy ∷ copies)))
        (read copy.header.guid copy.header.sequence (map view_of (copy ∷ copies))) timestamp }
{}

/// The copy that a recovery gives a disk shows the configuration that the leaders give. Where a leader has valid notes it shows it
/// fully, and each of its records has a note.
pub fn a_recovered_copy_shows_the_configuration()
    ensures shown { (old : DiskCopy) (group : List ℕ) (sequence : ℕ) (views : List View) (timestamp : ℕ)
        → CanBeRecovered old (before views) (read group sequence views) timestamp
        → shows (read group sequence views) (view_of (recovered_copy old (before views) (read group sequence views) timestamp)) ≡ true }
    ensures fully { (old : DiskCopy) (group : List ℕ) (sequence : ℕ) (views : List View) (timestamp : ℕ)
        → CanBeRecovered old (before views) (read group sequence views) timestamp → are_noted views ≡ true
        → shows_fully (read group sequence views) (view_of (recovered_copy old (before views) (read group sequence views) timestamp)) ≡ true }
    ensures noted { (old : DiskCopy) (group : List ℕ) (sequence : ℕ) (views : List View) (timestamp : ℕ)
        → CanBeRecovered old (before views) (read group sequence views) timestamp → are_noted views ≡ true
        → HasNotes (view_of (recovered_copy old (before views) (read group sequence views) timestamp)) }
{}

/// The copies that a recovery gives two disks agree.
pub fn recovered_copies_agree()
    ensures { (old other : DiskCopy) (group : List ℕ) (sequence : ℕ) (views : List View) (timestamp : ℕ)
        → CanBeRecovered old (before views) (read group sequence views) timestamp
        → CanBeRecovered other (before views) (read group sequence views) timestamp
        → difference (view_of (recovered_copy old (before views) (read group sequence views) timestamp))
        (view_of (recovered_copy other (before views) (read group sequence views) timestamp)) ≡ None }
{}

/// The copy that a recovery gives a disk agrees with that of each leader, where these agree with one another.
pub fn a_recovered_copy_agrees_with_the_leaders()
    ensures there { (old : DiskCopy) (group : List ℕ) (sequence : ℕ) (leaders : List DiskCopy) (timestamp : ℕ)
        → CanBeRecovered old (before (map view_of leaders)) (read group sequence (map view_of leaders)) timestamp
        → AllByRecursion CanBeCopy leaders → DoAgree (map view_of leaders) → (k : ℕ) (leader : DiskCopy) → slice_get leaders k ≡ Some leader
        → difference (view_of (recovered_copy old (before (map view_of leaders)) (read group sequence (map view_of leaders)) timestamp)) (view_of leader) ≡ None }
    ensures back { (old : DiskCopy) (group : List ℕ) (sequence : ℕ) (leaders : List DiskCopy) (timestamp : ℕ)
        → CanBeRecovered old (before (map view_of leaders)) (read group sequence (map view_of leaders)) timestamp
        → AllByRecursion CanBeCopy leaders → DoAgree (map view_of leaders) → (k : ℕ) (leader : DiskCopy) → slice_get leaders k ≡ Some leader
        → difference (view_of leader) (view_of (recovered_copy old (before (map view_of leaders)) (read group sequence (map view_of leaders)) timestamp)) ≡ None }
{}

/// The table that a change gives a disk that Linux reads tells of each current disk with a position out of sync that it is being filled:
/// bit 3 of its type is set, which keeps Linux from it, and bit 2 of its state. Of a spare for every array, on which only a group from
/// elsewhere has a position, bit 3 tells whether it gives its place back.
pub fn a_changed_copy_tells_linux_which_disks_are_filled()
    ensures kind { (old : DiskCopy) (leaders : Before) (config : Configuration) (timestamp : ℕ) (k : ℕ) (entry : ℕ × Member)
        → CanChange old leaders config timestamp → is_linux old.header.revision ≡ true → slice_get config.members k ≡ Some entry
        → entry.1.missing ≡ false → is_behind (all_wanted config) entry.0 ≡ true → is_global entry.1.spare ≡ false
        → option_map (λ disk. has_bit disk.kind.0 3) (slice_get (view_of (changed_copy old leaders config timestamp)).disks k) ≡ Some true }
    ensures state { (old : DiskCopy) (leaders : Before) (config : Configuration) (timestamp : ℕ) (k : ℕ) (entry : ℕ × Member)
        → CanChange old leaders config timestamp → is_linux old.header.revision ≡ true → slice_get config.members k ≡ Some entry
        → entry.1.missing ≡ false → is_behind (all_wanted config) entry.0 ≡ true
        → option_map (λ disk. has_bit disk.state.0 2) (slice_get (view_of (changed_copy old leaders config timestamp)).disks k) ≡ Some true }
{}
