//! Laws of histories of data: functions that do nothing, whose contracts are the laws.
ghost use Rattle.std.specs.Prelude.{◌≡◌, ◌⊎◌, ◌<◌, ◌^◌, ◌∷◌, ℕ, Bool, true, List, Some, Ok, slice_get};
ghost use Rattle.ddf_bytes.specs.Counts.{Rose};
ghost use Rattle.ddf_bay.specs.Sectors.{Image};
ghost use Rattle.ddf_config.specs.declared.seat.Seat.{Seat};
ghost use Rattle.ddf_config.specs.Configuration.{Configuration};
ghost use Rattle.ddf_array.specs.Apart.{AreSeats};
ghost use Rattle.ddf_array.specs.Losing.{AreFewer};
ghost use Rattle.ddf_array.specs.Sound.{AreSectors};
ghost use Rattle.ddf_array.specs.Sources.{sources};
ghost use Rattle.ddf_array.specs.Viewing.{view_of};
ghost use Rattle.ddf_array.specs.Volume.{Volume, IsVolume};
ghost use Rattle.ddf_read.specs.Reading.{IsGivenBy};
ghost use Rattle.ddf_cells.specs.Writing.{StaysBut};
ghost use Rattle.ddf_write.specs.Writing.{HasWritten, IsLeftByWrite};
ghost use Rattle.ddf_resync.specs.Resyncing.{MayResync};
ghost use Rattle.ddf_rebuild.specs.Target.{IsTargetCell};
ghost use Rattle.ddf_data_array.specs.Allowed.{Allowed, May, once_consistent, once_written, while_written};
ghost use Rattle.ddf_data_array.specs.Changing.{IsConsistentNow, IsWritable};
ghost use Rattle.ddf_data_array.specs.Rows.{GoesOnBehind};
ghost use Rattle.ddf_data_group.specs.Grouped.{Promises};
ghost use Rattle.ddf_data_group.specs.Over.{AreCurrentSeats};
ghost use Rattle.ddf_view.specs.View.{View};
ghost use Rattle.ddf_history.specs.Answer.{IsAnswer, IsReadable, HasMember};
ghost use Rattle.ddf_history.specs.Answer.Answer.{Is};
ghost use Rattle.ddf_history.specs.Groups.{groups};
ghost use Rattle.ddf_history.specs.Issued.{Past, with_slots};
ghost use Rattle.ddf_history.specs.Leaders.{seen};
ghost use Rattle.ddf_history.specs.Promise.{IsKept};
ghost use Rattle.ddf_history.specs.Reading.{Scene};
ghost use Rattle.ddf_history.specs.Steps.{IsLast};
ghost use Rattle.ddf_data_history.specs.History.{Moment, IsHistory, Keeps};
ghost use Rattle.ddf_data_history.specs.Promised.{AreAlone, IsAlone, KeepsData, SameBelow, seats_in, with_promise};

/// Each seat that a configuration lists among the slots that aren't lost is a current member's.
pub fn seats_are_those_of_current_members()
    ensures { (group : List ℕ) (floor : ℕ → ℕ) → ((slot : ℕ) → floor slot < 2 ^ 64) → (past : Past (groups group)) (config : Configuration)
        → AreCurrentSeats config.members (seats_in group past floor config) }
{}

/// Each of them is a member's, and no slot has the seats of two.
pub fn seats_have_their_own_slots()
    ensures { (group : List ℕ) (floor : ℕ → ℕ) (past : Past (groups group)) (config : Configuration) → AreSeats config.members (seats_in group past floor config) }
{}

/// The data of a group are kept while records are written, at or past the floors of the slots.
pub fn records_past_the_floors_keep_the_data()
    ensures { (group : List ℕ) (floor : ℕ → ℕ) → ((slot : ℕ) → floor slot < 2 ^ 64) → (past : Past (groups group)) (before image : Image) (promises : Promises)
        → KeepsData group past floor before promises → AreSectors image → SameBelow floor before image → KeepsData group past floor image promises }
{}

/// The data of a group are kept through every loss of slots.
pub fn a_loss_keeps_the_data()
    ensures { (group : List ℕ) (floor : ℕ → ℕ) → ((slot : ℕ) → floor slot < 2 ^ 64) → (past : Past (groups group)) (image : Image) (promises : Promises)
        → KeepsData group past floor image promises → AreAlone group past → (lost returned : ℕ → Bool)
        → ((slot : ℕ) → past.lost slot ≡ true → lost slot ≡ true) → KeepsData group (with_slots past lost returned) floor image promises }
{}

/// Whatever happens to a group, its data are kept at every moment: changes that are issued, acknowledged or taken off, losses and returns of
/// slots, records that are written, and blocks.
pub fn a_group_keeps_its_data_at_every_moment()
    ensures { (group : List ℕ) (floor : ℕ → ℕ) → ((slot : ℕ) → floor slot < 2 ^ 64) → (start : Moment group) (rest : List (Moment group))
        → IsHistory group floor start rest → Keeps group floor start → (k : ℕ) (moment : Moment group) → slice_get (start ∷ rest) k ≡ Some moment
        → Keeps group floor moment }
{}

/// With a current member read, a read of an array, over the configuration that assembly gives and the seats of slots that it reads, gives of each
/// block what is promised of it: the bytes of its last acknowledged write, and of one whose write was interrupted the old or the new ones. So it is
/// whichever reads of blocks fail on the way.
pub fn a_read_returns_what_was_acknowledged()
    ensures { (group : List ℕ) (floor : ℕ → ℕ) → ((slot : ℕ) → floor slot < 2 ^ 64) → (past : Past (groups group)) (scene : Scene View) (readable : ℕ → Bool) (config : Configuration)
        → IsKept past scene → IsReadable past scene readable → HasMember past scene readable
        → IsAnswer (groups group) past.slots (seen readable scene) (Is config)
        → (image : Image) (promises : Promises) → KeepsData group past floor image promises
        → (seats : List Seat) → AreFewer (seats_in group past floor config) seats
        → (guid : List ℕ) (allowed : Allowed) (volume : Volume) → promises guid ≡ Some allowed → view_of config guid seats ≡ Ok volume → IsVolume volume
        → (old new : ℕ → ℕ) (block : ℕ) (bytes : List ℕ) → IsGivenBy (λ slot. Rose (old slot) (new slot)) image (sources volume block) bytes
        → May (allowed block) bytes }
{}

/// Blocks of an array are written by a view of the group's one configuration, or a write of them is interrupted: the data of the whole group
/// are kept.
pub fn a_write_keeps_the_data_of_the_group()
    ensures interrupted { (group : List ℕ) (floor : ℕ → ℕ) → ((slot : ℕ) → floor slot < 2 ^ 64) → (past : Past (groups group)) (config : Configuration) (guid : List ℕ) (volume : Volume)
        → view_of config guid (seats_in group past floor config) ≡ Ok volume → IsVolume volume → (before image : Image) (promises : Promises) (allowed : Allowed)
        → KeepsData group past floor before promises → IsAlone group past config → promises guid ≡ Some allowed → AreSectors image
        → (start : ℕ) (sectors : List (List ℕ)) → IsWritable volume → IsLeftByWrite volume start sectors before image
        → KeepsData group past floor image (with_promise promises guid (Some (while_written allowed start sectors))) }
    ensures done { (group : List ℕ) (floor : ℕ → ℕ) → ((slot : ℕ) → floor slot < 2 ^ 64) → (past : Past (groups group)) (config : Configuration) (guid : List ℕ) (volume : Volume)
        → view_of config guid (seats_in group past floor config) ≡ Ok volume → IsVolume volume → (before image : Image) (promises : Promises) (allowed : Allowed)
        → KeepsData group past floor before promises → IsAlone group past config → promises guid ≡ Some allowed → AreSectors image
        → (start : ℕ) (sectors : List (List ℕ)) → IsWritable volume → IsLeftByWrite volume start sectors before image → HasWritten volume start sectors ⊥ image
        → KeepsData group past floor image (with_promise promises guid (Some (once_written allowed start sectors))) }
{}

/// A resync, and a rebuild that goes on behind the rows that count, keep the data of the whole group while they are under way.
pub fn a_resync_keeps_the_data_of_the_group()
    ensures resync { (group : List ℕ) (floor : ℕ → ℕ) → ((slot : ℕ) → floor slot < 2 ^ 64) → (past : Past (groups group)) (config : Configuration) (guid : List ℕ) (volume : Volume)
        → view_of config guid (seats_in group past floor config) ≡ Ok volume → IsVolume volume → (first before image : Image) (promises : Promises) (allowed : Allowed)
        → KeepsData group past floor first promises → KeepsData group past floor before promises → IsAlone group past config → promises guid ≡ Some allowed → AreSectors image
        → IsWritable volume → ((s l : ℕ) → (image s l ≡ before s l) ⊎ MayResync volume (Unit {0}) first s l (image s l)) → KeepsData group past floor image (with_promise promises guid (Some allowed)) }
    ensures rebuild { (group : List ℕ) (floor : ℕ → ℕ) → ((slot : ℕ) → floor slot < 2 ^ 64) → (past : Past (groups group)) (config : Configuration) (guid : List ℕ) (volume : Volume)
        → view_of config guid (seats_in group past floor config) ≡ Ok volume → IsVolume volume → (before image : Image) (promises : Promises) (allowed : Allowed)
        → KeepsData group past floor before promises → IsAlone group past config → promises guid ≡ Some allowed → AreSectors image
        → (element position from to : ℕ) → GoesOnBehind volume element position from → StaysBut (IsTargetCell volume element position from to) before image
        → KeepsData group past floor image (with_promise promises guid (Some allowed)) }

    // Once the array is consistent, what its blocks have counts.
    ensures counts { (group : List ℕ) (floor : ℕ → ℕ) → ((slot : ℕ) → floor slot < 2 ^ 64) → (past : Past (groups group)) (config : Configuration) (guid : List ℕ) (volume : Volume)
        → view_of config guid (seats_in group past floor config) ≡ Ok volume → IsVolume volume → (image : Image) (promises : Promises) (allowed : Allowed)
        → KeepsData group past floor image promises → IsAlone group past config → promises guid ≡ Some allowed → AreSectors image
        → ((is_absent : ℕ → ℕ → Bool) → IsConsistentNow is_absent volume image)
        → KeepsData group past floor image (with_promise promises guid (Some (once_consistent volume image))) }
{}

/// Where the last change that was issued is the last acknowledged one, it is the one configuration of the group.
pub fn a_group_at_its_end_has_one_configuration()
    ensures { (group : List ℕ) (past : Past (groups group)) (config : Configuration) → IsLast past.changes past.changes.acked config → IsAlone group past config }
{}
