//! Laws of groups on disks and of their data: functions that do nothing, whose contracts are the laws.
ghost use Rattle.std.specs.Prelude.{◌≡◌, ◌⊎◌, ◌-◌, ◌<◌, ◌≤◌, ◌^◌, ℕ, List, Ok, Some, false, true};
ghost use Rattle.ddf_bay.specs.Moments.{IsSettled};
ghost use Rattle.ddf_bay.specs.Sectors.{Image, IsLeft};
ghost use Rattle.ddf_config.specs.declared.seat.Seat.{Seat};
ghost use Rattle.ddf_config.specs.Configuration.{Configuration};
ghost use Rattle.ddf_copy.specs.declared.copy.DiskCopy.{DiskCopy};
ghost use Rattle.ddf_copy.specs.declared.which.Which.{Which};
ghost use Rattle.ddf_update.specs.declared.prepared.Mode.{Mode};
ghost use Rattle.ddf_update.specs.declared.prepared.Prepared.{Prepared};
ghost use Rattle.ddf_update.specs.Changes.{IsLeftChangingAll, MayChangeAll, SlotChange};
ghost use Rattle.ddf_update.specs.Prepared.{IsPrepared, writes_anchor};
ghost use Rattle.ddf_update.specs.Update.{IsWritten};
ghost use Rattle.ddf_array.specs.Apart.{AreSeats};
ghost use Rattle.ddf_array.specs.Redundant.{IsRedundant};
ghost use Rattle.ddf_array.specs.Sound.{AreSectors};
ghost use Rattle.ddf_array.specs.Viewing.{view_of};
ghost use Rattle.ddf_array.specs.Volume.{Volume, IsVolume};
ghost use Rattle.ddf_read.specs.Reading.{IsOn};
ghost use Rattle.ddf_cells.specs.Degraded.{is_degraded};
ghost use Rattle.ddf_cells.specs.Writing.{AddsBut, IsLeftBut, StaysBut};
ghost use Rattle.ddf_write.specs.Writing.{AddsWrites, HasWritten, IsAmongWrites, IsLeftByWrite};
ghost use Rattle.ddf_resync.specs.Resyncing.{AddsResynced, IsAmongResynced, IsLeftByResync};
ghost use Rattle.ddf_rebuild.specs.Target.{IsTargetCell};
ghost use Rattle.ddf_data_array.specs.Allowed.{Allowed, once_consistent, once_written, while_written};
ghost use Rattle.ddf_data_array.specs.Changing.{IsWritable};
ghost use Rattle.ddf_data_array.specs.Rows.{GoesOnBehind};
ghost use Rattle.ddf_steps.specs.Committed.{synced};
ghost use Rattle.ddf_seats.specs.Group.{GroupValue, floor_of};
ghost use Rattle.ddf_recovery.specs.Ready.{ReadyValue};
ghost use Rattle.ddf_history.specs.Groups.{groups};
ghost use Rattle.ddf_history.specs.Issued.{Past};
ghost use Rattle.ddf_history.specs.Promise.{IsKept};
ghost use Rattle.ddf_history.specs.Scenes.{scene_of};
ghost use Rattle.ddf_history_steps.specs.AtEnd.{IsAtEnd};
ghost use Rattle.ddf_history_steps.specs.Steps.{StandsReady};
ghost use Rattle.ddf_data_group.specs.Clear.{ChangesItsCells};
ghost use Rattle.ddf_data_group.specs.Grouped.{KeepsArrays, Promises};
ghost use Rattle.ddf_data_history.specs.Carried.{IsAllData};
ghost use Rattle.ddf_data_history.specs.Promised.{IsAlone, KeepsData, seats_in, with_promise};
ghost use Rattle.ddf_data_disks.specs.Blocks.{HaveBlocksWritten};
ghost use Rattle.ddf_data_disks.specs.Seats.{AreAlikeSeats, AreOnSlots, HaveFloors};
ghost use Rattle.ddf_data_disks.specs.Writing.{LieAtFloors};

use ddf_bay::Bay;

/// The seats of a group that stands at the end of its history are those that the history's configuration lists among the slots that aren't
/// lost, where none of their slots is lost, and each has the floor of its slot.
pub fn the_seats_of_a_settled_group_are_those_of_its_history<B: Bay>(bay: &B)
    ensures { (group : List ℕ) (past : Past (groups group)) (floor : ℕ → ℕ) (found : GroupValue) → IsAtEnd group past (B.disks bay.now) found
        → AreOnSlots group past floor found.seats → AreAlikeSeats found.seats (seats_in group past floor found.config) }
{}

/// Each of its seats is a member's, and no slot has the seats of two.
pub fn a_settled_groups_seats_are_members<B: Bay>(bay: &B)
    ensures { (group : List ℕ) (past : Past (groups group)) (found : GroupValue) → IsAtEnd group past (B.disks bay.now) found
        → AreSeats found.config.members found.seats }
{}

/// An array has one view over seats that are alike, or one refusal.
pub fn alike_seats_give_one_view()
    ensures { (config : Configuration) (guid : List ℕ) (one other : List Seat) → AreAlikeSeats one other → view_of config guid one ≡ view_of config guid other }
{}

/// At the end of its history a group's data are kept exactly where its arrays keep theirs over its seats.
pub fn a_settled_group_keeps_what_its_history_does<B: Bay>(bay: &B)
    ensures there { (group : List ℕ) (past : Past (groups group)) (floor : ℕ → ℕ) (found : GroupValue) → IsAtEnd group past (B.disks bay.now) found
        → AreOnSlots group past floor found.seats → (image : Image) (promises : Promises) → KeepsData group past floor image promises
        → KeepsArrays found.config found.seats image promises }
    ensures back { (group : List ℕ) (past : Past (groups group)) (floor : ℕ → ℕ) (found : GroupValue) → IsAtEnd group past (B.disks bay.now) found
        → AreOnSlots group past floor found.seats → (image : Image) (promises : Promises) → KeepsArrays found.config found.seats image promises
        → KeepsData group past floor image promises }
{}

/// What is written of a copy lies at or past the copy's floor, but for the last sector of a disk that is founded, or taken over from another group.
pub fn a_copy_is_written_at_or_past_its_floor()
    ensures { (copy : DiskCopy) (last : Which) (mode : Mode) (update : Prepared) (size l : ℕ) → IsPrepared copy last mode update → IsWritten size update l
        → (floor_of copy ≤ l) ⊎ ((writes_anchor mode ≡ true) × (l ≡ size - 1)) }
{}

/// Whatever a stop leaves while a step is written, or a recovery behind its syncs, keeps the data of the group, where whatever it might have left before
/// did.
pub fn writing_records_keeps_the_data<B: Bay>(bay: &B)
    ensures step { (group : List ℕ) (past : Past (groups group)) (floor : ℕ → ℕ) → ((slot : ℕ) → floor slot < 2 ^ 64) → (promises : Promises)
        → (slots : List ℕ) (seat : ℕ → SlotChange) (updates : List Prepared) (image : Image) → IsLeft (B.disks bay.now).may_hold (B.disks bay.now).held
        → MayChangeAll (B.disks bay.now) slots seat updates → LieAtFloors (B.disks bay.now) floor slots seat updates
        → IsAllData group past floor (B.disks bay.now) promises → AreSectors image
        → IsLeftChangingAll (B.disks bay.now) slots seat updates image → KeepsData group past floor image promises }
    ensures recovery { (group : List ℕ) (past : Past (groups group)) (floor : ℕ → ℕ) → ((slot : ℕ) → floor slot < 2 ^ 64) → (promises : Promises)
        → (seats slots : List ℕ) (seat : ℕ → SlotChange) (updates : List Prepared) (image : Image) → IsLeft (B.disks bay.now).may_hold (B.disks bay.now).held
        → MayChangeAll (synced (B.disks bay.now) seats) slots seat updates → LieAtFloors (synced (B.disks bay.now) seats) floor slots seat updates
        → IsAllData group past floor (B.disks bay.now) promises → AreSectors image
        → IsLeftChangingAll (synced (B.disks bay.now) seats) slots seat updates image → KeepsData group past floor image promises }
{}

/// Whatever a stop leaves while blocks of an array of a settled group are written keeps the data of the group, with the old bytes of these blocks or the
/// new ones; once they are written, with the new ones.
pub fn writing_blocks_keeps_the_data<B: Bay>(bay: &B)
    ensures interrupted { (group : List ℕ) (past : Past (groups group)) (floor : ℕ → ℕ) (found : GroupValue) → ((slot : ℕ) → floor slot < 2 ^ 64)
        → IsAtEnd group past (B.disks bay.now) found → AreOnSlots group past floor found.seats
        → (guid : List ℕ) (volume : Volume) (promises : Promises) (allowed : Allowed) → view_of found.config guid found.seats ≡ Ok volume → IsVolume volume
        → promises guid ≡ Some allowed → IsAllData group past floor (B.disks bay.now) promises
        → IsWritable volume → (start : ℕ) (sectors : List (List ℕ)) (image : Image) → AreSectors image → IsAmongWrites volume start sectors (B.disks bay.now).may_hold image
        → KeepsData group past floor image (with_promise promises guid (Some (while_written allowed start sectors))) }
    ensures done { (group : List ℕ) (past : Past (groups group)) (floor : ℕ → ℕ) (found : GroupValue) → ((slot : ℕ) → floor slot < 2 ^ 64)
        → IsAtEnd group past (B.disks bay.now) found → AreOnSlots group past floor found.seats
        → (guid : List ℕ) (volume : Volume) (promises : Promises) (allowed : Allowed) → view_of found.config guid found.seats ≡ Ok volume → IsVolume volume
        → promises guid ≡ Some allowed → IsAllData group past floor (B.disks bay.now) promises
        → IsWritable volume → (start : ℕ) (sectors : List (List ℕ)) (image : Image) → AreSectors image → IsAmongWrites volume start sectors (B.disks bay.now).may_hold image
        → HasWritten volume start sectors ⊥ image → KeepsData group past floor image (with_promise promises guid (Some (once_written allowed start sectors))) }
{}

/// So does whatever a stop leaves while it is resynced, or rows of it are rebuilt behind those that count.
pub fn setting_cells_keeps_the_data<B: Bay>(bay: &B)
    ensures resync { (group : List ℕ) (past : Past (groups group)) (floor : ℕ → ℕ) (found : GroupValue) → ((slot : ℕ) → floor slot < 2 ^ 64)
        → IsAtEnd group past (B.disks bay.now) found → AreOnSlots group past floor found.seats
        → (guid : List ℕ) (volume : Volume) (promises : Promises) (allowed : Allowed) → view_of found.config guid found.seats ≡ Ok volume → IsVolume volume
        → promises guid ≡ Some allowed → IsAllData group past floor (B.disks bay.now) promises
        → B.tells → IsWritable volume → (image : Image) → AreSectors image → IsAmongResynced volume B.tells (B.disks bay.now).held (B.disks bay.now).may_hold image
        → KeepsData group past floor image (with_promise promises guid (Some allowed)) }
    ensures rebuild { (group : List ℕ) (past : Past (groups group)) (floor : ℕ → ℕ) (found : GroupValue) → ((slot : ℕ) → floor slot < 2 ^ 64)
        → IsAtEnd group past (B.disks bay.now) found → AreOnSlots group past floor found.seats
        → (guid : List ℕ) (volume : Volume) (promises : Promises) (allowed : Allowed) → view_of found.config guid found.seats ≡ Ok volume → IsVolume volume
        → promises guid ≡ Some allowed → IsAllData group past floor (B.disks bay.now) promises
        → (element position from to : ℕ) → GoesOnBehind volume element position from
        → (image : Image) → AreSectors image → IsLeftBut (IsTargetCell volume element position from to) (B.disks bay.now).may_hold image
        → KeepsData group past floor image (with_promise promises guid (Some allowed)) }
{}

/// Once an array was resynced, and nothing is pending on its slots, what its blocks have counts in each image that a stop may leave.
pub fn a_resynced_array_counts<B: Bay>(bay: &B)
    ensures { (group : List ℕ) (past : Past (groups group)) (floor : ℕ → ℕ) (config : Configuration) → ((slot : ℕ) → floor slot < 2 ^ 64) → IsAlone group past config
        → (guid : List ℕ) (volume : Volume) (promises : Promises) (allowed : Allowed) → view_of config guid (seats_in group past floor config) ≡ Ok volume → IsVolume volume
        → promises guid ≡ Some allowed → IsAllData group past floor (B.disks bay.now) promises
        → ((slot : ℕ) → IsOn volume slot → IsSettled (B.disks bay.now).may_hold (B.disks bay.now).held slot)
        → is_degraded volume ≡ false → IsRedundant volume (B.disks bay.now).held → (image : Image) → IsLeft (B.disks bay.now).may_hold image → AreSectors image
        → KeepsData group past floor image (with_promise promises guid (Some (once_consistent volume (B.disks bay.now).held))) }
{}

/// What is done to the blocks of an array of a settled group keeps its history: each slot shows what it showed.
pub fn what_is_done_to_blocks_keeps_the_history<B: Bay>(bay: &B)
    ensures { (group : List ℕ) (past : Past (groups group)) (found : GroupValue) → IsAtEnd group past (B.disks bay.now) found → HaveFloors found
        → (guid : List ℕ) (volume : Volume) → view_of found.config guid found.seats ≡ Ok volume → IsVolume volume
        → (before image : Image) → IsLeft (B.disks bay.now).may_hold before → ChangesItsCells volume before image
        → IsKept past (scene_of (B.disks bay.now).sizes image) }
{}

/// What a write, a resync and a rebuild promise at Ok is that of the bay only sectors of their array are others.
pub fn a_call_on_blocks_writes_its_array_alone<B: Bay>()
    ensures write { (old new : B) (volume : Volume) → IsVolume volume → (B.disks new).sizes ≡ (B.disks old).sizes → IsLeft (B.disks old).may_hold (B.disks old).held
        → ((slot : ℕ) → IsSettled (B.disks old).may_hold (B.disks old).held slot → IsSettled (B.disks new).may_hold (B.disks new).held slot)
        → (start : ℕ) (sectors : List (List ℕ)) → IsLeftByWrite volume start sectors (B.disks old).held (B.disks new).held
        → AddsWrites volume start sectors (B.disks old).may_hold (B.disks new).may_hold → HaveBlocksWritten (B.disks old) (B.disks new) volume }
    ensures resync { (old new : B) (volume : Volume) → IsVolume volume → (B.disks new).sizes ≡ (B.disks old).sizes → IsLeft (B.disks old).may_hold (B.disks old).held
        → ((slot : ℕ) → IsSettled (B.disks old).may_hold (B.disks old).held slot → IsSettled (B.disks new).may_hold (B.disks new).held slot)
        → B.tells → IsLeftByResync volume B.tells (B.disks old).held (B.disks new).held
        → AddsResynced volume B.tells (B.disks old).held (B.disks old).may_hold (B.disks new).may_hold → HaveBlocksWritten (B.disks old) (B.disks new) volume }
    ensures rebuild { (old new : B) (volume : Volume) → IsVolume volume → (B.disks new).sizes ≡ (B.disks old).sizes → IsLeft (B.disks old).may_hold (B.disks old).held
        → ((slot : ℕ) → IsSettled (B.disks old).may_hold (B.disks old).held slot → IsSettled (B.disks new).may_hold (B.disks new).held slot)
        → (element position from to : ℕ) → StaysBut (IsTargetCell volume element position from to) (B.disks old).held (B.disks new).held
        → AddsBut (IsTargetCell volume element position from to) (B.disks old).may_hold (B.disks new).may_hold → HaveBlocksWritten (B.disks old) (B.disks new) volume }
{}

/// A group that stood at the end of its history, with steps that were readied, still does once only sectors of an array are others.
pub fn a_settled_group_stays_where_blocks_are_written<B: Bay>()
    ensures stands { (group : List ℕ) (past : Past (groups group)) (old new : B) (found : GroupValue) → IsAtEnd group past (B.disks old) found → HaveFloors found
        → (guid : List ℕ) (volume : Volume) → view_of found.config guid found.seats ≡ Ok volume → IsVolume volume
        → HaveBlocksWritten (B.disks old) (B.disks new) volume → (B.disks new).tells_left → IsAtEnd group past (B.disks new) found }
    ensures ready { (group : List ℕ) (past : Past (groups group)) (old new : B) (found : GroupValue) (ready : ReadyValue)
        → StandsReady group past (B.disks old) found ready → HaveFloors found
        → (guid : List ℕ) (volume : Volume) → view_of found.config guid found.seats ≡ Ok volume → IsVolume volume
        → HaveBlocksWritten (B.disks old) (B.disks new) volume → (B.disks new).tells_left → StandsReady group past (B.disks new) found ready }
{}
