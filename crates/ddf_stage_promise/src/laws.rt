//! Laws of groups with open gates: functions that do nothing, whose contracts are the laws.
ghost use Rattle.std.specs.Prelude.{◌≡◌, ◌⊎◌, ◌<◌, ◌≤◌, ◌^◌, ◌∷◌, [], ℕ, Bool, true, false, List, None, Some, Ok, Err, slice_get};
ghost use Rattle.ddf_bytes.specs.Counts.{Rose};
ghost use Rattle.ddf_bay.specs.Moments.{IsSettled};
ghost use Rattle.ddf_bay.specs.Sectors.{Image, IsLeft};
ghost use Rattle.ddf_config.specs.declared.array.Array.{Array};
ghost use Rattle.ddf_config.specs.declared.member.Member.{Member};
ghost use Rattle.ddf_config.specs.declared.refusal.Refusal.{Refusal};
ghost use Rattle.ddf_config.specs.declared.seat.Seat.{Seat};
ghost use Rattle.ddf_config.specs.Configuration.{Configuration};
ghost use Rattle.ddf_config.specs.Members.{is_current};
ghost use Rattle.ddf_plan.specs.declared.change.Change.TheVariants.{Delete, Fail, Lose};
ghost use Rattle.ddf_plan.specs.Changes.{changed_at};
ghost use Rattle.ddf_array.specs.Losing.{AreFewer};
ghost use Rattle.ddf_array.specs.Sound.{AreSectors};
ghost use Rattle.ddf_array.specs.Sources.{sources};
ghost use Rattle.ddf_array.specs.Viewing.{view_of};
ghost use Rattle.ddf_array.specs.Volume.{Volume, IsVolume};
ghost use Rattle.ddf_read.specs.Reading.{IsGivenBy};
ghost use Rattle.ddf_data_array.specs.Allowed.{Allowed, May, once_written, while_written};
ghost use Rattle.ddf_data_array.specs.Rows.{HasNoRows};
ghost use Rattle.ddf_data_group.specs.Grouped.{Promises};
ghost use Rattle.ddf_data_group.specs.Kept.{KeepsArray};
ghost use Rattle.ddf_data_group.specs.Over.{AreCurrentSeats, IsOver};
ghost use Rattle.ddf_view.specs.View.{View};
ghost use Rattle.ddf_history.specs.Answer.{IsAnswer, IsReadable, HasMember};
ghost use Rattle.ddf_history.specs.Answer.Answer.{Is};
ghost use Rattle.ddf_history.specs.Groups.{groups, has_missing};
ghost use Rattle.ddf_history.specs.Issued.{Past, IsSince, acknowledge, give_back, issue, take_off, with_slots};
ghost use Rattle.ddf_history.specs.Leaders.{seen};
ghost use Rattle.ddf_history.specs.Promise.{IsKept};
ghost use Rattle.ddf_history.specs.Reading.{Scene};
ghost use Rattle.ddf_data_history.specs.Promised.{AreAlone, KeepsData, with_promise};
ghost use Rattle.ddf_data_history.specs.History.{Moment};
ghost use Rattle.ddf_stage.specs.declared.desk.Desk.{Desk};
ghost use Rattle.ddf_stage.specs.declared.desk.Staged.{Staged};
ghost use Rattle.ddf_stage.specs.Desks.{HaveOwnSlots, IsPayload};
ghost use Rattle.ddf_stage.specs.Laid.{first_open, on_desk};
ghost use Rattle.ddf_stage.specs.Staging.{AreOffDesks, ClosedGates, IsBetween, IsCell, IsThere, OpenGates};
ghost use Rattle.ddf_stage_data.specs.Moments.{AreCellsOf, IsMoment, IsStage, is_shut, through, value_of};
ghost use Rattle.ddf_stage_data.specs.Stops.{AreShut, IsStagedBehind};
ghost use Rattle.ddf_stage_promise.specs.Cells.{HasVolumes, cells_in, cells_of};
ghost use Rattle.ddf_stage_promise.specs.Closing.{AreToClose, IsWrittenBehind, LiePastFloors, SameButRecords};
ghost use Rattle.ddf_stage_promise.specs.Deleting.{StaysViewed};
ghost use Rattle.ddf_stage_promise.specs.Footing.{Footing, guids_of};
ghost use Rattle.ddf_stage_promise.specs.History.{IsHistory, Keeps};
ghost use Rattle.ddf_stage_promise.specs.Joining.{AllBrought, AllStay, HaveJoined, IsBrought, IsJoinOf, NoneForPromised, with_counts};
ghost use Rattle.ddf_stage_promise.specs.Rewinding.{set_back};
ghost use Rattle.ddf_stage_promise.specs.Staged.{KeepsStaged, NoneOpen, ShowsOne, arrays_by, arrays_on, desks_on, does_count, laid_over, losing, seats_on};
ghost use Rattle.ddf_stage_promise.specs.Writing.{MayBeStaged};

use ddf_bay::Bay;

/// What a gate names are all available cells of its block, and all available parity cells of its rows.
pub fn a_gate_names_all_cells_of_its_block()
    ensures { (volume : Volume) (staged : Staged) → IsVolume volume → AreCellsOf volume staged (cells_of volume staged.gate) }
{}

/// Where no gate stands open that counts, a group keeps its data with what is staged exactly where it keeps it plain.
pub fn where_no_gate_stands_open_the_data_are_plain()
    ensures plain { (group : List ℕ) (footing : Footing) → ((slot : ℕ) → footing.floor slot < 2 ^ 64) → (past : Past (groups group)) (image : Image) (promises : Promises)
        → KeepsStaged group footing past image promises → NoneOpen group footing past image → KeepsData group past footing.floor image promises }
    ensures staged { (group : List ℕ) (footing : Footing) → ((slot : ℕ) → footing.floor slot < 2 ^ 64) → (past : Past (groups group)) (image : Image) (promises : Promises) → AreAlone group past
        → KeepsData group past footing.floor image promises → NoneOpen group footing past image → KeepsStaged group footing past image promises }
{}

/// The data of a group with what is staged are kept through every loss of slots, and where one returns whose member is missing.
pub fn a_loss_keeps_what_is_staged()
    ensures loss { (group : List ℕ) (footing : Footing) → ((slot : ℕ) → footing.floor slot < 2 ^ 64) → (past : Past (groups group)) (image : Image) (promises : Promises)
        → KeepsStaged group footing past image promises → (lost returned : ℕ → Bool) → ((slot : ℕ) → past.lost slot ≡ true → lost slot ≡ true)
        → KeepsStaged group footing (with_slots past lost returned) image promises }
    ensures back { (group : List ℕ) (footing : Footing) → ((slot : ℕ) → footing.floor slot < 2 ^ 64) → (past : Past (groups group)) (image : Image) (promises : Promises)
        → KeepsStaged group footing past image promises → (slot : ℕ)
        → ((number : ℕ) (config : Configuration) → IsSince past.changes number config → has_missing config (past.disk slot) ≡ true)
        → KeepsStaged group footing (give_back past slot) image promises }
{}

/// The data of a group with what is staged are kept while records are written, at or past the floors of the slots and aside of their desks.
pub fn records_aside_of_desks_keep_what_is_staged()
    ensures keeps { (group : List ℕ) (footing : Footing) → ((slot : ℕ) → footing.floor slot < 2 ^ 64) → (past : Past (groups group)) (before image : Image) (promises : Promises)
        → AreSectors image → SameButRecords footing before image → KeepsStaged group footing past before promises → KeepsStaged group footing past image promises }
    ensures shows { (group : List ℕ) (footing : Footing) → ((slot : ℕ) → footing.floor slot < 2 ^ 64) → (past : Past (groups group)) (before image : Image) (promises : Promises)
        → AreSectors image → SameButRecords footing before image → KeepsStaged group footing past before promises → ShowsOne group footing past before → ShowsOne group footing past image }
{}

/// The data of a group with what is staged are kept where members are counted as lost, with any gates open, if gates counted before; else none may stand
/// open that would count then.
pub fn counting_disks_as_lost_keeps_what_is_staged()
    ensures keeps { (group : List ℕ) (footing : Footing) → ((slot : ℕ) → footing.floor slot < 2 ^ 64) → (past : Past (groups group)) (image : Image) (promises : Promises) → AreSectors image
        → KeepsStaged group footing past image promises → (number : ℕ) (last : Configuration) → IsSince past.changes number last → (references : List ℕ) (sequence : ℕ) → last.sequence < sequence
        → HasVolumes last → HasVolumes (changed_at last (Lose references) sequence)
        → (does_count footing past.changes.own_from number ≡ true) ⊎ ((k : ℕ) (desk : Desk) → slice_get (desks_on group footing past last) k ≡ Some desk → on_desk (guids_of last) image desk ≡ None)
        → KeepsStaged group footing (issue past (changed_at last (Lose references) sequence)) image promises }
    ensures shows { (group : List ℕ) (footing : Footing) → ((slot : ℕ) → footing.floor slot < 2 ^ 64) → (past : Past (groups group)) (image : Image) (promises : Promises) → AreSectors image
        → KeepsStaged group footing past image promises → (number : ℕ) (last : Configuration) → IsSince past.changes number last → (references : List ℕ) (sequence : ℕ) → last.sequence < sequence
        → HasVolumes last → HasVolumes (changed_at last (Lose references) sequence)
        → (does_count footing past.changes.own_from number ≡ true) ⊎ ((k : ℕ) (desk : Desk) → slice_get (desks_on group footing past last) k ≡ Some desk → on_desk (guids_of last) image desk ≡ None)
        → ShowsOne group footing past image → ShowsOne group footing (issue past (changed_at last (Lose references) sequence)) image }
{}

/// The data of a group with what is staged are kept where members and arrays of another one join it, once its own gates are closed: gates of the members
/// that join may stand open for arrays that join, and for no other.
pub fn a_join_keeps_what_is_staged()
    ensures { (group : List ℕ) (footing : Footing) → ((slot : ℕ) → footing.floor slot < 2 ^ 64) → (past : Past (groups group)) (image : Image) (promises : Promises) → AreSectors image
        → KeepsStaged group footing past image promises → NoneOpen group footing past image → (number : ℕ) (last next : Configuration) → IsSince past.changes number last → HasVolumes next
        → AllStay group footing past last next promises → NoneForPromised group footing past next image promises
        → KeepsStaged group footing (issue past next) image promises }
{}

/// At every moment while gates are closed a group keeps its data with what is staged, and all gates that stand open show one thing: what stands behind the
/// first is staged again, on desks of which some stand open, and written to its cells.
pub fn closing_gates_keeps_what_is_staged()
    ensures keeps { (group : List ℕ) (footing : Footing) → ((slot : ℕ) → footing.floor slot < 2 ^ 64) → LiePastFloors footing → (past : Past (groups group)) → AreAlone group past
        → (number : ℕ) (config : Configuration) → IsSince past.changes number config → HasVolumes config
        → (before image : Image) (promises : Promises) → AreSectors image → KeepsStaged group footing past before promises → ShowsOne group footing past before
        → (staged : Staged) → IsStage staged → first_open (arrays_on group footing past number config) before (desks_on group footing past config) ≡ Some staged
        → (volume : Volume) → view_of config staged.gate.array (seats_on group footing past config) ≡ Ok volume
        → (desks : List Desk) → AreToClose (arrays_on group footing past number config) (desks_on group footing past config) desks (cells_of volume staged.gate) before
        → IsMoment (arrays_on group footing past number config) desks staged (cells_of volume staged.gate) before image
        → ((n : ℕ) (other : Configuration) → IsSince past.changes n other → (n ≡ number) × (other ≡ config))
        → KeepsStaged group footing past image promises }
    ensures shows { (group : List ℕ) (footing : Footing) → ((slot : ℕ) → footing.floor slot < 2 ^ 64) → LiePastFloors footing → (past : Past (groups group)) → AreAlone group past
        → (number : ℕ) (config : Configuration) → IsSince past.changes number config → HasVolumes config
        → (before image : Image) (promises : Promises) → AreSectors image → KeepsStaged group footing past before promises → ShowsOne group footing past before
        → (staged : Staged) → IsStage staged → first_open (arrays_on group footing past number config) before (desks_on group footing past config) ≡ Some staged
        → (volume : Volume) → view_of config staged.gate.array (seats_on group footing past config) ≡ Ok volume
        → (desks : List Desk) → AreToClose (arrays_on group footing past number config) (desks_on group footing past config) desks (cells_of volume staged.gate) before
        → IsMoment (arrays_on group footing past number config) desks staged (cells_of volume staged.gate) before image
        → ((n : ℕ) (other : Configuration) → IsSince past.changes n other → (n ≡ number) × (other ≡ config))
        → ShowsOne group footing past image }
{}

/// At every moment while a block of an array is staged, and written from its stage, a group keeps its data with what is staged, whichever disks are lost
/// then: the block has its old bytes or its new ones.
pub fn a_staged_write_keeps_the_data_of_the_group()
    ensures keeps { (group : List ℕ) (footing : Footing) → ((slot : ℕ) → footing.floor slot < 2 ^ 64) → LiePastFloors footing → (past : Past (groups group)) → AreAlone group past
        → (number : ℕ) (config : Configuration) → IsSince past.changes number config → HasVolumes config
        → (before image : Image) (promises : Promises) → AreSectors image → KeepsStaged group footing past before promises → NoneOpen group footing past before
        → (staged : Staged) (allowed : Allowed) → promises staged.gate.array ≡ Some allowed
        → (volume : Volume) → view_of config staged.gate.array (seats_on group footing past config) ≡ Ok volume
        → (desks : List Desk) → MayBeStaged footing (arrays_on group footing past number config) (desks_on group footing past config) desks volume staged before
        → IsMoment (arrays_on group footing past number config) desks staged (cells_of volume staged.gate) before image
        → ((n : ℕ) (other : Configuration) → IsSince past.changes n other → (n ≡ number) × (other ≡ config))
        → KeepsStaged group footing past image (with_promise promises staged.gate.array (Some (while_written allowed staged.gate.block (value_of staged ∷ [])))) }

    // Once all cells are written, and no gate stands open, the block has its new bytes.
    ensures once { (group : List ℕ) (footing : Footing) → ((slot : ℕ) → footing.floor slot < 2 ^ 64) → LiePastFloors footing → (past : Past (groups group)) → AreAlone group past
        → (number : ℕ) (config : Configuration) → IsSince past.changes number config → HasVolumes config
        → (before image : Image) (promises : Promises) → AreSectors image → KeepsStaged group footing past before promises → NoneOpen group footing past before
        → (staged : Staged) (allowed : Allowed) → promises staged.gate.array ≡ Some allowed
        → (volume : Volume) → view_of config staged.gate.array (seats_on group footing past config) ≡ Ok volume
        → (desks : List Desk) → MayBeStaged footing (arrays_on group footing past number config) (desks_on group footing past config) desks volume staged before
        → IsMoment (arrays_on group footing past number config) desks staged (cells_of volume staged.gate) before image
        → IsThere (IsCell (cells_of volume staged.gate) staged) image → NoneOpen group footing past image
        → ((n : ℕ) (other : Configuration) → IsSince past.changes n other → (n ≡ number) × (other ≡ config))
        → KeepsStaged group footing past image (with_promise promises staged.gate.array (Some (once_written allowed staged.gate.block (value_of staged ∷ [])))) }
    ensures shows { (group : List ℕ) (footing : Footing) → ((slot : ℕ) → footing.floor slot < 2 ^ 64) → LiePastFloors footing → (past : Past (groups group)) → AreAlone group past
        → (number : ℕ) (config : Configuration) → IsSince past.changes number config → HasVolumes config
        → (before image : Image) (promises : Promises) → AreSectors image → KeepsStaged group footing past before promises → NoneOpen group footing past before
        → (staged : Staged) (allowed : Allowed) → promises staged.gate.array ≡ Some allowed
        → (volume : Volume) → view_of config staged.gate.array (seats_on group footing past config) ≡ Ok volume
        → (desks : List Desk) → MayBeStaged footing (arrays_on group footing past number config) (desks_on group footing past config) desks volume staged before
        → IsMoment (arrays_on group footing past number config) desks staged (cells_of volume staged.gate) before image
        → ((n : ℕ) (other : Configuration) → IsSince past.changes n other → (n ≡ number) × (other ≡ config))
        → ShowsOne group footing past image }
{}

/// Whatever a stop leaves while gates are closed keeps the data of the group, and shows one thing, where whatever might be left before did, and nothing is
/// pending on the slots of desks: while what stands behind the first gate is staged again, and while it is written from the stage.
pub fn a_stop_while_gates_are_closed_keeps_the_data<B: Bay>(old: &B, behind: &B)
    ensures staging { (group : List ℕ) (footing : Footing) → ((slot : ℕ) → footing.floor slot < 2 ^ 64) → LiePastFloors footing → (past : Past (groups group)) → AreAlone group past
        → (number : ℕ) (config : Configuration) → IsSince past.changes number config → HasVolumes config
        → ((n : ℕ) (other : Configuration) → IsSince past.changes n other → (n ≡ number) × (other ≡ config))
        → (staged : Staged) → IsStage staged → (volume : Volume) → view_of config staged.gate.array (seats_on group footing past config) ≡ Ok volume
        → (desks : List Desk) → HaveOwnSlots desks → (promises : Promises) → IsLeft (B.disks old.now).may_hold (B.disks old.now).held
        → ((k : ℕ) (desk : Desk) → slice_get (desks_on group footing past config) k ≡ Some desk → IsSettled (B.disks old.now).may_hold (B.disks old.now).held desk.slot)
        → ((image : Image) → IsLeft (B.disks old.now).may_hold image → KeepsStaged group footing past image promises)
        → ((image : Image) → IsLeft (B.disks old.now).may_hold image → ShowsOne group footing past image)
        → first_open (arrays_on group footing past number config) (B.disks old.now).held (desks_on group footing past config) ≡ Some staged
        → AreToClose (arrays_on group footing past number config) (desks_on group footing past config) desks (cells_of volume staged.gate) (B.disks old.now).held
        → (image : Image) → AreSectors image
        → IsBetween (IsPayload desks staged) (OpenGates desks staged) (B.disks old.now).may_hold image
        → KeepsStaged group footing past image promises × ShowsOne group footing past image }
    ensures writing { (group : List ℕ) (footing : Footing) → ((slot : ℕ) → footing.floor slot < 2 ^ 64) → LiePastFloors footing → (past : Past (groups group)) → AreAlone group past
        → (number : ℕ) (config : Configuration) → IsSince past.changes number config → HasVolumes config
        → ((n : ℕ) (other : Configuration) → IsSince past.changes n other → (n ≡ number) × (other ≡ config))
        → (staged : Staged) → IsStage staged → (volume : Volume) → view_of config staged.gate.array (seats_on group footing past config) ≡ Ok volume
        → (desks : List Desk) → HaveOwnSlots desks → (promises : Promises) → IsLeft (B.disks old.now).may_hold (B.disks old.now).held
        → ((k : ℕ) (desk : Desk) → slice_get (desks_on group footing past config) k ≡ Some desk → IsSettled (B.disks old.now).may_hold (B.disks old.now).held desk.slot)
        → ((image : Image) → IsLeft (B.disks old.now).may_hold image → KeepsStaged group footing past image promises)
        → ((image : Image) → IsLeft (B.disks old.now).may_hold image → ShowsOne group footing past image)
        → first_open (arrays_on group footing past number config) (B.disks old.now).held (desks_on group footing past config) ≡ Some staged
        → AreToClose (arrays_on group footing past number config) (desks_on group footing past config) desks (cells_of volume staged.gate) (B.disks old.now).held
        → (image : Image) → AreSectors image
        → IsStagedBehind desks staged (B.disks old.now).may_hold (B.disks behind.now).may_hold (B.disks behind.now).held
        → IsBetween (IsCell (cells_of volume staged.gate) staged) (ClosedGates desks staged) (B.disks behind.now).may_hold image
        → KeepsStaged group footing past image promises × ShowsOne group footing past image }

    // The cells lie off the desks.
    ensures off { (group : List ℕ) (footing : Footing) → ((slot : ℕ) → footing.floor slot < 2 ^ 64) → LiePastFloors footing → (past : Past (groups group)) → AreAlone group past
        → (number : ℕ) (config : Configuration) → IsSince past.changes number config → HasVolumes config
        → ((n : ℕ) (other : Configuration) → IsSince past.changes n other → (n ≡ number) × (other ≡ config))
        → (staged : Staged) → IsStage staged → (volume : Volume) → view_of config staged.gate.array (seats_on group footing past config) ≡ Ok volume
        → (desks : List Desk) → HaveOwnSlots desks
        → ((k : ℕ) (desk : Desk) → slice_get desks k ≡ Some desk → (j : ℕ) × (slice_get (desks_on group footing past config) j ≡ Some desk))
        → AreOffDesks desks (cells_of volume staged.gate) }
{}

/// Whatever a stop leaves while a block is staged, or written from its stage, keeps the data of the group, where whatever might be left before did: with
/// the block's old bytes, or its new ones.
pub fn a_stop_in_a_staged_write_keeps_the_data<B: Bay>(old: &B, behind: &B)
    ensures staging { (group : List ℕ) (footing : Footing) → ((slot : ℕ) → footing.floor slot < 2 ^ 64) → LiePastFloors footing → (past : Past (groups group)) → AreAlone group past
        → (number : ℕ) (config : Configuration) → IsSince past.changes number config → HasVolumes config
        → ((n : ℕ) (other : Configuration) → IsSince past.changes n other → (n ≡ number) × (other ≡ config))
        → (staged : Staged) → IsStage staged → (volume : Volume) → view_of config staged.gate.array (seats_on group footing past config) ≡ Ok volume
        → (desks : List Desk) → HaveOwnSlots desks → (promises : Promises) → IsLeft (B.disks old.now).may_hold (B.disks old.now).held
        → ((image : Image) → IsLeft (B.disks old.now).may_hold image → KeepsStaged group footing past image promises)
        → ((image : Image) → IsLeft (B.disks old.now).may_hold image → NoneOpen group footing past image)
        → (allowed : Allowed) → promises staged.gate.array ≡ Some allowed
        → ((before : Image) → IsLeft (B.disks old.now).may_hold before
        → MayBeStaged footing (arrays_on group footing past number config) (desks_on group footing past config) desks volume staged before)
        → (image : Image) → AreSectors image
        → AreShut (arrays_on group footing past number config) desks (B.disks old.now).may_hold
        → IsBetween (IsPayload desks staged) (OpenGates desks staged) (B.disks old.now).may_hold image
        → KeepsStaged group footing past image promises
        ⊎ KeepsStaged group footing past image (with_promise promises staged.gate.array (Some (while_written allowed staged.gate.block (value_of staged ∷ [])))) }
    ensures writing { (group : List ℕ) (footing : Footing) → ((slot : ℕ) → footing.floor slot < 2 ^ 64) → LiePastFloors footing → (past : Past (groups group)) → AreAlone group past
        → (number : ℕ) (config : Configuration) → IsSince past.changes number config → HasVolumes config
        → ((n : ℕ) (other : Configuration) → IsSince past.changes n other → (n ≡ number) × (other ≡ config))
        → (staged : Staged) → IsStage staged → (volume : Volume) → view_of config staged.gate.array (seats_on group footing past config) ≡ Ok volume
        → (desks : List Desk) → HaveOwnSlots desks → (promises : Promises) → IsLeft (B.disks old.now).may_hold (B.disks old.now).held
        → ((image : Image) → IsLeft (B.disks old.now).may_hold image → KeepsStaged group footing past image promises)
        → ((image : Image) → IsLeft (B.disks old.now).may_hold image → NoneOpen group footing past image)
        → (allowed : Allowed) → promises staged.gate.array ≡ Some allowed
        → ((before : Image) → IsLeft (B.disks old.now).may_hold before
        → MayBeStaged footing (arrays_on group footing past number config) (desks_on group footing past config) desks volume staged before)
        → (image : Image) → AreSectors image
        → ((k : ℕ) (desk : Desk) → slice_get desks k ≡ Some desk → (j : ℕ) × (slice_get (desks_on group footing past config) j ≡ Some desk))
        → IsStagedBehind desks staged (B.disks old.now).may_hold (B.disks behind.now).may_hold (B.disks behind.now).held
        → IsBetween (IsCell (cells_of volume staged.gate) staged) (ClosedGates desks staged) (B.disks behind.now).may_hold image
        → KeepsStaged group footing past image (with_promise promises staged.gate.array (Some (while_written allowed staged.gate.block (value_of staged ∷ [])))) }
{}

/// While gates are closed and no cell is written, since the array that they name can't be used, a group keeps its data with what is staged.
pub fn closing_gates_without_cells_keeps_what_is_staged()
    ensures keeps { (group : List ℕ) (footing : Footing) → ((slot : ℕ) → footing.floor slot < 2 ^ 64) → LiePastFloors footing → (past : Past (groups group)) → AreAlone group past
        → (number : ℕ) (config : Configuration) → IsSince past.changes number config
        → ((n : ℕ) (other : Configuration) → IsSince past.changes n other → (n ≡ number) × (other ≡ config))
        → (before image : Image) (promises : Promises) → AreSectors image → KeepsStaged group footing past before promises → ShowsOne group footing past before
        → (staged : Staged) → IsStage staged → first_open (arrays_on group footing past number config) before (desks_on group footing past config) ≡ Some staged
        → (refusal : Refusal) → view_of config staged.gate.array (seats_on group footing past config) ≡ Err refusal
        → (desks : List Desk) → ((k : ℕ) (desk : Desk) → slice_get desks k ≡ Some desk → (j : ℕ) × (slice_get (desks_on group footing past config) j ≡ Some desk))
        → ((s l : ℕ) → (image s l ≡ before s l) ⊎ ClosedGates desks staged s l (image s l))
        → KeepsStaged group footing past image promises }
    ensures shows { (group : List ℕ) (footing : Footing) → ((slot : ℕ) → footing.floor slot < 2 ^ 64) → LiePastFloors footing → (past : Past (groups group)) → AreAlone group past
        → (number : ℕ) (config : Configuration) → IsSince past.changes number config
        → ((n : ℕ) (other : Configuration) → IsSince past.changes n other → (n ≡ number) × (other ≡ config))
        → (before image : Image) (promises : Promises) → AreSectors image → KeepsStaged group footing past before promises → ShowsOne group footing past before
        → (staged : Staged) → IsStage staged → first_open (arrays_on group footing past number config) before (desks_on group footing past config) ≡ Some staged
        → (refusal : Refusal) → view_of config staged.gate.array (seats_on group footing past config) ≡ Err refusal
        → (desks : List Desk) → ((k : ℕ) (desk : Desk) → slice_get desks k ≡ Some desk → (j : ℕ) × (slice_get (desks_on group footing past config) j ≡ Some desk))
        → ((s l : ℕ) → (image s l ≡ before s l) ⊎ ClosedGates desks staged s l (image s l))
        → ShowsOne group footing past image }
{}

/// Where gates count for nothing, whatever is written to desks changes nothing of what a group keeps: gates may be closed before any change is issued.
pub fn gates_that_dont_count_may_be_written()
    ensures { (group : List ℕ) (footing : Footing) → ((slot : ℕ) → footing.floor slot < 2 ^ 64) → (past : Past (groups group)) (before image : Image) (promises : Promises) → AreSectors image
        → KeepsStaged group footing past before promises → ((slot lba : ℕ) → lba < footing.floor slot → image slot lba ≡ before slot lba)
        → ((number : ℕ) (config : Configuration) → IsSince past.changes number config → does_count footing past.changes.own_from number ≡ false)
        → KeepsStaged group footing past image promises }
{}

/// Where each desk of a seat shows what it did, and nothing is another below the floors, a group keeps what it kept: a gate that counts for nothing may be
/// closed, as one that names an array of another group.
pub fn what_desks_show_is_all_that_counts()
    ensures keeps { (group : List ℕ) (footing : Footing) → ((slot : ℕ) → footing.floor slot < 2 ^ 64) → (past : Past (groups group)) (before image : Image) (promises : Promises) → AreSectors image
        → ((slot lba : ℕ) → lba < footing.floor slot → image slot lba ≡ before slot lba) → KeepsStaged group footing past before promises
        → ((number : ℕ) (config : Configuration) → IsSince past.changes number config → (k : ℕ) (desk : Desk) → slice_get (desks_on group footing past config) k ≡ Some desk
        → on_desk (arrays_on group footing past number config) image desk ≡ on_desk (arrays_on group footing past number config) before desk)
        → KeepsStaged group footing past image promises }
    ensures shows { (group : List ℕ) (footing : Footing) → ((slot : ℕ) → footing.floor slot < 2 ^ 64) → (past : Past (groups group)) (before image : Image) (promises : Promises) → AreSectors image
        → ((slot lba : ℕ) → lba < footing.floor slot → image slot lba ≡ before slot lba) → KeepsStaged group footing past before promises
        → ((number : ℕ) (config : Configuration) → IsSince past.changes number config → (k : ℕ) (desk : Desk) → slice_get (desks_on group footing past config) k ≡ Some desk
        → on_desk (arrays_on group footing past number config) image desk ≡ on_desk (arrays_on group footing past number config) before desk)
        → ShowsOne group footing past before → ShowsOne group footing past image }
{}

/// An array that joins a group keeps its data with what is staged, under the joined configuration, as it did in the group that it comes from, whichever
/// slots are lost: gates of its disks may stand open for it, where those of all others are shut, of both groups, for what is joined.
pub fn what_joins_is_laid_over_as_it_was()
    ensures keeps { (group former : List ℕ) (footing : Footing) (counts counted : Bool) (past : Past (groups group)) (theirs : Past (groups former)) (config joining next : Configuration) (image : Image)
        → IsJoinOf config joining next → AllBrought joining next → HaveJoined group former footing counts counted past theirs joining next image
        → (promises : Promises) → KeepsStaged former (with_counts counts footing) theirs image promises → (m n : ℕ) → IsSince theirs.changes m joining
        → does_count (with_counts counts footing) theirs.changes.own_from m ≡ counted → does_count footing past.changes.own_from n ≡ true
        → (lost : ℕ → Bool) → ((slot : ℕ) → past.lost slot ≡ true → lost slot ≡ true) → (guid : List ℕ) (allowed : Allowed) (one after : Array) → promises guid ≡ Some allowed
        → IsBrought joining next guid one after
        → KeepsArray next.members (seats_on group footing (losing group footing past lost) next) after (laid_over group footing (losing group footing past lost) n next image) allowed }

    // And all gates that stand open then show one thing.
    ensures shows { (group former : List ℕ) (footing : Footing) (counts counted : Bool) (past : Past (groups group)) (theirs : Past (groups former)) (config joining next : Configuration) (image : Image)
        → IsJoinOf config joining next → AllBrought joining next → HaveJoined group former footing counts counted past theirs joining next image
        → NoneOpen group footing past image → (m : ℕ) → IsSince theirs.changes m joining → does_count (with_counts counts footing) theirs.changes.own_from m ≡ counted
        → ShowsOne former (with_counts counts footing) theirs image → ShowsOne group footing (issue past next) image }
{}

/// Whatever happens to a group whose gates may stand open, its data are kept at every moment with what is staged, whichever disks are lost then, and all
/// gates that stand open show one thing.
pub fn a_group_keeps_its_data_with_what_is_staged_at_every_moment()
    ensures { (group : List ℕ) (footing : Footing) → ((slot : ℕ) → footing.floor slot < 2 ^ 64) → LiePastFloors footing → (start : Moment group) (rest : List (Moment group))
        → IsHistory group footing start rest → Keeps group footing start → (k : ℕ) (moment : Moment group) → slice_get (start ∷ rest) k ≡ Some moment
        → Keeps group footing moment }
{}

/// With a current member read, a read of an array with what is staged laid over the disks, by the first open gate of the seats that are there, gives of each
/// block what is promised of it: with no recovery before it, whichever slots can't be read, and whichever reads of blocks fail on the way.
pub fn a_read_over_what_is_staged_returns_what_was_acknowledged()
    ensures { (group : List ℕ) (footing : Footing) → ((slot : ℕ) → footing.floor slot < 2 ^ 64) → (past : Past (groups group)) (scene : Scene View) (readable : ℕ → Bool) (config : Configuration)
        → IsKept past scene → IsReadable past scene readable → HasMember past scene readable
        → IsAnswer (groups group) past.slots (seen readable scene) (Is config)
        → (image : Image) (promises : Promises) → KeepsStaged group footing past image promises
        → (lost : ℕ → Bool) → ((slot : ℕ) → past.lost slot ≡ true → lost slot ≡ true)
        → (counts : Bool) → ((number : ℕ) → IsSince past.changes number config → does_count footing past.changes.own_from number ≡ counts)
        → (seats : List Seat) → AreFewer (seats_on group footing (losing group footing past lost) config) seats
        → (guid : List ℕ) (allowed : Allowed) (volume : Volume) → promises guid ≡ Some allowed → view_of config guid seats ≡ Ok volume → IsVolume volume
        → (old new : ℕ → ℕ) (block : ℕ) (bytes : List ℕ)
        → IsGivenBy (λ slot. Rose (old slot) (new slot))
        (through (desks_on group footing (losing group footing past lost) config) (arrays_by counts config) (cells_in config (seats_on group footing (losing group footing past lost) config)) image)
        (sources volume block) bytes
        → May (allowed block) bytes }
{}

/// Once the gates of all desks that were used for a closing count for nothing, none stands open in the group: all goes on as in a group without a stage.
pub fn closed_gates_leave_none_open()
    ensures { (group : List ℕ) (footing : Footing) → ((slot : ℕ) → footing.floor slot < 2 ^ 64) → LiePastFloors footing → (past : Past (groups group))
        → (number : ℕ) (config : Configuration) → HasVolumes config
        → ((n : ℕ) (other : Configuration) → IsSince past.changes n other → (n ≡ number) × (other ≡ config))
        → (before image : Image) (staged : Staged) (volume : Volume) → view_of config staged.gate.array (seats_on group footing past config) ≡ Ok volume
        → (desks : List Desk) → AreToClose (arrays_on group footing past number config) (desks_on group footing past config) desks (cells_of volume staged.gate) before
        → IsMoment (arrays_on group footing past number config) desks staged (cells_of volume staged.gate) before image
        → ((k : ℕ) (desk : Desk) → slice_get desks k ≡ Some desk → is_shut (arrays_on group footing past number config) (image desk.slot desk.lba) ≡ true)
        → NoneOpen group footing past image }
{}

/// Whatever a stop leaves once a block was written from its stage and the gates were closed, no gate stands open in the group, and its data are kept: behind
/// a closing what is promised stays as it is, and behind a staged write the block has its new bytes.
pub fn a_stop_behind_a_staged_write_leaves_no_gate_open<B: Bay>(old: &B, behind: &B, done: &B)
    ensures closing { (group : List ℕ) (footing : Footing) → ((slot : ℕ) → footing.floor slot < 2 ^ 64) → LiePastFloors footing → (past : Past (groups group)) → AreAlone group past
        → (number : ℕ) (config : Configuration) → IsSince past.changes number config → HasVolumes config
        → ((n : ℕ) (other : Configuration) → IsSince past.changes n other → (n ≡ number) × (other ≡ config))
        → (staged : Staged) → IsStage staged → (volume : Volume) → view_of config staged.gate.array (seats_on group footing past config) ≡ Ok volume
        → (desks : List Desk) → HaveOwnSlots desks → (promises : Promises) → IsLeft (B.disks old.now).may_hold (B.disks old.now).held
        → IsStagedBehind desks staged (B.disks old.now).may_hold (B.disks behind.now).may_hold (B.disks behind.now).held
        → IsWrittenBehind desks (cells_of volume staged.gate) staged (B.disks behind.now).may_hold (B.disks done.now).may_hold (B.disks done.now).held
        → (image : Image) → AreSectors image → IsLeft (B.disks done.now).may_hold image
        → ((k : ℕ) (desk : Desk) → slice_get (desks_on group footing past config) k ≡ Some desk → IsSettled (B.disks old.now).may_hold (B.disks old.now).held desk.slot)
        → ((before : Image) → IsLeft (B.disks old.now).may_hold before → KeepsStaged group footing past before promises)
        → ((before : Image) → IsLeft (B.disks old.now).may_hold before → ShowsOne group footing past before)
        → first_open (arrays_on group footing past number config) (B.disks old.now).held (desks_on group footing past config) ≡ Some staged
        → AreToClose (arrays_on group footing past number config) (desks_on group footing past config) desks (cells_of volume staged.gate) (B.disks old.now).held
        → KeepsStaged group footing past image promises × ShowsOne group footing past image × NoneOpen group footing past image }
    ensures writing { (group : List ℕ) (footing : Footing) → ((slot : ℕ) → footing.floor slot < 2 ^ 64) → LiePastFloors footing → (past : Past (groups group)) → AreAlone group past
        → (number : ℕ) (config : Configuration) → IsSince past.changes number config → HasVolumes config
        → ((n : ℕ) (other : Configuration) → IsSince past.changes n other → (n ≡ number) × (other ≡ config))
        → (staged : Staged) → IsStage staged → (volume : Volume) → view_of config staged.gate.array (seats_on group footing past config) ≡ Ok volume
        → (desks : List Desk) → HaveOwnSlots desks → (promises : Promises) → IsLeft (B.disks old.now).may_hold (B.disks old.now).held
        → IsStagedBehind desks staged (B.disks old.now).may_hold (B.disks behind.now).may_hold (B.disks behind.now).held
        → IsWrittenBehind desks (cells_of volume staged.gate) staged (B.disks behind.now).may_hold (B.disks done.now).may_hold (B.disks done.now).held
        → (image : Image) → AreSectors image → IsLeft (B.disks done.now).may_hold image
        → ((before : Image) → IsLeft (B.disks old.now).may_hold before → KeepsStaged group footing past before promises)
        → ((before : Image) → IsLeft (B.disks old.now).may_hold before → NoneOpen group footing past before)
        → (allowed : Allowed) → promises staged.gate.array ≡ Some allowed
        → ((before : Image) → IsLeft (B.disks old.now).may_hold before
        → MayBeStaged footing (arrays_on group footing past number config) (desks_on group footing past config) desks volume staged before)
        → ((k : ℕ) (desk : Desk) → slice_get desks k ≡ Some desk → (j : ℕ) × (slice_get (desks_on group footing past config) j ≡ Some desk))
        → KeepsStaged group footing past image (with_promise promises staged.gate.array (Some (once_written allowed staged.gate.block (value_of staged ∷ []))))
        × NoneOpen group footing past image }
{}

/// An array whose rebuild rows are set back keeps its data: what a staged write does before its first block.
pub fn an_array_set_back_keeps_its_data()
    ensures keeps { (members after_members : List (ℕ × Member)) (seats fewer : List Seat) (array : Array) (image : Image) (allowed : Allowed)
        → ((reference : ℕ) → is_current after_members reference ≡ is_current members reference) → AreCurrentSeats members seats → AreFewer seats fewer
        → KeepsArray members seats array image allowed → KeepsArray after_members fewer (set_back array) image allowed }

    // And none are left.
    ensures none { (array : Array) (seats : List Seat) (volume : Volume) → IsOver seats (set_back array) volume → HasNoRows volume }
{}

/// A disk that is counted as failed is one that is counted as lost: the gates may be closed behind it.
pub fn a_failed_disk_is_one_counted_as_lost()
    ensures { (config : Configuration) (failed sequence : ℕ) → changed_at config (Fail failed) sequence ≡ changed_at config (Lose (failed ∷ [])) sequence }
{}

/// The data of a group with what is staged are kept where an array is deleted, with any gates open that count and show one thing: of the array that is
/// gone, or of another one, whose view stays.
pub fn deleting_an_array_keeps_what_is_staged()
    ensures keeps { (group : List ℕ) (footing : Footing) → ((slot : ℕ) → footing.floor slot < 2 ^ 64) → (past : Past (groups group)) (image : Image) (promises : Promises) → AreSectors image
        → KeepsStaged group footing past image promises → ShowsOne group footing past image → (number : ℕ) (last : Configuration) → IsSince past.changes number last
        → (gone : List ℕ) (sequence : ℕ) → last.sequence < sequence → HasVolumes last → does_count footing past.changes.own_from number ≡ true
        → StaysViewed gone last (changed_at last (Delete gone) sequence) (desks_on group footing past last) image
        → KeepsStaged group footing (issue past (changed_at last (Delete gone) sequence)) image promises }
    ensures shows { (group : List ℕ) (footing : Footing) → ((slot : ℕ) → footing.floor slot < 2 ^ 64) → (past : Past (groups group)) (image : Image) (promises : Promises) → AreSectors image
        → KeepsStaged group footing past image promises → ShowsOne group footing past image → (number : ℕ) (last : Configuration) → IsSince past.changes number last
        → (gone : List ℕ) (sequence : ℕ) → last.sequence < sequence → HasVolumes last → does_count footing past.changes.own_from number ≡ true
        → StaysViewed gone last (changed_at last (Delete gone) sequence) (desks_on group footing past last) image
        → ShowsOne group footing (issue past (changed_at last (Delete gone) sequence)) image }
{}

/// Where no gate stands open that counts, none does behind what leaves the gates as they are: records and blocks that are written, losses of slots, changes
/// that are acknowledged or taken off, and a change that is issued whose arrays no gate names.
pub fn no_gate_opens_by_other_calls()
    ensures same { (group : List ℕ) (footing : Footing) (past : Past (groups group)) (before image : Image) → ((slot lba : ℕ) → footing.gate slot ≡ Some lba → image slot lba ≡ before slot lba)
        → NoneOpen group footing past before → NoneOpen group footing past image }
    ensures lost { (group : List ℕ) (footing : Footing) (past : Past (groups group)) (image : Image) → NoneOpen group footing past image → (lost returned : ℕ → Bool)
        → ((slot : ℕ) → past.lost slot ≡ true → lost slot ≡ true) → NoneOpen group footing (with_slots past lost returned) image }
    ensures acked { (group : List ℕ) (footing : Footing) (past : Past (groups group)) (image : Image) → NoneOpen group footing past image → (number : ℕ) → past.changes.acked ≤ number
        → NoneOpen group footing (acknowledge past number) image }
    ensures taken { (group : List ℕ) (footing : Footing) (past : Past (groups group)) (image : Image) → NoneOpen group footing past image → (number : ℕ) → NoneOpen group footing (take_off past number) image }
    ensures issued { (group : List ℕ) (footing : Footing) (past : Past (groups group)) (image : Image) → NoneOpen group footing past image → (next : Configuration)
        → ((k : ℕ) (desk : Desk) → slice_get (desks_on group footing past next) k ≡ Some desk → on_desk (guids_of next) image desk ≡ None)
        → NoneOpen group footing (issue past next) image }
{}
