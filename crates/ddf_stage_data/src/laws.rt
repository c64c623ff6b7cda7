//! Laws of stages: functions that do nothing, whose contracts are the laws.
ghost use Rattle.std.specs.Prelude.{◌≡◌, ℕ, Bool, true, false, List, [], ◌∷◌, length};
ghost use Rattle.ddf_bay.specs.Sectors.{Image, IsLeft};
ghost use Rattle.ddf_array.specs.Apart.{IsApart};
ghost use Rattle.ddf_array.specs.Sound.{AreSectors};
ghost use Rattle.ddf_array.specs.Volume.{Volume, IsVolume};
ghost use Rattle.ddf_array.specs.Within.{is_within};
ghost use Rattle.ddf_data_array.specs.Allowed.{Allowed, once_written, while_written};
ghost use Rattle.ddf_data_array.specs.Fewer.{IsFewer, LeavesParity, LeavesRows};
ghost use Rattle.ddf_data_array.specs.Kept.{IsKeptData};
ghost use Rattle.ddf_data_array.specs.Rows.{HasNoRows};
ghost use Rattle.ddf_stage.specs.declared.desk.Desk.{Desk};
ghost use Rattle.ddf_stage.specs.declared.desk.StageCell.{StageCell};
ghost use Rattle.ddf_stage.specs.declared.desk.Staged.{Staged};
ghost use Rattle.ddf_stage.specs.Desks.{HasDesk, HaveOwnSlots, IsPayload};
ghost use Rattle.ddf_stage.specs.Laid.{names_one};
ghost use Rattle.ddf_stage.specs.Staging.{AreOffDesks, AreSettled, ClosedGates, IsBetween, IsCell, IsThere, OpenGates};
ghost use Rattle.ddf_stage_data.specs.Moments.{AreAlikeCells, AreCellsOf, AreCovered, AreItsDesks, HaveSectors, IsMoment, IsOffDesks, IsRight, IsStage, through, value_of};
ghost use Rattle.ddf_stage_data.specs.Staged.{IsStaged};
ghost use Rattle.ddf_stage_data.specs.Stops.{AreShut, ComesAgain, ComesFrom, IsBeforeGates, IsStagedBehind, MayStageAgain};

use ddf_bay::Bay;

/// An unmarked array keeps what it keeps where the cells of a block and the parity of its rows change at once, whichever positions it lacks within its
/// level: the block has the new bytes, and each other block what it had.
pub fn a_block_written_from_a_stage_keeps_the_data()
    ensures once { (is_absent : ℕ → ℕ → Bool) (volume : Volume) (block : ℕ) (bytes : List ℕ) (before image : Image) (allowed : Allowed) → IsVolume volume → IsApart volume
        → volume.marked ≡ false → is_within volume ≡ true → HasNoRows volume → length bytes ≡ 512 → AreSectors image → IsKeptData is_absent volume before allowed
        → IsStaged volume block bytes before image → IsKeptData is_absent volume image (once_written allowed block (bytes ∷ [])) }
    ensures during { (is_absent : ℕ → ℕ → Bool) (volume : Volume) (block : ℕ) (bytes : List ℕ) (before image : Image) (allowed : Allowed) → IsVolume volume → IsApart volume
        → volume.marked ≡ false → is_within volume ≡ true → HasNoRows volume → length bytes ≡ 512 → AreSectors image → IsKeptData is_absent volume before allowed
        → IsStaged volume block bytes before image → IsKeptData is_absent volume image (while_written allowed block (bytes ∷ [])) }
{}

/// At every moment of a staged write an array keeps what it keeps, with what stands behind the first open gate laid over it, whichever disks are lost
/// then: while gates are being opened, while cells are written, and while gates are being closed. The block has its old bytes or its new ones.
pub fn a_staged_write_keeps_the_data_at_every_moment()
    ensures before { (is_absent : ℕ → ℕ → Bool) (lost : Volume) (desks here : List Desk) (arrays : List (List ℕ)) (staged : Staged) (fewer : Staged → List StageCell) (before image : Image) (allowed : Allowed)
        → IsVolume lost → HasNoRows lost → IsKeptData is_absent lost before allowed → IsStage staged → IsOffDesks lost desks → AreItsDesks lost arrays desks here image
        → AreSectors image → IsBeforeGates arrays desks staged before image → IsKeptData is_absent lost (through here arrays fewer image) allowed }
    ensures since { (is_absent lost_absent : ℕ → ℕ → Bool) (volume lost : Volume) (desks here : List Desk) (arrays : List (List ℕ)) (staged : Staged) (cells : List StageCell) (fewer : Staged → List StageCell) (before image : Image) (allowed : Allowed)
        → IsVolume volume → IsApart volume → volume.marked ≡ false → is_within volume ≡ true → HasNoRows volume → IsKeptData is_absent volume before allowed
        → IsStage staged → names_one arrays staged.gate ≡ true → AreCellsOf volume staged cells → IsRight volume staged before
        → IsVolume lost → HasNoRows lost → IsFewer volume lost → LeavesParity is_absent lost_absent volume lost → LeavesRows volume lost
        → AreAlikeCells lost cells (fewer staged) → HaveSectors cells → HaveSectors (fewer staged) → IsOffDesks lost desks → AreCovered desks cells → AreItsDesks lost arrays desks here image
        → AreSectors image → IsMoment arrays desks staged cells before image
        → IsKeptData lost_absent lost (through here arrays fewer image) (while_written allowed staged.gate.block (value_of staged ∷ [])) }
{}

/// What a stop leaves while a block is staged, or while it is written from its stage, comes from an image that a stop might leave before: as one of
/// the moments of a staged write.
pub fn a_stop_in_a_staged_write_has_an_image_before<B: Bay>(old: &B, behind: &B)
    ensures staging { (arrays : List (List ℕ)) (desks : List Desk) (staged : Staged) (cells : List StageCell) (image : Image) → HaveOwnSlots desks → IsStage staged
        → IsLeft (B.disks old.now).may_hold (B.disks old.now).held → AreShut arrays desks (B.disks old.now).may_hold
        → IsBetween (IsPayload desks staged) (OpenGates desks staged) (B.disks old.now).may_hold image → ComesFrom arrays desks staged cells (B.disks old.now).may_hold image }

    // What is staged may be staged again over desks of which some stand open before it, as where a write was interrupted.
    ensures again { (arrays : List (List ℕ)) (desks : List Desk) (staged : Staged) (cells : List StageCell) (image : Image) → HaveOwnSlots desks → IsStage staged → names_one arrays staged.gate ≡ true
        → IsLeft (B.disks old.now).may_hold (B.disks old.now).held → MayStageAgain arrays desks staged (B.disks old.now).may_hold (B.disks old.now).held
        → IsBetween (IsPayload desks staged) (OpenGates desks staged) (B.disks old.now).may_hold image → ComesAgain arrays desks staged cells (B.disks old.now).may_hold image }
    ensures writing { (arrays : List (List ℕ)) (desks : List Desk) (staged : Staged) (cells : List StageCell) (image : Image) → HaveOwnSlots desks → IsStage staged → AreOffDesks desks cells
        → IsLeft (B.disks old.now).may_hold (B.disks old.now).held → IsStagedBehind desks staged (B.disks old.now).may_hold (B.disks behind.now).may_hold (B.disks behind.now).held
        → IsBetween (IsCell cells staged) (ClosedGates desks staged) (B.disks behind.now).may_hold image → ComesAgain arrays desks staged cells (B.disks old.now).may_hold image }

    // Gates that were closed, and made sure, count for nothing: the next block may be staged.
    ensures closed { (arrays : List (List ℕ)) (desks : List Desk) (staged : Staged) → HaveOwnSlots desks → IsStage staged → IsThere (ClosedGates desks staged) (B.disks old.now).held
        → AreSettled (HasDesk desks) (B.disks old.now).may_hold (B.disks old.now).held → AreShut arrays desks (B.disks old.now).may_hold }
{}
