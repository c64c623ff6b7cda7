//! Laws of what a rebuild keeps: functions that do nothing, whose contracts are the laws.
ghost use Rattle.std.specs.Prelude.{◌≡◌, ℕ, List};
ghost use Rattle.ddf_bay.specs.Sectors.{Image, IsLeft};
ghost use Rattle.ddf_array.specs.Apart.{IsApart};
ghost use Rattle.ddf_array.specs.Redundant.{IsRedundant};
ghost use Rattle.ddf_array.specs.Values.{value};
ghost use Rattle.ddf_array.specs.Volume.{IsVolume, Volume};
ghost use Rattle.ddf_cells.specs.Alike.{AreAlike};
ghost use Rattle.ddf_cells.specs.Writing.{IsLeftBut, StaysBut};
ghost use Rattle.ddf_rebuild.specs.Filling.{HoldsWanted, IsFilled};
ghost use Rattle.ddf_rebuild.specs.Rebuilding.{HasRebuilt};
ghost use Rattle.ddf_rebuild.specs.Target.{IsAside, IsTargetCell};

use ddf_bay::Bay;

/// What a rebuild writes is nothing to the array while the position is out of sync: its available cells, its blocks' values
/// and its redundancy stay.
pub fn a_rebuild_changes_no_value()
    ensures cells { (volume : Volume) (element position from to : ℕ) (before image : Image) → IsApart volume
        → StaysBut (IsTargetCell volume element position from to) before image → AreAlike volume before image }
    ensures values { (volume : Volume) (element position from to block : ℕ) (before image : Image) → IsVolume volume → IsApart volume
        → StaysBut (IsTargetCell volume element position from to) before image → value volume before block ≡ value volume image block }
    ensures redundant { (volume : Volume) (element position from to : ℕ) (before image : Image) → IsVolume volume → IsApart volume
        → StaysBut (IsTargetCell volume element position from to) before image → IsRedundant volume before → IsRedundant volume image }
{}

/// An image that a stop leaves while rows are rebuilt comes from one that a stop might have left before.
pub fn a_stop_in_a_rebuild_has_an_image_before<B: Bay>(bay: &B)
    ensures { (volume : Volume) (element position from to : ℕ) (held image : Image) → IsLeft (B.disks bay.now).may_hold held
        → IsLeftBut (IsTargetCell volume element position from to) (B.disks bay.now).may_hold image
        → (before : Image) × IsLeft (B.disks bay.now).may_hold before × StaysBut (IsTargetCell volume element position from to) before image }
{}

/// Rows that were rebuilt one after another are rebuilt together, and by any image that is the same to the array.
pub fn rebuilt_rows_add_up()
    ensures rows { (volume : Volume) (element position from to last : ℕ) (before image : Image) → HasRebuilt volume element position from to before image
        → HasRebuilt volume element position to last before image → HasRebuilt volume element position from last before image }
    ensures alike { (volume : Volume) (element position from to : ℕ) (before other image : Image) → IsVolume volume → AreAlike volume before other
        → HasRebuilt volume element position from to before image → HasRebuilt volume element position from to other image }
{}

/// What is filled aside is nothing to the array: its available cells, its blocks' values and its redundancy stay; and what
/// an extent should hold by an image it should hold by any image that is the same to the array.
pub fn what_is_filled_aside_is_nothing()
    ensures cells { (sizes : List ℕ) (volume : Volume) (element slot start : ℕ) (before image : Image) → IsAside sizes volume element slot start
        → StaysBut (IsFilled volume element slot start) before image → AreAlike volume before image }
    ensures values { (sizes : List ℕ) (volume : Volume) (element slot start block : ℕ) (before image : Image) → IsVolume volume → IsAside sizes volume element slot start
        → StaysBut (IsFilled volume element slot start) before image → value volume before block ≡ value volume image block }
    ensures redundant { (sizes : List ℕ) (volume : Volume) (element slot start : ℕ) (before image : Image) → IsVolume volume → IsAside sizes volume element slot start
        → StaysBut (IsFilled volume element slot start) before image → IsRedundant volume before → IsRedundant volume image }
    ensures wanted { (volume : Volume) (element position slot start : ℕ) (before other image : Image) → IsVolume volume → AreAlike volume before other
        → HoldsWanted volume element position slot start before image → HoldsWanted volume element position slot start other image }
{}

/// An image that a stop leaves while an extent is filled comes from one that a stop might have left before.
pub fn a_stop_in_a_copyback_has_an_image_before<B: Bay>(bay: &B)
    ensures { (volume : Volume) (element slot start : ℕ) (held image : Image) → IsLeft (B.disks bay.now).may_hold held
        → IsLeftBut (IsFilled volume element slot start) (B.disks bay.now).may_hold image
        → (before : Image) × IsLeft (B.disks bay.now).may_hold before × StaysBut (IsFilled volume element slot start) before image }
{}
