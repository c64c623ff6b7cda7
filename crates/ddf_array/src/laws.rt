//! Laws of what views say of blocks: functions that do nothing, whose contracts are the laws.
ghost use Rattle.std.specs.Prelude.{◌≡◌, ◌<◌, ◌/◌, is_some, ℕ, List, Bool, Some, Ok, true, false, slice_get};
ghost use Rattle.ddf_bay.specs.Sectors.{Image};
ghost use Rattle.ddf_config.specs.declared.seat.Seat.{Seat};
ghost use Rattle.ddf_config.specs.declared.array.Array.{Array};
ghost use Rattle.ddf_config.specs.Configuration.{Configuration};
ghost use Rattle.ddf_config.specs.Members.{same_guid};
ghost use Rattle.ddf_config.specs.Seats.{SeatsFit};
ghost use Rattle.ddf_config.specs.Shapes.{array_capacity};
ghost use Rattle.std.specs.Map.{lookup};
ghost use Rattle.ddf_parity.specs.Xor.{zeros};
ghost use Rattle.ddf_primary.specs.Cells.{depth_of, parity_member};
ghost use Rattle.ddf_array.specs.declared.part.Part.{Part};
ghost use Rattle.ddf_array.specs.declared.place.Place.{Place};
ghost use Rattle.ddf_array.specs.declared.site.Site.{Site};
ghost use Rattle.ddf_array.specs.Apart.{AreSeats, IsApart};
ghost use Rattle.ddf_array.specs.Places.{site_at};
ghost use Rattle.ddf_array.specs.Volume.{Volume, IsVolume, Fits, capacity};
ghost use Rattle.ddf_array.specs.Within.{is_within, is_redundant};
ghost use Rattle.ddf_array.specs.Redundant.{IsRedundant, IsConsistent, whole_row};
ghost use Rattle.ddf_array.specs.Rows.{row_sum};
ghost use Rattle.ddf_array.specs.Sound.{IsSound, AreSectors};
ghost use Rattle.ddf_array.specs.State.{values};
ghost use Rattle.ddf_array.specs.Losing.{IsLoss, AreFewer};
ghost use Rattle.ddf_array.specs.Sources.{Source, row_without, sources};
ghost use Rattle.ddf_array.specs.Values.{bytes_at, value, given, sum_at};
ghost use Rattle.ddf_array.specs.Viewing.{view_of, is_array_within, is_array_redundant};

/// Each block of an array within its level has a value: a source is left of it.
pub fn an_array_within_its_level_has_values()
    ensures { (volume : Volume) (image : Image) (block : ℕ) → IsVolume volume → is_within volume ≡ true
        → block < capacity volume → is_some (value volume image block) ≡ true }
{}

/// In a redundant array each source of a block gives the block's value.
pub fn a_source_gives_the_value()
    ensures { (volume : Volume) (image : Image) (block k : ℕ) (source : Source) → IsRedundant volume image
        → slice_get (sources volume block) k ≡ Some source → value volume image block ≡ Some (given image source) }
{}

/// An array is redundant where its copies are equal, its whole rows sum to zero, and rows of mirrored elements give the
/// values of blocks; and only there.
pub fn consistent_is_redundant()
    ensures redundant { (volume : Volume) (image : Image) → IsVolume volume → AreSectors image
        → IsConsistent volume image → IsRedundant volume image }
    ensures consistent { (volume : Volume) (image : Image) → IsRedundant volume image → IsConsistent volume image }
{}

/// Where a row sums to zero, each cell of it is the sum of the others.
pub fn a_cell_is_the_sum_of_the_others()
    ensures { (image : Image) (part : Part) (position sector : ℕ) (own : Site) (others all : List Site) → AreSectors image
        → whole_row part sector ≡ Some all → sum_at image all ≡ zeros → site_at part.places position sector ≡ Some own
        → row_without part.places position sector ≡ Some others → bytes_at image own ≡ sum_at image others }
{}

/// In a redundant array the parity of a row that is all available is the row's sum: the exclusive-or of the values of its
/// data cells.
pub fn parity_is_the_sum_of_its_row()
    ensures { (volume : Volume) (image : Image) (element sector position : ℕ) (part : Part) (all : List Site) (site : Site)
        → IsVolume volume → AreSectors image → IsRedundant volume image → slice_get volume.parts element ≡ Some part
        → parity_member part.shape (sector / part.shape.strip) ≡ Some position → sector < depth_of part.shape
        → whole_row part sector ≡ Some all → site_at part.places position sector ≡ Some site
        → bytes_at image site ≡ row_sum volume image element part sector }
{}

/// A loss of disks changes no value of a sound array that isn't marked and is still within its level, as it then was
/// before.
// promise:values
pub fn a_loss_changes_no_value()
    ensures value { (is_absent : ℕ → ℕ → Bool) (before after : Volume) (image : Image) (block : ℕ) → IsVolume after
        → IsLoss before after → IsSound is_absent before image → before.marked ≡ false → is_within after ≡ true
        → block < capacity after → value after image block ≡ value before image block }
    ensures state { (is_absent : ℕ → ℕ → Bool) (before after : Volume) (image : Image) → IsVolume after
        → IsLoss before after → IsSound is_absent before image → before.marked ≡ false → is_within after ≡ true
        → values after image ≡ values before image }
    ensures within { (before after : Volume) → IsLoss before after → is_within after ≡ true → is_within before ≡ true }
{}

/// A view fits where its seats do: each of its extents lies on its slot.
pub fn a_view_fits()
    ensures { (config : Configuration) (guid : List ℕ) (seats : List Seat) (volume : Volume) (sizes : List ℕ)
        → view_of config guid seats ≡ Ok volume → SeatsFit sizes seats → Fits sizes volume }
{}

/// Each place of a view whose disk is there is on the slot of a seat.
pub fn a_place_is_on_a_seat()
    ensures { (config : Configuration) (guid : List ℕ) (seats : List Seat) (volume : Volume) (element position slot : ℕ) (part : Part) (place : Place)
        → view_of config guid seats ≡ Ok volume → slice_get volume.parts element ≡ Some part
        → slice_get part.places position ≡ Some place → place.slot ≡ Some slot
        → (k : ℕ) × ((seat : Seat) × (slice_get seats k ≡ Some seat) × (seat.slot ≡ slot)) }
{}

/// No two extents of a view share a sector, where each seat is a member's and no slot has the seats of two.
pub fn a_view_is_apart()
    ensures { (config : Configuration) (guid : List ℕ) (seats : List Seat) (volume : Volume)
        → view_of config guid seats ≡ Ok volume → AreSeats config.members seats → IsApart volume }
{}

/// Over fewer seats an array has lost disks.
pub fn fewer_seats_are_a_loss()
    ensures { (config : Configuration) (guid : List ℕ) (seats fewer : List Seat) (before after : Volume)
        → view_of config guid seats ≡ Ok before → view_of config guid fewer ≡ Ok after → AreFewer seats fewer
        → IsLoss before after }
{}

/// A view has the capacity of its array, is within its level where the array is by its seats, and redundant where the
/// array is.
pub fn a_view_tells_of_its_array()
    ensures capacity { (config : Configuration) (guid : List ℕ) (seats : List Seat) (volume : Volume) (array : Array)
        → view_of config guid seats ≡ Ok volume → lookup (same_guid guid) config.arrays ≡ Some array
        → capacity volume ≡ array_capacity array }
    ensures within { (config : Configuration) (guid : List ℕ) (seats : List Seat) (volume : Volume) (array : Array)
        → view_of config guid seats ≡ Ok volume → lookup (same_guid guid) config.arrays ≡ Some array
        → is_within volume ≡ is_array_within seats array }
    ensures redundant { (config : Configuration) (guid : List ℕ) (seats : List Seat) (volume : Volume) (array : Array)
        → view_of config guid seats ≡ Ok volume → lookup (same_guid guid) config.arrays ≡ Some array
        → is_redundant volume ≡ is_array_redundant array }
{}
