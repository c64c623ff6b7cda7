//! Laws of what reads give: functions that do nothing, whose contracts are the laws.
ghost use Rattle.std.specs.Prelude.{◌≡◌, ℕ, List, Some, slice_get};
ghost use Rattle.ddf_bytes.specs.Counts.{Rose};
ghost use Rattle.ddf_bay.specs.Sectors.{Image};
ghost use Rattle.ddf_array.specs.Volume.{Volume};
ghost use Rattle.ddf_array.specs.Sources.{Source, sources};
ghost use Rattle.ddf_array.specs.Values.{given, value};
ghost use Rattle.ddf_read.specs.Given.{AreGiven, AreValues};
ghost use Rattle.ddf_read.specs.Reading.{FirstHasSlot, IsGivenBy, IsOn};

/// The bytes of a read are those of a source of the block.
// promise:sources
pub fn a_read_gives_a_source()
    ensures { (old new : ℕ → ℕ) (image : Image) (all : List Source) (bytes : List ℕ)
        → IsGivenBy (λ slot. Rose (old slot) (new slot)) image all bytes
        → (k : ℕ) × ((source : Source) × (slice_get all k ≡ Some source) × (bytes ≡ given image source)) }
{}

/// Where no read failed on a slot of the first source, they are those of that source, and so the block's value. So where
/// no read failed on a slot of the array's available places, each block is read as its value.
// promise:sources
pub fn a_good_read_gives_the_first()
    ensures first { (old new : ℕ → ℕ) (image : Image) (all : List Source) (bytes : List ℕ)
        → (FirstHasSlot (λ slot. Rose (old slot) (new slot)) all → ⊥)
        → IsGivenBy (λ slot. Rose (old slot) (new slot)) image all bytes
        → (source : Source) × (slice_get all 0 ≡ Some source) × (bytes ≡ given image source) }
    ensures value { (old new : ℕ → ℕ) (volume : Volume) (image : Image) (block : ℕ) (bytes : List ℕ)
        → (FirstHasSlot (λ slot. Rose (old slot) (new slot)) (sources volume block) → ⊥)
        → IsGivenBy (λ slot. Rose (old slot) (new slot)) image (sources volume block) bytes
        → value volume image block ≡ Some bytes }
    ensures values { (old new : ℕ → ℕ) (volume : Volume) (image : Image) (start count : ℕ) (sectors : List (List ℕ))
        → ((slot : ℕ) → IsOn volume slot → Rose (old slot) (new slot) → ⊥)
        → AreGiven (λ slot. Rose (old slot) (new slot)) image volume start count sectors
        → AreValues image volume start count sectors }
{}
