//! Whether rows sum to zero.
ghost use Rattle.std.specs.Prelude.{◌≡◌, ◌+◌, ◌<◌, ◌≤◌, ℕ, Some, [], true, false, length, slice_get, slice_index_or, IfOk, IfErr};
ghost use Rattle.std.specs.List.{list_all};
ghost use Rattle.ddf_parity.specs.Xor.{zeros};
ghost use Rattle.ddf_primary.specs.Cells.{depth_of};
ghost use Rattle.ddf_array.specs.declared.part.Part.{Part};
ghost use Rattle.ddf_array.specs.Places.{is_available};
ghost use Rattle.ddf_array.specs.Volume.{Fits, IsPart, IsVolume, PartFits};
ghost use Rattle.ddf_read.specs.Reading.{OnlyReads};
ghost use Rattle.ddf_resync.specs.Agreeing.{AllOrNot, SumAgrees};
ghost use Rattle.ddf_resync.specs.Compared.{FailedOn};

use ddf_array::{Part, View};
use ddf_bay::Bay;
use ddf_bytes::Sector;
use ddf_cells::{SECTORS, all_available};
use ddf_read::{blank, keeps_parity, sum_rows};

/// Whether two sectors are equal.
pub(crate) fn is_same(one: &Sector, other: &Sector) -> bool
    ensures yes { result ≡ true → one.now ≡ other.now }
    ensures no { result ≡ false → one.now ≡ other.now → ⊥ }
{
    one == other
}

/// Whether all of these sectors are zeros.
fn are_zeros(sectors: &[Sector]) -> bool
    ensures { AllOrNot result (length sectors.now) (λ k. slice_index_or sectors.now k [] ≡ zeros) }
{
    for at in 0..sectors.len() {
        if !is_same(&sectors[at], &blank()) {
            return false;
        }
    }
    true
}

/// Whether neighbouring rows of an element sum to zero, where it keeps parity and all its positions are available. Elsewhere
/// nothing is read. After a failure, the slot that failed.
pub(crate) fn sums_agree<B: Bay>(
    bay: &mut B,
    view: &View,
    element: usize,
    part: &Part,
    sector: u64,
    count: usize,
) -> Result<bool, usize>
    requires known { IsVolume view.now }
    requires fits { Fits (B.disks bay.old).sizes view.now }
    requires part { slice_get view.now.parts element ≡ Some part.now }
    requires some { 0 < count }
    requires few { count ≤ 32 }
    requires sectors { sector + count ≤ depth_of part.now.shape }
    ensures agree { B.tells → IfOk result (λ agree. AllOrNot agree count (λ k. SumAgrees (B.disks bay.old).held part.now (sector + k))) }
    ensures failed { IfErr result (FailedOn view.now (B.disks bay.old) (B.disks bay.new)) }
    ensures reads { OnlyReads (B.disks bay.old) (B.disks bay.new) }
{
    let places = part.places.items();
    if !keeps_parity(part.shape.layout()) {
        return Ok(true);
    }
    if !all_available(places) {
        return Ok(true);
    }
    let mut work = [[0; 512]; SECTORS];
    let mut sums = [[0; 512]; SECTORS];
    let work = &mut work[..count];
    let out = &mut sums[..count];
    sum_rows(bay, part, places.len(), sector, work, out)?;
    Ok(are_zeros(out))
}
