//! The walk over the rows of an array.
ghost use Rattle.std.specs.Prelude.{◌≡◌, ◌+◌, ◌-◌, ◌%◌, ◌<◌, ◌≤◌, ◌^◌, ℕ, Some, true, false, length, slice_get, IfOk, IfErr};
ghost use Rattle.ddf_primary.specs.Cells.{depth_of};
ghost use Rattle.ddf_array.specs.declared.part.Part.{Part};
ghost use Rattle.ddf_array.specs.Sound.{AreSectors};
ghost use Rattle.ddf_array.specs.Volume.{Fits, IsPart, IsVolume};
ghost use Rattle.ddf_array.specs.Within.{is_within};
ghost use Rattle.ddf_read.specs.Reading.{OnlyReads};
ghost use Rattle.ddf_resync.specs.Agreeing.{Agrees, AllOrNot, PositionAgrees};
ghost use Rattle.ddf_resync.specs.Compared.{FailedOn};
ghost use Rattle.ddf_resync.specs.Scrubbing.{AgreesOrNot, IsElementScrubbed, IsScrubFault, IsScrubbed};

use crate::copies::copies_agree;
use crate::outcome::Scrub;
use crate::rows::rows_agree;
use crate::sums::sums_agree;
use ddf_array::{Part, View};
use ddf_bay::Bay;
use ddf_cells::{SECTORS, depth_of};
use ddf_read::VolumeFault;

/// Whether neighbouring cells of a position agree with the others of their blocks. After a failure, the slot that failed.
fn position_agrees<B: Bay>(
    bay: &mut B,
    view: &View,
    element: usize,
    part: &Part,
    position: usize,
    sector: u64,
    count: usize,
) -> Result<bool, usize>
    requires known { IsVolume view.now }
    requires fits { Fits (B.disks bay.old).sizes view.now }
    requires part { slice_get view.now.parts element ≡ Some part.now }
    requires few { count ≤ 32 }
    requires small { sector + count < 2 ^ 64 }
    requires sectors { sector + count ≤ part.now.shape.blocks }
    ensures agree { B.tells → IfOk result (λ agree. AllOrNot agree count (λ k. PositionAgrees view.now (B.disks bay.old).held element part.now position (sector + k))) }
    ensures failed { IfErr result (FailedOn view.now (B.disks bay.old) (B.disks bay.new)) }
    ensures reads { OnlyReads (B.disks bay.old) (B.disks bay.new) }
{
    let copies = copies_agree(bay, view, element, part, position, sector, count)?;
    if !copies {
        return Ok(false);
    }
    let rows = rows_agree(bay, view, element, part, position, sector, count)?;
    Ok(rows)
}

/// Whether neighbouring sectors of an element agree. After a failure, the slot that failed.
fn piece_agrees<B: Bay>(
    bay: &mut B,
    view: &View,
    element: usize,
    part: &Part,
    sector: u64,
    count: usize,
) -> Result<bool, usize>
    requires known { IsVolume view.now }
    requires fits { Fits (B.disks bay.old).sizes view.now }
    requires part { slice_get view.now.parts element ≡ Some part.now }
    requires some { 0 < count }
    requires few { count ≤ 32 }
    requires small { sector + count < 2 ^ 64 }
    requires sectors { sector + count ≤ depth_of part.now.shape }
    ensures agree { B.tells → IfOk result (λ agree. AllOrNot agree count (λ k. Agrees view.now (B.disks bay.old).held element part.now (sector + k))) }
    ensures failed { IfErr result (FailedOn view.now (B.disks bay.old) (B.disks bay.new)) }
    ensures reads { OnlyReads (B.disks bay.old) (B.disks bay.new) }
{
    let sums = sums_agree(bay, view, element, part, sector, count)?;
    if !sums {
        return Ok(false);
    }
    for position in 0..part.places.items().len() {
        let agree = position_agrees(bay, view, element, part, position, sector, count)?;
        if !agree {
            return Ok(false);
        }
    }
    Ok(true)
}

/// How many of so many sectors from one on are taken together: those of one data row.
fn piece_at(height: u64, sector: u64, left: u64) -> usize
    requires height { 0 < height }
    requires some { 0 < left }
    ensures some { 0 < result }
    ensures few { result ≤ 32 }
    ensures within { result ≤ left }
    ensures row { sector % height + result ≤ height }
{
    let most = left.min(SECTORS as u64).min(height - sector % height);
    most as usize
}

/// The first row of an element that doesn't agree, if there is one. After a failure, the slot that failed.
fn scrub_element<B: Bay>(
    bay: &mut B,
    view: &View,
    element: usize,
    part: &Part,
) -> Result<Option<u64>, usize>
    requires known { IsVolume view.now }
    requires fits { Fits (B.disks bay.old).sizes view.now }
    requires part { slice_get view.now.parts element ≡ Some part.now }
    ensures found { B.tells → IfOk result (IsElementScrubbed view.now (B.disks bay.old).held element part.now) }
    ensures failed { IfErr result (FailedOn view.now (B.disks bay.old) (B.disks bay.new)) }
    ensures reads { OnlyReads (B.disks bay.old) (B.disks bay.new) }
{
    let depth = depth_of(part);
    let height = part.shape.height();
    let mut sector = 0;
    while sector < depth {
        let count = piece_at(height, sector, depth - sector);
        let agree = piece_agrees(bay, view, element, part, sector, count)?;
        if !agree {
            return Ok(Some(sector / height));
        }
        sector += count as u64;
    }
    Ok(None)
}

/// The first row of the array that doesn't agree, if there is one. After a failure, the slot that failed.
fn scrub_all<B: Bay>(bay: &mut B, view: &View) -> Result<Scrub, usize>
    requires known { IsVolume view.now }
    requires fits { Fits (B.disks bay.old).sizes view.now }
    ensures found { B.tells → AreSectors (B.disks bay.old).held → IfOk result (IsScrubbed view.now (B.disks bay.old).held) }
    ensures agrees { B.tells → IfOk result (AgreesOrNot view.now (B.disks bay.old).held) }
    ensures failed { IfErr result (FailedOn view.now (B.disks bay.old) (B.disks bay.new)) }
    ensures reads { OnlyReads (B.disks bay.old) (B.disks bay.new) }
{
    for element in 0..view.parts().len() {
        let part = &view.parts()[element];
        let found = scrub_element(bay, view, element, part)?;
        if let Some(row) = found {
            return Ok(Scrub::Differs {
                element: element as u8,
                row,
            });
        }
    }
    Ok(Scrub::Clean)
}

/// Whether the copies and parity of an array agree: all available cells of a block are equal, each row of a parity element
/// whose positions are all available sums to zero, and where the elements are mirrored, what a row gives of a cell that isn't
/// available is the block's value. Else the least row in which they don't, by element and row (profile). Only reads are made.
///
/// # Errors
/// `Lost` where the array isn't within its level. `Disk` where a read failed in this call on a slot that has a sector of
/// those that are compared: of a source of a block that has another one, of a row that is all available, or of a row of
/// a mirrored array that gives a cell which isn't available.
pub fn scrub<B: Bay>(bay: &mut B, view: &View) -> Result<Scrub, VolumeFault>
    requires { Fits (B.disks bay.old).sizes view.now }
    // promise:scrubbed
    ensures found { B.tells → AreSectors (B.disks bay.old).held → IfOk result (IsScrubbed view.now (B.disks bay.old).held) }
    ensures agrees { B.tells → IfOk result (AgreesOrNot view.now (B.disks bay.old).held) }
    ensures ok { IfOk result (λ scrub. is_within view.now ≡ true) }
    ensures fault { IfErr result (IsScrubFault (B.disks bay.old) (B.disks bay.new) view.now) }
    ensures reads { OnlyReads (B.disks bay.old) (B.disks bay.new) }
{
    prove_known(view);
    if !view.within() {
        return Err(VolumeFault::Lost);
    }
    match scrub_all(bay, view) {
        Ok(scrub) => Ok(scrub),
        Err(slot) => Err(VolumeFault::Disk(slot)),
    }
}

/// Every view keeps what its elements make.
fn prove_known(view: &View)
    ensures { IsVolume view.now }
{
    let _parts = view.parts();
}
