//! Whether the copies of blocks are equal.
ghost use Rattle.std.specs.Prelude.{◌≡◌, ◌≢◌, ◌+◌, ◌<◌, ◌≤◌, ◌^◌, ℕ, Some, None, [], true, false, length, slice_get, slice_index, slice_index_or, IfOk, IfErr, OnOk, MatchOption};
ghost use Rattle.ddf_array.specs.declared.part.Part.{Part};
ghost use Rattle.ddf_array.specs.Places.{site_at, site_on};
ghost use Rattle.ddf_array.specs.Values.{bytes_at};
ghost use Rattle.ddf_array.specs.Volume.{Fits, IsVolume, capacity};
ghost use Rattle.ddf_read.specs.Along.{further};
ghost use Rattle.ddf_read.specs.Reading.{Failed, OnlyReads};
ghost use Rattle.ddf_resync.specs.Agreeing.{AllOrNot, CopyAgrees, IsStep};
ghost use Rattle.ddf_resync.specs.Compared.{FailedOn};
ghost use Rattle.ddf_resync.specs.Runs.{NamesEither};

use crate::several::is_site;
use crate::sums::is_same;
use ddf_array::{Part, Site, View};
use ddf_bay::Bay;
use ddf_bytes::Sector;
use ddf_cells::{SECTORS, block_at, blocks_along};
use ddf_read::read_from;

/// Whether sectors are equal, each to the one beside it.
fn are_same(one: &[Sector], other: &[Sector]) -> bool
    requires { length one.now ≡ length other.now }
    ensures { AllOrNot result (length one.now) (λ k. slice_index_or one.now k [] ≡ slice_index_or other.now k []) }
{
    for at in 0..one.len() {
        if !is_same(&one[at], &other[at]) {
            return false;
        }
    }
    true
}

/// Whether so many neighbouring sectors at one place hold what those at another do. After a failure, the slot that failed.
fn runs_agree<B: Bay>(bay: &mut B, own: Site, first: Site, count: usize) -> Result<bool, usize>
    requires own_slot { own.slot < length (B.disks bay.old).sizes }
    requires own_sectors { own.lba + count ≤ slice_index (B.disks bay.old).sizes own.slot }
    requires first_slot { first.slot < length (B.disks bay.old).sizes }
    requires first_sectors { first.lba + count ≤ slice_index (B.disks bay.old).sizes first.slot }
    requires some { 0 < count }
    requires few { count ≤ 32 }
    ensures agree { B.tells → IfOk result (λ agree. AllOrNot agree count (λ k. bytes_at (B.disks bay.old).held (further k own) ≡ bytes_at (B.disks bay.old).held (further k first))) }
    ensures named { IfErr result (NamesEither own first) }
    ensures failed { IfErr result (Failed (B.disks bay.old) (B.disks bay.new)) }
    ensures reads { OnlyReads (B.disks bay.old) (B.disks bay.new) }
{
    let mut one = [[0; 512]; SECTORS];
    let mut other = [[0; 512]; SECTORS];
    let one = &mut one[..count];
    let other = &mut other[..count];
    read_from(bay, own, one)?;
    read_from(bay, first, other)?;
    Ok(are_same(one, other))
}

/// Whether the first of neighbouring cells hold what the first copies of their blocks do, and how many these are. After a
/// failure, the slot that failed.
fn some_agree<B: Bay>(
    bay: &mut B,
    view: &View,
    element: usize,
    part: &Part,
    position: usize,
    sector: u64,
    most: usize,
) -> Result<(bool, usize), usize>
    requires known { IsVolume view.now }
    requires fits { Fits (B.disks bay.old).sizes view.now }
    requires part { slice_get view.now.parts element ≡ Some part.now }
    requires some { 0 < most }
    requires few { most ≤ 32 }
    requires small { sector + most < 2 ^ 64 }
    requires sectors { sector + most ≤ part.now.shape.blocks }
    ensures some { IfOk result (λ step. 0 < step.1) }
    ensures within { IfOk result (λ step. step.1 ≤ most) }
    ensures agree { B.tells → IfOk result (λ step. IsStep step.0 step.1 most (λ k. CopyAgrees view.now (B.disks bay.old).held element part.now position (sector + k))) }
    ensures failed { IfErr result (FailedOn view.now (B.disks bay.old) (B.disks bay.new)) }
    ensures reads { OnlyReads (B.disks bay.old) (B.disks bay.new) }
{
    let Some(block) = block_at(view, element, position, sector) else {
        return Ok((true, 1));
    };
    let count = blocks_along(view, block, most);
    let Some(own) = part.site_at(position, sector) else {
        return Ok((true, count));
    };
    let Some(first) = view.first_copy(block) else {
        return Ok((true, 1));
    };
    if is_site(own, first) {
        return Ok((true, count));
    }
    let agree = runs_agree(bay, own, first, count)?;
    Ok((agree, count))
}

/// Whether neighbouring cells of a position hold what the first copies of their blocks do. After a failure, the slot that
/// failed.
pub(crate) fn copies_agree<B: Bay>(
    bay: &mut B,
    view: &View,
    element: usize,
    part: &Part,
    position: usize,
    sector: u64,
    count: usize,
) -> Result<bool, usize>
    requires known { IsVolume view.now }
    requires fits { Fits (B.disks bay.old).sizes view.now }
    requires part { slice_get view.now.parts element ≡ Some part.now }
    requires few { count ≤ 32 }
    requires small { sector + count < 2 ^ 64 }
    requires sectors { sector + count ≤ part.now.shape.blocks }
    ensures agree { B.tells → IfOk result (λ agree. AllOrNot agree count (λ k. CopyAgrees view.now (B.disks bay.old).held element part.now position (sector + k))) }
    ensures failed { IfErr result (FailedOn view.now (B.disks bay.old) (B.disks bay.new)) }
    ensures reads { OnlyReads (B.disks bay.old) (B.disks bay.new) }
{
    let mut at = 0;
    while at < count {
        let step = some_agree(
            bay,
            view,
            element,
            part,
            position,
            sector + at as u64,
            count - at,
        )?;
        if !step.0 {
            return Ok(false);
        }
        at += step.1;
    }
    Ok(true)
}
