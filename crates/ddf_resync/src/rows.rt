//! Whether rows of mirrored elements give the values of blocks.
ghost use Rattle.std.specs.Prelude.{◌≡◌, ◌≢◌, ◌+◌, ◌<◌, ◌≤◌, ◌^◌, ℕ, List, Some, None, true, false, length, slice_get, OnOk, IfOk, IfErr};
ghost use Rattle.ddf_array.specs.declared.part.Part.{Part};
ghost use Rattle.ddf_array.specs.Levels.{keeps_parity};
ghost use Rattle.ddf_array.specs.declared.site.Site.{Site};
ghost use Rattle.ddf_array.specs.Sources.{first_copy, row_without, rows};
ghost use Rattle.ddf_array.specs.Values.{sum_at, value};
ghost use Rattle.ddf_array.specs.Volume.{Fits, IsVolume, capacity};
ghost use Rattle.ddf_array.specs.Within.{is_mirrored};
ghost use Rattle.ddf_read.specs.Reading.{Failed, HasSite, OnlyReads};
ghost use Rattle.ddf_read.specs.Sums.{other_sites};
ghost use Rattle.ddf_resync.specs.Agreeing.{AllOrNot, Decides, IsValue, RowAgrees};
ghost use Rattle.ddf_resync.specs.Compared.{FailedOn};

use crate::sums::is_same;
use ddf_array::{Part, Site, View};
use ddf_bay::Bay;
use ddf_bytes::Sector;
use ddf_cells::block_at;
use ddf_read::{first_missing, keeps_parity, sum_rows};
use std::slice;

/// Reads the sum of the other cells of a row. After a failure, the slot that failed.
fn read_sum<B: Bay>(
    bay: &mut B,
    view: &View,
    element: usize,
    part: &Part,
    position: usize,
    sector: u64,
    into: &mut Sector,
) -> Result<(), usize>
    requires known { IsVolume view.now }
    requires fits { Fits (B.disks bay.old).sizes view.now }
    requires part { slice_get view.now.parts element ≡ Some part.now }
    requires sector { sector < part.now.shape.blocks }
    ensures sum { B.tells → OnOk result ((sites : List Site) → row_without part.now.places position sector ≡ Some sites → into.new ≡ sum_at (B.disks bay.old).held sites) }
    ensures named { IfErr result (λ slot. HasSite (λ other. other ≡ slot) (other_sites part.now.places sector position)) }
    ensures failed { IfErr result (Failed (B.disks bay.old) (B.disks bay.new)) }
    ensures reads { OnlyReads (B.disks bay.old) (B.disks bay.new) }
{
    let mut work = [[0; 512]; 1];
    match sum_rows(
        bay,
        part,
        position,
        sector,
        &mut work,
        slice::from_mut(into),
    ) {
        Ok(()) => Ok(()),
        Err(slot) => Err(slot),
    }
}

/// Reads a sector that a block's first copy is. After a failure, the slot that failed.
fn read_first<B: Bay>(
    bay: &mut B,
    view: &View,
    block: u64,
    site: Site,
    into: &mut Sector,
) -> Result<(), usize>
    requires known { IsVolume view.now }
    requires fits { Fits (B.disks bay.old).sizes view.now }
    requires first { first_copy view.now block ≡ Some site }
    ensures value { B.tells → OnOk result (value view.now (B.disks bay.old).held block ≡ Some into.new) }
    ensures named { IfErr result (λ slot. slot ≡ site.slot) }
    ensures failed { IfErr result (Failed (B.disks bay.old) (B.disks bay.new)) }
    ensures reads { OnlyReads (B.disks bay.old) (B.disks bay.new) }
{
    match bay.read(site.slot, site.lba, into) {
        Ok(()) => Ok(()),
        Err(_) => Err(site.slot),
    }
}

/// Reads what a block's first source gives, where it has a row. After a failure, the slot that failed.
fn read_value<B: Bay>(
    bay: &mut B,
    view: &View,
    block: u64,
    into: &mut Sector,
) -> Result<bool, usize>
    requires known { IsVolume view.now }
    requires fits { Fits (B.disks bay.old).sizes view.now }
    requires block { block < capacity view.now }
    requires mirrored { is_mirrored view.now ≡ true }
    requires row { (number : ℕ) × ((sites : List Site) × (slice_get (rows view.now block) number ≡ Some sites)) }
    ensures value { B.tells → IfOk result (λ found. IsValue found (value view.now (B.disks bay.old).held block) into.new) }
    ensures failed { IfErr result (FailedOn view.now (B.disks bay.old) (B.disks bay.new)) }
    ensures reads { OnlyReads (B.disks bay.old) (B.disks bay.new) }
{
    if let Some(site) = view.first_copy(block) {
        read_first(bay, view, block, site, into)?;
        return Ok(true);
    }
    let Some(missing) = first_missing(view, block) else {
        return Ok(false);
    };
    let Some(part) = view.part(missing.element) else {
        return Ok(false);
    };
    read_sum(
        bay,
        view,
        missing.element,
        part,
        missing.position,
        missing.sector,
        into,
    )?;
    Ok(true)
}

/// Whether the row of a cell that isn't available gives the value of the block that it holds. After a failure, the slot
/// that failed.
fn row_agrees<B: Bay>(
    bay: &mut B,
    view: &View,
    element: usize,
    part: &Part,
    position: usize,
    sector: u64,
) -> Result<bool, usize>
    requires known { IsVolume view.now }
    requires fits { Fits (B.disks bay.old).sizes view.now }
    requires part { slice_get view.now.parts element ≡ Some part.now }
    requires mirrored { is_mirrored view.now ≡ true }
    requires parity { keeps_parity part.now.shape.layout ≡ true }
    requires sector { sector < part.now.shape.blocks }
    ensures agree { B.tells → IfOk result (λ agree. Decides agree (RowAgrees view.now (B.disks bay.old).held element part.now position sector)) }
    ensures failed { IfErr result (FailedOn view.now (B.disks bay.old) (B.disks bay.new)) }
    ensures reads { OnlyReads (B.disks bay.old) (B.disks bay.new) }
{
    let Some(block) = block_at(view, element, position, sector) else {
        return Ok(true);
    };
    if part.site_at(position, sector).is_some() {
        return Ok(true);
    }
    if !part.has_row(position, sector) {
        return Ok(true);
    }
    let mut row = [0; 512];
    read_sum(bay, view, element, part, position, sector, &mut row)?;
    let mut value = [0; 512];
    let found = read_value(bay, view, block, &mut value)?;
    if !found {
        return Ok(false);
    }
    Ok(is_same(&row, &value))
}

/// Whether the rows of neighbouring cells of a position give the values of their blocks, where the elements are mirrored.
/// After a failure, the slot that failed.
pub(crate) fn rows_agree<B: Bay>(
    bay: &mut B,
    view: &View,
    element: usize,
    part: &Part,
    position: usize,
    sector: u64,
    count: usize,
) -> Result<bool, usize>
    requires known { IsVolume view.now }
    requires fits { Fits (B.disks bay.old).sizes view.now }
    requires part { slice_get view.now.parts element ≡ Some part.now }
    requires small { sector + count < 2 ^ 64 }
    requires sectors { sector + count ≤ part.now.shape.blocks }
    ensures agree { B.tells → IfOk result (λ agree. AllOrNot agree count (λ k. RowAgrees view.now (B.disks bay.old).held element part.now position (sector + k))) }
    ensures failed { IfErr result (FailedOn view.now (B.disks bay.old) (B.disks bay.new)) }
    ensures reads { OnlyReads (B.disks bay.old) (B.disks bay.new) }
{
    if !view.is_mirrored() {
        return Ok(true);
    }
    if !keeps_parity(part.shape.layout()) {
        return Ok(true);
    }
    for at in 0..count {
        let agree = row_agrees(bay, view, element, part, position, sector + at as u64)?;
        if !agree {
            return Ok(false);
        }
    }
    Ok(true)
}
