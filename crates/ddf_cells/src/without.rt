//! Reads of neighbouring cells that hold no block of the array.
ghost use Rattle.std.specs.Prelude.{◌≡◌, ◌+◌, ◌<◌, ◌≤◌, ◌^◌, ◌&&◌, ℕ, Some, None, is_some, length, OnOk, IfOk, IfErr, slice_get};
ghost use Rattle.ddf_array.specs.declared.part.Part.{Part};
ghost use Rattle.ddf_array.specs.Rows.{block_at};
ghost use Rattle.ddf_array.specs.Volume.{Fits, IsPart, PartFits};
ghost use Rattle.ddf_read.specs.Reading.{OnlyReads, Failed, NoneLeft, Tried};
ghost use Rattle.ddf_cells.specs.CellSources.{AreCellsAt, IsSure, NoneLeftAmong};
ghost use Rattle.ddf_cells.specs.Without.{AreGivenWithout, IsGivenWithout, NoneLeftWithout, own_sources};

use crate::inverse::block_at;
use ddf_array::{Part, Site, View};
use ddf_bay::Bay;
use ddf_bytes::Sector;
use ddf_read::{blank, keeps_parity, read_row, try_site};

/// How many of so many neighbouring cells hold no block, where the first holds none.
pub fn empty_from(view: &View, element: usize, position: usize, sector: u64, most: usize) -> usize
    requires some { 0 < most }
    requires small { sector + most < 2 ^ 64 }
    requires first { block_at view.now element position sector ≡ None }
    ensures some { 0 < result }
    ensures within { result ≤ most }
    ensures empty { (k : ℕ) → k < result → block_at view.now element position (sector + k) ≡ None }
{
    for ahead in 1..most {
        if block_at(view, element, position, sector + ahead as u64).is_some() {
            return ahead;
        }
    }
    most
}

/// Whether a cell that lies there has no other source than itself: in an array that is marked.
fn is_alone(marked: bool, site: Option<Site>) -> bool
    ensures { result ≡ (marked && is_some site) }
{
    marked && site.is_some()
}

/// Reads a cell itself, or else what the others of its row give where the element keeps parity; an available cell of an array
/// that is marked is read itself or not at all. After a failure, a slot of the first of these of which a read failed, if
/// there are any.
fn try_without<B: Bay>(
    bay: &mut B,
    part: &Part,
    marked: bool,
    position: usize,
    sector: u64,
    into: &mut Sector,
) -> Result<(), Option<usize>>
    requires part { IsPart part.now }
    requires fits { PartFits (B.disks bay.old).sizes part.now }
    requires sector { sector < part.now.shape.blocks }
    ensures tried { Tried B.tells (Failed (B.disks bay.old) (B.disks bay.new)) (B.disks bay.old).held (own_sources marked part.now position sector) result into.new }
    ensures reads { OnlyReads (B.disks bay.old) (B.disks bay.new) }
{
    let site = part.site_at(position, sector);
    let failed = match try_site(bay, site, into) {
        Ok(()) => return Ok(()),
        Err(failed) => failed,
    };
    if is_alone(marked, site) {
        return Err(failed);
    }
    if !keeps_parity(part.shape.layout()) {
        return Err(failed);
    }
    match read_row(bay, part, position, sector, into) {
        Ok(()) => Ok(()),
        Err(next) => Err(failed.or(next)),
    }
}

/// Reads a cell that holds no block: zeros where nothing gives it.
fn read_one<B: Bay>(
    bay: &mut B,
    part: &Part,
    marked: bool,
    position: usize,
    sector: u64,
    into: &mut Sector,
) -> Result<(), usize>
    requires part { IsPart part.now }
    requires fits { PartFits (B.disks bay.old).sizes part.now }
    requires sector { sector < part.now.shape.blocks }
    ensures given { B.tells → OnOk result (IsGivenWithout (Failed (B.disks bay.old) (B.disks bay.new)) (B.disks bay.old).held (own_sources marked part.now position sector) into.new) }
    ensures left { IfErr result (NoneLeft (Failed (B.disks bay.old) (B.disks bay.new)) (own_sources marked part.now position sector)) }
    ensures reads { OnlyReads (B.disks bay.old) (B.disks bay.new) }
{
    match try_without(bay, part, marked, position, sector, into) {
        Ok(()) => Ok(()),
        Err(Some(slot)) => Err(slot),
        Err(None) => {
            *into = blank();
            Ok(())
        }
    }
}

/// Reads neighbouring cells that hold no block, one by one.
fn read_each<B: Bay>(
    bay: &mut B,
    part: &Part,
    marked: bool,
    position: usize,
    sector: u64,
    out: &mut [Sector],
) -> Result<(), usize>
    requires part { IsPart part.now }
    requires fits { PartFits (B.disks bay.old).sizes part.now }
    requires small { sector + length out.old < 2 ^ 64 }
    requires sectors { sector + length out.old ≤ part.now.shape.blocks }
    ensures given { B.tells → OnOk result (AreGivenWithout (Failed (B.disks bay.old) (B.disks bay.new)) (B.disks bay.old).held marked part.now position sector out.new (length out.old)) }
    ensures left { IfErr result (NoneLeftWithout (Failed (B.disks bay.old) (B.disks bay.new)) marked part.now position sector (length out.old)) }
    ensures reads { OnlyReads (B.disks bay.old) (B.disks bay.new) }
{
    for at in 0..out.len() {
        read_one(
            bay,
            part,
            marked,
            position,
            sector + at as u64,
            &mut out[at],
        )?;
    }
    Ok(())
}

/// Reads the first of neighbouring cells that hold no block. Answers how many these are. After a failure, the slot at
/// which no source of one is left.
pub(crate) fn read_empty<B: Bay>(
    bay: &mut B,
    view: &View,
    element: usize,
    position: usize,
    sector: u64,
    out: &mut [Sector],
) -> Result<usize, usize>
    requires fits { Fits (B.disks bay.old).sizes view.now }
    requires some { 0 < length out.old }
    requires small { sector + length out.old < 2 ^ 64 }
    requires there { element < length view.now.parts }
    requires sectors { (part : Part) → slice_get view.now.parts element ≡ Some part → sector + length out.old ≤ part.shape.blocks }
    requires first { block_at view.now element position sector ≡ None }
    ensures some { IfOk result (λ count. 0 < count) }
    ensures within { IfOk result (λ count. count ≤ length out.old) }
    ensures empty { IfOk result (λ count. (k : ℕ) → k < count → block_at view.now element position (sector + k) ≡ None) }
    ensures given { B.tells → IfOk result (λ count. (part : Part) → slice_get view.now.parts element ≡ Some part
        → AreGivenWithout (Failed (B.disks bay.old) (B.disks bay.new)) (B.disks bay.old).held view.now.marked part position sector out.new count) }
    ensures left { IfErr result (λ slot. (part : Part) → slice_get view.now.parts element ≡ Some part
        → NoneLeftAmong (Failed (B.disks bay.old) (B.disks bay.new)) view.now element part sector (length out.old) position slot) }
    ensures reads { OnlyReads (B.disks bay.old) (B.disks bay.new) }
{
    let part = &view.parts()[element];
    let count = empty_from(view, element, position, sector, out.len());
    read_each(
        bay,
        part,
        view.is_marked(),
        position,
        sector,
        &mut out[..count],
    )?;
    Ok(count)
}
