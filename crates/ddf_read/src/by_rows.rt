//! Reads of blocks that have no copy, by their rows. Only in an array that isn't marked: parity of one that is may give bytes that nobody wrote.
//! docs/STOPS.md#the-blocks-of-arrays
ghost use Rattle.std.specs.Prelude.{◌≡◌, ◌+◌, ◌<◌, ◌≤◌, ◌^◌, None, length, slice_get, OnOk, IfOk, IfErr};
ghost use Rattle.ddf_array.specs.Sources.{first_copy, rows};
ghost use Rattle.ddf_array.specs.Volume.{Fits, IsVolume, capacity};
ghost use Rattle.ddf_read.specs.Along.{LieAlong};
ghost use Rattle.ddf_read.specs.Given.{AreGiven, HaveSources, NoneLeftIn};
ghost use Rattle.ddf_read.specs.Reading.{OnlyReads, Failed};
ghost use Rattle.ddf_read.specs.Missing.{IsMissingAt};

use crate::missing::{MissingCell, first_missing};
use crate::parity::sum_rows;
use crate::run::read_each;
use crate::strip::left_in_strip;
use ddf_array::View;
use ddf_bay::Bay;
use ddf_bytes::Sector;

/// How many rows are read at a time: so many sectors of each position in one call.
const ROWS: usize = 32;

/// How many of so many blocks are read by the rows from that of a missing cell on.
fn rows_from(view: &View, missing: MissingCell, start: u64, most: usize) -> usize
    requires some { 0 < most }
    requires some_left { 0 < missing.left }
    requires blocks { start + most ≤ capacity view.now }
    ensures some { 0 < result }
    ensures within { result ≤ most }
    ensures few { result ≤ 32 }
    ensures left { result ≤ missing.left }
    ensures along { LieAlong view.now start result }
{
    let most = most.min(ROWS);
    if missing.left < most as u64 {
        return left_in_strip(view, start, missing.left as usize);
    }
    left_in_strip(view, start, most)
}

/// Reads blocks by the rows from that of a missing cell on, and one by one where that fails. After a failure, the slot at
/// which no source is left.
fn read_missing<B: Bay>(
    bay: &mut B,
    view: &View,
    missing: MissingCell,
    start: u64,
    out: &mut [Sector],
) -> Result<(), usize>
    requires known { IsVolume view.now }
    requires fits { Fits (B.disks bay.old).sizes view.now }
    requires some { 0 < length out.old }
    requires few { length out.old ≤ 32 }
    requires small { start + length out.old < 2 ^ 64 }
    requires blocks { start + length out.old ≤ capacity view.now }
    requires sources { HaveSources view.now start (length out.old) }
    requires lacks { first_copy view.now start ≡ None }
    requires missing { IsMissingAt view.now (slice_get (rows view.now start) 0) missing }
    requires left { length out.old ≤ missing.left }
    requires along { LieAlong view.now start (length out.old) }
    ensures given { B.tells → OnOk result (AreGiven (Failed (B.disks bay.old) (B.disks bay.new)) (B.disks bay.old).held view.now start (length out.old) out.new) }
    ensures none_left { IfErr result (NoneLeftIn (Failed (B.disks bay.old) (B.disks bay.new)) view.now start (length out.old)) }
    ensures reads { OnlyReads (B.disks bay.old) (B.disks bay.new) }
{
    let mut work = [[0; 512]; ROWS];
    let part = &view.parts()[missing.element];
    let count = out.len();
    match sum_rows(
        bay,
        part,
        missing.position,
        missing.sector,
        &mut work[..count],
        out,
    ) {
        Ok(()) => Ok(()),
        Err(_) => read_each(bay, view, start, out),
    }
}

/// Reads the first blocks of a range by their rows, where the first has no copy. Answers how many these are. After a
/// failure, the slot at which no source is left.
pub(crate) fn read_by_rows<B: Bay>(
    bay: &mut B,
    view: &View,
    start: u64,
    out: &mut [Sector],
) -> Result<usize, usize>
    requires known { IsVolume view.now }
    requires fits { Fits (B.disks bay.old).sizes view.now }
    requires some { 0 < length out.old }
    requires small { start + length out.old < 2 ^ 64 }
    requires blocks { start + length out.old ≤ capacity view.now }
    requires sources { HaveSources view.now start (length out.old) }
    requires lacks { first_copy view.now start ≡ None }
    ensures some { IfOk result (λ count. 0 < count) }
    ensures within { IfOk result (λ count. count ≤ length out.old) }
    ensures given { B.tells → IfOk result (λ count. AreGiven (Failed (B.disks bay.old) (B.disks bay.new)) (B.disks bay.old).held view.now start count out.new) }
    ensures left { IfErr result (NoneLeftIn (Failed (B.disks bay.old) (B.disks bay.new)) view.now start (length out.old)) }
    ensures reads { OnlyReads (B.disks bay.old) (B.disks bay.new) }
{
    let Some(missing) = first_missing(view, start) else {
        unreachable!()
    };
    let count = rows_from(view, missing, start, out.len());
    read_missing(bay, view, missing, start, &mut out[..count])?;
    Ok(count)
}
