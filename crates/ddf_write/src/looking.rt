//! The cells beside a piece of blocks are read and kept, before the blocks are written.
ghost use Rattle.std.specs.Prelude.{◌≡◌, ◌+◌, ◌<◌, ◌≤◌, ◌^◌, ℕ, List, Some, length, OnOk, IfOk, IfErr, slice_get};
ghost use Rattle.ddf_primary.specs.Cells.{depth_of};
ghost use Rattle.ddf_array.specs.declared.part.Part.{Part};
ghost use Rattle.ddf_array.specs.Volume.{Fits};
ghost use Rattle.ddf_read.specs.Reading.{Failed, OnlyReads};
ghost use Rattle.ddf_cells.specs.CellSources.{IsReadable, NoneLeftAmong};
ghost use Rattle.ddf_cells.specs.GivenCells.{AreCellsGiven};
ghost use Rattle.ddf_write.specs.Beside.{HoldsNone};
ghost use Rattle.ddf_write.specs.Filling.{AreAlike};
ghost use Rattle.ddf_write.specs.Gathering.{AreKnownAlong, Gathers, IsMissed, IsOfAnother, KeepsRun, NoneLeftOfOthers};

use crate::filling::place_among;
use crate::kept::{DataCell, Kept};
use ddf_array::View;
use ddf_bay::Bay;
use ddf_bytes::{NoMemory, Sector};
use ddf_cells::{SECTORS, block_at, blocks_along, empty_from, read_cells};

/// Why cells aren't kept.
#[derive(Clone, Copy)]
pub(crate) enum Missed {
    /// No source of one is left at this slot.
    Disk(usize),
    /// Memory ran out.
    Memory,
    /// A row that the piece touches has a block of another piece.
    Split,
}

/// A piece of a range of blocks.
#[derive(Clone, Copy)]
pub(crate) struct Piece {
    /// The first block of the range.
    pub(crate) start: u64,
    /// The blocks of the range.
    pub(crate) count: u64,
    /// The first block of the piece.
    pub(crate) first: u64,
    /// The blocks of the piece.
    pub(crate) blocks: u64,
}

/// How many blocks from one on, at most so many, are all among so many, or all others.
fn alike_from(block: u64, start: u64, count: u64, most: usize) -> usize
    requires some { 0 < most }
    ensures some { 0 < result }
    ensures within { result ≤ most }
    ensures alike { AreAlike start count block result }
{
    if block < start {
        return if start - block < most as u64 {
            (start - block) as usize
        } else {
            most
        };
    }
    if block - start < count && count - (block - start) < most as u64 {
        return (count - (block - start)) as usize;
    }
    most
}

/// How many of so many neighbouring cells hold none of these blocks, where the first holds none.
fn others_from(
    view: &View,
    element: usize,
    position: usize,
    sector: u64,
    start: u64,
    count: u64,
    most: usize,
) -> usize
    requires some { 0 < most }
    requires small { sector + most < 2 ^ 64 }
    requires first { HoldsNone view.now start count element position sector }
    ensures some { 0 < result }
    ensures within { result ≤ most }
    ensures others { (k : ℕ) → k < result → HoldsNone view.now start count element position (sector + k) }
{
    match block_at(view, element, position, sector) {
        Some(block) => blocks_along(view, block, alike_from(block, start, count, most)),
        None => empty_from(view, element, position, sector, most),
    }
}

/// Keeps the sectors of neighbouring cells.
fn keep_each(
    kept: &mut Kept,
    element: usize,
    position: usize,
    sector: u64,
    cells: &[Sector],
) -> Result<(), NoMemory>
    requires small { sector + length cells.now < 2 ^ 64 }
    ensures { OnOk result (KeepsRun kept.old kept.new element position sector cells.now (length cells.now)) }
{
    for at in 0..cells.len() {
        let cell = DataCell {
            element,
            position,
            sector: sector + at as u64,
        };
        kept.keep(cell, &cells[at])?;
    }
    Ok(())
}

/// Reads neighbouring cells as their values, and keeps these.
fn keep_run<B: Bay>(
    bay: &mut B,
    view: &View,
    kept: &mut Kept,
    element: usize,
    position: usize,
    sector: u64,
    count: usize,
) -> Result<(), Missed>
    requires fits { Fits (B.disks bay.old).sizes view.now }
    requires readable { IsReadable view.now }
    requires few { count ≤ 32 }
    requires small { sector + count < 2 ^ 64 }
    requires there { element < length view.now.parts }
    requires sectors { (part : Part) → slice_get view.now.parts element ≡ Some part → sector + count ≤ depth_of part.shape }
    ensures kept { OnOk result ((cells : List (List ℕ)) × KeepsRun kept.old kept.new element position sector cells count
        × (B.tells → AreCellsGiven (Failed (B.disks bay.old) (B.disks bay.new)) view.now (B.disks bay.old).held element sector position cells count)) }
    ensures left { IfErr result (λ missed. (part : Part) → slice_get view.now.parts element ≡ Some part
        → IsMissed (NoneLeftAmong (Failed (B.disks bay.old) (B.disks bay.new)) view.now element part sector count position) ⊥ missed) }
    ensures reads { OnlyReads (B.disks bay.old) (B.disks bay.new) }
{
    let mut work = [[0; 512]; SECTORS];
    let cells = &mut work[..count];
    match read_cells(bay, view, element, position, sector, cells) {
        Ok(()) => match keep_each(kept, element, position, sector, cells) {
            Ok(()) => Ok(()),
            Err(_) => Err(Missed::Memory),
        },
        Err(slot) => Err(Missed::Disk(slot)),
    }
}

/// Keeps the first of neighbouring cells, where that holds no block of the piece. Answers how many.
fn keep_others<B: Bay>(
    bay: &mut B,
    view: &View,
    kept: &mut Kept,
    piece: Piece,
    element: usize,
    position: usize,
    sector: u64,
    most: usize,
) -> Result<usize, Missed>
    requires fits { Fits (B.disks bay.old).sizes view.now }
    requires readable { IsReadable view.now }
    requires some { 0 < most }
    requires few { most ≤ 32 }
    requires numbers { piece.first + piece.blocks < 2 ^ 64 }
    requires small { sector + most < 2 ^ 64 }
    requires there { element < length view.now.parts }
    requires sectors { (part : Part) → slice_get view.now.parts element ≡ Some part → sector + most ≤ depth_of part.shape }
    requires none { HoldsNone view.now piece.first piece.blocks element position sector }
    ensures some { IfOk result (λ count. 0 < count) }
    ensures within { IfOk result (λ count. count ≤ most) }
    ensures known { IfOk result (AreKnownAlong view.now piece.first piece.blocks kept.new element position sector) }
    ensures gathers { OnOk result (Gathers B.tells (B.disks bay.old) (B.disks bay.new) view.now piece.start piece.count kept.old kept.new) }
    ensures left { IfErr result (λ missed. (part : Part) → slice_get view.now.parts element ≡ Some part
        → IsMissed (NoneLeftOfOthers (Failed (B.disks bay.old) (B.disks bay.new)) view.now piece.start piece.count element part position sector most) (IsOfAnother view.now piece element position sector most) missed) }
    ensures reads { OnlyReads (B.disks bay.old) (B.disks bay.new) }
{
    match place_among(view, element, position, sector, piece.start, piece.count) {
        Some(_) => Err(Missed::Split),
        None => {
            let count = others_from(
                view,
                element,
                position,
                sector,
                piece.start,
                piece.count,
                most,
            );
            keep_run(bay, view, kept, element, position, sector, count)?;
            Ok(count)
        }
    }
}

/// Passes the first of neighbouring cells where they hold blocks of the piece, or else keeps them. Answers how many.
fn keep_first<B: Bay>(
    bay: &mut B,
    view: &View,
    kept: &mut Kept,
    piece: Piece,
    element: usize,
    position: usize,
    sector: u64,
    most: usize,
) -> Result<usize, Missed>
    requires fits { Fits (B.disks bay.old).sizes view.now }
    requires readable { IsReadable view.now }
    requires some { 0 < most }
    requires few { most ≤ 32 }
    requires numbers { piece.first + piece.blocks < 2 ^ 64 }
    requires small { sector + most < 2 ^ 64 }
    requires there { element < length view.now.parts }
    requires sectors { (part : Part) → slice_get view.now.parts element ≡ Some part → sector + most ≤ depth_of part.shape }
    ensures some { IfOk result (λ count. 0 < count) }
    ensures within { IfOk result (λ count. count ≤ most) }
    ensures known { IfOk result (AreKnownAlong view.now piece.first piece.blocks kept.new element position sector) }
    ensures gathers { OnOk result (Gathers B.tells (B.disks bay.old) (B.disks bay.new) view.now piece.start piece.count kept.old kept.new) }
    ensures left { IfErr result (λ missed. (part : Part) → slice_get view.now.parts element ≡ Some part
        → IsMissed (NoneLeftOfOthers (Failed (B.disks bay.old) (B.disks bay.new)) view.now piece.start piece.count element part position sector most) (IsOfAnother view.now piece element position sector most) missed) }
    ensures reads { OnlyReads (B.disks bay.old) (B.disks bay.new) }
{
    match place_among(view, element, position, sector, piece.first, piece.blocks) {
        Some(k) => {
            let block = piece.first + k;
            Ok(blocks_along(
                view,
                block,
                alike_from(block, piece.first, piece.blocks, most),
            ))
        }
        None => keep_others(bay, view, kept, piece, element, position, sector, most),
    }
}

/// Keeps neighbouring cells of a position, those that hold no block of the piece.
pub(crate) fn keep_cells<B: Bay>(
    bay: &mut B,
    view: &View,
    kept: &mut Kept,
    piece: Piece,
    element: usize,
    position: usize,
    sector: u64,
    count: usize,
) -> Result<(), Missed>
    requires fits { Fits (B.disks bay.old).sizes view.now }
    requires readable { IsReadable view.now }
    requires few { count ≤ 32 }
    requires numbers { piece.first + piece.blocks < 2 ^ 64 }
    requires small { sector + count < 2 ^ 64 }
    requires there { element < length view.now.parts }
    requires sectors { (part : Part) → slice_get view.now.parts element ≡ Some part → sector + count ≤ depth_of part.shape }
    ensures known { OnOk result (AreKnownAlong view.now piece.first piece.blocks kept.new element position sector count) }
    ensures gathers { OnOk result (Gathers B.tells (B.disks bay.old) (B.disks bay.new) view.now piece.start piece.count kept.old kept.new) }
    ensures left { IfErr result (λ missed. (part : Part) → slice_get view.now.parts element ≡ Some part
        → IsMissed (NoneLeftOfOthers (Failed (B.disks bay.old) (B.disks bay.new)) view.now piece.start piece.count element part position sector count) (IsOfAnother view.now piece element position sector count) missed) }
    ensures reads { OnlyReads (B.disks bay.old) (B.disks bay.new) }
{
    let mut at = 0;
    while at < count {
        at += keep_first(
            bay,
            view,
            kept,
            piece,
            element,
            position,
            sector + at as u64,
            count - at,
        )?;
    }
    Ok(())
}
