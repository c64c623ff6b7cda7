//! What is known of what lies beside blocks before they are written, and the look that tells.
ghost use Rattle.std.specs.Prelude.{◌≡◌, ◌+◌, ◌<◌, ◌≤◌, ◌^◌, [], None, false, true, OnOk, IfOk, IfErr};
ghost use Rattle.std.specs.List.{list_any};
ghost use Rattle.ddf_array.specs.Sources.{trusts_parity};
ghost use Rattle.ddf_array.specs.Volume.{Fits, IsVolume, capacity};
ghost use Rattle.ddf_read.specs.Reading.{Failed, OnlyReads};
ghost use Rattle.ddf_cells.specs.CellSources.{IsReadable};
ghost use Rattle.ddf_cells.specs.Degraded.{is_degraded};
ghost use Rattle.ddf_write.specs.Beside.{NoneLeftBeside};
ghost use Rattle.ddf_write.specs.Gathering.{Gathers, IsMissed, IsUnkept};
ghost use Rattle.ddf_write.specs.Keeping.{AllAreKept, AreGivenThem, AreTheirValues};
ghost use Rattle.ddf_write.specs.Looking.{ArePiecesKept, IsLookFault, IsSplit, LiesBeside};
ghost use Rattle.ddf_write.specs.RowWrites.{IsSure, keeps_parity_anywhere, keeps_parity_in};
ghost use Rattle.ddf_write.specs.WriteRefused as refused;

use crate::kept::Kept;
use crate::look::keep_piece;
use crate::looking::{Missed, Piece};
use crate::pieces::{MOST_BLOCKS, piece_blocks, piece_of};
use crate::write::write_refusal;
use ddf_array::{Part, View};
use ddf_bay::Bay;
use ddf_read::{VolumeFault, keeps_parity};
use std::alloc::Global;

/// What is known of what lies beside a range of blocks before they are written: in which pieces they are to be written, so that no row has blocks of two of
/// these, and the values of the data cells beside them.
#[derive(Drop)]
pub struct Beside {
    /// The blocks of each piece, but for the first and the last.
    pub each: u64,
    /// The blocks by which the first piece is shorter.
    pub ahead: u64,
    /// The values of the cells beside the range, in the rows that it touches.
    pub kept: Kept,
}

/// Why what lies beside blocks isn't known.
#[derive(Clone, Copy, PartialEq, Eq)]
pub enum LookFault {
    /// The blocks can't be written, or no source is left of a cell beside them.
    Volume(VolumeFault),
    /// Memory ran out.
    Memory,
}

/// An element of the array keeps parity.
fn keeps_parity_in(part: &Part) -> bool
    ensures { result ≡ keeps_parity_in part.now }
{
    keeps_parity(part.shape.layout())
}

/// An element of the array keeps parity.
fn has_parity(view: &View) -> bool
    ensures { result ≡ keeps_parity_anywhere view.now }
{
    view.parts().iter().any(keeps_parity_in)
}

/// Keeps the cells beside each piece of a range.
fn keep_pieces<B: Bay>(
    alloc: Global,
    bay: &mut B,
    view: &View,
    start: u64,
    count: u64,
    each: u64,
    ahead: u64,
) -> Result<Kept, Missed>
    requires known { IsVolume view.now }
    requires fits { Fits (B.disks bay.old).sizes view.now }
    requires readable { IsReadable view.now }
    requires whole { is_degraded view.now ≡ false }
    requires trusted { trusts_parity view.now ≡ true }
    requires blocks { start + count ≤ capacity view.now }
    requires small { start + count < 2 ^ 64 }
    requires some { 0 < each }
    requires ahead { ahead ≤ start }
    ensures all { IfOk result (λ kept. ArePiecesKept view.now start count each ahead kept 0) }
    ensures gathers { IfOk result (λ kept. Gathers B.tells (B.disks bay.old) (B.disks bay.new) view.now start count [] kept) }
    ensures left { IfErr result (IsMissed (NoneLeftBeside (Failed (B.disks bay.old) (B.disks bay.new)) view.now start count) (IsSplit view.now start count each ahead)) }
    ensures reads { OnlyReads (B.disks bay.old) (B.disks bay.new) }
{
    let mut kept = Kept::new(alloc);
    let mut at = 0;
    while at < count {
        let blocks = piece_of(each, ahead, at, count - at);
        let piece = Piece {
            start,
            count,
            first: start + at,
            blocks,
        };
        keep_piece(bay, view, &mut kept, piece)?;
        at += blocks;
    }
    Ok(kept)
}

/// Keeps the cells beside a range that is one piece.
fn keep_whole<B: Bay>(
    alloc: Global,
    bay: &mut B,
    view: &View,
    start: u64,
    count: u64,
) -> Result<Kept, LookFault>
    requires known { IsVolume view.now }
    requires fits { Fits (B.disks bay.old).sizes view.now }
    requires readable { IsReadable view.now }
    requires whole { is_degraded view.now ≡ false }
    requires trusted { trusts_parity view.now ≡ true }
    requires blocks { start + count ≤ capacity view.now }
    requires small { start + count < 2 ^ 64 }
    ensures all { IfOk result (AllAreKept view.now start count) }
    ensures gathers { IfOk result (λ kept. Gathers B.tells (B.disks bay.old) (B.disks bay.new) view.now start count [] kept) }
    ensures fault { IfErr result (IsUnkept (NoneLeftBeside (Failed (B.disks bay.old) (B.disks bay.new)) view.now start count)) }
    ensures reads { OnlyReads (B.disks bay.old) (B.disks bay.new) }
{
    let mut kept = Kept::new(alloc);
    let piece = Piece {
        start,
        count,
        first: start,
        blocks: count,
    };
    match keep_piece(bay, view, &mut kept, piece) {
        Ok(()) => Ok(kept),
        Err(Missed::Disk(slot)) => Err(LookFault::Volume(VolumeFault::Disk(slot))),
        Err(Missed::Memory) => Err(LookFault::Memory),
        Err(Missed::Split) => unreachable!(),
    }
}

/// What lies beside a range of an array that keeps parity: in pieces of whole stripes, or in one where these split rows.
fn look_at<B: Bay>(
    alloc: Global,
    bay: &mut B,
    view: &View,
    start: u64,
    count: u64,
) -> Result<Beside, LookFault>
    requires known { IsVolume view.now }
    requires fits { Fits (B.disks bay.old).sizes view.now }
    requires readable { IsReadable view.now }
    requires whole { is_degraded view.now ≡ false }
    requires keeps { keeps_parity_anywhere view.now ≡ true }
    requires trusted { trusts_parity view.now ≡ true }
    requires blocks { start + count ≤ capacity view.now }
    requires small { start + count < 2 ^ 64 }
    requires accepted { refused.write_refusal view.now start count ≡ None }
    ensures beside { IfOk result (LiesBeside view.now start count) }
    ensures gathers { IfOk result (λ beside. Gathers B.tells (B.disks bay.old) (B.disks bay.new) view.now start count [] beside.kept) }
    ensures fault { IfErr result (IsLookFault (B.disks bay.old) (B.disks bay.new) view.now start count) }
    ensures reads { OnlyReads (B.disks bay.old) (B.disks bay.new) }
{
    let each = piece_blocks(view);
    let ahead = start % each;
    match keep_pieces(alloc, bay, view, start, count, each, ahead) {
        Ok(kept) => Ok(Beside { each, ahead, kept }),
        Err(Missed::Disk(slot)) => Err(LookFault::Volume(VolumeFault::Disk(slot))),
        Err(Missed::Memory) => Err(LookFault::Memory),
        Err(Missed::Split) => {
            let kept = keep_whole(alloc, bay, view, start, count)?;
            Ok(Beside {
                each: count.max(1),
                ahead: 0,
                kept,
            })
        }
    }
}

/// Looks, before blocks of a range are written and before their array is marked, at what lies beside them: the other data cells of the rows of parity elements
/// that they touch, which the new parity needs. Each is read as its value, from all sources of its block, the parity of its rows among them, and kept. So once
/// that was done no read is needed to write the range. It also tells in which pieces the range is to be written: these end where stripes end, so that no row
/// has blocks of two of them, and what is written stays right where the input ends behind one of them.
///
/// Of an array that keeps no parity nothing is read.
///
/// # Errors
/// `Volume`: `Range`, `Lost` and `Degraded` as `write_blocks` refuses the range, with nothing read; `Disk` where each source of a cell beside the range has a slot
/// of which a read failed: it names such a slot of the first source. `Memory` where memory ran out.
pub fn look_beside<B: Bay>(
    alloc: Global,
    bay: &mut B,
    view: &View,
    start: u64,
    count: u64,
) -> Result<Beside, LookFault>
    requires fits { Fits (B.disks bay.old).sizes view.now }
    requires trusted { keeps_parity_anywhere view.now ≡ true → trusts_parity view.now ≡ true }
    ensures beside { IfOk result (LiesBeside view.now start count) }
    ensures ok { OnOk result (refused.write_refusal view.now start count ≡ None) }
    ensures values { B.tells → IfOk result (λ beside. IsSure (Failed (B.disks bay.old) (B.disks bay.new)) view.now (B.disks bay.old).held → AreTheirValues view.now (B.disks bay.old).held beside.kept) }
    ensures given { B.tells → IfOk result (λ beside. AreGivenThem (Failed (B.disks bay.old) (B.disks bay.new)) view.now (B.disks bay.old).held beside.kept) }
    ensures fault { IfErr result (IsLookFault (B.disks bay.old) (B.disks bay.new) view.now start count) }
    ensures reads { OnlyReads (B.disks bay.old) (B.disks bay.new) }
    ensures idle { keeps_parity_anywhere view.now ≡ false → (B.disks bay.new).calls ≡ (B.disks bay.old).calls }
{
    if let Some(fault) = write_refusal(view, start, count as usize) {
        return Err(LookFault::Volume(fault));
    }
    if !has_parity(view) {
        return Ok(Beside {
            each: MOST_BLOCKS,
            ahead: 0,
            kept: Kept::new(alloc),
        });
    }
    look_at(alloc, bay, view, start, count)
}
