//! Writes of blocks of an array, piece by piece.
ghost use Rattle.std.specs.Prelude.{◌≡◌, ◌+◌, ◌-◌, ◌*◌, ◌/◌, ◌<◌, ◌≤◌, ◌^◌, None, ℕ, true, false, length, min, replicate, take, OnOk, IfErr};
ghost use Rattle.ddf_array.specs.Apart.{IsApart};
ghost use Rattle.ddf_array.specs.Sources.{trusts_parity};
ghost use Rattle.ddf_array.specs.Volume.{Fits, IsVolume};
ghost use Rattle.ddf_cells.specs.CellsOn.{write_stretches};
ghost use Rattle.ddf_cells.specs.Touching.{GoesBetween};
ghost use Rattle.ddf_write.specs.Keeping.{AllAreKept};
ghost use Rattle.ddf_write.specs.Looking.{LiesBeside, piece_of};
ghost use Rattle.ddf_write.specs.RowWrites.{keeps_parity_anywhere};
ghost use Rattle.ddf_write.specs.WriteRefused as refused;
ghost use Rattle.ddf_pieces.specs.Writing.{ArePiecesPut, ArePiecesWritten, ArePut, IsPieceStopped, LeaveWrites, is_stopped};

use crate::PieceFault;
use crate::sizes::sectors_in;
use crate::source::has_piece;
use ddf_array::View;
use ddf_bay::Bay;
use ddf_bytes::{Sector, Source};
use ddf_cells::sync_touched;
use ddf_read::VolumeFault;
use ddf_write::{Beside, Kept, piece_of, write_refusal, write_unsynced};

/// Writes so many blocks from one on, piece by piece, in the pieces that were looked at before: no row has blocks of two of them, and what lies beside each is
/// kept. The room begins with the first piece, already read; each later one is read from the source before it is written. Each piece is written as
/// `write_blocks` writes it, but for the syncs: each slot that was written to is synced once, behind the last of them. It takes no memory, and reads no disk.
///
/// Answers how many leading blocks are written and synced: all, or, where the source ends before a later piece is full, those of the whole pieces before.
/// Later blocks' cells are untouched then, and the parity of each row that was touched is right all the same.
///
/// # Errors
/// `Volume`: nothing is read or written where `write_blocks` refuses the whole range, by `Range`, `Lost` or `Degraded`; `Disk` where a write or sync failed, also
/// where a read of the source did before the sync. `Source` where a read of the source failed: the pieces before it are written and synced.
pub fn write_pieces<B: Bay, S: Source>(
    bay: &mut B,
    view: &View,
    beside: &Beside,
    start: u64,
    count: u64,
    work: &mut [u8],
    source: &mut S,
) -> Result<u64, PieceFault>
    requires apart { IsApart view.now }
    requires fits { Fits (B.disks bay.old).sizes view.now }
    requires marked { keeps_parity_anywhere view.now ≡ true → trusts_parity view.now ≡ false }
    requires beside { LiesBeside view.now start count beside.now }
    requires room { 512 * min beside.now.each count ≤ length work.old }
    // promise:cut
    ensures done { ArePiecesWritten B.tells (B.disks bay.old) (B.disks bay.new) view.now start count beside.now.each beside.now.ahead beside.now.kept S.tells (S.input source.old) (S.input source.new)
        (take (512 * piece_of beside.now.each beside.now.ahead 0 count) work.old) result }
    ensures goes { GoesBetween (B.disks bay.old) (B.disks bay.new) }
    // promise:beside
    ensures reads { (B.disks bay.new).failed_reads ≡ (B.disks bay.old).failed_reads }
    ensures never_falls { (S.input source.old).faults ≤ (S.input source.new).faults }
{
    if let Some(fault) = write_refusal(view, start, count as usize) {
        return Err(PieceFault::Volume(fault));
    }
    write_surely(bay, view, beside, start, count, work, source)
}

/// Whether the disks ended a write of pieces.
fn is_stopped(ended: &Result<u64, PieceFault>) -> bool
    ensures { result ≡ is_stopped ended.now }
{
    matches!(ended, Err(PieceFault::Volume(_)))
}

/// Writes one piece after another of blocks that nothing refuses, and makes all sure that was written, however the source ends.
fn write_surely<B: Bay, S: Source>(
    bay: &mut B,
    view: &View,
    beside: &Beside,
    start: u64,
    count: u64,
    work: &mut [u8],
    source: &mut S,
) -> Result<u64, PieceFault>
    requires known { IsVolume view.now }
    requires apart { IsApart view.now }
    requires fits { Fits (B.disks bay.old).sizes view.now }
    requires marked { keeps_parity_anywhere view.now ≡ true → trusts_parity view.now ≡ false }
    requires accepted { refused.write_refusal view.now start count ≡ None }
    requires small { start + count < 2 ^ 64 }
    requires beside { LiesBeside view.now start count beside.now }
    requires room { 512 * min beside.now.each count ≤ length work.old }
    ensures done { ArePiecesWritten B.tells (B.disks bay.old) (B.disks bay.new) view.now start count beside.now.each beside.now.ahead beside.now.kept S.tells (S.input source.old) (S.input source.new)
        (take (512 * piece_of beside.now.each beside.now.ahead 0 count) work.old) result }
    ensures goes { GoesBetween (B.disks bay.old) (B.disks bay.new) }
    ensures reads { (B.disks bay.new).failed_reads ≡ (B.disks bay.old).failed_reads }
    ensures never_falls { (S.input source.old).faults ≤ (S.input source.new).faults }
{
    let mut touched = [false; 64];
    let ended = write_each(bay, view, beside, start, count, work, source, &mut touched);
    if is_stopped(&ended) {
        return ended;
    }
    match sync_touched(bay, &touched) {
        Ok(()) => ended,
        Err(slot) => Err(PieceFault::Volume(VolumeFault::Disk(slot))),
    }
}

/// Writes one piece after another of blocks that nothing refuses, and syncs none.
fn write_each<B: Bay, S: Source>(
    bay: &mut B,
    view: &View,
    beside: &Beside,
    start: u64,
    count: u64,
    work: &mut [u8],
    source: &mut S,
    touched: &mut [bool; 64],
) -> Result<u64, PieceFault>
    requires known { IsVolume view.now }
    requires apart { IsApart view.now }
    requires fits { Fits (B.disks bay.old).sizes view.now }
    requires marked { keeps_parity_anywhere view.now ≡ true → trusts_parity view.now ≡ false }
    requires accepted { refused.write_refusal view.now start count ≡ None }
    requires small { start + count < 2 ^ 64 }
    requires beside { LiesBeside view.now start count beside.now }
    requires room { 512 * min beside.now.each count ≤ length work.old }
    ensures done { ArePiecesPut B.tells (B.disks bay.old) (B.disks bay.new) view.now start count beside.now.each beside.now.ahead beside.now.kept touched.old touched.new S.tells (S.input source.old) (S.input source.new)
        (take (512 * piece_of beside.now.each beside.now.ahead 0 count) work.old) result }
    ensures goes { GoesBetween (B.disks bay.old) (B.disks bay.new) }
    ensures reads { (B.disks bay.new).failed_reads ≡ (B.disks bay.old).failed_reads }
    ensures never_falls { (S.input source.old).faults ≤ (S.input source.new).faults }
{
    let mut at = 0;
    while at < count {
        let size = piece_of(beside.each, beside.ahead, at, count - at);
        let piece = &mut work[..512 * size as usize];
        if !has_piece(source, at, piece)? {
            return Ok(at);
        }
        write_piece(
            bay,
            view,
            &beside.kept,
            start + at,
            sectors_in(piece),
            touched,
        )?;
        at += size;
    }
    Ok(at)
}

/// Writes a piece of blocks that nothing refuses, and doesn't sync it.
fn write_piece<B: Bay>(
    bay: &mut B,
    view: &View,
    kept: &Kept,
    start: u64,
    piece: &[Sector],
    touched: &mut [bool; 64],
) -> Result<(), PieceFault>
    requires apart { IsApart view.now }
    requires fits { Fits (B.disks bay.old).sizes view.now }
    requires marked { keeps_parity_anywhere view.now ≡ true → trusts_parity view.now ≡ false }
    requires accepted { refused.write_refusal view.now start (length piece.now) ≡ None }
    requires all_kept { AllAreKept view.now start (length piece.now) kept.now }
    ensures leave { LeaveWrites B.tells (B.disks bay.old) (B.disks bay.new) view.now start piece.now }
    ensures written { OnOk result (ArePut B.tells (B.disks bay.old) (B.disks bay.new) view.now start piece.now kept.now touched.old touched.new) }
    ensures stopped { IfErr result (IsPieceStopped (B.disks bay.old) (B.disks bay.new) view.now start (length piece.now)) }
    ensures goes { GoesBetween (B.disks bay.old) (B.disks bay.new) }
    ensures reads { (B.disks bay.new).failed_reads ≡ (B.disks bay.old).failed_reads }
    ensures calls { keeps_parity_anywhere view.now ≡ false → (B.disks bay.new).calls ≤ (B.disks bay.old).calls + write_stretches view.now start (length piece.now) }
{
    match write_unsynced(bay, view, kept, start, piece, touched) {
        Ok(()) => Ok(()),
        Err(VolumeFault::Disk(slot)) => Err(PieceFault::Volume(VolumeFault::Disk(slot))),
        Err(
            VolumeFault::Range(_) | VolumeFault::Lost | VolumeFault::Unsure | VolumeFault::Degraded,
        ) => unreachable!(),
    }
}
