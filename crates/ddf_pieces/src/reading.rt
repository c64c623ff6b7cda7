//! Reads of blocks of an array, piece by piece.
ghost use Rattle.std.specs.Prelude.{◌≡◌, ℕ, ◌+◌, ◌<◌, ◌≤◌, ◌^◌, None, length};
ghost use Rattle.ddf_array.specs.Volume.{Fits};
ghost use Rattle.ddf_bytes.specs.Streams.{SinkNeverFalls};
ghost use Rattle.ddf_read.specs.Reading.{NoneFailed, OnlyReads};
ghost use Rattle.ddf_read.specs.Refused as volume;
ghost use Rattle.ddf_read.specs.Stretches.{HaveCopies, copy_stretches};
ghost use Rattle.ddf_pieces.specs.Pieces.{GrewByPieces};
ghost use Rattle.ddf_pieces.specs.Reading.{ArePiecesRead, IsPieceRead};

use crate::PieceFault;
use crate::sizes::piece_of;
use ddf_array::View;
use ddf_bay::Bay;
use ddf_bytes::{Sector, Sink, write_all};
use ddf_read::{VolumeFault, read_blocks, read_refusal};

/// Reads so many blocks from one on and hands their bytes to the sink, piece by piece: each of as many blocks as the room has sectors, and the last of what
/// is left. Each piece is read as `read_blocks` reads it, and handed on once it is read. It takes no memory.
///
/// # Errors
/// `Volume`: nothing is read or handed on where `read_blocks` refuses the whole range, by `Range`, `Lost` or `Unsure`; `Disk` where each source of a block has
/// a slot of which a read failed in this call: it names such a slot of the block's first source. `Sink` where the sink failed, or took nothing. Behind `Disk` and
/// `Sink` the pieces before were handed on, and behind `Sink` a front of the next one.
pub fn read_pieces<B: Bay, K: Sink>(
    bay: &mut B,
    view: &View,
    start: u64,
    count: u64,
    work: &mut [Sector],
    sink: &mut K,
) -> Result<(), PieceFault>
    requires fits { Fits (B.disks bay.old).sizes view.now }
    requires room { 0 < length work.old }
    // promise:pieces
    ensures done { (gone : ℕ) × ArePiecesRead B.tells (B.disks bay.old) (B.disks bay.new) view.now start count (length work.old) K.tells (K.output sink.old) (K.output sink.new) gone result }
    ensures reads { OnlyReads (B.disks bay.old) (B.disks bay.new) }
    ensures never_falls { SinkNeverFalls (K.output sink.old) (K.output sink.new) }
    ensures calls { HaveCopies view.now start count → NoneFailed view.now (B.disks bay.old) (B.disks bay.new)
        → GrewByPieces (copy_stretches view.now) (length work.old) start count (B.disks bay.old).calls (B.disks bay.new).calls }
{
    let mut done = 0;
    read_pieces_counted(bay, view, start, count, work, sink, &mut done)
}

/// The same, and tells how many blocks were handed on.
pub fn read_pieces_counted<B: Bay, K: Sink>(
    bay: &mut B,
    view: &View,
    start: u64,
    count: u64,
    work: &mut [Sector],
    sink: &mut K,
    done: &mut u64,
) -> Result<(), PieceFault>
    requires fits { Fits (B.disks bay.old).sizes view.now }
    requires room { 0 < length work.old }
    ensures done { ArePiecesRead B.tells (B.disks bay.old) (B.disks bay.new) view.now start count (length work.old) K.tells (K.output sink.old) (K.output sink.new) done.new result }
    ensures reads { OnlyReads (B.disks bay.old) (B.disks bay.new) }
    ensures never_falls { SinkNeverFalls (K.output sink.old) (K.output sink.new) }
    ensures calls { HaveCopies view.now start count → NoneFailed view.now (B.disks bay.old) (B.disks bay.new)
        → GrewByPieces (copy_stretches view.now) (length work.old) start count (B.disks bay.old).calls (B.disks bay.new).calls }
{
    *done = 0;
    if let Some(fault) = read_refusal(view, start, count as usize) {
        return Err(PieceFault::Volume(fault));
    }
    read_each(bay, view, start, count, work, sink, done)
}

/// Reads and hands on one piece after another of blocks that nothing refuses.
fn read_each<B: Bay, K: Sink>(
    bay: &mut B,
    view: &View,
    start: u64,
    count: u64,
    work: &mut [Sector],
    sink: &mut K,
    done: &mut u64,
) -> Result<(), PieceFault>
    requires fits { Fits (B.disks bay.old).sizes view.now }
    requires accepted { volume.read_refusal view.now start count ≡ None }
    requires small { start + count < 2 ^ 64 }
    requires room { 0 < length work.old }
    requires none { done.old ≡ 0 }
    ensures done { ArePiecesRead B.tells (B.disks bay.old) (B.disks bay.new) view.now start count (length work.old) K.tells (K.output sink.old) (K.output sink.new) done.new result }
    ensures reads { OnlyReads (B.disks bay.old) (B.disks bay.new) }
    ensures never_falls { SinkNeverFalls (K.output sink.old) (K.output sink.new) }
    ensures calls { HaveCopies view.now start count → NoneFailed view.now (B.disks bay.old) (B.disks bay.new)
        → GrewByPieces (copy_stretches view.now) (length work.old) start count (B.disks bay.old).calls (B.disks bay.new).calls }
{
    while *done < count {
        let size = piece_of(work.len(), count - *done);
        read_piece(bay, view, start + *done, &mut work[..size], sink)?;
        *done += size as u64;
    }
    Ok(())
}

/// Reads a piece of blocks that nothing refuses, and hands it on.
fn read_piece<B: Bay, K: Sink>(
    bay: &mut B,
    view: &View,
    start: u64,
    piece: &mut [Sector],
    sink: &mut K,
) -> Result<(), PieceFault>
    requires fits { Fits (B.disks bay.old).sizes view.now }
    requires accepted { volume.read_refusal view.now start (length piece.old) ≡ None }
    ensures done { IsPieceRead B.tells (B.disks bay.old) (B.disks bay.new) K.tells (K.output sink.old) (K.output sink.new) view.now start piece.new result }
    ensures reads { OnlyReads (B.disks bay.old) (B.disks bay.new) }
    ensures never_falls { SinkNeverFalls (K.output sink.old) (K.output sink.new) }
    ensures calls { HaveCopies view.now start (length piece.old) → NoneFailed view.now (B.disks bay.old) (B.disks bay.new)
        → (B.disks bay.new).calls ≤ (B.disks bay.old).calls + copy_stretches view.now start (length piece.old) }
{
    match read_blocks(bay, view, start, piece) {
        Ok(()) => match write_all(sink, piece.as_flattened()) {
            Ok(()) => Ok(()),
            Err(fault) => Err(PieceFault::Sink(fault)),
        },
        Err(VolumeFault::Disk(slot)) => Err(PieceFault::Volume(VolumeFault::Disk(slot))),
        Err(
            VolumeFault::Range(_) | VolumeFault::Lost | VolumeFault::Unsure | VolumeFault::Degraded,
        ) => unreachable!(),
    }
}
