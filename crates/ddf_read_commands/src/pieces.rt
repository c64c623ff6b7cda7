//! Blocks of an array, read and printed piece by piece.
ghost use Rattle.std.specs.Prelude.{◌≡◌, ◌<◌, None, length, IfOk};
ghost use Rattle.ddf_array.specs.Volume.{Fits};
ghost use Rattle.ddf_bytes.specs.Streams.{SinkRose};
ghost use Rattle.ddf_pieces.specs.Pieces.{room_for};
ghost use Rattle.ddf_text.specs.Refusal.{disk_fault_line};
ghost use Rattle.ddf_read.specs.Reading.{OnlyReads};
ghost use Rattle.ddf_read.specs.Refused.{read_refusal};
ghost use Rattle.ddf_answer.specs.Call.{answer_of, work_of};
ghost use Rattle.ddf_read_commands.specs.Read.{CallsOfBlocks, CameTo, IsArrayRead};
ghost use Rattle.ddf_answer.specs.Status.{code_of};
ghost use Rattle.ddf_answer.specs.Tells.{ClosesWith};

use ddf_answer::{Status, tell};
use ddf_bay::Bay;
use ddf_bytes::{NoMemory, Sector, Sink};
use ddf_pieces::{PieceFault, read_pieces_counted, room_for};
use ddf_read::{View, VolumeFault};
use ddf_text::disk_fault_line;
use std::alloc::Global;

/// Prints the bytes of blocks of an array that nothing refuses. Memory is taken before the first is read.
pub(crate) fn print_blocks<B: Bay, K: Sink>(
    alloc: Global,
    view: &View,
    start: u64,
    count: u64,
    bay: &mut B,
    sink: &mut K,
) -> Status
    requires fits { Fits (B.disks bay.old).sizes view.now }
    requires accepted { read_refusal view.now start count ≡ None }
    ensures done { CameTo (IsArrayRead (work_of B.tells (B.disks bay.old) (B.disks bay.new)) view.now start count) (answer_of K.tells (K.output sink.old) (K.output sink.new) (code_of result)) }
    ensures reads { OnlyReads (B.disks bay.old) (B.disks bay.new) }
    ensures unread { code_of result ≡ 5 → (B.disks bay.new).calls ≡ (B.disks bay.old).calls }
    ensures calls { CallsOfBlocks (B.disks bay.old) (B.disks bay.new) 0 view.now start count }
    ensures stream { code_of result ≡ 6 → SinkRose (K.output sink.old) (K.output sink.new) }
{
    match blank_piece(alloc, count) {
        Ok(mut room) => print_pieces(view, start, count, &mut room, bay, sink),
        Err(NoMemory) => Status::Memory,
    }
}

/// Sectors of zeros for the first piece of so many blocks.
fn blank_piece(alloc: Global, count: u64) -> Result<Vec<Sector>, NoMemory>
    ensures { IfOk result (λ sectors. length sectors.items ≡ room_for count) }
{
    let sectors = vec![in alloc; [0; 512]; room_for(count)]?;
    Ok(sectors)
}

/// Reads and prints one piece after another, in room for the first.
fn print_pieces<B: Bay, K: Sink>(
    view: &View,
    start: u64,
    count: u64,
    room: &mut [Sector],
    bay: &mut B,
    sink: &mut K,
) -> Status
    requires fits { Fits (B.disks bay.old).sizes view.now }
    requires accepted { read_refusal view.now start count ≡ None }
    requires room { length room.old ≡ room_for count }
    ensures done { CameTo (IsArrayRead (work_of B.tells (B.disks bay.old) (B.disks bay.new)) view.now start count) (answer_of K.tells (K.output sink.old) (K.output sink.new) (code_of result)) }
    ensures reads { OnlyReads (B.disks bay.old) (B.disks bay.new) }
    ensures unread { code_of result ≡ 5 → (B.disks bay.new).calls ≡ (B.disks bay.old).calls }
    ensures calls { CallsOfBlocks (B.disks bay.old) (B.disks bay.new) 0 view.now start count }
    ensures stream { code_of result ≡ 6 → SinkRose (K.output sink.old) (K.output sink.new) }
{
    let mut printed = 0;
    match read_pieces_counted(bay, view, start, count, room, sink, &mut printed) {
        Ok(()) => Status::Ok,
        Err(PieceFault::Volume(VolumeFault::Disk(slot))) => tell_fault(slot, printed, sink),
        Err(PieceFault::Sink(_)) => Status::Stream,
        Err(PieceFault::Volume(_) | PieceFault::Source) => unreachable!(),
    }
}

/// Tells that a block has no source left, where no block was printed before. Behind one nothing but blocks is printed.
fn tell_fault<K: Sink>(slot: usize, printed: u64, sink: &mut K) -> Status
    ensures first { printed ≡ 0 → ClosesWith 3 (disk_fault_line slot) (answer_of K.tells (K.output sink.old) (K.output sink.new) (code_of result)) }
    ensures behind { 0 < printed → (result ≡ Status.DiskFault) × (sink.new ≡ sink.old) }
    ensures stream { code_of result ≡ 6 → SinkRose (K.output sink.old) (K.output sink.new) }
{
    if printed > 0 {
        return Status::DiskFault;
    }
    tell(sink, disk_fault_line(slot).as_bytes(), Status::DiskFault)
}
