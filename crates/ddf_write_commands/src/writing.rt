//! `write`: blocks of an array get the bytes of the input. What lies beside them is read before the array is marked: behind the mark parity is no
//! source, and a bad sector beside them could not be had. docs/FAULTS.md#a-small-write-beside-an-unreadable-sector
ghost use Rattle.std.specs.Prelude.{◌≡◌, ◌⊎◌, ◌+◌, ◌*◌, ℕ, List, None, Option, false, true, IfErr, IfOk, OnOk, length, take};
ghost use Rattle.ddf_bytes.specs.Stamps.{timestamp_of};
ghost use Rattle.ddf_bytes.specs.Streams.{SinkRose};
ghost use Rattle.ddf_bay.specs.Moments.{GoesOn};
ghost use Rattle.ddf_array.specs.Sources.{trusts_parity};
ghost use Rattle.ddf_array.specs.Volume.{Fits};
ghost use Rattle.ddf_read.specs.Reading.{Failed, OnlyReads};
ghost use Rattle.ddf_cells.specs.CellsOn.{write_stretches};
ghost use Rattle.ddf_cells.specs.Touching.{GoesBetween};
ghost use Rattle.ddf_write.specs.Keeping.{AreTheirValues};
ghost use Rattle.ddf_write.specs.Looking.{LiesBeside};
ghost use Rattle.ddf_write.specs.RowWrites.{IsSure, keeps_parity_anywhere};
ghost use Rattle.ddf_write.specs.WriteRefused.{write_refusal};
ghost use Rattle.ddf_pieces.specs.Pieces.{GrewByPieces};
ghost use Rattle.ddf_recovery.specs.Committed.{WasReadied};
ghost use Rattle.ddf_recovery.specs.Recovery.{config_recovered};
ghost use Rattle.ddf_seats.specs.Seated.{seated};
ghost use Rattle.ddf_history_steps.specs.BlockFloors.{AreFloored};
ghost use Rattle.ddf_answer.specs.Call.{answer_of, input_of, work_of};
ghost use Rattle.ddf_answer.specs.Ends.{EndsBy};
ghost use Rattle.ddf_answer.specs.Status.{code_of};
ghost use Rattle.ddf_words.specs.declared.command.Command.{Command};
ghost use Rattle.ddf_words.specs.Traits.{traits_of};
ghost use Rattle.ddf_group_commands.specs.GroupRead.{IsReadFrom};
ghost use Rattle.ddf_write_commands.specs.Opened.{AreMembers};
ghost use Rattle.ddf_write_commands.specs.Payload.{InputRose, first_piece, pieces_of, room_of};
ghost use Rattle.ddf_write_commands.specs.Plans.{IsPlanOf, unmarked_view};
ghost use Rattle.ddf_write_commands.specs.Write.{HasWrittenBlocks, IsDoneTold, IsUnseen, IsWriteDone, IsWrittenAs, write_behind, write_refusals};

use crate::around::{close_blocks, open_blocks, ready_blocks};
use crate::payload::{PayloadFault, read_first};
use crate::planning::{Plan, plan_write, unmarked_view};
use ddf_answer::{Failure, Status, tell, tell_failure};
use ddf_assembly::Group;
use ddf_bay::Bay;
use ddf_bytes::{Guid, Sink, Source, Stamp, write_all};
use ddf_config::Refusal;
use ddf_group_commands::read_group;
use ddf_pieces::{PieceFault, write_pieces};
use ddf_read_commands::failure_of;
use ddf_recovery::Ready;
use ddf_text::{cut_line, sequence_line};
use ddf_write::{Beside, LookFault, look_beside};
use std::alloc::Global;

/// Why blocks aren't written.
enum WriteFault {
    /// As commands aren't done.
    Failure(Failure),
    /// The input failed.
    Input,
}

impl From<Failure> for WriteFault {
    ghost use Rattle.ddf_write_commands.specs.declared.writing.WriteFault.TheVariants.{Failure};

    ghost from_gives = { λ failure fault. fault ≡ Failure failure };

    fn from(failure: Failure) -> WriteFault {
        WriteFault::Failure(failure)
    }
}

impl From<PayloadFault> for WriteFault {
    ghost use Rattle.ddf_write_commands.specs.Write.{fault_of_payload};

    ghost from_gives = { λ payload fault. fault ≡ fault_of_payload payload };

    fn from(fault: PayloadFault) -> WriteFault {
        match fault {
            PayloadFault::Short(found) => {
                WriteFault::Failure(Failure::Refused(Refusal::ShortPayload(found)))
            }
            PayloadFault::Failed => WriteFault::Input,
            PayloadFault::Memory => WriteFault::Failure(Failure::Memory),
        }
    }
}

/// What a write came to.
#[derive(Clone, Copy)]
struct Done {
    /// So many leading blocks are written.
    blocks: u64,
    /// The sequence number of the group behind them.
    sequence: u32,
}

/// Recovers the group that the disks are, gives so many blocks of the array that the word names, from one on, the bytes of the input, and prints the
/// group's sequence number behind it. Before anything is written it reads what the new parity needs of the blocks beside them, by every source that these have:
/// where one has none left, nothing is written, and nothing taken of the input. From then on no block is read. The input is read piece by piece: the first piece
/// only where nothing refuses the write, before anything is written, and each later one before it is written. Where the input ends before one of these, the
/// pieces before it are written, and it prints how many blocks they have.
pub fn write<B: Bay, S: Source, K: Sink>(
    alloc: Global,
    named: Option<Guid>,
    name: &[u8],
    start: u64,
    count: u64,
    bay: &mut B,
    source: &mut S,
    sink: &mut K,
    stamp: &Stamp,
) -> Status
    // promise:beside
    ensures done { IsWriteDone (work_of B.tells (B.disks bay.old) (B.disks bay.new)) (input_of S.tells (S.input source.old) (S.input source.new)) named (timestamp_of stamp.now) name.now start count
        (answer_of K.tells (K.output sink.old) (K.output sink.new) (code_of result)) }
    ensures ends { EndsBy (traits_of (Command.Write name.now start count)) (work_of B.tells (B.disks bay.old) (B.disks bay.new)) (answer_of K.tells (K.output sink.old) (K.output sink.new) (code_of result))
        (SinkRose (K.output sink.old) (K.output sink.new) ⊎ InputRose (input_of S.tells (S.input source.old) (S.input source.new))) }
{
    match written(alloc, named, name, start, count, bay, source, stamp) {
        Ok(done) => tell_done(done, count, sink),
        Err(WriteFault::Failure(failure)) => tell_failure(alloc, failure, sink),
        Err(WriteFault::Input) => Status::Stream,
    }
}

/// Tells what a write of so many blocks came to.
fn tell_done<K: Sink>(done: Done, count: u64, sink: &mut K) -> Status
    ensures told { IsDoneTold count done (answer_of K.tells (K.output sink.old) (K.output sink.new) (code_of result)) }
    ensures stream { code_of result ≡ 6 → SinkRose (K.output sink.old) (K.output sink.new) }
{
    if done.blocks == count {
        return tell(sink, sequence_line(done.sequence).as_bytes(), Status::Ok);
    }
    match write_all(sink, cut_line(done.blocks, done.sequence).as_bytes()) {
        Ok(()) => Status::Cut,
        Err(_) => Status::Stream,
    }
}

/// The same, without the answer: what it came to.
fn written<B: Bay, S: Source>(
    alloc: Global,
    named: Option<Guid>,
    name: &[u8],
    start: u64,
    count: u64,
    bay: &mut B,
    source: &mut S,
    stamp: &Stamp,
) -> Result<Done, WriteFault>
    ensures written { IsWrittenAs (work_of B.tells (B.disks bay.old) (B.disks bay.new)) (input_of S.tells (S.input source.old) (S.input source.new)) named (timestamp_of stamp.now) name.now start count result }
    ensures goes_on { GoesOn (B.disks bay.old) (B.disks bay.new) }
    ensures same_sizes { (B.disks bay.new).sizes ≡ (B.disks bay.old).sizes }
{
    let mut group = read_group(alloc, named, bay)?;
    let plan = plan_write(alloc, &group, name, start, count)?;
    let timestamp = stamp.timestamp();
    let mut ready = ready_blocks(alloc, &group, &plan, timestamp)?;
    let beside = look(alloc, &plan, start, count, bay)?;
    let mut room = read_first(alloc, source, &beside, count)?;
    write_array(
        &mut group, &mut ready, &plan, &beside, start, count, &mut room, source, timestamp, bay,
    )
}

/// Looks at what lies beside blocks before their array is marked for them, while its parity is a source.
fn look<B: Bay>(
    alloc: Global,
    plan: &Plan,
    start: u64,
    count: u64,
    bay: &mut B,
) -> Result<Beside, Failure>
    requires fits { Fits (B.disks bay.old).sizes (unmarked_view plan.now) }
    requires trusted { keeps_parity_anywhere (unmarked_view plan.now) ≡ true → trusts_parity (unmarked_view plan.now) ≡ true }
    requires accepted { write_refusal (unmarked_view plan.now) start count ≡ None }
    ensures beside { IfOk result (LiesBeside (unmarked_view plan.now) start count) }
    ensures values { B.tells → IfOk result (λ beside. IsSure (Failed (B.disks bay.old) (B.disks bay.new)) (unmarked_view plan.now) (B.disks bay.old).held → AreTheirValues (unmarked_view plan.now) (B.disks bay.old).held beside.kept) }
    ensures unseen { IfErr result (IsUnseen (B.disks bay.old) (B.disks bay.new) (unmarked_view plan.now) start count) }
    ensures reads { OnlyReads (B.disks bay.old) (B.disks bay.new) }
    ensures idle { keeps_parity_anywhere (unmarked_view plan.now) ≡ false → (B.disks bay.new).calls ≡ (B.disks bay.old).calls }
{
    match look_beside(alloc, bay, unmarked_view(plan), start, count) {
        Ok(beside) => Ok(beside),
        Err(LookFault::Volume(fault)) => Err(failure_of(fault)),
        Err(LookFault::Memory) => Err(Failure::Memory),
    }
}

/// Writes blocks of an array, piece by piece, between the steps of its group that are ready. The room begins with the first piece. It takes no memory, and no
/// read of a disk is made.
fn write_array<B: Bay, S: Source>(
    group: &mut Group,
    ready: &mut Ready,
    plan: &Plan,
    beside: &Beside,
    start: u64,
    count: u64,
    room: &mut [u8],
    source: &mut S,
    timestamp: u32,
    bay: &mut B,
) -> Result<Done, WriteFault>
    requires from { IsReadFrom B.tells (B.disks bay.old) group.old }
    requires was { WasReadied group.old plan.now.changes timestamp ready.old }
    requires planned { (word : List ℕ) × IsPlanOf (write_refusals start count) write_behind (config_recovered group.old) group.old.seats word plan.now }
    requires members { AreMembers (config_recovered group.old) group.old.seats }
    requires floored { AreFloored (seated group.old) }
    requires lies { LiesBeside plan.now.view start count beside.now }
    requires room { length room.old ≡ 512 * room_of (pieces_of beside.now) count }
    ensures done { (sectors : List (List ℕ)) × HasWrittenBlocks B.tells (B.disks bay.old) (B.disks bay.new) group.old plan.now timestamp start count beside.now.kept (pieces_of beside.now) S.tells (S.input source.old) (S.input source.new) (take (512 * first_piece (pieces_of beside.now) count) room.old) sectors result }
    ensures unfailed { OnOk result ((B.disks bay.new).failed_writes ≡ (B.disks bay.old).failed_writes) }
    ensures goes { GoesBetween (B.disks bay.old) (B.disks bay.new) }
    ensures reads { (B.disks bay.new).failed_reads ≡ (B.disks bay.old).failed_reads }
    ensures calls { keeps_parity_anywhere plan.now.view ≡ false
        → GrewByPieces (write_stretches plan.now.view) beside.now.each start count ((B.disks bay.old).calls + 77 * length (B.disks bay.old).sizes) (B.disks bay.new).calls }
{
    open_blocks(group, ready, plan, timestamp, bay)?;
    match write_pieces(bay, &plan.view, beside, start, count, room, source) {
        Ok(written) => {
            let sequence = close_blocks(group, ready, bay)?;
            Ok(Done {
                blocks: written,
                sequence,
            })
        }
        Err(PieceFault::Volume(fault)) => Err(WriteFault::Failure(failure_of(fault))),
        Err(PieceFault::Source) => Err(WriteFault::Input),
        Err(PieceFault::Sink(_)) => unreachable!(),
    }
}
