//! `read`: blocks of an array. It goes on where disks are away or fail, since it is how data is rescued. docs/COMMANDS.md#read
ghost use Rattle.std.specs.Prelude.{◌≡◌, None, IfOk};
ghost use Rattle.ddf_bytes.specs.Streams.{SinkRose};
ghost use Rattle.ddf_config.specs.Seats.{SeatsFit};
ghost use Rattle.ddf_recovery.specs.Recovery.{trusted_seats};
ghost use Rattle.ddf_read.specs.Reading.{OnlyReads};
ghost use Rattle.ddf_read.specs.Refused as volume;
ghost use Rattle.ddf_answer.specs.Call.{answer_of, work_of};
ghost use Rattle.ddf_read_commands.specs.Read.{CallsOfArray, CallsUnread, CameTo, IsReadDone, IsReadOf, MayRead};
ghost use Rattle.ddf_answer.specs.Ends.{Ends};
ghost use Rattle.ddf_answer.specs.Status.{code_of};
ghost use Rattle.ddf_words.specs.Traits.{traits_of};
ghost use Rattle.ddf_words.specs.declared.command.Command.{Command};

use crate::pieces::print_blocks;
use crate::using::{failure_of, readable_in};
use ddf_answer::{Failure, Status, tell_failure};
use ddf_assembly::{Group, assemble};
use ddf_bay::Bay;
use ddf_bytes::{Guid, Sink};
use ddf_read::{View, read_refusal};
use std::alloc::Global;

/// Prints the bytes of blocks of an array, and nothing else. They come from those disks of the group alone that recovery may write over.
// argued: that a read reads all that it prints, for its contract says that the bytes are those that the disks hold, and the body gets them by reads.
pub fn read<B: Bay, K: Sink>(
    alloc: Global,
    named: Option<Guid>,
    name: &[u8],
    start: u64,
    count: u64,
    bay: &mut B,
    sink: &mut K,
) -> Status
    // promise:sources
    ensures done { IsReadDone (work_of B.tells (B.disks bay.old) (B.disks bay.new)) named name.now start count (answer_of K.tells (K.output sink.old) (K.output sink.new) (code_of result)) }
    ensures ends { Ends (traits_of (Command.Read name.now start count)) (work_of B.tells (B.disks bay.old) (B.disks bay.new)) (answer_of K.tells (K.output sink.old) (K.output sink.new) (code_of result)) }
{
    match assemble(alloc, bay, named) {
        Ok(group) => print_array(alloc, &group, name, start, count, bay, sink),
        Err(fault) => tell_failure(alloc, Failure::from(fault), sink),
    }
}

/// Prints the blocks of an array of this group, or why they aren't read.
fn print_array<B: Bay, K: Sink>(
    alloc: Global,
    group: &Group,
    name: &[u8],
    start: u64,
    count: u64,
    bay: &mut B,
    sink: &mut K,
) -> Status
    requires { SeatsFit (B.disks bay.old).sizes group.now.seats }
    ensures done { CameTo (λ outcome. IsReadOf (work_of B.tells (B.disks bay.old) (B.disks bay.new)) group.now.config (trusted_seats group.now) name.now start count outcome
        × CallsUnread (B.disks bay.old) (B.disks bay.new) 0 outcome) (answer_of K.tells (K.output sink.old) (K.output sink.new) (code_of result)) }
    ensures reads { OnlyReads (B.disks bay.old) (B.disks bay.new) }
    ensures calls { CallsOfArray (B.disks bay.old) (B.disks bay.new) 0 group.now.config (trusted_seats group.now) name.now start count }
    ensures stream { code_of result ≡ 6 → SinkRose (K.output sink.old) (K.output sink.new) }
{
    match readable(alloc, group, name, start, count) {
        Ok(view) => print_blocks(alloc, &view, start, count, bay, sink),
        Err(failure) => tell_failure(alloc, failure, sink),
    }
}

/// The view of an array of which blocks may be read, or why they may not.
fn readable(
    alloc: Global,
    group: &Group,
    name: &[u8],
    start: u64,
    count: u64,
) -> Result<View, Failure>
    ensures may { MayRead group.now.config (trusted_seats group.now) name.now start count result }
    ensures accepted { IfOk result (λ view. volume.read_refusal view start count ≡ None) }
{
    let (_, view) = readable_in(alloc, group, name, start, count)?;
    match read_refusal(&view, start, count as usize) {
        None => Ok(view),
        Some(fault) => Err(failure_of(fault)),
    }
}
