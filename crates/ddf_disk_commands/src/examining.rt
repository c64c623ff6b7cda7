//! `examine`: what each slot shows, slot by slot. docs/COMMANDS.md#examine
ghost use Rattle.std.specs.Prelude.{◌≡◌, ◌+◌, ◌<◌, ◌≤◌, length, OnOk, IsErrOf};
ghost use Rattle.ddf_bytes.specs.Streams.{SinkRose, SinkSame};
ghost use Rattle.ddf_bay.specs.ReadsOnly.{ReadsOnly};
ghost use Rattle.ddf_copy.specs.Faults.{show_failed};
ghost use Rattle.ddf_answer.specs.Call.{answer_of, work_of};
ghost use Rattle.ddf_answer.specs.Ends.{Ends};
ghost use Rattle.ddf_words.specs.Traits.{traits_of};
ghost use Rattle.ddf_words.specs.declared.command.Command.{Command};
ghost use Rattle.ddf_disk_commands.specs.Examine.{IsExamined, IsSlotShown};
ghost use Rattle.ddf_answer.specs.Status.{code_of};

use crate::viewing::view_disk;
use ddf_answer::Status;
use ddf_bay::Bay;
use ddf_bytes::{Sink, write_all};
use ddf_copy::ShowFault;
use ddf_text::{DiskView, slot_text};
use std::alloc::Global;

/// Why a command ended before its time.
#[derive(Clone, Copy)]
enum Stop {
    /// Memory ran out.
    Memory,
    /// The output failed, or took nothing.
    Output,
}

/// Prints what each slot shows.
pub fn examine<B: Bay, K: Sink>(alloc: Global, bay: &mut B, sink: &mut K) -> Status
    ensures done { IsExamined (work_of B.tells (B.disks bay.old) (B.disks bay.new)) (answer_of K.tells (K.output sink.old) (K.output sink.new) (code_of result)) }
    ensures ends { Ends (traits_of Command.Examine) (work_of B.tells (B.disks bay.old) (B.disks bay.new)) (answer_of K.tells (K.output sink.old) (K.output sink.new) (code_of result)) }
{
    print_slots(alloc, bay, sink)
}

/// The same, slot by slot.
fn print_slots<B: Bay, K: Sink>(alloc: Global, bay: &mut B, sink: &mut K) -> Status
    ensures examined { IsExamined (work_of B.tells (B.disks bay.old) (B.disks bay.new)) (answer_of K.tells (K.output sink.old) (K.output sink.new) (code_of result)) }
    ensures reads { ReadsOnly (B.disks bay.old) (B.disks bay.new) }
    ensures stream { code_of result ≡ 6 → SinkRose (K.output sink.old) (K.output sink.new) }
{
    let mut fault = false;
    for slot in 0..bay.slots() {
        match examine_slot(alloc, bay, slot, sink) {
            Ok(failed) => fault |= failed,
            Err(Stop::Memory) => return Status::Memory,
            Err(Stop::Output) => return Status::Stream,
        }
    }
    if fault { Status::DiskFault } else { Status::Ok }
}

/// Prints what a slot shows, and answers whether a call on it failed.
fn examine_slot<B: Bay, K: Sink>(
    alloc: Global,
    bay: &mut B,
    slot: usize,
    sink: &mut K,
) -> Result<bool, Stop>
    requires { slot < length (B.disks bay.old).sizes }
    ensures shown { IsSlotShown (B.disks bay.old) (B.disks bay.new) slot (B.tells × K.tells) (K.output sink.old) (K.output sink.new) result }
    ensures reads { ReadsOnly (B.disks bay.old) (B.disks bay.new) }
    ensures calls { (B.disks bay.new).calls ≤ (B.disks bay.old).calls + 17 }
    ensures ok { OnOk result (SinkSame (K.output sink.old) (K.output sink.new)) }
    ensures output { IsErrOf result Stop.Output → SinkRose (K.output sink.old) (K.output sink.new) }
{
    let view = view_disk(alloc, bay, slot);
    let failed = show_failed(&view);
    let Ok(text) = slot_text(alloc, slot, bay.size(slot), view) else {
        return Err(Stop::Memory);
    };
    if write_all(sink, text.as_bytes()).is_err() {
        return Err(Stop::Output);
    }
    Ok(failed)
}

/// Whether a look ended with a call that failed.
fn show_failed(view: &Result<DiskView, ShowFault>) -> bool
    ensures { result ≡ show_failed view.now }
{
    matches!(view, Err(ShowFault::Disk(_)))
}
