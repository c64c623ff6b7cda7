//! The command of a line: the program's own, with no input. docs/COMMANDS.md#batch
ghost use Rattle.std.specs.Prelude.{◌≡◌, true};
ghost use Rattle.ddf_answer.specs.Call.{answer_of, work_of};
ghost use Rattle.ddf_answer.specs.Ends.{Ends};
ghost use Rattle.ddf_words.specs.Commands.{FitsCommand};
ghost use Rattle.ddf_words.specs.Traits.{traits_of};
ghost use Rattle.ddf_words.specs.Lines.{is_for_lines};
ghost use Rattle.ddf_command.specs.Run.{IsCommandDone};
ghost use Rattle.ddf_batch.specs.Line.{no_input};

use ddf_bay::Bay;
use ddf_bytes::{MemorySource, Sink, Stamp};
use ddf_command::obey;
use ddf_words::Asked;
use std::alloc::Global;

/// Does the command of a line of a batch, over the named group or the only one, as the program does it alone, and answers the exit status. The command
/// is one that a line may ask for.
pub fn run_line<B: Bay, K: Sink>(
    alloc: Global,
    asked: Asked,
    bay: &mut B,
    sink: &mut K,
    stamp: &Stamp,
) -> u8
    requires fits { FitsCommand asked.command }
    requires line { is_for_lines asked.command ≡ true }
    ensures done { IsCommandDone (work_of B.tells (B.disks bay.old) (B.disks bay.new)) no_input stamp.now asked.group asked.command (answer_of K.tells (K.output sink.old) (K.output sink.new) result) }
    ensures ends { Ends (traits_of asked.command) (work_of B.tells (B.disks bay.old) (B.disks bay.new)) (answer_of K.tells (K.output sink.old) (K.output sink.new) result) }
{
    let mut source = MemorySource::new(Vec::new(alloc), Vec::new(alloc));
    obey(
        alloc,
        asked.group,
        asked.command,
        bay,
        &mut source,
        sink,
        stamp,
    )
    .code()
}
