//! One line of a batch. A line that is refused ends nothing: those before it stand, and the next one is run. docs/COMMANDS.md#batch
ghost use Rattle.ddf_words.specs.Words.{words_of};
ghost use Rattle.ddf_words.specs.Lines.{numbered, parts_of};
ghost use Rattle.ddf_batch.specs.Line.{IsLineRun};
ghost use Rattle.ddf_batch.specs.Batch.{point};

use crate::dispatch::run_line;
use ddf_answer::Status;
use ddf_bay::Bay;
use ddf_bytes::{Guid, NoMemory, Sink, Stamp};
use ddf_command::refuse_words;
use ddf_words::{Asked, WordFault, line_command, line_words};
use std::alloc::Global;

/// Runs a line over the group of its batch, and answers its status. The paths of the images stand for their slots.
pub(crate) fn run_text<B: Bay, K: Sink>(
    alloc: Global,
    group: &Option<Guid>,
    images: &[String],
    line: &str,
    bay: &mut B,
    sink: &mut K,
    stamp: &Stamp,
) -> u8
    ensures { IsLineRun B.tells B.disks K.tells stamp.now group.now (numbered (words_of images.now) (parts_of line.now)) (point bay.old (K.output sink.old)) (point bay.new (K.output sink.new)) result }
{
    let words = match line_words(alloc, images, line) {
        Ok(words) => words,
        Err(NoMemory) => return Status::Memory.code(),
    };
    match line_command(alloc, words.as_slice()) {
        Ok(command) => {
            let asked = Asked {
                group: *group,
                command,
            };
            run_line(alloc, asked, bay, sink, stamp)
        }
        Err(WordFault::Place(place)) => refuse_words(alloc, place, sink),
        Err(WordFault::Memory) => Status::Memory.code(),
    }
}
