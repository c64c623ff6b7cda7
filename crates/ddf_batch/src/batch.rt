//! A batch: its lines one after another, and 36 where it has too many bytes. docs/COMMANDS.md#batch
ghost use Rattle.std.specs.Prelude.{◌≡◌, ◌||◌, IsTrue, false, nat_lt};
ghost use Rattle.std.specs.List.{slice_split};
ghost use Rattle.ddf_bay.specs.Moments.{GoesOn};
ghost use Rattle.ddf_words.specs.Words.{words_of};
ghost use Rattle.ddf_words.specs.Lines.{is_end};
ghost use Rattle.ddf_batch.specs.Batch.{AreLinesRun, IsBatchRun, is_batch_status, point};

use crate::line::run_text;
use ddf_answer::{Status, tell};
use ddf_bay::Bay;
use ddf_bytes::{Guid, Sink, Source, Stamp};
use ddf_words::{BatchFault, as_text, make_text, read_batch};
use std::alloc::Global;

/// Reads the whole input, and runs its lines.
pub(crate) fn batch<B: Bay, S: Source, K: Sink>(
    alloc: Global,
    group: Option<Guid>,
    images: &[String],
    bay: &mut B,
    source: &mut S,
    sink: &mut K,
    stamp: &Stamp,
) -> u8
    ensures run { IsBatchRun B.tells B.disks K.tells stamp.now group (words_of images.now) S.tells (S.input source.old) (S.input source.new) (point bay.old (K.output sink.old)) (point bay.new (K.output sink.new)) result }
    ensures status { IsTrue (is_batch_status result) }
    ensures goes_on { GoesOn (B.disks bay.old) (B.disks bay.new) }
    ensures same_sizes { (B.disks bay.new).sizes ≡ (B.disks bay.old).sizes }
{
    let mut text = match read_batch(alloc, source) {
        Ok(text) => text,
        Err(BatchFault::Long) => {
            return tell(sink, b"refused 36 batch over 65536\n", Status::Refused).code();
        }
        Err(BatchFault::Failed) => return Status::Stream.code(),
        Err(BatchFault::Memory) => return Status::Memory.code(),
    };
    if text.is_empty() {
        return Status::Ok.code();
    }
    make_text(&mut text);
    run_lines(alloc, &group, images, as_text(&text), bay, sink, stamp)
}

/// Runs the lines of a text, each ended by LF but the last. A status from 3 on ends them, and else one that was refused makes it 1.
fn run_lines<B: Bay, K: Sink>(
    alloc: Global,
    group: &Option<Guid>,
    images: &[String],
    text: &str,
    bay: &mut B,
    sink: &mut K,
    stamp: &Stamp,
) -> u8
    ensures run { AreLinesRun B.tells B.disks K.tells stamp.now group.now (words_of images.now) (slice_split is_end text.now) (point bay.old (K.output sink.old)) (point bay.new (K.output sink.new)) false result }
    ensures status { IsTrue (is_batch_status result) }
    ensures goes_on { GoesOn (B.disks bay.old) (B.disks bay.new) }
    ensures same_sizes { (B.disks bay.new).sizes ≡ (B.disks bay.old).sizes }
{
    let mut refused = false;
    for line in text.split('\n') {
        let status = run_text(alloc, group, images, line, bay, sink, stamp);
        if status > 2 {
            return status;
        }
        refused = is_refused(refused, status);
    }
    if refused { 1 } else { 0 }
}

/// Whether a line isn't done, or one before it wasn't.
fn is_refused(refused: bool, status: u8) -> bool
    ensures { result ≡ (refused || nat_lt 0 status) }
{
    refused || status > 0
}
