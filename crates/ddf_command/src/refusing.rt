//! Words that are no command's: status 2, and the place of the first that is wrong. docs/REFUSALS.md#10-word-p
ghost use Rattle.std.specs.Prelude.{◌≡◌};
ghost use Rattle.ddf_bytes.specs.Streams.{SinkRose};
ghost use Rattle.ddf_text.specs.Refusal.{refusal_line};
ghost use Rattle.ddf_answer.specs.Call.{answer_of};
ghost use Rattle.ddf_answer.specs.Tells.{EndsWith};

use ddf_answer::{Status, tell_line};
use ddf_bytes::Sink;
use ddf_config::Refusal;
use ddf_text::RefusalText;
use std::alloc::Global;

/// Refuses words that go wrong at a place, as `run` does, and answers the exit status. So the program needn't open disks for them.
pub fn refuse_words<K: Sink>(alloc: Global, place: usize, sink: &mut K) -> u8
    ensures ends { EndsWith 2 (refusal_line (Refusal.Words place)) (answer_of K.tells (K.output sink.old) (K.output sink.new) result) }
    ensures stream { result ≡ 6 → SinkRose (K.output sink.old) (K.output sink.new) }
{
    tell_line(
        alloc,
        &RefusalText(Refusal::Words(place)),
        Status::Words,
        sink,
    )
    .code()
}
