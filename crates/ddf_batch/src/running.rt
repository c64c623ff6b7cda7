//! What a call of the program does, batches included, and what it promises.
ghost use Rattle.std.specs.Prelude.{◌≡◌, ◌⊎◌, ℕ, List, Option, true, length, IsTrue};
ghost use Rattle.ddf_bay.specs.Moments.{GoesOn};
ghost use Rattle.ddf_bay.specs.ReadsOnly.{ReadsOnly};
ghost use Rattle.ddf_config.specs.declared.refusal.Refusal.{Refusal};
ghost use Rattle.ddf_words.specs.declared.command.Asked.{Asked};
ghost use Rattle.ddf_text.specs.Refusal.{refusal_line};
ghost use Rattle.ddf_bytes.specs.Counts.{Rose};
ghost use Rattle.ddf_bytes.specs.Streams.{SinkRose};
ghost use Rattle.ddf_answer.specs.Call.{answer_of, input_of, work_of};
ghost use Rattle.ddf_answer.specs.Ends.{SomeSlotRose, is_unwritten};
ghost use Rattle.ddf_answer.specs.Tells.{EndsWith};
ghost use Rattle.ddf_words.specs.Traits.{traits_of};
ghost use Rattle.ddf_words.specs.Words.{words_of, images_of, slot_count, GoWrongAt, IsAsked};
ghost use Rattle.ddf_command.specs.Run.{AsksForNoWrite, IsDone, TakesInput, TakesNoInput, is_status};
ghost use Rattle.ddf_words.specs.Batch.{AsksForBatch, IsBatch, IsServed};
ghost use Rattle.ddf_batch.specs.Batch.{IsBatchRun, point};

use crate::batch::batch;
use ddf_answer::Status;
use ddf_bay::Bay;
use ddf_bytes::{NoMemory, Sink, Source, Stamp};
use ddf_command::{image_paths, refuse_words};
use ddf_words::{Order, order_of};
use std::alloc::Global;

/// Does what the words ask for, over the bay of the images that they name, and answers the exit status, as `ddf_command`'s `run` does, and runs a batch
/// where they ask for one: the commands of its lines, one after another, over the same images. A line that is refused, or isn't a command's, ends
/// nothing, and the status is 1 then; one that ends with a status from 3 on is the last, and its status is the whole's. Status 1 comes too where
/// the input has more bytes than a batch.
pub fn run<B: Bay, S: Source, K: Sink>(
    alloc: Global,
    words: &[String],
    bay: &mut B,
    source: &mut S,
    sink: &mut K,
    stamp: Stamp,
) -> u8
    requires slots { length (B.disks bay.old).sizes ≡ slot_count (words_of words.now) }

    // Words that are no command's are refused at the place where they go wrong, and no others are.
    ensures wrong_words { (place : ℕ) → GoWrongAt IsServed (words_of words.now) place → EndsWith 2 (refusal_line (Refusal.Words place)) (answer_of K.tells (K.output sink.old) (K.output sink.new) result) }
    ensures wrong_words_only { result ≡ 2 → (place : ℕ) × GoWrongAt IsServed (words_of words.now) place }

    // What is told, and with which status, by what it made of the disks and took from the input.
    ensures done { (asked : Asked) → IsAsked (words_of words.now) asked
        → IsDone (work_of B.tells (B.disks bay.old) (B.disks bay.new)) (input_of S.tells (S.input source.old) (S.input source.new)) stamp asked (answer_of K.tells (K.output sink.old) (K.output sink.new) result) }
    // promise:batch
    ensures batch { (group : Option (List ℕ)) → AsksForBatch (words_of words.now) group
        → IsBatchRun B.tells B.disks K.tells stamp group (images_of (words_of words.now)) S.tells (S.input source.old) (S.input source.new) (point bay.old (K.output sink.old)) (point bay.new (K.output sink.new)) result }

    // It ends with one of these statuses. At those of these that are unwritten no sector was written, but by the lines of a batch.
    ensures status { IsTrue (is_status result) }
    ensures unwritten { (IsBatch (words_of words.now) → ⊥) → IsTrue (is_unwritten result) → ReadsOnly (B.disks bay.old) (B.disks bay.new) }

    // What stays.
    ensures stays { (IsBatch (words_of words.now) → ⊥) → AsksForNoWrite (words_of words.now) → ReadsOnly (B.disks bay.old) (B.disks bay.new) }
    ensures goes_on { GoesOn (B.disks bay.old) (B.disks bay.new) }
    ensures same_sizes { (B.disks bay.new).sizes ≡ (B.disks bay.old).sizes }
    ensures source { (IsBatch (words_of words.now) → ⊥) → TakesNoInput (words_of words.now) → source.new ≡ source.old }

    // Each status has its cause. For a batch those of its lines stand there.
    ensures disk_fault { (IsBatch (words_of words.now) → ⊥) → result ≡ 3 → SomeSlotRose (B.disks bay.old) (B.disks bay.new) }
    ensures stream_fault { (IsBatch (words_of words.now) → ⊥) → result ≡ 6
        → SinkRose (K.output sink.old) (K.output sink.new) ⊎ (TakesInput (words_of words.now) × Rose (S.input source.old).faults (S.input source.new).faults) }
    ensures complete { (asked : Asked) → IsAsked (words_of words.now) asked → (SomeSlotRose (B.disks bay.old) (B.disks bay.new) → ⊥)
        → (SinkRose (K.output sink.old) (K.output sink.new) → ⊥)
        → ((traits_of asked.command).takes_input ≡ true → Rose (S.input source.old).faults (S.input source.new).faults → ⊥)
        → (result ≡ 0) ⊎ (result ≡ 5) ⊎ ((result ≡ 1) × ((traits_of asked.command).may_refuse ≡ true)) ⊎ ((result ≡ 4) × ((traits_of asked.command).takes_group ≡ true))
        ⊎ ((result ≡ 7) × ((traits_of asked.command).takes_input ≡ true)) }
{
    match order_of(alloc, words) {
        Ok(Order::Other) => ddf_command::run(alloc, words, bay, source, sink, stamp),
        Ok(Order::Batch(group)) => batch(
            alloc,
            group,
            image_paths(words),
            bay,
            source,
            sink,
            &stamp,
        ),
        Ok(Order::Wrong(place)) => refuse_words(alloc, place, sink),
        Err(NoMemory) => Status::Memory.code(),
    }
}
