//! What a call of the program does, and what it promises: a command's words lead to its crate here.
//! docs/ARCHITECTURE.md#one-command-from-its-words-to-the-sectors
ghost use Rattle.std.specs.Prelude.{◌≡◌, ◌⊎◌, ℕ, true, false, length, IsTrue};
ghost use Rattle.ddf_bay.specs.Moments.{GoesOn};
ghost use Rattle.ddf_bay.specs.ReadsOnly.{ReadsOnly};
ghost use Rattle.ddf_config.specs.declared.refusal.Refusal.{Refusal};
ghost use Rattle.ddf_words.specs.declared.command.Asked.{Asked};
ghost use Rattle.ddf_text.specs.Refusal.{refusal_line};
ghost use Rattle.ddf_bytes.specs.Counts.{Rose};
ghost use Rattle.ddf_bytes.specs.Streams.{SinkRose};
ghost use Rattle.ddf_answer.specs.Call.{answer_of, input_of, work_of};
ghost use Rattle.ddf_answer.specs.Ends.{EndsBy, SomeSlotRose, StreamRose, is_unwritten};
ghost use Rattle.ddf_answer.specs.Status.{code_of};
ghost use Rattle.ddf_answer.specs.Tells.{EndsWith};
ghost use Rattle.ddf_words.specs.Commands.{FitsCommand};
ghost use Rattle.ddf_words.specs.Traits.{traits_of};
ghost use Rattle.ddf_words.specs.Words.{words_of, slot_count, GoWrongAt, IsAccepted, IsAsked};
ghost use Rattle.ddf_command.specs.Run.{AsksForNoWrite, IsCommandDone, IsDone, TakesInput, TakesNoInput, is_status};

use crate::refusing::refuse_words;
use ddf_answer::Status;
use ddf_bay::Bay;
use ddf_bytes::{Guid, Sink, Source, Stamp};
use ddf_disk_commands::{examine, label};
use ddf_group_commands::{assemble_disks, change, show};
use ddf_import_command::import;
use ddf_read_commands::{read, scrub_disks};
use ddf_rebuild_command::{copyback, rebuild};
use ddf_words::{Command, WordFault, asked};
use ddf_write_commands::{resync_disks, write};
use std::alloc::Global;

/// Does what the words ask for, over the bay of the images that they name, and answers the exit status:
/// 0 done, 1 it is refused, 2 the words are no command's, 3 a call on a disk failed, 4 records of the group contradict each other,
/// 5 memory ran out, 6 the input or the output failed, 7 the input ended before all of its blocks were written, and those before are.
pub fn run<B: Bay, S: Source, K: Sink>(
    alloc: Global,
    words: &[String],
    bay: &mut B,
    source: &mut S,
    sink: &mut K,
    stamp: Stamp,
) -> u8
    requires slots { length (B.disks bay.old).sizes ≡ slot_count (words_of words.now) }

    // Words that are no command's are refused at the place where they go wrong, and no others are.
    // promise:words
    ensures wrong_words { (place : ℕ) → GoWrongAt IsAccepted (words_of words.now) place → EndsWith 2 (refusal_line (Refusal.Words place)) (answer_of K.tells (K.output sink.old) (K.output sink.new) result) }
    // promise:words
    ensures wrong_words_only { result ≡ 2 → (place : ℕ) × GoWrongAt IsAccepted (words_of words.now) place }

    // What is told, and with which status, by what it made of the disks and took from the input.
    // promise:contradiction, promise:refused, promise:examined, promise:header, promise:sums, promise:costs
    ensures done { (asked : Asked) → IsAsked (words_of words.now) asked
        → IsDone (work_of B.tells (B.disks bay.old) (B.disks bay.new)) (input_of S.tells (S.input source.old) (S.input source.new)) stamp asked (answer_of K.tells (K.output sink.old) (K.output sink.new) result) }

    // It ends with one of these statuses, and at those of these that are unwritten no sector was written.
    ensures status { IsTrue (is_status result) }
    // promise:contradiction, promise:refused
    ensures unwritten { IsTrue (is_unwritten result) → ReadsOnly (B.disks bay.old) (B.disks bay.new) }

    // What stays.
    // promise:looks
    ensures stays { AsksForNoWrite (words_of words.now) → ReadsOnly (B.disks bay.old) (B.disks bay.new) }
    ensures goes_on { GoesOn (B.disks bay.old) (B.disks bay.new) }
    ensures same_sizes { (B.disks bay.new).sizes ≡ (B.disks bay.old).sizes }
    ensures source { TakesNoInput (words_of words.now) → source.new ≡ source.old }

    // Each status has its cause.
    // promise:statuses
    ensures disk_fault { result ≡ 3 → SomeSlotRose (B.disks bay.old) (B.disks bay.new) }
    // promise:statuses
    ensures stream_fault { result ≡ 6 → SinkRose (K.output sink.old) (K.output sink.new) ⊎ (TakesInput (words_of words.now) × Rose (S.input source.old).faults (S.input source.new).faults) }
    // promise:statuses
    ensures complete { (asked : Asked) → IsAsked (words_of words.now) asked → (SomeSlotRose (B.disks bay.old) (B.disks bay.new) → ⊥)
        → (SinkRose (K.output sink.old) (K.output sink.new) → ⊥)
        → ((traits_of asked.command).takes_input ≡ true → Rose (S.input source.old).faults (S.input source.new).faults → ⊥)
        → (result ≡ 0) ⊎ (result ≡ 5) ⊎ ((result ≡ 1) × ((traits_of asked.command).may_refuse ≡ true)) ⊎ ((result ≡ 4) × ((traits_of asked.command).takes_group ≡ true))
        ⊎ ((result ≡ 7) × ((traits_of asked.command).takes_input ≡ true)) }
{
    match asked(alloc, words) {
        Ok(asked) => obey(alloc, asked.group, asked.command, bay, source, sink, &stamp).code(),
        Err(WordFault::Place(place)) => refuse_words(alloc, place, sink),
        Err(WordFault::Memory) => Status::Memory.code(),
    }
}

/// Does a command, over the named group or the only one, and answers its status. The lines of a batch are done by it too.
pub fn obey<B: Bay, S: Source, K: Sink>(
    alloc: Global,
    group: Option<Guid>,
    command: Command,
    bay: &mut B,
    source: &mut S,
    sink: &mut K,
    stamp: &Stamp,
) -> Status
    requires { FitsCommand command }
    ensures done { IsCommandDone (work_of B.tells (B.disks bay.old) (B.disks bay.new)) (input_of S.tells (S.input source.old) (S.input source.new)) stamp.now group command (answer_of K.tells (K.output sink.old) (K.output sink.new) (code_of result)) }
    ensures ends { EndsBy (traits_of command) (work_of B.tells (B.disks bay.old) (B.disks bay.new)) (answer_of K.tells (K.output sink.old) (K.output sink.new) (code_of result))
        (StreamRose (traits_of command) (S.input source.old) (S.input source.new) (answer_of K.tells (K.output sink.old) (K.output sink.new) (code_of result))) }
    ensures source { (traits_of command).takes_input ≡ false → source.new ≡ source.old }
{
    match command {
        Command::Examine => examine(alloc, bay, sink),
        Command::Label {
            style,
            large,
            slots,
        } => label(alloc, style, large, slots.items(), bay, sink, stamp),
        Command::Assemble => assemble_disks(alloc, group, bay, sink, stamp),
        Command::Show => show(alloc, group, bay, sink),
        Command::Read { name, start, count } => {
            read(alloc, group, name.items(), start, count, bay, sink)
        }
        Command::Scrub { name } => scrub_disks(alloc, group, name.items(), bay, sink),
        Command::Resync { name } => resync_disks(alloc, group, name.items(), bay, sink, stamp),
        Command::Rebuild { name } => rebuild(alloc, group, name.items(), bay, sink, stamp),
        Command::Copyback { name, slot } => {
            copyback(alloc, group, name.items(), slot, bay, sink, stamp)
        }
        Command::Write { name, start, count } => write(
            alloc,
            group,
            name.items(),
            start,
            count,
            bay,
            source,
            sink,
            stamp,
        ),
        Command::Import { group: other } => import(alloc, group, other, bay, sink, stamp),
        Command::Change(wish) => change(alloc, group, &wish, bay, sink, stamp),
    }
}
