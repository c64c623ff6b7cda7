//! Laws of batches and of data: functions that do nothing, whose contracts are the laws.
ghost use Rattle.std.specs.Prelude.{◌≡◌, ℕ, Bool, List, Option, true};
ghost use Rattle.ddf_bytes.specs.declared.stamp.Stamp.{Stamp};
ghost use Rattle.ddf_bytes.specs.Streams.{SinkState};
ghost use Rattle.ddf_bay.specs.ReadsOnly.{ReadsOnly};
ghost use Rattle.ddf_bay.specs.Sectors.{Image};
ghost use Rattle.ddf_words.specs.Words.{Word};
ghost use Rattle.ddf_answer.specs.Call.{answer_of};
ghost use Rattle.ddf_data_events.specs.Events.{Resumes};
ghost use Rattle.ddf_data_events.specs.Moments.{KeepsAll, Moment};
ghost use Rattle.ddf_batch.specs.Batch.{AreLinesRun};
ghost use Rattle.ddf_batch.specs.Line.{IsLineRun, Point};
ghost use Rattle.ddf_data_batch.specs.Calls.{IsUnwritten, LineCall, call_of, was_done};
ghost use Rattle.ddf_data_batch.specs.Lines.{CutsLine, EndsLine, KeepsThrough};

use ddf_bay::Bay;
use ddf_bytes::{Sink, Source};
use ddf_data_events::a_group_keeps_its_history_and_its_data_at_every_moment;

/// A line of a batch goes on in a history of a group and of its data as a call of the program does that was asked for the same: at its end, where the
/// bay still tells what a stop may leave, with all of its changes acknowledged where its status is 0, and with whatever image a stop left since it
/// began. What it promises of its command is what such a call does; where it finds the group of the history, which admits it, it is a call of the
/// history; where it changes another group, or wrote nothing, the history stays.
pub fn a_line_is_an_event_of_its_history_of_data<B: Bay, S: Source, K: Sink>()
    ensures reads { (stamp : Stamp) (group : Option (List ℕ)) (words : List Word) (from to : Point B) (code : ℕ)
        → IsLineRun B.tells B.disks K.tells stamp group words from to code → IsUnwritten words code → ReadsOnly (B.disks from.bay) (B.disks to.bay) }
    ensures ends { (told : B.tells) (stamp : Stamp) (group : Option (List ℕ)) (guid : List ℕ) (old : Moment guid B) (output : SinkState) (to : Point B) (code : ℕ)
        (line : LineCall told B.disks S.tells S.input stamp group guid old to.bay (answer_of K.tells output to.output code)) → KeepsAll B.disks old → (B.disks to.bay).tells_left → (B.disks to.bay).sizes ≡ (B.disks old.bay).sizes
        → EndsLine told B.disks S.tells S.input guid stamp group old to.bay (answer_of K.tells output to.output code) line (KeepsAll B.disks) }
    ensures done { (told : B.tells) (stamp : Stamp) (group : Option (List ℕ)) (guid : List ℕ) (old : Moment guid B) (output : SinkState) (to : Point B) (code : ℕ)
        (line : LineCall told B.disks S.tells S.input stamp group guid old to.bay (answer_of K.tells output to.output code)) → code ≡ 0
        → was_done told B.disks S.tells S.input guid (call_of told B.disks S.tells S.input stamp group guid old to.bay (answer_of K.tells output to.output code) line) ≡ true }
    ensures cut { (told : B.tells) (stamp : Stamp) (group : Option (List ℕ)) (guid : List ℕ) (old : Moment guid B) (output : SinkState) (to : Point B) (code : ℕ)
        (line : LineCall told B.disks S.tells S.input stamp group guid old to.bay (answer_of K.tells output to.output code)) → KeepsAll B.disks old
        → (image : Image) → (B.disks to.bay).left_since (B.disks old.bay).moment image → (bay : B) → Resumes (B.disks old.bay) (B.disks bay) (λ left. left ≡ image)
        → CutsLine told B.disks S.tells S.input guid stamp group old to.bay (answer_of K.tells output to.output code) line bay (KeepsAll B.disks) }
{
    a_group_keeps_its_history_and_its_data_at_every_moment::<B, S>();
}

/// So do the lines of a batch that were run one after another, each from the moment behind the one before it, with whatever happens between them: all
/// is kept at every moment, and what was acknowledged stays in the list.
pub fn the_lines_of_a_batch_go_on_in_their_history_of_data<B: Bay, S: Source, K: Sink>()
    ensures { (told : B.tells) (stamp : Stamp) (group : Option (List ℕ)) (images : List Word) (guid : List ℕ) (lines : List (List ℕ)) (from to : Point B) (refused : Bool) (status : ℕ)
        (ran : AreLinesRun B.tells B.disks K.tells stamp group images lines from to refused status) (old : Moment guid B) → old.bay ≡ from.bay → KeepsAll B.disks old → (turns : ℕ)
        → KeepsThrough told B.disks S.tells S.input guid K.tells stamp group images turns lines from to refused status ran old }
{
    a_group_keeps_its_history_and_its_data_at_every_moment::<B, S>();
}
