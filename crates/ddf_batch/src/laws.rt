//! Laws of batches: functions that do nothing, whose contracts are the laws.
ghost use Rattle.std.specs.Prelude.{◌≡◌, ℕ, Bool, List, Option, true, false, ◌∷◌};
ghost use Rattle.ddf_bytes.specs.declared.stamp.Stamp.{Stamp};
ghost use Rattle.ddf_bytes.specs.Streams.{SinkState};
ghost use Rattle.ddf_bay.specs.ReadsOnly.{ReadsOnly};
ghost use Rattle.ddf_bay.specs.Sectors.{Image, IsLeft};
ghost use Rattle.ddf_view.specs.View.{View};
ghost use Rattle.ddf_history.specs.Groups.{groups};
ghost use Rattle.ddf_history.specs.History.{AllKept, Answers, IsHistory, KeepsAcked, Moment};
ghost use Rattle.ddf_history.specs.Reading.{Each, Scene};
ghost use Rattle.ddf_history.specs.Scenes.{scene_of};
ghost use Rattle.ddf_history_steps.specs.Going.{IsOver, changes_in};
ghost use Rattle.ddf_history_steps.specs.Kept.{AreAllKept, is_read};
ghost use Rattle.ddf_words.specs.Traits.{traits_of};
ghost use Rattle.ddf_words.specs.Words.{Word};
ghost use Rattle.ddf_words.specs.declared.command.Command.{Command};
ghost use Rattle.ddf_command.specs.History.{IsCall, IsCut, IsEnd, IsOther, Leaves};
ghost use Rattle.ddf_words.specs.Lines.{AsksFor};
ghost use Rattle.ddf_batch.specs.Batch.{AreLinesRun, point};
ghost use Rattle.ddf_batch.specs.History.{AreCallsOf, IsLineOf, LineJoined, LineTook, is_join};
ghost use Rattle.ddf_batch.specs.Line.{IsLineRun, Point};

use ddf_bay::Bay;
use ddf_bytes::Sink;
use ddf_command::a_group_is_assembled_at_every_moment_of_its_history;

/// A line whose command may write takes the group that it finds as a call of the program does, and one by which another group joins takes both. Where it
/// finds the group of a history that admits it, it is a call of that history: at its end, done where its status is 0, and at each moment within it,
/// with whatever image a stop left since it began. So the calls of a batch's lines are calls of one history, each from where the one before it ended.
pub fn a_line_is_an_event_of_its_history<B: Bay, K: Sink>()
    ensures took { (stamp : Stamp) (group : Option (List ℕ)) (words : List Word) (from to : Point B) (code : ℕ) (command : Command)
        → IsLineRun B.tells B.disks K.tells stamp group words from to code → AsksFor words command → (traits_of command).may_write ≡ true
        → is_join command ≡ false → LineTook B.tells B.disks stamp group command from to code }
    ensures joined { (stamp : Stamp) (group : Option (List ℕ)) (words : List Word) (from to : Point B) (code : ℕ) (other : List ℕ)
        → IsLineRun B.tells B.disks K.tells stamp group words from to code → AsksFor words (Command.Import other)
        → LineJoined B.tells B.disks stamp group other from to code }
    ensures ends { (told : B.tells) (stamp : Stamp) (group : Option (List ℕ)) (command : Command) (guid : List ℕ) (old : Moment (groups guid) B) (output : SinkState) (to : Point B) (code : ℕ)
        (took : LineTook B.tells B.disks stamp group command (point old.bay output) to code) → IsLineOf B.tells B.disks stamp group command guid old output to code took
        → AreAllKept guid old.past (B.disks old.bay) → (B.disks to.bay).tells_left
        → (new : Moment (groups guid) B) × (end : IsEnd told B.disks guid old new) × (new.bay ≡ to.bay) × (code ≡ 0 → end.call.done ≡ true) }
    ensures cut { (told : B.tells) (stamp : Stamp) (group : Option (List ℕ)) (command : Command) (guid : List ℕ) (old : Moment (groups guid) B) (output : SinkState) (to : Point B) (code : ℕ)
        (took : LineTook B.tells B.disks stamp group command (point old.bay output) to code) → IsLineOf B.tells B.disks stamp group command guid old output to code took
        → AreAllKept guid old.past (B.disks old.bay) → (cut : B) (image : Image) → (B.disks to.bay).left_since (B.disks old.bay).moment image
        → ((scene : Scene View) → Leaves told B.disks guid cut scene → scene ≡ scene_of (B.disks old.bay).sizes image)
        → (new : Moment (groups guid) B) × (new.bay ≡ cut) × IsCut told B.disks guid old new }

    // A line that wrote nothing, as one that is refused, belongs to each history whose disks as they read are one of the images that a stop might have left.
    ensures reads { (told : B.tells) (guid : List ℕ) (old : Moment (groups guid) B) (to : Point B) → ReadsOnly (B.disks old.bay) (B.disks to.bay) → IsLeft (B.disks old.bay).may_hold (B.disks old.bay).held
        → (new : Moment (groups guid) B) × (new.bay ≡ to.bay) × IsOther told B.disks guid old new }
{}

/// What a line acknowledged is held at each moment since: where it was done all of its changes are issued and acknowledged, and at every later moment of
/// the history, within the lines behind it or after any stop, they are so still, and assembly gives the configuration after a prefix of the issued
/// changes that holds them. The moments behind the lines of a batch are such a history.
// promise:lines
pub fn what_lines_acknowledged_is_held<B: Bay, K: Sink>()
    ensures acknowledged { (told : B.tells) (guid : List ℕ) (old new : Moment (groups guid) B) (end : IsEnd told B.disks guid old new) → end.call.done ≡ true
        → IsOver guid old.past (is_read end.call.taken.left) end.call.group (changes_in end.call.group end.call.steps) new.past }
    ensures held { (told : B.tells) (guid : List ℕ) (new : Moment (groups guid) B) (history : List (Moment (groups guid) B))
        → AllKept (Leaves told B.disks guid) new → IsHistory (Leaves told B.disks guid) (IsCall told B.disks guid) new history
        → Each (λ later. KeepsAcked new.past later.past) history × Each (Answers (Leaves told B.disks guid)) (new ∷ history) }
    ensures lines { (told : B.tells) (stamp : Stamp) (group : Option (List ℕ)) (images : List Word) (guid : List ℕ) (lines : List (List ℕ)) (from to : Point B) (refused : Bool) (status : ℕ)
        (ran : AreLinesRun B.tells B.disks K.tells stamp group images lines from to refused status) (old : Moment (groups guid) B) (moments : List (Moment (groups guid) B))
        → AreCallsOf told B.disks K.tells stamp group images guid lines from to refused status ran old moments
        → IsHistory (Leaves told B.disks guid) (IsCall told B.disks guid) old moments }
{
    a_group_is_assembled_at_every_moment_of_its_history::<B>();
}
