//! Laws of histories: functions that do nothing, whose contracts are the laws.
ghost use Rattle.std.specs.Prelude.{◌≡◌, ◌⊎◌, ◌<◌, ◌≤◌, ℕ, Bool, true, false, List, None, Some, slice_get};
ghost use Rattle.std.specs.Str.{bytes_eq};
ghost use Rattle.ddf_copy.specs.declared.copy.DiskCopy.{DiskCopy};
ghost use Rattle.ddf_copy.specs.Written.{CanBeCopy};
ghost use Rattle.ddf_config.specs.Configuration.{Configuration};
ghost use Rattle.ddf_plan.specs.Changes.{changed_at};
ghost use Rattle.ddf_plan.specs.Lose.{is_among};
ghost use Rattle.ddf_plan.specs.declared.change.Change.{Change};
ghost use Rattle.ddf_plan.specs.declared.change.Change.TheVariants.{Fail, Lose};
ghost use Rattle.ddf_view.specs.View.{View, view_of};
ghost use Rattle.ddf_view.specs.Differ.{difference};
ghost use Rattle.ddf_rewrite.specs.Before.{Before};
ghost use Rattle.ddf_rewrite.specs.Changing.{CanChange, HasRoomFor};
ghost use Rattle.ddf_rewrite.specs.Copies.{changed_copy};
ghost use Rattle.ddf_rewrite.specs.Readable.{AreRebuilt, HasOwnNames};
ghost use Rattle.ddf_history.specs.Reading.{IsCopyOf, Scene, stands};
ghost use Rattle.ddf_history.specs.Groups.{Disk, Shows, ShowsFully, disk_of, groups, has_current, has_missing};
ghost use Rattle.ddf_history.specs.Issued.{Past, IsSince, acknowledge, is_away, issue, leave_out, take_off};
ghost use Rattle.ddf_history.specs.Leaders.{seen};
ghost use Rattle.ddf_history.specs.Promise.{IsKept};
ghost use Rattle.ddf_history.specs.Answer.{Answer, IsAnswer, IsReadable, HasMember, IsPromised};
ghost use Rattle.ddf_history.specs.Steps.{AllShow, AreWritten, DoRemain, GivesAfter, IsLast, JoinLast, MayFollow, MayJoin, MayWrite, OthersLast, OthersShow};
ghost use Rattle.ddf_history.specs.Calls.{AreAside, AreSure, IsAssembled, IsFound, IsFounded, IsStart, NoneAbsent};

/// With a current member read, assembly gives the last acknowledged configuration or a later
/// one. It may refuse only where a slot that has returned from a loss is read.
pub fn assembly_answers_a_configuration_since_the_last_acknowledged()
    ensures { (group : List ℕ) (past : Past (groups group)) (scene : Scene View) (readable : ℕ → Bool) (answer : Answer Configuration)
        → IsKept past scene → IsReadable past scene readable → HasMember past scene readable
        → IsAnswer (groups group) past.slots (seen readable scene) answer → IsPromised past readable answer }
{}

/// A disk that the last acknowledged configuration lists as a current member, and whose slot isn't lost, is a current member, as it is asked
/// that one is read: once a change of this engine is acknowledged, and before that too where its slot shows the group with that
/// configuration's sequence number or a later one.
pub fn a_listed_member_that_is_not_lost_is_a_current_member()
    ensures own { (group : List ℕ) (past : Past (groups group)) (scene : Scene View) → IsKept past scene → past.changes.own_from ≤ past.changes.acked
        → (slot : ℕ) (config : Configuration) → slice_get past.changes.issued past.changes.acked ≡ Some config → has_current config (past.disk slot) ≡ true
        → past.lost slot ≡ false → (readable : ℕ → Bool) → readable slot ≡ true → HasMember past scene readable }
    ensures leads { (group : List ℕ) (past : Past (groups group)) (scene : Scene View) → IsKept past scene
        → (slot : ℕ) (config : Configuration) → slice_get past.changes.issued past.changes.acked ≡ Some config → has_current config (past.disk slot) ≡ true
        → past.lost slot ≡ false → (copy : View) → IsCopyOf (scene slot) copy → stands (groups group) copy ≡ true → config.sequence ≤ copy.sequence
        → (readable : ℕ → Bool) → readable slot ≡ true → HasMember past scene readable }
{}

/// New copies of the last change, written to whichever of its seats, leave each slot showing what it should.
pub fn a_disk_write_keeps_what_each_slot_shows()
    ensures { (group : List ℕ) (past : Past (groups group)) (before after : Scene View) (number : ℕ) (config : Configuration) (seats : ℕ → Bool) (new : ℕ → View)
        → IsKept past before → MayWrite past before number config seats new → AreWritten seats new before after
        → JoinLast past seats new after → GivesAfter past number config after → IsKept past after }
{}

/// Where slots that show nothing of the group are written last, and each member that isn't written shows the configuration, disks that
/// join do so last.
pub fn disks_of_other_groups_that_are_written_last_join_last()
    ensures { (group : List ℕ) (past : Past (groups group)) (before after : Scene View) (number : ℕ) (config : Configuration) (seats : ℕ → Bool) (new : ℕ → View)
        → IsKept past before → MayWrite past before number config seats new → AreWritten seats new before after
        → OthersLast (groups group) seats new before after → OthersShow past before config seats → JoinLast past seats new after }
{}

/// The copies that a change gives its seats are what is asked of copies that are written: each names its disk and the
/// group, and shows the configuration, fully; and any two agree.
pub fn changed_copies_may_be_written()
    ensures names { (old : DiskCopy) (leaders : Before) (config : Configuration) (timestamp : ℕ)
        → disk_of (view_of (changed_copy old leaders config timestamp)) ≡ disk_of (view_of old) }
    ensures are_ours { (old : DiskCopy) (leaders : Before) (config : Configuration) (timestamp : ℕ)
        → bytes_eq config.group (view_of (changed_copy old leaders config timestamp)).group ≡ true }
    ensures show { (old : DiskCopy) (leaders : Before) (config : Configuration) (timestamp : ℕ) → CanChange old leaders config timestamp
        → CanBeCopy (changed_copy old leaders config timestamp) → Shows (view_of (changed_copy old leaders config timestamp)) config }
    ensures are_full { (old : DiskCopy) (leaders : Before) (config : Configuration) (timestamp : ℕ) → CanChange old leaders config timestamp
        → CanBeCopy (changed_copy old leaders config timestamp) → ShowsFully (view_of (changed_copy old leaders config timestamp)) config }
    ensures agree { (old other : DiskCopy) (leaders : Before) (config : Configuration) (timestamp : ℕ) → HasOwnNames config → AreRebuilt config
        → HasRoomFor old leaders config timestamp → HasRoomFor other leaders config timestamp
        → difference (view_of (changed_copy old leaders config timestamp)) (view_of (changed_copy other leaders config timestamp)) ≡ None }
{}

/// With its seats sure, a call drops the changes behind what it assembled, and issues the loss of absent members.
pub fn a_call_goes_on_from_what_it_assembled()
    ensures none_absent { (group : List ℕ) (past : Past (groups group)) (held scene : Scene View) (readable : ℕ → Bool) (number : ℕ) (config : Configuration)
        → IsAssembled past held readable config → IsSince past.changes number config → IsKept past scene
        → AreSure (groups group) readable held scene → NoneAbsent (groups group) readable held config → IsKept (take_off past number) scene }
    ensures absent { (group : List ℕ) (past : Past (groups group)) (held scene : Scene View) (readable : ℕ → Bool) (number : ℕ) (config loss : Configuration)
        → IsAssembled past held readable config → IsSince past.changes number config → IsKept past scene
        → AreSure (groups group) readable held scene → past.changes.own_from ≤ past.changes.acked → MayFollow (groups group) config loss
        → DoRemain (groups group) (λ slot. readable slot ≡ true) past.disk config loss → IsKept (issue (take_off (leave_out past readable config) number) loss) scene }
{}

/// A change may follow the last one, where all before it is acknowledged, or each member that isn't away remains one; it may take in other
/// disks once all before it is acknowledged.
pub fn a_change_is_issued_behind_the_last()
    ensures follows { (group : List ℕ) (past : Past (groups group)) (scene : Scene View) (number : ℕ) (last next : Configuration)
        → IsKept past scene → IsLast past.changes number last → MayFollow (groups group) last next
        → (number ≡ past.changes.acked) ⊎ DoRemain (groups group) (λ slot. is_away past slot ≡ false) past.disk last next → IsKept (issue past next) scene }
    ensures joins { (group : List ℕ) (past : Past (groups group)) (scene : Scene View) (last next : Configuration)
        → IsKept past scene → IsLast past.changes past.changes.acked last → MayJoin past scene last next → IsKept (issue past next) scene }
{}

/// The configuration after a change, whichever it is, may follow the one before it: no member becomes current, and one that
/// is missing stays so.
pub fn a_change_may_follow()
    ensures { (group : List ℕ) (config : Configuration) (change : Change) (sequence : ℕ)
        → config.sequence < sequence → MayFollow (groups group) config (changed_at config change sequence) }
{}

/// A current member that a change loses, or fails, is missing behind it.
pub fn a_lost_member_is_missing()
    ensures lost { (config : Configuration) (references : List ℕ) (sequence : ℕ) (disk : Disk) → has_current config disk ≡ true
        → is_among references disk.reference ≡ true → has_missing (changed_at config (Lose references) sequence) disk ≡ true }
    ensures failed { (config : Configuration) (sequence : ℕ) (disk : Disk) → has_current config disk ≡ true
        → has_missing (changed_at config (Fail disk.reference) sequence) disk ≡ true }
{}

/// The last change may be acknowledged where each of its members that is here shows it.
pub fn a_change_that_all_show_is_acknowledged()
    ensures { (group : List ℕ) (past : Past (groups group)) (scene : Scene View) (number : ℕ) (config : Configuration)
        → IsKept past scene → IsLast past.changes number config → AllShow past scene number config → IsKept (acknowledge past number) scene }
{}

/// A call on disks that are no members of the group keeps what each slot shows.
pub fn a_call_on_other_disks_keeps_what_each_slot_shows()
    ensures { (group : List ℕ) (past : Past (groups group)) (before after : Scene View)
        → IsKept past before → AreAside past before after → IsKept past after }
{}

/// A history starts with a new group, or with one found on disks from elsewhere.
pub fn a_history_starts_with_a_group()
    ensures founded { (group : List ℕ) (past : Past (groups group)) (scene : Scene View) (config : Configuration)
        → IsStart past config → IsFounded past scene config → IsKept past scene }
    ensures found { (group : List ℕ) (past : Past (groups group)) (scene : Scene View) (config : Configuration)
        → IsStart past config → IsFound past scene config → IsKept past scene }
{}
