//! Laws of calls and of the data of arrays: functions that do nothing, whose contracts are the laws.
ghost use Rattle.std.specs.Prelude.{◌≡◌, ◌<◌, ◌^◌, ◌∷◌, [], ℕ, Bool, true, List, length, Option, None, Some, Result, Ok, option_to_list};
ghost use Rattle.ddf_bytes.specs.declared.stamp.Stamp.{Stamp};
ghost use Rattle.ddf_bay.specs.Sectors.{Image, IsLeft};
ghost use Rattle.ddf_config.specs.declared.array.Array.{Array};
ghost use Rattle.ddf_config.specs.declared.seat.Seat.{Seat};
ghost use Rattle.ddf_config.specs.Configuration.{Configuration};
ghost use Rattle.ddf_plan.specs.declared.change.Change.{Change};
ghost use Rattle.ddf_plan.specs.declared.change.Change.TheVariants.{Create};
ghost use Rattle.ddf_array.specs.Losing.{AreFewer};
ghost use Rattle.ddf_array.specs.Sound.{AreSectors};
ghost use Rattle.ddf_data_array.specs.Allowed.{Allowed, any_bytes};
ghost use Rattle.ddf_data_group.specs.Grouped.{Promises};
ghost use Rattle.ddf_history.specs.Groups.{groups, has_current};
ghost use Rattle.ddf_history.specs.Issued.{IsSince, Past};
ghost use Rattle.ddf_seats.specs.Group.{GroupValue};
ghost use Rattle.ddf_assembly.specs.Group.{group_of};
ghost use Rattle.ddf_recovery.specs.Ready.{readied};
ghost use Rattle.ddf_recovery.specs.Recovery.{config_recovered};
ghost use Rattle.ddf_assembly.specs.Slots.{newest_from};
ghost use Rattle.ddf_steps.specs.Steps.{Step};
ghost use Rattle.ddf_history_steps.specs.Going.{Ends, Goes, IsAdmitted, IsOver, changes_in};
ghost use Rattle.ddf_history_steps.specs.Kept.{is_read, is_slot};
ghost use Rattle.ddf_data_history.specs.Carried.{CarriesData, IsAllData, Stays};
ghost use Rattle.ddf_data_history.specs.Promised.{AreAlone, KeepsData, seats_in, with_promise};
ghost use Rattle.ddf_data_disks.specs.Seats.{AreAlikeSeats, AreOnSlots};
ghost use Rattle.ddf_words.specs.declared.command.Wish.{Wish};
ghost use Rattle.ddf_request.specs.Named.{named_array};
ghost use Rattle.ddf_request.specs.Request.{request_of};
ghost use Rattle.ddf_answer.specs.declared.failure.Failure.{Failure};
ghost use Rattle.ddf_answer.specs.Call.{answer_of, work_of};
ghost use Rattle.ddf_group_commands.specs.Change.{HasChanged, Request, is_done, steps_of};
ghost use Rattle.ddf_group_commands.specs.Others.{LeavesOthers};
ghost use Rattle.ddf_group_commands.specs.Requests.{request_for};
ghost use Rattle.ddf_read_commands.specs.Read.{HasRead, IsReadDone, Outcome};
ghost use Rattle.ddf_data_calls.specs.Calls.{AdmitsCall, AreMade, KeepsBoth, MayAsk, MayWish, left_over};
ghost use Rattle.ddf_data_calls.specs.Floors.{HaveFloors};
ghost use Rattle.ddf_data_calls.specs.Reading.{AdmitsRead, HasReturned, MayBe, Means, blocks_printed};

use ddf_bay::Bay;
use ddf_bytes::Sink;

/// A read that a history of its group and of the group's data admits prints of each block of the named array bytes that the block may have: those of its
/// last acknowledged write, and of one whose write was interrupted the old or the new ones. So it is whichever reads fail on the way, and where it stops
/// behind the first blocks.
pub fn a_read_prints_what_was_acknowledged<B: Bay, K: Sink>()
    ensures blocks { (told : B.tells) (group : List ℕ) (past : Past (groups group)) (floor : ℕ → ℕ) → ((slot : ℕ) → floor slot < 2 ^ 64) → (promises : Promises)
        → (old new : B) (named : Option (List ℕ)) (word : List ℕ) (start count : ℕ) (outcome : Outcome)
        → (read : HasRead (work_of B.tells (B.disks old) (B.disks new)) named word start count outcome) → Means group read.newest named
        → AdmitsRead group past floor promises (B.disks old) read.left
        → (found : GroupValue) → group_of read.newest named ≡ Ok found → (guid : List ℕ) (array : Array) (allowed : Allowed)
        → named_array found.config.arrays word ≡ Some (guid, array) → promises guid ≡ Some allowed → MayBe allowed start (blocks_printed outcome) }

    // With status 0 it printed all of the blocks that were asked for, and nothing else.
    ensures done { (told : B.tells) (group : List ℕ) (past : Past (groups group)) (floor : ℕ → ℕ) → ((slot : ℕ) → floor slot < 2 ^ 64) → (promises : Promises)
        → (old new : B) (named : Option (List ℕ)) (word : List ℕ) (start count : ℕ) (sink_old sink_new : K) (status : ℕ)
        → (read : IsReadDone (work_of B.tells (B.disks old) (B.disks new)) named word start count (answer_of K.tells (K.output sink_old) (K.output sink_new) status)) → status ≡ 0
        → Means group read.has.newest named → AdmitsRead group past floor promises (B.disks old) read.has.left
        → HasReturned group past promises read.has.newest named word start count (answer_of K.tells (K.output sink_old) (K.output sink_new) status) }
{}

/// However far the changes of a call on a group have come, the data of the group are kept in each image in which they were, where each change has what
/// it asks for.
pub fn the_changes_of_a_call_keep_the_data()
    ensures { (group : List ℕ) (past now : Past (groups group)) (floor : ℕ → ℕ) → ((slot : ℕ) → floor slot < 2 ^ 64) → AreAlone group past
        → (readable : ℕ → Bool) (found : GroupValue) (changes : List Configuration) (done : Bool) → Ends group past readable found changes done now
        → (image : Image) (promises : Promises) → AreMade (seats_in group (left_over group past readable found) floor) image promises found.config changes
        → KeepsData group past floor image promises → KeepsData group now floor image promises }
{}

/// What the program's words ask of a group for a change is what the change asks for.
pub fn what_a_wish_asks_for()
    ensures request { (slots : ℕ) (config : Configuration) (seats : List Seat) (linux : List ℕ) (stamp : Stamp) (wish : Wish) (asked : Option Change) → request_of slots config seats linux stamp wish ≡ Ok asked
        → request_for slots stamp wish linux config seats ≡ Ok (option_to_list asked) }
    ensures may { (slots : ℕ) (config : Configuration) (seats : List Seat) (linux : List ℕ) (stamp : Stamp) (wish : Wish) (asked : Option Change) → request_of slots config seats linux stamp wish ≡ Ok asked
        → (image : Image) (promises : Promises) → MayWish config seats stamp image promises wish → MayAsk config seats image promises asked }
{}

/// A call of a command that changes a group, and that a history of the group and of its data admits, keeps both at once: whatever a stop leaves, at any
/// moment since the call's entry and at its end, shows what it should and keeps the data of the group, for the changes as they are then issued, where its
/// one change, if it makes one, has what it asks for in whatever a stop might have left before.
pub fn a_call_keeps_its_history_and_its_data<B: Bay>()
    ensures both { (told : B.tells) (group : List ℕ) (past : Past (groups group)) (floor : ℕ → ℕ) → ((slot : ℕ) → floor slot < 2 ^ 64) → (promises : Promises)
        → (old new : B) (named : Option (List ℕ)) (timestamp : ℕ) (request : Request) (outcome : Result ℕ Failure)
        → (changed : HasChanged (work_of B.tells (B.disks old) (B.disks new)) named timestamp request outcome)
        → (found : GroupValue) → group_of changed.taken.newest named ≡ Ok found → found.config.group ≡ group → (steps : List Step) → steps_of found timestamp request ≡ Ok steps
        → AdmitsCall group past floor promises (B.disks old) changed.taken.left found
        → (asked : Option Change) → request (config_recovered found) found.seats ≡ Ok (option_to_list asked)
        → ((image : Image) → IsLeft (B.disks old).may_hold image → MayAsk (config_recovered found) found.seats image promises asked)
        → KeepsBoth group (B.disks old) (B.disks new) floor (Goes group past (is_read changed.taken.left) found (changes_in found steps))
        (Ends group past (is_read changed.taken.left) found (changes_in found steps) (is_done outcome)) (Stays promises) (Stays promises) }

    // So it carries the data of the group, where all that a stop left on the way has sectors of 512 bytes.
    ensures carries { (told : B.tells) (group : List ℕ) (past : Past (groups group)) (floor : ℕ → ℕ) → ((slot : ℕ) → floor slot < 2 ^ 64) → (promises : Promises)
        → (old new : B) (named : Option (List ℕ)) (timestamp : ℕ) (request : Request) (outcome : Result ℕ Failure)
        → (changed : HasChanged (work_of B.tells (B.disks old) (B.disks new)) named timestamp request outcome)
        → (found : GroupValue) → group_of changed.taken.newest named ≡ Ok found → found.config.group ≡ group → (steps : List Step) → steps_of found timestamp request ≡ Ok steps
        → AdmitsCall group past floor promises (B.disks old) changed.taken.left found
        → (asked : Option Change) → request (config_recovered found) found.seats ≡ Ok (option_to_list asked)
        → ((image : Image) → IsLeft (B.disks old).may_hold image → MayAsk (config_recovered found) found.seats image promises asked)
        → ((t : ℕ) (image : Image) → (B.disks new).left_since t image → AreSectors image)
        → CarriesData group (B.disks old) (B.disks new) floor promises (Goes group past (is_read changed.taken.left) found (changes_in found steps))
        (Ends group past (is_read changed.taken.left) found (changes_in found steps) (is_done outcome)) Stays Stays }
{}

/// Once a call has created an array, its blocks may have any bytes: in whatever a stop may leave of it then, where its sectors have 512 bytes.
pub fn a_created_array_may_have_any_bytes()
    ensures { (group : List ℕ) (past now : Past (groups group)) (readable : ℕ → Bool) (found : GroupValue) (guid : List ℕ) (array : Array) (timestamp : ℕ) (steps : List Step)
        → readied found (Create guid array ∷ []) timestamp ≡ Ok steps → IsOver group past readable found (changes_in found steps) now
        → (floor : ℕ → ℕ) (image : Image) (promises : Promises) → AreSectors image → KeepsData group now floor image promises
        → KeepsData group now floor image (with_promise promises guid (Some any_bytes)) }
{}

/// Where less is promised the data are kept: of an array that is deleted, or is accepted though it isn't consistent, nothing is promised any more.
pub fn fewer_promises_are_kept()
    ensures fewer { (group : List ℕ) (past : Past (groups group)) (floor : ℕ → ℕ) (image : Image) (promises fewer : Promises)
        → ((guid : List ℕ) (allowed : Allowed) → fewer guid ≡ Some allowed → promises guid ≡ Some allowed) → KeepsData group past floor image promises → KeepsData group past floor image fewer }
    ensures dropped { (group : List ℕ) (past : Past (groups group)) (floor : ℕ → ℕ) (image : Image) (promises : Promises) (guid : List ℕ)
        → KeepsData group past floor image promises → KeepsData group past floor image (with_promise promises guid None) }
{}

/// A call that writes these slots alone, none of which has the disk of a current member since the last acknowledged change, keeps the data of the group:
/// one that is refused, or only reads, one that takes another group, and a `label`.
pub fn a_call_on_other_disks_keeps_the_data<B: Bay>()
    ensures any_moment { (group : List ℕ) (past : Past (groups group)) (floor : ℕ → ℕ) → ((slot : ℕ) → floor slot < 2 ^ 64) → (promises : Promises) (old new : B) (written : List ℕ)
        → LeavesOthers (B.disks old) (B.disks new) written → IsLeft (B.disks old).may_hold (B.disks old).held
        → ((slot number : ℕ) (config : Configuration) → is_slot written slot ≡ true → IsSince past.changes number config → has_current config (past.disk slot) ≡ true → ⊥)
        → IsAllData group past floor (B.disks old) promises → (image : Image) → (B.disks new).left_since (B.disks old).moment image → AreSectors image
        → KeepsData group past floor image promises }
    ensures ends { (group : List ℕ) (past : Past (groups group)) (floor : ℕ → ℕ) → ((slot : ℕ) → floor slot < 2 ^ 64) → (promises : Promises) (old new : B) (written : List ℕ)
        → LeavesOthers (B.disks old) (B.disks new) written → IsLeft (B.disks old).may_hold (B.disks old).held
        → ((slot number : ℕ) (config : Configuration) → is_slot written slot ≡ true → IsSince past.changes number config → has_current config (past.disk slot) ≡ true → ⊥)
        → IsAllData group past floor (B.disks old) promises → IsAllData group past floor (B.disks new) promises }
{}

/// Each sector of what a stop may leave has 512 bytes, and so has each that the disks hold, where it is told what a stop may leave.
pub fn what_a_stop_leaves_has_whole_sectors<B: Bay>(bay: &B)
    ensures left { (image : Image) → IsLeft (B.disks bay.now).may_hold image → AreSectors image }
    ensures held { (B.disks bay.now).tells_left → AreSectors (B.disks bay.now).held }
{}

/// No slot of a seat of a group that a call found is lost, and each seat has the floor of its slot. Once the absent members are lost, its seats are those that
/// the history lists.
pub fn a_calls_seats_are_those_of_its_history<B: Bay>()
    ensures on_slots { (group : List ℕ) (past : Past (groups group)) (floor : ℕ → ℕ) (bay : B) (left : List Bool) (named : Option (List ℕ)) (found : GroupValue)
        → length left ≡ length (B.disks bay).sizes → group_of (newest_from (B.disks bay) 0 left) named ≡ Ok found → found.config.group ≡ group
        → IsAdmitted group past (B.disks bay) left found → HaveFloors group past (B.disks bay) floor → AreOnSlots group past floor found.seats }
    ensures fewer { (group : List ℕ) (past : Past (groups group)) (floor : ℕ → ℕ) (bay : B) (left : List Bool) (named : Option (List ℕ)) (found : GroupValue)
        → length left ≡ length (B.disks bay).sizes → group_of (newest_from (B.disks bay) 0 left) named ≡ Ok found → found.config.group ≡ group
        → IsAdmitted group past (B.disks bay) left found → HaveFloors group past (B.disks bay) floor → AreFewer (seats_in group past floor found.config) found.seats }
    ensures recovered { (group : List ℕ) (past : Past (groups group)) (floor : ℕ → ℕ) (bay : B) (left : List Bool) (named : Option (List ℕ)) (found : GroupValue)
        → length left ≡ length (B.disks bay).sizes → group_of (newest_from (B.disks bay) 0 left) named ≡ Ok found → found.config.group ≡ group
        → IsAdmitted group past (B.disks bay) left found → HaveFloors group past (B.disks bay) floor
        → AreAlikeSeats found.seats (seats_in group (left_over group past (is_read left) found) floor (config_recovered found)) }
{}
