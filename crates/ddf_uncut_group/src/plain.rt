//! Laws of the copies of a new group's disks: functions that do nothing, whose contracts are the laws.
ghost use Rattle.std.specs.Prelude.{◌≡◌, ◌<◌, ◌≤◌, ◌+◌, ◌-◌, ◌*◌, ◌^◌, ℕ, [], false, fold, List, None, Option, Ok, Some, length, map, replicate, slice_index, slice_set};
ghost use Rattle.std.specs.List.{AllByRecursion, sum_by};
ghost use Rattle.std.specs.Option.{option_to_list};
ghost use Rattle.ddf_bay.specs.Memory.{blank, disks_of, state_of};
ghost use Rattle.ddf_bay.specs.declared.memory.MemoryBay.{MemoryBay};
ghost use Rattle.ddf_bytes.specs.declared.stamp.Stamp.{Stamp};
ghost use Rattle.ddf_header.specs.declared.kind.Revision.{Revision};
ghost use Rattle.ddf_config.specs.Configuration.{Configuration};
ghost use Rattle.ddf_copy.specs.declared.copy.DiskCopy.{DiskCopy};
ghost use Rattle.ddf_copy.specs.declared.newest_copy.Newest.{Newest};
ghost use Rattle.ddf_copy.specs.declared.which.Which.{Which};
ghost use Rattle.ddf_copy.specs.Headers.{written_as};
ghost use Rattle.ddf_copy.specs.Runs.{parts_of};
ghost use Rattle.ddf_update.specs.Group.{HaveFirstCopies};
ghost use Rattle.ddf_update.specs.declared.new_layout.NewLayout.TheVariants.{Small};
ghost use Rattle.ddf_update.specs.NewCopies.{new_copy, reference_at};
ghost use Rattle.ddf_update.specs.NewLayouts.{copy_length, least_sectors, members_of, rows_of, workspace_back};
ghost use Rattle.ddf_plan.specs.declared.change.Change.{Change};
ghost use Rattle.ddf_plan.specs.Causes.{causes};
ghost use Rattle.ddf_plan.specs.Floors.{extents_refusal};
ghost use Rattle.ddf_rewrite.specs.Before.{Before};
ghost use Rattle.ddf_rewrite.specs.Copies.{changed_copy};
ghost use Rattle.ddf_rewrite.specs.Room.{full_after_change};
ghost use Rattle.ddf_seats.specs.declared.seated.Seated.{Seated};
ghost use Rattle.ddf_steps.specs.Full.{full_of};
ghost use Rattle.ddf_seats.specs.Group.{GroupValue, bad_count, floor_of, seat_of};
ghost use Rattle.ddf_steps.specs.Ready.{group_after};
ghost use Rattle.ddf_recovery.specs.Ready.{readied};
ghost use Rattle.ddf_recovery.specs.Recovery.{config_lost, full_of_recovery, lost_step, recovery_of};
ghost use Rattle.ddf_steps.specs.Refusing.{step_refusal};
ghost use Rattle.ddf_seats.specs.Seated.{seated, seats_in};
ghost use Rattle.ddf_steps.specs.Steps.{Step, config_after, step_of};
ghost use Rattle.ddf_seats.specs.Seated.{levelled};
ghost use Rattle.ddf_disk_commands.specs.Label.{label_copy, label_sectors, label_slots};
ghost use Rattle.ddf_disk_commands.specs.LabelRefusal.{label_refusal};
ghost use Rattle.ddf_uncut_group.specs.Labelled.{labelled_config, labelled_group, labelled_newest};
ghost use Rattle.ddf_uncut_group.specs.Plain.{ArePlain, HasRoom, HavePlain, IsPlain};
ghost use Rattle.ddf_uncut_group.specs.Settled.{AreSettledAs};

use ddf_bay::Bay;

/// The copies of a new group's disks are plain, and stay so: as they are read in either place, with what a change or a loss makes of
/// them, and so with all that a command writes.
pub fn copies_of_a_new_group_stay_plain()
    ensures new { (revision : Revision) (stamp : Stamp) (sizes : List ℕ) (place : ℕ) → IsPlain (slice_index sizes place) (new_copy Small revision stamp sizes place) }
    ensures written { (size : ℕ) (copy : DiskCopy) (which : Which) → IsPlain size copy → IsPlain size (written_as copy which) }
    ensures changed { (size : ℕ) (old : DiskCopy) (leaders : Before) (config : Configuration) (timestamp : ℕ) → IsPlain size old → IsPlain size (changed_copy old leaders config timestamp) }
    ensures step { (sizes : List ℕ) (timestamp : ℕ) (config : Configuration) (disks : List Seated) (change : Change) → ArePlain sizes disks
        → ArePlain sizes (step_of timestamp config disks change).disks }
    ensures loss { (sizes : List ℕ) (timestamp : ℕ) (group : GroupValue) → ArePlain sizes (seated group) → ArePlain sizes (lost_step timestamp group).disks }
    ensures steps { (sizes : List ℕ) (group : GroupValue) (changes : List Change) (timestamp : ℕ) (steps : List Step) → ArePlain sizes (seated group)
        → readied group changes timestamp ≡ Ok steps → AllByRecursion (λ step. ArePlain sizes step.disks) steps }
    ensures levelled { (sizes : List ℕ) (disks : List Seated) → ArePlain sizes disks → ArePlain sizes (map levelled disks) }
{}

/// The newest copies of slots are plain once the slots were labelled, and stay so behind a step of plain disks, behind all steps that a command writes,
/// and where a slot is left out. Then those of a group's disks are.
pub fn newest_copies_stay_plain()
    ensures labelled { (revision : Revision) (stamp : Stamp) (sizes : List ℕ) → HavePlain sizes (labelled_newest revision stamp sizes) }
    ensures after { (sizes : List ℕ) (group : GroupValue) (step : Step) → HavePlain sizes group.newest → ArePlain sizes step.disks
        → HavePlain sizes (group_after group step).newest }
    ensures behind { (sizes : List ℕ) (group : GroupValue) (changes : List Change) (timestamp : ℕ) (steps : List Step) → HavePlain sizes group.newest
        → readied group changes timestamp ≡ Ok steps → HavePlain sizes (fold group_after group steps).newest }
    ensures without { (sizes : List ℕ) (newest : List (Option Newest)) (left : ℕ) → HavePlain sizes newest → HavePlain sizes (slice_set newest left None) }
    ensures seats { (sizes : List ℕ) (group : GroupValue) → HavePlain sizes group.newest → ArePlain sizes (seated group) }
{}

/// What extents may take of a disk with a plain copy ends at its workspace, and no block of it is known as bad: so its seat is known. The parts of a copy are all
/// of its sectors but its header.
pub fn what_a_plain_copy_is()
    ensures floor { (size : ℕ) (copy : DiskCopy) → IsPlain size copy → floor_of copy ≡ size - workspace_back Small }
    ensures bad { (size : ℕ) (copy : DiskCopy) → IsPlain size copy → bad_count copy ≡ 0 }
    ensures seat { (size slot : ℕ) (copy : DiskCopy) → IsPlain size copy
        → seat_of slot copy ≡ record { reference = copy.disk_data.reference; slot = slot; floor = size - workspace_back Small; bad = 0 } }
    ensures sectors { (size : ℕ) (copy : DiskCopy) → IsPlain size copy → sum_by (λ part. part.length) (parts_of copy.header.geometry) ≡ copy_length Small - 1 }
{}

/// What was readied for a group has no more steps than there are changes, and a recovery where one is left; each writes no more disks than the group has seats. A
/// plain disk that a step writes is written as many sectors as one that is labelled: each of its two copies once, each header twice, and the anchor.
pub fn steps_of_plain_disks_cost_few_sectors()
    ensures counted { (group : GroupValue) (changes : List Change) (timestamp : ℕ) (steps : List Step) → readied group changes timestamp ≡ Ok steps
        → length steps ≤ length (option_to_list (recovery_of timestamp group)) + length changes }
    ensures seats { (group : GroupValue) (changes : List Change) (timestamp : ℕ) (steps : List Step) → readied group changes timestamp ≡ Ok steps
        → AllByRecursion (λ step. length step.disks ≤ length group.seats) steps }
    ensures sectors { (sizes : List ℕ) (disks : List Seated) → ArePlain sizes disks
        → sum_by (λ disk. 2 * (sum_by (λ part. part.length) (parts_of disk.copy.header.geometry) + 2) + 1) disks ≡ label_sectors Small * length disks }
{}

/// No table is full where plain copies get a configuration that has no more than a new disk has room for.
pub fn a_plain_copy_has_room()
    ensures one { (size : ℕ) (old : DiskCopy) (leaders : Before) (config : Configuration) (timestamp : ℕ) → IsPlain size old → HasRoom config
        → full_after_change old leaders config timestamp ≡ None }
    ensures all { (sizes : List ℕ) (timestamp : ℕ) (leaders : Before) (config : Configuration) (disks : List Seated) → ArePlain sizes disks → HasRoom config
        → full_of timestamp leaders config disks ≡ None }
{}

/// Nothing refuses a change of plain disks but what its configuration and its seats do, where the tables have room for what it gives: as they have for what a
/// loss gives, and for the group of disks that were just labelled.
pub fn a_change_of_plain_disks_has_room()
    ensures step { (sizes : List ℕ) (timestamp : ℕ) (config : Configuration) (disks : List Seated) (change : Change) → ArePlain sizes disks → 0 < length disks
        → HasRoom (config_after config change) → causes (Some (members_of Small)) config change (seats_in disks) ≡ None
        → extents_refusal config change (seats_in disks) (seats_in disks) ≡ None → step_refusal timestamp None config disks change ≡ None }
    ensures recovery { (sizes : List ℕ) (timestamp : ℕ) (group : GroupValue) → ArePlain sizes (seated group) → HasRoom (config_lost group) → group.lagging ≡ []
        → full_of_recovery timestamp group ≡ None }
    ensures labelled { (stamp : Stamp) (sizes : List ℕ) → length sizes ≤ rows_of Small → HasRoom (labelled_config stamp sizes) }
{}

/// The disks of a bay of which every slot was labelled, no more than a small group has, are the new group, settled: each slot is a seat, and each disk
/// a member that is no spare, with the sectors before its workspace.
pub fn labelled_disks_are_a_settled_group<B: Bay>()
    ensures { (revision : Revision) (stamp : Stamp) (old new : B) → length (B.disks old).sizes ≤ rows_of Small → label_refusal false (B.disks old).sizes (B.disks old).held [] ≡ None
        → AllByRecursion (λ size. size < 2 ^ 64) (B.disks old).sizes
        → HaveFirstCopies (B.disks old) (B.disks new) (label_slots (B.disks old).sizes []) (label_copy false revision stamp (B.disks old).sizes []) (length (label_slots (B.disks old).sizes []))
        → AreSettledAs (B.disks old).sizes (B.disks new).held (replicate (length (B.disks old).sizes) false) (labelled_group revision stamp (B.disks old).sizes) }
{}

/// The references of labelled disks are distinct, and none is the one that names no disk.
pub fn references_of_labelled_disks_are_distinct()
    ensures differ { (stamp : Stamp) (one other : ℕ) → reference_at stamp one ≡ reference_at stamp other → one ≡ other }
    ensures named { (stamp : Stamp) (place : ℕ) → place < rows_of Small → reference_at stamp place < 2 ^ 32 - 1 }
{}

/// Nothing refuses to label all slots of a bay in memory that was just made, where these are few and large.
pub fn disks_of_zeros_may_be_labelled()
    ensures { (bay : MemoryBay) (sizes : List ℕ) (writes : ℕ) (failing : List ℕ) (stop_after : Option ℕ) → state_of bay ≡ blank sizes writes failing stop_after
        → 0 < length sizes → length sizes ≤ rows_of Small → AllByRecursion (λ size. least_sectors Small ≤ size) sizes → label_refusal false (disks_of bay).sizes (disks_of bay).held [] ≡ None }
{}
