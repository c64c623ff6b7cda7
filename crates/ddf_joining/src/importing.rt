//! The import of another group: what it is, ready to be written, and how it is written: its group's disks first, those that join last.
//! docs/NEW-DISK.md#cut-short
ghost use Rattle.std.specs.Prelude.{◌≡◌, ◌⊎◌, ◌+◌, ◌&&◌, ◌∷◌, ℕ, [], false, length, Option, None, Ok, IfErr, IfOk, IfSome, OnErr, OnOk};
ghost use Rattle.std.specs.Option.{option_map_or};
ghost use Rattle.std.specs.Str.{bytes_eq};
ghost use Rattle.ddf_bytes.specs.Counts.{Rose};
ghost use Rattle.ddf_bay.specs.Moments.{SpendsOver, StopsLeave};
ghost use Rattle.ddf_bay.specs.Sectors.{IsLeft};
ghost use Rattle.ddf_config.specs.declared.refusal.Refusal.TheVariants.{NoGroup, Unsettled};
ghost use Rattle.ddf_config.specs.Refusals.{first_refusal, refuse_if};
ghost use Rattle.ddf_import.specs.Clash.{join_cause};
ghost use Rattle.ddf_update.specs.Changes.{AreChanged, IsLeftChangingAll, MayChangeAll, SlotChange};
ghost use Rattle.ddf_update.specs.Group.{IsOneOf, LieOnSlots};
ghost use Rattle.ddf_update.specs.Prepared.{all_calls, all_sectors};
ghost use Rattle.ddf_assembly.specs.Assembled.{IsAssembledGroup};
ghost use Rattle.ddf_steps.specs.Committed.{AreSettled, HaveSlots, LeavesSynced, slots_of, synced};
ghost use Rattle.ddf_joining.specs.Importing.{IsEarly, IsFinished, IsImportReadied, IsOfAnother, early_causes, first_causes, has_own, group_joined, join_slots, join_updates, last_cause};
ghost use Rattle.ddf_joining.specs.Joining.{config_joining, has_no_seats, has_strays, join_config, join_disks, joining};
ghost use Rattle.ddf_steps.specs.Ready.{is_spent};
ghost use Rattle.ddf_recovery.specs.Recovery.{config_recovered};
ghost use Rattle.ddf_seats.specs.Leading.{some};
ghost use Rattle.ddf_seats.specs.Seated.{seated};
ghost use Rattle.ddf_joining.specs.Telling.{IsMadeBehind};
ghost use Rattle.ddf_recovery.specs.Behind.{IsRecovered};
ghost use Rattle.ddf_steps.specs.Trying.{Follows};

use crate::joining::{bad_refusal, config_joining, config_recovered, numbers_differ};
use crate::sides::{Side, step_of_both};
use ddf_assembly::Group;
use ddf_bay::{Bay, DiskFault};
use ddf_bytes::{NoMemory, Seq};
use ddf_config::{Config, Refusal, Seat, first_refusal, refuse_if};
use ddf_recovery::{Ready, advance, any_stray, disks_behind, disks_of, first_step, recovery_spent};
use ddf_seats::{Disk, GroupFault};
use ddf_steps::{Step, is_spent, leading_disks, sync_seats, write_step};
use std::alloc::Global;
use std::marker::Model;

/// The join of another group's disks, with all sectors that it writes.
#[derive(Drop)]
pub struct ReadyJoin {
    pub(crate) step: Step,
    // The seats of the joining disks.
    pub(crate) joining: Seq<Seat>,
}

impl Model for ReadyJoin {
    ghost use Rattle.ddf_joining.specs.JoinValue.{JoinValue};

    ghost Value = { JoinValue };

    ghost view = { λ join. record { one = join.step; joining = join.joining } };
}

/// What an import is: the recovery of the group that is joined, with no step behind it, and then the join.
#[derive(Drop)]
pub struct ReadyImport {
    /// The recovery.
    pub recovery: Ready,
    /// The join.
    pub join: ReadyJoin,
}

/// What refuses an import before anything else: a group without a disk, or a disk that must not be written over.
fn first_cause(
    alloc: Global,
    native: &Group,
    disks: &[Disk],
    other: &Group,
    joining: &[Disk],
) -> Result<Option<Refusal>, NoMemory>
    requires native { disks.now ≡ seated native.now }
    requires other { joining.now ≡ seated other.now }
    ensures { IfOk result (λ refusal. refusal ≡ first_refusal
        (refuse_if (has_no_seats native.now other.now) NoGroup ∷ refuse_if (has_strays native.now other.now) Unsettled ∷ [])) }
{
    if disks.is_empty() || joining.is_empty() {
        return Ok(Some(Refusal::NoGroup));
    }
    let own = any_stray(alloc, native, disks)?;
    let its = any_stray(alloc, other, joining)?;
    Ok(refuse_if(own || its, Refusal::Unsettled))
}

/// Whether a disk, an array or an array's name of another group is there already.
fn clash_with(
    alloc: Global,
    native: &Group,
    config: &Config,
    other: &Group,
) -> Result<Option<Refusal>, NoMemory>
    requires { config.now ≡ config_recovered native.now }
    ensures { IfOk result (λ refusal. refusal ≡ join_cause (config_recovered native.now) (config_joining other.now)) }
{
    match config_joining(alloc, config, other).err() {
        None => Ok(None),
        Some(GroupFault::Refused(refusal)) => Ok(Some(refusal)),
        Some(GroupFault::SequenceSpent | GroupFault::Memory) => Err(NoMemory),
    }
}

/// Whether a disk's copy is of a group.
fn is_of(config: &Config, disk: &Disk) -> bool
    ensures { result ≡ bytes_eq disk.now.copy.header.guid config.now.group }
{
    disk.copy.header.guid == config.group
}

/// Whether that of a joining disk is of the group that is joined.
fn has_own(native: &Group, other: &Group, joining: &[Disk]) -> bool
    requires { joining.now ≡ seated other.now }
    ensures { result ≡ has_own native.now other.now }
{
    joining.iter().any(|disk| is_of(native.config(), disk))
}

/// What joins a group, by its configuration behind its recovery.
///
/// # Errors
/// `Refused` with the first of these: a group has no disk, or a disk must not be written over; a disk, an array or a name is there
/// already; two disks have tables of different sizes. `Memory` where memory ran out.
fn offered_to(
    alloc: Global,
    native: &Group,
    disks: &[Disk],
    config: &Config,
    other: &Group,
    joining: &[Disk],
) -> Result<Config, GroupFault>
    requires native { disks.now ≡ seated native.now }
    requires config { config.now ≡ config_recovered native.now }
    requires other { joining.now ≡ seated other.now }
    ensures { IsEarly native.now other.now result }
{
    let first = first_cause(alloc, native, disks, other, joining)?;
    if let Some(refusal) = first {
        return Err(GroupFault::Refused(refusal));
    }
    let offered = config_joining(alloc, config, other)?;
    let differ = numbers_differ(alloc, disks, joining)?;
    if differ {
        return Err(GroupFault::Refused(Refusal::Geometry));
    }
    Ok(offered)
}

fn has_disks(disks: &[Disk]) -> bool
    ensures { result ≡ some disks.now }
{
    !disks.is_empty()
}

/// Two groups with their disks, the configuration of the first behind its recovery, and what joins it.
#[derive(Drop)]
struct Both<'a> {
    group: &'a Group,
    disks: &'a [Disk<'a>],
    config: &'a Config,
    other: &'a Group,
    joining: &'a [Disk<'a>],
    offered: &'a Config,
}

/// The step by which they become one, behind this recovery of the first.
///
/// # Errors
/// `Refused` where the recovery leaves no disk, or with the table that has no room. `Memory` where memory ran out.
fn step_behind(
    alloc: Global,
    both: &Both,
    recovery: &Option<Step>,
    timestamp: u32,
) -> Result<Step, GroupFault>
    requires group { IsAssembledGroup both.now.group.now }
    requires other { IsAssembledGroup both.now.other.now }
    requires disks { both.now.disks.now ≡ seated both.now.group.now }
    requires joining { both.now.joining.now ≡ seated both.now.other.now }
    requires config { both.now.config.now ≡ config_recovered both.now.group.now }
    requires offered { both.now.offered.now ≡ config_joining both.now.other.now }
    requires some_disks { has_no_seats both.now.group.now both.now.other.now ≡ false }
    requires cause { join_cause (config_recovered both.now.group.now) (config_joining both.now.other.now) ≡ None }
    requires recovered { IsRecovered timestamp both.now.group.now [] (Ok recovery.now) }
    requires recovers { IfSome recovery.now (Follows (seated both.now.group.now)) }
    ensures made { IsMadeBehind timestamp both.now.group.now both.now.other.now result }
    ensures follows { IfOk result (Follows (join_disks timestamp both.now.group.now both.now.other.now)) }
{
    let behind = disks_behind(alloc, both.group, both.disks, recovery)?;
    if !has_disks(&behind) {
        return Err(GroupFault::Refused(Refusal::NoGroup));
    }
    let leaders = leading_disks(alloc, both.other.config(), both.joining)?;
    let native = Side {
        config: both.config,
        disks: &behind,
        leaders: &behind,
    };
    let other = Side {
        config: both.offered,
        disks: both.joining,
        leaders: &leaders,
    };
    step_of_both(alloc, &native, &other, timestamp)
}

/// Why they can't become one behind it, their sequence numbers last.
fn last_cause(
    group: &Group,
    other: &Group,
    recovery: &Option<Step>,
    step: &Step,
) -> Option<GroupFault>
    ensures { result ≡ last_cause (option_map_or (λ one. some group.now.absent && is_spent one.step) recovery.now false) other.now.seats step.now.step }
{
    if let Some(refusal) = bad_refusal(other.seats()) {
        return Some(GroupFault::Refused(refusal));
    }
    if recovery_spent(group, recovery) || is_spent(step) {
        return Some(GroupFault::SequenceSpent);
    }
    None
}

/// All is ready, unless what comes last refuses it.
fn finished(
    alloc: Global,
    group: &Group,
    other: &Group,
    recovery: Option<Step>,
    step: Step,
) -> Result<ReadyImport, GroupFault>
    ensures { IsFinished (option_map_or (λ one. some group.now.absent && is_spent one.step) recovery false) other.now.seats recovery step result }
{
    let fault = last_cause(group, other, &recovery, &step);
    if let Some(fault) = fault {
        return Err(fault);
    }
    let ready = ready_with(alloc, recovery, step, other.seats())?;
    Ok(ready)
}

/// The recovery of the first of two groups, and the join of the other's disks behind it.
fn import_of(alloc: Global, both: &Both, timestamp: u32) -> Result<ReadyImport, GroupFault>
    requires group { IsAssembledGroup both.now.group.now }
    requires other { IsAssembledGroup both.now.other.now }
    requires disks { both.now.disks.now ≡ seated both.now.group.now }
    requires joining { both.now.joining.now ≡ seated both.now.other.now }
    requires config { both.now.config.now ≡ config_recovered both.now.group.now }
    requires offered { both.now.offered.now ≡ config_joining both.now.other.now }
    requires early { first_refusal (early_causes both.now.group.now both.now.other.now) ≡ None }
    ensures readied { IsImportReadied result (joining timestamp both.now.group.now both.now.other.now) }
    ensures recovers { IfOk result (λ ready. IfSome ready.recovery.recovery (Follows (seated both.now.group.now))) }
    ensures none_behind { IfOk result (λ ready. ready.recovery.steps ≡ []) }
    ensures follows { IfOk result (λ ready. Follows (join_disks timestamp both.now.group.now both.now.other.now) ready.join.one) }
{
    let recovery = first_step(alloc, both.group, both.disks, &[], timestamp)?;
    let step = step_behind(alloc, both, &recovery, timestamp)?;
    finished(alloc, both.group, both.other, recovery, step)
}

/// Why another group's disks can't join this one, whatever their tables hold: the first of these. `NoGroup` where a group has no
/// disk. `Unsettled` where a disk of either group must not be written over. `Clash` where a disk, an array or a reference of the
/// other group is there, `NameTaken` where the name of one of its arrays is. `Unsettled` where the copy of a joining disk is of
/// this group, so that the disk may have moved here.
///
/// # Errors
/// Memory ran out.
pub fn refuses_join(
    alloc: Global,
    group: &Group,
    other: &Group,
) -> Result<Option<Refusal>, NoMemory>
    ensures first { IfOk result (λ refusal. refusal ≡ first_refusal (first_causes group.now other.now)) }

    // Where none does each disk that joins is of another group than the one that it is to be of.
    ensures of_another { IfOk result (λ refusal. refusal ≡ None → IsOfAnother (join_config group.now other.now) (seated other.now)) }
{
    let disks = disks_of(alloc, group)?;
    let joining = disks_of(alloc, other)?;
    let first = first_cause(alloc, group, &disks, other, &joining)?;
    let config = config_recovered(alloc, group)?;
    let clash = clash_with(alloc, group, &config, other)?;
    let own = refuse_if(has_own(group, other, &joining), Refusal::Unsettled);
    Ok(first_refusal(&[first, clash, own]))
}

/// The recovery of this group, and the join of another one's disks behind it, each with all sectors that it writes. Nothing is
/// written. The members of the other group that are absent are lost to it. Its other members and its arrays come last in the
/// tables, an array with a number that is taken under the least free one, and a missing member of this group to which no element
/// refers leaves. Each disk of both groups gets the configuration of both.
///
/// # Errors
/// `Refused` with the first of these. `NoGroup` where a group has no disk. `Unsettled` where a disk of either group must not be
/// written over. `Clash` where a disk, an array or a reference of the other group is there, `NameTaken` where the name of one of
/// its arrays is. `Geometry` where the tables of two disks have different sizes. `Full` where a table has no room for the
/// recovery. `NoGroup` where that leaves no disk. `Full` where a table has no room for the join. `BadBlocks` where a joining disk
/// lists one. `SequenceSpent` where a sequence number would pass the greatest. `Memory` where memory ran out.
pub fn ready_import(
    alloc: Global,
    group: &Group,
    other: &Group,
    timestamp: u32,
) -> Result<ReadyImport, GroupFault>
    requires assembled { IsAssembledGroup group.now }
    requires also { IsAssembledGroup other.now }
    ensures readied { IsImportReadied result (joining timestamp group.now other.now) }

    // What recovers the group comes first, and no step behind it but the join. It rewrites the disks of both groups as a change
    // does: each copy can stand where the one before it can.
    ensures recovers { IfOk result (λ ready. IfSome ready.recovery.recovery (Follows (seated group.now))) }
    ensures none_behind { IfOk result (λ ready. ready.recovery.steps ≡ []) }
    ensures follows { IfOk result (λ ready. Follows (join_disks timestamp group.now other.now) ready.join.one) }
{
    let disks = disks_of(alloc, group)?;
    let joining = disks_of(alloc, other)?;
    let config = config_recovered(alloc, group)?;
    let offered = offered_to(alloc, group, &disks, &config, other, &joining)?;
    let both = Both {
        group,
        disks: &disks,
        config: &config,
        other,
        joining: &joining,
        offered: &offered,
    };
    import_of(alloc, &both, timestamp)
}

/// Syncs each joining disk, so that nothing that an earlier call wrote is pending there, and then writes the join: this group's
/// disks in the order of their slots, and then those that join, in the same order. It makes the group what it is then. It takes
/// no memory.
///
/// # Errors
/// A write or a sync of a disk failed: the group stays as it was, and is assembled again before it is changed.
pub fn write_join<B: Bay>(group: &mut Group, bay: &mut B, join: ReadyJoin) -> Result<(), DiskFault>
    requires slots { HaveSlots (B.disks bay.old).sizes join.joining }
    requires lies { LieOnSlots (B.disks bay.old).sizes (join_slots join) (join_updates join) }
    ensures group { OnOk result (group.new ≡ group_joined group.old join) }
    ensures kept { OnErr result (group.new ≡ group.old) }

    // From entry to exit a stop leaves what it might have left before, or, once the joining slots were synced, each slot with its
    // old or its new copy, and one of them at most partly written. At Ok no other slot was written, and a stop leaves of the
    // joining slots what they hold.
    ensures any_moment { B.tells → (seat : ℕ → SlotChange) → MayChangeAll (synced (B.disks bay.old) (slots_of join.joining)) (join_slots join) seat (join_updates join)
        → StopsLeave (B.disks bay.old) (B.disks bay.new) (λ image. IsLeft (B.disks bay.old).may_hold image
        ⊎ IsLeftChangingAll (synced (B.disks bay.old) (slots_of join.joining)) (join_slots join) seat (join_updates join) image) }
    ensures changed { B.tells → (seat : ℕ → SlotChange) → MayChangeAll (synced (B.disks bay.old) (slots_of join.joining)) (join_slots join) seat (join_updates join)
        → OnOk result (AreChanged (synced (B.disks bay.old) (slots_of join.joining)) (B.disks bay.new) (join_slots join) seat (join_updates join) (length (join_slots join))) }
    ensures settled { B.tells → (seat : ℕ → SlotChange) → MayChangeAll (synced (B.disks bay.old) (slots_of join.joining)) (join_slots join) seat (join_updates join)
        → OnOk result (AreSettled (B.disks bay.new) join.joining (length join.joining)) }

    // After an error all that a stop may leave is as before, or all is as behind the syncs.
    ensures ends { B.tells → (seat : ℕ → SlotChange) → MayChangeAll (synced (B.disks bay.old) (slots_of join.joining)) (join_slots join) seat (join_updates join)
        → OnErr result (LeavesSynced (B.disks bay.old) (B.disks bay.new) (slots_of join.joining) (join_slots join) seat (join_updates join)) }
    ensures reads { (B.disks bay.new).failed_reads ≡ (B.disks bay.old).failed_reads }
    ensures spends { SpendsOver (B.disks bay.old) (B.disks bay.new) (all_sectors (join_updates join)) (length join.joining + all_calls (join_updates join)) }
    ensures ok { OnOk result ((B.disks bay.new).failed_writes ≡ (B.disks bay.old).failed_writes) }
    ensures failed { IfErr result (λ e. (IsOneOf (slots_of join.joining) e.0 ⊎ IsOneOf (join_slots join) e.0) × Rose ((B.disks bay.old).failed_writes e.0) ((B.disks bay.new).failed_writes e.0)) }
{
    sync_seats(bay, join.joining.items())?;
    write_step(bay, &join.step)?;
    advance(group, join.step);
    Ok(())
}

/// What is ready: a recovery, with no step behind it, and a join.
fn ready_with(
    alloc: Global,
    recovery: Option<Step>,
    step: Step,
    seats: &[Seat],
) -> Result<ReadyImport, NoMemory>
    ensures { IfOk result (λ ready. (ready.recovery ≡ record { recovery = recovery; steps = [] }) × (ready.join ≡ record { one = step; joining = seats.now })) }
{
    let joining = Vec::from_slice(alloc, seats)?;
    Ok(ReadyImport {
        recovery: Ready::alone(alloc, recovery),
        join: ReadyJoin {
            step,
            joining: Seq::new(joining),
        },
    })
}
