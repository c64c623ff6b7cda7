//! What one change of a group makes of its configuration and of the copies of its disks.
ghost use Rattle.std.specs.Prelude.{◌≡◌, ◌++◌, ◌∷◌, [], None, List, filter, IfOk, OnOk};
ghost use Rattle.std.specs.List.{AllByRecursion};
ghost use Rattle.ddf_plan.specs.Arrays.{HasNewGuid};
ghost use Rattle.ddf_copy.specs.Written.{CanBeCopy};
ghost use Rattle.ddf_rewrite.specs.Before.{before};
ghost use Rattle.ddf_seats.specs.Seated.{seats_in, slots_in, is_adopted};
ghost use Rattle.ddf_plan.specs.Same.{same_flag};
ghost use Rattle.ddf_seats.specs.declared.seated.Seated.{Seated};
ghost use Rattle.ddf_steps.specs.Steps.{config_after, disks_after, in_order, mode_of, raised, rewritten};
ghost use Rattle.ddf_steps.specs.Full.{full_on, full_where_written};
ghost use Rattle.ddf_seats.specs.Changing.{AreCopies};
ghost use Rattle.ddf_steps.specs.Trying.{ArePrepared, CanTry};

use ddf_bytes::{NoMemory, Seq};
use ddf_config::{Config, Seat, is_current};
use ddf_copy::Which;
use ddf_plan::{Change, GREATEST_SEQUENCE, changed_at, steps_of};
use ddf_rewrite::changed_copy;
use ddf_seats::{Disk, Seated, Written};
use ddf_update::{Mode, Prepared, prepare};
use ddf_view::View;
use std::alloc::Global;
use std::marker::Model;

/// The configuration after a change, and each disk that it writes, with the copy that the disk gets and the update that writes it.
#[derive(Drop)]
pub struct Step {
    pub(crate) config: Config,
    pub(crate) disks: Vec<Seated>,
    pub(crate) seats: Seq<Seat>,
    pub(crate) slots: Vec<usize>,
    pub(crate) updates: Vec<Prepared>,
}

impl Model for Step {
    ghost use Rattle.std.specs.Prelude.{◌≡◌};
    ghost use Rattle.ddf_steps.specs.Ready.{ReadyStep};
    ghost use Rattle.ddf_seats.specs.Seated.{seats_in, slots_in};
    ghost use Rattle.ddf_steps.specs.Steps.{in_order};

    ghost Value = { ReadyStep };

    ghost view = { λ step. record {
      step = record { config = step.config; disks = step.disks.items };
      updates = step.updates.items;
    } };

    ghost invariant = { λ step. (step.seats ≡ seats_in step.disks.items) × (step.slots.items ≡ slots_in (in_order step.disks.items)) };
}

impl Step {
    ghost use Rattle.std.specs.Prelude.{◌≡◌};
    ghost use Rattle.ddf_seats.specs.Seated.{seats_in};

    /// The configuration after the change.
    pub fn config(&self) -> &Config
        ensures { result.now ≡ self.now.step.config }
    {
        &self.config
    }

    /// The disks that it writes, each with the copy that it gets.
    pub fn disks(&self) -> &[Seated]
        ensures { result.now ≡ self.now.step.disks }
    {
        self.disks.as_slice()
    }

    /// What it leaves once it was written.
    pub fn written(self) -> Written
        ensures config { result.config ≡ self.step.config }
        ensures seats { result.seats ≡ seats_in self.step.disks }
        ensures disks { result.disks.items ≡ self.step.disks }
    {
        Written {
            config: self.config,
            seats: self.seats,
            disks: self.disks,
        }
    }
}

/// The sequence number after so many steps. One past the greatest stands at the number behind the greatest.
pub fn raised(sequence: u32, steps: u32) -> u32
    ensures { result ≡ raised sequence steps }
{
    let next = u64::from(sequence) + u64::from(steps);
    next.min(u64::from(GREATEST_SEQUENCE) + 1) as u32
}

/// The configuration after a change.
pub fn config_after(alloc: Global, config: &Config, change: &Change) -> Result<Config, NoMemory>
    requires { HasNewGuid config.now.arrays change.now }
    ensures { IfOk result (λ next. next ≡ config_after config.now change.now) }
{
    let sequence = raised(config.sequence, steps_of(change));
    changed_at(alloc, config, change, sequence)
}

/// How a disk gets a copy of a configuration's group: as a change of its own group, or as another one.
pub fn mode_of(config: &Config, disk: &Disk) -> Mode
    ensures { result ≡ mode_of config.now disk.now }
{
    if disk.copy.header.guid == config.group {
        Mode::Change
    } else {
        Mode::Adopt
    }
}

/// A disk with the copy that a change to this configuration gives it.
fn rewritten(
    alloc: Global,
    disk: &Disk,
    leaders: &[View],
    config: &Config,
    timestamp: u32,
) -> Result<Seated, NoMemory>
    requires can { CanTry (before leaders.now) config.now disk.now }
    requires room { full_on (before leaders.now) config.now timestamp disk.now ≡ None }
    ensures { IfOk result (λ next. next ≡ rewritten (before leaders.now) config.now timestamp disk.now) }
{
    let mut copy = changed_copy(alloc, disk.copy, leaders, config, timestamp)?;
    copy.header = copy.closed_header(Which::Primary);
    Ok(Seated {
        seat: disk.seat,
        copy,
        last: disk.last,
        mode: mode_of(config, disk),
    })
}

/// The disks of current members, with the copies that a change to this configuration gives them.
#[tactic(auto, unfolding(crate::specs::Steps::disks_after))]
fn disks_after(
    alloc: Global,
    disks: &[Disk],
    leaders: &[View],
    config: &Config,
    timestamp: u32,
) -> Result<Vec<Seated>, NoMemory>
    requires can { AllByRecursion (CanTry (before leaders.now) config.now) disks.now }
    requires room { AllByRecursion (λ disk. full_where_written (before leaders.now) config.now timestamp disk ≡ None) disks.now }
    ensures { IfOk result (λ after. after.items ≡ disks_after timestamp (before leaders.now) config.now disks.now) }
{
    let mut after = Vec::new(alloc);
    for disk in disks {
        if is_current(&config.members, disk.seat.reference) {
            after.push(rewritten(alloc, disk, leaders, config, timestamp)?)?;
        }
    }
    Ok(after)
}

/// Whether a disk is written among those that are adopted, or among those that aren't.
fn is_turn(disk: &Seated, adopted: bool) -> bool
    ensures { result ≡ same_flag adopted (is_adopted disk.now) }
{
    adopted == disk.is_adopted()
}

/// Puts the update of a disk behind others, where the disk is adopted, or where it isn't.
fn put_update(
    alloc: Global,
    disk: &Seated,
    adopted: bool,
    updates: &mut Vec<Prepared>,
) -> Result<(), NoMemory>
    requires { CanBeCopy disk.now.copy }
    ensures { OnOk result ((before : List Seated) → ArePrepared before updates.old.items
        → ArePrepared (before ++ filter (λ one. same_flag adopted (is_adopted one)) (disk.now ∷ [])) updates.new.items) }
{
    if is_turn(disk, adopted) {
        updates.push(prepare(alloc, &disk.copy, disk.last, disk.mode)?)?;
        return Ok(());
    }
    Ok(())
}

/// Puts the updates of those disks that are adopted, or of those that aren't, behind others.
fn put_updates(
    alloc: Global,
    disks: &[Seated],
    adopted: bool,
    updates: &mut Vec<Prepared>,
) -> Result<(), NoMemory>
    requires { AreCopies disks.now }
    ensures { OnOk result ((before : List Seated) → ArePrepared before updates.old.items
        → ArePrepared (before ++ filter (λ disk. same_flag adopted (is_adopted disk)) disks.now) updates.new.items) }
{
    for disk in disks {
        put_update(alloc, disk, adopted, updates)?;
    }
    Ok(())
}

/// The update of each disk, in the order in which they are written.
fn updates_of(alloc: Global, disks: &[Seated]) -> Result<Vec<Prepared>, NoMemory>
    requires { AreCopies disks.now }
    ensures { IfOk result (λ updates. ArePrepared (in_order disks.now) updates.items) }
{
    let mut updates = Vec::with_capacity(alloc, disks.len())?;
    put_updates(alloc, disks, false, &mut updates)?;
    put_updates(alloc, disks, true, &mut updates)?;
    Ok(updates)
}

fn seats_of(alloc: Global, disks: &[Seated]) -> Result<Vec<Seat>, NoMemory>
    ensures { IfOk result (λ seats. seats.items ≡ seats_in disks.now) }
{
    let mut seats = Vec::with_capacity(alloc, disks.len())?;
    for disk in disks {
        seats.push(disk.seat)?;
    }
    Ok(seats)
}

/// Puts the slots of those disks that are adopted, or of those that aren't, behind others.
fn put_slots(disks: &[Seated], adopted: bool, slots: &mut Vec<usize>) -> Result<(), NoMemory>
    ensures { OnOk result (slots.new.items ≡ slots.old.items ++ slots_in (filter (λ disk. same_flag adopted (is_adopted disk)) disks.now)) }
{
    for disk in disks {
        if disk.is_adopted() == adopted {
            slots.push(disk.seat.slot)?;
        }
    }
    Ok(())
}

/// The slots of disks, in the order in which they are written.
fn slots_of(alloc: Global, disks: &[Seated]) -> Result<Vec<usize>, NoMemory>
    ensures { IfOk result (λ slots. slots.items ≡ slots_in (in_order disks.now)) }
{
    let mut slots = Vec::with_capacity(alloc, disks.len())?;
    put_slots(disks, false, &mut slots)?;
    put_slots(disks, true, &mut slots)?;
    Ok(slots)
}

/// The step to this configuration that writes these disks.
pub fn step_with(alloc: Global, config: Config, disks: Vec<Seated>) -> Result<Step, NoMemory>
    requires { AreCopies disks.items }
    ensures step { IfOk result (λ made. made.step ≡ record { config = config; disks = disks.items }) }
    ensures prepared { IfOk result (λ made. ArePrepared (in_order made.step.disks) made.updates) }
{
    let updates = updates_of(alloc, &disks)?;
    let seats = seats_of(alloc, &disks)?;
    let slots = slots_of(alloc, &disks)?;
    Ok(Step {
        config,
        disks,
        seats: Seq::new(seats),
        slots,
        updates,
    })
}

/// The step to this configuration, as leaders have it.
pub fn make_step(
    alloc: Global,
    config: Config,
    disks: &[Disk],
    leaders: &[View],
    timestamp: u32,
) -> Result<Step, NoMemory>
    requires can { AllByRecursion (CanTry (before leaders.now) config) disks.now }
    requires room { AllByRecursion (λ disk. full_where_written (before leaders.now) config timestamp disk ≡ None) disks.now }
    ensures step { IfOk result (λ made. made.step ≡ record { config = config; disks = disks_after timestamp (before leaders.now) config disks.now }) }
    ensures prepared { IfOk result (λ made. ArePrepared (in_order made.step.disks) made.updates) }
{
    let disks = disks_after(alloc, disks, leaders, &config, timestamp)?;
    step_with(alloc, config, disks)
}
