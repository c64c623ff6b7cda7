//! The steps that changes of a group are, made and judged before the first is written: found out later, a full table or want of memory would end
//! a change between two disks. docs/DECISIONS.md#recovery-and-the-steps-of-a-change
ghost use Rattle.std.specs.Prelude.{◌≡◌, ◌&&◌, ◌||◌, false, option_map, IfOk, IfSome};
ghost use Rattle.std.specs.Option.{option_map_or};
ghost use Rattle.std.specs.List.{AllByRecursion, list_any};
ghost use Rattle.std.specs.Result.{result_map_both};
ghost use Rattle.ddf_seats.specs.Seated.{seated};
ghost use Rattle.ddf_steps.specs.Ready.{is_spent};
ghost use Rattle.ddf_seats.specs.Leading.{some};
ghost use Rattle.ddf_assembly.specs.Assembled.{IsAssembledGroup};
ghost use Rattle.ddf_steps.specs.Tried.{AreTried};
ghost use Rattle.ddf_recovery.specs.Behind.{config_behind, disks_behind};
ghost use Rattle.ddf_recovery.specs.Ready.{IsReadied, readied};
ghost use Rattle.ddf_recovery.specs.Recovery.{disks_recovered, recovery_of};
ghost use Rattle.ddf_steps.specs.Trying.{AreFollowing, Follows};
ghost use Rattle.ddf_seats.specs.Changing.{CanBeChanged};
ghost use Rattle.ddf_steps.specs.Asked.{CanBeAsked};

use crate::recovering::{any_absent, config_behind, disks_behind, first_step};
use crate::stray::any_stray;
use ddf_assembly::Group;
use ddf_bytes::NoMemory;
use ddf_config::Refusal;
use ddf_plan::Change;
use ddf_seats::{Disk, GroupFault, seated_disks};
use ddf_steps::{Step, any_spent, is_spent, steps_of};
use std::alloc::Global;
use std::marker::Model;

/// The recovery of a group, where it needs one, and the steps that are left of its changes, one after another, each with all sectors
/// that it writes.
#[derive(Drop)]
pub struct Ready {
    pub(crate) recovery: Option<Step>,
    // The next step is the last item.
    pub(crate) steps: Vec<Step>,
}

impl Model for Ready {
    ghost use Rattle.std.specs.Prelude.{reverse};
    ghost use Rattle.ddf_recovery.specs.Ready.{ReadyValue};

    ghost Value = { ReadyValue };

    ghost view = { λ ready. record { recovery = ready.recovery; steps = reverse ready.steps.items } };
}

impl Ready {
    ghost use Rattle.std.specs.Prelude.{◌≡◌, []};

    /// A recovery, where there is one, with no step behind it.
    pub fn alone(alloc: Global, recovery: Option<Step>) -> Ready
        ensures { result ≡ record { recovery = recovery; steps = [] } }
    {
        Ready {
            recovery,
            steps: Vec::new(alloc),
        }
    }
}

/// The disks of a group.
#[tactic(auto, unfolding(ddf_seats::specs::Seated::seated))]
pub fn disks_of(alloc: Global, group: &Group) -> Result<Vec<Disk<'_>>, NoMemory>
    ensures { IfOk result (λ disks. disks.items ≡ seated group.now) }
{
    seated_disks(alloc, group.newest(), group.seats())
}

/// The steps that changes of a group are behind its recovery, their sequence numbers aside.
fn steps_behind(
    alloc: Global,
    group: &Group,
    disks: &[Disk],
    recovery: &Option<Step>,
    changes: &[Change],
    timestamp: u32,
) -> Result<Vec<Step>, GroupFault>
    requires changed { CanBeChanged (config_behind group.now recovery.now) (disks_behind group.now recovery.now disks.now) }
    requires asked { AllByRecursion CanBeAsked changes.now }
    ensures tried { AreTried timestamp (config_behind group.now recovery.now) (disks_behind group.now recovery.now disks.now) changes.now
        (result_map_both (λ steps. steps.items) (λ fault. fault) result) }
    ensures follows { IfOk result (λ steps. AreFollowing (disks_behind group.now recovery.now disks.now) steps.items) }
{
    let behind = disks_behind(alloc, group, disks, recovery)?;
    steps_of(
        alloc,
        config_behind(group, recovery),
        &behind,
        changes,
        timestamp,
    )
}

/// Whether that of a recovery does, where it is a loss: to give the configuration to the seats that lag raises none.
pub fn recovery_spent(group: &Group, recovery: &Option<Step>) -> bool
    ensures { result ≡ option_map_or (λ one. some group.now.absent && is_spent one.step) recovery.now false }
{
    match recovery {
        Some(step) => any_absent(group) && is_spent(step),
        None => false,
    }
}

/// Whether that of a loss or of a step behind it does.
fn is_over(group: &Group, recovery: &Option<Step>, steps: &[Step]) -> bool
    ensures { result ≡ (option_map_or (λ one. some group.now.absent && is_spent one.step) recovery.now false || list_any (λ one. is_spent one.step) steps.now) }
{
    recovery_spent(group, recovery) || any_spent(steps)
}

/// The recovery of a group and the steps that changes of it are, one after another, each with all sectors that it writes. Nothing
/// is written. Where members are absent the recovery is their loss, and else it gives the configuration to the seats that lag. Each
/// change begins with what the one before it gives, and one that alters no more than the sequence number is no step.
///
/// # Errors
/// `Unsettled` where recovery must not write over a seat's disk: it is at the configuration's sequence number or later without showing
/// the configuration, it shows another group that isn't absorbed, its slot holds the only record of an element, or it is further
/// behind than stops leave one. Then the first change that is refused: for its own causes first, then for a table that has no room
/// on some disk that is written, of the first one also for the recovery, then for an extent that has none. Without a change: the
/// recovery has no room. Where none is refused: a sequence number would pass the greatest. Or memory ran out.
pub fn make_ready(
    alloc: Global,
    group: &Group,
    changes: &[Change],
    timestamp: u32,
) -> Result<Ready, GroupFault>
    requires assembled { IsAssembledGroup group.now }
    requires asked { AllByRecursion CanBeAsked changes.now }
    ensures readied { IsReadied result (readied group.now changes.now timestamp) }

    // What recovers the group comes first. It rewrites the group's disks as a change does: each copy can stand where the one before
    // it can. Changes may be tried on the disks of each step behind it.
    ensures recovery { IfOk result (λ ready. option_map (λ one. one.step) ready.recovery ≡ recovery_of timestamp group.now) }
    ensures recovers { IfOk result (λ ready. IfSome ready.recovery (Follows (seated group.now))) }
    ensures follows { IfOk result (λ ready. AreFollowing (disks_recovered timestamp group.now) ready.steps) }
{
    let disks = disks_of(alloc, group)?;
    let stray = any_stray(alloc, group, &disks)?;
    if stray {
        return Err(GroupFault::Refused(Refusal::Unsettled));
    }
    let recovery = first_step(alloc, group, &disks, changes, timestamp)?;
    let mut steps = steps_behind(alloc, group, &disks, &recovery, changes, timestamp)?;
    if is_over(group, &recovery, &steps) {
        return Err(GroupFault::SequenceSpent);
    }
    steps.reverse();
    Ok(Ready { recovery, steps })
}
