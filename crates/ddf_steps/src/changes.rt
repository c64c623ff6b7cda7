//! The steps that changes of a configuration on disks are, one after another.
ghost use Rattle.std.specs.Prelude.{◌≡◌, ◌++◌, option_to_list, IfOk, IfSome, OnOk};
ghost use Rattle.std.specs.List.{AllByRecursion, list_any};
ghost use Rattle.std.specs.Result.{result_map_both};
ghost use Rattle.ddf_steps.specs.Ready.{is_spent};
ghost use Rattle.ddf_steps.specs.Tried.{AreTried, IsTried, config_reached, disks_reached};
ghost use Rattle.ddf_steps.specs.Trying.{AreFollowing, Follows};
ghost use Rattle.ddf_seats.specs.Changing.{CanBeChanged};
ghost use Rattle.ddf_steps.specs.Asked.{CanBeAsked};

use crate::steps::Step;
use crate::trying::next_step;
use ddf_bytes::NoMemory;
use ddf_config::Config;
use ddf_plan::{Change, GREATEST_SEQUENCE};
use ddf_seats::{Disk, GroupFault, all_levelled};
use std::alloc::Global;

/// The step that a change is behind these steps of a configuration on disks. None where it alters no more than the sequence number.
fn step_behind(
    alloc: Global,
    config: &Config,
    disks: &[Disk],
    steps: &[Step],
    change: &Change,
    timestamp: u32,
) -> Result<Option<Step>, GroupFault>
    requires changed { CanBeChanged config.now disks.now }
    requires following { AreFollowing disks.now steps.now }
    requires asked { CanBeAsked change.now }
    ensures tried { IsTried timestamp (config_reached config.now steps.now) (disks_reached disks.now steps.now) change.now result }
    ensures follows { IfOk result (λ next. IfSome next (Follows (disks_reached disks.now steps.now))) }
{
    match steps.split_last() {
        Some((step, _)) => {
            let disks = all_levelled(alloc, &step.disks)?;
            next_step(alloc, &step.config, &disks, change, timestamp)
        }
        None => next_step(alloc, config, disks, change, timestamp),
    }
}

/// Puts a step, where there is one, behind the others.
fn push_next(steps: &mut Vec<Step>, next: Option<Step>) -> Result<(), NoMemory>
    ensures { OnOk result (steps.new.items ≡ steps.old.items ++ option_to_list next) }
{
    if let Some(step) = next {
        steps.push(step)?;
    }
    Ok(())
}

/// The steps that changes of a configuration on disks are, their sequence numbers aside.
pub fn steps_of(
    alloc: Global,
    config: &Config,
    disks: &[Disk],
    changes: &[Change],
    timestamp: u32,
) -> Result<Vec<Step>, GroupFault>
    requires changed { CanBeChanged config.now disks.now }
    requires asked { AllByRecursion CanBeAsked changes.now }
    ensures tried { AreTried timestamp config.now disks.now changes.now (result_map_both (λ steps. steps.items) (λ fault. fault) result) }
    ensures follows { IfOk result (λ steps. AreFollowing disks.now steps.items) }
{
    let mut steps = Vec::new(alloc);
    for change in changes {
        let next = step_behind(alloc, config, disks, &steps, change, timestamp)?;
        push_next(&mut steps, next)?;
    }
    Ok(steps)
}

/// Whether the sequence number of a step passes the greatest.
pub fn is_spent(step: &Step) -> bool
    ensures { result ≡ is_spent step.now.step }
{
    step.config.sequence > GREATEST_SEQUENCE
}

/// Whether that of some step does.
pub fn any_spent(steps: &[Step]) -> bool
    ensures { result ≡ list_any (λ one. is_spent one.step) steps.now }
{
    steps.iter().any(|step| is_spent(step))
}
