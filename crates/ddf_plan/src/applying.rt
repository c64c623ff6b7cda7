//! Changes applied to a configuration.
ghost use Rattle.std.specs.Prelude.{◌≡◌, ◌+◌, ◌^◌, ◌<◌, IfOk};
ghost use Rattle.ddf_plan.specs.Arrays.{HasNewGuid};
ghost use Rattle.ddf_plan.specs.Causes.{steps_of};
ghost use Rattle.ddf_plan.specs.Changes.{changed, changed_at, after, IsAnswer};

use crate::arrays::arrays_after;
use crate::causes::{refusal_of, steps_of};
use crate::members::members_after;
use crate::{Change, Config, PlanFault, Seat};
use ddf_bytes::NoMemory;
use std::alloc::Global;

/// The configuration after a change. Every complete, served array that isn't deleted has its low state anew.
///
/// The seats decide nothing: a refusal that names a slot names that of the member's seat, 64 where it has none.
///
/// # Errors
/// `Refused` exactly where there is no such configuration, with the first refusal in the change's order:
///
/// - `Lose`: `NotMember`, `SequenceSpent`
/// - `Create`: `NotMember`, `NameTaken`, `Level`, `Shape`, `Clash`, `InUse`, `NoExtent`, `SequenceSpent`
/// - `Delete`: `NoArray`, `SequenceSpent`
/// - `Spare`: `NotMember`, `NoArray`, `InUse`, `SequenceSpent`
/// - `Fail`: `NotMember`, `InUse`, `Lost`, `SequenceSpent`
/// - `Mark`, `Unmark`, `Rewind`: `NoArray`, `SequenceSpent`
/// - `Begin`, `Progress`, `Finish`, `Return`: `NoArray`, `Shape`, `NotMember`, `SequenceSpent`
///
/// `Memory` where memory ran out.
pub fn apply(
    alloc: Global,
    config: &Config,
    change: &Change,
    seats: &[Seat],
) -> Result<Config, PlanFault>
    ensures { IsAnswer (after config.now change.now seats.now) result }
{
    let refusal = refusal_of(alloc, config, change, seats)?;
    if let Some(refusal) = refusal {
        return Err(PlanFault::Refused(refusal));
    }
    let next = changed(alloc, config, change)?;
    Ok(next)
}

/// The configuration that a change makes of this one, whatever refuses the change.
fn changed(alloc: Global, config: &Config, change: &Change) -> Result<Config, NoMemory>
    requires sequence { config.now.sequence + steps_of change.now < 2 ^ 32 }
    requires fresh { HasNewGuid config.now.arrays change.now }
    ensures { IfOk result (λ next. next ≡ changed config.now change.now) }
{
    let sequence = config.sequence + steps_of(change);
    changed_at(alloc, config, change, sequence)
}

/// The configuration that a change makes of this one, at this sequence number and whatever refuses the change. Every complete,
/// served array that isn't deleted has its low state anew. A created array's position for which there is no start keeps the start
/// that it came with.
///
/// # Errors
/// Memory ran out.
pub fn changed_at(
    alloc: Global,
    config: &Config,
    change: &Change,
    sequence: u32,
) -> Result<Config, NoMemory>
    requires { HasNewGuid config.now.arrays change.now }
    ensures { IfOk result (λ next. next ≡ changed_at config.now change.now sequence) }
{
    let members = members_after(alloc, config, change)?;
    let arrays = arrays_after(alloc, config, &members, change)?;
    Ok(Config {
        group: config.group,
        sequence,
        members,
        arrays,
    })
}
