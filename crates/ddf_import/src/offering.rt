//! What an import asks for.
ghost use Rattle.std.specs.Prelude.{◌≡◌, IfOk};
ghost use Rattle.ddf_plan.specs.Changes.{IsAnswer};
ghost use Rattle.ddf_import.specs.Joined.{without_lost, offered};

use crate::clash::join_cause;
use ddf_bytes::{NoMemory, Seq};
use ddf_config::Config;
use ddf_plan::{Change, PlanFault, changed_at};
use std::alloc::Global;

fn changed_by_loss(alloc: Global, other: &Config, lost: &[u32]) -> Result<Config, NoMemory>
    ensures { IfOk result (λ joining. joining ≡ without_lost other.now lost.now) }
{
    if lost.is_empty() {
        return other.duplicate(alloc);
    }
    let references = Vec::from_slice(alloc, lost)?;
    let loss = Change::Lose(Seq::new(references));
    changed_at(alloc, other, &loss, other.sequence)
}

/// The configuration of another group that is to join this one: with these members missing, as a loss leaves them, at its own
/// sequence number. `lost` names different current members of it.
///
/// # Errors
/// `Refused` exactly where it can't join, its sequence number aside: with the GUID of the first disk that is there already, by
/// its GUID or its reference; else with that of the first array; else with that of a disk to which a position of the other side
/// would be bound, this group's positions first; and then where an array's name prints as one of this group. `Memory` where memory ran out.
#[tactic(auto, unfolding(crate::specs::Joined::offered))]
pub fn offer(
    alloc: Global,
    config: &Config,
    other: &Config,
    lost: &[u32],
) -> Result<Config, PlanFault>
    ensures { IsAnswer (offered config.now other.now lost.now) result }
{
    let joining = changed_by_loss(alloc, other, lost)?;
    let refusal = join_cause(alloc, config, &joining)?;
    match refusal {
        Some(refusal) => Err(PlanFault::Refused(refusal)),
        None => Ok(joining),
    }
}
