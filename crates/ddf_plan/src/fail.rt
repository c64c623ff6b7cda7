//! A disk that counts as failed, and what refuses that: an array that can't do without it. What it makes of the configuration is what a loss
//! makes of it. docs/GROUPS.md#changes
ghost use Rattle.std.specs.Prelude.{◌≡◌};
ghost use Rattle.ddf_plan.specs.Fail.{is_last, would_be_lost, any_would_be_lost, fail_causes};
ghost use Rattle.ddf_config.specs.Refusals.{first_refusal};

use crate::refuse::not_current;
use ddf_config::{Array, Config, Member, Refusal, Seat, is_within, slot_of};
use indexmap::IndexMap;

/// Whether no more than one member is current.
fn is_last(config: &Config) -> bool
    ensures { result ≡ is_last config.now }
{
    let current = config
        .members
        .iter()
        .filter(|entry| !entry.1.missing)
        .count();
    current <= 1
}

/// Whether an array is within its level, and would not be with the members after.
fn would_be_lost(
    members: &IndexMap<u32, Member>,
    members_after: &IndexMap<u32, Member>,
    array: &Array,
) -> bool
    ensures { result ≡ would_be_lost members.now.entries members_after.now.entries array.now }
{
    is_within(members, array) && !is_within(members_after, array)
}

fn any_would_be_lost(config: &Config, members_after: &IndexMap<u32, Member>) -> bool
    ensures { result ≡ any_would_be_lost config.now members_after.now.entries }
{
    config.arrays.iter().any(|(_, array)| would_be_lost(&config.members, members_after, array))
}

/// Why a disk can't count as failed, the sequence number aside. The members are those after the failure.
pub(crate) fn fail_cause(
    config: &Config,
    members_after: &IndexMap<u32, Member>,
    seats: &[Seat],
    reference: u32,
) -> Option<Refusal>
    ensures { result ≡ first_refusal (fail_causes config.now members_after.now.entries seats.now reference) }
{
    if let Some(refusal) = not_current(config, seats, &[reference]) {
        return Some(refusal);
    }
    if is_last(config) {
        return Some(Refusal::InUse(slot_of(seats, reference)));
    }
    if any_would_be_lost(config, members_after) {
        return Some(Refusal::Lost);
    }
    None
}
