//! The configuration of a group that the disks and arrays of another have joined.
ghost use Rattle.std.specs.Prelude.{◌≡◌, ℕ, ◌+◌, ◌<◌, ◌^◌, ◌++◌, List, None, length, nat_eq, IfOk, OnOk};
ghost use Rattle.std.specs.Map.{lookup};
ghost use Rattle.std.specs.List.{AllByRecursion};
ghost use Rattle.ddf_config.specs.declared.member.Member as members;
ghost use Rattle.ddf_config.specs.declared.array.Array as array_type;
ghost use Rattle.ddf_config.specs.Entries.{changed_entries};
ghost use Rattle.ddf_config.specs.Members.{same_guid};
ghost use Rattle.ddf_plan.specs.Refusals.{spent};
ghost use Rattle.ddf_plan.specs.Changes.{IsAnswer};
ghost use Rattle.ddf_import.specs.Clash.{join_cause, join_refusal};
ghost use Rattle.ddf_import.specs.Joined.{kept_member, kept_members, numbered, with_number, numbers_of, members_joined, arrays_joined, joined, after_join};

use crate::clash::join_cause;
use crate::numbers::{number_of, numbers_of};
use ddf_bytes::{Guid, NoMemory};
use ddf_config::{
    Array, Config, Member, Refusal, first_refusal, put_last, put_some, with_low_states,
};
use ddf_plan::{GREATEST_SEQUENCE, PlanFault, holds_extent};
use indexmap::IndexMap;
use std::alloc::Global;

fn kept_member(
    alloc: Global,
    config: &Config,
    reference: u32,
    member: &Member,
) -> Result<Option<Member>, NoMemory>
    ensures { IfOk result (λ kept. kept ≡ kept_member config.now reference member.now) }
{
    if !member.missing || holds_extent(config, reference) {
        let kept = member.duplicate(alloc)?;
        Ok(Some(kept))
    } else {
        Ok(None)
    }
}

fn kept_of(
    alloc: Global,
    config: &Config,
    members: &IndexMap<u32, Member>,
) -> Result<IndexMap<u32, Member>, NoMemory>
    ensures { IfOk result (λ kept. kept.entries ≡ changed_entries (kept_member config.now) members.now.entries) }
{
    let mut kept = IndexMap::new(alloc);
    for (reference, member) in members {
        let next = kept_member(alloc, config, *reference, member)?;
        put_some(&mut kept, *reference, next)?;
    }
    Ok(kept)
}

/// Puts joining members behind others, which have none of their references.
fn push_members(
    alloc: Global,
    after: &mut IndexMap<u32, Member>,
    joining: &IndexMap<u32, Member>,
) -> Result<(), NoMemory>
    requires { AllByRecursion (λ (entry : ℕ × members.Member). lookup (nat_eq entry.0) after.old.entries ≡ None) joining.now.entries }
    ensures { OnOk result (after.new.entries ≡ after.old.entries ++ joining.now.entries) }
{
    for (reference, member) in joining {
        let copy = member.duplicate(alloc)?;
        put_last(after, *reference, copy)?;
    }
    Ok(())
}

fn with_number(alloc: Global, array: &Array, number: u16) -> Result<Array, NoMemory>
    ensures { IfOk result (λ next. next ≡ with_number array.now number) }
{
    let mut next = array.duplicate(alloc)?;
    next.number = number;
    Ok(next)
}

/// Puts joining arrays behind others, which have none of their GUIDs, with numbers that none has.
fn push_arrays(
    alloc: Global,
    after: &mut IndexMap<Guid, Array>,
    taken: &mut Vec<u16>,
    joining: &IndexMap<Guid, Array>,
) -> Result<(), NoMemory>
    requires few { length taken.old.items + length joining.now.entries < 2 ^ 16 }
    requires fresh { AllByRecursion (λ (entry : List ℕ × array_type.Array). lookup (same_guid entry.0) after.old.entries ≡ None) joining.now.entries }
    ensures { OnOk result (after.new.entries ≡ after.old.entries ++ numbered taken.old.items joining.now.entries) }
{
    for (guid, array) in joining {
        let number = number_of(taken.as_slice(), array.number);
        let next = with_number(alloc, array, number)?;
        taken.push(number)?;
        put_last(after, *guid, next)?;
    }
    Ok(())
}

fn kept_members(alloc: Global, config: &Config) -> Result<IndexMap<u32, Member>, NoMemory>
    ensures { IfOk result (λ kept. kept.entries ≡ kept_members config.now) }
{
    kept_of(alloc, config, &config.members)
}

/// The members that stay, and the joining ones behind them.
fn members_joined(
    alloc: Global,
    config: &Config,
    joining: &Config,
) -> Result<IndexMap<u32, Member>, NoMemory>
    requires { join_cause config.now joining.now ≡ None }
    ensures { IfOk result (λ members. members.entries ≡ members_joined config.now joining.now) }
{
    let mut members = kept_members(alloc, config)?;
    push_members(alloc, &mut members, &joining.members)?;
    Ok(members)
}

fn copied(alloc: Global, arrays: &IndexMap<Guid, Array>) -> Result<IndexMap<Guid, Array>, NoMemory>
    ensures { IfOk result (λ copy. copy.entries ≡ arrays.now.entries) }
{
    let mut copy = IndexMap::new(alloc);
    for (guid, array) in arrays {
        let second = array.duplicate(alloc)?;
        put_last(&mut copy, *guid, second)?;
    }
    Ok(copy)
}

fn arrays_among(
    alloc: Global,
    arrays: &IndexMap<Guid, Array>,
    joining: &IndexMap<Guid, Array>,
) -> Result<IndexMap<Guid, Array>, NoMemory>
    requires few { length arrays.now.entries + length joining.now.entries < 2 ^ 16 }
    requires fresh { AllByRecursion (λ (entry : List ℕ × array_type.Array). lookup (same_guid entry.0) arrays.now.entries ≡ None) joining.now.entries }
    ensures { IfOk result (λ all. all.entries ≡ arrays.now.entries ++ numbered (numbers_of arrays.now.entries) joining.now.entries) }
{
    let mut all = copied(alloc, arrays)?;
    let mut taken = numbers_of(alloc, arrays)?;
    push_arrays(alloc, &mut all, &mut taken, joining)?;
    Ok(all)
}

/// The arrays, and the joining ones behind them.
fn arrays_joined(
    alloc: Global,
    config: &Config,
    joining: &Config,
) -> Result<IndexMap<Guid, Array>, NoMemory>
    requires few { length config.now.arrays + length joining.now.arrays < 2 ^ 16 }
    requires cause { join_cause config.now joining.now ≡ None }
    ensures { IfOk result (λ arrays. arrays.entries ≡ arrays_joined config.now joining.now) }
{
    arrays_among(alloc, &config.arrays, &joining.arrays)
}

/// That the sequence number has a step left.
fn spent(config: &Config) -> Option<Refusal>
    ensures { result ≡ spent config.now.sequence 1 }
{
    let next = u64::from(config.sequence) + 1;
    if next <= u64::from(GREATEST_SEQUENCE) {
        None
    } else {
        Some(Refusal::SequenceSpent)
    }
}

fn join_refusal(
    alloc: Global,
    config: &Config,
    joining: &Config,
) -> Result<Option<Refusal>, NoMemory>
    ensures { IfOk result (λ refusal. refusal ≡ join_refusal config.now joining.now) }
{
    let cause = join_cause(alloc, config, joining)?;
    Ok(first_refusal(&[cause, spent(config)]))
}

/// The configuration of the two, whose members and arrays don't clash.
fn joined(alloc: Global, config: &Config, joining: &Config) -> Result<Config, NoMemory>
    requires few { length config.now.arrays + length joining.now.arrays < 2 ^ 16 }
    requires free { join_refusal config.now joining.now ≡ None }
    ensures { IfOk result (λ next. next ≡ joined config.now joining.now) }
{
    let members = members_joined(alloc, config, joining)?;
    let all = arrays_joined(alloc, config, joining)?;
    let arrays = with_low_states(alloc, &members, all)?;
    Ok(Config {
        group: config.group,
        sequence: config.sequence + 1,
        members,
        arrays,
    })
}

/// The configuration of a group that the disks and arrays of another have joined, one step on. The joining members and arrays
/// come last. A joining array whose number is taken gets the least free one. A missing member to which no element refers leaves
/// the table. Every complete, served array that isn't deleted has its low state anew.
///
/// # Errors
/// `Refused` exactly where there is no such configuration, with the first of these: `Clash`, `NameTaken`, `SequenceSpent`.
/// `Memory` where memory ran out.
#[tactic(auto, unfolding(crate::specs::Joined::after_join))]
pub fn join(alloc: Global, config: &Config, joining: &Config) -> Result<Config, PlanFault>
    requires { length config.now.arrays + length joining.now.arrays < 2 ^ 16 }
    ensures { IsAnswer (after_join config.now joining.now) result }
{
    let refusal = join_refusal(alloc, config, joining)?;
    match refusal {
        Some(refusal) => Err(PlanFault::Refused(refusal)),
        None => {
            let next = joined(alloc, config, joining)?;
            Ok(next)
        }
    }
}
