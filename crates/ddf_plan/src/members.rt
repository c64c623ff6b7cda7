//! What a change makes of members: which it loses, and what each may stand in for.
ghost use Rattle.std.specs.Prelude.{◌≡◌, Some, IfOk};
ghost use Rattle.ddf_config.specs.Entries.{changed_entries};
ghost use Rattle.ddf_plan.specs.Members.{lost_by, use_after, member_after, members_after};
ghost use Rattle.ddf_plan.specs.Standing.{given_back, is_given_back};

use crate::Change;
use crate::delete::use_without;
use crate::lose::is_among;
use crate::spare::use_in_order;
use crate::standing::{given_back, is_given_back, is_left_by};
use ddf_bytes::{Guid, NoMemory};
use ddf_config::{Config, Member, SpareUse, put_last};
use indexmap::IndexMap;
use std::alloc::Global;
use std::slice;

/// The references of the members that a change loses.
fn lost_by(change: &Change) -> &[u32]
    ensures { result.now ≡ lost_by change.now }
{
    match change {
        Change::Lose(references) => references.items(),
        Change::Fail(failed) => slice::from_ref(failed),
        Change::Create(_, _)
        | Change::Delete(_)
        | Change::Spare(_, _)
        | Change::Mark(_)
        | Change::Unmark(_, _)
        | Change::Rewind(_)
        | Change::Begin { .. }
        | Change::Progress { .. }
        | Change::Finish { .. }
        | Change::Return { .. } => &[],
    }
}

/// What a member may stand in for after a position has moved to this disk.
fn use_beside(
    alloc: Global,
    config: &Config,
    array: Guid,
    element: u8,
    position: u16,
    disk: u32,
    reference: u32,
    use_as: &SpareUse,
) -> Result<SpareUse, NoMemory>
    ensures { IfOk result (λ after. after ≡ given_back (is_given_back config.now array element position disk reference) use_as.now) }
{
    let gives = is_given_back(alloc, config, array, element, position, disk, reference)?;
    Ok(given_back(gives, use_as.duplicate(alloc)?))
}

/// What a member may stand in for after a change.
fn use_after(
    alloc: Global,
    config: &Config,
    change: &Change,
    reference: u32,
    use_as: &SpareUse,
) -> Result<SpareUse, NoMemory>
    ensures { IfOk result (λ after. after ≡ use_after config.now change.now reference use_as.now) }
{
    match change {
        Change::Delete(guid) => {
            let gives = is_left_by(config, *guid, reference);
            let left = given_back(gives, use_as.duplicate(alloc)?);
            use_without(alloc, *guid, &left)
        }
        Change::Spare(spare, next) => {
            if *spare == reference {
                use_in_order(alloc, &config.arrays, next)
            } else {
                use_as.duplicate(alloc)
            }
        }
        Change::Begin {
            reference: spare,
            ..
        } => {
            if *spare == reference {
                Ok(SpareUse::No)
            } else {
                use_as.duplicate(alloc)
            }
        }
        Change::Return {
            array,
            element,
            position,
            reference: disk,
            ..
        } => use_beside(
            alloc, config, *array, *element, *position, *disk, reference, use_as,
        ),
        Change::Lose(_)
        | Change::Create(_, _)
        | Change::Fail(_)
        | Change::Mark(_)
        | Change::Unmark(_, _)
        | Change::Rewind(_)
        | Change::Progress { .. }
        | Change::Finish { .. } => use_as.duplicate(alloc),
    }
}

/// What a change makes of a member.
fn member_after(
    alloc: Global,
    config: &Config,
    change: &Change,
    reference: u32,
    member: &Member,
) -> Result<Member, NoMemory>
    ensures { IfOk result (λ next. next ≡ member_after config.now change.now reference member.now) }
{
    let spare = use_after(alloc, config, change, reference, &member.spare)?;
    Ok(Member {
        guid: member.guid,
        size: member.size,
        missing: is_among(lost_by(change), reference) || member.missing,
        spare,
    })
}

fn changed_members(
    alloc: Global,
    config: &Config,
    members: &IndexMap<u32, Member>,
    change: &Change,
) -> Result<IndexMap<u32, Member>, NoMemory>
    ensures { IfOk result (λ after. after.entries
        ≡ changed_entries (λ reference member. Some (member_after config.now change.now reference member)) members.now.entries) }
{
    let mut after = IndexMap::new(alloc);
    for (reference, member) in members {
        let next = member_after(alloc, config, change, *reference, member)?;
        put_last(&mut after, *reference, next)?;
    }
    Ok(after)
}

/// The members after a change.
pub(crate) fn members_after(
    alloc: Global,
    config: &Config,
    change: &Change,
) -> Result<IndexMap<u32, Member>, NoMemory>
    ensures { IfOk result (λ after. after.entries ≡ members_after config.now change.now) }
{
    changed_members(alloc, config, &config.members, change)
}
