//! What a change makes of arrays.
ghost use Rattle.std.specs.Prelude.{◌≡◌, ◌++◌, IfOk, OnOk, if◌then◌else◌};
ghost use Rattle.ddf_config.specs.Entries.{changed_entries};
ghost use Rattle.ddf_config.specs.Extents.{extents};
ghost use Rattle.ddf_plan.specs.Create.{created};
ghost use Rattle.ddf_plan.specs.Members.{members_after};
ghost use Rattle.ddf_plan.specs.Standing.{takes_revertible};
ghost use Rattle.ddf_plan.specs.Arrays.{names, named_after, array_after, is_dropped, kept_array, arrays_added, kept_and_added, arrays_after, HasNewGuid};

use crate::Change;
use crate::create::created;
use crate::lose::lost_array;
use crate::mark::{marked, rewound, unmarked};
use crate::rebuild::rebuilding;
use crate::standing::takes_revertible;
use ddf_bytes::{Guid, NoMemory};
use ddf_config::{Array, Config, Member, extents, put_last, put_some, with_low_states};
use indexmap::IndexMap;
use std::alloc::Global;
use std::slice;

/// Whether a change of one array is one of this array.
fn names(change: &Change, guid: Guid) -> bool
    ensures { result ≡ names change.now guid }
{
    match change {
        Change::Mark(named) | Change::Unmark(named, _) | Change::Rewind(named) => *named == guid,
        Change::Begin { array, .. }
        | Change::Progress { array, .. }
        | Change::Finish { array, .. }
        | Change::Return { array, .. } => *array == guid,
        Change::Lose(_)
        | Change::Create(_, _)
        | Change::Delete(_)
        | Change::Spare(_, _)
        | Change::Fail(_) => false,
    }
}

/// What a change of one array makes of it. The flag tells that a rebuild begins on a revertible spare.
fn named_after(
    alloc: Global,
    revertible: bool,
    change: &Change,
    array: &Array,
) -> Result<Array, NoMemory>
    ensures { IfOk result (λ next. next ≡ named_after revertible change.now array.now) }
{
    match change {
        Change::Mark(_) => marked(alloc, array),
        Change::Unmark(_, init) => unmarked(alloc, *init, array),
        Change::Rewind(_) => rewound(alloc, array),
        Change::Begin { element, .. } => rebuilding(alloc, revertible, change, *element, array),
        Change::Progress { element, .. } => rebuilding(alloc, revertible, change, *element, array),
        Change::Finish { element, .. } => rebuilding(alloc, revertible, change, *element, array),
        Change::Return { element, .. } => rebuilding(alloc, revertible, change, *element, array),
        Change::Lose(_)
        | Change::Create(_, _)
        | Change::Delete(_)
        | Change::Spare(_, _)
        | Change::Fail(_) => array.duplicate(alloc),
    }
}

fn named_or_same(
    alloc: Global,
    revertible: bool,
    change: &Change,
    guid: Guid,
    array: &Array,
) -> Result<Array, NoMemory>
    ensures { IfOk result (λ next. next ≡ (if names change.now guid then named_after revertible change.now array.now else array.now)) }
{
    if names(change, guid) {
        named_after(alloc, revertible, change, array)
    } else {
        array.duplicate(alloc)
    }
}

/// What a change makes of an array that stays.
fn array_after(
    alloc: Global,
    revertible: bool,
    members: &IndexMap<u32, Member>,
    change: &Change,
    guid: Guid,
    array: &Array,
) -> Result<Array, NoMemory>
    ensures { IfOk result (λ next. next ≡ array_after revertible members.now.entries change.now guid array.now) }
{
    match change {
        Change::Lose(references) => lost_array(alloc, members, references.items(), array),
        Change::Fail(failed) => lost_array(alloc, members, slice::from_ref(failed), array),
        Change::Create(_, _)
        | Change::Delete(_)
        | Change::Spare(_, _)
        | Change::Mark(_)
        | Change::Unmark(_, _)
        | Change::Rewind(_)
        | Change::Begin { .. }
        | Change::Progress { .. }
        | Change::Finish { .. }
        | Change::Return { .. } => named_or_same(alloc, revertible, change, guid, array),
    }
}

/// Whether an array leaves the table.
fn is_dropped(change: &Change, guid: Guid) -> bool
    ensures { result ≡ is_dropped change.now guid }
{
    match change {
        Change::Delete(gone) => *gone == guid,
        Change::Lose(_)
        | Change::Create(_, _)
        | Change::Spare(_, _)
        | Change::Fail(_)
        | Change::Mark(_)
        | Change::Unmark(_, _)
        | Change::Rewind(_)
        | Change::Begin { .. }
        | Change::Progress { .. }
        | Change::Finish { .. }
        | Change::Return { .. } => false,
    }
}

fn kept_array(
    alloc: Global,
    revertible: bool,
    members: &IndexMap<u32, Member>,
    change: &Change,
    guid: Guid,
    array: &Array,
) -> Result<Option<Array>, NoMemory>
    ensures { IfOk result (λ next. next ≡ kept_array revertible members.now.entries change.now guid array.now) }
{
    if is_dropped(change, guid) {
        return Ok(None);
    }
    let next = array_after(alloc, revertible, members, change, guid, array)?;
    Ok(Some(next))
}

fn kept_arrays(
    alloc: Global,
    revertible: bool,
    members: &IndexMap<u32, Member>,
    change: &Change,
    arrays: &IndexMap<Guid, Array>,
) -> Result<IndexMap<Guid, Array>, NoMemory>
    ensures { IfOk result (λ after. after.entries ≡ changed_entries (kept_array revertible members.now.entries change.now) arrays.now.entries) }
{
    let mut after = IndexMap::new(alloc);
    for (guid, array) in arrays {
        let next = kept_array(alloc, revertible, members, change, *guid, array)?;
        put_some(&mut after, *guid, next)?;
    }
    Ok(after)
}

fn created_among(
    alloc: Global,
    members: &IndexMap<u32, Member>,
    arrays: &IndexMap<Guid, Array>,
    array: &Array,
) -> Result<Array, NoMemory>
    ensures { IfOk result (λ new. new ≡ created members.now.entries (extents arrays.now.entries) array.now) }
{
    let all = extents(alloc, arrays)?;
    let new = created(alloc, members, all.as_slice(), array)?;
    Ok(new)
}

fn created_by(alloc: Global, config: &Config, array: &Array) -> Result<Array, NoMemory>
    ensures { IfOk result (λ new. new ≡ created config.now.members (extents config.now.arrays) array.now) }
{
    created_among(alloc, &config.members, &config.arrays, array)
}

/// Puts the array that a change adds behind the others.
fn put_added(
    alloc: Global,
    config: &Config,
    change: &Change,
    after: &mut IndexMap<Guid, Array>,
) -> Result<(), NoMemory>
    requires { HasNewGuid after.old.entries change.now }
    ensures { OnOk result (after.new.entries ≡ after.old.entries ++ arrays_added config.now change.now) }
{
    match change {
        Change::Create(guid, array) => {
            let new = created_by(alloc, config, array)?;
            put_last(after, *guid, new)
        }
        Change::Lose(_)
        | Change::Delete(_)
        | Change::Spare(_, _)
        | Change::Fail(_)
        | Change::Mark(_)
        | Change::Unmark(_, _)
        | Change::Rewind(_)
        | Change::Begin { .. }
        | Change::Progress { .. }
        | Change::Finish { .. }
        | Change::Return { .. } => Ok(()),
    }
}

fn with_added(
    alloc: Global,
    config: &Config,
    change: &Change,
    mut arrays: IndexMap<Guid, Array>,
) -> Result<IndexMap<Guid, Array>, NoMemory>
    requires { HasNewGuid arrays.entries change.now }
    ensures { IfOk result (λ all. all.entries ≡ arrays.entries ++ arrays_added config.now change.now) }
{
    put_added(alloc, config, change, &mut arrays)?;
    Ok(arrays)
}

fn kept_of(
    alloc: Global,
    config: &Config,
    members: &IndexMap<u32, Member>,
    change: &Change,
) -> Result<IndexMap<Guid, Array>, NoMemory>
    ensures { IfOk result (λ kept. kept.entries ≡ changed_entries (kept_array (takes_revertible config.now change.now) members.now.entries change.now) config.now.arrays) }
{
    kept_arrays(
        alloc,
        takes_revertible(config, change),
        members,
        change,
        &config.arrays,
    )
}

fn kept_and_added(
    alloc: Global,
    config: &Config,
    members: &IndexMap<u32, Member>,
    change: &Change,
) -> Result<IndexMap<Guid, Array>, NoMemory>
    requires members { members.now.entries ≡ members_after config.now change.now }
    requires fresh { HasNewGuid config.now.arrays change.now }
    ensures { IfOk result (λ after. after.entries ≡ kept_and_added config.now change.now) }
{
    let kept = kept_of(alloc, config, members, change)?;
    with_added(alloc, config, change, kept)
}

/// The arrays after a change, with their low states. The members are those after it.
pub(crate) fn arrays_after(
    alloc: Global,
    config: &Config,
    members: &IndexMap<u32, Member>,
    change: &Change,
) -> Result<IndexMap<Guid, Array>, NoMemory>
    requires members { members.now.entries ≡ members_after config.now change.now }
    requires fresh { HasNewGuid config.now.arrays change.now }
    ensures { IfOk result (λ after. after.entries ≡ arrays_after config.now change.now) }
{
    let all = kept_and_added(alloc, config, members, change)?;
    with_low_states(alloc, members, all)
}
