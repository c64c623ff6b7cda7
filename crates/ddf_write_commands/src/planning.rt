//! What is planned of the blocks of an array before anything is written: the changes of its group around them, its view between these, and
//! what refuses `write` and `resync` beside any use of it. Refused after the mark an array would stay marked.
//! docs/GROUPS.md#orders-of-refusal
ghost use Rattle.std.specs.Prelude.{◌≡◌, ◌++◌, ◌∷◌, [], not, List, option_to_list, Some, Ok, IfOk, OnOk, if◌then◌else◌};
ghost use Rattle.std.specs.Map.{lookup};
ghost use Rattle.ddf_array.specs.Viewing.{view_of};
ghost use Rattle.ddf_array.specs.Volume.{IsVolume};
ghost use Rattle.ddf_array.specs.Within.{is_redundant, is_within};
ghost use Rattle.ddf_cells.specs.Degraded.{is_degraded};
ghost use Rattle.ddf_config.specs.Refusals.{first_refusal, refuse_if};
ghost use Rattle.ddf_config.specs.declared.array.Array.{Array};
ghost use Rattle.ddf_config.specs.declared.refusal.Refusal.{Refusal};
ghost use Rattle.ddf_config.specs.Members.{same_guid};
ghost use Rattle.ddf_plan.specs.declared.change.Change.{Change};
ghost use Rattle.ddf_recovery.specs.Recovery.{config_recovered};
ghost use Rattle.ddf_read_commands.specs.Use.{IsViewed};
ghost use Rattle.ddf_write_commands.specs.Marking.{IsMarkedAs};
ghost use Rattle.ddf_write_commands.specs.Planned.{Entry};
ghost use Rattle.ddf_write_commands.specs.Plans.{MayPlan, MayPlanFor, unmarked_view};
ghost use Rattle.ddf_write_commands.specs.Resync.{resync_behind, resync_refusals};
ghost use Rattle.ddf_write_commands.specs.Write.{write_behind, write_refusals};

use ddf_answer::Failure;
use ddf_assembly::Group;
use ddf_bytes::{Guid, NoMemory, Seq};
use ddf_cells::is_degraded;
use ddf_config::{Config, Refusal, Seat, first_refusal, refuse_if};
use ddf_group_commands::recovered;
use ddf_plan::{Change, changed_at, same_tables};
use ddf_read::{View, ViewFault};
use ddf_read_commands::{Access, failure_of, usable};
use ddf_recovery::loss;
use ddf_resync::resync_refusal;
use std::alloc::Global;

/// How far an array is initialized once it was resynced: wholly.
const WHOLLY: u8 = 2;

/// What is planned of the blocks of an array.
#[derive(Drop)]
pub(crate) struct Plan {
    /// The changes of its group around them.
    pub(crate) changes: Seq<Change>,
    /// It keeps what it holds in more than one place: the first of the changes is its mark.
    pub(crate) redundant: bool,
    /// To mark it is a step.
    pub(crate) marks: bool,
    /// The array as it is once it is marked.
    pub(crate) view: View,
    /// The array as it is before, where to mark it is a step.
    unmarked: Option<View>,
}

/// The array of a plan as it is before it is marked for its blocks.
pub(crate) fn unmarked_view(plan: &Plan) -> &View
    ensures { result.now ≡ unmarked_view plan.now }
{
    match &plan.unmarked {
        Some(view) => view,
        None => &plan.view,
    }
}

/// What is planned of the array of a group that a word names, to resync it.
///
/// # Errors
/// `Refused` where the array can't be used, isn't within its level, or has an element that keeps parity and lacks a position; `Memory` where
/// memory ran out.
pub(crate) fn plan_resync(alloc: Global, group: &Group, name: &[u8]) -> Result<Plan, Failure>
    ensures { MayPlan resync_refusals resync_behind (config_recovered group.now) group.now.seats name.now result }
{
    let loss = loss(alloc, group)?;
    resync_plan(alloc, recovered(group, &loss), group.seats(), name)
}

fn resync_plan(alloc: Global, config: &Config, seats: &[Seat], name: &[u8]) -> Result<Plan, Failure>
    ensures { MayPlan resync_refusals resync_behind config.now seats.now name.now result }
{
    let (guid, view) = usable(alloc, config, seats, name, 0, 0, Access::Reads)?;
    if let Some(fault) = resync_refusal(&view) {
        return Err(failure_of(fault));
    }
    let behind = Change::Unmark(guid, WHOLLY);
    planned(alloc, config, seats, guid, view, Some(behind))
}

/// What is planned of the array of a group that a word names, to write so many of its blocks from one on.
///
/// # Errors
/// `Refused` where the blocks can't be used, or the array isn't within its level, is marked, or has an element that keeps parity and lacks a
/// position; `Memory` where memory ran out.
pub(crate) fn plan_write(
    alloc: Global,
    group: &Group,
    name: &[u8],
    start: u64,
    count: u64,
) -> Result<Plan, Failure>
    ensures { MayPlan (write_refusals start count) write_behind (config_recovered group.now) group.now.seats name.now result }
{
    let loss = loss(alloc, group)?;
    write_plan(
        alloc,
        recovered(group, &loss),
        group.seats(),
        name,
        start,
        count,
    )
}

fn write_plan(
    alloc: Global,
    config: &Config,
    seats: &[Seat],
    name: &[u8],
    start: u64,
    count: u64,
) -> Result<Plan, Failure>
    ensures { MayPlan (write_refusals start count) write_behind config.now seats.now name.now result }
{
    let (guid, view) = usable(alloc, config, seats, name, start, count, Access::Writes)?;
    if let Some(refusal) = write_cause(&view) {
        return Err(Failure::Refused(refusal));
    }
    let behind = cleared(config, guid, &view);
    planned(alloc, config, seats, guid, view, behind)
}

/// Why blocks of an array aren't written, behind what any use of them is refused for.
fn write_cause(view: &View) -> Option<Refusal>
    ensures { result ≡ first_refusal (refuse_if (not (is_within view.now)) Refusal.Lost ∷ refuse_if view.now.marked Refusal.Marked ∷ refuse_if (is_degraded view.now) Refusal.Degraded ∷ []) }
{
    first_refusal(&[
        refuse_if(!view.within(), Refusal::Lost),
        refuse_if(view.is_marked(), Refusal::Marked),
        refuse_if(is_degraded(view), Refusal::Degraded),
    ])
}

/// The change that clears the mark of an array where it was set for its blocks: how far it is initialized stays.
fn cleared(config: &Config, guid: Guid, view: &View) -> Option<Change>
    ensures { (array : Array) → lookup (same_guid guid) config.now.arrays ≡ Some array → option_to_list result ≡ (if is_redundant view.now then Change.Unmark guid array.init ∷ [] else []) }
{
    if !view.redundant() {
        return None;
    }
    match config.arrays.get(&guid) {
        Some(array) => Some(Change::Unmark(guid, array.init)),
        None => None,
    }
}

/// What is planned of an array that nothing refuses, by its view.
fn planned(
    alloc: Global,
    config: &Config,
    seats: &[Seat],
    guid: Guid,
    view: View,
    behind: Option<Change>,
) -> Result<Plan, Failure>
    requires { view_of config.now guid seats.now ≡ Ok view }
    ensures { (array : Array) (after : Entry → List Change) → lookup (same_guid guid) config.now.arrays ≡ Some array → after (guid, array) ≡ option_to_list behind
        → MayPlanFor after config.now seats.now (guid, array) result }
{
    is_sound(&view);
    if !view.redundant() {
        let changes = listed(alloc, None, behind)?;
        return Ok(Plan {
            changes,
            redundant: false,
            marks: false,
            view,
            unmarked: None,
        });
    }
    let (marks, view, unmarked) = marked(alloc, config, seats, &guid, view)?;
    is_sound(&view);
    let changes = listed(alloc, Some(Change::Mark(guid)), behind)?;
    Ok(Plan {
        changes,
        redundant: true,
        marks,
        view,
        unmarked,
    })
}

/// Whether to mark an array is a step, its view once it is marked, and that before, where it is another one.
fn marked(
    alloc: Global,
    config: &Config,
    seats: &[Seat],
    guid: &Guid,
    view: View,
) -> Result<(bool, View, Option<View>), Failure>
    requires { view_of config.now guid.now seats.now ≡ Ok view }
    ensures { IsMarkedAs config.now guid.now seats.now view result }
{
    let next = changed_at(alloc, config, &Change::Mark(*guid), config.sequence)?;
    if same_tables(config, &next) {
        return Ok((false, view, None));
    }
    let marked_view = view_of(alloc, &next, seats, guid)?;
    Ok((true, marked_view, Some(view)))
}

/// The view of an array.
fn view_of(alloc: Global, config: &Config, seats: &[Seat], guid: &Guid) -> Result<View, Failure>
    ensures { IsViewed (view_of config.now guid.now seats.now) result }
{
    match View::new(alloc, config, guid, seats) {
        Ok(view) => Ok(view),
        Err(ViewFault::Refused(refusal)) => Err(Failure::Refused(refusal)),
        Err(ViewFault::Memory) => Err(Failure::Memory),
    }
}

/// A view is of a volume, as its type says.
fn is_sound(view: &View)
    ensures { IsVolume view.now }
{
    let _parts = view.parts();
}

/// What there is of two changes, in order.
fn listed(
    alloc: Global,
    first: Option<Change>,
    second: Option<Change>,
) -> Result<Seq<Change>, NoMemory>
    ensures { IfOk result (λ changes. changes ≡ option_to_list first ++ option_to_list second) }
{
    let mut changes = Vec::new(alloc);
    push_change(&mut changes, first)?;
    push_change(&mut changes, second)?;
    Ok(Seq::new(changes))
}

fn push_change(changes: &mut Vec<Change>, change: Option<Change>) -> Result<(), NoMemory>
    ensures { OnOk result (changes.new.items ≡ changes.old.items ++ option_to_list change) }
{
    if let Some(change) = change {
        changes.push(change)?;
    }
    Ok(())
}
