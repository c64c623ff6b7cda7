//! What is planned of the rebuild of an array before anything is written: the changes of its group, the rows between these, and what refuses it.
//! docs/GROUPS.md#orders-of-refusal
ghost use Rattle.std.specs.Prelude.{◌≡◌, ℕ, List, ◌≤◌, ◌^◌, ◌==◌, ◌&&◌, ◌++◌, ◌∷◌, [], false, not, nat_lt, find, slice_get, option_to_list, Some, Ok, IfOk};
ghost use Rattle.std.specs.Map.{lookup};
ghost use Rattle.std.specs.Option.{option_copied};
ghost use Rattle.ddf_array.specs.Viewing.{view_of};
ghost use Rattle.ddf_array.specs.Volume.{Volume};
ghost use Rattle.ddf_array.specs.Within.{is_within};
ghost use Rattle.ddf_array.specs.declared.part.Part.{Part};
ghost use Rattle.ddf_array.specs.declared.place.Place.{Place};
ghost use Rattle.ddf_rebuild.specs.Target.{row_count};
ghost use Rattle.ddf_config.specs.Members.{same_guid};
ghost use Rattle.ddf_config.specs.Refusals.{first_refusal, refuse_if};
ghost use Rattle.ddf_config.specs.declared.array.Array.{Array};
ghost use Rattle.ddf_config.specs.declared.refusal.Refusal.{Refusal};
ghost use Rattle.ddf_config.specs.declared.seat.Seat.{Seat};
ghost use Rattle.ddf_plan.specs.Arrays.{HasNewGuid};
ghost use Rattle.ddf_plan.specs.declared.change.Change.{Change};
ghost use Rattle.ddf_repair.specs.Begin.{begun};
ghost use Rattle.ddf_repair.specs.declared.beginning.Begun.{Begun};
ghost use Rattle.ddf_recovery.specs.Recovery.{config_recovered};
ghost use Rattle.ddf_group_commands.specs.Requests.{linux_members};
ghost use Rattle.ddf_read_commands.specs.Use.{IsViewed};
ghost use Rattle.ddf_rebuild_command.specs.Asked.{bad_spare, rows_in};
ghost use Rattle.ddf_rebuild_command.specs.Plans.{FitsBegin, HaveSeats, MayPlan, MayPlanFor, filled, notes_and_end, spare_view};

use crate::notes::notes;
use crate::passing::passed_over;
use ddf_answer::Failure;
use ddf_assembly::Group;
use ddf_bytes::{Guid, NoMemory, Seq};
use ddf_config::{Config, Refusal, Seat, first_refusal, refuse_if};
use ddf_group_commands::{linux_members, recovered};
use ddf_plan::{Change, changed_at};
use ddf_read::{View, ViewFault};
use ddf_read_commands::{Access, usable};
use ddf_rebuild::row_count;
use ddf_recovery::loss;
use ddf_repair::{Begun, RebuildFault, Target, begin, finish};
use std::alloc::Global;

/// The rows of a position that are to be filled.
#[derive(Drop)]
pub(crate) struct Filling {
    /// The position gets a spare before.
    pub(crate) begins: bool,
    /// The position.
    pub(crate) target: Target,
    /// The row from which it is filled: those before are kept.
    pub(crate) from: u64,
    /// The rows up to which it is filled, rising: behind each stands a change, and the last are all rows.
    pub(crate) rows: Seq<u64>,
    /// The array, once the position has its disk.
    pub(crate) view: View,
}

/// What is planned of the rebuild of an array.
#[derive(Drop)]
pub(crate) struct Plan {
    /// The changes of its group.
    pub(crate) changes: Seq<Change>,
    /// What is to be filled; nothing where every position is in sync.
    pub(crate) filling: Option<Filling>,
}

/// What is planned of the array of a group that a word names, to rebuild its first position that is out of sync.
///
/// # Errors
/// `Refused` where the array can't be used, isn't within its level, or is marked, where no spare is for it or none has room, or where the spare has bad blocks; `Memory`
/// where memory ran out.
pub(crate) fn plan_rebuild(alloc: Global, group: &Group, name: &[u8]) -> Result<Plan, Failure>
    requires { HaveSeats (config_recovered group.now) group.now.seats }
    ensures { MayPlan (config_recovered group.now) group.now.seats (linux_members group.now) name.now result }
{
    let linux = linux_members(alloc, group)?;
    let loss = loss(alloc, group)?;
    rebuild_plan(
        alloc,
        recovered(group, &loss),
        group.seats(),
        linux.as_slice(),
        name,
    )
}

fn rebuild_plan(
    alloc: Global,
    config: &Config,
    seats: &[Seat],
    linux: &[u32],
    name: &[u8],
) -> Result<Plan, Failure>
    requires { HaveSeats config.now seats.now }
    ensures { MayPlan config.now seats.now linux.now name.now result }
{
    let (guid, view) = usable(alloc, config, seats, name, 0, 0, Access::Reads)?;
    if let Some(refusal) = rebuild_cause(&view) {
        return Err(Failure::Refused(refusal));
    }
    let aside = passed_over(config, &guid, linux);
    planned(alloc, config, seats, aside, guid, view)
}

/// Why an array isn't rebuilt, behind what any use of its blocks is refused for.
pub(crate) fn rebuild_cause(view: &View) -> Option<Refusal>
    ensures { result ≡ first_refusal (refuse_if (not (is_within view.now)) Refusal.Lost ∷ refuse_if view.now.marked Refusal.Marked ∷ []) }
{
    first_refusal(&[
        refuse_if(!view.within(), Refusal::Lost),
        refuse_if(view.is_marked(), Refusal::Marked),
    ])
}

/// What is planned of an array that nothing refuses so far, by its view. It isn't put on the disks that are set aside.
fn planned(
    alloc: Global,
    config: &Config,
    seats: &[Seat],
    aside: &[u32],
    guid: Guid,
    view: View,
) -> Result<Plan, Failure>
    requires seated { HaveSeats config.now seats.now }
    requires viewed { view_of config.now guid seats.now ≡ Ok view }
    requires unmarked { view.marked ≡ false }
    ensures { (array : Array) → lookup (same_guid guid) config.now.arrays ≡ Some array → MayPlanFor config.now seats.now aside.now (guid, array) result }
{
    // A view is of a volume, as its type says.
    let _parts = view.parts();
    match begin(alloc, config, &guid, seats, aside) {
        Ok(Begun::Nothing) => Ok(Plan {
            changes: Seq::new(Vec::new(alloc)),
            filling: None,
        }),
        Ok(Begun::Again(target)) => {
            let (rows, kept) = rows_of(&view, &target);
            let plan = filled(alloc, None, guid, target, kept, rows, view)?;
            Ok(plan)
        }
        Ok(Begun::Fresh(target, change)) => {
            let (rows, _) = rows_of(&view, &target);
            fresh(alloc, config, seats, guid, target, change, rows)
        }
        Err(RebuildFault::NoSpare) => Err(Failure::Refused(Refusal::NoSpare)),
        Err(RebuildFault::Small { needed, found }) => {
            Err(Failure::Refused(Refusal::Small { needed, found }))
        }
        Err(RebuildFault::Memory) => Err(Failure::Memory),
    }
}

/// The rows of the element of a position, and those of the position that are rebuilt.
fn rows_of(view: &View, target: &Target) -> (u64, u64)
    requires { (part : Part) × (place : Place) × (slice_get view.now.parts target.now.element ≡ Some part) × (slice_get part.places target.now.position ≡ Some place) }
    ensures rows { (part : Part) → slice_get view.now.parts target.now.element ≡ Some part → result.0 ≡ row_count part.shape }
    ensures kept { (part : Part) (place : Place) → slice_get view.now.parts target.now.element ≡ Some part → slice_get part.places target.now.position ≡ Some place
        → result.1 ≡ place.row }
    ensures few { result.0 ≤ 2 ^ 48 }
{
    let part = &view.parts()[usize::from(target.element)];
    let place = part.places.items()[usize::from(target.position)];
    (row_count(part), place.row)
}

/// What is planned of a position that gets a spare by a change, in an element of so many rows.
fn fresh(
    alloc: Global,
    config: &Config,
    seats: &[Seat],
    guid: Guid,
    target: Target,
    change: Change,
    rows: u64,
) -> Result<Plan, Failure>
    requires few { rows ≤ 2 ^ 48 }
    requires begun { (aside : List ℕ) × (begun config.now guid seats.now aside ≡ Ok (Begun.Fresh target change)) }
    requires viewed { (view : Volume) × (view_of config.now guid seats.now ≡ Ok view) × (view.marked ≡ false) }
    ensures { (aside : List ℕ) (array : Array) → lookup (same_guid guid) config.now.arrays ≡ Some array → rows ≡ rows_in array target.element
        → begun config.now guid seats.now aside ≡ Ok (Begun.Fresh target change) → MayPlanFor config.now seats.now aside (guid, array) result }
{
    // No two arrays have the same GUID, and a view is of a volume, as their types say.
    let _arrays = config.arrays.len();
    let view = spare_view(alloc, config, seats, &guid, &change)?;
    let _parts = view.parts();
    let plan = filled(alloc, Some(change), guid, target, 0, rows, view)?;
    Ok(plan)
}

/// The view of an array once a position of it has a spare, by a change.
fn spare_view(
    alloc: Global,
    config: &Config,
    seats: &[Seat],
    guid: &Guid,
    change: &Change,
) -> Result<View, Failure>
    requires { HasNewGuid config.now.arrays change.now }
    ensures viewed { IsViewed (spare_view config.now guid.now seats.now change.now) result }
    ensures fits { FitsBegin change.now }
{
    if let Some(refusal) = bad_spare(seats, change) {
        return Err(Failure::Refused(refusal));
    }
    let next = changed_at(alloc, config, change, config.sequence)?;
    view_of(alloc, &next, seats, guid)
}

/// The view of an array.
fn view_of(alloc: Global, config: &Config, seats: &[Seat], guid: &Guid) -> Result<View, Failure>
    ensures { IsViewed (view_of config.now guid.now seats.now) result }
{
    match View::new(alloc, config, guid, seats) {
        Ok(view) => Ok(view),
        Err(ViewFault::Refused(refusal)) => Err(Failure::Refused(refusal)),
        Err(ViewFault::Memory) => Err(Failure::Memory),
    }
}

/// The refusal of a spare whose seat lists bad blocks.
fn bad_spare(seats: &[Seat], change: &Change) -> Option<Refusal>
    ensures bad { result ≡ bad_spare seats.now change.now }
    ensures fits { FitsBegin change.now }
{
    match change {
        Change::Begin {
            reference,
            start,
            ..
        } => {
            let _start = *start;
            match bad_seat(seats, *reference) {
                Some(seat) => Some(Refusal::BadBlocks(seat.slot)),
                None => None,
            }
        }
        _ => None,
    }
}

pub(crate) fn bad_seat(seats: &[Seat], reference: u32) -> Option<&Seat>
    ensures { option_copied result ≡ find (λ (seat : Seat). nat_lt 0 seat.bad && seat.reference == reference) seats.now }
{
    seats
        .iter()
        .find(|seat| seat.bad > 0 && seat.reference == reference)
}

/// What is planned of a position behind the rows that are kept, where a change may come before.
fn filled(
    alloc: Global,
    before: Option<Change>,
    guid: Guid,
    target: Target,
    kept: u64,
    rows: u64,
    view: View,
) -> Result<Plan, NoMemory>
    requires { rows ≤ 2 ^ 48 }
    ensures { IfOk result (λ plan. plan ≡ filled before guid target kept rows view) }
{
    let begins = before.is_some();
    let mut ends = notes(alloc, kept, rows)?;
    let changes = changes_of(alloc, before, &guid, &target, ends.as_slice())?;
    ends.push(rows)?;
    Ok(Plan {
        changes: Seq::new(changes),
        filling: Some(Filling {
            begins,
            target,
            from: kept.min(rows),
            rows: Seq::new(ends),
            view,
        }),
    })
}

/// The changes: the one before, where there is one, a note of the position's progress at each of these rows, and its end.
fn changes_of(
    alloc: Global,
    before: Option<Change>,
    guid: &Guid,
    target: &Target,
    notes: &[u64],
) -> Result<Vec<Change>, NoMemory>
    ensures { IfOk result (λ changes. changes.items ≡ option_to_list before ++ notes_and_end guid.now target.now notes.now) }
{
    let mut changes = Vec::new(alloc);
    if let Some(change) = before {
        changes.push(change)?;
    }
    for row in notes {
        changes.push(Change::Progress {
            array: *guid,
            element: target.element,
            position: target.position,
            row: *row,
        })?;
    }
    changes.push(finish(guid, target))?;
    Ok(changes)
}
