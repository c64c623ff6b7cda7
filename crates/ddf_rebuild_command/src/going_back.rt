//! What is planned of a position that goes back from a revertible spare, before anything is written: where it goes to, the change of its group, and what
//! refuses it. docs/GROUPS.md#orders-of-refusal
ghost use Rattle.std.specs.Prelude.{◌≡◌, ℕ, ◌<◌, ◌^◌, ◌==◌, List, Some, Ok, IfOk};
ghost use Rattle.std.specs.List.{list_any};
ghost use Rattle.ddf_array.specs.Viewing.{view_of};
ghost use Rattle.ddf_plan.specs.declared.change.Change.TheVariants.{Return};
ghost use Rattle.ddf_steps.specs.Asked.{CanBeAsked};
ghost use Rattle.ddf_plan.specs.CreateRefusal.{is_spare_disk};
ghost use Rattle.ddf_recovery.specs.Recovery.{config_recovered};
ghost use Rattle.ddf_request.specs.Named.{named_array};
ghost use Rattle.ddf_request.specs.Usable.{lies_on};
ghost use Rattle.ddf_group_commands.specs.Requests.{linux_members};
ghost use Rattle.ddf_rebuild_command.specs.BackPlans.{MayGo, MayGoBack, MayHaveRoom};
ghost use Rattle.ddf_rebuild_command.specs.GoingBack.{is_taken};
ghost use Rattle.ddf_rebuild_command.specs.Plans.{HaveSeats};

use crate::passing::passed_over;
use crate::planning::{bad_seat, rebuild_cause};
use ddf_answer::Failure;
use ddf_assembly::Group;
use ddf_bytes::{Guid, NoMemory};
use ddf_config::{
    Array, Config, Extent, Refusal, Seat, array_extents, first_refusal, floor_of, refuse_if,
    slot_of,
};
use ddf_group_commands::{linux_members, recovered};
use ddf_plan::Change;
use ddf_read::View;
use ddf_read_commands::{Access, usable};
use ddf_recovery::loss;
use ddf_repair::{Target, choose, go_back, room_for};
use ddf_request::{named_array, reference_on, slots_refusal};
use std::alloc::Global;

/// The level that Linux takes for another layout under one of its qualifiers: RAID 1E. docs/LINUX.md#raid-1e
const MISREAD_LEVEL: u8 = 0x11;

/// What is planned of a position that goes back.
#[derive(Drop)]
pub(crate) struct GoingBack {
    /// The change of its group: the position is on the other disk.
    pub(crate) change: Change,
    /// The position.
    pub(crate) target: Target,
    /// The slot of the seat of the disk that it goes to.
    pub(crate) slot: usize,
    /// The first sector that it has there.
    pub(crate) start: u64,
    /// The array.
    pub(crate) view: View,
}

/// What is planned of the array of a group that a word names, of which a position goes back to the disk of a slot, of so many slots.
///
/// # Errors
/// `Refused` where the array can't be used, isn't within its level, or is marked, where no position of it can go back, or where the disk is none that it can
/// go to; `Memory` where memory ran out.
pub(crate) fn plan_copyback(
    alloc: Global,
    group: &Group,
    slots: usize,
    name: &[u8],
    slot: u8,
) -> Result<GoingBack, Failure>
    requires { HaveSeats (config_recovered group.now) group.now.seats }
    ensures { MayGoBack slots (config_recovered group.now) group.now.seats (linux_members group.now) name.now slot result }
{
    let linux = linux_members(alloc, group)?;
    let loss = loss(alloc, group)?;
    copyback_plan(
        alloc,
        recovered(group, &loss),
        group.seats(),
        linux.as_slice(),
        slots,
        name,
        slot,
    )
}

fn copyback_plan(
    alloc: Global,
    config: &Config,
    seats: &[Seat],
    linux: &[u32],
    slots: usize,
    name: &[u8],
    slot: u8,
) -> Result<GoingBack, Failure>
    requires { HaveSeats config.now seats.now }
    ensures { MayGoBack slots config.now seats.now linux.now name.now slot result }
{
    let Some((_, array)) = named_array(&config.arrays, name) else {
        return Err(Failure::Refused(Refusal::NoArray));
    };
    if let Some(refusal) = slots_refusal(slots, seats, &[slot]) {
        return Err(Failure::Refused(refusal));
    }
    let (guid, view) = usable(alloc, config, seats, name, 0, 0, Access::Reads)?;
    if let Some(refusal) = rebuild_cause(&view) {
        return Err(Failure::Refused(refusal));
    }
    planned_back(alloc, config, seats, linux, guid, array, view, slot)
}

/// What is planned of an array that nothing refuses so far, by its view.
fn planned_back(
    alloc: Global,
    config: &Config,
    seats: &[Seat],
    linux: &[u32],
    guid: Guid,
    array: &Array,
    view: View,
    slot: u8,
) -> Result<GoingBack, Failure>
    requires named { (word : List ℕ) × (named_array config.now.arrays word ≡ Some (guid, array.now)) }
    requires viewed { view_of config.now guid seats.now ≡ Ok view }
    ensures { MayGo config.now seats.now linux.now (guid, array.now) slot result }
{
    // A view is of a volume, and a floor is a number of sectors, as their types say.
    let _parts = view.parts();
    let Some(target) = choose(config, &guid, seats) else {
        return Err(Failure::Refused(Refusal::NoStandIn));
    };
    let room = room_on(alloc, config, seats, linux, &guid, array, &target, slot)?;
    let _floor = small_floor(floor_of(seats, room.reference));
    Ok(GoingBack {
        change: change_to(&guid, &target, room),
        target,
        slot: slot_of(seats, room.reference),
        start: room.start,
        view,
    })
}

/// The floor of a seat, 0 where there is none.
fn small_floor(floor: Option<u64>) -> u64
    ensures { (most : ℕ) → floor ≡ Some most → most < 2 ^ 64 }
{
    floor.unwrap_or(0)
}

/// The change by which the position is at a room.
fn change_to(guid: &Guid, target: &Target, room: Extent) -> Change
    ensures is { result ≡ Return guid.now target.now.element target.now.position room.reference room.start }
    ensures fits { CanBeAsked result }
{
    go_back(guid, target, room)
}

/// The room for a position on the disk of a slot, or why it can't go there.
fn room_on(
    alloc: Global,
    config: &Config,
    seats: &[Seat],
    linux: &[u32],
    guid: &Guid,
    array: &Array,
    target: &Target,
    slot: u8,
) -> Result<Extent, Failure>
    requires named { (word : List ℕ) × (named_array config.now.arrays word ≡ Some (guid.now, array.now)) }
    ensures { MayHaveRoom config.now seats.now linux.now (guid.now, array.now) slot target.now result }
{
    let reference = reference_on(seats, slot);
    let aside = passed_over(config, guid, linux);
    let taken = is_taken(alloc, config, array, reference)?;
    let refusal = first_refusal(&[
        refuse_if(taken, Refusal::InUse(usize::from(slot))),
        refuse_if(is_among(aside, reference), Refusal::Level(MISREAD_LEVEL)),
    ]);
    if let Some(refusal) = refusal {
        return Err(Failure::Refused(refusal));
    }
    let Some(room) = room_for(alloc, config, guid, seats, target, reference)? else {
        return Err(Failure::Refused(Refusal::NoExtent(usize::from(slot))));
    };
    match bad_seat(seats, reference) {
        Some(seat) => Err(Failure::Refused(Refusal::BadBlocks(seat.slot))),
        None => Ok(room),
    }
}

/// Whether a disk is a spare, or holds a position of the array.
fn is_taken(alloc: Global, config: &Config, array: &Array, reference: u32) -> Result<bool, NoMemory>
    ensures { IfOk result (λ taken. taken ≡ is_taken config.now array.now reference) }
{
    let extents = array_extents(alloc, array)?;
    Ok(is_spare_disk(config, reference) || lies_on(extents.as_slice(), reference))
}

fn is_spare_disk(config: &Config, reference: u32) -> bool
    ensures { result ≡ is_spare_disk config.now reference }
{
    match config.members.get(&reference) {
        Some(member) => member.spare.is_spare(),
        None => false,
    }
}

fn lies_on(extents: &[Extent], reference: u32) -> bool
    ensures { result ≡ lies_on extents.now reference }
{
    extents.iter().any(|one| one.reference == reference)
}

fn is_among(references: &[u32], reference: u32) -> bool
    ensures { result ≡ list_any (λ one. one == reference) references.now }
{
    references.iter().any(|one| *one == reference)
}
