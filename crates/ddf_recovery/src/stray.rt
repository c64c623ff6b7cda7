//! Disks of a group that recovery must not write over: those of another group, the only record of an element, older images (39).
//! docs/REFUSALS.md#39-in-full
ghost use Rattle.std.specs.Prelude.{◌≡◌, ◌<◌, ◌^◌, filter_map, IfOk};
ghost use Rattle.std.specs.List.{list_any};
ghost use Rattle.ddf_view.specs.Reading.{are_noted};
ghost use Rattle.ddf_recovery.specs.Recovery.{has_stray, trusted_seats};
ghost use Rattle.ddf_seats.specs.Seated.{seated};
ghost use Rattle.ddf_recovery.specs.Stray.{copies_in, holds_only_record, holds_untold, is_ahead, is_known, is_lost_since, is_of_another, is_stale, is_stray, is_untold, is_untold_in, most_behind, slot_holds_untold, trusted_seat};

use crate::ready::disks_of;
use ddf_assembly::{Group, shown};
use ddf_bytes::NoMemory;
use ddf_config::{Array, Config, Member, Seat};
use ddf_config_records::{Element, RecordSlot};
use ddf_copy::{DiskCopy, Newest};
use ddf_group::{Slots, shows_untaken};
use ddf_seats::Disk;
use ddf_steps::leading_views;
use ddf_view::{View, element_of, shows};
use std::alloc::Global;

/// Whether a disk's copy is of the group, and of the configuration's sequence number or a later one, and doesn't show the configuration.
fn is_ahead(config: &Config, disk: &Disk) -> bool
    ensures { result ≡ is_ahead config.now disk.now }
{
    let header = &disk.copy.header;
    header.guid == config.group
        && header.sequence >= config.sequence
        && !shows(&View::new(disk.copy), config)
}

/// Whether its slot shows another group, which hasn't joined this one, or which has lost the disk since.
fn is_of_another(slots: &Slots, config: &Config, disk: &Disk) -> bool
    ensures { result ≡ is_of_another slots.now config.now disk.now }
{
    disk.copy.header.guid != config.group && shows_untaken(slots, &config.group, disk.seat.slot)
}

// ---- the only record of an element

fn is_known(array: &Array, index: u8) -> bool
    ensures { result ≡ is_known array.now index }
{
    match array.elements.items().get(usize::from(index)) {
        Some(part) => part.is_some(),
        None => false,
    }
}

/// Whether this is a record of an element of a listed array that no leader tells of.
fn is_untold(config: &Config, element: &Element) -> bool
    ensures { result ≡ is_untold config.now element.now }
{
    match config.arrays.get(&element.array) {
        Some(array) => !is_known(array, element.index),
        None => false,
    }
}

fn is_untold_in(config: &Config, slot: &RecordSlot) -> bool
    ensures { result ≡ is_untold_in config.now slot.now }
{
    match element_of(slot) {
        Some(element) => is_untold(config, element),
        None => false,
    }
}

fn has_untold(config: &Config, copy: &DiskCopy) -> bool
    ensures { result ≡ holds_untold config.now copy.now }
{
    let slots = copy.slots.items();
    slots.iter().any(|slot| is_untold_in(config, slot))
}

/// Whether a copy of a slot has such a record, of two that differ either one.
fn any_untold(config: &Config, newest: &Option<Newest>) -> bool
    ensures { result ≡ list_any (holds_untold config.now) (copies_in newest.now) }
{
    match newest {
        Some(Newest::One(_, copy)) => has_untold(config, copy),
        Some(Newest::Level(copy)) => has_untold(config, copy),
        Some(Newest::TwoDiffer(primary, secondary)) => {
            has_untold(config, primary) || has_untold(config, secondary)
        }
        Some(Newest::Neither(_, _)) | None => false,
    }
}

fn slot_holds_untold(config: &Config, newest: &[Option<Newest>], slot: usize) -> bool
    ensures { result ≡ slot_holds_untold config.now newest.now slot }
{
    match newest.get(slot) {
        Some(one) => any_untold(config, one),
        None => false,
    }
}

/// Whether a disk lags on whose slot such a record is.
fn holds_only_record(newest: &[Option<Newest>], config: &Config, disk: &Disk) -> bool
    ensures { result ≡ holds_only_record newest.now config.now disk.now }
{
    !shows(&View::new(disk.copy), config) && slot_holds_untold(config, newest, disk.seat.slot)
}

// ---- an image from before

/// Whether a member is missing that a disk doesn't list as missing.
fn is_lost_since(disk: &Disk, reference: u32, member: &Member) -> bool
    ensures { result ≡ is_lost_since disk.now (reference, member.now) }
{
    member.missing && !View::new(disk.copy).lists_missing(&member.guid, reference)
}

/// How many sequence numbers stops and failing disks leave a disk behind at the most (profile): one change, and two for each member that was lost since.
fn most_behind(config: &Config, disk: &Disk) -> u128
    ensures exact { result ≡ most_behind config.now disk.now }
    ensures small { result < 2 ^ 66 }
{
    let lost = config
        .members
        .iter()
        .filter(|entry| is_lost_since(disk, *entry.0, entry.1))
        .count();
    1 + 2 * (lost as u128)
}

/// Whether a disk is further behind than that, in a group with notes.
fn is_stale(noted: bool, config: &Config, disk: &Disk) -> bool
    ensures { result ≡ is_stale noted config.now disk.now }
{
    let header = &disk.copy.header;
    noted
        && header.guid == config.group
        && u128::from(header.sequence) + most_behind(config, disk) < u128::from(config.sequence)
}

// ---- any of them

fn is_stray(
    slots: &Slots,
    newest: &[Option<Newest>],
    noted: bool,
    config: &Config,
    disk: &Disk,
) -> bool
    ensures { result ≡ is_stray slots.now newest.now noted config.now disk.now }
{
    is_ahead(config, disk)
        || is_of_another(slots, config, disk)
        || holds_only_record(newest, config, disk)
        || is_stale(noted, config, disk)
}

fn some_is_stray(
    slots: &Slots,
    newest: &[Option<Newest>],
    noted: bool,
    config: &Config,
    disks: &[Disk],
) -> bool
    ensures { result ≡ list_any (is_stray slots.now newest.now noted config.now) disks.now }
{
    disks
        .iter()
        .any(|disk| is_stray(slots, newest, noted, config, disk))
}

/// Whether a leader has valid notes.
fn are_noted(leaders: &[View]) -> bool
    ensures { result ≡ are_noted leaders.now }
{
    leaders.iter().any(|leader| leader.is_noted())
}

/// Whether recovery must not write over some disk of a group.
///
/// # Errors
/// Memory ran out.
#[tactic(auto, unfolding(ddf_seats::specs::Leading::leading_disks))]
pub fn any_stray(alloc: Global, group: &Group, disks: &[Disk]) -> Result<bool, NoMemory>
    requires { disks.now ≡ seated group.now }
    ensures { IfOk result (λ any. any ≡ has_stray group.now) }
{
    let leaders = leading_views(alloc, group.config(), disks)?;
    let shown = shown(alloc, group.newest())?;
    let slots = Slots::new(alloc, &shown)?;
    let noted = are_noted(&leaders);
    let any = some_is_stray(&slots, group.newest(), noted, group.config(), disks);
    Ok(any)
}

// ---- the seats that blocks may be read from

/// The seat of a disk that is none of them.
fn trusted_seat(
    slots: &Slots,
    newest: &[Option<Newest>],
    noted: bool,
    config: &Config,
    disk: &Disk,
) -> Option<Seat>
    ensures { result ≡ trusted_seat slots.now newest.now noted config.now disk.now }
{
    if is_stray(slots, newest, noted, config, disk) {
        None
    } else {
        Some(disk.seat)
    }
}

fn all_trusted(
    alloc: Global,
    slots: &Slots,
    newest: &[Option<Newest>],
    noted: bool,
    config: &Config,
    disks: &[Disk],
) -> Result<Vec<Seat>, NoMemory>
    ensures { IfOk result (λ seats. seats.items ≡ filter_map (trusted_seat slots.now newest.now noted config.now) disks.now) }
{
    let seats = disks
        .iter()
        .filter_map(|disk| trusted_seat(slots, newest, noted, config, disk))
        .collect(alloc)?;
    Ok(seats)
}

/// The seats of those of a group's disks that are none of them.
#[tactic(auto, unfolding(ddf_seats::specs::Leading::leading_disks, crate::specs::Recovery::trusted_seats))]
fn trusted_among(alloc: Global, group: &Group, disks: &[Disk]) -> Result<Vec<Seat>, NoMemory>
    requires { disks.now ≡ seated group.now }
    ensures { IfOk result (λ seats. seats.items ≡ trusted_seats group.now) }
{
    let leaders = leading_views(alloc, group.config(), disks)?;
    let shown = shown(alloc, group.newest())?;
    let slots = Slots::new(alloc, &shown)?;
    let noted = are_noted(&leaders);
    let newest = group.newest();
    let seats = all_trusted(alloc, &slots, newest, noted, group.config(), disks)?;
    Ok(seats)
}

/// The seats of those disks that recovery may write over, in the order of their slots. What any other disk holds is no source of blocks: it
/// may have missed what was written since, or be another group's by now.
///
/// # Errors
/// Memory ran out.
pub fn trusted_seats(alloc: Global, group: &Group) -> Result<Vec<Seat>, NoMemory>
    ensures trusted { IfOk result (λ seats. seats.items ≡ trusted_seats group.now) }
{
    let disks = disks_of(alloc, group)?;
    let seats = trusted_among(alloc, group, &disks)?;
    Ok(seats)
}
