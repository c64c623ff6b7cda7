//! The spares that may stand in for a disk of an array, the array's own before those for all, and the room on them. Some disks are passed over, among
//! them one on which the array has another position: both would be lost with one disk. docs/COMMANDS.md#rebuild
ghost use Rattle.std.specs.Prelude.{◌≡◌, ◌≤◌, ◌++◌, IfOk, OnOk};
ghost use Rattle.std.specs.List.{list_any};
ghost use Rattle.ddf_config.specs.Members.{same_guid};
ghost use Rattle.ddf_config.specs.Seats.{floor_of};
ghost use Rattle.ddf_repair.specs.Spares.{is_dedicated_to, is_global, can_stand_in, is_spare_of, spares_of, spares_for, limit_on, extent_on, first_extent, most_on, most_of};

use crate::most::most_within;
use ddf_bytes::{Guid, NoMemory};
use ddf_config::{Extent, Member, Seat, SpareUse, floor_of, is_current, least_start, ranges_on};
use ddf_plan::is_among;
use indexmap::IndexMap;
use std::alloc::Global;

fn has_guid(guids: &[Guid], guid: &Guid) -> bool
    ensures { result ≡ list_any (same_guid guid.now) guids.now }
{
    guids.iter().any(|other| *guid == *other)
}

fn is_dedicated_to(guid: &Guid, use_as: &SpareUse) -> bool
    ensures { result ≡ is_dedicated_to guid.now use_as.now }
{
    match use_as {
        SpareUse::No | SpareUse::Global | SpareUse::Revertible => false,
        SpareUse::Dedicated(guids) => has_guid(guids.items(), guid),
    }
}

fn is_global(use_as: &SpareUse) -> bool
    ensures { result ≡ is_global use_as.now }
{
    matches!(use_as, SpareUse::Global | SpareUse::Revertible)
}

/// Whether a member is current, its disk is here, and it isn't passed over.
fn can_stand_in(
    members: &IndexMap<u32, Member>,
    seats: &[Seat],
    used: &[u32],
    reference: u32,
) -> bool
    ensures { result ≡ can_stand_in members.now.entries seats.now used.now reference }
{
    is_current(members, reference)
        && floor_of(seats, reference).is_some()
        && !is_among(used, reference)
}

fn push_dedicated(
    spares: &mut Vec<u32>,
    guid: &Guid,
    seats: &[Seat],
    used: &[u32],
    members: &IndexMap<u32, Member>,
) -> Result<(), NoMemory>
    ensures { OnOk result (spares.new.items ≡ spares.old.items ++ spares_of (is_dedicated_to guid.now) members.now.entries seats.now used.now members.now.entries) }
{
    for (reference, member) in members {
        if can_stand_in(members, seats, used, *reference) && is_dedicated_to(guid, &member.spare) {
            spares.push(*reference)?;
        }
    }
    Ok(())
}

fn push_global(
    spares: &mut Vec<u32>,
    seats: &[Seat],
    used: &[u32],
    members: &IndexMap<u32, Member>,
) -> Result<(), NoMemory>
    ensures { OnOk result (spares.new.items ≡ spares.old.items ++ spares_of is_global members.now.entries seats.now used.now members.now.entries) }
{
    for (reference, member) in members {
        if can_stand_in(members, seats, used, *reference) && is_global(&member.spare) {
            spares.push(*reference)?;
        }
    }
    Ok(())
}

/// The references of the spares for an array that passes over these disks, its own ones before the global ones, each in table order.
pub(crate) fn spares_for(
    alloc: Global,
    guid: &Guid,
    seats: &[Seat],
    used: &[u32],
    members: &IndexMap<u32, Member>,
) -> Result<Vec<u32>, NoMemory>
    ensures { IfOk result (λ spares. spares.items ≡ spares_for guid.now seats.now used.now members.now.entries) }
{
    let mut spares = Vec::new(alloc);
    push_dedicated(&mut spares, guid, seats, used, members)?;
    push_global(&mut spares, seats, used, members)?;
    Ok(spares)
}

/// Where an extent on a disk has to end: within its configured size, and at or below the floor of its seat.
fn limit_on(members: &IndexMap<u32, Member>, seats: &[Seat], reference: u32) -> Option<u64>
    ensures { result ≡ limit_on members.now.entries seats.now reference }
{
    match members.get(&reference) {
        Some(member) => match floor_of(seats, reference) {
            Some(floor) => Some(member.size.min(floor)),
            None => None,
        },
        None => None,
    }
}

pub(crate) fn extent_on(
    alloc: Global,
    members: &IndexMap<u32, Member>,
    all: &[Extent],
    seats: &[Seat],
    strip: u64,
    blocks: u64,
    reference: u32,
) -> Result<Option<Extent>, NoMemory>
    requires { 1 ≤ strip }
    ensures { IfOk result (λ found. found ≡ extent_on members.now.entries all.now seats.now strip blocks reference) }
{
    match limit_on(members, seats, reference) {
        Some(limit) => {
            let taken = ranges_on(alloc, all, reference)?;
            match least_start(taken.as_slice(), limit, strip, blocks) {
                Some(start) => Ok(Some(Extent {
                    reference,
                    start,
                    blocks,
                })),
                None => Ok(None),
            }
        }
        None => Ok(None),
    }
}

/// The extent on the first of these disks that has room.
pub(crate) fn first_extent(
    alloc: Global,
    members: &IndexMap<u32, Member>,
    all: &[Extent],
    seats: &[Seat],
    strip: u64,
    blocks: u64,
    references: &[u32],
) -> Result<Option<Extent>, NoMemory>
    requires { 1 ≤ strip }
    ensures { IfOk result (λ found. found ≡ first_extent members.now.entries all.now seats.now strip blocks references.now) }
{
    let mut rest = references;
    while let Some((reference, others)) = rest.split_first() {
        let found = extent_on(alloc, members, all, seats, strip, blocks, *reference)?;
        if let Some(extent) = found {
            return Ok(Some(extent));
        }
        rest = others;
    }
    Ok(None)
}

fn most_on(
    alloc: Global,
    members: &IndexMap<u32, Member>,
    all: &[Extent],
    seats: &[Seat],
    strip: u64,
    reference: u32,
) -> Result<u64, NoMemory>
    requires { 1 ≤ strip }
    ensures { IfOk result (λ most. most ≡ most_on members.now.entries all.now seats.now strip reference) }
{
    match limit_on(members, seats, reference) {
        Some(limit) => {
            let taken = ranges_on(alloc, all, reference)?;
            Ok(most_within(taken.as_slice(), limit, strip))
        }
        None => Ok(0),
    }
}

/// The most blocks for which one of these disks has room.
pub(crate) fn most_of(
    alloc: Global,
    members: &IndexMap<u32, Member>,
    all: &[Extent],
    seats: &[Seat],
    strip: u64,
    references: &[u32],
) -> Result<u64, NoMemory>
    requires { 1 ≤ strip }
    ensures { IfOk result (λ most. most ≡ most_of members.now.entries all.now seats.now strip references.now) }
{
    let mut most = 0;
    for reference in references {
        let here = most_on(alloc, members, all, seats, strip, *reference)?;
        most = most.max(here);
    }
    Ok(most)
}
