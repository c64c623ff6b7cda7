//! Where the members of a configuration are.
ghost use Rattle.std.specs.Prelude.{◌≡◌, map, filter, IfOk};
ghost use Rattle.std.specs.List.{list_any};
ghost use Rattle.ddf_group.specs.Assembled.{absent, has_reference, is_absent, lagging};

use crate::slots::Slots;
use ddf_bytes::NoMemory;
use ddf_config::{Config, Member};
use indexmap::IndexMap;
use std::alloc::Global;

/// Whether a slot's disk has this reference.
fn has_reference(slots: &Slots, reference: u32, slot: usize) -> bool
    ensures { result ≡ has_reference slots.now reference slot }
{
    match slots.reference(slot) {
        Some(one) => one == reference,
        None => false,
    }
}

/// Whether one of these slots is the disk with this reference.
fn is_seated(slots: &Slots, seats: &[usize], reference: u32) -> bool
    ensures { result ≡ list_any (has_reference slots.now reference) seats.now }
{
    seats
        .iter()
        .any(|slot| has_reference(slots, reference, *slot))
}

/// Whether a member is current and has no seat.
fn is_absent(slots: &Slots, seats: &[usize], reference: u32, member: &Member) -> bool
    ensures { result ≡ is_absent slots.now seats.now (reference, member.now) }
{
    !member.missing && !is_seated(slots, seats, reference)
}

/// The current members without a seat, in table order.
pub(crate) fn absent(
    alloc: Global,
    slots: &Slots,
    seats: &[usize],
    members: &IndexMap<u32, Member>,
) -> Result<Vec<u32>, NoMemory>
    ensures { IfOk result (λ references. references.items ≡ absent slots.now seats.now members.now.entries) }
{
    let references = members
        .iter()
        .filter(|(reference, member)| is_absent(slots, seats, **reference, member))
        .map(|(reference, _)| *reference)
        .collect(alloc)?;
    Ok(references)
}

/// The seats that don't hold the configuration in two level copies.
pub(crate) fn lagging(
    alloc: Global,
    slots: &Slots,
    seats: &[usize],
    config: &Config,
) -> Result<Vec<usize>, NoMemory>
    ensures { IfOk result (λ behind. behind.items ≡ lagging slots.now seats.now config.now) }
{
    let behind = seats
        .iter()
        .copied()
        .filter(|slot| !slots.has_config(*slot, config))
        .collect(alloc)?;
    Ok(behind)
}
