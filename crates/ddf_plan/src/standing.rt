//! Disks that stand in for others, and give their places back: revertible spares. docs/GROUPS.md#changes
ghost use Rattle.std.specs.Prelude.{◌≡◌, IfOk};
ghost use Rattle.std.specs.List.{list_any};
ghost use Rattle.ddf_plan.specs.Standing.{
  given_back,
  gives_up,
  has_stand_in,
  holds_beside,
  holds_one,
  is_given_back,
  is_held_by,
  is_left_by,
  is_revertible,
  is_revertible_spare,
  is_stand_in,
  is_used_beside,
  part_stands_in,
  stand_in_after,
  stands_in,
  takes_revertible,
};

use crate::Change;
use crate::rebuild::reference_at;
use crate::spare::{array_refers, positions_refer};
use ddf_bytes::{Guid, NoMemory};
use ddf_config::{Array, Config, ElementPlan, SpareUse, extents, is_current};
use std::alloc::Global;

/// Whether a disk stands in at one of the element's positions.
fn has_stand_in(element: &ElementPlan) -> bool
    ensures { result ≡ has_stand_in element.now }
{
    element.stand_in != 0 && positions_refer(element.positions.as_slice(), element.stand_in)
}

fn is_revertible(use_as: &SpareUse) -> bool
    ensures { result ≡ is_revertible use_as.now }
{
    matches!(use_as, SpareUse::Revertible)
}

fn is_revertible_spare(config: &Config, reference: u32) -> bool
    ensures { result ≡ is_revertible_spare config.now.members reference }
{
    match config.members.get(&reference) {
        Some(member) => is_revertible(&member.spare),
        None => false,
    }
}

/// Whether a rebuild begins on a revertible spare.
pub(crate) fn takes_revertible(config: &Config, change: &Change) -> bool
    ensures { result ≡ takes_revertible config.now change.now }
{
    match change {
        Change::Begin { reference, .. } => is_revertible_spare(config, *reference),
        Change::Lose(_)
        | Change::Create(_, _)
        | Change::Delete(_)
        | Change::Spare(_, _)
        | Change::Fail(_)
        | Change::Mark(_)
        | Change::Unmark(_, _)
        | Change::Rewind(_)
        | Change::Progress { .. }
        | Change::Finish { .. }
        | Change::Return { .. } => false,
    }
}

/// The disk that stands in at an element after a change of one of its positions, 0 for none.
pub(crate) fn stand_in_after(revertible: bool, change: &Change, element: &ElementPlan) -> u32
    ensures { result ≡ stand_in_after revertible change.now element.now }
{
    match change {
        Change::Begin { reference, .. } => {
            if revertible && !has_stand_in(element) {
                *reference
            } else {
                element.stand_in
            }
        }
        Change::Return { .. } => 0,
        Change::Lose(_)
        | Change::Create(_, _)
        | Change::Delete(_)
        | Change::Spare(_, _)
        | Change::Fail(_)
        | Change::Mark(_)
        | Change::Unmark(_, _)
        | Change::Rewind(_)
        | Change::Progress { .. }
        | Change::Finish { .. } => element.stand_in,
    }
}

/// The use of a disk that perhaps gives a place back: one that is no spare is a revertible one again.
pub(crate) fn given_back(gives: bool, use_as: SpareUse) -> SpareUse
    ensures { result ≡ given_back gives use_as }
{
    match use_as {
        SpareUse::No => {
            if gives {
                SpareUse::Revertible
            } else {
                SpareUse::No
            }
        }
        SpareUse::Global => SpareUse::Global,
        SpareUse::Revertible => SpareUse::Revertible,
        SpareUse::Dedicated(guids) => SpareUse::Dedicated(guids),
    }
}

/// Whether a position is on the disk.
fn is_held_by(config: &Config, guid: Guid, element: u8, position: u16, reference: u32) -> bool
    ensures { result ≡ is_held_by config.now guid element position reference }
{
    match reference_at(config, guid, element, position) {
        Some(held) => held == reference,
        None => false,
    }
}

/// Whether no more than one extent is on the disk.
fn holds_one(alloc: Global, config: &Config, reference: u32) -> Result<bool, NoMemory>
    ensures { IfOk result (λ holds. holds ≡ holds_one config.now reference) }
{
    let all = extents(alloc, &config.arrays)?;
    let held = all.iter().filter(|one| one.reference == reference).count();
    Ok(held <= 1)
}

/// Whether the position is on a current member's disk, and moves to another one.
fn gives_up(
    config: &Config,
    guid: Guid,
    element: u8,
    position: u16,
    disk: u32,
    reference: u32,
) -> bool
    ensures { result ≡ gives_up config.now guid element position disk reference }
{
    is_current(&config.members, reference)
        && is_held_by(config, guid, element, position, reference)
        && disk != reference
}

/// Whether a disk is a revertible spare again where the position moves to another one.
///
/// # Errors
/// Memory ran out.
pub(crate) fn is_given_back(
    alloc: Global,
    config: &Config,
    guid: Guid,
    element: u8,
    position: u16,
    disk: u32,
    reference: u32,
) -> Result<bool, NoMemory>
    ensures { IfOk result (λ gives. gives ≡ is_given_back config.now guid element position disk reference) }
{
    if gives_up(config, guid, element, position, disk, reference) {
        holds_one(alloc, config, reference)
    } else {
        Ok(false)
    }
}

fn is_stand_in(element: &ElementPlan, reference: u32) -> bool
    ensures { result ≡ is_stand_in reference element.now }
{
    element.stand_in == reference && has_stand_in(element)
}

fn part_stands_in(part: &Option<ElementPlan>, reference: u32) -> bool
    ensures { result ≡ part_stands_in reference part.now }
{
    match part {
        Some(element) => is_stand_in(element, reference),
        None => false,
    }
}

fn some_part_stands_in(parts: &[Option<ElementPlan>], reference: u32) -> bool
    ensures { result ≡ list_any (part_stands_in reference) parts.now }
{
    parts.iter().any(|part| part_stands_in(part, reference))
}

/// Whether the disk stands in at an element of the array.
fn stands_in(config: &Config, guid: Guid, reference: u32) -> bool
    ensures { result ≡ stands_in config.now guid reference }
{
    match config.arrays.get(&guid) {
        Some(array) => some_part_stands_in(array.elements.items(), reference),
        None => false,
    }
}

fn is_used_beside(guid: Guid, reference: u32, other: Guid, array: &Array) -> bool
    ensures { result ≡ is_used_beside guid reference (other, array.now) }
{
    guid != other && array_refers(array, reference)
}

/// Whether an array other than this one has a position on the disk.
fn holds_beside(config: &Config, guid: Guid, reference: u32) -> bool
    ensures { result ≡ holds_beside config.now guid reference }
{
    config.arrays.iter().any(|(other, array)| is_used_beside(guid, reference, *other, array))
}

/// Whether a disk is a revertible spare again where the array is no more.
pub(crate) fn is_left_by(config: &Config, guid: Guid, reference: u32) -> bool
    ensures { result ≡ is_left_by config.now guid reference }
{
    is_current(&config.members, reference)
        && stands_in(config, guid, reference)
        && !holds_beside(config, guid, reference)
}
