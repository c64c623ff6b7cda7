//! Newest records of one group that contradict each other: the first difference is told, and nothing is written. docs/REFUSALS.md#conflict
ghost use Rattle.std.specs.Prelude.{◌≡◌, find, option_map, IfOk};
ghost use Rattle.ddf_group.specs.Pairs.{first_pair};
ghost use Rattle.ddf_group.specs.Slots.{claims_by, numbers, shows_group, slot_at, view_in};
ghost use Rattle.ddf_group.specs.Conflicts.{concerned, differ_at, difference_of, in_conflict, is_concerned, leads_with_two, same_reference, sequence_of, twin_of, twins, two_copies};

use crate::pairs::{Contrast, first_pair};
use crate::slots::Slots;
use crate::views::views_of;
use crate::{Assembly, Differ};
use ddf_bytes::{Guid, NoMemory};
use ddf_view::{Difference, View, are_alike, first_difference};
use std::alloc::Global;

/// The sequence number of the group's leaders.
pub(crate) fn sequence_of(slots: &Slots, group: &Guid) -> u32
    ensures { result ≡ sequence_of slots.now group.now }
{
    match slots.first_leader(group) {
        Some(slot) => slots.sequence(slot),
        None => 0,
    }
}

fn in_conflict(slots: &Slots, group: &Guid, i: usize, j: usize, differ: Differ) -> Assembly
    ensures { result ≡ in_conflict slots.now group.now i j differ }
{
    Assembly::Conflict {
        i,
        j,
        sequence: sequence_of(slots, group),
        differ,
    }
}

/// Whether a slot leads the group and has two copies that differ.
fn leads_with_two(slots: &Slots, group: &Guid, slot: usize) -> bool
    ensures { result ≡ leads_with_two slots.now group.now slot }
{
    slots.has_two(slot) && slots.leads(group, slot)
}

fn first_with_two(slots: &Slots, group: &Guid) -> Option<usize>
    ensures { result ≡ find (leads_with_two slots.now group.now) (numbers slots.now) }
{
    (0..slots.count()).find(|slot| leads_with_two(slots, group, *slot))
}

/// A leader whose own two copies differ.
pub(crate) fn two_copies(slots: &Slots, group: &Guid) -> Option<Assembly>
    ensures { result ≡ two_copies slots.now group.now }
{
    match first_with_two(slots, group) {
        Some(slot) => Some(in_conflict(slots, group, slot, slot, Differ::Copies)),
        None => None,
    }
}

/// The slots that show the group or are claimed by it, in rising order.
fn concerned(alloc: Global, slots: &Slots, group: &Guid) -> Result<Vec<usize>, NoMemory>
    ensures { IfOk result (λ all. all.items ≡ concerned slots.now group.now) }
{
    let leader = slots.leading_view(group);
    let all = (0..slots.count())
        .filter(|slot| slots.shows(group, *slot) || slots.is_claimed(leader, *slot))
        .collect(alloc)?;
    Ok(all)
}

fn same_reference(one: Option<u32>, other: Option<u32>) -> Option<u32>
    ensures { result ≡ same_reference one other }
{
    match (one, other) {
        (Some(one), Some(other)) if one == other => Some(one),
        _ => None,
    }
}

/// Two slots with one reference.
#[derive(Drop)]
struct SameDisk<'a> {
    slots: &'a Slots<'a, 'a>,
    group: &'a Guid,
}

impl Contrast for SameDisk<'_> {
    ghost use Rattle.ddf_group.specs.Conflicts.{twin_of};

    ghost contradicts = { λ test. twin_of test.slots.now test.group.now };

    fn contradict(&self, i: usize, j: usize) -> Option<Assembly> {
        match same_reference(self.slots.reference(i), self.slots.reference(j)) {
            Some(reference) => Some(in_conflict(
                self.slots,
                self.group,
                i,
                j,
                Differ::Twin(reference),
            )),
            None => None,
        }
    }
}

/// Two slots of the group with one reference.
pub(crate) fn twins(
    alloc: Global,
    slots: &Slots,
    group: &Guid,
) -> Result<Option<Assembly>, NoMemory>
    ensures { IfOk result (λ found. found ≡ twins slots.now group.now) }
{
    let all = concerned(alloc, slots, group)?;
    Ok(first_pair(&SameDisk { slots, group }, &all))
}

fn difference_of(one: Option<&View>, other: Option<&View>) -> Option<Difference>
    ensures { result ≡ difference_of (option_map (λ view. view.now) one.entry) (option_map (λ view. view.now) other.entry) }
{
    match (one, other) {
        (Some(one), Some(other)) => first_difference(one, other),
        (None, _) | (Some(_), None) => None,
    }
}

/// Two leaders that differ.
#[derive(Drop)]
struct NewestDiffer<'a> {
    slots: &'a Slots<'a, 'a>,
    group: &'a Guid,
}

impl Contrast for NewestDiffer<'_> {
    ghost use Rattle.ddf_group.specs.Conflicts.{differ_at};

    ghost contradicts = { λ test. differ_at test.slots.now test.group.now };

    fn contradict(&self, i: usize, j: usize) -> Option<Assembly> {
        match difference_of(self.slots.view(i), self.slots.view(j)) {
            Some(difference) => Some(in_conflict(
                self.slots,
                self.group,
                i,
                j,
                Differ::from(difference),
            )),
            None => None,
        }
    }
}

/// The first two of these leaders that differ. Where they are alike none do, and no pair is looked at.
pub(crate) fn differing(
    alloc: Global,
    slots: &Slots,
    group: &Guid,
    leading: &[usize],
) -> Result<Option<Assembly>, NoMemory>
    ensures { IfOk result (λ found. found ≡ first_pair (differ_at slots.now group.now) leading.now) }
{
    let views = views_of(alloc, slots, leading)?;
    if are_alike(&views) {
        return Ok(None);
    }
    Ok(first_pair(&NewestDiffer { slots, group }, leading))
}
