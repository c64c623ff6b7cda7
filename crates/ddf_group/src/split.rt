//! Older records that list the disk of a newest one as missing: the group went on without it, and it went on elsewhere. docs/REFUSALS.md#split
ghost use Rattle.std.specs.Prelude.{◌≡◌, find, option_map};
ghost use Rattle.ddf_group.specs.Pairs.{first_with};
ghost use Rattle.ddf_group.specs.Slots.{numbers, slot_at};
ghost use Rattle.ddf_group.specs.Conflicts.{lists_disk_missing, split_from, splits_from};

use crate::Assembly;
use crate::slots::Slots;
use ddf_bytes::Guid;
use ddf_view::View;

/// Whether a slot lists a disk as missing.
fn lists_disk_missing(slots: &Slots, slot: usize, disk: Option<&View>) -> bool
    ensures { result ≡ lists_disk_missing (slot_at slots.now slot) (option_map (λ view. view.now) disk.entry) }
{
    match disk {
        Some(disk) => slots.lists_missing(slot, &disk.guid(), disk.reference()),
        None => false,
    }
}

/// Whether a slot shows the group, doesn't lead it, and lists a leader's disk as missing.
fn splits_from(slots: &Slots, group: &Guid, leader: usize, slot: usize) -> bool
    ensures { result ≡ splits_from slots.now group.now leader slot }
{
    slots.shows(group, slot)
        && lists_disk_missing(slots, slot, slots.view(leader))
        && !slots.leads(group, slot)
}

/// The first slot that does.
fn first_split(slots: &Slots, group: &Guid, leader: usize) -> Option<usize>
    ensures { result ≡ find (splits_from slots.now group.now leader) (numbers slots.now) }
{
    (0..slots.count()).find(|slot| splits_from(slots, group, leader, *slot))
}

fn split_from(slots: &Slots, group: &Guid, leader: usize) -> Option<Assembly>
    ensures { result ≡ split_from slots.now group.now leader }
{
    match first_split(slots, group, leader) {
        Some(slot) => Some(Assembly::Split { i: leader, j: slot }),
        None => None,
    }
}

/// The first of these leaders that an older record lists as missing.
pub(crate) fn split_in(slots: &Slots, group: &Guid, leading: &[usize]) -> Option<Assembly>
    ensures { result ≡ first_with (split_from slots.now group.now) leading.now }
{
    for leader in leading {
        if let Some(found) = split_from(slots, group, *leader) {
            return Some(found);
        }
    }
    None
}
