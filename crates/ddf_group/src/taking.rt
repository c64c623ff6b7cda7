//! Disks of another group that this one takes over: those that have joined it, where an import was cut. Any other would be lost to its own
//! group. docs/FAULTS.md#a-former-group-that-went-on-by-itself
ghost use Rattle.std.specs.Prelude.{◌≡◌, ◌&&◌, ◌||◌, not, filter_map, option_map};
ghost use Rattle.std.specs.List.{list_all, list_any};
ghost use Rattle.ddf_view.specs.View.{disk_of, lists_current, lists_missing};
ghost use Rattle.ddf_group.specs.Taking.{has_joined, has_lost, lists, shows_untaken, takes_over};

use crate::slots::Slots;
use ddf_bytes::Guid;
use ddf_tables::{DiskEntry, DiskRow};
use ddf_view::View;

/// The disk of a row that is used.
fn disk_of(row: &DiskRow) -> Option<DiskEntry>
    ensures { result ≡ disk_of row.now }
{
    match row {
        DiskRow::Entry(entry) => Some(*entry),
        DiskRow::Unused(_) => None,
    }
}

/// Whether a copy lists a disk, as a current member or as a missing one.
fn lists(view: &View, disk: &DiskEntry) -> bool
    ensures { result ≡ lists view.now disk.now }
{
    view.lists_current(&disk.guid, disk.reference) || view.lists_missing(&disk.guid, disk.reference)
}

/// Whether each disk of these rows that the former group counts as a current member is listed by this one.
fn lists_members(leader: &View, former: &View, rows: &[DiskRow]) -> bool
    ensures { result ≡ list_all (λ disk. not (lists_current former.now disk.guid disk.reference) || lists leader.now disk) (filter_map disk_of rows.now) }
{
    rows.iter().filter_map(disk_of).all(|disk| {
        !former.lists_current(&disk.guid, disk.reference) || lists(leader, &disk)
    })
}

/// Whether each disk of these rows is listed.
fn lists_all(view: &View, rows: &[DiskRow]) -> bool
    ensures { result ≡ list_all (lists view.now) (filter_map disk_of rows.now) }
{
    rows.iter()
        .filter_map(disk_of)
        .all(|disk| lists(view, &disk))
}

/// Whether the former group has lost a disk of these rows that is a current member of this one.
fn has_lost(leader: &View, former: &View, rows: &[DiskRow]) -> bool
    ensures { result ≡ list_any (λ disk. lists_missing former.now disk.guid disk.reference && lists_current leader.now disk.guid disk.reference) (filter_map disk_of rows.now) }
{
    rows.iter().filter_map(disk_of).any(|disk| {
        former.lists_missing(&disk.guid, disk.reference)
            && leader.lists_current(&disk.guid, disk.reference)
    })
}

/// Whether the former group has joined this one: its members are listed here, beside disks that it doesn't know, and none that it has lost
/// is one.
fn has_joined(leader: &View, former: &View) -> bool
    ensures { result ≡ has_joined leader.now former.now }
{
    let rows = former.disk_rows();
    lists_members(leader, former, rows)
        && !lists_all(former, leader.disk_rows())
        && !has_lost(leader, former, rows)
}

/// The same of the groups' leaders: the other group's disks are taken over.
fn takes_over(leader: Option<&View>, former: Option<&View>) -> bool
    ensures { result ≡ takes_over (option_map (λ view. view.now) leader.entry) (option_map (λ view. view.now) former.entry) }
{
    match (leader, former) {
        (Some(leader), Some(former)) => has_joined(leader, former),
        (None, _) | (Some(_), None) => false,
    }
}

/// Whether a slot shows another group than this one, whose disks aren't taken over: that group hasn't joined this one, or it has lost a
/// disk of this one since (profile).
pub fn shows_untaken(slots: &Slots, group: &Guid, slot: usize) -> bool
    ensures { result ≡ shows_untaken slots.now group.now slot }
{
    match slots.group(slot) {
        Some(other) => {
            *group != other && !takes_over(slots.leading_view(group), slots.leading_view(&other))
        }
        None => false,
    }
}
